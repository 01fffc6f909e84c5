//! Opens the inputs of a run, with the readers of this program.

use luks_host::input::Input;
use luks_host::open_input::{OpenedInput, open_input};
use luks_host::system::InputFault;
use std::fs::File;
use std::io::Stdin;

/// An open input, over the readers of this program.
pub type HostInput = Input<File, Stdin>;

/// Opens the named file, or standard input for `-`.
pub fn open_host_input(rt: &HostRuntime, name: &str) -> Result<HostInput, InputFault> {
    match open_input(rt, rt.alloc(), name)? {
        OpenedInput::Standard => Ok(Input::Standard(rt.stdin())),
        OpenedInput::Named(file) => Ok(Input::Named(file)),
    }
}
