//! Opens images, with the readers of this program.

use luks_audit_run::host::{ImageFault, Images};
use luks_host::input::Input;
use luks_host::open_input::{OpenedInput, open_input};
use luks_host::system::InputFault;
use luks_io::adapters::ReadSource;
use std::fs::File;
use std::io::Stdin;

/// An open image. It is read as requested: a header is read in a few large pieces.
pub type HostImage = ReadSource<Input<File, Stdin>>;

/// The images of the system. They are opened for reading alone.
#[derive(Drop)]
pub struct HostImages<'r> {
    rt: &'r HostRuntime,
    has_input: bool,
    failures: u64,
}

impl<'r> HostImages<'r> {
    /// The images of this system, and whether standard input is one: it is not if it was closed
    /// when the program started.
    pub fn new(rt: &'r HostRuntime, has_input: bool) -> HostImages<'r> {
        HostImages {
            rt,
            has_input,
            failures: 0,
        }
    }
}

impl<'r> Images for HostImages<'r> {
    ghost use Rattle.luks_audit_run.specs.Host.Stored.{unknown};

    type Image = HostImage;

    ghost stored = { λ _ _. unknown };

    ghost failures = { λ host. host.failures };

    fn open(&mut self, name: &str) -> Result<HostImage, ImageFault> {
        let reader = open_image(self.rt, self.has_input, name)?;
        Ok(ReadSource::new(reader))
    }

    fn close(&mut self, image: HostImage) {
        if image.counts().failures > 0 {
            self.failures = self.failures.saturating_add(1);
        }
    }
}

/// Opens the image of this name, unless standard output writes to it.
fn open_image(
    rt: &HostRuntime,
    has_input: bool,
    name: &str,
) -> Result<Input<File, Stdin>, ImageFault> {
    match open_input(rt, rt.alloc(), name) {
        Ok(OpenedInput::Standard) if !has_input => Err(ImageFault::NotOpened),
        Ok(OpenedInput::Standard) => Ok(Input::Standard(rt.stdin())),
        Ok(OpenedInput::Named(file)) => Ok(Input::Named(file)),
        Err(InputFault::NotOpened) => Err(ImageFault::NotOpened),
        Err(InputFault::Memory) => Err(ImageFault::Memory),
    }
}
