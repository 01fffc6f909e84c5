//! How inputs are opened: files by name, standard input by `-`.

ghost use Rattle.std.specs.Prelude.{◌≡◌, ◌≢◌, codes};
ghost use Rattle.luks_host.specs.Openings.{IsNamedInput, IsStandardInput, KnowsRefused};

use crate::input::is_refused;
use crate::is_output::is_output;
use crate::storage::FileFacts;
use crate::system::{InputFault, System};
use std::alloc::{AllocError, Global};

/// An input that is open.
#[derive(Drop)]
pub enum OpenedInput<F> {
    /// Standard input.
    Standard,
    /// A file, a pipe or a device with a name.
    Named(F),
}

/// Opens the named file, or standard input for `-`. A directory is refused, and so is what standard
/// output writes to.
pub fn open_input<S: System>(
    system: &S,
    alloc: Global,
    name: &str,
) -> Result<OpenedInput<S::File>, InputFault>
    ensures standard { name.now ≡ codes "-"
        → IsStandardInput (S.finds system.now) (S.shows system.now) result }
    ensures file { name.now ≢ codes "-"
        → IsNamedInput (S.finds system.now) (S.shows system.now) (S.opens system.now)
        (S.describes system.now) name.now result }
{
    if name == "-" {
        open_standard(system, alloc)
    } else {
        open_file(system, alloc, name)
    }
}

/// Opens standard input. It is not refused if the system does not tell what it is, as without
/// `/proc`.
fn open_standard<S: System>(system: &S, alloc: Global) -> Result<OpenedInput<S::File>, InputFault>
    ensures { IsStandardInput (S.finds system.now) (S.shows system.now) result }
{
    let Some(facts) = system.facts_at("/proc/self/fd/0") else {
        return Ok(OpenedInput::Standard);
    };
    if is_refused_input(system, alloc, &facts)? {
        return Err(InputFault::NotOpened);
    }
    Ok(OpenedInput::Standard)
}

/// Opens the file with this name.
fn open_file<S: System>(
    system: &S,
    alloc: Global,
    name: &str,
) -> Result<OpenedInput<S::File>, InputFault>
    ensures { IsNamedInput (S.finds system.now) (S.shows system.now) (S.opens system.now)
        (S.describes system.now) name.now result }
{
    let file = system.open(name)?;
    let facts = system.facts_of(&file)?;
    if is_refused_input(system, alloc, &facts)? {
        return Err(InputFault::NotOpened);
    }
    Ok(OpenedInput::Named(file))
}

/// Whether the input with these facts is refused.
fn is_refused_input<S: System>(
    system: &S,
    alloc: Global,
    facts: &FileFacts,
) -> Result<bool, AllocError>
    ensures { KnowsRefused (S.finds system.now) (S.shows system.now) facts.now result }
{
    let is_output = is_output(system, alloc, facts)?;
    Ok(is_refused(facts.kind, is_output))
}
