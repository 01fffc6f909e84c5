//! Whether standard output writes to an input.

ghost use Rattle.std.specs.Prelude.{◌≡◌, ◌≢◌, IfOk, codes};
ghost use Rattle.luks_host.specs.Targets.{IsBelowEntry, IsBelowKind, IsNamedIn, IsSeen};
ghost use Rattle.luks_host.specs.Targets.{TellsOutput, TellsOutputAt};

use crate::loop_device::{backing_entry, backing_name};
use crate::storage::{FileFacts, FileKind, SeenFile, share_storage};
use crate::system::System;
use std::alloc::{AllocError, Global};

/// Whether standard output writes to the input of this name, or to standard input for `-`: not if
/// there is no such file.
pub fn is_output_named<S: System>(system: &S, alloc: Global, name: &str) -> Result<bool, AllocError>
    ensures standard { name.now ≡ codes "-" → TellsOutputAt (S.finds system.now)
        (S.shows system.now) (codes "/proc/self/fd/0") result }
    ensures file { name.now ≢ codes "-" → TellsOutputAt (S.finds system.now)
        (S.shows system.now) name.now result }
{
    let place = if name == "-" { "/proc/self/fd/0" } else { name };
    match system.facts_at(place) {
        Some(facts) => is_output(system, alloc, &facts),
        None => Ok(false),
    }
}

/// Whether standard output writes to the input with these facts, under any name. Without `/proc` or
/// `/sys`, or if the file under a loop device was deleted or has a name that is not UTF-8, fewer
/// cases are found. Memory is needed only if the input or the output is a block device.
pub fn is_output<S: System>(
    system: &S,
    alloc: Global,
    input: &FileFacts,
) -> Result<bool, AllocError>
    ensures { TellsOutput (S.finds system.now) (S.shows system.now) input.now result }
{
    match system.facts_at("/proc/self/fd/1") {
        Some(output) => {
            let (a, b) = (seen(system, alloc, input)?, seen(system, alloc, &output)?);
            Ok(share_storage(&a, &b))
        }
        None => Ok(false),
    }
}

/// The file with these facts, and what is under it.
fn seen<S: System>(system: &S, alloc: Global, facts: &FileFacts) -> Result<SeenFile, AllocError>
    ensures { IsSeen (S.finds system.now) (S.shows system.now) facts.now result }
{
    Ok(SeenFile {
        facts: *facts,
        backing: backing_of(system, alloc, facts)?,
    })
}

/// The file under a loop device, if `/sys` shows it.
fn backing_of<S: System>(
    system: &S,
    alloc: Global,
    facts: &FileFacts,
) -> Result<Option<FileFacts>, AllocError>
    ensures { IsBelowKind (S.finds system.now) (S.shows system.now) facts.now.kind
        facts.now.number result }
{
    match facts.kind {
        FileKind::BlockDevice => {
            let entry = backing_entry(alloc, facts.number)?;
            below_entry(system, alloc, entry.as_str())
        }
        FileKind::Regular | FileKind::Directory | FileKind::Other => Ok(None),
    }
}

/// The file that this entry of `/sys` names.
fn below_entry<S: System>(
    system: &S,
    alloc: Global,
    entry: &str,
) -> Result<Option<FileFacts>, AllocError>
    ensures { IfOk result (IsBelowEntry (S.finds system.now) (S.shows system.now) entry.now) }
{
    match system.text_at(alloc, entry)? {
        Some(text) => Ok(named_in(system, text.as_str())),
        None => Ok(None),
    }
}

/// The file whose name is in this text.
fn named_in<S: System>(system: &S, text: &str) -> Option<FileFacts>
    ensures { IsNamedIn (S.finds system.now) text.now result }
{
    match backing_name(text) {
        Some(name) => system.facts_at(name),
        None => None,
    }
}
