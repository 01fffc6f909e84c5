//! The file under a loop device, as `/sys` names it.

ghost use Rattle.std.specs.Prelude.{◌≡◌, ◌≢◌, ◌++◌, ◌∷◌, [], List, ℕ, IfOk, MatchOption};
ghost use Rattle.std.specs.Prelude.{string_bytes};
ghost use Rattle.luks_host.specs.LoopDevices.{IsBackingEntry, backing_entry};

use crate::device_number::device_parts;
use std::alloc::{AllocError, Global};

/// The name of the entry in `/sys` that names the file under the loop device with this number.
pub fn backing_entry(alloc: Global, number: u64) -> Result<String, AllocError>
    ensures { IfOk result (λ name. IsBackingEntry number (string_bytes name)) }
{
    let parts = device_parts(number);
    entry_of(alloc, parts.major, parts.minor)
}

/// The name of the entry of the block device with these parts of its number.
#[tactic(auto, unfolding(crate::specs::LoopDevices::backing_entry))]
fn entry_of(alloc: Global, major: u64, minor: u64) -> Result<String, AllocError>
    ensures { IfOk result (λ name. string_bytes name ≡ backing_entry major minor) }
{
    let mut name = format!(in alloc; "/sys/dev/block/{major}:{minor}")?;
    name.push_str("/loop/backing_file")?;
    Ok(name)
}

/// The name of the file in the text of that entry. The kernel prints the name as it is, without
/// escapes, and one newline: blanks and other newlines at its end belong to the name. After the
/// name of a deleted file it prints ` (deleted)`, so that such a file is not found.
pub fn backing_name(text: &str) -> Option<&str>
    ensures { MatchOption result ((name : List ℕ) → text.now ≢ name ++ 10 ∷ [])
        (λ name. text.now ≡ name.now ++ 10 ∷ []) }
{
    text.strip_suffix('\n')
}
