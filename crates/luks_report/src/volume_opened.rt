//! The line that `testPassphrase` prints if a volume was opened.

ghost use Rattle.std.specs.Prelude.{◌≡◌, IfOk, string_bytes};
ghost use Rattle.luks_report.specs.Texts.{opened_line};

use std::alloc::{AllocError, Global};

/// The line about the key slot that opens.
#[tactic(auto, unfolding(crate::specs::Texts::opened_line))]
pub fn opened_text(alloc: Global, slot: u8) -> Result<String, AllocError>
    ensures { IfOk result (λ line. string_bytes line ≡ opened_line slot) }
{
    let mut line = format!(in alloc; "Key slot {slot}")?;
    line.push_str(" opens the volume.\n")?;
    Ok(line)
}
