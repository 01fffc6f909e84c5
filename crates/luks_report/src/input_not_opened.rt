//! The message for an input that cannot be opened.

ghost use Rattle.std.specs.Prelude.{◌≡◌, IfOk, string_bytes};
ghost use Rattle.luks_report.specs.Texts.{not_opened_line};

use std::alloc::{AllocError, Global};

/// The exit status if an input cannot be opened.
pub const NOT_OPENED: u8 = 4;

/// The line about the input of this name, which is printed as given.
#[tactic(auto, unfolding(crate::specs::Texts::not_opened_line))]
pub fn not_opened_text(alloc: Global, name: &str) -> Result<String, AllocError>
    ensures { IfOk result (λ line. string_bytes line ≡ not_opened_line name.now) }
{
    format!(in alloc; "luksrd: cannot open {name}\n")
}
