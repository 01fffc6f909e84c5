//! What `luksCheck` prints, and how it ends.

ghost use Rattle.std.specs.Prelude.{◌≡◌, IfOk, string_bytes};
ghost use Rattle.luks_report.specs.Texts.{check_of, message_for_check, result_message};

use crate::findings::findings;
use crate::message::Message;
use luks_header::header::Header;
use std::alloc::{AllocError, Global};

/// What `luksCheck` prints, and how it ends once that is printed: each finding on a line of its own
/// and [`Message::Findings`], or that there is none. The number of iterations has no limit here.
#[tactic(auto, unfolding(crate::specs::Texts::check_of, crate::specs::Texts::message_for_check))]
pub fn check_text(
    alloc: Global,
    header: &Header,
) -> Result<(String, Result<(), Message>), AllocError>
    ensures lines { IfOk result (λ checked. string_bytes checked.0 ≡ check_of header.now) }
    ensures message { IfOk result
        (λ checked. result_message checked.1 ≡ message_for_check header.now) }
{
    let lines = findings(alloc, header)?;
    if lines.is_empty() {
        Ok((String::from_str(alloc, "clean\n")?, Ok(())))
    } else {
        Ok((lines, Err(Message::Findings)))
    }
}
