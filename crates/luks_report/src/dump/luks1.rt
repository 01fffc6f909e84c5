//! The texts of a LUKS1 header.

ghost use Rattle.std.specs.Prelude.{◌≡◌, ◌++◌, IfOk, OnOk, length, string_bytes, ◌≤◌};
ghost use Rattle.luks_report.specs.Dump1.{cipher_line, dump1_of, enabled_text, number_lines};
ghost use Rattle.luks_report.specs.Dump1.{slot1_line, slot1_lines, state_text, text1_lines};
ghost use Rattle.luks_report.specs.Dump1.{uuid1_line};

use crate::dump_line::{push_bytes, push_field, push_number, push_text};
use crate::escaping::{escape, push_escaped_text};
use luks_header::header::{Header1, SlotState, StoredSlot};
use std::alloc::{AllocError, Global};

/// The line with the UUID alone.
#[tactic(auto, unfolding(crate::specs::Dump1::uuid1_line))]
pub(super) fn uuid_text(alloc: Global, header: &Header1) -> Result<String, AllocError>
    ensures { IfOk result (λ lines. string_bytes lines ≡ uuid1_line header.now) }
{
    let mut lines = escape(alloc, header.uuid.as_bytes())?;
    lines.push('\n')?;
    Ok(lines)
}

/// The dump of a header.
#[tactic(auto, unfolding(crate::specs::Dump1::dump1_of))]
pub(super) fn dump_text(alloc: Global, header: &Header1) -> Result<String, AllocError>
    ensures { IfOk result (λ lines. string_bytes lines ≡ dump1_of header.now) }
{
    let mut lines = String::new(alloc);
    push_texts(alloc, &mut lines, header)?;
    push_numbers(alloc, &mut lines, header)?;
    push_slots(alloc, &mut lines, &header.slots)?;
    Ok(lines)
}

/// Adds the lines from the version to the hash.
#[tactic(auto, unfolding(crate::specs::Dump1::text1_lines))]
fn push_texts(alloc: Global, lines: &mut String, header: &Header1) -> Result<(), AllocError>
    ensures { OnOk result
        (string_bytes lines.new ≡ string_bytes lines.old ++ text1_lines header.now) }
{
    push_field(lines, "Version", "1")?;
    push_text(alloc, lines, "UUID", header.uuid.as_bytes())?;
    push_cipher(alloc, lines, header)?;
    push_text(alloc, lines, "Hash", header.hash_spec.as_bytes())
}

/// Adds the line of the cipher and its mode.
#[tactic(auto, unfolding(crate::specs::Dump1::cipher_line))]
fn push_cipher(alloc: Global, lines: &mut String, header: &Header1) -> Result<(), AllocError>
    ensures { OnOk result
        (string_bytes lines.new ≡ string_bytes lines.old ++ cipher_line header.now) }
{
    let mut cipher = escape(alloc, header.cipher_name.as_bytes())?;
    cipher.push('-')?;
    push_escaped_text(alloc, &mut cipher, header.cipher_mode.as_bytes())?;
    push_field(lines, "Cipher", cipher.as_str())
}

/// Adds the lines from the payload's offset to the iterations of the digest.
#[tactic(auto, unfolding(crate::specs::Dump1::number_lines))]
fn push_numbers(alloc: Global, lines: &mut String, header: &Header1) -> Result<(), AllocError>
    ensures { OnOk result
        (string_bytes lines.new ≡ string_bytes lines.old ++ number_lines header.now) }
{
    push_number(alloc, lines, "Payload offset", header.payload_offset as u64)?;
    push_number(alloc, lines, "Key bytes", header.key_bytes as u64)?;
    push_bytes(alloc, lines, "MK digest", &header.digest)?;
    push_bytes(alloc, lines, "MK salt", &header.digest_salt)?;
    push_number(
        alloc,
        lines,
        "MK iterations",
        header.digest_iterations as u64,
    )
}

/// Adds a line for each key slot.
#[tactic(auto, unfolding(crate::specs::Dump1::slot1_lines))]
fn push_slots(alloc: Global, lines: &mut String, slots: &[StoredSlot]) -> Result<(), AllocError>
    requires { length slots.now ≤ 8 }
    ensures { OnOk result
        (string_bytes lines.new ≡ string_bytes lines.old ++ slot1_lines 0 slots.now) }
{
    for (number, slot) in slots.iter().enumerate() {
        push_slot(alloc, lines, number, slot)?;
    }
    Ok(())
}

/// Adds the line of one key slot.
#[tactic(auto, unfolding(crate::specs::Dump1::slot1_line))]
fn push_slot(
    alloc: Global,
    lines: &mut String,
    number: usize,
    slot: &StoredSlot,
) -> Result<(), AllocError>
    ensures { OnOk result
        (string_bytes lines.new ≡ string_bytes lines.old ++ slot1_line number slot.now) }
{
    let name = format!(in alloc; "Slot {number}")?;
    let text = describe_slot(alloc, slot)?;
    push_field(lines, name.as_str(), text.as_str())
}

/// The text of a key slot.
#[tactic(auto, unfolding(crate::specs::Dump1::state_text))]
fn describe_slot(alloc: Global, slot: &StoredSlot) -> Result<String, AllocError>
    ensures { IfOk result (λ text. string_bytes text ≡ state_text slot.now slot.now.state) }
{
    match slot.state {
        SlotState::Enabled => {
            let salt = hex::encode(alloc, slot.salt.as_slice())?;
            describe_enabled(
                alloc,
                slot.iterations,
                salt.as_str(),
                slot.offset,
                slot.stripes,
            )
        }
        SlotState::Disabled => String::from_str(alloc, "DISABLED"),
        SlotState::Damaged(number) => {
            let digits = hex::encode(alloc, number.to_be_bytes().as_slice())?;
            format!(in alloc; "DAMAGED state={digits}")
        }
    }
}

/// The text of a key slot that is in use.
fn describe_enabled(
    alloc: Global,
    iterations: u32,
    salt: &str,
    offset: u32,
    stripes: u32,
) -> Result<String, AllocError>
    ensures { IfOk result
        (λ text. string_bytes text ≡ enabled_text iterations salt.now offset stripes) }
{
    let mut text = format!(in alloc; "ENABLED iterations={iterations} salt={salt}")?;
    write!(text, " offset={offset} stripes={stripes}")?;
    Ok(text)
}
