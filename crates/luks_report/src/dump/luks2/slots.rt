//! The lines of key slots.

ghost use Rattle.std.specs.Prelude.{◌≡◌, ◌++◌, None, IfOk, OnOk, flat_map, string_bytes};
ghost use Rattle.luks_report.specs.Dump2.{hash_text, kdf_text, slot2_line, usable_text};
ghost use Rattle.luks_report.specs.Dump2.{variant_text, verdict_text};
ghost use Rattle.luks_format.specs.declared.derivation.Derivation.{Derivation};
ghost use Rattle.luks_header.specs.SlotVerdicts.{verdicts_of};

use crate::dump_line::push_field;
use luks_argon2::Variant;
use luks_format::derivation::{Argon2Parameters, Derivation};
use luks_format::slot::{SlotParts, Verdict};
use luks_header::header::Header;
use luks_header::header_slots::slots;
use luks_kdf::Hash;
use std::alloc::{AllocError, Global};

/// Adds a line for each key slot of a header.
pub(super) fn push_slots(
    alloc: Global,
    lines: &mut String,
    header: &Header,
) -> Result<(), AllocError>
    ensures { OnOk result (string_bytes lines.new
        ≡ string_bytes lines.old ++ flat_map slot2_line (verdicts_of header.now None)) }
{
    let verdicts = slots(alloc, header, None)?;
    push_all(alloc, lines, verdicts.as_slice())
}

// Adds a line for each of these key slots.
fn push_all(alloc: Global, lines: &mut String, verdicts: &[(u8, Verdict)]) -> Result<(), AllocError>
    ensures { OnOk result
        (string_bytes lines.new ≡ string_bytes lines.old ++ flat_map slot2_line verdicts.now) }
{
    for verdict in verdicts {
        push_slot(alloc, lines, verdict)?;
    }
    Ok(())
}

// Adds the line of a key slot.
fn push_slot(alloc: Global, lines: &mut String, verdict: &(u8, Verdict)) -> Result<(), AllocError>
    ensures { OnOk result
        (string_bytes lines.new ≡ string_bytes lines.old ++ slot2_line verdict.now) }
{
    let (number, verdict) = verdict;
    let name = format!(in alloc; "Slot {number}")?;
    let text = describe(alloc, verdict)?;
    push_field(lines, name.as_str(), text.as_str())
}

// The text of a key slot.
fn describe(alloc: Global, verdict: &Verdict) -> Result<String, AllocError>
    ensures { IfOk result (λ text. string_bytes text ≡ verdict_text verdict.now) }
{
    match verdict {
        Verdict::Usable(slot) => describe_usable(alloc, &slot.parts),
        Verdict::Disabled => String::from_str(alloc, "DISABLED"),
        Verdict::Skipped(reason) => {
            let reason = reason.text();
            format!(in alloc; "SKIPPED {reason}")
        }
    }
}

// The text of a key slot that can be tried.
#[tactic(auto, unfolding(crate::specs::Dump2::usable_text))]
fn describe_usable(alloc: Global, parts: &SlotParts) -> Result<String, AllocError>
    ensures { IfOk result (λ text. string_bytes text ≡ usable_text parts.now) }
{
    let priority = parts.priority;
    let kdf = kdf_text(alloc, parts.derivation)?;
    let offset = parts.area_offset;
    let size = parts.area_size;
    let mut text = format!(in alloc; "USABLE priority={priority} kdf={kdf}")?;
    write!(text, " offset={offset} size={size}")?;
    Ok(text)
}

// How the key of a slot is derived.
#[tactic(auto, unfolding(crate::specs::Dump2::kdf_text))]
fn kdf_text(alloc: Global, derivation: Derivation) -> Result<String, AllocError>
    ensures { IfOk result (λ text. string_bytes text ≡ kdf_text derivation) }
{
    match derivation {
        Derivation::Pbkdf2(hash, iterations) => pbkdf2_text(alloc, hash, iterations),
        Derivation::Argon2(parameters) => argon2_text(alloc, parameters),
    }
}

// How PBKDF2 derives the key of a slot.
#[tactic(auto, unfolding(crate::specs::Dump2::kdf_text))]
fn pbkdf2_text(alloc: Global, hash: Option<Hash>, iterations: u64) -> Result<String, AllocError>
    ensures { IfOk result (λ text.
        string_bytes text ≡ kdf_text (Derivation.Pbkdf2 hash iterations)) }
{
    let hash = hash_text(hash);
    let mut text = format!(in alloc; "pbkdf2 hash={hash}")?;
    write!(text, " iterations={iterations}")?;
    Ok(text)
}

// How Argon2 derives the key of a slot.
#[tactic(auto, unfolding(crate::specs::Dump2::kdf_text))]
fn argon2_text(alloc: Global, parameters: Argon2Parameters) -> Result<String, AllocError>
    ensures { IfOk result (λ text. string_bytes text ≡ kdf_text (Derivation.Argon2 parameters)) }
{
    let variant = variant_text(parameters.variant);
    let passes = parameters.passes;
    let memory_kib = parameters.memory_kib;
    let lanes = parameters.lanes;
    let mut text = format!(in alloc; "{variant} time={passes}")?;
    write!(text, " memory={memory_kib} cpus={lanes}")?;
    Ok(text)
}

// The name of a variant of Argon2.
fn variant_text(variant: Variant) -> &'static str
    ensures { result.now ≡ variant_text variant }
{
    match variant {
        Variant::Argon2i => "argon2i",
        Variant::Argon2id => "argon2id",
    }
}

/// The name of a hash function, or nothing if it is not known.
pub(super) fn hash_text(hash: Option<Hash>) -> &'static str
    ensures { result.now ≡ hash_text hash }
{
    match hash {
        Some(hash) => hash.name(),
        None => "",
    }
}
