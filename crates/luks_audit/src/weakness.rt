//! What is weak about a header.

ghost use Rattle.std.specs.Prelude.{◌≡◌, ◌++◌, IfOk, OnOk, Some, codes, flat_map, option_map};
ghost use Rattle.luks_audit.specs.Weakness.{any_fails, area_weaknesses, by_limit, by_name};
ghost use Rattle.luks_audit.specs.Weakness.{cipher_weaknesses, cost_severity, cost_weaknesses};
ghost use Rattle.luks_audit.specs.Weakness.{digest_weaknesses, fails, found_if, hash_in};
ghost use Rattle.luks_audit.specs.Weakness.{key_weakness, least_iterations, segment_weaknesses};
ghost use Rattle.luks_audit.specs.Weakness.{sha1_of, slot_weaknesses, weak_list};

use crate::key_len::{LEAST_KEY_LEN, is_known_short, is_short, own_key_len, segment_key_len};
use crate::rows::{CipherMode, DigestRow, PayloadRow, SlotRow, TokenRow};
use crate::rule::{
    LEAST_DIGEST_ITERATIONS, LEAST_MEMORY, has_few_iterations, has_few_passes, has_little_memory,
    hash_in, least_iterations, least_passes, names_sha1,
};
use crate::text::Text;
use crate::token::has_random_key;
use crate::weak_row::{Part, Severity, WeakRow, Weakness};
use std::alloc::{AllocError, Global};

// A weakness by a number, which is below its limit.
#[tactic(auto, unfolding(crate::specs::Weakness::by_limit))]
fn by_limit(
    weakness: Weakness,
    part: Part,
    severity: Severity,
    number: Option<u64>,
    limit: u64,
) -> WeakRow
    ensures { result ≡ by_limit weakness part severity number limit }
{
    WeakRow {
        weakness,
        part,
        text: None,
        number,
        limit: Some(limit),
        severity,
    }
}

// A copy of the text, if there is one.
fn copied(alloc: Global, text: &Option<Text>) -> Result<Option<Text>, AllocError>
    ensures { IfOk result (λ made. made ≡ text.now) }
{
    match text {
        Some(text) => Ok(Some(text.copy(alloc)?)),
        None => Ok(None),
    }
}

// A weakness by the name of a cipher or a hash function.
#[tactic(auto, unfolding(crate::specs::Weakness::by_name))]
fn by_name(
    alloc: Global,
    weakness: Weakness,
    part: Part,
    severity: Severity,
    text: &Option<Text>,
) -> Result<WeakRow, AllocError>
    ensures { IfOk result (λ row. row ≡ by_name weakness part severity text.now) }
{
    Ok(WeakRow {
        weakness,
        part,
        text: copied(alloc, text)?,
        number: None,
        limit: None,
        severity,
    })
}

// Adds a weakness, if the test holds.
fn push_if(weak: &mut Vec<WeakRow>, holds: bool, row: WeakRow) -> Result<(), AllocError>
    ensures { OnOk result (weak.new.items ≡ weak.old.items ++ found_if holds row) }
{
    if holds {
        weak.push(row)?;
    }
    Ok(())
}

// Adds that a hash function is SHA-1, if it is.
fn push_hash_if(
    alloc: Global,
    weak: &mut Vec<WeakRow>,
    holds: bool,
    part: Part,
    text: &Option<Text>,
) -> Result<(), AllocError>
    ensures { OnOk result (weak.new.items ≡ weak.old.items
        ++ found_if holds (by_name Weakness.BrokenHash part Severity.Low text.now)) }
{
    if holds {
        let row = by_name(alloc, Weakness::BrokenHash, part, Severity::Low, text)?;
        weak.push(row)?;
    }
    Ok(())
}

// Adds what is weak about a cipher's mode.
#[tactic(auto, unfolding(crate::specs::Weakness::cipher_weaknesses))]
fn push_cipher(
    alloc: Global,
    weak: &mut Vec<WeakRow>,
    part: Part,
    mode: CipherMode,
    cipher: &Option<Text>,
) -> Result<(), AllocError>
    ensures { OnOk result
        (weak.new.items ≡ weak.old.items ++ cipher_weaknesses part mode cipher.now) }
{
    let row = match mode {
        CipherMode::Null => by_name(alloc, Weakness::NullCipher, part, Severity::High, cipher)?,
        CipherMode::Ecb => by_name(alloc, Weakness::EcbMode, part, Severity::High, cipher)?,
        CipherMode::Cbc => by_name(alloc, Weakness::CbcMode, part, Severity::Low, cipher)?,
        CipherMode::Xts | CipherMode::Lrw | CipherMode::Other => return Ok(()),
    };
    Ok(weak.push(row)?)
}

// That the cipher's own key is short.
#[tactic(auto, unfolding(crate::specs::Weakness::key_weakness))]
fn key_weakness(part: Part, mode: CipherMode, bytes: Option<u64>) -> WeakRow
    ensures { result ≡ key_weakness part mode bytes }
{
    let len = match bytes {
        Some(bytes) => Some(own_key_len(mode, bytes)),
        None => None,
    };
    by_limit(Weakness::ShortKey, part, Severity::Low, len, LEAST_KEY_LEN)
}

// How severe the cost of deriving a slot's key is.
fn cost_severity(slot: &SlotRow, tokens: &[TokenRow]) -> Severity
    ensures { result ≡ cost_severity slot.now tokens.now }
{
    if has_random_key(slot.number, tokens) {
        Severity::Low
    } else {
        Severity::High
    }
}

// That a slot has few iterations.
fn iterations_row(minimum: Option<u32>, severity: Severity, slot: &SlotRow) -> WeakRow
    ensures { result ≡ by_limit Weakness.FewIterations (Part.Slot slot.now.number) severity
        slot.now.iterations (least_iterations minimum (hash_in slot.now.hash)) }
{
    let least = least_iterations(minimum, hash_in(&slot.hash));
    by_limit(
        Weakness::FewIterations,
        Part::Slot(slot.number),
        severity,
        slot.iterations,
        least,
    )
}

// Adds what is weak about how a slot derives its key.
#[tactic(auto, unfolding(crate::specs::Weakness::cost_weaknesses))]
fn push_cost(
    weak: &mut Vec<WeakRow>,
    minimum: Option<u32>,
    severity: Severity,
    slot: &SlotRow,
) -> Result<(), AllocError>
    ensures { OnOk result
        (weak.new.items ≡ weak.old.items ++ cost_weaknesses minimum severity slot.now) }
{
    let part = Part::Slot(slot.number);
    let iterations = iterations_row(minimum, severity, slot);
    let memory = by_limit(
        Weakness::LittleMemory,
        part,
        severity,
        slot.memory,
        LEAST_MEMORY,
    );
    let least = least_passes(slot.memory.unwrap_or(0));
    let passes = by_limit(Weakness::FewPasses, part, Severity::Low, slot.time, least);
    push_if(weak, has_few_iterations(minimum, slot), iterations)?;
    push_if(weak, has_little_memory(slot), memory)?;
    push_if(weak, has_few_passes(slot), passes)
}

// The hash function of a slot that is SHA-1.
fn sha1_of(slot: &SlotRow) -> &Option<Text>
    ensures { result.now ≡ sha1_of slot.now }
{
    if names_sha1(&slot.hash) {
        &slot.hash
    } else {
        &slot.af_hash
    }
}

// Adds what is weak about a slot's hash functions and the encryption of its key material.
#[tactic(auto, unfolding(crate::specs::Weakness::area_weaknesses))]
fn push_area(alloc: Global, weak: &mut Vec<WeakRow>, slot: &SlotRow) -> Result<(), AllocError>
    ensures { OnOk result (weak.new.items ≡ weak.old.items ++ area_weaknesses slot.now) }
{
    let part = Part::Slot(slot.number);
    let broken = names_sha1(&slot.hash) || names_sha1(&slot.af_hash);
    let short = is_short(slot.mode, slot.area_key_bytes.unwrap_or(0));
    let key = key_weakness(part, slot.mode, slot.area_key_bytes);
    push_hash_if(alloc, weak, broken, part, sha1_of(slot))?;
    push_cipher(alloc, weak, part, slot.mode, &slot.area_cipher)?;
    push_if(weak, short, key)
}

// Adds the weaknesses of a key slot.
#[tactic(auto, unfolding(crate::specs::Weakness::slot_weaknesses))]
fn push_slot(
    alloc: Global,
    weak: &mut Vec<WeakRow>,
    minimum: Option<u32>,
    tokens: &[TokenRow],
    slot: &SlotRow,
) -> Result<(), AllocError>
    ensures { OnOk result
        (weak.new.items ≡ weak.old.items ++ slot_weaknesses minimum tokens.now slot.now) }
{
    if !slot.holds_key {
        return Ok(());
    }
    push_cost(weak, minimum, cost_severity(slot, tokens), slot)?;
    push_area(alloc, weak, slot)
}

// Adds the weaknesses of a digest.
#[tactic(auto, unfolding(crate::specs::Weakness::digest_weaknesses))]
fn push_digest(alloc: Global, weak: &mut Vec<WeakRow>, digest: &DigestRow) -> Result<(), AllocError>
    ensures { OnOk result (weak.new.items ≡ weak.old.items ++ digest_weaknesses digest.now) }
{
    let part = Part::Digest(digest.number);
    let few = digest.iterations.unwrap_or(0) < LEAST_DIGEST_ITERATIONS;
    let row = by_limit(
        Weakness::FewDigestIterations,
        part,
        Severity::Low,
        digest.iterations,
        LEAST_DIGEST_ITERATIONS,
    );
    push_hash_if(alloc, weak, names_sha1(&digest.hash), part, &digest.hash)?;
    push_if(weak, few, row)
}

// Adds that a segment is not encrypted, if one is not.
fn push_linear(alloc: Global, weak: &mut Vec<WeakRow>, holds: bool) -> Result<(), AllocError>
    ensures { OnOk result (weak.new.items ≡ weak.old.items ++ found_if holds
        (by_name Weakness.NullCipher Part.Segment Severity.High
        (Some (Text.Unicode (codes "linear"))))) }
{
    if holds {
        let text = Some(Text::copied(alloc, "linear")?);
        let null = Weakness::NullCipher;
        let row = by_name(alloc, null, Part::Segment, Severity::High, &text)?;
        weak.push(row)?;
    }
    Ok(())
}

// Adds the weaknesses of the segment.
#[tactic(auto, unfolding(crate::specs::Weakness::segment_weaknesses))]
fn push_segment(
    alloc: Global,
    weak: &mut Vec<WeakRow>,
    payload: &PayloadRow,
) -> Result<(), AllocError>
    ensures { OnOk result (weak.new.items ≡ weak.old.items ++ segment_weaknesses payload.now) }
{
    let bytes = segment_key_len(payload);
    let short = is_known_short(payload.mode, bytes);
    let key = key_weakness(Part::Segment, payload.mode, bytes);
    push_linear(alloc, weak, payload.has_linear)?;
    push_cipher(alloc, weak, Part::Segment, payload.mode, &payload.cipher)?;
    push_if(weak, short, key)
}

// Adds the weaknesses of the key slots.
fn push_slots(
    alloc: Global,
    weak: &mut Vec<WeakRow>,
    minimum: Option<u32>,
    tokens: &[TokenRow],
    slots: &[SlotRow],
) -> Result<(), AllocError>
    ensures { OnOk result (weak.new.items ≡ weak.old.items
        ++ flat_map (slot_weaknesses minimum tokens.now) slots.now) }
{
    for slot in slots {
        push_slot(alloc, weak, minimum, tokens, slot)?;
    }
    Ok(())
}

// Adds the weaknesses of the digests.
fn push_digests(
    alloc: Global,
    weak: &mut Vec<WeakRow>,
    digests: &[DigestRow],
) -> Result<(), AllocError>
    ensures { OnOk result
        (weak.new.items ≡ weak.old.items ++ flat_map digest_weaknesses digests.now) }
{
    for digest in digests {
        push_digest(alloc, weak, digest)?;
    }
    Ok(())
}

/// Everything that is weak. If no minimum of iterations is requested, OWASP's applies.
#[tactic(auto, unfolding(crate::specs::Weakness::weak_list))]
pub fn weak_list(
    alloc: Global,
    minimum: Option<u32>,
    payload: &PayloadRow,
    slots: &[SlotRow],
    digests: &[DigestRow],
    tokens: &[TokenRow],
) -> Result<Vec<WeakRow>, AllocError>
    ensures { IfOk result (λ weak.
        weak.items ≡ weak_list minimum payload.now slots.now digests.now tokens.now) }
{
    let mut weak = Vec::new(alloc);
    push_segment(alloc, &mut weak, payload)?;
    push_slots(alloc, &mut weak, minimum, tokens, slots)?;
    push_digests(alloc, &mut weak, digests)?;
    Ok(weak)
}

// Whether a weakness of this severity makes a header flawed.
fn fails(least: Severity, severity: Severity) -> bool
    ensures { result ≡ fails least severity }
{
    !matches!((least, severity), (Severity::High, Severity::Low))
}

/// Whether one of the weaknesses is at least as severe as this.
#[tactic(auto, unfolding(crate::specs::Weakness::any_fails))]
pub(crate) fn any_fails(least: Severity, weak: &[WeakRow]) -> bool
    ensures { result ≡ any_fails least weak.now }
{
    for index in 0..weak.len() {
        if fails(least, weak[index].severity) {
            return true;
        }
    }
    false
}
