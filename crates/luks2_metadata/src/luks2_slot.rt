//! The verdicts on the key slots of a header.

ghost use Rattle.std.specs.Prelude.{◌≡◌, ◌≤◌, ◌&&◌, [], codes, IfOk, option_map, unwrap_or};
ghost use Rattle.luks_format.specs.Rule.{area_out_of_range, key_material_len};
ghost use Rattle.luks_format.specs.Slot.{has_no_usable_digest, verdict_kind_of};
ghost use Rattle.luks_format.specs.Table.{first_match};
ghost use Rattle.luks2_json.specs.Member.{base64_member, in_member, is_length_for};
ghost use Rattle.luks2_metadata.specs.Digest2.{digest2_for};
ghost use Rattle.luks2_metadata.specs.Slot2.{form_reasons, material_reasons, reason2_of};
ghost use Rattle.luks2_metadata.specs.Slot2.{slot2_at, slot2_of, slot_parts2_of};
ghost use Rattle.luks2_metadata.specs.Slot2.{values_of, verdict2_at, verdict2_of};
ghost use Rattle.serde_json.specs.View.{view as data_of};

mod derivation;
mod members;
pub mod values;

use crate::bounds::Bounds;
use crate::luks2_digest::{digest_for, digest_iterations_for};
use crate::luks2_segment::find_payload;
use derivation::{has_argon2, is_kdf_type, variant};
use luks_cipher::Mode;
use luks_format::bytes::HeaderBytes;
use luks_format::derivation::Limits;
use luks_format::refusal::SkipReason;
use luks_format::rule::{
    area_out_of_range, iterations_out_of_range, key_material_len, stripes_out_of_range,
};
use luks_format::slot::{Slot, SlotParts, VerdictKind};
use luks2_json::derivation::bytes_in;
use luks2_json::encryption::is_length_for;
use luks2_json::member::is_type;
use luks2_json::numbered::object_numbered;
use luks2_json::tree::Metadata;
use members::has_members;
use serde_json::Value;
use std::alloc::{AllocError, Global};
use values::{SlotValues, slot_values};

// The slot's keys have valid lengths for their modes.
fn are_key_sizes(payload_mode: Option<Mode>, slot: SlotValues) -> bool
    ensures { result ≡ (is_length_for slot.area_mode slot.area_key_bytes
        && is_length_for payload_mode slot.key_bytes) }
{
    is_length_for(slot.area_mode, slot.area_key_bytes)
        && is_length_for(payload_mode, slot.key_bytes)
}

// The slot's key area is too small for the key material, or out of range.
fn is_area_out_of_range(slot: SlotValues, header_end: u64, payload: Option<u64>) -> bool
    requires short { slot.key_bytes ≤ 64 }
    requires few { slot.stripes ≤ 4000 }
    ensures { result ≡ area_out_of_range header_end payload slot.area_offset slot.area_size
        (key_material_len slot.key_bytes slot.stripes) }
{
    let material_len = key_material_len(slot.key_bytes as u32, slot.stripes as u32);
    area_out_of_range(
        header_end,
        payload,
        slot.area_offset,
        slot.area_size,
        material_len,
    )
}

// There is no usable digest for the slot with this number, or its iterations are out of range.
#[tactic(auto, unfolding(luks_format::specs::Slot::has_no_usable_digest))]
fn has_no_usable_digest(tree: &Value, limit: Option<u32>, number: u8) -> bool
    ensures { result ≡ has_no_usable_digest limit (digest2_for (data_of tree.now) number) }
{
    match digest_iterations_for(tree, number) {
        Some(iterations) => iterations_out_of_range(limit, u64::from(iterations)),
        None => true,
    }
}

// The first reason to skip a slot because of what it is, and of the function that derives its key.
#[tactic(auto, unfolding(crate::specs::Slot2::form_reasons))]
fn form_refusal(limits: Limits, slot: &Value) -> Option<SkipReason>
    ensures { result ≡ first_match (form_reasons limits (data_of slot.now)) }
{
    let no_argon2 = limits.argon2.is_none();
    let variant = variant(slot);
    if !is_type(slot, "luks2") {
        Some(SkipReason::Kind)
    } else if !has_members(slot) {
        Some(SkipReason::Member)
    } else if no_argon2 && is_kdf_type(slot, "argon2i") {
        Some(SkipReason::Argon2i)
    } else if no_argon2 && is_kdf_type(slot, "argon2id") {
        Some(SkipReason::Argon2id)
    } else if variant.is_none() && !is_kdf_type(slot, "pbkdf2") {
        Some(SkipReason::Kdf)
    } else if variant.is_some() && !has_argon2(slot) {
        Some(SkipReason::Member)
    } else {
        None
    }
}

// The first reason because of the hash functions, the modes, the keys and the stripes.
#[tactic(auto, unfolding(crate::specs::Slot2::material_reasons, crate::specs::Slot2::values_of))]
fn material_refusal(
    slot: &Value,
    payload_mode: Option<Mode>,
    values: SlotValues,
) -> Option<SkipReason>
    requires { values ≡ values_of (slot_parts2_of (data_of slot.now)) }
    ensures { result
        ≡ first_match (material_reasons payload_mode (slot_parts2_of (data_of slot.now))) }
{
    if !values.derivation.has_known_hash() || values.af_hash.is_none() {
        Some(SkipReason::Hash)
    } else if values.area_mode.is_none() {
        Some(SkipReason::Encryption)
    } else if !are_key_sizes(payload_mode, values) {
        Some(SkipReason::KeySize)
    } else if stripes_out_of_range(values.stripes) {
        Some(SkipReason::Stripes)
    } else {
        None
    }
}

// The first reason to skip the slot of this number, whose members have these values.
#[tactic(auto, unfolding(crate::specs::Slot2::reason2_of, crate::specs::Slot2::place_reasons, crate::specs::Slot2::values_of,))]
fn reason(
    tree: &Value,
    bounds: Bounds,
    limits: Limits,
    number: u8,
    slot: &Value,
    values: SlotValues,
) -> Option<SkipReason>
    requires { values ≡ values_of (slot_parts2_of (data_of slot.now)) }
    ensures { result ≡ reason2_of (data_of tree.now) bounds limits number (data_of slot.now) }
{
    let payload = find_payload(tree, bounds);
    if let Some(reason) = form_refusal(limits, slot) {
        return Some(reason);
    }
    if let Some(reason) = material_refusal(slot, payload.mode, values) {
        return Some(reason);
    }
    if let Some(reason) = values.derivation.refusal(limits) {
        return Some(reason);
    }
    if is_area_out_of_range(values, bounds.end, payload.start) {
        Some(SkipReason::Area)
    } else if has_no_usable_digest(tree, limits.max_iterations, number) {
        Some(SkipReason::Digest)
    } else {
        None
    }
}

// The verdict on a slot, without what is needed to open it.
#[tactic(auto, unfolding(crate::specs::Slot2::verdict2_of))]
fn slot_verdict_kind(
    tree: &Value,
    bounds: Bounds,
    limits: Limits,
    number: u8,
    slot: &Value,
) -> VerdictKind
    ensures { result ≡ verdict_kind_of
        (verdict2_of (data_of tree.now) bounds limits number (data_of slot.now)) }
{
    let values = slot_values(slot);
    match reason(tree, bounds, limits, number, slot, values) {
        Some(reason) => VerdictKind::Skipped(reason),
        None => VerdictKind::Usable(values.priority),
    }
}

/// The verdict on the key slot of this number, if there is one, in a header with these bounds. A
/// slot that costs more than the limits is skipped. This allocates nothing.
#[tactic(auto, unfolding(crate::specs::Slot2::verdict2_at))]
pub fn verdict_kind(
    metadata: &Metadata,
    bounds: Bounds,
    limits: Limits,
    number: u8,
) -> Option<VerdictKind>
    ensures { result ≡ option_map verdict_kind_of (verdict2_at metadata.now bounds limits number) }
{
    let slot = object_numbered(metadata.tree(), "keyslots", number)?;
    Some(slot_verdict_kind(metadata.tree(), bounds, limits, number, slot))
}

// The salt of the key derivation, or no bytes if it is missing.
fn salt(alloc: Global, slot: &Value) -> Result<HeaderBytes, AllocError>
    ensures { IfOk result (λ salt. salt ≡ unwrap_or
        (in_member (codes "kdf") (base64_member (codes "salt")) (data_of slot.now)) []) }
{
    match slot.get("kdf") {
        Some(kdf) => bytes_in(alloc, kdf, "salt"),
        None => HeaderBytes::new(alloc, &[]),
    }
}

// The parts of a slot whose members have these values.
#[tactic(auto, unfolding(crate::specs::Slot2::slot_parts2_of, crate::specs::Slot2::values_of))]
fn parts(alloc: Global, slot: &Value, values: SlotValues) -> Result<SlotParts, AllocError>
    requires values { values ≡ values_of (slot_parts2_of (data_of slot.now)) }
    requires stripes { values.stripes ≤ 4000 }
    requires key { values.key_bytes ≤ 64 }
    requires area_key { values.area_key_bytes ≤ 64 }
    ensures { IfOk result (λ parts. parts ≡ slot_parts2_of (data_of slot.now)) }
{
    Ok(SlotParts {
        priority: values.priority,
        derivation: values.derivation,
        salt: salt(alloc, slot)?,
        af_hash: values.af_hash,
        stripes: values.stripes as u32,
        key_bytes: values.key_bytes as u32,
        area_key_bytes: values.area_key_bytes as u32,
        area_offset: values.area_offset,
        area_size: values.area_size,
        area_mode: values.area_mode,
    })
}

// What is needed to open a slot, unless there is a reason to skip it.
#[tactic(auto, unfolding(crate::specs::Slot2::slot2_of))]
fn slot2_of(
    alloc: Global,
    metadata: &Metadata,
    bounds: Bounds,
    limits: Limits,
    number: u8,
    slot: &Value,
) -> Result<Option<Slot>, AllocError>
    ensures { IfOk result (λ usable. usable
        ≡ slot2_of metadata.now bounds limits number (data_of slot.now)) }
{
    let values = slot_values(slot);
    if reason(metadata.tree(), bounds, limits, number, slot, values).is_some() {
        return Ok(None);
    }
    let parts = parts(alloc, slot, values)?;
    Ok(Slot::from_parts(parts, digest_for(alloc, metadata, number)?))
}

/// What is needed to open the key slot with this number in a header with these bounds, if there is
/// such a slot and no reason to skip it.
#[tactic(auto, unfolding(crate::specs::Slot2::slot2_at))]
pub fn slot(
    alloc: Global,
    metadata: &Metadata,
    bounds: Bounds,
    limits: Limits,
    number: u8,
) -> Result<Option<Slot>, AllocError>
    ensures { IfOk result (λ usable. usable ≡ slot2_at metadata.now bounds limits number) }
{
    match object_numbered(metadata.tree(), "keyslots", number) {
        Some(slot) => slot2_of(alloc, metadata, bounds, limits, number, slot),
        None => Ok(None),
    }
}
