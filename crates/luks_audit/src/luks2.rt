//! The fields of a LUKS2 header (LUKS2 On-Disk Format Specification 1.1, sections 2.1 and 3).

ghost use Rattle.std.specs.Prelude.{◌≡◌, IfOk, List, codes, length, option_map, ℕ};
ghost use Rattle.luks_audit.specs.Rows2.{any_linear, digest2_row, flags_of, has_linear};
ghost use Rattle.luks_audit.specs.Rows2.{header2_row, in_segment0, key_size_at, key_size_in};
ghost use Rattle.luks_audit.specs.Rows2.{length_in, payload2_row, priority2_of};
ghost use Rattle.luks_audit.specs.Rows2.{requirements_of, segment_flags_of, slot2_row, nested_text};
ghost use Rattle.luks_audit.specs.Rows2.{token2_row, volume_key_size};
ghost use Rattle.luks2_json.specs.Member.{base64_member, decimal_member, in_member};
ghost use Rattle.luks2_json.specs.Member.{integer_member, string_member};
ghost use Rattle.serde_json.specs.View.{members_view, view as data_of};

use crate::cipher::cipher_mode;
use crate::rows::{DigestRow, HeaderRow, Length, PayloadRow, SlotRow, TokenRow};
use crate::shape;
use crate::text::Text;
use crate::tree::Tree;
use luks_format::rule::MAX_SLOTS;
use luks_format::slot::VerdictKind;
use luks_header::header::Header2;
use luks2_json::list::{Names, strings_at};
use luks2_json::member::{
    base64_len, base64_member, decimal_member, integer_member, is_type, nested_decimal,
    nested_integer, nested_string, string_is, string_member,
};
use luks2_json::numbered::object_numbered;
use serde_json::{Map, Value};
use std::alloc::{AllocError, Global};

// ---- the binary header

/// The binary header.
#[tactic(auto, unfolding(crate::specs::Rows2::header2_row))]
pub(crate) fn header_row(alloc: Global, header: &Header2) -> Result<HeaderRow, AllocError>
    ensures { IfOk result (λ row. row ≡ header2_row header.now) }
{
    Ok(HeaderRow {
        version: 2,
        uuid: Text::fixed(header.uuid.as_bytes().to_vec(alloc)?),
        label: Some(Text::fixed(header.label.as_bytes().to_vec(alloc)?)),
        subsystem: Some(Text::fixed(header.subsystem.as_bytes().to_vec(alloc)?)),
        role: Some(header.role),
        finding: header.finding,
        seqid: Some(header.sequence),
        header_size: Some(u64::from(header.size)),
        checksum_hash: Some(header.hash),
        salt: Some(Text::binary(header.salt.to_vec(alloc)?)),
    })
}

// ---- the payload: segment 0, whether or not there are others

// The length of the volume key, by a slot of type luks2.
fn key_size_in(slot: &Value) -> Option<u64>
    ensures { result ≡ key_size_in (data_of slot.now) }
{
    if is_type(slot, "luks2") {
        integer_member(slot, "key_size")
    } else {
        None
    }
}

// The length of the volume key, by the slot of this number.
fn key_size_at(tree: &Value, number: u8) -> Option<u64>
    ensures { result ≡ key_size_at (data_of tree.now) number }
{
    key_size_in(object_numbered(tree, "keyslots", number)?)
}

// The length of the volume key in bytes, by the lowest-numbered slot that has one.
fn volume_key_size(tree: &Value) -> Option<u64>
    ensures { result ≡ volume_key_size (data_of tree.now) }
{
    for number in 0..MAX_SLOTS {
        let found = key_size_at(tree, number);
        if found.is_some() {
            return found;
        }
    }
    None
}

// The length of a segment.
#[tactic(auto, unfolding(crate::specs::Rows2::length_in))]
fn length_in(segment: &Value) -> Option<Length>
    ensures { result ≡ length_in (data_of segment.now) }
{
    if string_is(segment, "size", "dynamic") {
        return Some(Length::Dynamic);
    }
    match decimal_member(segment, "size") {
        Some(bytes) => Some(Length::Fixed(bytes)),
        None => None,
    }
}

// The length of segment 0.
fn segment_size(tree: &Value) -> Option<Length>
    ensures { result ≡ in_segment0 length_in (data_of tree.now) }
{
    length_in(object_numbered(tree, "segments", 0)?)
}

// The string under this name in segment 0.
fn segment_string<'v>(tree: &'v Value, name: &str) -> Option<&'v str>
    ensures { option_map (λ t. t.now) result
        ≡ in_segment0 (string_member name.now) (data_of tree.now) }
{
    string_member(object_numbered(tree, "segments", 0)?, name)
}

// The integer under this name in segment 0.
fn segment_integer(tree: &Value, name: &str) -> Option<u64>
    ensures { result ≡ in_segment0 (integer_member name.now) (data_of tree.now) }
{
    integer_member(object_numbered(tree, "segments", 0)?, name)
}

// The number in decimal digits under this name in segment 0.
fn segment_decimal(tree: &Value, name: &str) -> Option<u64>
    ensures { result ≡ in_segment0 (decimal_member name.now) (data_of tree.now) }
{
    decimal_member(object_numbered(tree, "segments", 0)?, name)
}

// The type of the integrity tags of segment 0.
fn integrity(tree: &Value) -> Option<&str>
    ensures { option_map (λ t. t.now) result
        ≡ in_segment0 (in_member (codes "integrity") (string_member (codes "type")))
        (data_of tree.now) }
{
    nested_string(object_numbered(tree, "segments", 0)?, "integrity", "type")
}

// The flags of segment 0.
fn segment_flags(alloc: Global, tree: &Value) -> Result<Option<Names>, AllocError>
    ensures { IfOk result (λ names. names ≡ segment_flags_of (data_of tree.now)) }
{
    match object_numbered(tree, "segments", 0) {
        Some(segment) => Ok(Some(strings_at(alloc, segment, "flags")?)),
        None => Ok(None),
    }
}

// The flags of the configuration.
fn flags(alloc: Global, tree: &Value) -> Result<Option<Names>, AllocError>
    ensures { IfOk result (λ names. names ≡ flags_of (data_of tree.now)) }
{
    match tree.get("config") {
        Some(config) => Ok(Some(strings_at(alloc, config, "flags")?)),
        None => Ok(None),
    }
}

// The names of mandatory requirements.
fn requirements(alloc: Global, tree: &Value) -> Result<Option<Names>, AllocError>
    ensures { IfOk result (λ names. names ≡ requirements_of (data_of tree.now)) }
{
    match shape::requirements(tree) {
        Some(requirements) => Ok(Some(strings_at(alloc, requirements, "mandatory")?)),
        None => Ok(None),
    }
}

// Whether the type of one of the segments is `linear`.
fn any_linear(segments: &Map<String, Value>) -> bool
    ensures { result ≡ any_linear (members_view segments.now.entries) }
{
    for (_, segment) in segments.iter() {
        if is_type(segment, "linear") {
            return true;
        }
    }
    false
}

// Whether a segment is not encrypted.
#[tactic(auto, unfolding(crate::specs::Rows2::has_linear))]
fn has_linear(tree: &Value) -> bool
    ensures { result ≡ has_linear (data_of tree.now) }
{
    let Some(segments) = tree.get("segments") else {
        return false;
    };
    match segments.as_object() {
        Some(segments) => any_linear(segments),
        None => false,
    }
}

/// The payload.
#[tactic(auto, unfolding(crate::specs::Rows2::payload2_row))]
pub(crate) fn payload_row(alloc: Global, tree: &Value) -> Result<PayloadRow, AllocError>
    ensures { IfOk result (λ row. row ≡ payload2_row (data_of tree.now)) }
{
    let mode = cipher_mode(segment_string(tree, "encryption"));
    Ok(PayloadRow {
        cipher: Text::optional(alloc, segment_string(tree, "encryption"))?,
        key_bytes: volume_key_size(tree),
        sector_size: segment_integer(tree, "sector_size"),
        iv_tweak: segment_decimal(tree, "iv_tweak"),
        segment_offset: segment_decimal(tree, "offset"),
        segment_size: segment_size(tree),
        segment_type: Text::optional(alloc, segment_string(tree, "type"))?,
        segment_flags: segment_flags(alloc, tree)?,
        integrity: Text::optional(alloc, integrity(tree))?,
        flags: flags(alloc, tree)?,
        requirements: requirements(alloc, tree)?,
        has_linear: has_linear(tree),
        mode,
    })
}

// ---- key slots, digests and tokens

// The priority of a slot.
#[tactic(auto, unfolding(crate::specs::Rows2::priority2_of))]
fn priority(slot: &Value) -> Option<u64>
    ensures { result ≡ priority2_of (data_of slot.now) }
{
    if slot.get("priority").is_none() {
        return Some(1);
    }
    integer_member(slot, "priority")
}

// The bytes that are under this name in base64.
fn bytes(alloc: Global, owner: &Value, name: &str) -> Result<Option<Text>, AllocError>
    ensures { IfOk result (λ bytes. bytes
        ≡ option_map Text.Binary (base64_member name.now (data_of owner.now))) }
{
    match base64_member(alloc, owner, name)? {
        Some(bytes) => Ok(Some(Text::binary(bytes))),
        None => Ok(None),
    }
}

// The salt of the key derivation.
fn salt(alloc: Global, slot: &Value) -> Result<Option<Text>, AllocError>
    ensures { IfOk result (λ salt. salt ≡ option_map Text.Binary
        (in_member (codes "kdf") (base64_member (codes "salt")) (data_of slot.now))) }
{
    match slot.get("kdf") {
        Some(kdf) => bytes(alloc, kdf, "salt"),
        None => Ok(None),
    }
}

// The string under `name` in the object under `object`.
fn nested_text(
    alloc: Global,
    slot: &Value,
    object: &str,
    name: &str,
) -> Result<Option<Text>, AllocError>
    ensures { IfOk result (λ text. text ≡ nested_text object.now name.now (data_of slot.now)) }
{
    Text::optional(alloc, nested_string(slot, object, name))
}

/// A key slot, with its verdict.
#[tactic(auto, unfolding(crate::specs::Rows2::slot2_row))]
pub(crate) fn slot_row(
    alloc: Global,
    slot: &Value,
    number: u8,
    verdict: VerdictKind,
    library_can_try: bool,
) -> Result<SlotRow, AllocError>
    ensures { IfOk result (λ row. row
        ≡ slot2_row (data_of slot.now) number verdict library_can_try) }
{
    Ok(SlotRow {
        number,
        verdict,
        library_can_try,
        priority: priority(slot),
        key_bytes: integer_member(slot, "key_size"),
        kdf: nested_text(alloc, slot, "kdf", "type")?,
        hash: nested_text(alloc, slot, "kdf", "hash")?,
        salt: salt(alloc, slot)?,
        iterations: nested_integer(slot, "kdf", "iterations"),
        time: nested_integer(slot, "kdf", "time"),
        memory: nested_integer(slot, "kdf", "memory"),
        threads: nested_integer(slot, "kdf", "cpus"),
        af_hash: nested_text(alloc, slot, "af", "hash")?,
        stripes: nested_integer(slot, "af", "stripes"),
        area_cipher: nested_text(alloc, slot, "area", "encryption")?,
        area_key_bytes: nested_integer(slot, "area", "key_size"),
        area_offset: nested_decimal(slot, "area", "offset"),
        area_size: nested_decimal(slot, "area", "size"),
        holds_key: is_type(slot, "luks2"),
        mode: cipher_mode(nested_string(slot, "area", "encryption")),
    })
}

// The number of bytes of a digest.
fn digest_len(digest: &Value) -> Option<u64>
    ensures { result ≡ option_map (λ (bytes : List ℕ). length bytes)
        (base64_member (codes "digest") (data_of digest.now)) }
{
    match base64_len(digest, "digest") {
        Some(len) => Some(len as u64),
        None => None,
    }
}

/// A digest.
#[tactic(auto, unfolding(crate::specs::Rows2::digest2_row))]
pub(crate) fn digest_row(alloc: Global, digest: &Value, number: u8) -> Result<DigestRow, AllocError>
    ensures { IfOk result (λ row. row ≡ digest2_row (data_of digest.now) number) }
{
    Ok(DigestRow {
        number,
        kind: Text::optional(alloc, string_member(digest, "type"))?,
        hash: Text::optional(alloc, string_member(digest, "hash"))?,
        salt: bytes(alloc, digest, "salt")?,
        iterations: integer_member(digest, "iterations"),
        digest: bytes(alloc, digest, "digest")?,
        bytes: digest_len(digest),
        keyslots: Some(strings_at(alloc, digest, "keyslots")?),
        segments: Some(strings_at(alloc, digest, "segments")?),
    })
}

/// A token.
#[tactic(auto, unfolding(crate::specs::Rows2::token2_row))]
pub(crate) fn token_row(alloc: Global, token: &Value, number: u8) -> Result<TokenRow, AllocError>
    ensures { IfOk result (λ row. row ≡ token2_row (data_of token.now) number) }
{
    Ok(TokenRow {
        number,
        kind: Text::optional(alloc, string_member(token, "type"))?,
        keyslots: strings_at(alloc, token, "keyslots")?,
        stored: Tree::stored(token)?,
    })
}
