//! The names of the members of each object.

ghost use Rattle.std.specs.Prelude.{◌≡◌, IfOk, OnOk, map, option_map};
ghost use Rattle.luks_kdf.specs.Hash.{hash_name};
ghost use Rattle.luks_report.specs.Dump2.{role_text};
ghost use Rattle.luks_audit.specs.Table.{area_fields, binary_fields, digest_value, judged_fields};
ghost use Rattle.luks_audit.specs.Table.{key_fields, list_fields, other_header_of};
ghost use Rattle.luks_audit.specs.Table.{payload_fields, place_fields};
ghost use Rattle.luks_audit.specs.Table.{program_fields, segment_fields, slot_value, token_value};
ghost use Rattle.luks_audit.specs.Table.{verdict_fields, volume_fields};
ghost use Rattle.luks_audit.specs.Tree.{with_fields};

use crate::members::text_array;
use crate::program::{POLICY, VERSION};
use crate::rows::{DigestRow, HeaderRow, PayloadRow, SlotRow, TokenRow};
use crate::token::slot_tokens;
use crate::tree::{Array, Object, Tree};
use crate::verdict::{is_kind_usable, kind_text, reason_text};
use luks_header::header::{HeaderRole, PairFinding};
use luks_kdf::Hash;
use luks_report::dump::role_text;
use std::alloc::{AllocError, Global};

/// Adds which program printed the line, and by which policy.
#[tactic(auto, unfolding(crate::specs::Table::program_fields))]
pub(crate) fn push_program(alloc: Global, fields: &mut Object) -> Result<(), AllocError>
    ensures { OnOk result (fields.new ≡ with_fields program_fields fields.old) }
{
    fields.push_text(alloc, "program_version", VERSION)?;
    fields.push_number(alloc, "policy", POLICY)
}

/// Adds where the header was found.
#[tactic(auto, unfolding(crate::specs::Table::place_fields))]
pub(crate) fn push_place(
    alloc: Global,
    fields: &mut Object,
    file: &str,
    offset: u64,
) -> Result<(), AllocError>
    ensures { OnOk result (fields.new ≡ with_fields (place_fields file.now offset) fields.old) }
{
    fields.push_text(alloc, "file", file)?;
    fields.push_number(alloc, "offset", offset)
}

// Which of the two headers of LUKS2 is listed.
fn listed_header(role: Option<HeaderRole>) -> Option<&'static str>
    ensures { option_map (λ t. t.now) result ≡ option_map role_text role }
{
    match role {
        Some(role) => Some(role_text(role)),
        None => None,
    }
}

// The hash function of the checksum.
fn checksum_hash(hash: Option<Hash>) -> Option<&'static str>
    ensures { option_map (λ t. t.now) result ≡ option_map hash_name hash }
{
    match hash {
        Some(hash) => Some(hash.name()),
        None => None,
    }
}

// What is wrong with the header that is not the listed one.
fn other_header(finding: Option<PairFinding>) -> Option<&'static str>
    ensures { option_map (λ t. t.now) result ≡ other_header_of finding }
{
    match finding {
        None => None,
        Some(PairFinding::PrimaryNotValid) => Some("not valid"),
        Some(PairFinding::SecondaryNotValid) => Some("not valid"),
        Some(PairFinding::SequencesDiffer) => Some("sequence number differs"),
    }
}

/// Adds the version, the texts, and which header it is.
#[tactic(auto, unfolding(crate::specs::Table::volume_fields))]
pub(crate) fn push_volume(
    alloc: Global,
    fields: &mut Object,
    row: &HeaderRow,
) -> Result<(), AllocError>
    ensures { OnOk result (fields.new ≡ with_fields (volume_fields row.now) fields.old) }
{
    fields.push_number(alloc, "version", row.version)?;
    fields.push(alloc, "uuid", row.uuid.to_tree(alloc)?)?;
    fields.push_optional_text(alloc, "label", &row.label)?;
    fields.push_optional_text(alloc, "subsystem", &row.subsystem)?;
    fields.push_word(alloc, "header", listed_header(row.role))?;
    fields.push_word(alloc, "other_header", other_header(row.finding))
}

/// Adds the number of its change, its length, and how its checksum is computed.
#[tactic(auto, unfolding(crate::specs::Table::binary_fields))]
pub(crate) fn push_binary(
    alloc: Global,
    fields: &mut Object,
    row: &HeaderRow,
) -> Result<(), AllocError>
    ensures { OnOk result (fields.new ≡ with_fields (binary_fields row.now) fields.old) }
{
    fields.push_optional_number(alloc, "seqid", row.seqid)?;
    fields.push_optional_number(alloc, "header_size", row.header_size)?;
    fields.push_word(alloc, "checksum_hash", checksum_hash(row.checksum_hash))?;
    fields.push_optional_text(alloc, "salt", &row.salt)
}

/// Adds how the payload is encrypted, and where it is.
#[tactic(auto, unfolding(crate::specs::Table::payload_fields))]
pub(crate) fn push_payload(
    alloc: Global,
    fields: &mut Object,
    row: &PayloadRow,
) -> Result<(), AllocError>
    ensures { OnOk result (fields.new ≡ with_fields (payload_fields row.now) fields.old) }
{
    fields.push_optional_text(alloc, "cipher", &row.cipher)?;
    fields.push_optional_number(alloc, "key_bytes", row.key_bytes)?;
    fields.push_optional_number(alloc, "sector_size", row.sector_size)?;
    fields.push_optional_number(alloc, "iv_tweak", row.iv_tweak)?;
    fields.push_optional_number(alloc, "segment_offset", row.segment_offset)?;
    fields.push_length(alloc, "segment_size", row.segment_size)
}

/// Adds what the segment is, and what the volume requires.
#[tactic(auto, unfolding(crate::specs::Table::segment_fields))]
pub(crate) fn push_segment(
    alloc: Global,
    fields: &mut Object,
    row: &PayloadRow,
) -> Result<(), AllocError>
    ensures { OnOk result (fields.new ≡ with_fields (segment_fields row.now) fields.old) }
{
    fields.push_optional_text(alloc, "segment_type", &row.segment_type)?;
    fields.push_names(alloc, "segment_flags", &row.segment_flags)?;
    fields.push_optional_text(alloc, "integrity", &row.integrity)?;
    fields.push_names(alloc, "flags", &row.flags)?;
    fields.push_names(alloc, "requirements", &row.requirements)
}

// Adds the number of a slot and its verdict.
#[tactic(auto, unfolding(crate::specs::Table::verdict_fields))]
fn push_verdict(alloc: Global, fields: &mut Object, row: &SlotRow) -> Result<(), AllocError>
    ensures { OnOk result (fields.new ≡ with_fields (verdict_fields row.now) fields.old) }
{
    fields.push_number(alloc, "number", u64::from(row.number))?;
    fields.push_text(alloc, "state", kind_text(row.verdict))?;
    fields.push_word(alloc, "reason", reason_text(row.verdict))?;
    fields.push(alloc, "can_try", Tree::boolean(is_kind_usable(row.verdict)))?;
    fields.push(alloc, "library_can_try", Tree::boolean(row.library_can_try))
}

// Adds how the key of a slot is derived.
#[tactic(auto, unfolding(crate::specs::Table::key_fields))]
fn push_key(alloc: Global, fields: &mut Object, row: &SlotRow) -> Result<(), AllocError>
    ensures { OnOk result (fields.new ≡ with_fields (key_fields row.now) fields.old) }
{
    fields.push_optional_number(alloc, "priority", row.priority)?;
    fields.push_optional_number(alloc, "key_bytes", row.key_bytes)?;
    fields.push_optional_text(alloc, "kdf", &row.kdf)?;
    fields.push_optional_text(alloc, "hash", &row.hash)?;
    fields.push_optional_text(alloc, "salt", &row.salt)?;
    fields.push_optional_number(alloc, "iterations", row.iterations)?;
    fields.push_optional_number(alloc, "time", row.time)?;
    fields.push_optional_number(alloc, "memory", row.memory)?;
    fields.push_optional_number(alloc, "threads", row.threads)
}

// Adds how the key material of a slot is split, where it is, and how it is encrypted.
#[tactic(auto, unfolding(crate::specs::Table::area_fields))]
fn push_area(alloc: Global, fields: &mut Object, row: &SlotRow) -> Result<(), AllocError>
    ensures { OnOk result (fields.new ≡ with_fields (area_fields row.now) fields.old) }
{
    fields.push_optional_text(alloc, "af_hash", &row.af_hash)?;
    fields.push_optional_number(alloc, "stripes", row.stripes)?;
    fields.push_optional_text(alloc, "area_cipher", &row.area_cipher)?;
    fields.push_optional_number(alloc, "area_key_bytes", row.area_key_bytes)?;
    fields.push_optional_number(alloc, "area_offset", row.area_offset)?;
    fields.push_optional_number(alloc, "area_size", row.area_size)
}

// The object of a key slot, with those of the tokens that are for it.
#[tactic(auto, unfolding(crate::specs::Table::slot_value))]
fn slot_tree(alloc: Global, tokens: &[TokenRow], row: &SlotRow) -> Result<Tree, AllocError>
    ensures { IfOk result (λ tree. tree ≡ slot_value tokens.now row.now) }
{
    let mut fields = Object::new(alloc);
    push_verdict(alloc, &mut fields, row)?;
    push_key(alloc, &mut fields, row)?;
    push_area(alloc, &mut fields, row)?;
    let tokens = slot_tokens(alloc, row.number, tokens)?;
    fields.push_array(alloc, "tokens", tokens)?;
    Ok(fields.into_tree())
}

// The object of a digest.
#[tactic(auto, unfolding(crate::specs::Table::digest_value))]
fn digest_tree(alloc: Global, row: &DigestRow) -> Result<Tree, AllocError>
    ensures { IfOk result (λ tree. tree ≡ digest_value row.now) }
{
    let mut fields = Object::new(alloc);
    fields.push_number(alloc, "number", u64::from(row.number))?;
    fields.push_optional_text(alloc, "type", &row.kind)?;
    fields.push_optional_text(alloc, "hash", &row.hash)?;
    fields.push_optional_text(alloc, "salt", &row.salt)?;
    fields.push_optional_number(alloc, "iterations", row.iterations)?;
    fields.push_optional_text(alloc, "digest", &row.digest)?;
    fields.push_optional_number(alloc, "bytes", row.bytes)?;
    fields.push_names(alloc, "keyslots", &row.keyslots)?;
    fields.push_names(alloc, "segments", &row.segments)?;
    Ok(fields.into_tree())
}

// The object of a token of LUKS2.
#[tactic(auto, unfolding(crate::specs::Table::token_value))]
fn token_tree(alloc: Global, row: &TokenRow) -> Result<Tree, AllocError>
    ensures { IfOk result (λ tree. tree ≡ token_value row.now) }
{
    let keyslots = text_array(alloc, row.keyslots.as_slice())?;
    let stored = row.stored.copy()?;
    let mut fields = Object::new(alloc);
    fields.push_number(alloc, "number", u64::from(row.number))?;
    fields.push_optional_text(alloc, "type", &row.kind)?;
    fields.push_array(alloc, "keyslots", keyslots)?;
    fields.push(alloc, "stored", stored)?;
    Ok(fields.into_tree())
}

// The objects of key slots.
fn slot_array(alloc: Global, tokens: &[TokenRow], rows: &[SlotRow]) -> Result<Array, AllocError>
    ensures { IfOk result (λ slots. slots ≡ map (slot_value tokens.now) rows.now) }
{
    let mut slots = Array::new(alloc);
    for row in rows {
        slots.push(slot_tree(alloc, tokens, row)?)?;
    }
    Ok(slots)
}

// The objects of digests.
fn digest_array(alloc: Global, rows: &[DigestRow]) -> Result<Array, AllocError>
    ensures { IfOk result (λ digests. digests ≡ map digest_value rows.now) }
{
    let mut digests = Array::new(alloc);
    for row in rows {
        digests.push(digest_tree(alloc, row)?)?;
    }
    Ok(digests)
}

// The objects of tokens.
fn token_array(alloc: Global, rows: &[TokenRow]) -> Result<Array, AllocError>
    ensures { IfOk result (λ tokens. tokens ≡ map token_value rows.now) }
{
    let mut tokens = Array::new(alloc);
    for row in rows {
        tokens.push(token_tree(alloc, row)?)?;
    }
    Ok(tokens)
}

/// Adds the key slots, the digests and the tokens.
#[tactic(auto, unfolding(crate::specs::Table::list_fields))]
pub(crate) fn push_lists(
    alloc: Global,
    fields: &mut Object,
    slots: &[SlotRow],
    digests: &[DigestRow],
    tokens: &[TokenRow],
) -> Result<(), AllocError>
    ensures { OnOk result (fields.new ≡ with_fields
        (list_fields slots.now digests.now tokens.now) fields.old) }
{
    let slots = slot_array(alloc, tokens, slots)?;
    fields.push_array(alloc, "slots", slots)?;
    let digests = digest_array(alloc, digests)?;
    fields.push_array(alloc, "digests", digests)?;
    let tokens = token_array(alloc, tokens)?;
    fields.push_array(alloc, "tokens", tokens)
}

/// Adds what is wrong, what luksrd cannot read, and what is weak.
#[tactic(auto, unfolding(crate::specs::Table::judged_fields))]
pub(crate) fn push_judged(
    alloc: Global,
    fields: &mut Object,
    findings: Array,
    unsupported: Array,
    weak: Array,
) -> Result<(), AllocError>
    ensures { OnOk result
        (fields.new ≡ with_fields (judged_fields findings unsupported weak) fields.old) }
{
    fields.push_array(alloc, "findings", findings)?;
    fields.push_array(alloc, "unsupported", unsupported)?;
    fields.push_array(alloc, "weak", weak)
}
