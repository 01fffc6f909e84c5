//! A header as one JSON object, and whether anything about it is wrong or weak.

ghost use Rattle.std.specs.Prelude.{◌≡◌, ◌++◌, IfOk, OnOk};
ghost use Rattle.luks_audit.specs.Audit.{audit_of, digest_list, digest_rows, header_row};
ghost use Rattle.luks_audit.specs.Audit.{library_can_try, library_limits, payload_row, slot_list};
ghost use Rattle.luks_audit.specs.Audit.{slot_row, slot_rows, token_list, token_rows};

use crate::finding::{finding_array, unsupported_array};
use crate::image::Policy;
use crate::rows::{DigestRow, HeaderRow, PayloadRow, SlotRow, TokenRow};
use crate::table::{
    push_binary, push_judged, push_lists, push_payload, push_place, push_program, push_segment,
    push_volume,
};
use crate::tree::{Object, Tree};
use crate::verdict::is_kind_usable;
use crate::weak_array::weak_array;
use crate::weakness::{any_fails, weak_list};
use crate::{luks1, luks2};
use luks_format::rule::MAX_SLOTS;
use luks_format::slot::VerdictKind;
use luks_header::derivation::{Argon2Limits, Limits};
use luks_header::header::Header;
use luks_header::header_slots::verdict_kind;
use luks_report::findings::finding_list;
use luks2_json::numbered::object_numbered;
use std::alloc::{AllocError, Global};

/// A header, audited.
#[derive(Drop)]
pub struct Audit {
    /// The object that lists it.
    pub tree: Tree,
    /// Whether there is no finding, and no weakness that the policy counts.
    pub is_clean: bool,
}

// ---- the fields of a header

// The binary header.
#[tactic(auto, unfolding(crate::specs::Audit::header_row))]
fn header_row(alloc: Global, header: &Header) -> Result<HeaderRow, AllocError>
    ensures { IfOk result (λ row. row ≡ header_row header.now) }
{
    match header {
        Header::V1(header) => luks1::header_row(alloc, header),
        Header::V2(header, _) => luks2::header_row(alloc, header),
    }
}

// The payload.
#[tactic(auto, unfolding(crate::specs::Audit::payload_row))]
fn payload_row(alloc: Global, header: &Header) -> Result<PayloadRow, AllocError>
    ensures { IfOk result (λ row. row ≡ payload_row header.now) }
{
    match header {
        Header::V1(header) => luks1::payload_row(alloc, header),
        Header::V2(_, metadata) => luks2::payload_row(alloc, metadata.tree()),
    }
}

// What deriving the key of a slot may cost if the library's default limits apply.
fn library_limits() -> Limits
    ensures { result ≡ library_limits }
{
    Limits {
        max_iterations: None,
        argon2: Some(Argon2Limits {
            memory_kib: 4_194_304,
            fill_kib: 67_108_864,
        }),
    }
}

// Whether the library can try the key slot of this number, by its default limits.
fn library_can_try(header: &Header, number: u8) -> bool
    ensures { result ≡ library_can_try header.now number }
{
    match verdict_kind(header, library_limits(), number) {
        Some(kind) => is_kind_usable(kind),
        None => false,
    }
}

// The key slot of this number, if the header has it, with this verdict.
#[tactic(auto, unfolding(crate::specs::Audit::slot_row))]
fn slot_row(
    alloc: Global,
    header: &Header,
    number: u8,
    kind: VerdictKind,
) -> Result<Option<SlotRow>, AllocError>
    ensures { IfOk result (λ row. row ≡ slot_row header.now number kind) }
{
    let library = library_can_try(header, number);
    match header {
        Header::V1(header) => match header.slots.get(usize::from(number)) {
            Some(slot) => Ok(Some(luks1::slot_row(alloc, header, slot, number, kind, library)?)),
            None => Ok(None),
        },
        Header::V2(_, metadata) => match object_numbered(metadata.tree(), "keyslots", number) {
            Some(slot) => Ok(Some(luks2::slot_row(alloc, slot, number, kind, library)?)),
            None => Ok(None),
        },
    }
}

// Adds the key slot of this number, if the header has it.
#[tactic(auto, unfolding(crate::specs::Audit::slot_rows))]
fn push_slot(
    alloc: Global,
    rows: &mut Vec<SlotRow>,
    header: &Header,
    number: u8,
) -> Result<(), AllocError>
    ensures { OnOk result (rows.new.items ≡ rows.old.items ++ slot_rows header.now number) }
{
    let limits = Limits::without_argon2(None);
    let Some(kind) = verdict_kind(header, limits, number) else {
        return Ok(());
    };
    match slot_row(alloc, header, number, kind)? {
        Some(row) => Ok(rows.push(row)?),
        None => Ok(()),
    }
}

// The key slots by ascending number.
fn slots(alloc: Global, header: &Header) -> Result<Vec<SlotRow>, AllocError>
    ensures { IfOk result (λ rows. rows.items ≡ slot_list header.now) }
{
    let mut rows = Vec::new(alloc);
    for number in 0..MAX_SLOTS {
        push_slot(alloc, &mut rows, header, number)?;
    }
    Ok(rows)
}

// Adds the digest of this number, if the header has it.
#[tactic(auto, unfolding(crate::specs::Audit::digest_rows))]
fn push_digest(
    alloc: Global,
    rows: &mut Vec<DigestRow>,
    header: &Header,
    number: u8,
) -> Result<(), AllocError>
    ensures { OnOk result (rows.new.items ≡ rows.old.items ++ digest_rows header.now number) }
{
    match header {
        Header::V1(header) if number == 0 => Ok(rows.push(luks1::digest_row(alloc, header)?)?),
        Header::V1(_) => Ok(()),
        Header::V2(_, metadata) => match object_numbered(metadata.tree(), "digests", number) {
            Some(digest) => Ok(rows.push(luks2::digest_row(alloc, digest, number)?)?),
            None => Ok(()),
        },
    }
}

// The digests by ascending number.
fn digests(alloc: Global, header: &Header) -> Result<Vec<DigestRow>, AllocError>
    ensures { IfOk result (λ rows. rows.items ≡ digest_list header.now) }
{
    let mut rows = Vec::new(alloc);
    for number in 0..MAX_SLOTS {
        push_digest(alloc, &mut rows, header, number)?;
    }
    Ok(rows)
}

// Adds the token of this number, if the header has it.
#[tactic(auto, unfolding(crate::specs::Audit::token_rows))]
fn push_token(
    alloc: Global,
    rows: &mut Vec<TokenRow>,
    header: &Header,
    number: u8,
) -> Result<(), AllocError>
    ensures { OnOk result (rows.new.items ≡ rows.old.items ++ token_rows header.now number) }
{
    match header {
        Header::V1(_) => Ok(()),
        Header::V2(_, metadata) => match object_numbered(metadata.tree(), "tokens", number) {
            Some(token) => Ok(rows.push(luks2::token_row(alloc, token, number)?)?),
            None => Ok(()),
        },
    }
}

// The tokens by ascending number.
fn tokens(alloc: Global, header: &Header) -> Result<Vec<TokenRow>, AllocError>
    ensures { IfOk result (λ rows. rows.items ≡ token_list header.now) }
{
    let mut rows = Vec::new(alloc);
    for number in 0..MAX_SLOTS {
        push_token(alloc, &mut rows, header, number)?;
    }
    Ok(rows)
}

// ---- the whole header

/// Lists a header that was found in a file at this offset, with what is wrong and what is weak.
///
/// # Errors
///
/// `AllocError` if memory runs out.
#[tactic(auto, unfolding(crate::specs::Audit::audit_value, crate::specs::Audit::is_clean, crate::specs::Audit::with_volume, crate::specs::Audit::with_lists))]
pub fn audit_header(
    alloc: Global,
    policy: Policy,
    file: &str,
    offset: u64,
    header: &Header,
) -> Result<Audit, AllocError>
    ensures { IfOk result (λ audit. audit ≡ audit_of policy file.now offset header.now) }
{
    let volume = header_row(alloc, header)?;
    let payload = payload_row(alloc, header)?;
    let slots = slots(alloc, header)?;
    let digests = digests(alloc, header)?;
    let tokens = tokens(alloc, header)?;
    let found = finding_list(alloc, header)?;
    let weak = weak_list(
        alloc,
        policy.minimum,
        &payload,
        slots.as_slice(),
        digests.as_slice(),
        tokens.as_slice(),
    )?;
    let findings = finding_array(alloc, header, found.as_slice())?;
    let is_clean = findings.len() == 0 && !any_fails(policy.fail_on, weak.as_slice());
    let mut fields = Object::new(alloc);
    push_program(alloc, &mut fields)?;
    push_place(alloc, &mut fields, file, offset)?;
    push_volume(alloc, &mut fields, &volume)?;
    push_binary(alloc, &mut fields, &volume)?;
    push_payload(alloc, &mut fields, &payload)?;
    push_segment(alloc, &mut fields, &payload)?;
    push_lists(
        alloc,
        &mut fields,
        slots.as_slice(),
        digests.as_slice(),
        tokens.as_slice(),
    )?;
    let unsupported = unsupported_array(alloc, header, found.as_slice())?;
    let weak = weak_array(alloc, weak.as_slice())?;
    push_judged(alloc, &mut fields, findings, unsupported, weak)?;
    let tree = fields.into_tree();
    Ok(Audit { tree, is_clean })
}
