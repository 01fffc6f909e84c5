//! Key slots and their verdicts.

ghost use Rattle.std.specs.Prelude.{◌≡◌, ◌≤◌, ◌++◌, [], true, IfOk, OnErr, OnOk, option_map};
ghost use Rattle.std.specs.Prelude.{vec_len};
ghost use Rattle.std.specs.List.{cons_option};
ghost use Rattle.luks_format.specs.Rule.{max_slots};
ghost use Rattle.luks_format.specs.Slot.{verdict_kind_of};
ghost use Rattle.luks_header.specs.SlotVerdicts.{can_be_tried, has_name_out_of_range, with_number};
ghost use Rattle.luks_header.specs.SlotVerdicts.{slot_within, verdict_within, verdicts_of};

use crate::header::{Header, bounds};
use luks_format::derivation::Limits;
use luks_format::refusal::SkipReason;
use luks_format::rule::MAX_SLOTS;
pub use luks_format::slot::{Slot, Verdict, VerdictKind};
use luks2_json::numbered::has_key_out_of_range;
use std::alloc::{AllocError, Global};

/// The verdict on the key slot of this number, if the header has one, without what is needed to
/// open it. A slot that costs more than the limits is skipped. This allocates nothing.
#[tactic(auto, unfolding(crate::specs::SlotVerdicts::verdict_within))]
pub fn verdict_kind(header: &Header, limits: Limits, number: u8) -> Option<VerdictKind>
    ensures { result ≡ option_map verdict_kind_of (verdict_within header.now limits number) }
{
    match header {
        Header::V1(header) => {
            luks_format::validation::verdict_kind(header, limits.max_iterations, number)
        }
        Header::V2(header, metadata) => {
            luks2_metadata::luks2_slot::verdict_kind(metadata, bounds(header), limits, number)
        }
    }
}

/// What is needed to open the key slot of this number, or `None` if the header has no such slot. A
/// LUKS1 slot is returned if its numbers are in range and there is a usable digest, whatever its
/// state and the limits are. A LUKS2 slot is returned if there is no reason to skip it.
///
/// # Errors
///
/// `AllocError` if memory runs out.
#[tactic(auto, unfolding(crate::specs::SlotVerdicts::slot_within))]
pub fn slot(
    alloc: Global,
    header: &Header,
    limits: Limits,
    number: u8,
) -> Result<Option<Slot>, AllocError>
    ensures { IfOk result (λ slot. slot ≡ slot_within header.now limits number) }
{
    match header {
        Header::V1(header) => luks_format::validation::slot(alloc, header, number),
        Header::V2(header, metadata) => {
            luks2_metadata::luks2_slot::slot(alloc, metadata, bounds(header), limits, number)
        }
    }
}

/// The verdict on the key slot of this number, if the header has one. A slot that costs more than
/// the limits is skipped.
///
/// # Errors
///
/// `AllocError` if the slot can be tried and memory runs out.
pub fn verdict(
    alloc: Global,
    header: &Header,
    limits: Limits,
    number: u8,
) -> Result<Option<Verdict>, AllocError>
    ensures value { IfOk result (λ verdict. verdict ≡ verdict_within header.now limits number) }
    ensures err { OnErr result (can_be_tried (verdict_within header.now limits number) ≡ true) }
{
    match verdict_kind(header, limits, number) {
        None => Ok(None),
        Some(VerdictKind::Disabled) => Ok(Some(Verdict::Disabled)),
        Some(VerdictKind::Skipped(reason)) => Ok(Some(Verdict::Skipped(reason))),
        Some(VerdictKind::Usable(_)) => {
            Ok(slot(alloc, header, limits, number)?.map(Verdict::Usable))
        }
    }
}

// Appends the verdict with its number, if there is a verdict.
fn push_verdict(
    verdicts: &mut Vec<(u8, Verdict)>,
    number: u8,
    verdict: Option<Verdict>,
) -> Result<(), AllocError>
    ensures { OnOk result (verdicts.new.items
        ≡ verdicts.old.items ++ cons_option (with_number number verdict) []) }
{
    if let Some(verdict) = verdict {
        verdicts.push((number, verdict))?;
    }
    Ok(())
}

/// The key slots of a header by ascending number, each with its verdict: at most 32 slots. A slot
/// with more iterations than the limit is skipped, as is one that needs Argon2.
///
/// # Errors
///
/// `AllocError` if memory runs out.
pub fn slots(
    alloc: Global,
    header: &Header,
    limit: Option<u32>,
) -> Result<Vec<(u8, Verdict)>, AllocError>
    ensures value { IfOk result (λ verdicts. verdicts.items ≡ verdicts_of header.now limit) }
    ensures few { IfOk result (λ verdicts. vec_len verdicts ≤ max_slots) }
{
    let mut verdicts = Vec::new(alloc);
    for number in 0..MAX_SLOTS {
        let verdict = verdict(alloc, header, Limits::without_argon2(limit), number)?;
        push_verdict(&mut verdicts, number, verdict)?;
    }
    Ok(verdicts)
}

/// Whether the object of key slots has a member whose name is not a number from 0 to 31, which
/// `slots` ignores. The key slots of LUKS1 have no names. This allocates nothing.
#[tactic(auto, unfolding(crate::specs::SlotVerdicts::has_name_out_of_range))]
pub fn has_name_out_of_range(header: &Header) -> bool
    ensures { result ≡ has_name_out_of_range header.now }
{
    match header {
        Header::V1(_) => false,
        Header::V2(_, metadata) => has_key_out_of_range(metadata),
    }
}
