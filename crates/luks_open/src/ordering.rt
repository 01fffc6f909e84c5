//! The order in which key slots are tried.

ghost use Rattle.std.specs.Prelude.{◌≡◌, ◌++◌, Err, IfOk, IsOk, IsSome, OnOk, OnErr, option_map};
ghost use Rattle.std.specs.Prelude.{[], ◌∷◌, ◌≤◌, is_some, length};
ghost use Rattle.std.specs.List.{cons_option};
ghost use Rattle.luks_format.specs.Rule.{max_slots};
ghost use Rattle.luks_format.specs.Table.{ascending};
ghost use Rattle.luks_open.specs.Opening.{IsOrMemory, order_of, order_within, skipped_at};
ghost use Rattle.luks_open.specs.Opening.{order_of_named, tried_with};
ghost use Rattle.luks_header.specs.SlotVerdicts.{verdict_within};

use crate::entry::Entry;
use crate::fault::OpenFault;
use crate::order::Order;
use crate::skipped::SkippedSlots;
use luks_header::derivation::Limits;
use luks_header::header::Header;
use luks_header::header_slots::{Slot, Verdict, VerdictKind, verdict, verdict_kind};
use luks_header::refusal::SkipReason;
use luks_header::rule::MAX_SLOTS;
use std::alloc::{AllocError, Global};

// Whether the key slot of this number can be tried and has this priority.
fn has_priority(header: &Header, limits: Limits, priority: u8, number: u8) -> bool
    ensures { result ≡ is_some (tried_with header.now limits priority number) }
{
    match verdict_kind(header, limits, number) {
        Some(VerdictKind::Usable(its)) if its == priority => true,
        _ => false,
    }
}

// Appends the key slot of this number, if it can be tried and has this priority. Otherwise it
// allocates nothing, which is why it looks at the kind of the verdict first.
fn push_tried(
    alloc: Global,
    entries: &mut Vec<Entry>,
    header: &Header,
    limits: Limits,
    priority: u8,
    number: u8,
) -> Result<(), AllocError>
    ensures ok { OnOk result (entries.new.items
        ≡ entries.old.items ++ cons_option (tried_with header.now limits priority number) []) }
    ensures err { OnErr result (IsSome (tried_with header.now limits priority number)) }
{
    if !has_priority(header, limits, priority, number) {
        return Ok(());
    }
    let verdict = verdict(alloc, header, limits, number)?;
    let Some(Verdict::Usable(slot)) = verdict else {
        return Ok(());
    };
    entries.push(Entry { number, slot })?;
    Ok(())
}

// Appends the key slots of this priority, by ascending number.
fn push_usable(
    alloc: Global,
    entries: &mut Vec<Entry>,
    header: &Header,
    limits: Limits,
    priority: u8,
) -> Result<(), AllocError>
    ensures ok { OnOk result (entries.new.items
        ≡ entries.old.items ++ ascending (tried_with header.now limits priority) max_slots) }
    ensures err { OnErr result (1
        ≤ length (ascending (tried_with header.now limits priority) max_slots)) }
{
    for number in 0..MAX_SLOTS {
        push_tried(alloc, entries, header, limits, priority, number)?;
    }
    Ok(())
}

// Why the key slot of this number is skipped, if it is.
fn skip_reason(header: &Header, limits: Limits, number: u8) -> Option<SkipReason>
    ensures { option_map (λ reason. (number, reason)) result ≡ skipped_at header.now limits number }
{
    match verdict_kind(header, limits, number) {
        Some(VerdictKind::Skipped(reason)) => Some(reason),
        _ => None,
    }
}

// The key slots that are skipped.
fn skipped(header: &Header, limits: Limits) -> SkippedSlots
    ensures { result ≡ ascending (skipped_at header.now limits) max_slots }
{
    let mut skipped = SkippedSlots::new();
    for number in 0..MAX_SLOTS {
        if let Some(reason) = skip_reason(header, limits, number) {
            skipped.push(number, reason);
        }
    }
    skipped
}

// The order if no key slot is named.
#[tactic(auto, unfolding(crate::specs::Opening::order_within))]
fn order_all(alloc: Global, header: &Header, limits: Limits) -> Result<Order, OpenFault>
    ensures answer { IsOrMemory (order_within header.now None limits) result }
    ensures memory { result ≡ Err OpenFault.Memory → IsOk (order_within header.now None limits) }
{
    let mut entries = Vec::new(alloc);
    push_usable(alloc, &mut entries, header, limits, 2)?;
    push_usable(alloc, &mut entries, header, limits, 1)?;
    let skipped = skipped(header, limits);
    if entries.is_empty() {
        return Err(OpenFault::NothingTried(skipped));
    }
    Ok(Order::new(entries, skipped))
}

// The order that tries this key slot alone.
fn order_alone(alloc: Global, number: u8, slot: Slot) -> Result<Order, AllocError>
    ensures { IfOk result (λ order. order
        ≡ record { entries = record { number = number; slot = slot } ∷ []; skipped = [] }) }
{
    let mut alone = Vec::new(alloc);
    alone.push(Entry { number, slot })?;
    Ok(Order::new(alone, SkippedSlots::new()))
}

// The order if a key slot is named.
fn order_named(
    alloc: Global,
    header: &Header,
    limits: Limits,
    named: u8,
) -> Result<Order, OpenFault>
    ensures answer { IsOrMemory (order_of_named named (verdict_within header.now limits named)) result }
    ensures memory { result ≡ Err OpenFault.Memory
        → IsOk (order_of_named named (verdict_within header.now limits named)) }
{
    let verdict = verdict(alloc, header, limits, named)?;
    match verdict {
        None => Err(OpenFault::NoSuchSlot(named)),
        Some(Verdict::Disabled) => Err(OpenFault::Disabled(named)),
        Some(Verdict::Skipped(reason)) => Err(OpenFault::NamedSkipped(named, reason)),
        Some(Verdict::Usable(slot)) => Ok(order_alone(alloc, named, slot)?),
    }
}

/// The key slots of a header to be tried within these limits, in order: those of priority 2, then
/// those of priority 1, each by ascending number. If a key slot is named, only that one is tried,
/// whatever its priority. Key slots that cost more than the limits are skipped.
///
/// # Errors
///
/// [`OpenFault::NoSuchSlot`], [`OpenFault::Disabled`] or [`OpenFault::NamedSkipped`] if a key slot
/// is named that cannot be tried; [`OpenFault::NothingTried`] if no key slot is named and the
/// header has none to try; [`OpenFault::Memory`] if memory runs out, which happens only if there is
/// something to try.
#[tactic(auto, unfolding(crate::specs::Opening::order_within))]
pub fn order_within(
    alloc: Global,
    header: &Header,
    named: Option<u8>,
    limits: Limits,
) -> Result<Order, OpenFault>
    ensures answer { IsOrMemory (order_within header.now named limits) result }
    ensures memory { result ≡ Err OpenFault.Memory → IsOk (order_within header.now named limits) }
{
    match named {
        None => order_all(alloc, header, limits),
        Some(named) => order_named(alloc, header, limits, named),
    }
}

/// The same without Argon2: key slots that need it are skipped, and those with more iterations than
/// the limit, or with a digest that has more.
///
/// # Errors
///
/// Those of [`order_within`].
pub fn order(
    alloc: Global,
    header: &Header,
    named: Option<u8>,
    limit: Option<u32>,
) -> Result<Order, OpenFault>
    ensures answer { IsOrMemory (order_of header.now named limit) result }
    ensures memory { result ≡ Err OpenFault.Memory → IsOk (order_of header.now named limit) }
{
    order_within(alloc, header, named, Limits::without_argon2(limit))
}
