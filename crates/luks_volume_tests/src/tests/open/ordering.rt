//! Which slots of a header are tried, and the answer if there are none.

use super::volumes::SHORT_KEY;
use luks_header::header::{Header, read_header};
use luks_header::refusal::SkipReason;
use luks_io::memory::MemSource;
use luks_open::fault::OpenFault;
use luks_open::order::{Order, key_material_end};
use luks_open::ordering::order;
use luks_test_support::scarce::Scarcity;
use std::alloc::Global;
use std::process::Abort;

fn header(rt: &(impl Abort + AllocGlobal)) -> Header {
    let image = SHORT_KEY.image(rt);
    let read = read_header(rt.alloc(), &mut MemSource::new(&image));
    let (header, _area) = read.expect(rt, "a header");
    header
}

/// The slots that are tried and how many bytes are loaded for them, or why there are none. If none
/// is named, these are skipped.
enum Expected {
    Slots(&'static [u8], usize),
    NoSuchSlot(u8),
    Disabled(u8),
    NamedSkipped(u8, SkipReason),
    NothingTried(&'static [(u8, SkipReason)]),
}

// Which slot is named, and the limit of iterations.
static ROWS: [(Option<u8>, Option<u32>, Expected); 16] = [
    (None, None, Expected::Slots(&[0, 3, 5], 4608)),
    (None, Some(9), Expected::Slots(&[0, 3, 5], 4608)),
    (None, Some(8), Expected::Slots(&[0, 5], 3072)),
    (Some(0), None, Expected::Slots(&[0], 1536)),
    (Some(3), None, Expected::Slots(&[3], 4608)),
    (Some(5), Some(7), Expected::Slots(&[5], 3072)),
    (Some(8), None, Expected::NoSuchSlot(8)),
    (Some(255), None, Expected::NoSuchSlot(255)),
    (Some(1), None, Expected::Disabled(1)),
    (Some(7), Some(1), Expected::Disabled(7)),
    (
        Some(2),
        None,
        Expected::NamedSkipped(2, SkipReason::Stripes),
    ),
    (Some(4), None, Expected::NamedSkipped(4, SkipReason::State)),
    (Some(6), None, Expected::NamedSkipped(6, SkipReason::Area)),
    (
        Some(3),
        Some(8),
        Expected::NamedSkipped(3, SkipReason::Iterations),
    ),
    (
        Some(0),
        Some(6),
        Expected::NamedSkipped(0, SkipReason::Digest),
    ),
    (
        None,
        Some(6),
        Expected::NothingTried(&[
            (0, SkipReason::Digest),
            (2, SkipReason::Stripes),
            (3, SkipReason::Iterations),
            (4, SkipReason::State),
            (5, SkipReason::Digest),
            (6, SkipReason::Area),
        ]),
    ),
];

// Whether an order has these slots.
fn has_slots(order: &Order, slots: &[u8]) -> bool {
    let entries = order.entries();
    if entries.len() != slots.len() {
        return false;
    }
    for i in 0..slots.len() {
        if entries[i].number != slots[i] {
            return false;
        }
    }
    true
}

fn is_expected(answer: &Result<Order, OpenFault>, expected: &Expected) -> bool {
    match (answer, expected) {
        (Ok(order), Expected::Slots(slots, end)) => {
            has_slots(order, slots) && key_material_end(order) == *end
        }
        (Err(OpenFault::NothingTried(slots)), Expected::NothingTried(skipped)) => {
            slots.as_slice() == *skipped
        }
        (Err(OpenFault::NoSuchSlot(slot)), Expected::NoSuchSlot(named)) => *slot == *named,
        (Err(OpenFault::Disabled(slot)), Expected::Disabled(named)) => *slot == *named,
        (Err(OpenFault::NamedSkipped(slot, reason)), Expected::NamedSkipped(named, want)) => {
            *slot == *named && *reason == *want
        }
        _ => false,
    }
}

#[test]
fn slots_come_by_ascending_number_if_they_can_be_tried(rt: HostRuntime) {
    let header = header(&rt);
    for (named, limit, expected) in &ROWS {
        let answer = order(rt.alloc(), &header, *named, *limit);
        assert!(rt; is_expected(&answer, expected), "{named:?}, {limit:?}");
    }
}

// Runs until one does not run out of memory: how many slots are tried or why none is, and how many
// runs were before it.
fn first_answer(
    alloc: Global,
    header: &Header,
    named: Option<u8>,
    scarcity: &mut Scarcity,
) -> (Result<usize, OpenFault>, u32) {
    for refused in 0..400u32 {
        let answer = order(alloc, header, named, None).map(|order| order.entries().len());
        if answer != Err(OpenFault::Memory) {
            return (answer, refused);
        }
        scarcity.relent();
    }
    (Err(OpenFault::Memory), 400)
}

// Each run that runs out of memory reports that.
#[test]
fn out_of_memory_is_reported_by_order(rt: HostRuntime) {
    let header = header(&rt);
    for (named, slots) in [(None, 3), (Some(5), 1)] {
        let (answer, refused) = {
            let mut scarcity = Scarcity::new(rt.alloc(), 400, 1100).expect(&rt, "memory");
            first_answer(rt.alloc(), &header, named, &mut scarcity)
        };
        assert!(rt; answer == Ok(slots) && 0 < refused, "{named:?}: {refused}");
    }
}
