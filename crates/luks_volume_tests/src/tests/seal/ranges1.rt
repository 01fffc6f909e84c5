//! Each range of LUKS1 from both sides.

use super::{KEY_LENGTHS, check_fits};
use crate::tests::shared::counted;
use luks_cipher::Mode;
use luks_test_support::bytes::at;
use luks_test_support::parameters::{SALT, parameters1, slot1};
use luks_volume::luks1::seal1;
use luks_volume::parameters::{Seal1, Slot1};
use std::process::Abort;

/// What is changed in parameters that are in range.
#[derive(Drop)]
enum Change {
    /// The stripes of an area, and the payload's sector.
    Stripes(u32, u32),
    DigestIterations(u32),
    /// Where the UUID begins among bytes that count up, and how long it is.
    Counted(usize, usize),
    Uuid(&'static [u8]),
    Key(Mode, usize),
    /// The length of the plaintext.
    Plain(usize),
}

fn changed<'a>(change: &Change, bytes: &'a [u8]) -> Seal1<'a> {
    let base = parameters1(&[], &[]);
    match *change {
        Change::Stripes(stripes, payload_sectors) => Seal1 {
            stripes,
            payload_sectors,
            ..base
        },
        Change::DigestIterations(digest_iterations) => Seal1 {
            digest_iterations,
            ..base
        },
        Change::Counted(offset, len) => Seal1 {
            uuid: at(bytes, offset, len),
            ..base
        },
        Change::Uuid(uuid) => Seal1 { uuid, ..base },
        Change::Key(mode, len) => Seal1 {
            mode,
            key: at(bytes, 0, len),
            ..base
        },
        Change::Plain(len) => Seal1 {
            plain: at(bytes, 0, len),
            ..base
        },
    }
}

static ROWS: [(Change, bool); 24] = [
    (Change::Stripes(0, 72), false),
    (Change::Stripes(1, 72), true),
    (Change::Stripes(1, 71), false),
    (Change::Stripes(4000, 2056), true),
    (Change::Stripes(4000, 2055), false),
    (Change::Stripes(4001, 4096), false),
    (Change::Stripes(4, 65_536), true),
    (Change::Stripes(4, 65_537), false),
    (Change::DigestIterations(0), false),
    (Change::DigestIterations(1), true),
    (Change::Counted(1, 0), true),
    (Change::Counted(1, 40), true),
    (Change::Counted(1, 41), false),
    (Change::Counted(0, 1), false),
    (Change::Uuid(b"\x00a-uuid"), false),
    (Change::Uuid(b"a-\x00uuid"), false),
    (Change::Uuid(b"a-uuid\x00"), false),
    (Change::Uuid(b"a-uuid\xff"), true),
    (Change::Plain(0), true),
    (Change::Plain(511), false),
    (Change::Plain(512), true),
    (Change::Plain(513), false),
    (Change::Plain(1024), true),
    (Change::Plain(8_389_120), false),
];

#[test]
fn each_range_has_its_bounds(rt: HostRuntime) {
    let bytes = counted(&rt, 8_389_120);
    for (row, (change, fits)) in ROWS.iter().enumerate() {
        check_fits(
            &rt,
            row,
            seal1(rt.alloc(), &changed(change, bytes)).err(),
            *fits,
        );
    }
}

#[test]
fn each_mode_has_its_lengths_of_keys(rt: HostRuntime) {
    let bytes = counted(&rt, 65);
    for (row, (mode, len, fits)) in KEY_LENGTHS.iter().enumerate() {
        let seal = changed(&Change::Key(*mode, *len), bytes);
        check_fits(&rt, row, seal1(rt.alloc(), &seal).err(), *fits);
    }
}

/// A slot's number, its iterations, and how many random bytes are given.
type Given = (u32, u32, usize);

const GOOD: Given = (7, 2, 96);

// Slots, and the stripes of each.
static SLOTS: [(&[Given], u32, bool); 11] = [
    (&[GOOD], 4, true),
    (&[(8, 2, 96)], 4, false),
    (&[(7, 0, 96)], 4, false),
    (&[GOOD, (6, 2, 96)], 4, true),
    (&[GOOD, (6, 2, 96), GOOD], 4, false),
    (&[(7, 2, 95)], 4, false),
    (&[(7, 2, 96)], 4, true),
    (&[(7, 2, 97)], 4, false),
    (&[(7, 2, 0)], 1, true),
    (&[(7, 2, 1)], 1, false),
    (&[(7, 2, 32)], 1, false),
];

fn slots_of<'a>(rt: &(impl Abort + AllocGlobal), all: &[Given], bytes: &'a [u8]) -> Vec<Slot1<'a>> {
    let mut slots = Vec::new(rt.alloc());
    for (number, iterations, random) in all {
        let slot = Slot1 {
            iterations: *iterations,
            random: at(bytes, 0, *random),
            ..slot1(*number, SALT, b"")
        };
        slots.push(slot).expect(rt, "memory");
    }
    slots
}

#[test]
fn each_range_of_the_slots_has_its_bounds(rt: HostRuntime) {
    let bytes = counted(&rt, 97);
    for (row, (given, stripes, fits)) in SLOTS.iter().enumerate() {
        let slots = slots_of(&rt, given, bytes);
        let seal = Seal1 {
            stripes: *stripes,
            ..parameters1(&slots, &[])
        };
        check_fits(&rt, row, seal1(rt.alloc(), &seal).err(), *fits);
    }
}
