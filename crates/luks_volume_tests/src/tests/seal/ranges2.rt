//! Each range of LUKS2 from both sides.

use super::{KEY_LENGTHS, check_fits};
use crate::tests::shared::counted;
use luks_cipher::Mode;
use luks_format::sector_size::SectorSize;
use luks_test_support::bytes::at;
use luks_test_support::parameters::{SALT, parameters2, slot2};
use luks_volume::luks2::seal2;
use luks_volume::parameters::{Seal2, Slot2};
use std::process::Abort;

/// What is changed in parameters that are in range. A text begins at an index of bytes that count
/// up, and has a length.
#[derive(Drop)]
enum Change {
    /// The length of a header, and the payload's offset.
    Size(u64, u64),
    DigestIterations(u32),
    Uuid(usize, usize),
    Label(usize, usize),
    Subsystem(usize, usize),
    Written(&'static [u8]),
    Key(Mode, usize),
    AreaKey(Mode, usize),
    /// The length of a sector, and that of the plaintext.
    Plain(SectorSize, usize),
}

fn changed<'a>(change: &Change, bytes: &'a [u8]) -> Seal2<'a> {
    let mut seal = parameters2(&[], &[]);
    match *change {
        Change::Size(hdr_size, offset) => {
            seal.hdr_size = hdr_size;
            seal.offset = offset;
        }
        Change::DigestIterations(iterations) => seal.digest_iterations = iterations,
        Change::Uuid(offset, len) => seal.uuid = at(bytes, offset, len),
        Change::Label(offset, len) => seal.label = at(bytes, offset, len),
        Change::Subsystem(offset, len) => seal.subsystem = at(bytes, offset, len),
        Change::Written(label) => seal.label = label,
        Change::Key(mode, len) => {
            seal.mode = mode;
            seal.key = at(bytes, 0, len);
        }
        Change::AreaKey(mode, len) => {
            seal.area_mode = mode;
            seal.area_key_size = len;
        }
        Change::Plain(sector_size, len) => {
            seal.sector_size = sector_size;
            seal.plain = at(bytes, 0, len);
        }
    }
    seal
}

fn check_rows(rt: &(impl Abort + AllocGlobal), rows: &[(Change, bool)], bytes: &[u8]) {
    for (row, (change, fits)) in rows.iter().enumerate() {
        check_fits(
            rt,
            row,
            seal2(rt.alloc(), &changed(change, bytes)).err(),
            *fits,
        );
    }
}

static ROWS: [(Change, bool); 54] = [
    (Change::Size(16_384, 32_768), true),
    (Change::Size(16_384, 28_672), false),
    (Change::Size(16_384, 32_769), false),
    (Change::Size(16_384, 36_864), true),
    (Change::Size(32_768, 65_536), true),
    (Change::Size(32_768, 61_440), false),
    (Change::Size(65_536, 131_072), true),
    (Change::Size(131_072, 262_144), true),
    (Change::Size(262_144, 524_288), true),
    (Change::Size(524_288, 1_048_576), true),
    (Change::Size(4_194_304, 8_384_512), false),
    (Change::Size(8_388_608, 16_777_216), false),
    (Change::Size(8192, 65_536), false),
    (Change::Size(0, 65_536), false),
    (Change::Size(16_383, 65_536), false),
    (Change::Size(16_385, 65_536), false),
    (Change::Size(24_576, 65_536), false),
    (Change::Size(16_384, 33_558_528), false),
    (Change::Size(16_384, 18_446_744_073_709_547_520), false),
    (Change::DigestIterations(0), false),
    (Change::DigestIterations(1), true),
    (Change::Uuid(1, 0), true),
    (Change::Label(1, 0), true),
    (Change::Subsystem(1, 0), true),
    (Change::Uuid(1, 40), true),
    (Change::Label(1, 40), true),
    (Change::Subsystem(1, 40), true),
    (Change::Uuid(1, 41), false),
    (Change::Label(1, 41), true),
    (Change::Subsystem(1, 41), true),
    (Change::Uuid(1, 48), false),
    (Change::Label(1, 48), true),
    (Change::Subsystem(1, 48), true),
    (Change::Uuid(1, 49), false),
    (Change::Label(1, 49), false),
    (Change::Subsystem(1, 49), false),
    (Change::Uuid(0, 1), false),
    (Change::Label(0, 1), false),
    (Change::Subsystem(0, 1), false),
    (Change::Uuid(0, 2), false),
    (Change::Label(0, 2), false),
    (Change::Subsystem(0, 2), false),
    (Change::Written(b"a\x00b"), false),
    (Change::Plain(SectorSize::B512, 511), false),
    (Change::Plain(SectorSize::B512, 512), true),
    (Change::Plain(SectorSize::B512, 513), false),
    (Change::Plain(SectorSize::B1024, 512), false),
    (Change::Plain(SectorSize::B1024, 1024), true),
    (Change::Plain(SectorSize::B2048, 1024), false),
    (Change::Plain(SectorSize::B2048, 2048), true),
    (Change::Plain(SectorSize::B4096, 2048), false),
    (Change::Plain(SectorSize::B4096, 4096), true),
    (Change::Plain(SectorSize::B4096, 4608), false),
    (Change::Plain(SectorSize::B512, 8_389_120), false),
];

#[test]
fn each_range_has_its_bounds(rt: HostRuntime) {
    check_rows(&rt, &ROWS, counted(&rt, 8_389_120));
}

static LARGEST: [(Change, bool); 4] = [
    (Change::Size(1_048_576, 2_097_152), true),
    (Change::Size(2_097_152, 4_194_304), true),
    (Change::Size(4_194_304, 8_388_608), true),
    (Change::Size(16_384, 33_554_432), true),
];

#[test]
fn the_largest_headers_and_the_latest_payload_fit(rt: HostRuntime) {
    check_rows(&rt, &LARGEST, &[]);
}

#[test]
fn each_mode_has_its_lengths_of_keys(rt: HostRuntime) {
    let bytes = counted(&rt, 65);
    for (mode, len, fits) in &KEY_LENGTHS {
        let rows = [
            (Change::Key(*mode, *len), *fits),
            (Change::AreaKey(*mode, *len), *fits),
        ];
        check_rows(&rt, &rows, bytes);
    }
}

/// A slot's number, its priority, its iterations, its stripes, and how many random bytes are given.
type Given = (u32, u32, u32, u32, usize);

const GOOD: Given = (31, 1, 2, 4, 96);

// With a key of 32 bytes the area of four stripes has 4096 bytes, and that of 200 has 8192.
const SHORT: Given = (9, 1, 2, 4, 96);

const LONG: Given = (3, 1, 2, 200, 6368);

// Slots, and the payload's offset.
static SLOTS: [(&[Given], u64, bool); 22] = [
    (&[GOOD], 65_536, true),
    (&[(32, 1, 2, 4, 96)], 65_536, false),
    (&[(31, 0, 2, 4, 96)], 65_536, true),
    (&[(31, 2, 2, 4, 96)], 65_536, true),
    (&[(31, 3, 2, 4, 96)], 65_536, false),
    (&[(31, 1, 0, 4, 96)], 65_536, false),
    (&[(31, 1, 1, 4, 96)], 65_536, true),
    (&[GOOD, (6, 1, 2, 4, 96)], 65_536, true),
    (&[GOOD, (6, 1, 2, 4, 96), GOOD], 65_536, false),
    (&[SHORT, LONG], 40_960, false),
    (&[SHORT, LONG], 45_056, true),
    (&[SHORT, LONG], 49_152, true),
    (&[(31, 1, 2, 0, 0)], 1_048_576, false),
    (&[(31, 1, 2, 1, 0)], 1_048_576, true),
    (&[(31, 1, 2, 1, 1)], 1_048_576, false),
    (&[(31, 1, 2, 1, 32)], 1_048_576, false),
    (&[(31, 1, 2, 4, 95)], 1_048_576, false),
    (&[(31, 1, 2, 4, 96)], 1_048_576, true),
    (&[(31, 1, 2, 4, 97)], 1_048_576, false),
    (&[(31, 1, 2, 4000, 127_968)], 1_048_576, true),
    (&[(31, 1, 2, 4000, 127_967)], 1_048_576, false),
    (&[(31, 1, 2, 4001, 128_000)], 1_048_576, false),
];

fn slots_of<'a>(rt: &(impl Abort + AllocGlobal), all: &[Given], bytes: &'a [u8]) -> Vec<Slot2<'a>> {
    let mut slots = Vec::new(rt.alloc());
    for (number, priority, iterations, stripes, random) in all {
        let slot = Slot2 {
            priority: *priority,
            iterations: *iterations,
            stripes: *stripes,
            random: at(bytes, 0, *random),
            ..slot2(*number, SALT, b"")
        };
        slots.push(slot).expect(rt, "memory");
    }
    slots
}

#[test]
fn each_range_of_the_slots_has_its_bounds(rt: HostRuntime) {
    let bytes = counted(&rt, 128_000);
    for (row, (given, offset, fits)) in SLOTS.iter().enumerate() {
        let slots = slots_of(&rt, given, bytes);
        let seal = Seal2 {
            offset: *offset,
            ..parameters2(&slots, &[])
        };
        check_fits(&rt, row, seal2(rt.alloc(), &seal).err(), *fits);
    }
}
