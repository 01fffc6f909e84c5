//! Payloads with all endings. The source or the pump has buffered whole sectors, parts of sectors,
//! or nothing.

use super::fixture::{
    End, NEVER, Volume, Way, assert_outcome, check_run, key, run, run_pump, segment_of, volume_of,
};
use crate::tests::shared::{assert_of, kept};
use luks_header::sector_size::SectorSize;
use luks_io::memory::{MemSink, MemSource};
use luks_payload::fault::PayloadFault;
use luks_payload::pump::Pump;
use luks_payload::state::Step;
use std::process::Abort;

/// How a run over an image's first bytes ends: how many bytes these are, how many sectors are
/// forwarded, the answer that ends it, and how many bytes are consumed.
type Row = (usize, u32, Result<Step, PayloadFault>, usize);

/// Sectors of a size, the unit number of the first one, the payload's size if it is fixed, the unit
/// numbers of three sectors, and runs over them.
type Payload = (SectorSize, u64, Option<u64>, [u64; 3], &'static [Row]);

const DYNAMIC_512: [Row; 8] = [
    (0, 0, Err(PayloadFault::CutBeforePayload), 0),
    (999, 0, Err(PayloadFault::CutBeforePayload), 999),
    (1000, 0, Ok(Step::End), 1000),
    (1001, 0, Err(PayloadFault::Tail(1)), 1001),
    (1511, 0, Err(PayloadFault::Tail(511)), 1511),
    (1512, 1, Ok(Step::End), 1512),
    (1513, 1, Err(PayloadFault::Tail(1)), 1513),
    (2536, 3, Ok(Step::End), 2536),
];

const DYNAMIC_4096: [Row; 3] = [
    (5095, 0, Err(PayloadFault::Tail(4095)), 5095),
    (5096, 1, Ok(Step::End), 5096),
    (13_288, 3, Ok(Step::End), 13_288),
];

const FIXED_512: [Row; 8] = [
    (999, 0, Err(PayloadFault::CutBeforePayload), 999),
    (1000, 0, Err(PayloadFault::Short(1024)), 1000),
    (1001, 0, Err(PayloadFault::Short(1023)), 1001),
    (1512, 1, Err(PayloadFault::Short(512)), 1512),
    (2023, 1, Err(PayloadFault::Short(1)), 2023),
    (2024, 2, Ok(Step::End), 2024),
    (2025, 2, Ok(Step::End), 2024),
    (2536, 2, Ok(Step::End), 2024),
];

const FIXED_EMPTY: [Row; 3] = [
    (999, 0, Err(PayloadFault::CutBeforePayload), 999),
    (1000, 0, Ok(Step::End), 1000),
    (2536, 0, Ok(Step::End), 1000),
];

const FIXED_4096: [Row; 1] = [(13_288, 2, Ok(Step::End), 9192)];

/// The unit numbers of three sectors from 5 on.
const UNITS_512: [u64; 3] = [5, 6, 7];

const UNITS_4096: [u64; 3] = [5, 13, 21];

// Unit numbers wrap.
const WRAPPED_512: Payload = (
    SectorSize::B512,
    u64::MAX,
    None,
    [18_446_744_073_709_551_615, 0, 1],
    &[(2536, 3, Ok(Step::End), 2536)],
);

const WRAPPED_4096: Payload = (
    SectorSize::B4096,
    u64::MAX,
    None,
    [18_446_744_073_709_551_615, 7, 15],
    &[(13_288, 3, Ok(Step::End), 13_288)],
);

static PAYLOADS: [Payload; 7] = [
    (SectorSize::B512, 5, None, UNITS_512, &DYNAMIC_512),
    (SectorSize::B4096, 5, None, UNITS_4096, &DYNAMIC_4096),
    (SectorSize::B512, 5, Some(1024), UNITS_512, &FIXED_512),
    (SectorSize::B512, 5, Some(0), UNITS_512, &FIXED_EMPTY),
    (SectorSize::B4096, 5, Some(8192), UNITS_4096, &FIXED_4096),
    WRAPPED_512,
    WRAPPED_4096,
];

/// How many bytes a source can buffer, how many the one below it gives at once, all if it is 0, and
/// how many a sink accepts at once.
type Shape = (usize, usize, usize);

// First a source that buffers nothing, in pieces and at once; then one that buffers less than a
// sector of 512 bytes, one sector and a part, three sectors, and the whole image; and last pieces
// that end within sectors.
static SHAPES: [Shape; 13] = [
    (0, 1, 700),
    (0, 511, 1),
    (0, 512, 700),
    (0, 513, 512),
    (0, 5000, 5000),
    (0, 0, 200),
    (300, 0, 200),
    (700, 0, 200),
    (1536, 0, 200),
    (5000, 0, 200),
    (65_536, 0, 200),
    (65_536, 513, 200),
    (65_536, 1700, 200),
];

// The way in which nothing fails.
fn way_of((capacity, piece, sink_piece): Shape) -> Way {
    Way {
        loaded: 0,
        capacity,
        piece,
        bad_read: NEVER,
        sink_piece,
        bad_write: NEVER,
    }
}

// Checks each run of this payload, whatever the source has buffered.
fn check_payload(
    rt: &(impl Abort + AllocGlobal),
    (sector_size, iv_tweak, size, units, rows): &Payload,
) {
    let volume = volume_of(rt, *sector_size, units);
    let segment = segment_of(rt, *sector_size, *iv_tweak, *size);
    for (len, sectors, last, consumed) in *rows {
        let image = &volume.image[..*len.min(&volume.image.len())];
        let written = (*sectors as usize).saturating_mul(sector_size.bytes());
        for shape in &SHAPES {
            let end = (*sectors, *last, *consumed, written);
            check_run(rt, segment, (image, volume.plain), way_of(*shape), end);
        }
    }
}

#[test]
fn payloads_end_as_they_are_truncated(rt: HostRuntime) {
    for payload in &PAYLOADS {
        check_payload(&rt, payload);
    }
}

/// Sectors of a size, the payload's size if it is fixed, and a run over an image's first bytes: how
/// many bytes these are, how many sectors are forwarded, the answer that ends it, and where the
/// source is left if that is not after the loaded bytes. The run ends like that for each of these
/// numbers of loaded bytes.
type Prefix = (SectorSize, Option<u64>, [u64; 3], Row, &'static [usize]);

static PREFIXES: [Prefix; 5] = [
    (
        SectorSize::B512,
        None,
        UNITS_512,
        (2536, 3, Ok(Step::End), 2536),
        &[1000, 1001, 1511, 1512, 1513, 2000, 2024, 2025, 2535, 2536],
    ),
    (
        SectorSize::B512,
        None,
        UNITS_512,
        (2535, 2, Err(PayloadFault::Tail(511)), 2535),
        &[1000, 1512, 2024, 2025, 2535],
    ),
    (
        SectorSize::B4096,
        None,
        UNITS_4096,
        (13_288, 3, Ok(Step::End), 13_288),
        &[1000, 1512, 5095, 5096, 5097, 9192, 13_288],
    ),
    (
        SectorSize::B512,
        Some(1024),
        UNITS_512,
        (2536, 2, Ok(Step::End), 2024),
        &[1000, 1600, 2023, 2024, 2025, 2536],
    ),
    (
        SectorSize::B512,
        Some(1024),
        UNITS_512,
        (1999, 1, Err(PayloadFault::Short(25)), 1999),
        &[1000, 1512, 1600, 1999],
    ),
];

fn check_prefix(rt: &(impl Abort + AllocGlobal), (sector_size, size, units, row, lens): &Prefix) {
    let volume = volume_of(rt, *sector_size, units);
    let segment = segment_of(rt, *sector_size, 5, *size);
    let (len, sectors, last, consumed) = *row;
    let image = &volume.image[..len.min(volume.image.len())];
    let written = (sectors as usize).saturating_mul(sector_size.bytes());
    for loaded in *lens {
        let way = Way {
            loaded: *loaded,
            ..way_of((0, 513, 700))
        };
        let end = (sectors, last, consumed.max(*loaded), written);
        check_run(rt, segment, (image, volume.plain), way, end);
    }
}

#[test]
fn buffered_bytes_are_forwarded_first(rt: HostRuntime) {
    for prefix in &PREFIXES {
        check_prefix(&rt, prefix);
    }
}

// Reads are of 200 bytes: five before the payload, then 200, 200 and 112 for each sector, and one
// at the end.
static BAD_READS: [(u64, End); 8] = [
    (0, (0, Err(PayloadFault::Read), 0, 0)),
    (4, (0, Err(PayloadFault::Read), 800, 0)),
    (5, (0, Err(PayloadFault::Read), 1000, 0)),
    (7, (0, Err(PayloadFault::Read), 1400, 0)),
    (8, (1, Err(PayloadFault::Read), 1512, 512)),
    (13, (2, Err(PayloadFault::Read), 2424, 1024)),
    (14, (3, Err(PayloadFault::Read), 2536, 1536)),
    (15, (3, Ok(Step::End), 2536, 1536)),
];

#[test]
fn failed_reads_are_reported_from_then_on(rt: HostRuntime) {
    let volume = volume_of(&rt, SectorSize::B512, &UNITS_512);
    let parts = (volume.image, volume.plain);
    let segment = segment_of(&rt, SectorSize::B512, 5, None);
    for (bad_read, end) in &BAD_READS {
        let way = Way {
            bad_read: *bad_read,
            ..way_of((0, 200, 200))
        };
        check_run(&rt, segment, parts, way, *end);
    }
    // After the loaded bytes.
    let way = Way {
        loaded: 1600,
        bad_read: 0,
        ..way_of((0, 513, 700))
    };
    check_run(
        &rt,
        segment,
        parts,
        way,
        (1, Err(PayloadFault::Read), 1600, 512),
    );
}

// Writes are of 200 bytes, too. What was consumed is the same whatever the source has buffered.
static BAD_WRITES: [(u64, End); 5] = [
    (0, (0, Err(PayloadFault::Write), 1512, 0)),
    (2, (0, Err(PayloadFault::Write), 1512, 400)),
    (3, (1, Err(PayloadFault::Write), 2024, 512)),
    (8, (2, Err(PayloadFault::Write), 2536, 1424)),
    (9, (3, Ok(Step::End), 2536, 1536)),
];

#[test]
fn failed_writes_are_reported_from_then_on(rt: HostRuntime) {
    let volume = volume_of(&rt, SectorSize::B512, &UNITS_512);
    let segment = segment_of(&rt, SectorSize::B512, 5, None);
    for (bad_write, end) in &BAD_WRITES {
        for (capacity, piece, _) in &SHAPES {
            let way = Way {
                bad_write: *bad_write,
                ..way_of((*capacity, *piece, 200))
            };
            check_run(&rt, segment, (volume.image, volume.plain), way, *end);
        }
    }
}

// A sector is forwarded exactly if it is whole in what one call read.
static FORWARDED: [(usize, usize, u32); 8] = [
    (0, 0, 0),
    (700, 0, 0),
    (1536, 0, 2),
    (2024, 0, 2),
    (5000, 0, 3),
    (65_536, 513, 0),
    (65_536, 1512, 2),
    (65_536, 1700, 2),
];

#[test]
fn buffered_sectors_are_forwarded(rt: HostRuntime) {
    let volume = volume_of(&rt, SectorSize::B512, &UNITS_512);
    let segment = segment_of(&rt, SectorSize::B512, 5, None);
    for (capacity, piece, forwarded) in &FORWARDED {
        let way = way_of((*capacity, *piece, 200));
        let outcome = run(&rt, segment, (volume.image, volume.plain), way);
        let is_whole = outcome.end == (3, Ok(Step::End), 2536, 1536);
        let is_so = is_whole & (outcome.forwarded == *forwarded);
        assert_outcome(&rt, volume.image.len(), &way, &outcome, is_so);
    }
}

// Whether a skip leaves the source at the payload.
fn skips(pump: &mut Pump<'_>, source: &mut MemSource<'_>) -> bool {
    (pump.skip(source) == Ok(())) & (source.left().len() == 1536)
}

// Whether the plaintext is written, and the source consumed.
fn ends(pump: &mut Pump<'_>, source: &mut MemSource<'_>, sink: &mut MemSink, plain: &[u8]) -> bool {
    let end = run_pump(pump, source, sink);
    (end == (3, Ok(Step::End))) & source.left().is_empty() & (sink.as_slice() == plain)
}

// Whether neither a step nor a skip consumes or writes anything.
fn rests(pump: &mut Pump<'_>, source: &mut MemSource<'_>, sink: &mut MemSink) -> bool {
    let is_stepped = pump.step(source, sink) == Ok(Step::End);
    let is_skipped = pump.skip(source) == Ok(());
    is_stepped & is_skipped & (source.left().len() == 2536) & (sink.as_slice().len() == 1536)
}

fn check_end(rt: &(impl Abort + AllocGlobal), mut pump: Pump<'_>, volume: Volume, rest: &[u8]) {
    let mut source = MemSource::new(rest);
    assert_of(rt, "first skip", skips(&mut pump, &mut source));
    assert_of(rt, "second skip", skips(&mut pump, &mut source));
    let sink = kept(rt, MemSink::new(rt.alloc(), 4096).expect(rt, "memory"));
    let is_over = ends(&mut pump, &mut source, sink, volume.plain);
    let mut more = MemSource::new(volume.image);
    assert_of(rt, "end", is_over & rests(&mut pump, &mut more, sink));
}

// The source is at the end of the header's 592 bytes. A second skip consumes nothing, and after the
// end neither a step nor a skip consumes or writes anything.
#[test]
fn a_second_skip_and_a_step_after_the_end_touch_nothing(rt: HostRuntime) {
    let volume = volume_of(&rt, SectorSize::B512, &UNITS_512);
    let segment = segment_of(&rt, SectorSize::B512, 5, None);
    assert!(rt; 592 <= segment.offset && volume.image.len() == 2536);
    let pump = Pump::new(segment, key(&rt), 592);
    check_end(&rt, pump, volume, &volume.image[592..]);
}
