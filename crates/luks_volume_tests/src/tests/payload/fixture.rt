//! Images of payloads, and runs over them.
//!
//! What is made for a test stays to its end, so that no function drops it.

use crate::tests::shared::kept;
use luks_cipher::{Mode, SectorCipher};
use luks_header::sector_size::SectorSize;
use luks_header::segment::Segment;
use luks_io::DeviceFault;
use luks_io::read_ahead::ReadAheadSource;
use luks_io::sink::{Sink, WriteFault};
use luks_io::source::{Source, fill};
use luks_io::transform::Transform;
use luks_payload::fault::PayloadFault;
use luks_payload::pump::Pump;
use luks_payload::state::Step;
use luks_test_support::devices::{FlakySink, FlakySource};
use std::process::Abort;

/// An image, and the plain bytes of its sectors.
#[derive(Clone, Copy)]
pub struct Volume {
    pub image: &'static [u8],
    pub plain: &'static [u8],
}

/// A sink that accepts this many bytes, at most `piece` of them at once, and whose write of this
/// number fails.
pub fn sink_of(
    rt: &(impl Abort + AllocGlobal),
    capacity: usize,
    piece: usize,
    bad_write: u64,
) -> &'static mut FlakySink {
    let sink = FlakySink::new(rt.alloc(), capacity, piece, bad_write);
    kept(rt, sink.expect(rt, "memory"))
}

/// The cipher of all payloads here.
pub fn key(rt: &impl Abort) -> SectorCipher {
    SectorCipher::new(Mode::XtsPlain64, b"a key of XTS-AES-128 has 32 byte").expect(rt, "a key")
}

// Appends the sector with this unit number. No other sector has its plain bytes.
fn push_sector(
    rt: &impl Abort,
    image: &mut Vec<u8>,
    plain: &mut Vec<u8>,
    unit: u64,
    size: SectorSize,
) {
    let mut bytes = [0; 4096];
    for (i, byte) in bytes.iter_mut().enumerate() {
        let i = i as u64;
        *byte = ((unit % 256 * 89 + i % 256 * 7 + i / 256) % 256) as u8;
    }
    let sector = &mut bytes[..size.bytes()];
    plain.extend_from_slice(sector).expect(rt, "memory");
    key(rt).encrypt_unit(unit, sector);
    image.extend_from_slice(sector).expect(rt, "memory");
}

/// An image whose payload begins at byte 1000, with one sector of this size for each unit number.
pub fn volume_of(rt: &(impl Abort + AllocGlobal), size: SectorSize, units: &[u64]) -> Volume {
    let mut image = vec![in rt.alloc(); 0xee; 1000].expect(rt, "memory");
    let mut plain = Vec::new(rt.alloc());
    for unit in units {
        push_sector(rt, &mut image, &mut plain, *unit, size);
    }
    Volume {
        image: image.leak(),
        plain: plain.leak(),
    }
}

/// A segment from byte 1000 on, with a fixed size or without.
pub fn segment_of(
    rt: &impl Abort,
    sector_size: SectorSize,
    iv_tweak: u64,
    size: Option<u64>,
) -> Segment {
    let segment = Segment::from_parts(
        Some(1000),
        Some(size),
        Some(iv_tweak),
        Some(sector_size),
        Some(Mode::XtsPlain64),
    );
    segment.expect(rt, "a segment")
}

/// No call fails.
pub const NEVER: u64 = u64::MAX;

/// How an image is read, and how its plain bytes are written.
#[derive(Clone, Copy, Debug)]
pub struct Way {
    /// How many bytes are loaded before the source is called.
    pub loaded: usize,
    /// How many bytes the source can buffer.
    pub capacity: usize,
    /// How many bytes the source below gives at once, or all if it is 0.
    pub piece: usize,
    /// Which read of the source below fails.
    pub bad_read: u64,
    /// How many bytes the sink accepts at once.
    pub sink_piece: usize,
    /// Which write fails.
    pub bad_write: u64,
}

/// The result of a run: how many steps answer with a sector, the answer that ends it, and how many
/// bytes are consumed and written.
pub type End = (u32, Result<Step, PayloadFault>, usize, usize);

/// The result of a run, and how many sectors the source forwarded. It is sound if what it wrote is
/// a prefix of the plain bytes, and if further steps and skips answered alike and called no device.
#[derive(Clone, Copy, Debug)]
pub struct Outcome {
    pub end: End,
    pub forwarded: u32,
    pub is_sound: bool,
}

// A source that counts how often it forwards bytes.
#[derive(Drop)]
struct ForwardCounter<S> {
    source: S,
    forwarded: u32,
}

impl<S: Source> Source for ForwardCounter<S> {
    ghost to_come = { λ p. S.to_come p.source };

    ghost counts = { λ p. S.counts p.source };

    fn read(&mut self, buf: &mut [u8]) -> Result<usize, DeviceFault> {
        self.source.read(buf)
    }

    fn allow_read_ahead(&mut self, end: u64) {
        self.source.allow_read_ahead(end);
    }

    fn forward_buffered<C: Transform, O: Sink>(
        &mut self,
        count: usize,
        transform: &C,
        sink: &mut O,
    ) -> Option<Result<(), WriteFault>> {
        let answer = self.source.forward_buffered(count, transform, sink);
        if answer.is_some() {
            self.forwarded = self.forwarded.saturating_add(1);
        }
        answer
    }
}

/// Steps until one answers no sector: how many did, and what that one answers.
pub fn run_pump<S: Source, O: Sink>(
    pump: &mut Pump<'_>,
    source: &mut S,
    sink: &mut O,
) -> (u32, Result<Step, PayloadFault>) {
    for sectors in 0..100 {
        let last = pump.step(source, sink);
        if last != Ok(Step::Sector) {
            return (sectors, last);
        }
    }
    (100, Ok(Step::Sector))
}

/// Runs the pump over a device that gives bytes in pieces.
pub fn run_pieces(
    pump: &mut Pump<'_>,
    source: &mut FlakySource<'_>,
    sink: &mut FlakySink,
) -> (u32, Result<Step, PayloadFault>) {
    run_pump(pump, source, sink)
}

type Buffered<'a> = ForwardCounter<ReadAheadSource<FlakySource<'a>>>;

// A source of these bytes, which may all be read ahead.
fn source_of<'a>(rt: &(impl Abort + AllocGlobal), bytes: &'a [u8], way: &Way) -> Buffered<'a> {
    let below = FlakySource::new(bytes, way.piece, way.bad_read);
    let source = ReadAheadSource::new(rt.alloc(), way.capacity, below).expect(rt, "memory");
    let mut source = ForwardCounter {
        source,
        forwarded: 0,
    };
    source.allow_read_ahead(u64::MAX);
    source
}

// The pump of a payload with these bytes loaded.
fn pump_of<'a>(rt: &impl Abort, segment: Segment, first: &'a [u8]) -> Pump<'a> {
    if first.is_empty() {
        Pump::new(segment, key(rt), 0)
    } else {
        Pump::with_loaded(segment, key(rt), &first[first.len().min(1000)..])
    }
}

fn run_loaded(
    pump: &mut Pump<'_>,
    source: &mut Buffered<'_>,
    sink: &mut FlakySink,
) -> (u32, Result<Step, PayloadFault>) {
    run_pump(pump, source, sink)
}

// Whether further steps and skips answer as the last step did, and call no device.
fn is_over(
    pump: &mut Pump<'_>,
    source: &mut Buffered<'_>,
    sink: &mut FlakySink,
    last: Result<Step, PayloadFault>,
) -> bool {
    let calls = [source.source.get_ref().calls(), sink.calls()];
    let again = run_loaded(pump, source, sink);
    let is_skipped = pump.skip(source).is_ok();
    (again == (0, last))
        & ([source.source.get_ref().calls(), sink.calls()] == calls)
        & (is_skipped == last.is_ok())
}

// How many bytes a source still gives. A read that fails only here gives nothing.
fn left_in(source: &mut Buffered<'_>) -> usize {
    match fill(source, &mut [0; 16_384]) {
        Ok(count) => count,
        Err(fault) => fault.got,
    }
}

/// The result of a run over an image. Bytes that the source no longer gives count as consumed.
pub fn run(
    rt: &(impl Abort + AllocGlobal),
    segment: Segment,
    (image, plain): (&[u8], &[u8]),
    way: Way,
) -> Outcome {
    let (first, rest) = image.split_at(way.loaded.min(image.len()));
    let mut source = source_of(rt, rest, &way);
    let sink = sink_of(rt, 65_536, way.sink_piece, way.bad_write);
    let mut pump = pump_of(rt, segment, first);
    let (sectors, last) = run_loaded(&mut pump, &mut source, sink);
    let is_over = is_over(&mut pump, &mut source, sink, last);
    let consumed = image.len().saturating_sub(left_in(&mut source));
    Outcome {
        end: (sectors, last, consumed, sink.as_slice().len()),
        forwarded: source.forwarded,
        is_sound: is_over & plain.starts_with(sink.as_slice()),
    }
}

/// Asserts what holds for an outcome.
pub fn assert_outcome(rt: &impl Abort, len: usize, way: &Way, outcome: &Outcome, holds: bool) {
    assert!(rt; holds, "{len} bytes, {way:?}: {outcome:?}");
}

/// Asserts that a run has this result.
pub fn check_run(
    rt: &(impl Abort + AllocGlobal),
    segment: Segment,
    parts: (&[u8], &[u8]),
    way: Way,
    end: End,
) {
    let outcome = run(rt, segment, parts, way);
    let is_so = outcome.is_sound & (outcome.end == end);
    assert_outcome(rt, parts.0.len(), &way, &outcome, is_so);
}
