//! Devices over memory that move a few bytes a call, or fail at one call or after some bytes.

ghost use Rattle.std.specs.Prelude.{◌≡◌, ◌<◌, ℕ, List, [], Some, IfOk, length};
ghost use Rattle.luks_io.specs.Counts.{unread};

use luks_io::DeviceFault;
use luks_io::counts::{ReadCounts, WriteCounts};
use luks_io::memory::MemSink;
use luks_io::sink::Sink;
use luks_io::source::Source;
use std::alloc::{AllocError, Global};

/// A source that gives at most `piece` bytes a call, or all that are requested if `piece` is 0.
/// Call number `failing`, counted from 0, fails, and later ones succeed.
#[derive(Drop)]
pub struct FlakySource<'a> {
    left: &'a [u8],
    piece: usize,
    failing: u64,
    calls: u64,
    /// How many calls failed, hit EOF, and were needless; how many bytes were consumed, and up
    /// to which position read-ahead was allowed.
    pub counts: ReadCounts,
}

impl<'a> FlakySource<'a> {
    /// A source of these bytes.
    pub fn new(bytes: &'a [u8], piece: usize, failing: u64) -> FlakySource<'a>
        ensures bytes { ⟦<FlakySource<'a> as Source>⟧.to_come result ≡ Some bytes.entry.now }
        ensures counts { ⟦<FlakySource<'a> as Source>⟧.counts result
            ≡ unread }
    {
        FlakySource {
            left: bytes,
            piece,
            failing,
            calls: 0,
            counts: ReadCounts::new(),
        }
    }

    /// How many bytes remain.
    pub fn left(&self) -> usize
        ensures { (known : List ℕ) → ⟦<FlakySource<'a> as Source>⟧.to_come self.now ≡ Some known
            → result ≡ length known }
    {
        self.left.len()
    }

    /// How many calls there were.
    pub fn calls(&self) -> u64 {
        self.calls
    }
}

impl<'a> Source for FlakySource<'a> {
    ghost use Rattle.std.specs.Prelude.{Some};

    ghost to_come = { λ s. Some s.left.now };

    ghost counts = { λ s. s.counts };

    fn read(&mut self, buf: &mut [u8]) -> Result<usize, DeviceFault> {
        let call = self.calls;
        self.calls = call.wrapping_add(1);
        if call == self.failing {
            return self.counts.count(Err(DeviceFault), buf.len());
        }
        let mut count = buf.len().min(self.left.len());
        if self.piece > 0 {
            count = count.min(self.piece);
        }
        let (now, later) = self.left.split_at(count);
        buf[..count].copy_from_slice(now);
        self.left = later;
        self.counts.count(Ok(count), buf.len())
    }

    fn allow_read_ahead(&mut self, end: u64) {
        self.counts.allow(end);
    }
}

/// A sink that accepts at most `piece` bytes a call, and at least one. Call number `failing`,
/// counted from 0, fails, and later ones succeed.
#[derive(Drop)]
pub struct FlakySink {
    sink: MemSink,
    piece: usize,
    failing: u64,
    calls: u64,
    /// How many calls failed, and were needless.
    pub counts: WriteCounts,
    ghost some: { 0 < piece },
}

impl FlakySink {
    /// A sink with capacity for this many bytes.
    pub fn new(
        alloc: Global,
        capacity: usize,
        piece: usize,
        failing: u64,
    ) -> Result<FlakySink, AllocError>
        ensures bytes { IfOk result (λ sink. ⟦<FlakySink as Sink>⟧.written sink ≡ Some []) }
        ensures counts { IfOk result (λ sink. ⟦<FlakySink as Sink>⟧.counts sink
            ≡ record { failures = 0; needless = 0 }) }
    {
        Ok(FlakySink {
            sink: MemSink::new(alloc, capacity)?,
            piece: piece.max(1),
            failing,
            calls: 0,
            counts: WriteCounts::new(),
        })
    }

    /// The bytes that were written.
    pub fn as_slice(&self) -> &[u8]
        ensures { ⟦<FlakySink as Sink>⟧.written self.now ≡ Some result.now }
    {
        self.sink.as_slice()
    }

    /// How many calls there were.
    pub fn calls(&self) -> u64 {
        self.calls
    }

    /// How many calls failed.
    pub fn failures(&self) -> u64
        ensures { result ≡ (⟦<FlakySink as Sink>⟧.counts self.now).failures }
    {
        self.counts.failures
    }
}

impl Sink for FlakySink {
    ghost use Rattle.std.specs.Prelude.{Some};

    ghost written = { λ s. Some s.sink.written };

    ghost counts = { λ s. s.counts };

    fn write(&mut self, buf: &[u8]) -> Result<usize, DeviceFault> {
        let call = self.calls;
        self.calls = call.wrapping_add(1);
        if call == self.failing {
            return self.counts.count(Err(DeviceFault), buf.len());
        }
        let count = buf.len().min(self.piece);
        let answer = self.sink.write(&buf[..count]);
        self.counts.count(answer, buf.len())
    }
}

/// A source that gives this many bytes, and whose further reads fail.
#[derive(Drop)]
pub struct BrokenSource<'a> {
    left: &'a [u8],
    given: usize,
    /// How many calls failed, hit EOF, and were needless; how many bytes were consumed, and up
    /// to which position read-ahead was allowed.
    pub counts: ReadCounts,
}

impl<'a> BrokenSource<'a> {
    /// A source of these bytes that gives only the first `given`.
    pub fn new(bytes: &'a [u8], given: usize) -> BrokenSource<'a>
        ensures bytes { ⟦<BrokenSource<'a> as Source>⟧.to_come result ≡ Some bytes.entry.now }
        ensures counts { ⟦<BrokenSource<'a> as Source>⟧.counts result
            ≡ unread }
    {
        BrokenSource {
            left: bytes,
            given,
            counts: ReadCounts::new(),
        }
    }

    /// How many bytes remain.
    pub fn left(&self) -> usize
        ensures { (known : List ℕ) → ⟦<BrokenSource<'a> as Source>⟧.to_come self.now ≡ Some known
            → result ≡ length known }
    {
        self.left.len()
    }
}

impl<'a> Source for BrokenSource<'a> {
    ghost use Rattle.std.specs.Prelude.{Some};

    ghost to_come = { λ s. Some s.left.now };

    ghost counts = { λ s. s.counts };

    fn read(&mut self, buf: &mut [u8]) -> Result<usize, DeviceFault> {
        if self.given == 0 {
            return self.counts.count(Err(DeviceFault), buf.len());
        }
        let count = buf.len().min(self.left.len()).min(self.given);
        self.given -= count;
        let (now, later) = self.left.split_at(count);
        buf[..count].copy_from_slice(now);
        self.left = later;
        self.counts.count(Ok(count), buf.len())
    }

    fn allow_read_ahead(&mut self, end: u64) {
        self.counts.allow(end);
    }
}
