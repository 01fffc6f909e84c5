//! Sources and sinks over memory, which know their bytes.

ghost use Rattle.std.specs.Prelude.{◌≡◌, ◌+◌, ◌-◌, ◌<◌, ◌≤◌, ◌↔◌, [], Some, length};
ghost use Rattle.std.specs.Prelude.{take, drop, max, min, vec_len, IfOk, IsErr};
ghost use Rattle.std.specs.Io.{ReadsAtMost};
ghost use Rattle.std.specs.Io.KnownBytes.{ReadConsumes, WriteAppends};
ghost use Rattle.luks_io.specs.Devices.{AcceptsSome};
ghost use Rattle.luks_io.specs.Counts.{after_read, after_write, counts_of_memory};

use crate::DeviceFault;
use crate::counts::{ReadCounts, WriteCounts};
use crate::sink::Sink;
use crate::source::Source;
use std::alloc::{AllocError, Global};
use std::marker::Model;

/// Reads from bytes in memory. No read fails. A clause sees the remaining bytes, and all counts
/// except that of failures.
#[derive(Drop)]
pub struct MemSource<'a> {
    left: &'a [u8],
    counts: ReadCounts,
}

impl<'a> Model for MemSource<'a> {
    ghost use Rattle.std.specs.Prelude.{◌≡◌};
    ghost use Rattle.luks_io.specs.Counts.{MemSourceModel};

    ghost Value = { MemSourceModel };

    ghost view = { λ s.
        record {
          left = s.left.now;
          ends = s.counts.ends;
          needless = s.counts.needless;
          consumed = s.counts.consumed;
          reached = s.counts.reached;
        } };

    ghost invariant = { λ s. s.counts.failures ≡ 0 };
}

impl<'a> MemSource<'a> {
    /// A source of these bytes.
    pub fn new(bytes: &'a [u8]) -> MemSource<'a>
        ensures { result ≡ record {
          left = bytes.entry.now;
          ends = 0;
          needless = 0;
          consumed = 0;
          reached = 0;
        } }
    {
        MemSource {
            left: bytes,
            counts: ReadCounts::new(),
        }
    }

    /// The remaining bytes.
    pub fn left(&self) -> &'a [u8]
        ensures { result.now ≡ self.now.left }
    {
        self.left
    }
}

impl<'a> Source for MemSource<'a> {
    ghost use Rattle.luks_io.specs.Counts.{counts_of_memory};

    ghost to_come = { λ s. Some s.left };

    ghost counts = { λ s. counts_of_memory s };

    /// Copies as many of the remaining bytes as fit into the buffer. The rest of the buffer does
    /// not change.
    fn read(&mut self, buf: &mut [u8]) -> Result<usize, DeviceFault>
        ensures bound { ReadsAtMost result buf.new }
        ensures bytes { ReadConsumes (Some self.old.left) (Some self.new.left) result buf.new }
        ensures counts { counts_of_memory self.new
            ≡ after_read result (length buf.new) (counts_of_memory self.old) }
        ensures count { IfOk result (λ n. n ≡ min (length buf.new) (length self.old.left)) }
        ensures rest { IfOk result (λ n. drop n buf.new ≡ drop n buf.old) }
    {
        let count = buf.len().min(self.left.len());
        let (now, later) = self.left.split_at(count);
        buf[..count].copy_from_slice(now);
        self.left = later;
        self.counts.count(Ok(count), buf.len())
    }

    /// Nothing is read ahead: all bytes are in memory.
    fn allow_read_ahead(&mut self, end: u64)
        ensures { self.new ≡ record self.old { reached = max end self.old.reached } }
    {
        self.counts.allow(end);
    }
}

/// Writes into memory that was allocated beforehand. It accepts what still fits; a write of any
/// bytes to a full sink fails.
#[derive(Drop)]
pub struct MemSink {
    bytes: Vec<u8>,
    len: usize,
    counts: WriteCounts,
}

impl Model for MemSink {
    ghost use Rattle.std.specs.Prelude.{◌-◌, ◌≤◌, take, vec_len};
    ghost use Rattle.luks_io.specs.Counts.{MemSinkModel};

    ghost Value = { MemSinkModel };

    ghost view = { λ s.
        record {
          written = take s.len s.bytes.items;
          capacity = vec_len s.bytes - s.len;
          counts = s.counts;
        } };

    ghost invariant = { λ s. s.len ≤ vec_len s.bytes };
}

impl MemSink {
    /// An empty sink that holds at most `capacity` bytes. All memory is allocated here; no write
    /// allocates more.
    ///
    /// # Errors
    ///
    /// `AllocError` if memory runs out.
    pub fn new(alloc: Global, capacity: usize) -> Result<MemSink, AllocError>
        ensures { IfOk result (λ s. s ≡ record {
          written = [];
          capacity = capacity;
          counts = record { failures = 0; needless = 0 };
        }) }
    {
        let bytes = vec![in alloc; 0; capacity]?;
        Ok(MemSink {
            bytes,
            len: 0,
            counts: WriteCounts::new(),
        })
    }

    /// The bytes that were written.
    pub fn as_slice(&self) -> &[u8]
        ensures { result.now ≡ self.now.written }
    {
        &self.bytes[..self.len]
    }

    /// How many writes failed.
    pub fn failures(&self) -> u64
        ensures { result ≡ self.now.counts.failures }
    {
        self.counts.failures
    }
}

impl Sink for MemSink {
    ghost written = { λ s. Some s.written };

    ghost counts = { λ s. s.counts };

    /// Accepts as many of the bytes as still fit. It fails only if there are bytes and none fits.
    fn write(&mut self, buf: &[u8]) -> Result<usize, DeviceFault>
        ensures bound { AcceptsSome result buf.now }
        ensures bytes { WriteAppends (Some self.old.written)
            (Some self.new.written) result buf.now }
        ensures counts { self.new.counts ≡ after_write result (length buf.now) self.old.counts }
        ensures count { IfOk result (λ n. n ≡ min (length buf.now) self.old.capacity) }
        ensures capacity { IfOk result (λ n. self.new.capacity ≡ self.old.capacity - n) }
        ensures full { IsErr result ↔ ((self.old.capacity ≡ 0) × (0 < length buf.now)) }
        ensures kept { IsErr result → self.new.capacity ≡ self.old.capacity }
    {
        let fitting = buf.len().min(self.bytes.len() - self.len);
        if fitting == 0 && !buf.is_empty() {
            return self.counts.count(Err(DeviceFault), buf.len());
        }
        self.bytes[self.len..self.len + fitting].copy_from_slice(&buf[..fitting]);
        self.len += fitting;
        self.counts.count(Ok(fitting), buf.len())
    }
}
