//! Sources over readers.

ghost use Rattle.std.specs.Prelude.{◌≡◌, ◌<◌, ℕ, List, Ok, Option, None, length};
ghost use Rattle.std.specs.Io.{ReadsAtMost};
ghost use Rattle.std.specs.Io.KnownBytes.{ReadConsumes};
ghost use Rattle.luks_io.specs.CallOutcomes.{OutcomeConsumes, GivesNext, ReportsFirst, max_retries};
ghost use Rattle.luks_io.specs.CallOutcomes.{read_result};
ghost use Rattle.luks_io.specs.Counts.{after_read, allowed_to, unread};
ghost use Rattle.luks_io.specs.declared.adapters.CallOutcome.{CallOutcome};

use super::{CallOutcome, MAX_RETRIES, call_outcome};
use crate::DeviceFault;
use crate::counts::ReadCounts;
use crate::source::Source;
use std::io::Read;
use std::marker::Model;

/// A device that answers one read at a time. If its answers are known, clauses say which of them
/// are requested and what is reported from them. Each reader of std is one, whose answers are not
/// known in advance.
pub trait RawReader {
    /// The remaining bytes, if they are known.
    ghost bytes: { Self → Option (List ℕ) };

    /// The answers of the calls from here on, if they are known.
    ghost answers: { Self → Option (List CallOutcome) };

    /// Reads once, into the start of the buffer. Only `Moved` moves bytes.
    fn call(&mut self, buf: &mut [u8]) -> CallOutcome
        ensures next { GivesNext (answers self.old) result (answers self.new) }
        ensures moved { OutcomeConsumes (bytes self.old) (bytes self.new) result buf.new };
}

impl<R: Read> RawReader for R {
    ghost bytes = { λ r. R.remaining r };

    ghost answers = { λ _. None };

    fn call(&mut self, buf: &mut [u8]) -> CallOutcome {
        call_outcome(self.read(buf))
    }
}

/// Reads once, and again while the read is interrupted and a retry remains.
fn read_patiently<D: RawReader>(device: &mut D, buf: &mut [u8]) -> Result<usize, DeviceFault>
    ensures reported { ReportsFirst read_result (D.answers device.old) max_retries result
        (D.answers device.new) }
    ensures bound { ReadsAtMost result buf.new }
    ensures bytes { ReadConsumes (D.bytes device.old) (D.bytes device.new) result buf.new }
{
    let mut tries = MAX_RETRIES;
    'tries: loop {
        match device.call(buf) {
            CallOutcome::Moved(count) => return Ok(count),
            CallOutcome::Interrupted if tries > 0 => tries -= 1,
            CallOutcome::Interrupted => return Err(DeviceFault),
            CallOutcome::Failed => return Err(DeviceFault),
        }
    }
}

/// A source over a reader. It knows the bytes that the reader knows. After the reader has reported
/// that no bytes remain, it is not called again: a file that grows, or a terminal, ends once. A
/// clause sees the reader, and the counts.
#[derive(Drop)]
pub struct ReadSource<D> {
    reader: D,
    counts: ReadCounts,
}

impl<D> Model for ReadSource<D> {
    ghost use Rattle.luks_io.specs.CallOutcomes.{ReadSourceModel};

    ghost Value = { ReadSourceModel D };

    ghost view = { λ s. record { reader = s.reader; counts = s.counts } };
}

impl<D: RawReader> ReadSource<D> {
    /// A source over this reader, with nothing counted so far.
    pub fn new(reader: D) -> ReadSource<D>
        ensures { result ≡ record { reader = reader; counts = unread } }
    {
        ReadSource {
            reader,
            counts: ReadCounts::new(),
        }
    }

    /// The counts of its reads.
    pub fn counts(&self) -> ReadCounts
        ensures { result ≡ self.now.counts }
    {
        self.counts
    }
}

impl<D: RawReader> Source for ReadSource<D> {
    ghost use Rattle.luks_io.specs.Counts.{left_of};

    ghost to_come = { λ s. left_of s.counts.ends (D.bytes s.reader) };

    ghost counts = { λ s. s.counts };

    /// Reads the next bytes: the first answer of the reader that is not an interruption is
    /// returned, and counted as one read. A reader that has hit EOF is not called.
    fn read(&mut self, buf: &mut [u8]) -> Result<usize, DeviceFault>
        ensures bound { ReadsAtMost result buf.new }
        ensures bytes { ReadConsumes (⟦<ReadSource<D> as Source>⟧.to_come self.old)
            (⟦<ReadSource<D> as Source>⟧.to_come self.new) result buf.new }
        ensures counts { self.new.counts ≡ after_read result (length buf.new) self.old.counts }
        ensures reported { self.old.counts.ends ≡ 0
            → ReportsFirst read_result (D.answers self.old.reader) max_retries result
            (D.answers self.new.reader) }
        ensures ended { 0 < self.old.counts.ends
            → (result ≡ Ok 0) × (self.new.reader ≡ self.old.reader) }
    {
        if self.counts.ends > 0 {
            return self.counts.count(Ok(0), buf.len());
        }
        let answer = read_patiently(&mut self.reader, buf);
        self.counts.count(answer, buf.len())
    }

    fn allow_read_ahead(&mut self, end: u64)
        ensures { self.new ≡ record self.old { counts = allowed_to end self.old.counts } }
    {
        self.counts.allow(end);
    }
}
