//! Sinks over writers.

ghost use Rattle.std.specs.Prelude.{◌≡◌, ◌<◌, ℕ, List, Ok, Option, None, length};
ghost use Rattle.std.specs.Io.KnownBytes.{WriteAppends};
ghost use Rattle.luks_io.specs.CallOutcomes.{OutcomeAppends, GivesNext, ReportsFirst, max_retries};
ghost use Rattle.luks_io.specs.CallOutcomes.{write_result};
ghost use Rattle.luks_io.specs.Devices.{AcceptsSome};
ghost use Rattle.luks_io.specs.Counts.{after_write};
ghost use Rattle.luks_io.specs.declared.adapters.CallOutcome.{CallOutcome};

use super::{CallOutcome, MAX_RETRIES, call_outcome};
use crate::DeviceFault;
use crate::counts::WriteCounts;
use crate::sink::Sink;
use std::io::Write;
use std::marker::Model;

/// A device that answers one write at a time. If its answers are known, clauses say which of them
/// are requested and what is reported from them. Each writer of std is one, whose answers are not
/// known in advance.
pub trait RawWriter {
    /// The bytes that were written, if they are known.
    ghost bytes: { Self → Option (List ℕ) };

    /// The answers of the calls from here on, if they are known.
    ghost answers: { Self → Option (List CallOutcome) };

    /// Writes once, a prefix of the buffer. Only `Moved` moves bytes.
    fn call(&mut self, buf: &[u8]) -> CallOutcome
        ensures next { GivesNext (answers self.old) result (answers self.new) }
        ensures moved { OutcomeAppends (bytes self.old) (bytes self.new) result buf.now };
}

impl<W: Write> RawWriter for W {
    ghost bytes = { λ w. W.contents w };

    ghost answers = { λ _. None };

    fn call(&mut self, buf: &[u8]) -> CallOutcome {
        call_outcome(self.write(buf))
    }
}

/// Writes once, and again while the write is interrupted and a retry remains. A write that accepts
/// nothing has failed. An empty buffer is not written.
///
/// # Errors
///
/// A [`DeviceFault`] if a write failed, or was interrupted after the last retry.
pub fn write_patiently<D: RawWriter>(device: &mut D, buf: &[u8]) -> Result<usize, DeviceFault>
    ensures reported { 0 < length buf.now
        → ReportsFirst write_result (D.answers device.old) max_retries result
        (D.answers device.new) }
    ensures empty { length buf.now ≡ 0 → (result ≡ Ok 0) × (device.new ≡ device.old) }
    ensures bound { AcceptsSome result buf.now }
    ensures bytes { WriteAppends (D.bytes device.old) (D.bytes device.new) result buf.now }
{
    if buf.is_empty() {
        return Ok(0);
    }
    let mut tries = MAX_RETRIES;
    'tries: loop {
        match device.call(buf) {
            CallOutcome::Moved(0) => return Err(DeviceFault),
            CallOutcome::Moved(count) => return Ok(count),
            CallOutcome::Interrupted if tries > 0 => tries -= 1,
            CallOutcome::Interrupted => return Err(DeviceFault),
            CallOutcome::Failed => return Err(DeviceFault),
        }
    }
}

/// A sink over a writer. It knows the bytes that the writer knows. A clause sees the writer, and
/// the counts.
#[derive(Drop)]
pub struct WriteSink<D> {
    writer: D,
    counts: WriteCounts,
}

impl<D> Model for WriteSink<D> {
    ghost use Rattle.luks_io.specs.Counts.{WriteSinkModel};

    ghost Value = { WriteSinkModel D };

    ghost view = { λ s. record { writer = s.writer; counts = s.counts } };
}

impl<D: RawWriter> WriteSink<D> {
    /// A sink over this writer, with nothing counted so far.
    pub fn new(writer: D) -> WriteSink<D>
        ensures { result
            ≡ record { writer = writer; counts = record { failures = 0; needless = 0 } } }
    {
        WriteSink {
            writer,
            counts: WriteCounts::new(),
        }
    }

    /// The writer, with the bytes that were written so far.
    pub fn into_inner(self) -> D
        ensures { result ≡ self.writer }
    {
        self.writer
    }
}

impl<D: RawWriter> Sink for WriteSink<D> {
    ghost written = { λ s. D.bytes s.writer };

    ghost counts = { λ s. s.counts };

    /// Writes a prefix of the buffer: the first answer of the writer that is not an interruption is
    /// returned, and counted as one write. A writer that accepts nothing of a buffer with bytes has
    /// failed. An empty buffer does not reach the writer.
    fn write(&mut self, buf: &[u8]) -> Result<usize, DeviceFault>
        ensures bound { AcceptsSome result buf.now }
        ensures bytes { WriteAppends (D.bytes self.old.writer) (D.bytes self.new.writer) result
            buf.now }
        ensures counts { self.new.counts ≡ after_write result (length buf.now) self.old.counts }
        ensures reported { 0 < length buf.now
            → ReportsFirst write_result (D.answers self.old.writer) max_retries result
            (D.answers self.new.writer) }
        ensures empty { length buf.now ≡ 0 → (result ≡ Ok 0)
            × (self.new.writer ≡ self.old.writer) }
    {
        let answer = write_patiently(&mut self.writer, buf);
        self.counts.count(answer, buf.len())
    }
}
