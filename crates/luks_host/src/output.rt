//! The output of a run, below its buffer.

ghost use Rattle.std.specs.Prelude.{◌≡◌, ◌<◌, List, [], ℕ, Bool, Option, None, false, true};
ghost use Rattle.std.specs.Prelude.{◌||◌, length, is_err, is_ok, IsErr, IfErr};
ghost use Rattle.std.specs.Io.{WritesAtMost};
ghost use Rattle.std.specs.Io.KnownBytes.{Keeps, WriteAppends};
ghost use Rattle.std.specs.IoError.{error_kind};
ghost use Rattle.luks_io.specs.CallOutcomes.{ReportsFirst, max_retries, write_result};
ghost use Rattle.luks_host.specs.Outputs.{GivesFlush, reported_of};

use luks_io::adapters::{RawWriter, write_patiently};
use std::alloc::Allocator;
use std::io::{self, BufWriter, ErrorKind, Stdout, Write};
use std::marker::Model;

/// A device that can be flushed. If its answers are known, clauses say which of them are requested.
/// Those of std's writers are not known in advance.
pub trait RawFlush: RawWriter {
    /// Whether the flushes from here on succeed, if that is known.
    ghost flushes: { Self → Option (List Bool) };

    /// The bytes that were written, and that only a flush passes on.
    ghost unflushed: { Self → List ℕ };

    /// Flushes once. Returns whether that succeeded: then all that was written was passed on.
    fn flush_once(&mut self) -> bool
        ensures next { GivesFlush (flushes self.old) result (flushes self.new) }
        ensures kept { Keeps (Self.bytes self.old) (Self.bytes self.new) }
        ensures answers { Self.answers self.new ≡ Self.answers self.old }
        ensures flushed { result ≡ true → unflushed self.new ≡ [] };
}

impl RawFlush for Stdout {
    ghost flushes = { λ _. None };

    ghost unflushed = { λ _. [] };

    fn flush_once(&mut self) -> bool {
        self.flush().is_ok()
    }
}

impl<W: Write + Drop, A: Allocator> RawFlush for BufWriter<W, A> {
    ghost use Rattle.std.specs.Io.Buffered.{writer_buffer};

    ghost flushes = { λ _. None };

    ghost unflushed = { writer_buffer };

    fn flush_once(&mut self) -> bool {
        let flushed = self.flush();
        flushed.is_ok()
    }
}

/// A writer that retries an interrupted write a limited number of times, and does not call the
/// writer below again once a write has failed. A buffer over the bare writer would retry without
/// end, and would write once more after a failure when it is dropped. A clause sees the writer
/// below, and whether a write has failed.
#[derive(Drop)]
pub struct RetryingWriter<D> {
    writer: D,
    failed: bool,
}

impl<D> Model for RetryingWriter<D> {
    ghost use Rattle.luks_host.specs.Outputs.{RetryingModel};

    ghost Value = { RetryingModel D };

    ghost view = { λ s. record { writer = s.writer; failed = s.failed } };
}

impl<D: RawFlush> RetryingWriter<D> {
    /// A writer over this one.
    pub fn new(writer: D) -> RetryingWriter<D>
        ensures { result ≡ record { writer = writer; failed = false } }
    {
        RetryingWriter {
            writer,
            failed: false,
        }
    }
}

/// The error of a failed call. It is no interruption, so that a buffer does not retry it.
fn failure() -> io::Error
    ensures { error_kind result ≡ ErrorKind.Other }
{
    io::Error::from(ErrorKind::Other)
}

impl<D: RawFlush> Write for RetryingWriter<D> {
    ghost contents = { λ s. D.bytes s.writer };

    /// Writes a prefix of the buffer, unless a write has failed before.
    fn write(&mut self, buf: &[u8]) -> io::Result<usize>
        ensures bound { WritesAtMost result buf.now }
        ensures bytes { WriteAppends (D.bytes self.old.writer) (D.bytes self.new.writer) result
            buf.now }
        ensures stopped { self.old.failed ≡ true → IsErr result × (self.new ≡ self.old) }
        ensures reported { self.old.failed ≡ false → 0 < length buf.now
            → ReportsFirst write_result (D.answers self.old.writer) max_retries
            (reported_of result) (D.answers self.new.writer) }
        ensures empty { length buf.now ≡ 0 → self.new.writer ≡ self.old.writer }
        ensures failed { self.new.failed ≡ (self.old.failed || is_err result) }
        ensures kind { IfErr result (λ e. error_kind e ≡ ErrorKind.Other) }
    {
        if self.failed {
            return Err(failure());
        }
        match write_patiently(&mut self.writer, buf) {
            Ok(count) => Ok(count),
            Err(_) => {
                self.failed = true;
                Err(failure())
            }
        }
    }

    /// Flushes the writer below once, unless a write has failed before.
    fn flush(&mut self) -> io::Result<()>
        ensures bytes { Keeps (D.bytes self.old.writer) (D.bytes self.new.writer) }
        ensures answers { D.answers self.new.writer ≡ D.answers self.old.writer }
        ensures stopped { self.old.failed ≡ true → IsErr result × (self.new ≡ self.old) }
        ensures flushed { self.old.failed ≡ false
            → GivesFlush (D.flushes self.old.writer) (is_ok result) (D.flushes self.new.writer) }
        ensures emptied { is_ok result ≡ true → D.unflushed self.new.writer ≡ [] }
        ensures failed { self.new.failed ≡ self.old.failed }
    {
        if self.failed || !self.writer.flush_once() {
            return Err(failure());
        }
        Ok(())
    }
}
