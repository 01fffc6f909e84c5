//! Sources of bytes.

ghost use Rattle.std.specs.Prelude.{◌≡◌, ◌<◌, ◌≤◌, ℕ, List, Option, length, min};
ghost use Rattle.std.specs.Prelude.{is_err, IfOk, MatchResult};
ghost use Rattle.std.specs.Io.{ReadsAtMost};
ghost use Rattle.std.specs.Io.KnownBytes.{ReadConsumes};
ghost use Rattle.luks_io.specs.Devices.{ConsumedInto, ForwardEffect, IfKnown, is_aborted};
ghost use Rattle.luks_io.specs.Devices.{is_short_read};
ghost use Rattle.luks_io.specs.Counts.{Reads, Writes, after_forward};
ghost use Rattle.luks_io.specs.Counts.{after_read, allowed_to, got_in};
ghost use Rattle.luks_io.specs.declared.counts.ReadCounts.{ReadCounts};

use crate::DeviceFault;
use crate::sink::{Sink, WriteFault};
use crate::transform::Transform;

/// Gives bytes: each call gives the next ones.
pub trait Source {
    /// The remaining bytes, if the source knows them.
    ghost to_come: { Self → Option (List ℕ) };

    /// How many reads have failed, how many have hit EOF, and how many were needless; how many
    /// bytes were consumed, and the greatest position up to which read-ahead was allowed.
    ghost counts: { Self → ReadCounts };

    /// Reads the next bytes into the start of the buffer, and returns how many. `Ok(0)` for a
    /// buffer with capacity means that none remain. A failure consumes nothing.
    fn read(&mut self, buf: &mut [u8]) -> Result<usize, DeviceFault>
        ensures bound { ReadsAtMost result buf.new }
        ensures bytes { ReadConsumes (to_come self.old) (to_come self.new) result buf.new }
        ensures counts { counts self.new
            ≡ after_read result (length buf.new) (counts self.old) };

    /// Allows read-ahead up to this position: the bytes before it will be requested, unless the
    /// source ends or a call of some device fails first. Positions are counted from the source's
    /// first byte. A source may read those bytes before they are requested, or not; the bytes that
    /// it gives are the same. What was allowed stays allowed.
    fn allow_read_ahead(&mut self, end: u64)
        ensures bytes { to_come self.new ≡ to_come self.old }
        ensures counts { counts self.new ≡ allowed_to end (counts self.old) };

    /// Forwards the next `count` bytes, transformed, to the sink, if the source has that many
    /// buffered. They are consumed, whether or not the write fails. `None` means that nothing was
    /// done; the caller then reads the bytes.
    fn forward_buffered<C: Transform, O: Sink>(
        &mut self,
        count: usize,
        transform: &C,
        sink: &mut O,
    ) -> Option<Result<(), WriteFault>>
        requires { C.accepts transform.now count }
        ensures forwards { ForwardEffect result ((self.new ≡ self.old) × (sink.new ≡ sink.old))
            count
            (C.transformed transform.now) (to_come self.old) (to_come self.new)
            (O.written sink.old) (O.written sink.new) }
        ensures counts { counts self.new ≡ after_forward result count (counts self.old) }
        ensures writes { Writes (is_aborted result) (O.counts sink.old) (O.counts sink.new) }
    {
        None
    }
}

/// A read failed after `got` bytes.
#[derive(Clone, Copy, Debug, PartialEq, Eq)]
pub struct ReadFault {
    pub got: usize,
}

/// Fills the buffer with the next bytes of the source, and returns how many there were: fewer than
/// the buffer's length only if the source has ended. One read, the last, hits EOF.
///
/// # Errors
///
/// A [`ReadFault`] if a read failed: it says how many bytes were consumed before. They are at the
/// start of the buffer.
pub fn fill<S: Source>(source: &mut S, buf: &mut [u8]) -> Result<usize, ReadFault>
    ensures bound { MatchResult result (λ count. count ≤ length buf.new)
        (λ fault. fault.got < length buf.new) }
    ensures bytes { IfKnown (S.to_come source.old)
        (λ known. ConsumedInto known (S.to_come source.new) buf.new (got_in result)) }
    ensures end { IfOk result (λ count. IfKnown (S.to_come source.old)
        (λ known. count ≡ min (length buf.new) (length known))) }
    ensures reads { Reads (is_err result) (is_short_read result (length buf.new))
        (S.counts source.old) (S.counts source.new) }
{
    let mut at = 0;
    while at < buf.len() {
        match source.read(&mut buf[at..]) {
            Ok(0) => return Ok(at),
            Ok(n) => at += n,
            Err(DeviceFault) => return Err(ReadFault { got: at }),
        }
    }
    Ok(at)
}
