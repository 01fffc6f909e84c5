//! Sinks of bytes.

ghost use Rattle.std.specs.Prelude.{◌≡◌, ◌<◌, ℕ, List, Option, length, take, is_err, OnOk, IfErr};
ghost use Rattle.std.specs.Io.KnownBytes.{WriteAppends};
ghost use Rattle.luks_io.specs.Devices.{Appended, AcceptsSome};
ghost use Rattle.luks_io.specs.Counts.{Writes, after_write};
ghost use Rattle.luks_io.specs.declared.counts.WriteCounts.{WriteCounts};

use crate::DeviceFault;

/// Appends bytes: those of each call follow those of the calls before.
pub trait Sink {
    /// The bytes that were written, if the sink knows them.
    ghost written: { Self → Option (List ℕ) };

    /// How many writes have failed, and how many were needless.
    ghost counts: { Self → WriteCounts };

    /// Writes a prefix of the buffer, and returns its length: at least one byte if there are any. A
    /// failure writes nothing.
    fn write(&mut self, buf: &[u8]) -> Result<usize, DeviceFault>
        ensures bound { AcceptsSome result buf.now }
        ensures bytes { WriteAppends (written self.old) (written self.new) result buf.now }
        ensures counts { counts self.new ≡ after_write result (length buf.now) (counts self.old) };
}

/// A write failed after `written` bytes.
#[derive(Clone, Copy, Debug, PartialEq, Eq)]
pub struct WriteFault {
    pub written: usize,
}

/// Writes all the bytes.
///
/// # Errors
///
/// A [`WriteFault`] if a write failed: exactly the first `written` bytes were written before.
pub fn put_all<S: Sink>(sink: &mut S, bytes: &[u8]) -> Result<(), WriteFault>
    ensures ok { OnOk result (Appended (S.written sink.old) (S.written sink.new) bytes.now) }
    ensures err { IfErr result (λ fault. (fault.written < length bytes.now)
        × Appended (S.written sink.old) (S.written sink.new) (take fault.written bytes.now)) }
    ensures writes { Writes (is_err result) (S.counts sink.old) (S.counts sink.new) }
{
    let mut at = 0;
    while at < bytes.len() {
        match sink.write(&bytes[at..]) {
            Ok(n) => at += n,
            Err(DeviceFault) => return Err(WriteFault { written: at }),
        }
    }
    Ok(())
}
