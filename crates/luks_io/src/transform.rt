//! Transformations of bytes on their way from a source to a sink.

ghost use Rattle.std.specs.Prelude.{◌≡◌, ◌<◌, ◌≤◌, ◌+◌, ℕ, List, length, take, drop, is_err};
ghost use Rattle.std.specs.Prelude.{OnOk, IfErr};
ghost use Rattle.luks_io.specs.Devices.{Appended};
ghost use Rattle.luks_io.specs.Counts.{Writes};

use crate::sink::{Sink, WriteFault, put_all};

/// Transforms bytes in place.
pub trait Transform {
    /// The numbers of bytes that it transforms at once.
    ghost accepts: { Self → ℕ → Type 0 };

    /// The transformed bytes.
    ghost transformed: { Self → List ℕ → List ℕ };

    /// Transforms these bytes.
    fn apply(&self, bytes: &mut [u8])
        requires { accepts self.now (length bytes.old) }
        ensures { bytes.new ≡ transformed self.now bytes.old };
}

/// Transforms some bytes of a buffer in place, and writes them. The bytes after them do not
/// change.
pub(crate) fn put_transformed<C: Transform, O: Sink>(
    buffer: &mut [u8],
    start: usize,
    count: usize,
    transform: &C,
    sink: &mut O,
) -> Result<(), WriteFault>
    requires within { start + count ≤ length buffer.old }
    requires accepts { C.accepts transform.now count }
    ensures len { length buffer.new ≡ length buffer.old }
    ensures behind { drop (start + count) buffer.new ≡ drop (start + count) buffer.old }
    ensures ok { OnOk result (Appended (O.written sink.old) (O.written sink.new)
        (C.transformed transform.now (take count (drop start buffer.old)))) }
    ensures err { IfErr result (λ fault. (fault.written < count)
        × Appended (O.written sink.old) (O.written sink.new)
        (take fault.written (C.transformed transform.now (take count (drop start buffer.old))))) }
    ensures writes { Writes (is_err result) (O.counts sink.old) (O.counts sink.new) }
{
    let piece = &mut buffer[start..start + count];
    transform.apply(piece);
    put_all(sink, piece)
}
