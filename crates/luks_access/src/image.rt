//! Images that are read at offsets.

ghost use Rattle.std.specs.Prelude.{◌≡◌, ◌+◌, ◌<◌, Bool, List, ℕ, Option, Err, OnOk, length};
ghost use Rattle.luks_io.specs.Devices.{IfKnown};
ghost use Rattle.luks_access.specs.Sectors.{FailsWithin, IsAt};

/// Why bytes of an image were not read.
#[derive(Clone, Copy, PartialEq, Eq, Debug)]
pub enum ReadAtFault {
    /// A read failed.
    Failed,
    /// The image ends before the last of them.
    Ended,
}

/// An image whose bytes can be read from any offset on.
pub trait ReadAt {
    /// Its bytes, if it knows them.
    ghost image: { Self → Option (List ℕ) };

    /// Whether a read of the byte at this offset may fail.
    ghost fails: { Self → ℕ → Bool };

    /// Its length in bytes.
    fn len(&self) -> u64
        ensures { IfKnown (image self.now) (λ known. result ≡ length known) };

    /// Fills the buffer with the bytes from this offset on. After a fault the buffer may hold any
    /// bytes.
    fn read_at(&self, offset: u64, buf: &mut [u8]) -> Result<(), ReadAtFault>
        ensures bytes { OnOk result (IfKnown (image self.now)
            (λ known. IsAt known offset buf.new)) }
        ensures failed { result ≡ Err ReadAtFault.Failed
            → FailsWithin (fails self.now) offset (length buf.new) }
        ensures ended { result ≡ Err ReadAtFault.Ended → IfKnown (image self.now)
            (λ known. length known < offset + length buf.new) };
}
