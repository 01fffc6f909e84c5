//! Salts and digests.

ghost use Rattle.std.specs.Prelude.{◌≡◌, List, ℕ, IfOk};

use std::alloc::{AllocError, Global};
use std::marker::Model;

/// Bytes of a header, of a length that the header determines: a salt or the value of a digest. A
/// clause sees them.
#[derive(Drop, Debug)]
pub struct HeaderBytes {
    bytes: Vec<u8>,
}

impl Model for HeaderBytes {
    ghost Value = { List ℕ };

    ghost view = { λ h. h.bytes.items };
}

impl HeaderBytes {
    /// A copy of these bytes.
    pub fn new(alloc: Global, bytes: &[u8]) -> Result<HeaderBytes, AllocError>
        ensures { IfOk result (λ made. made ≡ bytes.now) }
    {
        Ok(HeaderBytes {
            bytes: bytes.to_vec(alloc)?,
        })
    }

    /// The bytes.
    pub fn as_slice(&self) -> &[u8]
        ensures { result.now ≡ self.now }
    {
        self.bytes.as_slice()
    }
}
