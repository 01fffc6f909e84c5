//! Images in memory.

ghost use Rattle.std.specs.Prelude.{◌≡◌, ◌+◌, ◌<◌, ◌≤◌, List, ℕ, Some, Err};
ghost use Rattle.std.specs.Prelude.{IfErr, MatchOption, OnOk, false, length, true};
ghost use Rattle.luks_io.specs.Devices.{IfKnown};
ghost use Rattle.luks_access.specs.Sectors.{FailsWithin, IsAt};

use crate::image::{ReadAt, ReadAtFault};
use std::marker::Model;

/// An image in memory. It knows its bytes, and no read of it fails. Its view is its bytes.
#[derive(Drop)]
pub struct MemImage<'a> {
    bytes: &'a [u8],
}

impl<'a> Model for MemImage<'a> {
    ghost use Rattle.std.specs.Prelude.{List, ℕ};

    ghost Value = { List ℕ };

    ghost view = { λ image. image.bytes.now };
}

impl<'a> MemImage<'a> {
    /// The image of these bytes.
    pub fn new(bytes: &'a [u8]) -> MemImage<'a>
        ensures { result ≡ bytes.entry.now }
    {
        MemImage { bytes }
    }
}

// The bounds of `count` bytes from this offset on, or `None` if there are fewer.
fn bounds(len: usize, offset: u64, count: usize) -> Option<(usize, usize)>
    ensures { MatchOption result (len < offset + count)
        (λ bounds. (bounds.0 ≡ offset) × (bounds.1 ≡ offset + count) × (offset + count ≤ len)) }
{
    let end = offset.checked_add(count as u64)?;
    if end > len as u64 {
        return None;
    }
    Some((offset as usize, end as usize))
}

impl<'a> ReadAt for MemImage<'a> {
    ghost use Rattle.std.specs.Prelude.{Some, false};

    ghost image = { λ image. Some image };

    ghost fails = { λ _ _. false };

    fn len(&self) -> u64 {
        self.bytes.len() as u64
    }

    fn read_at(&self, offset: u64, buf: &mut [u8]) -> Result<(), ReadAtFault>
        ensures bytes { OnOk result (IfKnown (Some self.now) (λ known. IsAt known offset buf.new)) }
        ensures ended { result ≡ Err ReadAtFault.Ended → IfKnown (Some self.now)
            (λ known. length known < offset + length buf.new) }
        ensures failed { result ≡ Err ReadAtFault.Failed
            → FailsWithin (λ _. false) offset (length buf.new) }
        ensures only { IfErr result (λ fault. fault ≡ ReadAtFault.Ended) }
    {
        let Some((start, end)) = bounds(self.bytes.len(), offset, buf.len()) else {
            return Err(ReadAtFault::Ended);
        };
        buf.copy_from_slice(&self.bytes[start..end]);
        Ok(())
    }
}
