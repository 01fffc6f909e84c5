//! Ranges that volumes of both formats share.

ghost use Rattle.std.specs.Prelude.{◌≡◌, ◌≢◌, ◌<◌, ◌≤◌, ◌↔◌, ℕ, length, IsTrue};
ghost use Rattle.luks_volume.specs.Ranges.{FitsPlain, FitsText};
ghost use Rattle.luks_format.specs.SectorSize.{bytes_of};

use luks_format::sector_size::SectorSize;

/// The text has at most this many bytes, none of them zero.
pub fn fits_text(max_len: usize, text: &[u8]) -> bool
    ensures { IsTrue result ↔ FitsText max_len text.now }
{
    if text.len() > max_len {
        return false;
    }
    for byte in text {
        if *byte == 0 {
            return false;
        }
    }
    true
}

/// A plaintext of this length is whole sectors of this size, and is not too long.
pub(crate) fn fits_plain(sector: SectorSize, len: usize) -> bool
    ensures { IsTrue result ↔ FitsPlain (bytes_of sector) len }
{
    len % sector.bytes() == 0 && len <= 8_388_608
}
