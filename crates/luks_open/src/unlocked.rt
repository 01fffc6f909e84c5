//! Volumes that a passphrase opened.

ghost use Rattle.std.specs.Prelude.{◌≡◌, length, true};
ghost use Rattle.luks_cipher.specs.Sector.{is_mode_key_length};

use crate::key::Key;
use crate::opening::Opened;
use luks_cipher::SectorCipher;
use luks_header::segment::Segment;

/// A volume that a passphrase opened. The length of its key is one that its segment's mode allows.
#[derive(Drop)]
pub struct UnlockedVolume {
    /// Where its payload is.
    pub segment: Segment,
    /// The number of the key slot that opened.
    pub slot: u8,
    /// The volume key.
    pub key: Key,
    pub ghost key_length: { is_mode_key_length segment.mode (length key) ≡ true },
}

impl UnlockedVolume {
    /// The opened volume with this segment.
    pub(crate) fn new(segment: Segment, opened: Opened) -> UnlockedVolume
        requires { is_mode_key_length segment.mode (length opened.key) ≡ true }
        ensures segment { result.segment ≡ segment }
        ensures slot { result.slot ≡ opened.slot }
        ensures key { result.key ≡ opened.key }
    {
        let Opened { slot, key } = opened;
        UnlockedVolume { segment, slot, key }
    }

    /// The cipher of its payload: the volume key in the segment's mode.
    pub fn cipher(&self) -> SectorCipher
        ensures { result ≡ (self.now.segment.mode, self.now.key) }
    {
        SectorCipher::expanded(self.segment.mode, self.key.as_slice())
    }
}
