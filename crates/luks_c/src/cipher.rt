//! An open volume with its expanded keys, as C keeps it.

ghost use Rattle.std.specs.Prelude.{◌≡◌, ◌≢◌, List, length, true};
ghost use Rattle.luks_cipher.specs.Expanded.{AreExpanded};
ghost use Rattle.luks_cipher.specs.Sector.{is_mode_key_length};
ghost use Rattle.luks_c.specs.Steps.{IsNoCipher, IsPrepared, no_keys, prepare_code, zero_key};
ghost use Rattle.luks_c.specs.Stored.{Filled};
ghost use Rattle.luks_open.specs.declared.unlocked.UnlockedVolume.{UnlockedVolume};

use crate::code::{BAD_VOLUME, OK};
use crate::volume::{LuksrdVolume, key, segment};
use luks_aes::{KeyPlane, KeySchedule, RoundKey, RoundKeys};
use luks_cipher::{ExpandedKeys, Mode};

/// An open volume with its expanded keys. All of it is plain numbers.
#[repr(C)]
pub struct LuksrdCipher {
    /// The volume.
    pub volume: LuksrdVolume,
    /// Its expanded keys.
    pub keys: ExpandedKeys,
    /// Always 0.
    pub reserved: [u64; 82],
}

// A round key of zeros.
fn zero_key() -> RoundKey
    ensures { result ≡ zero_key }
{
    RoundKey {
        plane_0: KeyPlane { words: [0; 16] },
        plane_1: KeyPlane { words: [0; 16] },
        plane_2: KeyPlane { words: [0; 16] },
        plane_3: KeyPlane { words: [0; 16] },
        plane_4: KeyPlane { words: [0; 16] },
        plane_5: KeyPlane { words: [0; 16] },
        plane_6: KeyPlane { words: [0; 16] },
        plane_7: KeyPlane { words: [0; 16] },
    }
}

// Expanded keys of zeros, which are those of no key.
fn no_keys() -> ExpandedKeys
    ensures { result ≡ no_keys }
{
    ExpandedKeys {
        data: RoundKeys {
            rounds: 0,
            first: zero_key(),
            between: [zero_key(); 13],
            last: zero_key(),
        },
        iv_or_tweak: KeySchedule {
            rounds: 0,
            bytes: [0; 240],
        },
    }
}

impl LuksrdCipher {
    /// Stores a volume with this key, expanded for this mode.
    pub(crate) fn store(&mut self, volume: &LuksrdVolume, mode: Mode, key: &[u8])
        requires { is_mode_key_length mode (length key.now) ≡ true }
        ensures volume { self.new.volume ≡ volume.now }
        ensures keys { AreExpanded key.now mode self.new.keys }
    {
        self.volume = *volume;
        self.keys = ExpandedKeys::new(mode, key);
        self.reserved = [0; 82];
    }

    /// Fills the struct with zeros.
    pub(crate) fn clear(&mut self)
        ensures { IsNoCipher self.new }
    {
        self.volume.clear();
        self.keys = no_keys();
        self.reserved = [0; 82];
    }
}

/// Expands the keys of a volume. If the code is not 0, the struct is all zero.
///
/// It is not inlined in the function for C, which writes over the stack that this uses.
#[inline(never)]
pub(crate) fn prepare(volume: &LuksrdVolume, cipher: &mut LuksrdCipher) -> u32
    ensures code { result ≡ prepare_code volume.now }
    ensures filled { (v : UnlockedVolume) → Filled volume.now v → result ≡ 0 }
    ensures volume { result ≡ 0 → cipher.new.volume ≡ volume.now }
    ensures prepared { result ≡ 0 → IsPrepared cipher.new }
    ensures cleared { result ≢ 0 → IsNoCipher cipher.new }
{
    if volume.reserved != 0 {
        cipher.clear();
        return BAD_VOLUME;
    }
    let Some(segment) = segment(volume) else {
        cipher.clear();
        return BAD_VOLUME;
    };
    let Some(key) = key(volume, segment.mode) else {
        cipher.clear();
        return BAD_VOLUME;
    };
    cipher.store(volume, segment.mode, key);
    OK
}
