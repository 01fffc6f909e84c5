//! The expanded keys of a sector cipher, as plain numbers, which another program can keep.

ghost use Rattle.std.specs.Prelude.{◌≡◌, ◌%◌, ◌≤◌, List, ℕ, length, true};
ghost use Rattle.luks_cipher.specs.Expanded.{AreExpanded};
ghost use Rattle.luks_cipher.specs.Sector.{is_mode_key_length, units_decrypted};

use crate::mode::Mode;
use crate::units::UnitKeys;
use luks_aes::{AesKey, KeySchedule, RoundKeys};
use sha2::{Digest, Sha256};

/// The expanded keys with which sectors are decrypted. They are plain numbers, of any values: only
/// those that [`ExpandedKeys::new`] gives are the keys of a cipher.
#[repr(C)]
#[derive(Drop)]
pub struct ExpandedKeys {
    /// The round keys for the data.
    pub data: RoundKeys,
    /// The key schedule for what enters by a sector's unit number: the tweaks of XTS, and the IVs
    /// of essiv. In mode plain64 it is not used.
    pub iv_or_tweak: KeySchedule,
}

// The keys of XTS: the first half for the data, the second for the tweaks (IEEE 1619, 5.3.1).
#[inline(never)]
fn xts_keys(key: &[u8]) -> ExpandedKeys
    requires { is_mode_key_length Mode.XtsPlain64 (length key.now) ≡ true }
    ensures { AreExpanded key.now Mode.XtsPlain64 result }
{
    let (data_key, tweak_key) = key.split_at(key.len() / 2);
    ExpandedKeys {
        data: RoundKeys::expanded(&AesKey::expanded(data_key)),
        iv_or_tweak: KeySchedule::expanded(tweak_key),
    }
}

// The keys of CBC with essiv: the digest of the key is the one for the IVs.
#[inline(never)]
fn essiv_keys(key: &[u8]) -> ExpandedKeys
    requires { is_mode_key_length Mode.CbcEssivSha256 (length key.now) ≡ true }
    ensures { AreExpanded key.now Mode.CbcEssivSha256 result }
{
    ExpandedKeys {
        data: RoundKeys::expanded(&AesKey::expanded(key)),
        iv_or_tweak: KeySchedule::expanded(&Sha256::digest(key)),
    }
}

// The key of CBC with plain IVs.
#[inline(never)]
fn plain_keys(key: &[u8]) -> ExpandedKeys
    requires { is_mode_key_length Mode.CbcPlain64 (length key.now) ≡ true }
    ensures { AreExpanded key.now Mode.CbcPlain64 result }
{
    ExpandedKeys {
        data: RoundKeys::expanded(&AesKey::expanded(key)),
        iv_or_tweak: KeySchedule::expanded(key),
    }
}

impl ExpandedKeys {
    /// The keys of the cipher of this mode and key. The mode allows the key's length.
    pub fn new(mode: Mode, key: &[u8]) -> ExpandedKeys
        requires { is_mode_key_length mode (length key.now) ≡ true }
        ensures { AreExpanded key.now mode result }
    {
        match mode {
            Mode::XtsPlain64 | Mode::XtsPlain => xts_keys(key),
            Mode::CbcEssivSha256 => essiv_keys(key),
            Mode::CbcPlain64 => plain_keys(key),
        }
    }

    /// Decrypts sectors as [`decrypt_units`](crate::SectorCipher::decrypt_units) of a cipher does,
    /// by the cipher of this mode whose keys these are, if they are.
    pub fn decrypt_units(&self, mode: Mode, first: u64, size: usize, units: &mut [u8])
        requires multiple { size % 512 ≡ 0 }
        requires shortest { 512 ≤ size }
        requires longest { size ≤ 4096 }
        requires whole { length units.old % size ≡ 0 }
        ensures { (key : List ℕ) → AreExpanded key mode self.now
            → units.new ≡ units_decrypted mode key first size units.old }
    {
        let keys = UnitKeys {
            mode,
            round_keys: &self.data,
            iv_or_tweak: &self.iv_or_tweak,
        };
        keys.decrypt_units(first, size, units);
    }
}
