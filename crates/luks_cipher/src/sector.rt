//! A key for the sectors of a disk, in one of the modes.

ghost use Rattle.std.specs.Prelude.{◌≡◌, ◌%◌, ◌≤◌, List, ℕ, length, Some, None};
ghost use Rattle.std.specs.Prelude.{if◌then◌else◌, true};
ghost use Rattle.luks_cipher.specs.declared.mode.Mode.{Mode};
ghost use Rattle.luks_cipher.specs.Expanded.{AreKeysOf};
ghost use Rattle.luks_cipher.specs.Sector.{is_mode_key_length, sector_encrypted, sector_decrypted};
ghost use Rattle.luks_cipher.specs.Sector.{units_decrypted};
ghost use Rattle.luks_cipher.specs.SectorKey.{keys_mode, key_bytes_of, IsSectorKey};
ghost use Rattle.luks_aes.specs.Bytes.{IsBytes};
ghost use Rattle.sha2.specs.Sha256.{sha256};

use crate::cbc::{decrypt_chain, encrypt_chain};
use crate::mode::Mode;
use crate::units::{UnitKeys, number_block};
use crate::xts::XtsKey;
use luks_aes::{AesKey, BatchKey};
use sha2::{Digest, Sha256};
use std::marker::Model;

// The keys that the mode needs, expanded.
#[derive(Drop)]
enum Keys {
    XtsPlain64(XtsKey),
    XtsPlain(XtsKey),
    CbcEssivSha256(BatchKey, AesKey),
    CbcPlain64(BatchKey),
}

/// A key of AES for sectors in one of the modes. Contracts see it as the mode and the key's bytes.
#[derive(Drop)]
pub struct SectorCipher {
    keys: Keys,
}

impl Model for SectorCipher {
    ghost Value = { Mode × List ℕ };

    ghost view = { λ k. (keys_mode k.keys, key_bytes_of k.keys) };

    ghost invariant = { λ k. IsSectorKey k.keys };
}

// The key for the IVs of essiv:sha256: the digest of the data key.
fn iv_key(key: &[u8]) -> AesKey
    ensures { result ≡ sha256 key.now }
{
    AesKey::expanded(&Sha256::digest(key))
}

// The cipher of each mode, by functions that are not inlined, so that the stack has the copies of
// one mode's keys alone.
#[inline(never)]
fn xts_plain64(key: &[u8]) -> SectorCipher
    requires { is_mode_key_length Mode.XtsPlain64 (length key.now) ≡ true }
    ensures { result ≡ (Mode.XtsPlain64, key.now) }
{
    SectorCipher {
        keys: Keys::XtsPlain64(XtsKey::expanded(key)),
    }
}

#[inline(never)]
fn xts_plain(key: &[u8]) -> SectorCipher
    requires { is_mode_key_length Mode.XtsPlain (length key.now) ≡ true }
    ensures { result ≡ (Mode.XtsPlain, key.now) }
{
    SectorCipher {
        keys: Keys::XtsPlain(XtsKey::expanded(key)),
    }
}

#[inline(never)]
fn cbc_essiv_sha256(key: &[u8]) -> SectorCipher
    requires { is_mode_key_length Mode.CbcEssivSha256 (length key.now) ≡ true }
    ensures { result ≡ (Mode.CbcEssivSha256, key.now) }
{
    SectorCipher {
        keys: Keys::CbcEssivSha256(BatchKey::expanded(key), iv_key(key)),
    }
}

#[inline(never)]
fn cbc_plain64(key: &[u8]) -> SectorCipher
    requires { is_mode_key_length Mode.CbcPlain64 (length key.now) ≡ true }
    ensures { result ≡ (Mode.CbcPlain64, key.now) }
{
    SectorCipher {
        keys: Keys::CbcPlain64(BatchKey::expanded(key)),
    }
}

impl SectorCipher {
    /// The cipher of this mode and key: 32 or 64 bytes for XTS, 16 or 32 for CBC; `None` for any
    /// other length.
    pub fn new(mode: Mode, key: &[u8]) -> Option<SectorCipher>
        ensures { result
            ≡ (if is_mode_key_length mode (length key.now) then Some (mode, key.now) else None) }
    {
        if mode.has_key_length(key.len()) {
            Some(SectorCipher::expanded(mode, key))
        } else {
            None
        }
    }

    /// The cipher of this mode and key. The mode allows the key's length.
    pub fn expanded(mode: Mode, key: &[u8]) -> SectorCipher
        requires { is_mode_key_length mode (length key.now) ≡ true }
        ensures { result ≡ (mode, key.now) }
    {
        match mode {
            Mode::XtsPlain64 => xts_plain64(key),
            Mode::XtsPlain => xts_plain(key),
            Mode::CbcEssivSha256 => cbc_essiv_sha256(key),
            Mode::CbcPlain64 => cbc_plain64(key),
        }
    }

    /// Encrypts the sector of this unit number in place, in the cipher's mode: a data unit of XTS
    /// (IEEE 1619, 5.3.2) or a chain of CBC (NIST SP 800-38A, 6.2). Its length is a multiple of 16
    /// bytes, from 16 to 4096.
    pub fn encrypt_unit(&self, number: u64, unit: &mut [u8])
        requires whole_blocks { length unit.old % 16 ≡ 0 }
        requires shortest { 16 ≤ length unit.old }
        requires longest { length unit.old ≤ 4096 }
        ensures value { unit.new ≡ sector_encrypted self.now.0 self.now.1 number unit.old }
        ensures undone { sector_decrypted self.now.0 self.now.1 number unit.new ≡ unit.old }
    {
        match &self.keys {
            Keys::XtsPlain64(key) => key.encrypt_unit(number, unit),
            Keys::XtsPlain(key) => key.encrypt_unit(number % 0x1_0000_0000, unit),
            Keys::CbcEssivSha256(key, iv_key) => {
                let mut iv = number_block(number);
                iv_key.encrypt_block(&mut iv);
                encrypt_chain(key.key(), iv, unit);
            }
            Keys::CbcPlain64(key) => encrypt_chain(key.key(), number_block(number), unit),
        }
    }

    /// Decrypts the sector of this unit number in place, in the cipher's mode: a data unit of XTS
    /// (IEEE 1619, 5.4.2) or a chain of CBC (NIST SP 800-38A, 6.2). Its length is a multiple of 16
    /// bytes, from 16 to 4096.
    pub fn decrypt_unit(&self, number: u64, unit: &mut [u8])
        requires whole_blocks { length unit.old % 16 ≡ 0 }
        requires shortest { 16 ≤ length unit.old }
        requires longest { length unit.old ≤ 4096 }
        ensures value { unit.new ≡ sector_decrypted self.now.0 self.now.1 number unit.old }

        // Decrypting an encrypted sector gives the plain one.
        ensures undoes { (plain : List ℕ) → IsBytes plain → length plain ≡ length unit.old
            → unit.old ≡ sector_encrypted self.now.0 self.now.1 number plain
            → unit.new ≡ plain }
        ensures undone { sector_encrypted self.now.0 self.now.1 number unit.new ≡ unit.old }
    {
        match &self.keys {
            Keys::XtsPlain64(key) => key.decrypt_unit(number, unit),
            Keys::XtsPlain(key) => key.decrypt_unit(number % 0x1_0000_0000, unit),
            Keys::CbcEssivSha256(key, iv_key) => {
                let mut iv = number_block(number);
                iv_key.encrypt_block(&mut iv);
                decrypt_chain(key, iv, unit);
            }
            Keys::CbcPlain64(key) => decrypt_chain(key, number_block(number), unit),
        }
    }

    // The same keys as they are used for whole batches.
    fn unit_keys(&self) -> UnitKeys<'_>
        ensures mode { result.mode ≡ self.now.0 }
        ensures keys { AreKeysOf self.now.1 self.now.0 result.round_keys.now
            result.iv_or_tweak.now }
    {
        match &self.keys {
            Keys::XtsPlain64(key) => key.unit_keys(Mode::XtsPlain64),
            Keys::XtsPlain(key) => key.unit_keys(Mode::XtsPlain),
            Keys::CbcEssivSha256(key, iv_key) => UnitKeys {
                mode: Mode::CbcEssivSha256,
                round_keys: key.round_keys(),
                iv_or_tweak: iv_key.schedule(),
            },
            Keys::CbcPlain64(key) => UnitKeys {
                mode: Mode::CbcPlain64,
                round_keys: key.round_keys(),
                iv_or_tweak: key.key().schedule(),
            },
        }
    }

    /// Decrypts sectors of `size` bytes that follow one another in place, the first of which has
    /// this unit number. Unit numbers count units of 512 bytes and wrap at 2^64, as those of
    /// dm-crypt do. `size` is a multiple of 512, at most 4096. Two sectors of 512 bytes at a time
    /// take less than each by itself.
    pub fn decrypt_units(&self, first: u64, size: usize, units: &mut [u8])
        requires multiple { size % 512 ≡ 0 }
        requires shortest { 512 ≤ size }
        requires longest { size ≤ 4096 }
        requires whole { length units.old % size ≡ 0 }
        ensures { units.new ≡ units_decrypted self.now.0 self.now.1 first size units.old }
    {
        self.unit_keys().decrypt_units(first, size, units);
    }
}
