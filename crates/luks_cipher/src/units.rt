//! Decryption of sectors that follow one another, by expanded keys.

ghost use Rattle.std.specs.Prelude.{◌≡◌, ◌%◌, ◌≤◌, ◌++◌, List, ℕ, length, take, drop};
ghost use Rattle.std.specs.Int.{w128, to_le_bytes};
ghost use Rattle.sha2.specs.Sha256.{sha256};
ghost use Rattle.luks_aes.specs.Aes.{encrypted};
ghost use Rattle.luks_aes.specs.KeySchedule.{IsScheduleOf};
ghost use Rattle.luks_cipher.specs.Expanded.{AreKeysOf};
ghost use Rattle.luks_cipher.specs.Sector.{sector_decrypted, units_decrypted};

use crate::mode::Mode;
use crate::{cbc, xts};
use luks_aes::{KeySchedule, RoundKeys};
use std::simd::prelude::*;

/// The keys of a cipher in this mode: the round keys for the data, and the key schedule for what
/// enters by a sector's unit number.
#[derive(Drop)]
pub(crate) struct UnitKeys<'a> {
    pub(crate) mode: Mode,
    pub(crate) round_keys: &'a RoundKeys,
    pub(crate) iv_or_tweak: &'a KeySchedule,
}

// The sector's unit number, little-endian, encrypted.
fn encrypted_number(schedule: &KeySchedule, number: u64) -> [u8; 16]
    ensures { (key : List ℕ) → IsScheduleOf key schedule.now
        → result ≡ encrypted key (to_le_bytes w128 number) }
{
    let mut block = u128::from(number).to_le_bytes();
    schedule.encrypt_block(&mut block);
    block
}

/// The IV of plain64: the sector's unit number, little-endian.
pub(crate) fn number_block(number: u64) -> [u8; 16]
    ensures { result ≡ to_le_bytes w128 number }
{
    u128::from(number).to_le_bytes()
}

impl<'a> UnitKeys<'a> {
    // Decrypts a data unit of XTS (IEEE 1619, 5.4.2).
    fn decrypt_xts(&self, number: u64, unit: &mut [u8])
        requires { length unit.old % 512 ≡ 0 }
        ensures { (key : List ℕ)
            → AreKeysOf key Mode.XtsPlain64 self.now.round_keys.now self.now.iv_or_tweak.now
            → unit.new ≡ sector_decrypted Mode.XtsPlain64 key number unit.old }
    {
        let tweak = u8x16::from_array(encrypted_number(self.iv_or_tweak, number));
        xts::decrypt_batches(self.round_keys, tweak, unit);
    }

    // Decrypts two data units of XTS of 512 bytes.
    fn decrypt_xts_pair(&self, first: u64, second: u64, pair: &mut [u8])
        requires { length pair.old ≡ 1024 }
        ensures { (key : List ℕ)
            → AreKeysOf key Mode.XtsPlain64 self.now.round_keys.now self.now.iv_or_tweak.now
            → pair.new
            ≡ sector_decrypted Mode.XtsPlain64 key first (take 512 pair.old)
            ++ sector_decrypted Mode.XtsPlain64 key second (drop 512 pair.old) }
    {
        let tweak = u8x16::from_array(encrypted_number(self.iv_or_tweak, first));
        let next = u8x16::from_array(encrypted_number(self.iv_or_tweak, second));
        xts::decrypt_both(self.round_keys, tweak, next, pair);
    }

    // Decrypts a sector of whole batches in place.
    fn decrypt_unit(&self, number: u64, unit: &mut [u8])
        requires { length unit.old % 512 ≡ 0 }
        ensures { (key : List ℕ)
            → AreKeysOf key self.now.mode self.now.round_keys.now self.now.iv_or_tweak.now
            → unit.new ≡ sector_decrypted self.now.mode key number unit.old }
    {
        match self.mode {
            Mode::XtsPlain64 => self.decrypt_xts(number, unit),
            Mode::XtsPlain => self.decrypt_xts(number % 0x1_0000_0000, unit),
            Mode::CbcEssivSha256 => {
                let iv = encrypted_number(self.iv_or_tweak, number);
                cbc::decrypt_batches(self.round_keys, iv, unit);
            }
            Mode::CbcPlain64 => {
                cbc::decrypt_batches(self.round_keys, number_block(number), unit);
            }
        }
    }

    // Decrypts two sectors of 512 bytes in place, each under its own unit number.
    fn decrypt_pair(&self, first: u64, second: u64, pair: &mut [u8])
        requires { length pair.old ≡ 1024 }
        ensures { (key : List ℕ)
            → AreKeysOf key self.now.mode self.now.round_keys.now self.now.iv_or_tweak.now
            → pair.new
            ≡ sector_decrypted self.now.mode key first (take 512 pair.old)
            ++ sector_decrypted self.now.mode key second (drop 512 pair.old) }
    {
        match self.mode {
            Mode::XtsPlain64 => self.decrypt_xts_pair(first, second, pair),
            Mode::XtsPlain => {
                self.decrypt_xts_pair(first % 0x1_0000_0000, second % 0x1_0000_0000, pair);
            }
            Mode::CbcEssivSha256 => {
                let iv = encrypted_number(self.iv_or_tweak, first);
                let next_iv = encrypted_number(self.iv_or_tweak, second);
                cbc::decrypt_both(self.round_keys, iv, next_iv, pair);
            }
            Mode::CbcPlain64 => {
                cbc::decrypt_both(
                    self.round_keys,
                    number_block(first),
                    number_block(second),
                    pair,
                );
            }
        }
    }

    // Decrypts sectors of 512 bytes as `decrypt_units` below does, two at a time.
    fn decrypt_in_pairs(&self, first: u64, units: &mut [u8])
        requires { length units.old % 512 ≡ 0 }
        ensures { (key : List ℕ)
            → AreKeysOf key self.now.mode self.now.round_keys.now self.now.iv_or_tweak.now
            → units.new ≡ units_decrypted self.now.mode key first 512 units.old }
    {
        let len = units.len();
        let pairs = len / 1024;
        'pairs: for i in 0..pairs {
            let number = first.wrapping_add(2 * i as u64);
            let pair = &mut units[1024 * i..1024 * i + 1024];
            self.decrypt_pair(number, number.wrapping_add(1), pair);
        }
        if len % 1024 == 0 {
            return;
        }
        let number = first.wrapping_add(2 * pairs as u64);
        self.decrypt_unit(number, &mut units[1024 * pairs..1024 * pairs + 512]);
    }

    /// Decrypts sectors of `size` bytes that follow one another in place, the first of which has
    /// this unit number, by the cipher whose keys these are, if they are.
    pub(crate) fn decrypt_units(&self, first: u64, size: usize, units: &mut [u8])
        requires multiple { size % 512 ≡ 0 }
        requires shortest { 512 ≤ size }
        requires longest { size ≤ 4096 }
        requires whole { length units.old % size ≡ 0 }
        ensures { (key : List ℕ)
            → AreKeysOf key self.now.mode self.now.round_keys.now self.now.iv_or_tweak.now
            → units.new ≡ units_decrypted self.now.mode key first size units.old }
    {
        if size == 512 {
            self.decrypt_in_pairs(first, units);
            return;
        }
        let step = (size / 512) as u64;
        let count = units.len() / size;
        'units: for i in 0..count {
            let number = first.wrapping_add((i as u64).wrapping_mul(step));
            self.decrypt_unit(number, &mut units[i * size..i * size + size]);
        }
    }
}
