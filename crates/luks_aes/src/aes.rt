//! A key of AES and its schedule.

ghost use Rattle.std.specs.Prelude.{◌≡◌, ◌+◌, ◌*◌, ◌<◌, ◌≤◌, List, ℕ, length, Some, None};
ghost use Rattle.std.specs.Prelude.{if◌then◌else◌, true};
ghost use Rattle.luks_aes.specs.Aes.{encrypted, decrypted, is_aes_key_length, rounds_of};
ghost use Rattle.luks_aes.specs.Aes.{key_expansion, cell};
ghost use Rattle.luks_aes.specs.Bytes.{IsBytes};
ghost use Rattle.luks_aes.specs.Columns.{key_byte, inv_mixed_key_byte};
ghost use Rattle.luks_aes.specs.KeySchedule.{IsScheduleOf, IsAesKey, scheduled_key};

use crate::cipher::inv_cipher;
use crate::inv_mixed::inv_mixed_words;
use crate::key_expansion::MAX_SCHEDULE_LEN;
use crate::key_schedule::KeySchedule;
use std::marker::Model;

/// A key of AES-128, AES-192 or AES-256 (FIPS 197). Contracts see it as its bytes.
#[derive(Drop)]
pub struct AesKey {
    // The key schedule, which starts with the key.
    schedule: KeySchedule,
    // Its words after InvMixColumns, for the inverse cipher.
    inv_mixed: [u8; MAX_SCHEDULE_LEN],
}

impl Model for AesKey {
    ghost Value = { List ℕ };

    ghost view = { λ k. scheduled_key k.schedule };

    ghost invariant = { λ k. IsAesKey k.schedule k.inv_mixed };
}

impl AesKey {
    /// The key with these 16, 24 or 32 bytes; `None` for any other number of bytes.
    pub fn new(key: &[u8]) -> Option<AesKey>
        ensures { result ≡ (if is_aes_key_length (length key.now) then Some key.now else None) }
    {
        if AesKey::has_length(key.len()) {
            Some(AesKey::expanded(key))
        } else {
            None
        }
    }

    /// Whether a key can have this number of bytes: 16, 24 or 32.
    pub fn has_length(len: usize) -> bool
        ensures { result ≡ is_aes_key_length len }
    {
        len == 16 || len == 24 || len == 32
    }

    /// The key with these 16, 24 or 32 bytes.
    pub fn expanded(key: &[u8]) -> AesKey
        requires { is_aes_key_length (length key.now) ≡ true }
        ensures { result ≡ key.now }
    {
        let schedule = KeySchedule::expanded(key);
        let inv_mixed = inv_mixed_words(&schedule.bytes);
        AesKey {
            schedule,
            inv_mixed,
        }
    }

    /// Encrypts the block (FIPS 197, 5.1).
    pub fn encrypt_block(&self, block: &mut [u8; 16])
        ensures value { block.new ≡ encrypted self.now block.old }
        ensures undone { decrypted self.now block.new ≡ block.old }
    {
        self.schedule.encrypt_block(block);
    }

    /// Decrypts the block (FIPS 197, 5.3).
    pub fn decrypt_block(&self, block: &mut [u8; 16])
        ensures value { block.new ≡ decrypted self.now block.old }
        ensures undone { encrypted self.now block.new ≡ block.old }
    {
        let rounds = self.rounds();
        let round_keys = self.schedule.round_keys(rounds);
        let inv_mixed = &self.inv_mixed[..16 * (rounds + 1)];
        *block = inv_cipher(*block, rounds, round_keys, inv_mixed);
    }

    /// The key schedule (5.2).
    pub fn schedule(&self) -> &KeySchedule
        ensures { IsScheduleOf self.now result.now }
    {
        &self.schedule
    }

    /// The number of rounds (5).
    pub fn rounds(&self) -> usize
        ensures value { result ≡ rounds_of self.now }
        ensures least { 10 ≤ result }
        ensures most { result ≤ 14 }
        ensures key_bytes { IsBytes self.now }
    {
        self.schedule.rounds as usize
    }

    /// Round key `n` of the schedule (5.2).
    pub fn round_key(&self, n: usize) -> [u8; 16]
        requires { n ≤ rounds_of self.now }
        ensures { (r c : ℕ) → r < 4 → c < 4
            → cell result r c ≡ key_byte (key_expansion self.now) n r c }
    {
        round_key(&self.schedule.bytes, n)
    }

    /// Round key `n` after InvMixColumns (5.3.5).
    pub fn inv_mixed_round_key(&self, n: usize) -> [u8; 16]
        requires { n ≤ rounds_of self.now }
        ensures { (r c : ℕ) → r < 4 → c < 4
            → cell result r c ≡ inv_mixed_key_byte (key_expansion self.now) n r c }
    {
        round_key(&self.inv_mixed, n)
    }
}

// The 16 bytes of round key `n` of a schedule.
fn round_key(schedule: &[u8; MAX_SCHEDULE_LEN], n: usize) -> [u8; 16]
    requires { n < 15 }
    ensures { (r c : ℕ) → r < 4 → c < 4 → cell result r c ≡ key_byte schedule.now n r c }
{
    let mut key = [0; 16];
    key.copy_from_slice(&schedule[16 * n..16 * n + 16]);
    key
}
