//! A key schedule of plain numbers, which another program can keep.

ghost use Rattle.std.specs.Prelude.{◌≡◌, ◌+◌, ◌*◌, ◌≤◌, List, ℕ, length, take, true};
ghost use Rattle.luks_aes.specs.Aes.{encrypted, is_aes_key_length, rounds_of};
ghost use Rattle.luks_aes.specs.KeySchedule.{IsScheduleOf};

use crate::cipher::cipher;
use crate::key_expansion::{MAX_SCHEDULE_LEN, key_expansion};

/// The number of rounds with the longest key.
const MAX_ROUNDS: usize = 14;

/// A key schedule (FIPS 197, 5.2), as plain numbers. Its fields may have any values: only those
/// that [`KeySchedule::expanded`] gives are the schedule of a key.
#[repr(C)]
#[derive(Clone, Copy, Drop)]
pub struct KeySchedule {
    /// The number of rounds.
    pub rounds: u64,
    /// The words. Those after the last round key are not used.
    pub bytes: [u8; 240],
}

impl KeySchedule {
    /// The schedule of a key of 16, 24 or 32 bytes.
    pub fn expanded(key: &[u8]) -> KeySchedule
        requires { is_aes_key_length (length key.now) ≡ true }
        ensures { IsScheduleOf key.now result }
    {
        KeySchedule {
            rounds: key.len() as u64 / 4 + 6,
            bytes: key_expansion(key),
        }
    }

    // The number of rounds, or that of the longest key if it is none.
    fn rounds(&self) -> usize
        ensures least { 1 ≤ result }
        ensures most { result ≤ MAX_ROUNDS }
        ensures value { (key : List ℕ) → IsScheduleOf key self.now → result ≡ rounds_of key }
    {
        match self.rounds {
            10 => 10,
            12 => 12,
            _ => MAX_ROUNDS,
        }
    }

    /// The round keys for so many rounds, one after the other.
    pub(crate) fn round_keys(&self, rounds: usize) -> &[u8]
        requires { rounds ≤ MAX_ROUNDS }
        ensures value { result.now ≡ take (16 * (rounds + 1)) self.now.bytes }
        ensures len { length result.now ≡ 16 * (rounds + 1) }
    {
        &self.bytes[..16 * (rounds + 1)]
    }

    /// Encrypts the block (5.1) under the key of this schedule, if it is one.
    pub fn encrypt_block(&self, block: &mut [u8; 16])
        ensures { (key : List ℕ) → IsScheduleOf key self.now
            → block.new ≡ encrypted key block.old }
    {
        let rounds = self.rounds();
        *block = cipher(*block, rounds, self.round_keys(rounds));
    }
}
