//! An AES key with bitsliced round keys, for batches of 32 or 64 blocks.

ghost use Rattle.std.specs.Prelude.{◌≡◌, ◌*◌, ◌<◌, ◌≤◌, ◌%◌, List, ℕ, length, Some, None, true};
ghost use Rattle.std.specs.Prelude.{if◌then◌else◌};
ghost use Rattle.luks_aes.specs.Aes.{decrypted, is_aes_key_length, rounds_of};
ghost use Rattle.luks_aes.specs.Bytes.{IsBytes};
ghost use Rattle.luks_aes.specs.Blocks.{block_in, xored_blocks, masked_block};
ghost use Rattle.luks_aes.specs.Blocks.{RepresentStates};
ghost use Rattle.luks_aes.specs.RoundKeys.{IsBatchKey};

use crate::AesKey;
use crate::batch::round_keys::{
    CONSTANT, MAX_INNER_KEYS, RoundKeys, fill, inner_key, plain_round_key,
};
use crate::batch::state::BitslicedState;
use std::marker::Model;

/// A key of AES-128, AES-192 or AES-256 (FIPS 197), with its bitsliced round keys. Contracts see it
/// as its bytes.
#[derive(Drop)]
pub struct BatchKey {
    key: AesKey,
    round_keys: RoundKeys,
}

impl Model for BatchKey {
    ghost Value = { List ℕ };

    ghost view = { λ k. k.key };

    ghost invariant = { λ k. IsBatchKey k.key k.round_keys };
}

// The inverse cipher on each state.
#[inline(always)]
fn decrypt_states<const WORDS: usize>(
    state: &mut BitslicedState<WORDS>,
    rounds: usize,
    keys: &RoundKeys,
)
    requires whole { WORDS % 4 ≡ 0 }
    requires most { WORDS ≤ 16 }
    requires some_rounds { 1 ≤ rounds }
    requires few_rounds { rounds ≤ 14 }
    ensures { (key : List ℕ) (s : ℕ → List ℕ)
        → IsBatchKey key keys.now
        → rounds ≡ rounds_of key → IsBytes key → ((m : ℕ) → IsBytes (s m))
        → RepresentStates s 0 state.old → RepresentStates (λ m. decrypted key (s m)) 0 state.new }
{
    state.start_rounds(&keys.first);
    for round in (1..rounds).rev() {
        state.inv_round(inner_key(&keys.between, round - 1));
    }
    state.end_rounds(&keys.last);
}

impl RoundKeys {
    /// The round keys of the key. (It is inlined, so that the stack has one copy of them less at
    /// once.)
    #[inline(always)]
    pub fn expanded(key: &AesKey) -> RoundKeys
        ensures { IsBatchKey key.now result }
    {
        let rounds = key.rounds();
        let first = plain_round_key(key, rounds, CONSTANT);
        let last = plain_round_key(key, 0, 0);
        let mut between = [last; MAX_INNER_KEYS];
        fill(key, &mut between);
        RoundKeys {
            rounds: rounds as u64,
            first,
            between,
            last,
        }
    }

    // The number of rounds, or that with the longest key if it is none.
    fn rounds(&self) -> usize
        ensures least { 1 ≤ result }
        ensures most { result ≤ 14 }
        ensures value { (key : List ℕ) → IsBatchKey key self.now → result ≡ rounds_of key }
    {
        if 1 <= self.rounds && self.rounds <= 14 {
            self.rounds as usize
        } else {
            14
        }
    }

    // Decrypts each block of a batch in place, XORed with that of the mask `before`, and XORs that
    // of the mask `after` into the result.
    #[inline(always)]
    fn decrypt<const WORDS: usize>(&self, batch: &mut [u8], before: &[u8], after: &[u8])
        requires whole { WORDS % 4 ≡ 0 }
        requires most { WORDS ≤ 16 }
        requires batch { length batch.old ≡ 64 * WORDS }
        requires before { length before.now ≡ 64 * WORDS }
        requires after { length after.now ≡ 64 * WORDS }
        ensures { (key : List ℕ) (m : ℕ) → IsBatchKey key self.now → m < 4 * WORDS
            → block_in batch.new m
            ≡ xored_blocks (decrypted key (masked_block batch.old before.now m))
            (block_in after.now m) }
    {
        let rounds = self.rounds();
        let mut state = BitslicedState::<WORDS>::zero();
        state.pack(batch, before);
        decrypt_states(&mut state, rounds, self);
        state.unpack(after, batch);
    }

    /// Decrypts each block of a batch of 32 or 64 in place (FIPS 197, 5.3) under the key whose
    /// round keys these are, if they are. The block is XORed with that of the mask `before` first,
    /// and the result with that of the mask `after`.
    pub fn decrypt_batch(&self, batch: &mut [u8], before: &[u8], after: &[u8])
        requires whole { length batch.old % 512 ≡ 0 }
        requires least { 512 ≤ length batch.old }
        requires most { length batch.old ≤ 1024 }
        requires before { length before.now ≡ length batch.old }
        requires after { length after.now ≡ length batch.old }
        ensures { (key : List ℕ) (m : ℕ) → IsBatchKey key self.now → 16 * m < length batch.old
            → block_in batch.new m
            ≡ xored_blocks (decrypted key (masked_block batch.old before.now m))
            (block_in after.now m) }
    {
        if batch.len() == 512 {
            self.decrypt::<8>(batch, before, after);
        } else {
            self.decrypt::<16>(batch, before, after);
        }
    }
}

impl BatchKey {
    /// The key of 16, 24 or 32 bytes; `None` for any other length.
    pub fn new(key: &[u8]) -> Option<BatchKey>
        ensures { result ≡ (if is_aes_key_length (length key.now) then Some key.now else None) }
    {
        if AesKey::has_length(key.len()) {
            Some(BatchKey::expanded(key))
        } else {
            None
        }
    }

    /// The key with these 16, 24 or 32 bytes. (It is inlined, so that the stack has one copy of the
    /// round keys less at once.)
    #[inline(always)]
    pub fn expanded(key: &[u8]) -> BatchKey
        requires { is_aes_key_length (length key.now) ≡ true }
        ensures { result ≡ key.now }
    {
        let key = AesKey::expanded(key);
        let round_keys = RoundKeys::expanded(&key);
        BatchKey { key, round_keys }
    }

    /// The round keys.
    pub fn round_keys(&self) -> &RoundKeys
        ensures { IsBatchKey self.now result.now }
    {
        &self.round_keys
    }

    /// The key for single blocks.
    pub fn key(&self) -> &AesKey
        ensures { result.now ≡ self.now }
    {
        &self.key
    }

    /// Decrypts each block of a batch of 32 or 64 in place (FIPS 197, 5.3). The block is XORed with
    /// that of the mask `before` first, and the result with that of the mask `after`.
    pub fn decrypt_batch(&self, batch: &mut [u8], before: &[u8], after: &[u8])
        requires whole { length batch.old % 512 ≡ 0 }
        requires least { 512 ≤ length batch.old }
        requires most { length batch.old ≤ 1024 }
        requires before { length before.now ≡ length batch.old }
        requires after { length after.now ≡ length batch.old }
        ensures { (m : ℕ) → 16 * m < length batch.old
            → block_in batch.new m
            ≡ xored_blocks (decrypted self.now (masked_block batch.old before.now m))
            (block_in after.now m) }
    {
        self.round_keys.decrypt_batch(batch, before, after);
    }
}
