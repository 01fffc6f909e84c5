//! BLAKE2b of a message that comes in pieces (RFC 7693, section 3.3).

ghost use Rattle.std.specs.Prelude.{◌≡◌, ℕ, ◌+◌, ◌^◌, ◌<◌, ◌≤◌, List, [], ◌∷◌, ◌++◌, length, take};
ghost use Rattle.std.specs.Prelude.{◌%◌, false, true};
ghost use Rattle.luks_argon2.specs.Blake2b.{blake2b, compress, padded_block};
ghost use Rattle.luks_argon2.specs.Hashing.{HasherModel, hasher_after};
ghost use Rattle.luks_argon2.specs.Words.{le32, le64_words_at};

use crate::blake2b_compression::{compress, initial_hash};
use crate::words::{load_words, store_words};
use std::marker::Model;

const BLOCK_LEN: usize = 128;

/// A hasher that absorbs a message piece by piece and keeps no more of it than one block.
#[derive(Drop)]
pub struct Hasher {
    hash: [u64; 8],
    // How many bytes are in blocks that `hash` has.
    count: u64,
    block: [u8; BLOCK_LEN],
    // How many bytes of `block` are of the message. A whole block is kept until another byte comes,
    // since the last one is compressed in another way.
    used: usize,
}

impl Model for Hasher {
    ghost Value = { HasherModel };

    ghost view = { λ b. record { hash = b.hash; count = b.count; rest = take b.used b.block } };

    ghost invariant = { λ b. b.used ≤ 128 };
}

impl Hasher {
    /// A hasher for digests of `len` bytes, 64 at most, that has absorbed nothing.
    #[tactic(auto, unfolding(crate::specs::Blake2b::hash_after))]
    pub fn new(len: usize) -> Hasher
        requires { len ≤ 64 }
        ensures { result ≡ hasher_after len [] }
    {
        Hasher {
            hash: initial_hash(len),
            count: 0,
            block: [0; BLOCK_LEN],
            used: 0,
        }
    }

    /// Absorbs the next bytes of the message.
    pub fn update(&mut self, bytes: &[u8])
        ensures { (n : ℕ) → (m : List ℕ) → self.old ≡ hasher_after n m
            → length m + length bytes.now < 2 ^ 64 → self.new ≡ hasher_after n (m ++ bytes.now) }
    {
        'bytes: for i in 0..bytes.len() {
            self.push(bytes[i]);
        }
    }

    /// Absorbs a number as LE32: in four bytes, the least significant one first.
    pub fn update_le32(&mut self, number: u32)
        ensures { (n : ℕ) → (m : List ℕ) → self.old ≡ hasher_after n m → length m + 4 < 2 ^ 64
            → self.new ≡ hasher_after n (m ++ le32 number) }
    {
        self.update(&number.to_le_bytes());
    }

    fn push(&mut self, byte: u8)
        ensures { (n : ℕ) → (m : List ℕ) → self.old ≡ hasher_after n m → length m + 1 < 2 ^ 64
            → self.new ≡ hasher_after n (m ++ byte ∷ []) }
    {
        if self.used == BLOCK_LEN {
            self.compress_block(byte);
        } else {
            self.append(byte);
        }
    }

    // Compresses the block, which is whole, and begins the next one with this byte.
    fn compress_block(&mut self, byte: u8)
        requires { length self.old.rest ≡ 128 }
        ensures { self.new ≡ record {
          hash = compress self.old.hash (le64_words_at self.old.rest 0)
              ((self.old.count + 128) % 2 ^ 64) false;
          count = (self.old.count + 128) % 2 ^ 64;
          rest = byte ∷ [];
        } }
    {
        let words = load_words(&self.block, 0);
        self.count = self.count.wrapping_add(128);
        self.hash = compress(&self.hash, &words, self.count, false);
        self.block[0] = byte;
        self.used = 1;
    }

    fn append(&mut self, byte: u8)
        requires { length self.old.rest < 128 }
        ensures { self.new ≡ record {
          hash = self.old.hash;
          count = self.old.count;
          rest = self.old.rest ++ byte ∷ [];
        } }
    {
        self.block[self.used] = byte;
        self.used += 1;
    }

    /// Fills `out`, 1 to 64 bytes, with the digest of all that was absorbed. `out` has the length
    /// that was given to `new`; with another one the result is no digest.
    pub fn finish(self, out: &mut [u8])
        requires some { 1 ≤ length out.old }
        requires capacity { length out.old ≤ 64 }
        ensures { (m : List ℕ) → self ≡ hasher_after (length out.old) m → length m < 2 ^ 64
            → out.new ≡ blake2b (length out.old) m }
    {
        let hash = self.last_hash();
        let mut bytes = [0; 64];
        store_words(&hash, &mut bytes);
        out.copy_from_slice(&bytes[..out.len()]);
    }

    // The state after the last block, which is padded with zeros.
    fn last_hash(self) -> [u64; 8]
        ensures { result ≡ compress self.hash (le64_words_at (padded_block self.rest) 0)
            ((self.count + length self.rest) % 2 ^ 64) true }
    {
        let used = self.used;
        let words = load_words(&padded_block(&self.block[..used]), 0);
        let count = self.count.wrapping_add(used as u64);
        compress(&self.hash, &words, count, true)
    }
}

fn padded_block(bytes: &[u8]) -> [u8; BLOCK_LEN]
    requires { length bytes.now ≤ 128 }
    ensures { result ≡ padded_block bytes.now }
{
    let mut block = [0; BLOCK_LEN];
    block[..bytes.len()].copy_from_slice(bytes);
    block
}

/// Fills `out`, 1 to 64 bytes, with the digest of the message.
pub fn blake2b(message: &[u8], out: &mut [u8])
    requires some { 1 ≤ length out.old }
    requires capacity { length out.old ≤ 64 }
    ensures { out.new ≡ blake2b (length out.old) message.now }
{
    let mut hasher = Hasher::new(out.len());
    hasher.update(message);
    hasher.finish(out);
}

/// The digest of 64 bytes of the message.
pub fn blake2b_512(message: &[u8]) -> [u8; 64]
    ensures value { result ≡ blake2b 64 message.now }
    ensures len { length result ≡ 64 }
{
    let mut out = [0; 64];
    blake2b(message, &mut out);
    out
}
