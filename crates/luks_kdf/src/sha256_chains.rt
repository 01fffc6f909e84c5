//! Two chains of SHA-256 digests side by side, on bytes.

ghost use Rattle.std.specs.Prelude.{◌≡◌, ℕ, ◌+◌, ◌*◌, ◌%◌, ◌^◌, ◌<◌, ◌≤◌, List, length};
ghost use Rattle.sha2.specs.Sha256.{compress, digest_bytes, initial_hash_256, sha256, word_at};
ghost use Rattle.luks_kdf.specs.Chains.{chain_xor, digest_at};
ghost use Rattle.luks_kdf.specs.LaneWords.{AllTwice, IsBlock, IsTwice, lane, word};

use crate::sha256_block::compress;
use crate::sha256_iterations::xor_iterations;
use crate::words::load_be;
use std::simd::prelude::*;

/// XORs the next `count` digests of each of two chains into its bytes in `xors`, where the chains
/// follow one another. `last` has the last digest of each chain, in the same order; `inner` and
/// `outer` are the key's two blocks.
pub fn xor_chains(inner: &[u8], outer: &[u8], count: u32, last: &[u8], xors: &mut [u8])
    requires inner { length inner.now ≡ 64 }
    requires outer { length outer.now ≡ 64 }
    requires last { length last.now ≡ 64 }
    requires xors { length xors.old ≡ 64 }
    ensures { (j : ℕ) → j < 2 → digest_at 32 j xors.new
        ≡ chain_xor sha256 inner.now outer.now (digest_at 32 j last.now)
        (digest_at 32 j xors.old) count }
{
    let inside = after_block(inner);
    let outside = after_block(outer);
    let digests = load_digests(last);
    let before = load_digests(xors);
    let after = xor_iterations(&inside, &outside, &digests, count, &before);
    let (first, second) = xors.split_at_mut(32);
    store(&after, 0, first);
    store(&after, 1, second);
}

// A word, stored twice.
fn doubled(x: u32) -> u64
    ensures { result ≡ x * 2 ^ 32 + x }
{
    x as u64 * 0x1_0000_0001
}

// The same word of two digests, at byte `i` of each.
fn load_pair(digests: &[u8], i: usize) -> u64x2
    requires { i + 36 ≤ length digests.now }
    ensures twice { (j : ℕ) → j < 2 → IsTwice j result }
    ensures word { (j : ℕ) → j < 2 → word j result ≡ word_at digests.now (32 * j + i) }
{
    u64x2::from_array([
        doubled(load_be(digests, i)),
        doubled(load_be(digests, 32 + i)),
    ])
}

// The words of two digests.
fn load_digests(digests: &[u8]) -> [u64x2; 8]
    requires { length digests.now ≡ 64 }
    ensures twice { (j : ℕ) → j < 2 → AllTwice j result }
    ensures words { (j : ℕ) → j < 2 → digest_bytes (lane j result) 8 ≡ digest_at 32 j digests.now }
{
    [
        load_pair(digests, 0),
        load_pair(digests, 4),
        load_pair(digests, 8),
        load_pair(digests, 12),
        load_pair(digests, 16),
        load_pair(digests, 20),
        load_pair(digests, 24),
        load_pair(digests, 28),
    ]
}

// The word at byte `i` of a block, in both lanes.
fn load_both(block: &[u8], i: usize) -> u64x2
    requires { i + 4 ≤ length block.now }
    ensures twice { (j : ℕ) → j < 2 → IsTwice j result }
    ensures word { (j : ℕ) → j < 2 → word j result ≡ word_at block.now i }
{
    u64x2::splat(doubled(load_be(block, i)))
}

// The words of a block, in both lanes.
fn load_block(block: &[u8]) -> [u64x2; 16]
    requires { length block.now ≡ 64 }
    ensures twice { (j : ℕ) → j < 2 → AllTwice j result }
    ensures block { (j : ℕ) → j < 2 → IsBlock j result block.now }
{
    [
        load_both(block, 0),
        load_both(block, 4),
        load_both(block, 8),
        load_both(block, 12),
        load_both(block, 16),
        load_both(block, 20),
        load_both(block, 24),
        load_both(block, 28),
        load_both(block, 32),
        load_both(block, 36),
        load_both(block, 40),
        load_both(block, 44),
        load_both(block, 48),
        load_both(block, 52),
        load_both(block, 56),
        load_both(block, 60),
    ]
}

// The initial hash value (FIPS 180-4, section 5.3.3), in both lanes.
fn first_state() -> [u64x2; 8]
    ensures twice { (j : ℕ) → j < 2 → AllTwice j result }
    ensures value { (j : ℕ) → j < 2 → lane j result ≡ initial_hash_256 }
{
    [
        u64x2::splat(0x6A09_E667_6A09_E667),
        u64x2::splat(0xBB67_AE85_BB67_AE85),
        u64x2::splat(0x3C6E_F372_3C6E_F372),
        u64x2::splat(0xA54F_F53A_A54F_F53A),
        u64x2::splat(0x510E_527F_510E_527F),
        u64x2::splat(0x9B05_688C_9B05_688C),
        u64x2::splat(0x1F83_D9AB_1F83_D9AB),
        u64x2::splat(0x5BE0_CD19_5BE0_CD19),
    ]
}

// The hash value after one block, in both lanes.
fn after_block(block: &[u8]) -> [u64x2; 8]
    requires { length block.now ≡ 64 }
    ensures twice { (j : ℕ) → j < 2 → AllTwice j result }
    ensures value { (j : ℕ) → j < 2 → lane j result ≡ compress initial_hash_256 block.now }
{
    compress::<0>(&first_state(), &load_block(block))
}

// The word in lane `j`.
fn lane_word(x: u64x2, j: usize) -> u32
    requires { j < 2 }
    ensures { result ≡ word j x }
{
    (x[j] & 0xFFFF_FFFF) as u32
}

// Writes the digest whose words are in lane `j`.
#[tactic(auto, unfolding(sha2::specs::Sha256::digest_bytes))]
fn store(x: &[u64x2; 8], j: usize, out: &mut [u8])
    requires lane { j < 2 }
    requires capacity { length out.old ≡ 32 }
    ensures { out.new ≡ digest_bytes (lane j x.now) 8 }
{
    'words: for i in 0..8 {
        let word = lane_word(x[i], j);
        out[4 * i..4 * i + 4].copy_from_slice(&word.to_be_bytes());
    }
}
