//! Chains of SHA-1 digests side by side, on bytes, a chain in each of `N` lanes.

ghost use Rattle.std.specs.Prelude.{◌≡◌, ℕ, ◌+◌, ◌*◌, ◌<◌, ◌≤◌, List, length};
ghost use Rattle.sha1.specs.Sha1.{compress, initial_hash, sha1};
ghost use Rattle.sha2.specs.Sha256.{digest_bytes, word_at};
ghost use Rattle.luks_kdf.specs.Chains.{chain_xor, digest_at};
ghost use Rattle.luks_kdf.specs.LaneWords.{IsBlock, lane, word};

use crate::sha1_block::compress;
use crate::sha1_iterations::xor_iterations;
use crate::words::{five, load_be, sixteen};
use std::simd::prelude::*;

/// XORs the next `count` digests of each of `N` chains into its bytes in `xors`, where the chains
/// follow one another. `last` has the last digest of each chain, in the same order; `inner` and
/// `outer` are the key's two blocks. `N` is a number of lanes: one chain and four are fast.
pub fn xor_chains<const N: usize>(
    inner: &[u8],
    outer: &[u8],
    count: u32,
    last: &[u8],
    xors: &mut [u8],
)
    requires lanes { N ≤ 64 }
    requires inner { length inner.now ≡ 64 }
    requires outer { length outer.now ≡ 64 }
    requires last { length last.now ≡ 20 * N }
    requires xors { length xors.old ≡ 20 * N }
    ensures { (j : ℕ) → j < N → digest_at 20 j xors.new
        ≡ chain_xor sha1 inner.now outer.now (digest_at 20 j last.now)
        (digest_at 20 j xors.old) count }
{
    let inside = after_block(inner);
    let outside = after_block(outer);
    let digests = load_digests(last);
    let before = load_digests(xors);
    let after = xor_iterations::<N>(&inside, &outside, &digests, count, &before);
    store(&after, xors);
}

// The same word of all digests, at byte `i` of each.
fn load_each<const N: usize>(digests: &[u8], i: usize) -> Simd<u32, N>
    requires long { length digests.now ≡ 20 * N }
    requires inside { i + 4 ≤ 20 }
    ensures { (j : ℕ) → j < N → word j result ≡ word_at digests.now (20 * j + i) }
{
    let mut words = [0; N];
    'lanes: for j in 0..N {
        words[j] = load_be(digests, 20 * j + i);
    }
    Simd::from_array(words)
}

// The words of all digests.
fn load_digests<const N: usize>(digests: &[u8]) -> [Simd<u32, N>; 5]
    requires { length digests.now ≡ 20 * N }
    ensures { (j : ℕ) → j < N → digest_bytes (lane j result) 5 ≡ digest_at 20 j digests.now }
{
    five(
        load_each(digests, 0),
        load_each(digests, 4),
        load_each(digests, 8),
        load_each(digests, 12),
        load_each(digests, 16),
    )
}

// The word at byte `i` of a block, in each lane.
fn load_all<const N: usize>(block: &[u8], i: usize) -> Simd<u32, N>
    requires { i + 4 ≤ length block.now }
    ensures { (j : ℕ) → j < N → word j result ≡ word_at block.now i }
{
    Simd::splat(load_be(block, i))
}

// The words of a block, in each lane.
fn load_block<const N: usize>(block: &[u8]) -> [Simd<u32, N>; 16]
    requires { length block.now ≡ 64 }
    ensures { (j : ℕ) → j < N → IsBlock j result block.now }
{
    sixteen(
        load_all(block, 0),
        load_all(block, 4),
        load_all(block, 8),
        load_all(block, 12),
        load_all(block, 16),
        load_all(block, 20),
        load_all(block, 24),
        load_all(block, 28),
        load_all(block, 32),
        load_all(block, 36),
        load_all(block, 40),
        load_all(block, 44),
        load_all(block, 48),
        load_all(block, 52),
        load_all(block, 56),
        load_all(block, 60),
    )
}

// The initial hash value (FIPS 180-4, section 5.3.1), in each lane.
fn first_state<const N: usize>() -> [Simd<u32, N>; 5]
    ensures { (j : ℕ) → j < N → lane j result ≡ initial_hash }
{
    five(
        Simd::splat(0x6745_2301),
        Simd::splat(0xEFCD_AB89),
        Simd::splat(0x98BA_DCFE),
        Simd::splat(0x1032_5476),
        Simd::splat(0xC3D2_E1F0),
    )
}

// The hash value after one block, in each lane.
fn after_block<const N: usize>(block: &[u8]) -> [Simd<u32, N>; 5]
    requires lanes { N ≤ 64 }
    requires block { length block.now ≡ 64 }
    ensures { (j : ℕ) → j < N → lane j result ≡ compress initial_hash block.now }
{
    compress(&first_state(), &load_block(block))
}

// The word in lane `j`.
fn lane_word<const N: usize>(x: Simd<u32, N>, j: usize) -> u32
    requires { j < N }
    ensures { result ≡ word j x.entry }
{
    x[j]
}

// Writes the digest whose words are in lane `j`.
#[tactic(auto, unfolding(sha2::specs::Sha256::digest_bytes))]
fn store_lane<const N: usize>(x: &[Simd<u32, N>; 5], j: usize, out: &mut [u8])
    requires lane { j < N }
    requires capacity { length out.old ≡ 20 }
    ensures { out.new ≡ digest_bytes (lane j x.now) 5 }
{
    'words: for i in 0..5 {
        let word = lane_word(x[i], j);
        out[4 * i..4 * i + 4].copy_from_slice(&word.to_be_bytes());
    }
}

// Writes the digests of all lanes.
fn store<const N: usize>(x: &[Simd<u32, N>; 5], out: &mut [u8])
    requires { length out.old ≡ 20 * N }
    ensures { (j : ℕ) → j < N → digest_at 20 j out.new ≡ digest_bytes (lane j x.now) 5 }
{
    'lanes: for j in 0..N {
        store_lane(x, j, &mut out[20 * j..20 * j + 20]);
    }
}
