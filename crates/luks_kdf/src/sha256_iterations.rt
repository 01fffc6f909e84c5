//! The iterations of two chains of SHA-256 digests, on their words.

ghost use Rattle.std.specs.Prelude.{◌≡◌, ℕ, ◌<◌, ◌++◌, List, bit_xor};
ghost use Rattle.sha2.specs.Sha256.{compress, digest_bytes, padding};
ghost use Rattle.luks_kdf.specs.Chains.{iterations_xor, iterations, xor_words};
ghost use Rattle.luks_kdf.specs.LaneWords.{AllTwice, IsBlock, after_digest, lane, word};

use crate::sha256_block::compress;
use std::simd::prelude::*;

// The words of a digest after one block, and of its padding: a bit 1, zeros, and the length of the
// block and the digest in bits.
#[inline(always)]
fn digest_block(d: &[u64x2; 8]) -> [u64x2; 16]
    ensures twice { (j : ℕ) → j < 2 → AllTwice j d.now → AllTwice j result }
    ensures block { (j : ℕ) → j < 2
        → IsBlock j result (digest_bytes (lane j d.now) 8 ++ padding 96) }
{
    let none = u64x2::splat(0);
    [
        d[0],
        d[1],
        d[2],
        d[3],
        d[4],
        d[5],
        d[6],
        d[7],
        u64x2::splat(0x8000_0000_8000_0000),
        none,
        none,
        none,
        none,
        none,
        none,
        u64x2::splat(0x300_0000_0300),
    ]
}

// The hash value after one block and a digest.
fn after_digest(state: &[u64x2; 8], d: &[u64x2; 8]) -> [u64x2; 8]
    ensures { (j : ℕ) → j < 2 → AllTwice j state.now → AllTwice j d.now
        → AllTwice j result
        × (lane j result ≡ after_digest compress 8 (lane j state.now) (lane j d.now)) }
{
    compress::<1>(state, &digest_block(d))
}

#[inline(always)]
fn xor_words(x: &[u64x2; 8], y: &[u64x2; 8]) -> [u64x2; 8]
    ensures { (j : ℕ) → j < 2 → lane j result ≡ xor_words 8 (lane j x.now) (lane j y.now) }
{
    [
        xor(x[0], y[0]),
        xor(x[1], y[1]),
        xor(x[2], y[2]),
        xor(x[3], y[3]),
        xor(x[4], y[4]),
        xor(x[5], y[5]),
        xor(x[6], y[6]),
        xor(x[7], y[7]),
    ]
}

#[inline(always)]
#[tactic(auto, using(crate::proofs::LaneLemmas::words_xored))]
fn xor(a: u64x2, b: u64x2) -> u64x2
    ensures { (j : ℕ) → j < 2 → word j result ≡ bit_xor (word j a) (word j b) }
{
    a ^ b
}

/// `before` with the words of the next `count` digests XORed into it, in each lane. `last` is the
/// digest that precedes them.
#[tactic(auto, unfolding(crate::specs::Chains::iterations_xor, crate::specs::Chains::iterations))]
pub(crate) fn xor_iterations(
    inner: &[u64x2; 8],
    outer: &[u64x2; 8],
    last: &[u64x2; 8],
    count: u32,
    before: &[u64x2; 8],
) -> [u64x2; 8]
    ensures { (j : ℕ) → j < 2 → AllTwice j inner.now → AllTwice j outer.now → AllTwice j last.now
        → lane j result ≡ iterations_xor 8 (after_digest compress 8) (lane j inner.now)
        (lane j outer.now) (lane j last.now) (lane j before.now) count }
{
    let mut u = *last;
    let mut t = *before;
    'iterations: for _ in 0..count {
        let middle = after_digest(inner, &u);
        let next = after_digest(outer, &middle);
        let more = xor_words(&t, &next);
        u = next;
        t = more;
    }
    t
}
