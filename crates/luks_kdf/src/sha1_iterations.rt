//! The iterations of chains of SHA-1 digests, on their words, with a chain in each of `N` lanes.

ghost use Rattle.std.specs.Prelude.{◌≡◌, ℕ, ◌<◌, ◌≤◌, ◌++◌};
ghost use Rattle.sha1.specs.Sha1.{compress};
ghost use Rattle.sha2.specs.Sha256.{digest_bytes, padding};
ghost use Rattle.luks_kdf.specs.Chains.{iterations_xor, iterations, xor_words};
ghost use Rattle.luks_kdf.specs.LaneWords.{IsBlock, after_digest, lane};

use crate::sha1_block::{compress, xor};
use crate::words::{five, sixteen};
use std::simd::prelude::*;

// The words of a digest after one block, and of its padding: a bit 1, zeros, and the length of the
// block and the digest in bits.
#[inline(always)]
fn digest_block<const N: usize>(d: &[Simd<u32, N>; 5]) -> [Simd<u32, N>; 16]
    ensures { (j : ℕ) → j < N → IsBlock j result (digest_bytes (lane j d.now) 5 ++ padding 84) }
{
    let none = Simd::splat(0);
    sixteen(
        d[0],
        d[1],
        d[2],
        d[3],
        d[4],
        Simd::splat(0x8000_0000),
        none,
        none,
        none,
        none,
        none,
        none,
        none,
        none,
        none,
        Simd::splat(0x2A0),
    )
}

// The hash value after one block and a digest.
fn after_digest<const N: usize>(
    state: &[Simd<u32, N>; 5],
    d: &[Simd<u32, N>; 5],
) -> [Simd<u32, N>; 5]
    requires { N ≤ 64 }
    ensures { (j : ℕ) → j < N
        → lane j result ≡ after_digest compress 5 (lane j state.now) (lane j d.now) }
{
    compress(state, &digest_block(d))
}

#[inline(always)]
fn xor_words<const N: usize>(x: &[Simd<u32, N>; 5], y: &[Simd<u32, N>; 5]) -> [Simd<u32, N>; 5]
    ensures { (j : ℕ) → j < N → lane j result ≡ xor_words 5 (lane j x.now) (lane j y.now) }
{
    five(
        xor(x[0], y[0]),
        xor(x[1], y[1]),
        xor(x[2], y[2]),
        xor(x[3], y[3]),
        xor(x[4], y[4]),
    )
}

/// `before` with the words of the next `count` digests XORed into it, in each lane. `last` is the
/// digest that precedes them.
#[tactic(auto, unfolding(crate::specs::Chains::iterations_xor, crate::specs::Chains::iterations))]
pub(crate) fn xor_iterations<const N: usize>(
    inner: &[Simd<u32, N>; 5],
    outer: &[Simd<u32, N>; 5],
    last: &[Simd<u32, N>; 5],
    count: u32,
    before: &[Simd<u32, N>; 5],
) -> [Simd<u32, N>; 5]
    requires { N ≤ 64 }
    ensures { (j : ℕ) → j < N → lane j result
        ≡ iterations_xor 5 (after_digest compress 5) (lane j inner.now) (lane j outer.now)
        (lane j last.now) (lane j before.now) count }
{
    let mut u = *last;
    let mut t = *before;
    'iterations: for _ in 0..count {
        let middle = after_digest(inner, &u);
        let next = after_digest(outer, &middle);
        let more = xor_words(&t, &next);
        u = next;
        t = more;
    }
    t
}
