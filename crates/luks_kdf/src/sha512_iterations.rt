//! The iterations of a chain of SHA-512 or SHA-384 digests, on their words.

ghost use Rattle.std.specs.Prelude.{◌≡◌, ◌+◌, ◌*◌, List, [], ◌∷◌, ◌++◌, ◌⊎◌};
ghost use Rattle.sha2.specs.Sha512.{digest_bytes, padding};
ghost use Rattle.luks_kdf.specs.Chains.{iterations, iterations_xor, xor_words};
ghost use Rattle.luks_kdf.specs.Pairs.{ArePairs, after_digest512};

use crate::sha512_block::compress;
use std::simd::prelude::*;

// The first byte of the padding: a bit 1, and zeros.
const ONE_BIT: u64 = 0x8000_0000_0000_0000;

#[inline(always)]
fn pair(first: u64, second: u64) -> u64x2
    ensures { result ≡ first ∷ second ∷ [] }
{
    u64x2::from_array([first, second])
}

// The words of a SHA-512 digest after one block, and of its padding: a bit 1, zeros, and the length
// of the block and the digest in bits.
#[inline(always)]
#[tactic(auto, using(crate::proofs::ChainLemmas::padded_words512))]
fn digest_block512(d: &[u64; 8]) -> [u64x2; 8]
    ensures { ArePairs result (digest_bytes d.now 8 ++ padding 192) }
{
    [
        pair(d[0], d[1]),
        pair(d[2], d[3]),
        pair(d[4], d[5]),
        pair(d[6], d[7]),
        pair(ONE_BIT, 0),
        pair(0, 0),
        pair(0, 0),
        pair(0, 0x600),
    ]
}

// The same of a SHA-384 digest, whose words are the first six.
#[inline(always)]
#[tactic(auto, using(crate::proofs::ChainLemmas::padded_words384))]
fn digest_block384(d: &[u64; 8]) -> [u64x2; 8]
    ensures { ArePairs result (digest_bytes d.now 6 ++ padding 176) }
{
    [
        pair(d[0], d[1]),
        pair(d[2], d[3]),
        pair(d[4], d[5]),
        pair(ONE_BIT, 0),
        pair(0, 0),
        pair(0, 0),
        pair(0, 0),
        pair(0, 0x580),
    ]
}

// The hash value after one block and a digest, which has `WORDS` words.
fn after_digest<const WORDS: usize>(state: &[u64; 8], d: &[u64; 8]) -> [u64; 8]
    requires { (WORDS ≡ 6) ⊎ (WORDS ≡ 8) }
    ensures { result ≡ after_digest512 WORDS state.now d.now }
{
    if WORDS == 6 {
        compress::<6>(state, &digest_block384(d))
    } else {
        compress::<8>(state, &digest_block512(d))
    }
}

#[inline(always)]
#[tactic(auto, unfolding(crate::specs::Chains::xor_words))]
fn xor_words(x: &[u64; 8], y: &[u64; 8]) -> [u64; 8]
    ensures { result ≡ xor_words 8 x.now y.now }
{
    [
        x[0] ^ y[0],
        x[1] ^ y[1],
        x[2] ^ y[2],
        x[3] ^ y[3],
        x[4] ^ y[4],
        x[5] ^ y[5],
        x[6] ^ y[6],
        x[7] ^ y[7],
    ]
}

/// `before` with the words of the next `count` digests XORed into it. `last` is the digest that
/// precedes them; a digest has the first `WORDS` words.
#[tactic(auto, unfolding(crate::specs::Chains::iterations_xor, crate::specs::Chains::iterations))]
pub(crate) fn xor_iterations<const WORDS: usize>(
    inner: &[u64; 8],
    outer: &[u64; 8],
    last: &[u64; 8],
    count: u32,
    before: &[u64; 8],
) -> [u64; 8]
    requires { (WORDS ≡ 6) ⊎ (WORDS ≡ 8) }
    ensures { result ≡ iterations_xor 8 (after_digest512 WORDS) inner.now outer.now last.now
        before.now count }
{
    let mut u = *last;
    let mut t = *before;
    'iterations: for _ in 0..count {
        let middle = after_digest::<WORDS>(inner, &u);
        let next = after_digest::<WORDS>(outer, &middle);
        let more = xor_words(&t, &next);
        u = next;
        t = more;
    }
    t
}
