//! One chain of SHA-512 or SHA-384 digests, on bytes.

ghost use Rattle.std.specs.Prelude.{◌≡◌, ℕ, ◌+◌, ◌*◌, ◌<◌, ◌≤◌, List, ◌⊎◌, length, slice_index};
ghost use Rattle.sha2.specs.Sha512.{compress, digest_bytes, final_hash, initial_hash_384};
ghost use Rattle.sha2.specs.Sha512.{initial_hash_512, sha384, sha512, word_at};
ghost use Rattle.luks_kdf.specs.Chains.{chain_xor};
ghost use Rattle.luks_kdf.specs.Pairs.{ArePairs};

use crate::sha512_block::compress;
use crate::sha512_iterations::xor_iterations;
use crate::words::load_be64;
use std::simd::prelude::*;

// The initial hash values (FIPS 180-4, sections 5.3.4 and 5.3.5).

const FIRST_384: [u64; 8] = [
    0xCBBB_9D5D_C105_9ED8,
    0x629A_292A_367C_D507,
    0x9159_015A_3070_DD17,
    0x152F_ECD8_F70E_5939,
    0x6733_2667_FFC0_0B31,
    0x8EB4_4A87_6858_1511,
    0xDB0C_2E0D_64F9_8FA7,
    0x47B5_481D_BEFA_4FA4,
];

const FIRST_512: [u64; 8] = [
    0x6A09_E667_F3BC_C908,
    0xBB67_AE85_84CA_A73B,
    0x3C6E_F372_FE94_F82B,
    0xA54F_F53A_5F1D_36F1,
    0x510E_527F_ADE6_82D1,
    0x9B05_688C_2B3E_6C1F,
    0x1F83_D9AB_FB41_BD6B,
    0x5BE0_CD19_137E_2179,
];

/// XORs the next `count` digests of a chain of SHA-384 digests into `xors`. `last` is the chain's
/// last digest; `inner` and `outer` are the key's two blocks.
pub fn xor_chain384(inner: &[u8], outer: &[u8], count: u32, last: &[u8], xors: &mut [u8])
    requires inner { length inner.now ≡ 128 }
    requires outer { length outer.now ≡ 128 }
    requires last { length last.now ≡ 48 }
    requires xors { length xors.old ≡ 48 }
    ensures { xors.new ≡ chain_xor sha384 inner.now outer.now last.now xors.old count }
{
    xor_chain::<6>(&FIRST_384, inner, outer, count, last, xors);
}

/// The same for a chain of SHA-512 digests.
pub fn xor_chain512(inner: &[u8], outer: &[u8], count: u32, last: &[u8], xors: &mut [u8])
    requires inner { length inner.now ≡ 128 }
    requires outer { length outer.now ≡ 128 }
    requires last { length last.now ≡ 64 }
    requires xors { length xors.old ≡ 64 }
    ensures { xors.new ≡ chain_xor sha512 inner.now outer.now last.now xors.old count }
{
    xor_chain::<8>(&FIRST_512, inner, outer, count, last, xors);
}

// The same for a hash function whose digests are the first `WORDS` words of the hash value.
// `first` is its initial hash value.
fn xor_chain<const WORDS: usize>(
    first: &[u64; 8],
    inner: &[u8],
    outer: &[u8],
    count: u32,
    last: &[u8],
    xors: &mut [u8],
)
    requires words { (WORDS ≡ 6) ⊎ (WORDS ≡ 8) }
    requires inner { length inner.now ≡ 128 }
    requires outer { length outer.now ≡ 128 }
    requires last { length last.now ≡ 8 * WORDS }
    requires xors { length xors.old ≡ 8 * WORDS }
    ensures { (hash : List ℕ → List ℕ)
        → ((m : List ℕ) → hash m ≡ digest_bytes (final_hash first.now m) WORDS)
        → xors.new ≡ chain_xor hash inner.now outer.now last.now xors.old count }
{
    let inside = after_block(first, inner);
    let outside = after_block(first, outer);
    let digest = load_digest::<WORDS>(last);
    let before = load_digest::<WORDS>(xors);
    let after = xor_iterations::<WORDS>(&inside, &outside, &digest, count, &before);
    store::<WORDS>(&after, xors);
}

// The two words at byte `i` of a block.
fn load_pair(block: &[u8], i: usize) -> u64x2
    requires { i + 16 ≤ length block.now }
    ensures first { slice_index result 0 ≡ word_at block.now i }
    ensures second { slice_index result 1 ≡ word_at block.now (i + 8) }
{
    u64x2::from_array([load_be64(block, i), load_be64(block, i + 8)])
}

// The words of a block, in pairs.
fn load_block(block: &[u8]) -> [u64x2; 8]
    requires { length block.now ≡ 128 }
    ensures { ArePairs result block.now }
{
    [
        load_pair(block, 0),
        load_pair(block, 16),
        load_pair(block, 32),
        load_pair(block, 48),
        load_pair(block, 64),
        load_pair(block, 80),
        load_pair(block, 96),
        load_pair(block, 112),
    ]
}

// The hash value after one block.
fn after_block(first: &[u64; 8], block: &[u8]) -> [u64; 8]
    requires { length block.now ≡ 128 }
    ensures { result ≡ compress first.now block.now }
{
    compress::<0>(first, &load_block(block))
}

// The words of a digest, the first `WORDS` of the result.
fn load_digest<const WORDS: usize>(digest: &[u8]) -> [u64; 8]
    requires words { WORDS ≤ 8 }
    requires digest { length digest.now ≡ 8 * WORDS }
    ensures { digest_bytes result WORDS ≡ digest.now }
{
    let mut words = [0; 8];
    'words: for k in 0..WORDS {
        words[k] = load_be64(digest, 8 * k);
    }
    words
}

// Writes the digest that has the first `WORDS` words.
#[tactic(auto, unfolding(sha2::specs::Sha512::digest_bytes))]
fn store<const WORDS: usize>(x: &[u64; 8], out: &mut [u8])
    requires words { WORDS ≤ 8 }
    requires capacity { length out.old ≡ 8 * WORDS }
    ensures { out.new ≡ digest_bytes x.now WORDS }
{
    'words: for i in 0..WORDS {
        let word = x[i];
        out[8 * i..8 * i + 8].copy_from_slice(&word.to_be_bytes());
    }
}
