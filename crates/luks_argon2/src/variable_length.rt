//! H', the hash function of variable length (RFC 9106, section 3.3).

ghost use Rattle.std.specs.Prelude.{◌≡◌, ◌-◌, ◌*◌, ◌^◌, ◌<◌, ◌≤◌, ◌++◌, length};
ghost use Rattle.luks_argon2.specs.Blake2b.{blake2b};
ghost use Rattle.luks_argon2.specs.Hashing.{hasher_after};
ghost use Rattle.luks_argon2.specs.VariableLength.{halves_and_last, variable_length_hash};
ghost use Rattle.luks_argon2.specs.Words.{le32};

use crate::hashing::{Hasher, blake2b, blake2b_512};

/// Fills `out`, 1 to 2^32 - 1 bytes, with H' of the input.
pub fn variable_length_hash(input: &[u8], out: &mut [u8])
    requires some { 1 ≤ length out.old }
    requires capacity { length out.old < 2 ^ 32 }
    ensures { out.new ≡ variable_length_hash (length out.old) input.now }
{
    let len = out.len() as u32;
    if out.len() <= 64 {
        hash_with_length(len, input, out);
    } else {
        let mut first = [0; 64];
        hash_with_length(len, input, &mut first);
        write_halves(first, out);
    }
}

// Fills `out`, 1 to 64 bytes, with the digest of this number in four bytes and the input.
fn hash_with_length(len: u32, input: &[u8], out: &mut [u8])
    requires some { 1 ≤ length out.old }
    requires capacity { length out.old ≤ 64 }
    ensures { out.new ≡ blake2b (length out.old) (le32 len ++ input.now) }
{
    let mut hasher = Hasher::new(out.len());
    hasher.update_le32(len);
    hasher.update(input);
    hasher.finish(out);
}

// Fills `out`, more than 64 bytes, from V_1: each digest is that of the one before it. Half of each
// is written, and the whole last one.
fn write_halves(first: [u8; 64], out: &mut [u8])
    requires first { length first ≡ 64 }
    requires long { 64 < length out.old }
    ensures { out.new ≡ halves_and_last (length out.old) first }
{
    let count = out.len().div_ceil(32) - 2;
    let mut v = first;
    out[..32].copy_from_slice(&v[..32]);
    'halves: for i in 1..count {
        v = blake2b_512(&v);
        out[32 * i..32 * i + 32].copy_from_slice(&v[..32]);
    }
    blake2b(&v, &mut out[32 * count..]);
}
