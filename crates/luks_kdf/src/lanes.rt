//! PBKDF2 with the blocks of a key side by side, if the hash function has lanes for several.

ghost use Rattle.std.specs.Prelude.{◌≡◌, ℕ, ◌+◌, ◌*◌, ◌^◌, ◌<◌, ◌≤◌, List, length, refl, take};
ghost use Rattle.luks_kdf.specs.Bytes.{joined};
ghost use Rattle.luks_kdf.specs.Chains.{chain_xor, digest_at};
ghost use Rattle.luks_kdf.specs.Hash.{block_len, hash_of, digest_len};
ghost use Rattle.luks_kdf.specs.Lanes.{lanes_of};
ghost use Rattle.luks_kdf.specs.Hmac.{inner_block, outer_block};
ghost use Rattle.luks_kdf.specs.Pbkdf2.{derived_key, t_of, u_of};

use crate::bytes::xor_into;
use crate::engine::Engine;
use crate::mac::{KeyBlocks, Keyed, key_blocks};
use crate::{sha1_chains, sha256_chains, sha512_chains};
use sha1::Sha1;
use sha2::{Sha224, Sha256, Sha384, Sha512};

// The maximum total length in bytes of the digests that are computed side by side.
const MAX_GROUP: usize = 80;

/// A hash function that computes chains of digests, side by side if there are lanes for several.
pub(crate) trait Lanes: Engine {
    // The number of chains side by side.
    const WIDTH: usize;

    ghost WIDTH: { ℕ };

    /// XORs the next `count` digests of each of the first `used` chains into its bytes in `xors`,
    /// where the chains follow one another. `last` has the last digest of each chain, in the same
    /// order.
    fn iterate(inner: &[u8], outer: &[u8], used: usize, count: u32, last: &[u8], xors: &mut [u8])
        requires inner { length inner.now ≡ block_len Self.function }
        requires outer { length outer.now ≡ block_len Self.function }
        requires used { used ≤ WIDTH }
        requires last { length last.now ≡ WIDTH * digest_len Self.function }
        requires xors { length xors.old ≡ WIDTH * digest_len Self.function }
        ensures { (j : ℕ) → j < used → digest_at (digest_len Self.function) j xors.new
            ≡ chain_xor (hash_of Self.function) inner.now outer.now
            (digest_at (digest_len Self.function) j last.now)
            (digest_at (digest_len Self.function) j xors.old) count };

    ghost known: { WIDTH ≡ lanes_of Self.function };
}

impl Lanes for Sha1 {
    const WIDTH: usize = 4;

    ghost WIDTH = { 4 };

    fn iterate(inner: &[u8], outer: &[u8], used: usize, count: u32, last: &[u8], xors: &mut [u8]) {
        if used == 1 {
            sha1_chains::xor_chains::<1>(inner, outer, count, &last[..20], &mut xors[..20]);
        } else {
            sha1_chains::xor_chains::<4>(inner, outer, count, last, xors);
        }
    }

    ghost known = { refl };
}

impl Lanes for Sha224 {
    const WIDTH: usize = 1;

    ghost WIDTH = { 1 };

    fn iterate(inner: &[u8], outer: &[u8], _used: usize, count: u32, last: &[u8], xors: &mut [u8]) {
        iterate_by::<Sha224>(inner, outer, count, last, xors);
    }

    ghost known = { refl };
}

impl Lanes for Sha256 {
    const WIDTH: usize = 2;

    ghost WIDTH = { 2 };

    // The hasher is faster on a single chain.
    fn iterate(inner: &[u8], outer: &[u8], used: usize, count: u32, last: &[u8], xors: &mut [u8]) {
        if used == 1 {
            iterate_by::<Sha256>(inner, outer, count, &last[..32], &mut xors[..32]);
        } else {
            sha256_chains::xor_chains(inner, outer, count, last, xors);
        }
    }

    ghost known = { refl };
}

impl Lanes for Sha384 {
    const WIDTH: usize = 1;

    ghost WIDTH = { 1 };

    fn iterate(inner: &[u8], outer: &[u8], _used: usize, count: u32, last: &[u8], xors: &mut [u8]) {
        sha512_chains::xor_chain384(inner, outer, count, last, xors);
    }

    ghost known = { refl };
}

impl Lanes for Sha512 {
    const WIDTH: usize = 1;

    ghost WIDTH = { 1 };

    fn iterate(inner: &[u8], outer: &[u8], _used: usize, count: u32, last: &[u8], xors: &mut [u8]) {
        sha512_chains::xor_chain512(inner, outer, count, last, xors);
    }

    ghost known = { refl };
}

/// Fills `out` with the key that PBKDF2 with HMAC derives from the password, as many blocks at a
/// time as there are lanes.
pub(crate) fn derive_in_lanes<E: Lanes>(pass: &[u8], salt: &[u8], iterations: u32, out: &mut [u8])
    requires iterations { 1 ≤ iterations }
    requires capacity { length out.old ≤ 512 }
    ensures { out.new ≡ derived_key E.function pass.now salt.now iterations (length out.old) }
{
    let blocks = key_blocks::<E>(pass);
    let keyed = Keyed::<E>::after(&blocks);
    let group = E::WIDTH * E::hash().size();
    let count = out.len().div_ceil(group);
    'fill: for i in 0..count {
        let start = i * group;
        let end = (start + group).min(out.len());
        derive_group(
            &keyed,
            &blocks,
            salt,
            (E::WIDTH * i) as u32 + 1,
            iterations,
            &mut out[start..end],
        );
    }
}

// Fills `out` with the first bytes of the blocks T from this number on, one in each lane.
fn derive_group<E: Lanes>(
    keyed: &Keyed<E>,
    blocks: &KeyBlocks,
    salt: &[u8],
    number: u32,
    iterations: u32,
    out: &mut [u8],
)
    requires iterations { 1 ≤ iterations }
    requires number { number + E.WIDTH < 2 ^ 32 }
    requires capacity { length out.old ≤ E.WIDTH * digest_len E.function }
    ensures { (pass : List ℕ) → E.holds keyed.now.inner (inner_block E.function pass)
        → E.holds keyed.now.outer (outer_block E.function pass)
        → take (block_len E.function) blocks.now.inner ≡ inner_block E.function pass
        → take (block_len E.function) blocks.now.outer ≡ outer_block E.function pass
        → out.new ≡ take (length out.old)
        (joined (λ k. t_of E.function pass salt.now (number + k) iterations) E.WIDTH) }
{
    let size = E::hash().size();
    let mut t = [0; MAX_GROUP];
    let t = &mut t[..E::WIDTH * size];
    let count = out.len().div_ceil(size);
    write_group(keyed, blocks, salt, number, count, iterations, t);
    out.copy_from_slice(&t[..out.len()]);
}

// Writes `count` of the blocks T, from this number on.
fn write_group<E: Lanes>(
    keyed: &Keyed<E>,
    blocks: &KeyBlocks,
    salt: &[u8],
    number: u32,
    count: usize,
    iterations: u32,
    t: &mut [u8],
)
    requires iterations { 1 ≤ iterations }
    requires number { number + count < 2 ^ 32 }
    requires count { count ≤ E.WIDTH }
    requires capacity { length t.old ≡ E.WIDTH * digest_len E.function }
    ensures { (pass : List ℕ) → E.holds keyed.now.inner (inner_block E.function pass)
        → E.holds keyed.now.outer (outer_block E.function pass)
        → take (block_len E.function) blocks.now.inner ≡ inner_block E.function pass
        → take (block_len E.function) blocks.now.outer ≡ outer_block E.function pass
        → (k : ℕ) → k < count → digest_at (digest_len E.function) k t.new
        ≡ t_of E.function pass salt.now (number + k) iterations }
{
    let mut u = [0; MAX_GROUP];
    let u = &mut u[..t.len()];
    first_iterations(keyed, salt, number, count, u);
    t.copy_from_slice(u);
    let size = E::hash().block();
    let inner = &blocks.inner[..size];
    let outer = &blocks.outer[..size];
    E::iterate(inner, outer, count, iterations - 1, u, t);
}

// Writes the first U of `count` blocks, from this number on.
fn first_iterations<E: Lanes>(
    keyed: &Keyed<E>,
    salt: &[u8],
    number: u32,
    count: usize,
    u: &mut [u8],
)
    requires number { number + count < 2 ^ 32 }
    requires count { count ≤ E.WIDTH }
    requires capacity { length u.old ≡ E.WIDTH * digest_len E.function }
    ensures { (pass : List ℕ) → E.holds keyed.now.inner (inner_block E.function pass)
        → E.holds keyed.now.outer (outer_block E.function pass)
        → (k : ℕ) → k < count → digest_at (digest_len E.function) k u.new
        ≡ u_of E.function pass salt.now (number + k) 1 }
{
    let size = E::hash().size();
    'first: for k in 0..count {
        let start = size * k;
        first_iteration(keyed, salt, number + k as u32, &mut u[start..start + size]);
    }
}

// Writes the first U of the block with this number.
fn first_iteration<E: Engine>(keyed: &Keyed<E>, salt: &[u8], number: u32, u: &mut [u8])
    requires { length u.old ≡ digest_len E.function }
    ensures { (pass : List ℕ) → E.holds keyed.now.inner (inner_block E.function pass)
        → E.holds keyed.now.outer (outer_block E.function pass)
        → u.new ≡ u_of E.function pass salt.now number 1 }
{
    let mut inner = keyed.begin();
    inner.absorb(salt);
    inner.absorb(&number.to_be_bytes());
    keyed.complete(inner, u);
}

// XORs the next `count` digests of a chain into `xors`, by the hasher. `last` is its last digest.
fn iterate_by<E: Engine>(inner: &[u8], outer: &[u8], count: u32, last: &[u8], xors: &mut [u8])
    requires last { length last.now ≡ digest_len E.function }
    requires xors { length xors.old ≡ digest_len E.function }
    ensures { xors.new
        ≡ chain_xor (hash_of E.function) inner.now outer.now last.now xors.old count }
{
    let mut u = [0; MAX_GROUP];
    let u = &mut u[..last.len()];
    u.copy_from_slice(last);
    xor_more(&Keyed::<E>::of(inner, outer), count, u, xors);
}

// The same, with the last digest in `u`, which has that of the last iteration afterwards.
fn xor_more<E: Engine>(keyed: &Keyed<E>, count: u32, u: &mut [u8], xors: &mut [u8])
    requires u { length u.old ≡ digest_len E.function }
    requires xors { length xors.old ≡ digest_len E.function }
    ensures { (inner outer : List ℕ) → E.holds keyed.now.inner inner
        → E.holds keyed.now.outer outer
        → xors.new ≡ chain_xor (hash_of E.function) inner outer u.old xors.old count }
{
    'iterations: for _ in 0..count {
        let mut next = keyed.begin();
        next.absorb(u);
        keyed.complete(next, u);
        xor_into(xors, u);
    }
}
