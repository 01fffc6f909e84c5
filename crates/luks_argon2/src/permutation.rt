//! P, the permutation of 16 words (RFC 9106, section 3.6), four of them in the lanes of a vector.

ghost use Rattle.std.specs.Prelude.{◌≡◌, ℕ, ◌<◌, slice_index};
ghost use Rattle.luks_argon2.specs.Permutation.{multiply_add, on_columns, permutation, xor_rotated};
ghost use Rattle.luks_argon2.specs.Vectors.{AreHalves, columns_as_diagonals};
ghost use Rattle.luks_argon2.specs.Vectors.{diagonals_as_columns, vector_words};

use std::simd::prelude::*;

// x + y + 2 * the product of their low halves
#[inline(always)]
#[tactic(auto, using(crate::proofs::VectorLemmas::lanes_multiply_add))]
fn multiply_add(x: u64x4, y: u64x4) -> u64x4
    ensures { (j : ℕ) → j < 4 → slice_index result j
        ≡ multiply_add (slice_index x j) (slice_index y j) }
{
    let low = u64x4::splat(0xFFFF_FFFF);
    let product = (x & low) * (y & low);
    x + y + (product + product)
}

#[inline(always)]
fn xor_rotated_32(x: u64x4, y: u64x4) -> u64x4
    ensures { (j : ℕ) → j < 4 → slice_index result j
        ≡ xor_rotated (slice_index x j) (slice_index y j) 32 }
{
    let z = x ^ y;
    (z >> 32) | (z << 32)
}

#[inline(always)]
fn xor_rotated_24(x: u64x4, y: u64x4) -> u64x4
    ensures { (j : ℕ) → j < 4 → slice_index result j
        ≡ xor_rotated (slice_index x j) (slice_index y j) 24 }
{
    let z = x ^ y;
    (z >> 24) | (z << 40)
}

#[inline(always)]
fn xor_rotated_16(x: u64x4, y: u64x4) -> u64x4
    ensures { (j : ℕ) → j < 4 → slice_index result j
        ≡ xor_rotated (slice_index x j) (slice_index y j) 16 }
{
    let z = x ^ y;
    (z >> 16) | (z << 48)
}

#[inline(always)]
fn xor_rotated_63(x: u64x4, y: u64x4) -> u64x4
    ensures { (j : ℕ) → j < 4 → slice_index result j
        ≡ xor_rotated (slice_index x j) (slice_index y j) 63 }
{
    let z = x ^ y;
    (z >> 63) | (z << 1)
}

// The first half of GB, in each lane.
#[inline(always)]
fn first_half(v: [u64x4; 4]) -> [u64x4; 4]
    ensures { AreHalves 32 24 v result }
{
    let [a, b, c, d] = v;
    let a = multiply_add(a, b);
    let d = xor_rotated_32(d, a);
    let c = multiply_add(c, d);
    let b = xor_rotated_24(b, c);
    [a, b, c, d]
}

// The second half of GB, in each lane.
#[inline(always)]
fn second_half(v: [u64x4; 4]) -> [u64x4; 4]
    ensures { AreHalves 16 63 v result }
{
    let [a, b, c, d] = v;
    let a = multiply_add(a, b);
    let d = xor_rotated_16(d, a);
    let c = multiply_add(c, d);
    let b = xor_rotated_63(b, c);
    [a, b, c, d]
}

// GB of the four columns, one in each lane.
#[inline(always)]
fn columns(v: [u64x4; 4]) -> [u64x4; 4]
    ensures { vector_words result ≡ on_columns (vector_words v) }
{
    second_half(first_half(v))
}

// The diagonals as columns.
#[inline(always)]
#[tactic(auto, unfolding(crate::specs::Vectors::diagonals_as_columns, crate::specs::Vectors::vector_words))]
fn diagonals_as_columns(v: [u64x4; 4]) -> [u64x4; 4]
    ensures { vector_words result ≡ diagonals_as_columns (vector_words v) }
{
    let [a, b, c, d] = v;
    let [b0, b1, b2, b3] = b.to_array();
    let [c0, c1, c2, c3] = c.to_array();
    let [d0, d1, d2, d3] = d.to_array();
    [
        a,
        u64x4::from_array([b1, b2, b3, b0]),
        u64x4::from_array([c2, c3, c0, c1]),
        u64x4::from_array([d3, d0, d1, d2]),
    ]
}

// The columns as diagonals.
#[inline(always)]
#[tactic(auto, unfolding(crate::specs::Vectors::columns_as_diagonals, crate::specs::Vectors::vector_words))]
fn columns_as_diagonals(v: [u64x4; 4]) -> [u64x4; 4]
    ensures { vector_words result ≡ columns_as_diagonals (vector_words v) }
{
    let [a, b, c, d] = v;
    let [b0, b1, b2, b3] = b.to_array();
    let [c0, c1, c2, c3] = c.to_array();
    let [d0, d1, d2, d3] = d.to_array();
    [
        a,
        u64x4::from_array([b3, b0, b1, b2]),
        u64x4::from_array([c2, c3, c0, c1]),
        u64x4::from_array([d1, d2, d3, d0]),
    ]
}

// The words in the lanes of four vectors.
#[inline(always)]
fn load(row: [u64; 16]) -> [u64x4; 4]
    ensures { vector_words result ≡ row }
{
    [
        u64x4::from_array([row[0], row[1], row[2], row[3]]),
        u64x4::from_array([row[4], row[5], row[6], row[7]]),
        u64x4::from_array([row[8], row[9], row[10], row[11]]),
        u64x4::from_array([row[12], row[13], row[14], row[15]]),
    ]
}

#[inline(always)]
#[tactic(auto, unfolding(crate::specs::Vectors::vector_words))]
fn store(v: [u64x4; 4]) -> [u64; 16]
    ensures { result ≡ vector_words v }
{
    let [a, b, c, d] = v;
    let [a0, a1, a2, a3] = a.to_array();
    let [b0, b1, b2, b3] = b.to_array();
    let [c0, c1, c2, c3] = c.to_array();
    let [d0, d1, d2, d3] = d.to_array();
    [
        a0, a1, a2, a3, b0, b1, b2, b3, c0, c1, c2, c3, d0, d1, d2, d3,
    ]
}

/// P.
#[inline(always)]
pub(crate) fn permute(row: [u64; 16]) -> [u64; 16]
    ensures { result ≡ permutation row }
{
    let v = columns(load(row));
    store(columns_as_diagonals(columns(diagonals_as_columns(v))))
}
