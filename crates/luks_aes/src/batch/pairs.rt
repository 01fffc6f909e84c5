//! The bytes of two blocks as four words, one a row of the state, and back.

ghost use Rattle.std.specs.Prelude.{◌≡◌, ◌<◌, ◌+◌, ◌*◌, ◌/◌, ◌%◌, ℕ, [], ◌∷◌, slice_index};
ghost use Rattle.std.specs.Prelude.{slice_index_or};
ghost use Rattle.std.specs.Int.{bit_at};
ghost use Rattle.luks_aes.specs.Shuffles.{by_rows, low_bytes, high_bytes, even_positions};
ghost use Rattle.luks_aes.specs.Shuffles.{pair_bytes};

use std::simd::prelude::*;

// The bytes of a block row by row, or those of four rows column by column (an involution).
#[inline(always)]
fn by_rows(a: u8x16) -> u8x16
    ensures { result ≡ by_rows a }
{
    a.swizzle([0, 4, 8, 12, 1, 5, 9, 13, 2, 6, 10, 14, 3, 7, 11, 15])
}

// The first eight bytes of both vectors, interleaved.
#[inline(always)]
fn low_bytes(a: u8x16, b: u8x16) -> u8x16
    ensures { result ≡ low_bytes a b }
{
    a.shuffle(b, [0, 16, 1, 17, 2, 18, 3, 19, 4, 20, 5, 21, 6, 22, 7, 23])
}

// The last eight bytes of both vectors, interleaved.
#[inline(always)]
fn high_bytes(a: u8x16, b: u8x16) -> u8x16
    ensures { result ≡ high_bytes a b }
{
    a.shuffle(
        b,
        [8, 24, 9, 25, 10, 26, 11, 27, 12, 28, 13, 29, 14, 30, 15, 31],
    )
}

// The bytes at even positions, and after them those at odd positions.
#[inline(always)]
fn even_positions(a: u8x16) -> u8x16
    ensures { result ≡ even_positions a }
{
    a.swizzle([0, 2, 4, 6, 8, 10, 12, 14, 1, 3, 5, 7, 9, 11, 13, 15])
}

// The bytes of two words.
#[inline(always)]
#[tactic(auto, using(crate::proofs::PairLemmas::vector_of_words))]
fn pair_bytes(a: u64, b: u64) -> u8x16
    ensures { result ≡ pair_bytes a b }
{
    u64x2::from_array([a, b]).to_le_bytes()
}

/// The rows of two blocks: byte 2 * c + e of word r is the byte in row r and column c of block e.
#[inline(always)]
pub(crate) fn rows_of_pair(a: u8x16, b: u8x16) -> [u64; 4]
    ensures { (r p k : ℕ) → r < 4 → p < 8 → k < 8
        → bit_at (slice_index result r) (8 * p + k)
        ≡ bit_at (slice_index (slice_index_or (a ∷ b ∷ []) (p % 2) []) (r + 4 * (p / 2))) k }
{
    let first = by_rows(a);
    let second = by_rows(b);
    let low = u64x2::from_le_bytes(low_bytes(first, second)).to_array();
    let high = u64x2::from_le_bytes(high_bytes(first, second)).to_array();
    [low[0], low[1], high[0], high[1]]
}

/// The two blocks that have these rows.
#[inline(always)]
pub(crate) fn pair_of_rows(rows: [u64; 4]) -> [u8x16; 2]
    ensures { (e i k : ℕ) → e < 2 → i < 16 → k < 8
        → bit_at (slice_index (slice_index_or result e []) i) k
        ≡ bit_at (slice_index rows (i % 4)) (8 * (2 * (i / 4) + e) + k) }
{
    let low = even_positions(pair_bytes(rows[0], rows[1]));
    let high = even_positions(pair_bytes(rows[2], rows[3]));
    let low = u64x2::from_le_bytes(low);
    let high = u64x2::from_le_bytes(high);
    [
        by_rows(low.shuffle(high, [0, 2]).to_le_bytes()),
        by_rows(low.shuffle(high, [1, 3]).to_le_bytes()),
    ]
}
