//! The words that one gate works on at once: one word, or a vector of two.

ghost use Rattle.std.specs.Prelude.{◌≡◌, ◌<◌, ◌+◌, ◌*◌, ◌≤◌, ℕ, length, slice_index, bit_xor};
ghost use Rattle.std.specs.Int.{bit_at};
ghost use Rattle.luks_aes.specs.BitPlanes.{rotated_index};
ghost use Rattle.luks_aes.specs.RowShifts.{column_count};

use std::simd::prelude::*;

/// How many columns InvShiftRows rotates a row by.
#[derive(Clone, Copy, Drop)]
pub(crate) enum Columns {
    One,
    Two,
    Three,
}

impl Columns {
    /// How many bits these columns have in a word.
    #[inline(always)]
    fn bits(self) -> u32
        ensures value { result ≡ 16 * column_count self }
        ensures least { 16 ≤ result }
        ensures most { result ≤ 48 }
    {
        match self {
            Columns::One => 16,
            Columns::Two => 32,
            Columns::Three => 48,
        }
    }
}

/// Neighbouring words of a bit plane, at most two of them.
pub(crate) trait Lane: Copy + Drop {
    ghost count: { ℕ };

    ghost word: { Self → ℕ → ℕ };

    /// The words from position `at` on.
    fn load(words: &[u64], at: usize) -> Self
        requires { at + count ≤ length words.now }
        ensures { (l : ℕ) → l < count → word result l ≡ slice_index words.now (at + l) };

    /// Writes the words, from position `at` on.
    fn store(self, words: &mut [u64], at: usize)
        requires { at + count ≤ length words.old }
        ensures written { (l : ℕ) → l < count → slice_index words.new (at + l) ≡ word self l }
        ensures before { (k : ℕ) → k < at → slice_index words.new k ≡ slice_index words.old k }
        ensures after { (k : ℕ) → at + count ≤ k
            → slice_index words.new k ≡ slice_index words.old k };

    /// XOR of the bits.
    fn xor(self, other: Self) -> Self
        ensures { (l : ℕ) → l < count → word result l ≡ bit_xor (word self l) (word other l) };

    /// Rotates each word right by this number of columns, as InvShiftRows does (FIPS 197, 5.3.1).
    fn rotated(self, by: Columns) -> Self
        ensures { (l q : ℕ) → l < count → q < 64
            → bit_at (word result l) q
            ≡ bit_at (word self l) (rotated_index (column_count by) q) };
}

impl Lane for u64 {
    ghost count = { 1 };

    ghost word = { λ w l. w };

    #[inline(always)]
    fn load(words: &[u64], at: usize) -> Self {
        words[at]
    }

    #[inline(always)]
    fn store(self, words: &mut [u64], at: usize) {
        words[at] = self;
    }

    #[inline(always)]
    fn xor(self, other: Self) -> Self {
        self ^ other
    }

    #[inline(always)]
    fn rotated(self, by: Columns) -> Self {
        let bits = by.bits();
        (self << bits) ^ (self >> (64 - bits))
    }
}

impl Lane for u64x2 {
    ghost count = { 2 };

    ghost word = { λ v l. slice_index v l };

    #[inline(always)]
    fn load(words: &[u64], at: usize) -> Self {
        u64x2::from_slice(&words[at..])
    }

    #[inline(always)]
    fn store(self, words: &mut [u64], at: usize) {
        self.copy_to_slice(&mut words[at..at + 2]);
    }

    #[inline(always)]
    fn xor(self, other: Self) -> Self {
        self ^ other
    }

    #[inline(always)]
    fn rotated(self, by: Columns) -> Self {
        let bits = u64::from(by.bits());
        (self << u64x2::splat(bits)) ^ (self >> u64x2::splat(64 - bits))
    }
}
