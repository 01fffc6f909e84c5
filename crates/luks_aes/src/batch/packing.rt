//! From blocks to their bitsliced states, and back.

ghost use Rattle.std.specs.Prelude.{◌≡◌, ◌+◌, ◌*◌, ◌/◌, ◌%◌, ◌<◌, ◌≤◌, ℕ, List, length};
ghost use Rattle.std.specs.Prelude.{slice_index, bit_xor};
ghost use Rattle.std.specs.Int.{bit_at};
ghost use Rattle.luks_aes.specs.Bytes.{IsBytes};
ghost use Rattle.luks_aes.specs.Blocks.{masked_block, masked_byte, RepresentStates};
ghost use Rattle.luks_aes.specs.Words.{words_at};

use crate::batch::pairs::{pair_of_rows, rows_of_pair};
use crate::batch::planes::BitPlane;
use crate::batch::state::BitslicedState;
use std::simd::prelude::*;

// Block `n` of the batch, XORed with that of the mask.
#[inline(always)]
#[tactic(auto, using(crate::proofs::PackLemmas::xored_chunks))]
fn masked_block(batch: &[u8], mask: &[u8], n: usize) -> u8x16
    requires batch { 16 * n + 16 ≤ length batch.now }
    requires mask { 16 * n + 16 ≤ length mask.now }
    ensures { (i : ℕ) → i < 16
        → slice_index result i
        ≡ bit_xor (slice_index batch.now (16 * n + i)) (slice_index mask.now (16 * n + i)) }
{
    u8x16::from_slice(&batch[16 * n..]) ^ u8x16::from_slice(&mask[16 * n..])
}

// Writes block `n` of the batch, XORed with that of the mask.
#[inline(always)]
#[tactic(auto, using(crate::proofs::PackLemmas::stored_block))]
fn put_masked_block(batch: &mut [u8], mask: &[u8], n: usize, block: u8x16)
    requires batch { 16 * n + 16 ≤ length batch.old }
    requires mask { 16 * n + 16 ≤ length mask.now }
    requires lanes { length block ≡ 16 }
    ensures here { (i : ℕ) → i < 16
        → slice_index batch.new (16 * n + i)
        ≡ bit_xor (slice_index block i) (slice_index mask.now (16 * n + i)) }
    ensures before { (k : ℕ) → k < 16 * n → slice_index batch.new k ≡ slice_index batch.old k }
    ensures after { (k : ℕ) → 16 * n + 16 ≤ k
        → slice_index batch.new k ≡ slice_index batch.old k }
{
    let masked = block ^ u8x16::from_slice(&mask[16 * n..]);
    masked.copy_to_slice(&mut batch[16 * n..16 * n + 16]);
}

// The rows of blocks `n` and `n` + 8, each block XORed with that of the mask.
#[inline(always)]
fn masked_rows(batch: &[u8], mask: &[u8], n: usize) -> [u64; 4]
    requires batch { 16 * n + 144 ≤ length batch.now }
    requires mask { 16 * n + 144 ≤ length mask.now }
    ensures { (r p k : ℕ) → r < 4 → p < 8 → k < 8
        → bit_at (slice_index result r) (8 * p + k)
        ≡ bit_at (masked_byte batch.now mask.now (n + 8 * (p % 2)) (r + 4 * (p / 2))) k }
{
    rows_of_pair(
        masked_block(batch, mask, n),
        masked_block(batch, mask, n + 8),
    )
}

// Writes blocks `n` and `n` + 8, from their rows, each XORed with that of the mask.
#[inline(always)]
fn put_masked_rows(batch: &mut [u8], mask: &[u8], n: usize, rows: [u64; 4])
    requires batch { 16 * n + 144 ≤ length batch.old }
    requires mask { 16 * n + 144 ≤ length mask.now }
    ensures here { (e i k : ℕ) → e < 2 → i < 16 → k < 8
        → bit_at (masked_byte batch.new mask.now (n + 8 * e) i) k
        ≡ bit_at (slice_index rows (i % 4)) (8 * (2 * (i / 4) + e) + k) }
    ensures others { (m i : ℕ) → (m ≡ n → ⊥) → (m ≡ n + 8 → ⊥) → i < 16
        → slice_index batch.new (16 * m + i) ≡ slice_index batch.old (16 * m + i) }
{
    let pair = pair_of_rows(rows);
    put_masked_block(batch, mask, n, pair[0]);
    put_masked_block(batch, mask, n + 8, pair[1]);
}

impl<const WORDS: usize> BitPlane<WORDS> {
    // The words of the four rows in group `g`.
    #[inline(always)]
    fn row_words(&self, g: usize) -> [u64; 4]
        requires whole { WORDS % 4 ≡ 0 }
        requires inside { g < WORDS / 4 }
        ensures { (r : ℕ) → r < 4
            → slice_index result r ≡ slice_index self.now.words (WORDS / 4 * r + g) }
    {
        self.is_whole();
        let groups = WORDS / 4;
        [
            self.words[g],
            self.words[groups + g],
            self.words[groups * 2 + g],
            self.words[groups * 3 + g],
        ]
    }

    // Writes the words of the four rows in group `g`.
    #[inline(always)]
    fn put_row_words(&mut self, g: usize, rows: [u64; 4])
        requires whole { WORDS % 4 ≡ 0 }
        requires inside { g < WORDS / 4 }
        ensures here { (r : ℕ) → r < 4
            → slice_index self.new.words (WORDS / 4 * r + g) ≡ slice_index rows r }
        ensures others { (r h : ℕ) → r < 4 → h < WORDS / 4 → (h ≡ g → ⊥)
            → slice_index self.new.words (WORDS / 4 * r + h)
            ≡ slice_index self.old.words (WORDS / 4 * r + h) }
    {
        self.is_whole();
        let groups = WORDS / 4;
        self.words[g] = rows[0];
        self.words[groups + g] = rows[1];
        self.words[groups * 2 + g] = rows[2];
        self.words[groups * 3 + g] = rows[3];
    }
}

impl<const WORDS: usize> BitslicedState<WORDS> {
    // Fills in group `g`, without the transposition.
    #[inline(always)]
    fn pack_group(&mut self, batch: &[u8], mask: &[u8], g: usize)
        requires whole { WORDS % 4 ≡ 0 }
        requires inside { g < WORDS / 4 }
        requires batch { length batch.now ≡ 64 * WORDS }
        requires mask { length mask.now ≡ 64 * WORDS }
        ensures here { (r j p k : ℕ) → r < 4 → j < 8 → p < 8 → k < 8
            → bit_at (slice_index (words_at (WORDS / 4 * r + g) self.new) j) (8 * p + k)
            ≡ bit_at
            (masked_byte batch.now mask.now (16 * g + j + 8 * (p % 2)) (r + 4 * (p / 2))) k }
        ensures others { (r h : ℕ) → r < 4 → h < WORDS / 4 → (h ≡ g → ⊥)
            → words_at (WORDS / 4 * r + h) self.new ≡ words_at (WORDS / 4 * r + h) self.old }
    {
        let n = 16 * g;
        self.plane_0.put_row_words(g, masked_rows(batch, mask, n));
        self.plane_1
            .put_row_words(g, masked_rows(batch, mask, n + 1));
        self.plane_2
            .put_row_words(g, masked_rows(batch, mask, n + 2));
        self.plane_3
            .put_row_words(g, masked_rows(batch, mask, n + 3));
        self.plane_4
            .put_row_words(g, masked_rows(batch, mask, n + 4));
        self.plane_5
            .put_row_words(g, masked_rows(batch, mask, n + 5));
        self.plane_6
            .put_row_words(g, masked_rows(batch, mask, n + 6));
        self.plane_7
            .put_row_words(g, masked_rows(batch, mask, n + 7));
    }

    /// Bitslices the blocks of a batch, each XORed with that of the mask.
    #[inline(always)]
    pub fn pack(&mut self, batch: &[u8], mask: &[u8])
        requires whole { WORDS % 4 ≡ 0 }
        requires batch { length batch.now ≡ 64 * WORDS }
        requires mask { length mask.now ≡ 64 * WORDS }
        ensures { RepresentStates (masked_block batch.now mask.now) 0 self.new }
    {
        for g in 0..WORDS / 4 {
            self.pack_group(batch, mask, g);
        }
        self.transpose();
    }

    // Writes the blocks of group `g`, each XORed with that of the mask, after the transposition.
    #[inline(always)]
    fn unpack_group(&self, mask: &[u8], batch: &mut [u8], g: usize)
        requires whole { WORDS % 4 ≡ 0 }
        requires inside { g < WORDS / 4 }
        requires batch { length batch.old ≡ 64 * WORDS }
        requires mask { length mask.now ≡ 64 * WORDS }
        ensures here { (j e i k : ℕ) → j < 8 → e < 2 → i < 16 → k < 8
            → bit_at (masked_byte batch.new mask.now (16 * g + j + 8 * e) i) k
            ≡ bit_at
            (slice_index (words_at (WORDS / 4 * (i % 4) + g) self.now) j)
            (8 * (2 * (i / 4) + e) + k) }
        ensures others { (m i : ℕ) → (m / 16 ≡ g → ⊥) → i < 16
            → slice_index batch.new (16 * m + i) ≡ slice_index batch.old (16 * m + i) }
    {
        let n = 16 * g;
        put_masked_rows(batch, mask, n, self.plane_0.row_words(g));
        put_masked_rows(batch, mask, n + 1, self.plane_1.row_words(g));
        put_masked_rows(batch, mask, n + 2, self.plane_2.row_words(g));
        put_masked_rows(batch, mask, n + 3, self.plane_3.row_words(g));
        put_masked_rows(batch, mask, n + 4, self.plane_4.row_words(g));
        put_masked_rows(batch, mask, n + 5, self.plane_5.row_words(g));
        put_masked_rows(batch, mask, n + 6, self.plane_6.row_words(g));
        put_masked_rows(batch, mask, n + 7, self.plane_7.row_words(g));
    }

    /// Writes the blocks of bitsliced states, each XORed with that of the mask. The states are of
    /// no use afterwards.
    #[inline(always)]
    pub fn unpack(&mut self, mask: &[u8], batch: &mut [u8])
        requires whole { WORDS % 4 ≡ 0 }
        requires batch { length batch.old ≡ 64 * WORDS }
        requires mask { length mask.now ≡ 64 * WORDS }
        ensures { (s : ℕ → List ℕ) → ((m : ℕ) → IsBytes (s m)) → RepresentStates s 0 self.old
            → (m i : ℕ) → m < 4 * WORDS → i < 16
            → slice_index batch.new (16 * m + i)
            ≡ bit_xor (slice_index (s m) i) (slice_index mask.now (16 * m + i)) }
    {
        self.transpose();
        for g in 0..WORDS / 4 {
            self.unpack_group(mask, batch, g);
        }
    }
}
