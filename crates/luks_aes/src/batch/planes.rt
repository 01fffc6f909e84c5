//! One bit plane of a batch: reading and writing the rows of its groups.

ghost use Rattle.std.specs.Prelude.{◌≡◌, ◌+◌, ◌*◌, ◌/◌, ◌%◌, ◌<◌, ◌≤◌, ℕ, length, slice_index};
ghost use Rattle.luks_aes.specs.Field.{◌⊕◌};
ghost use Rattle.luks_aes.specs.BitPlanes.{rotated_index};
ghost use Rattle.luks_aes.specs.Words.{AreRowsOf, SameRowsOf};
ghost use Rattle.luks_aes.specs.Mixing.{AreBytes, AreShared, AreDoubled, mixed_and_shifted};

use crate::batch::inv_mix_columns::{Rows, SharedValues};
use crate::batch::lane::Lane;
use crate::batch::round_key::KeyPlane;

/// One bit of each byte of a batch, in words of 64 bits. `specs/Words.antt` says which byte a bit
/// belongs to.
#[derive(Clone, Copy, Drop)]
pub struct BitPlane<const WORDS: usize> {
    pub words: [u64; WORDS],
}

impl<const WORDS: usize> BitPlane<WORDS> {
    /// The prover knows the length of an array in one struct, but not of all in a struct of
    /// structs.
    #[inline(always)]
    pub fn is_whole(&self)
        ensures { length self.now.words ≡ WORDS }
    {}

    /// The rows, from group `g` on.
    #[inline(always)]
    pub fn rows<L: Lane>(&self, g: usize) -> Rows<L>
        requires whole { WORDS % 4 ≡ 0 }
        requires inside { g + L.count ≤ WORDS / 4 }
        ensures row_0 { (l : ℕ) → l < L.count
            → L.word result.row_0 l ≡ slice_index self.now.words (WORDS / 4 * 0 + (g + l)) }
        ensures row_1 { (l : ℕ) → l < L.count
            → L.word result.row_1 l ≡ slice_index self.now.words (WORDS / 4 * 1 + (g + l)) }
        ensures row_2 { (l : ℕ) → l < L.count
            → L.word result.row_2 l ≡ slice_index self.now.words (WORDS / 4 * 2 + (g + l)) }
        ensures row_3 { (l : ℕ) → l < L.count
            → L.word result.row_3 l ≡ slice_index self.now.words (WORDS / 4 * 3 + (g + l)) }
    {
        self.is_whole();
        let groups = WORDS / 4;
        let row_0 = L::load(&self.words, g);
        let row_1 = L::load(&self.words, groups + g);
        let row_2 = L::load(&self.words, groups * 2 + g);
        let row_3 = L::load(&self.words, groups * 3 + g);
        Rows {
            row_0,
            row_1,
            row_2,
            row_3,
        }
    }

    /// Writes the rows, from group `g` on.
    #[inline(always)]
    pub fn put_rows<L: Lane>(&mut self, g: usize, rows: Rows<L>)
        requires whole { WORDS % 4 ≡ 0 }
        requires inside { g + L.count ≤ WORDS / 4 }
        ensures row_0 { (l : ℕ) → l < L.count
            → slice_index self.new.words (WORDS / 4 * 0 + (g + l)) ≡ L.word rows.row_0 l }
        ensures row_1 { (l : ℕ) → l < L.count
            → slice_index self.new.words (WORDS / 4 * 1 + (g + l)) ≡ L.word rows.row_1 l }
        ensures row_2 { (l : ℕ) → l < L.count
            → slice_index self.new.words (WORDS / 4 * 2 + (g + l)) ≡ L.word rows.row_2 l }
        ensures row_3 { (l : ℕ) → l < L.count
            → slice_index self.new.words (WORDS / 4 * 3 + (g + l)) ≡ L.word rows.row_3 l }
        ensures below { (i : ℕ) → i < g → SameRowsOf WORDS i self.new.words self.old.words }
        ensures above { (i : ℕ) → g + L.count ≤ i → i < WORDS / 4
            → SameRowsOf WORDS i self.new.words self.old.words }
    {
        self.is_whole();
        let groups = WORDS / 4;
        rows.row_0.store(&mut self.words, g);
        rows.row_1.store(&mut self.words, groups + g);
        rows.row_2.store(&mut self.words, groups * 2 + g);
        rows.row_3.store(&mut self.words, groups * 3 + g);
    }

    /// AddRoundKey (FIPS 197, 5.1.4) on one group.
    #[inline(always)]
    pub fn add_key(&mut self, key: &KeyPlane, g: usize)
        requires whole { WORDS % 4 ≡ 0 }
        requires most { WORDS ≤ 16 }
        requires inside { g < WORDS / 4 }
        ensures plane { (y z : ℕ → ℕ → ℕ) (j : ℕ) → AreRowsOf y j WORDS self.old.words g
            → AreRowsOf z j 16 key.now.words g
            → AreRowsOf (λ r q. y r q ⊕ z r q) j WORDS self.new.words g }
        ensures below { (i : ℕ) → i < g → SameRowsOf WORDS i self.new.words self.old.words }
        ensures above { (i : ℕ) → g + 1 ≤ i → i < WORDS / 4
            → SameRowsOf WORDS i self.new.words self.old.words }
    {
        let rows: Rows<u64> = self.rows(g);
        self.put_rows(g, rows.keyed(key.rows(g)));
    }

    /// InvShiftRows (5.3.1) on one group.
    #[inline(always)]
    pub fn inv_shift_rows(&mut self, g: usize)
        requires whole { WORDS % 4 ≡ 0 }
        requires inside { g < WORDS / 4 }
        ensures plane { (y : ℕ → ℕ → ℕ) (j : ℕ) → AreRowsOf y j WORDS self.old.words g
            → AreRowsOf (λ r q. y r (rotated_index r q)) j WORDS self.new.words g }
        ensures below { (i : ℕ) → i < g → SameRowsOf WORDS i self.new.words self.old.words }
        ensures above { (i : ℕ) → g + 1 ≤ i → i < WORDS / 4
            → SameRowsOf WORDS i self.new.words self.old.words }
    {
        let rows: Rows<u64> = self.rows(g);
        self.put_rows(g, rows.inv_shifted());
    }

    /// InvMixColumns (5.3.3), AddRoundKey and InvShiftRows from group `g` on, with the doubled
    /// values in this plane. Returns the shared values in it.
    #[inline(always)]
    pub fn inv_mix_columns<L: Lane>(
        &mut self,
        key: &KeyPlane,
        g: usize,
        doubled: SharedValues<L>,
    ) -> SharedValues<L>
        requires whole { WORDS % 4 ≡ 0 }
        requires inside { g + L.count ≤ WORDS / 4 }
        requires most { WORDS ≤ 16 }
        ensures plane { (l : ℕ) (y z : ℕ → ℕ → ℕ) (j : ℕ) → l < L.count → AreBytes y
            → AreRowsOf y j WORDS self.old.words (g + l) → AreRowsOf z j 16 key.now.words (g + l)
            → AreDoubled y j (L.word doubled.all l) (L.word doubled.even l) (L.word doubled.step l)
            → AreRowsOf (mixed_and_shifted y z) j WORDS self.new.words (g + l) }
        ensures shared { (l : ℕ) (y : ℕ → ℕ → ℕ) (j : ℕ) → l < L.count
            → AreRowsOf y j WORDS self.old.words (g + l)
            → AreDoubled y j (L.word doubled.all l) (L.word doubled.even l) (L.word doubled.step l)
            → AreShared y j (L.word result.all l) (L.word result.even l) (L.word result.step l) }
        ensures below { (i : ℕ) → i < g → SameRowsOf WORDS i self.new.words self.old.words }
        ensures above { (i : ℕ) → g + L.count ≤ i → i < WORDS / 4
            → SameRowsOf WORDS i self.new.words self.old.words }
    {
        let rows: Rows<L> = self.rows(g);
        let mixed = rows.inv_mixed(doubled);
        let keyed = mixed.rows.keyed(key.rows(g));
        self.put_rows(g, keyed.inv_shifted());
        mixed.shared
    }
}
