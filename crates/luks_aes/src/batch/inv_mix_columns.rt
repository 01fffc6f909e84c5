//! InvMixColumns (FIPS 197, 5.3.3) on one bit plane of a bitsliced state.

ghost use Rattle.std.specs.Prelude.{◌<◌, ℕ};
ghost use Rattle.luks_aes.specs.Field.{◌⊕◌, times_x};
ghost use Rattle.luks_aes.specs.Columns.{inv_mixed_row};
ghost use Rattle.luks_aes.specs.BitPlanes.{IsBitPlane, rotated_index};
ghost use Rattle.luks_aes.specs.Words.{AreRows};
ghost use Rattle.luks_aes.specs.Mixing.{column_bytes_xor, even_of, step_of};
ghost use Rattle.luks_aes.specs.Mixing.{AreBytes, AreShared, AreDoubled};

use crate::batch::lane::{Columns, Lane};

/// The four rows of a bit plane, for one group of blocks or two.
#[derive(Clone, Copy, Drop)]
pub struct Rows<L> {
    pub row_0: L,
    pub row_1: L,
    pub row_2: L,
    pub row_3: L,
}

/// One bit plane of the values that the four rows of a column after InvMixColumns share, or of
/// these values doubled. `specs/Mixing.antt` defines them.
#[derive(Clone, Copy, Drop)]
pub struct SharedValues<L> {
    pub all: L,
    pub even: L,
    pub step: L,
}

/// A bit plane after InvMixColumns, and the shared values in it.
#[derive(Clone, Copy, Drop)]
pub struct Mixed<L> {
    pub rows: Rows<L>,
    pub shared: SharedValues<L>,
}

impl<L: Lane> SharedValues<L> {
    /// The doubled values in the next bit plane, if the reduction of x^8 (FIPS 197, 4.2) has a term
    /// there: the values in this plane XORed with those in plane 7.
    #[inline(always)]
    pub fn reduced(self, top: SharedValues<L>) -> SharedValues<L>
        ensures to_1 { (l : ℕ) (y : ℕ → ℕ → ℕ) → l < L.count → AreBytes y
            → AreShared y 0 (L.word self.all l) (L.word self.even l) (L.word self.step l)
            → AreShared y 7 (L.word top.all l) (L.word top.even l) (L.word top.step l)
            → AreDoubled y 1 (L.word result.all l) (L.word result.even l) (L.word result.step l) }
        ensures to_3 { (l : ℕ) (y : ℕ → ℕ → ℕ) → l < L.count → AreBytes y
            → AreShared y 2 (L.word self.all l) (L.word self.even l) (L.word self.step l)
            → AreShared y 7 (L.word top.all l) (L.word top.even l) (L.word top.step l)
            → AreDoubled y 3 (L.word result.all l) (L.word result.even l) (L.word result.step l) }
        ensures to_4 { (l : ℕ) (y : ℕ → ℕ → ℕ) → l < L.count → AreBytes y
            → AreShared y 3 (L.word self.all l) (L.word self.even l) (L.word self.step l)
            → AreShared y 7 (L.word top.all l) (L.word top.even l) (L.word top.step l)
            → AreDoubled y 4 (L.word result.all l) (L.word result.even l) (L.word result.step l) }
    {
        let all = self.all.xor(top.all);
        let even = self.even.xor(top.even);
        let step = self.step.xor(top.step);
        SharedValues { all, even, step }
    }
}

impl<L: Lane> Rows<L> {
    /// The shared values in this plane, from the doubled values in it.
    #[inline(always)]
    pub fn shared_values(self, all_doubled: L, even_doubled: L) -> SharedValues<L>
        ensures all { (l : ℕ) (y : ℕ → ℕ → ℕ) (j : ℕ) → l < L.count
            → AreRows y j (L.word self.row_0 l) (L.word self.row_1 l) (L.word self.row_2 l)
            (L.word self.row_3 l)
            → IsBitPlane (λ q. column_bytes_xor (y 0 q) (y 1 q) (y 2 q) (y 3 q)) j
            (L.word result.all l) }
        ensures even { (l : ℕ) (y : ℕ → ℕ → ℕ) (j : ℕ) → l < L.count
            → AreRows y j (L.word self.row_0 l) (L.word self.row_1 l) (L.word self.row_2 l)
            (L.word self.row_3 l)
            → IsBitPlane (λ q. times_x (column_bytes_xor (y 0 q) (y 1 q) (y 2 q) (y 3 q))) j
            (L.word all_doubled l)
            → IsBitPlane (λ q. even_of (y 0 q) (y 1 q) (y 2 q) (y 3 q)) j (L.word result.even l) }
        ensures step { (l : ℕ) (y : ℕ → ℕ → ℕ) (j : ℕ) → l < L.count
            → AreRows y j (L.word self.row_0 l) (L.word self.row_1 l) (L.word self.row_2 l)
            (L.word self.row_3 l)
            → IsBitPlane (λ q. times_x (even_of (y 0 q) (y 1 q) (y 2 q) (y 3 q))) j
            (L.word even_doubled l)
            → IsBitPlane (λ q. step_of (y 0 q) (y 1 q) (y 2 q) (y 3 q)) j (L.word result.step l) }
    {
        let ends = self.row_0.xor(self.row_2);
        let three = ends.xor(self.row_1);
        let all = three.xor(self.row_3);
        let even = all_doubled.xor(ends);
        let with_first = even_doubled.xor(self.row_0);
        let step = with_first.xor(self.row_1);
        SharedValues { all, even, step }
    }

    /// This plane after InvMixColumns, from the doubled values in it, and the shared values in it.
    #[inline(always)]
    pub fn inv_mixed(self, doubled: SharedValues<L>) -> Mixed<L>
        ensures rows { (l : ℕ) (y : ℕ → ℕ → ℕ) (j : ℕ) → l < L.count → AreBytes y
            → AreRows y j (L.word self.row_0 l) (L.word self.row_1 l) (L.word self.row_2 l)
            (L.word self.row_3 l)
            → AreDoubled y j (L.word doubled.all l) (L.word doubled.even l) (L.word doubled.step l)
            → AreRows (inv_mixed_row y) j (L.word result.rows.row_0 l) (L.word result.rows.row_1 l)
            (L.word result.rows.row_2 l) (L.word result.rows.row_3 l) }
        ensures shared { (l : ℕ) (y : ℕ → ℕ → ℕ) (j : ℕ) → l < L.count
            → AreRows y j (L.word self.row_0 l) (L.word self.row_1 l) (L.word self.row_2 l)
            (L.word self.row_3 l)
            → AreDoubled y j (L.word doubled.all l) (L.word doubled.even l) (L.word doubled.step l)
            → AreShared y j (L.word result.shared.all l) (L.word result.shared.even l)
            (L.word result.shared.step l) }
    {
        let shared = self.shared_values(doubled.all, doubled.even);
        let with_all = doubled.step.xor(shared.all);
        let row_0 = with_all.xor(self.row_0);
        let row_1 = row_0.xor(shared.step);
        let row_2 = row_0.xor(shared.even);
        let with_even = row_1.xor(shared.even);
        let row_3 = with_even.xor(shared.all);
        let rows = Rows {
            row_0,
            row_1,
            row_2,
            row_3,
        };
        Mixed { rows, shared }
    }

    /// AddRoundKey (5.1.4).
    #[inline(always)]
    pub fn keyed(self, key: Rows<L>) -> Rows<L>
        ensures { (l : ℕ) (y z : ℕ → ℕ → ℕ) (j : ℕ) → l < L.count
            → AreRows y j (L.word self.row_0 l) (L.word self.row_1 l) (L.word self.row_2 l)
            (L.word self.row_3 l)
            → AreRows z j (L.word key.row_0 l) (L.word key.row_1 l) (L.word key.row_2 l)
            (L.word key.row_3 l)
            → AreRows (λ r q. y r q ⊕ z r q) j (L.word result.row_0 l) (L.word result.row_1 l)
            (L.word result.row_2 l) (L.word result.row_3 l) }
    {
        let row_0 = self.row_0.xor(key.row_0);
        let row_1 = self.row_1.xor(key.row_1);
        let row_2 = self.row_2.xor(key.row_2);
        let row_3 = self.row_3.xor(key.row_3);
        Rows {
            row_0,
            row_1,
            row_2,
            row_3,
        }
    }

    /// InvShiftRows (5.3.1).
    #[inline(always)]
    pub fn inv_shifted(self) -> Rows<L>
        ensures { (l : ℕ) (y : ℕ → ℕ → ℕ) (j : ℕ) → l < L.count
            → AreRows y j (L.word self.row_0 l) (L.word self.row_1 l) (L.word self.row_2 l)
            (L.word self.row_3 l)
            → AreRows (λ r q. y r (rotated_index r q)) j (L.word result.row_0 l)
            (L.word result.row_1 l) (L.word result.row_2 l) (L.word result.row_3 l) }
    {
        let row_1 = self.row_1.rotated(Columns::One);
        let row_2 = self.row_2.rotated(Columns::Two);
        let row_3 = self.row_3.rotated(Columns::Three);
        Rows {
            row_0: self.row_0,
            row_1,
            row_2,
            row_3,
        }
    }
}
