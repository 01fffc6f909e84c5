//! A bitsliced round key, as plain numbers, which another program can keep.

ghost use Rattle.std.specs.Prelude.{◌≡◌, ◌+◌, ◌*◌, ◌/◌, ◌<◌, ◌≤◌, ℕ, length, slice_index};

use crate::batch::inv_mix_columns::Rows;
use crate::batch::lane::Lane;

/// One bit plane of a round key, for four groups of blocks: one bit of each byte.
#[repr(C)]
#[derive(Clone, Copy, Drop)]
pub struct KeyPlane {
    pub words: [u64; 16],
}

/// A round key, bitsliced for four groups, and the same for each.
#[repr(C)]
#[derive(Clone, Copy, Drop)]
pub struct RoundKey {
    pub plane_0: KeyPlane,
    pub plane_1: KeyPlane,
    pub plane_2: KeyPlane,
    pub plane_3: KeyPlane,
    pub plane_4: KeyPlane,
    pub plane_5: KeyPlane,
    pub plane_6: KeyPlane,
    pub plane_7: KeyPlane,
}

impl KeyPlane {
    /// The prover knows the length of an array in one struct, but not of all in a struct of
    /// structs.
    #[inline(always)]
    pub(crate) fn is_whole(&self)
        ensures { length self.now.words ≡ 16 }
    {}

    /// The rows, from group `g` on.
    #[inline(always)]
    pub(crate) fn rows<L: Lane>(&self, g: usize) -> Rows<L>
        requires { g + L.count ≤ 4 }
        ensures row_0 { (l : ℕ) → l < L.count
            → L.word result.row_0 l ≡ slice_index self.now.words (16 / 4 * 0 + (g + l)) }
        ensures row_1 { (l : ℕ) → l < L.count
            → L.word result.row_1 l ≡ slice_index self.now.words (16 / 4 * 1 + (g + l)) }
        ensures row_2 { (l : ℕ) → l < L.count
            → L.word result.row_2 l ≡ slice_index self.now.words (16 / 4 * 2 + (g + l)) }
        ensures row_3 { (l : ℕ) → l < L.count
            → L.word result.row_3 l ≡ slice_index self.now.words (16 / 4 * 3 + (g + l)) }
    {
        self.is_whole();
        let row_0 = L::load(&self.words, g);
        let row_1 = L::load(&self.words, 4 + g);
        let row_2 = L::load(&self.words, 8 + g);
        let row_3 = L::load(&self.words, 12 + g);
        Rows {
            row_0,
            row_1,
            row_2,
            row_3,
        }
    }
}
