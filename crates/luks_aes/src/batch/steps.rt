//! The steps of the equivalent inverse cipher (FIPS 197, 5.3.5) on bitsliced states.

ghost use Rattle.std.specs.Prelude.{◌≡◌, ◌+◌, ◌/◌, ◌%◌, ◌<◌, ◌≤◌, ℕ};
ghost use Rattle.luks_aes.specs.Field.{◌⊕◌};
ghost use Rattle.luks_aes.specs.BitPlanes.{rotated_index};
ghost use Rattle.luks_aes.specs.Words.{GroupHolds, GroupsHold, SameGroup};
ghost use Rattle.luks_aes.specs.RoundKeys.{state_of_key};
ghost use Rattle.luks_aes.specs.Mixing.{AreShared, mixed_and_shifted};

use crate::batch::inv_mix_columns::SharedValues;
use crate::batch::lane::Lane;
use crate::batch::round_key::RoundKey;
use crate::batch::state::BitslicedState;
use std::simd::prelude::*;

impl<const WORDS: usize> BitslicedState<WORDS> {
    // AddRoundKey on one group.
    #[inline(always)]
    fn add_key_to(&mut self, key: &RoundKey, g: usize)
        requires whole { WORDS % 4 ≡ 0 }
        requires most { WORDS ≤ 16 }
        requires inside { g < WORDS / 4 }
        ensures here { (y z : ℕ → ℕ → ℕ) → GroupHolds y g self.old
            → GroupsHold (λ g. z) (state_of_key key.now)
            → GroupHolds (λ r q. y r q ⊕ z r q) g self.new }
        ensures below { (i : ℕ) → i < g → SameGroup i self.new self.old }
        ensures above { (i : ℕ) → g + 1 ≤ i → i < WORDS / 4 → SameGroup i self.new self.old }
    {
        self.plane_0.add_key(&key.plane_0, g);
        self.plane_1.add_key(&key.plane_1, g);
        self.plane_2.add_key(&key.plane_2, g);
        self.plane_3.add_key(&key.plane_3, g);
        self.plane_4.add_key(&key.plane_4, g);
        self.plane_5.add_key(&key.plane_5, g);
        self.plane_6.add_key(&key.plane_6, g);
        self.plane_7.add_key(&key.plane_7, g);
    }

    /// AddRoundKey (5.1.4).
    #[inline(always)]
    pub fn add_key(&mut self, key: &RoundKey)
        requires whole { WORDS % 4 ≡ 0 }
        requires most { WORDS ≤ 16 }
        ensures { (y : ℕ → ℕ → ℕ → ℕ) (z : ℕ → ℕ → ℕ) → GroupsHold y self.old
            → GroupsHold (λ g. z) (state_of_key key.now)
            → GroupsHold (λ g r q. y g r q ⊕ z r q) self.new }
    {
        for g in 0..WORDS / 4 {
            self.add_key_to(key, g);
        }
    }

    // InvShiftRows on one group.
    #[inline(always)]
    fn inv_shift_rows_of(&mut self, g: usize)
        requires whole { WORDS % 4 ≡ 0 }
        requires inside { g < WORDS / 4 }
        ensures here { (y : ℕ → ℕ → ℕ) → GroupHolds y g self.old
            → GroupHolds (λ r q. y r (rotated_index r q)) g self.new }
        ensures below { (i : ℕ) → i < g → SameGroup i self.new self.old }
        ensures above { (i : ℕ) → g + 1 ≤ i → i < WORDS / 4 → SameGroup i self.new self.old }
    {
        self.plane_0.inv_shift_rows(g);
        self.plane_1.inv_shift_rows(g);
        self.plane_2.inv_shift_rows(g);
        self.plane_3.inv_shift_rows(g);
        self.plane_4.inv_shift_rows(g);
        self.plane_5.inv_shift_rows(g);
        self.plane_6.inv_shift_rows(g);
        self.plane_7.inv_shift_rows(g);
    }

    /// InvShiftRows (5.3.1).
    #[inline(always)]
    pub fn inv_shift_rows(&mut self)
        requires { WORDS % 4 ≡ 0 }
        ensures { (y : ℕ → ℕ → ℕ → ℕ) → GroupsHold y self.old
            → GroupsHold (λ g r q. y g r (rotated_index r q)) self.new }
    {
        for g in 0..WORDS / 4 {
            self.inv_shift_rows_of(g);
        }
    }

    // The shared values in plane 7, which depend on those in planes 5 and 6.
    #[inline(always)]
    fn top_shared_values<L: Lane>(&self, g: usize) -> SharedValues<L>
        requires whole { WORDS % 4 ≡ 0 }
        requires inside { g + L.count ≤ WORDS / 4 }
        ensures { (l : ℕ) (y : ℕ → ℕ → ℕ) → l < L.count → GroupHolds y (g + l) self.now
            → AreShared y 7 (L.word result.all l) (L.word result.even l) (L.word result.step l) }
    {
        let lowest = self.plane_5.rows(g);
        let below = lowest.shared_values(lowest.row_0, lowest.row_0);
        let middle = self.plane_6.rows(g).shared_values(below.all, lowest.row_0);
        self.plane_7.rows(g).shared_values(middle.all, middle.even)
    }

    // InvMixColumns, AddRoundKey and InvShiftRows from group `g` on.
    #[inline(always)]
    fn inv_mix_columns_of<L: Lane>(&mut self, key: &RoundKey, g: usize)
        requires whole { WORDS % 4 ≡ 0 }
        requires most { WORDS ≤ 16 }
        requires inside { g + L.count ≤ WORDS / 4 }
        ensures here { (l : ℕ) (y z : ℕ → ℕ → ℕ) → l < L.count → GroupHolds y (g + l) self.old
            → GroupsHold (λ g. z) (state_of_key key.now)
            → GroupHolds (mixed_and_shifted y z) (g + l) self.new }
        ensures below { (i : ℕ) → i < g → SameGroup i self.new self.old }
        ensures above { (i : ℕ) → g + L.count ≤ i → i < WORDS / 4
            → SameGroup i self.new self.old }
    {
        let top: SharedValues<L> = self.top_shared_values(g);
        let shared_0 = self.plane_0.inv_mix_columns(&key.plane_0, g, top);
        let doubled_1 = shared_0.reduced(top);
        let shared_1 = self.plane_1.inv_mix_columns(&key.plane_1, g, doubled_1);
        let shared_2 = self.plane_2.inv_mix_columns(&key.plane_2, g, shared_1);
        let doubled_3 = shared_2.reduced(top);
        let shared_3 = self.plane_3.inv_mix_columns(&key.plane_3, g, doubled_3);
        let doubled_4 = shared_3.reduced(top);
        let shared_4 = self.plane_4.inv_mix_columns(&key.plane_4, g, doubled_4);
        let shared_5 = self.plane_5.inv_mix_columns(&key.plane_5, g, shared_4);
        let shared_6 = self.plane_6.inv_mix_columns(&key.plane_6, g, shared_5);
        self.plane_7.inv_mix_columns(&key.plane_7, g, shared_6);
    }

    /// InvMixColumns (5.3.3), AddRoundKey with a round key that is itself after InvMixColumns, and
    /// InvShiftRows. (Vectors of two words are faster for 32 blocks. For 64 the compiler makes
    /// vectors of the words, as wide as the processor has them.)
    #[inline(always)]
    pub fn inv_mix_columns(&mut self, key: &RoundKey)
        requires whole { WORDS % 4 ≡ 0 }
        requires most { WORDS ≤ 16 }
        ensures { (y : ℕ → ℕ → ℕ → ℕ) (z : ℕ → ℕ → ℕ) → GroupsHold y self.old
            → GroupsHold (λ g. z) (state_of_key key.now)
            → GroupsHold (λ g. mixed_and_shifted (y g) z) self.new }
    {
        if WORDS == 8 {
            self.inv_mix_columns_of::<u64x2>(key, 0);
        } else {
            for g in 0..WORDS / 4 {
                self.inv_mix_columns_of::<u64>(key, g);
            }
        }
    }
}
