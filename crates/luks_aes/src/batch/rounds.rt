//! The rounds of the equivalent inverse cipher (FIPS 197, 5.3.5) on bitsliced states. InvShiftRows
//! of a round is done at the end of the round before it.

ghost use Rattle.std.specs.Prelude.{◌≡◌, ◌%◌, ◌≤◌, ℕ, List};
ghost use Rattle.luks_aes.specs.Aes.{inv_shift_rows, inv_sub_bytes, inv_mix_columns};
ghost use Rattle.luks_aes.specs.Aes.{add_round_key};
ghost use Rattle.luks_aes.specs.Bytes.{IsBytes};
ghost use Rattle.luks_aes.specs.Blocks.{RepresentStates, RepresentRotated};
ghost use Rattle.luks_aes.specs.RoundKeys.{HasRoundKey, HasInvMixedKey};

use crate::batch::round_key::RoundKey;
use crate::batch::state::BitslicedState;

impl<const WORDS: usize> BitslicedState<WORDS> {
    /// AddRoundKey before the first round, and InvShiftRows of the first round.
    #[inline(always)]
    pub fn start_rounds(&mut self, key: &RoundKey)
        requires whole { WORDS % 4 ≡ 0 }
        requires most { WORDS ≤ 16 }
        ensures { (s : ℕ → List ℕ) (w : List ℕ) (n : ℕ) → ((m : ℕ) → IsBytes (s m)) → IsBytes w
            → RepresentStates s 0 self.old → HasRoundKey w n 0x63 key.now
            → RepresentRotated (λ m. add_round_key (s m) w n) self.new }
    {
        self.add_key(key);
        self.inv_shift_rows();
    }

    /// One of the equal rounds.
    #[inline(always)]
    pub fn inv_round(&mut self, key: &RoundKey)
        requires whole { WORDS % 4 ≡ 0 }
        requires most { WORDS ≤ 16 }
        ensures { (t : ℕ → List ℕ) (w : List ℕ) (n : ℕ) → ((m : ℕ) → IsBytes (t m)) → IsBytes w
            → RepresentRotated t self.old → HasInvMixedKey w n 0x63 key.now
            → RepresentRotated
            (λ m. inv_mix_columns (add_round_key (inv_sub_bytes (inv_shift_rows (t m))) w n))
            self.new }
    {
        self.inv_sub_bytes();
        self.inv_mix_columns(key);
    }

    /// The last round, without InvMixColumns.
    #[inline(always)]
    pub fn end_rounds(&mut self, key: &RoundKey)
        requires whole { WORDS % 4 ≡ 0 }
        requires most { WORDS ≤ 16 }
        ensures { (t : ℕ → List ℕ) (w : List ℕ) (n : ℕ) → ((m : ℕ) → IsBytes (t m)) → IsBytes w
            → RepresentRotated t self.old → HasRoundKey w n 0 key.now
            → RepresentStates (λ m. add_round_key (inv_sub_bytes (inv_shift_rows (t m))) w n) 0
            self.new }
    {
        self.inv_sub_bytes();
        self.add_key(key);
    }
}
