//! The bitsliced states of a batch of blocks.

ghost use Rattle.std.specs.Prelude.{◌≡◌, ◌+◌, ◌*◌, ◌<◌, ℕ, length, slice_index};
ghost use Rattle.std.specs.Int.{bit_at};
ghost use Rattle.luks_aes.specs.Field.{◌⊕◌};
ghost use Rattle.luks_aes.specs.Aes.{inv_sbox};
ghost use Rattle.luks_aes.specs.BitPlanes.{HoldBytes};
ghost use Rattle.luks_aes.specs.Words.{words_at};

use crate::batch::circuit::inv_sbox_circuit;
use crate::batch::planes::BitPlane;
use crate::batch::transpose::transposed;

/// The states of 4 * `WORDS` blocks, as eight bit planes. `specs/Words.antt` says which byte a bit
/// belongs to.
#[derive(Clone, Copy, Drop)]
pub struct BitslicedState<const WORDS: usize> {
    pub plane_0: BitPlane<WORDS>,
    pub plane_1: BitPlane<WORDS>,
    pub plane_2: BitPlane<WORDS>,
    pub plane_3: BitPlane<WORDS>,
    pub plane_4: BitPlane<WORDS>,
    pub plane_5: BitPlane<WORDS>,
    pub plane_6: BitPlane<WORDS>,
    pub plane_7: BitPlane<WORDS>,
}

impl<const WORDS: usize> BitslicedState<WORDS> {
    /// The state of zeros.
    #[inline(always)]
    pub fn zero() -> BitslicedState<WORDS> {
        BitslicedState {
            plane_0: BitPlane { words: [0; WORDS] },
            plane_1: BitPlane { words: [0; WORDS] },
            plane_2: BitPlane { words: [0; WORDS] },
            plane_3: BitPlane { words: [0; WORDS] },
            plane_4: BitPlane { words: [0; WORDS] },
            plane_5: BitPlane { words: [0; WORDS] },
            plane_6: BitPlane { words: [0; WORDS] },
            plane_7: BitPlane { words: [0; WORDS] },
        }
    }

    // The lengths of all bit planes, for the prover.
    #[inline(always)]
    fn is_whole(&self)
        ensures plane_0 { length self.now.plane_0.words ≡ WORDS }
        ensures plane_1 { length self.now.plane_1.words ≡ WORDS }
        ensures plane_2 { length self.now.plane_2.words ≡ WORDS }
        ensures plane_3 { length self.now.plane_3.words ≡ WORDS }
        ensures plane_4 { length self.now.plane_4.words ≡ WORDS }
        ensures plane_5 { length self.now.plane_5.words ≡ WORDS }
        ensures plane_6 { length self.now.plane_6.words ≡ WORDS }
        ensures plane_7 { length self.now.plane_7.words ≡ WORDS }
    {
        self.plane_0.is_whole();
        self.plane_1.is_whole();
        self.plane_2.is_whole();
        self.plane_3.is_whole();
        self.plane_4.is_whole();
        self.plane_5.is_whole();
        self.plane_6.is_whole();
        self.plane_7.is_whole();
    }

    // Word `i` of each bit plane.
    #[inline(always)]
    fn words_at(&self, i: usize) -> [u64; 8]
        requires { i < WORDS }
        ensures { result ≡ words_at i self.now }
    {
        self.is_whole();
        [
            self.plane_0.words[i],
            self.plane_1.words[i],
            self.plane_2.words[i],
            self.plane_3.words[i],
            self.plane_4.words[i],
            self.plane_5.words[i],
            self.plane_6.words[i],
            self.plane_7.words[i],
        ]
    }

    // Writes word `i` of each bit plane.
    #[inline(always)]
    fn put_words(&mut self, i: usize, words: [u64; 8])
        requires { i < WORDS }
        ensures here { words_at i self.new ≡ words }
        ensures others { (k : ℕ) → (k ≡ i → ⊥) → words_at k self.new ≡ words_at k self.old }
    {
        self.is_whole();
        self.plane_0.words[i] = words[0];
        self.plane_1.words[i] = words[1];
        self.plane_2.words[i] = words[2];
        self.plane_3.words[i] = words[3];
        self.plane_4.words[i] = words[4];
        self.plane_5.words[i] = words[5];
        self.plane_6.words[i] = words[6];
        self.plane_7.words[i] = words[7];
    }

    /// InvSubBytes (FIPS 197, 5.3.2) on bytes with 0x63 XORed into them. (The compiler makes
    /// vectors of the words, as wide as the processor has them.)
    #[inline(never)]
    pub fn inv_sub_bytes(&mut self)
        ensures { (i : ℕ) (y : ℕ → ℕ) → i < WORDS → HoldBytes y (words_at i self.old)
            → HoldBytes (λ q. inv_sbox (y q ⊕ 0x63)) (words_at i self.new) }
    {
        for i in 0..WORDS {
            self.put_words(i, inv_sbox_circuit(self.words_at(i)));
        }
    }

    /// Bit k of a byte of bit plane j becomes bit j of that byte of bit plane k (an involution).
    #[inline(never)]
    pub fn transpose(&mut self)
        ensures { (i j p k : ℕ) → i < WORDS → j < 8 → p < 8 → k < 8
            → bit_at (slice_index (words_at i self.new) j) (8 * p + k)
            ≡ bit_at (slice_index (words_at i self.old) k) (8 * p + j) }
    {
        for i in 0..WORDS {
            self.put_words(i, transposed(self.words_at(i)));
        }
    }
}
