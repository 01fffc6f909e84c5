//! The transposition of eight words of bytes to eight bit planes, and back.

ghost use Rattle.std.specs.Prelude.{◌≡◌, ◌<◌, ◌+◌, ◌*◌, ℕ, slice_index};
ghost use Rattle.std.specs.Int.{bit_at};
ghost use Rattle.luks_aes.specs.Runs.{run_bits, low_mask, swapped_low, swapped_high};

/// The runs of bits that two words exchange in one step: the upper runs of the first for the lower
/// runs of the second.
#[derive(Clone, Copy, Drop)]
enum Run {
    Bit,
    Pair,
    Nibble,
}

impl Run {
    /// The number of bits in a run.
    #[inline(always)]
    fn bits(self) -> u32
        ensures value { result ≡ run_bits self }
        ensures range { result < 8 }
    {
        match self {
            Run::Bit => 1,
            Run::Pair => 2,
            Run::Nibble => 4,
        }
    }

    /// The mask of the lower runs: every other run of a word, from the lowest bit on.
    #[inline(always)]
    fn low_mask(self) -> u64
        ensures { result ≡ low_mask self }
    {
        match self {
            Run::Bit => 0x5555_5555_5555_5555,
            Run::Pair => 0x3333_3333_3333_3333,
            Run::Nibble => 0x0f0f_0f0f_0f0f_0f0f,
        }
    }

    /// Exchanges the upper runs of `a` for the lower runs of `b`.
    #[inline(always)]
    fn exchanged(self, a: u64, b: u64) -> (u64, u64)
        ensures low { (q : ℕ) → q < 64
            → bit_at result.0 q ≡ swapped_low (run_bits self) (bit_at a) (bit_at b) q }
        ensures high { (q : ℕ) → q < 64
            → bit_at result.1 q ≡ swapped_high (run_bits self) (bit_at a) (bit_at b) q }
    {
        let moved = ((a >> self.bits()) ^ b) & self.low_mask();
        let high = b ^ moved;
        (a ^ (moved << self.bits()), high)
    }
}

/// Bit k of a byte of word j becomes bit j of that byte of word k (an involution).
#[inline(always)]
pub(crate) fn transposed(x: [u64; 8]) -> [u64; 8]
    ensures { (j p k : ℕ) → j < 8 → p < 8 → k < 8
        → bit_at (slice_index result j) (8 * p + k) ≡ bit_at (slice_index x k) (8 * p + j) }
{
    let (a0, a1) = Run::Bit.exchanged(x[0], x[1]);
    let (a2, a3) = Run::Bit.exchanged(x[2], x[3]);
    let (a4, a5) = Run::Bit.exchanged(x[4], x[5]);
    let (a6, a7) = Run::Bit.exchanged(x[6], x[7]);
    let (b0, b2) = Run::Pair.exchanged(a0, a2);
    let (b1, b3) = Run::Pair.exchanged(a1, a3);
    let (b4, b6) = Run::Pair.exchanged(a4, a6);
    let (b5, b7) = Run::Pair.exchanged(a5, a7);
    let (c0, c4) = Run::Nibble.exchanged(b0, b4);
    let (c1, c5) = Run::Nibble.exchanged(b1, b5);
    let (c2, c6) = Run::Nibble.exchanged(b2, b6);
    let (c3, c7) = Run::Nibble.exchanged(b3, b7);
    [c0, c1, c2, c3, c4, c5, c6, c7]
}
