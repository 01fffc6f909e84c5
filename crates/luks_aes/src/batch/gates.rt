//! Gates on words of 64 bits. In a loop over words they compile to gates on vectors, as wide as the
//! processor has them.

ghost use Rattle.std.specs.Prelude.{◌≡◌, bit_and, bit_or, bit_xor};

/// XOR of the bits.
#[inline(always)]
pub(crate) fn xor(a: u64, b: u64) -> u64
    ensures { result ≡ bit_xor a b }
{
    a ^ b
}

/// AND of the bits.
#[inline(always)]
pub(crate) fn and(a: u64, b: u64) -> u64
    ensures { result ≡ bit_and a b }
{
    a & b
}

/// OR of the bits.
#[inline(always)]
pub(crate) fn or(a: u64, b: u64) -> u64
    ensures { result ≡ bit_or a b }
{
    a | b
}

/// The bits of `b` that are not set in `a`.
#[inline(always)]
pub(crate) fn andn(a: u64, b: u64) -> u64
    ensures { result ≡ bit_xor (bit_and a b) b }
{
    (a & b) ^ b
}
