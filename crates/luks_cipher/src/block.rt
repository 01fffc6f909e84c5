//! Blocks of 16 bytes, and batches of them.

ghost use Rattle.std.specs.Prelude.{◌≡◌, ◌*◌, ◌%◌, ◌≤◌, length, nat_lt, if◌then◌else◌};
ghost use Rattle.luks_cipher.specs.Xts.{block_xor};

use std::simd::prelude::*;

/// XOR of two blocks, byte by byte.
#[inline(always)]
pub fn block_xor(a: [u8; 16], b: [u8; 16]) -> [u8; 16]
    ensures { result ≡ block_xor a b }
{
    let mut xored = [0; 16];
    for i in 0..16 {
        xored[i] = a[i] ^ b[i];
    }
    xored
}

/// The 16 bytes of the slice as a block.
#[inline(always)]
pub fn block_of(piece: &[u8]) -> [u8; 16]
    requires { length piece.now ≡ 16 }
    ensures { result ≡ piece.now }
{
    let mut block = [0; 16];
    block.copy_from_slice(piece);
    block
}

/// XORs the vector into the 16 bytes of the slice.
#[inline(always)]
pub fn xor_vector(vector: u8x16, piece: &mut [u8])
    requires { length piece.old ≡ 16 }
    ensures { piece.new ≡ block_xor piece.old vector }
{
    let xored = u8x16::from_slice(piece) ^ vector;
    xored.copy_to_slice(piece);
}

/// The number of blocks in the next batch, if so many are left: 64, or 32 if there are fewer.
pub fn batch_size(left: usize) -> usize
    requires { 32 ≤ left }
    ensures value { result ≡ (if nat_lt left 64 then 32 else 64) }
    ensures within { result ≤ left }
    ensures whole { 16 * result % 512 ≡ 0 }
    ensures least { 32 ≤ result }
    ensures most { result ≤ 64 }
{
    if left < 64 { 32 } else { 64 }
}
