//! A state as four columns, each a word of 32 bits, and the steps of its rounds.

ghost use Rattle.std.specs.Prelude.{◌≡◌, ◌+◌, ◌*◌, ◌≤◌, length, slice_index};
ghost use Rattle.std.specs.Int.{w32, to_le_bytes};
ghost use Rattle.luks_aes.specs.Aes.{word_of, word_xor, sub_bytes, shift_rows, mix_columns};
ghost use Rattle.luks_aes.specs.Aes.{add_round_key, inv_shift_rows, inv_sub_bytes, inv_mix_columns};
ghost use Rattle.luks_aes.specs.Columns.{bytes_of_words};

use crate::mix_columns::{inv_mixed, mixed};

// The column of the 4 bytes from index `at` on.
#[inline(always)]
fn column_from(bytes: &[u8], at: usize) -> u32
    requires { at + 4 ≤ length bytes.now }
    ensures { to_le_bytes w32 result ≡ word_of (λ r. slice_index bytes.now (r + at)) }
{
    u32::from_le_bytes([bytes[at], bytes[at + 1], bytes[at + 2], bytes[at + 3]])
}

/// The columns of a block.
#[inline(always)]
pub fn columns_of(block: [u8; 16]) -> [u32; 4]
    ensures { bytes_of_words result ≡ block }
{
    [
        column_from(&block, 0),
        column_from(&block, 4),
        column_from(&block, 8),
        column_from(&block, 12),
    ]
}

/// The bytes of four columns.
#[inline(always)]
pub fn bytes_of(s: [u32; 4]) -> [u8; 16]
    ensures { result ≡ bytes_of_words s }
{
    let a = s[0].to_le_bytes();
    let b = s[1].to_le_bytes();
    let c = s[2].to_le_bytes();
    let d = s[3].to_le_bytes();
    [
        a[0], a[1], a[2], a[3], b[0], b[1], b[2], b[3], c[0], c[1], c[2], c[3], d[0], d[1], d[2],
        d[3],
    ]
}

// XOR of two columns.
#[inline(always)]
fn column_xor(a: u32, b: u32) -> u32
    ensures { to_le_bytes w32 result ≡ word_xor (to_le_bytes w32 a) (to_le_bytes w32 b) }
{
    a ^ b
}

/// AddRoundKey (5.1.4).
#[inline(always)]
pub fn with_round_key(s: [u32; 4], schedule: &[u8], round: usize) -> [u32; 4]
    requires { 16 * round + 16 ≤ length schedule.now }
    ensures { bytes_of_words result ≡ add_round_key (bytes_of_words s) schedule.now round }
{
    let at = 16 * round;
    [
        column_xor(s[0], column_from(schedule, at)),
        column_xor(s[1], column_from(schedule, at + 4)),
        column_xor(s[2], column_from(schedule, at + 8)),
        column_xor(s[3], column_from(schedule, at + 12)),
    ]
}

/// SubBytes, ShiftRows and MixColumns (5.1.1 to 5.1.3).
#[inline(always)]
pub fn mixed_columns(s: [u32; 4]) -> [u32; 4]
    ensures { bytes_of_words result ≡ mix_columns (shift_rows (sub_bytes (bytes_of_words s))) }
{
    let a = s[0].to_le_bytes();
    let b = s[1].to_le_bytes();
    let c = s[2].to_le_bytes();
    let d = s[3].to_le_bytes();
    [
        mixed(a[0], b[1], c[2], d[3]),
        mixed(b[0], c[1], d[2], a[3]),
        mixed(c[0], d[1], a[2], b[3]),
        mixed(d[0], a[1], b[2], c[3]),
    ]
}

/// InvShiftRows, InvSubBytes and InvMixColumns (5.3.1 to 5.3.3).
#[inline(always)]
pub fn inv_mixed_columns(s: [u32; 4]) -> [u32; 4]
    ensures { bytes_of_words result ≡ inv_mix_columns (inv_sub_bytes (inv_shift_rows
        (bytes_of_words s))) }
{
    let a = s[0].to_le_bytes();
    let b = s[1].to_le_bytes();
    let c = s[2].to_le_bytes();
    let d = s[3].to_le_bytes();
    [
        inv_mixed(a[0], d[1], c[2], b[3]),
        inv_mixed(b[0], a[1], d[2], c[3]),
        inv_mixed(c[0], b[1], a[2], d[3]),
        inv_mixed(d[0], c[1], b[2], a[3]),
    ]
}
