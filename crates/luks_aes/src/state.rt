//! The transformations of a state in the last round (FIPS 197, 5.1 and 5.3). Byte `i` of a state
//! is in row `i % 4` and column `i / 4`.

ghost use Rattle.std.specs.Prelude.{◌≡◌};
ghost use Rattle.luks_aes.specs.Aes.{sub_bytes, shift_rows, inv_shift_rows, inv_sub_bytes};

use crate::sbox::{inv_sbox, sbox};

/// SubBytes (5.1.1) and ShiftRows: row r rotates left by r columns (5.1.2).
pub fn sub_bytes_and_shift_rows(s: [u8; 16]) -> [u8; 16]
    ensures { result ≡ shift_rows (sub_bytes s) }
{
    [
        sbox(s[0]),
        sbox(s[5]),
        sbox(s[10]),
        sbox(s[15]),
        sbox(s[4]),
        sbox(s[9]),
        sbox(s[14]),
        sbox(s[3]),
        sbox(s[8]),
        sbox(s[13]),
        sbox(s[2]),
        sbox(s[7]),
        sbox(s[12]),
        sbox(s[1]),
        sbox(s[6]),
        sbox(s[11]),
    ]
}

/// InvShiftRows: row r rotates right by r columns (5.3.1), and InvSubBytes (5.3.2).
pub fn inv_shift_rows_and_sub_bytes(s: [u8; 16]) -> [u8; 16]
    ensures { result ≡ inv_sub_bytes (inv_shift_rows s) }
{
    [
        inv_sbox(s[0]),
        inv_sbox(s[13]),
        inv_sbox(s[10]),
        inv_sbox(s[7]),
        inv_sbox(s[4]),
        inv_sbox(s[1]),
        inv_sbox(s[14]),
        inv_sbox(s[11]),
        inv_sbox(s[8]),
        inv_sbox(s[5]),
        inv_sbox(s[2]),
        inv_sbox(s[15]),
        inv_sbox(s[12]),
        inv_sbox(s[9]),
        inv_sbox(s[6]),
        inv_sbox(s[3]),
    ]
}
