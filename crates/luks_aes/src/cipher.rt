//! The cipher and the equivalent inverse cipher (FIPS 197, 5.1 and 5.3.5).

ghost use Rattle.std.specs.Prelude.{◌≡◌, ◌+◌, ◌*◌, ◌<◌, ◌≤◌, [], ◌∷◌, length};
ghost use Rattle.luks_aes.specs.Aes.{cipher, inv_cipher};
ghost use Rattle.luks_aes.specs.Bytes.{IsBytes};
ghost use Rattle.luks_aes.specs.Columns.{IsMultiplied};

use crate::columns::{bytes_of, columns_of, inv_mixed_columns, mixed_columns, with_round_key};
use crate::state::{inv_shift_rows_and_sub_bytes, sub_bytes_and_shift_rows};

/// The block after `rounds` rounds with the round keys of the schedule.
pub fn cipher(block: [u8; 16], rounds: usize, schedule: &[u8]) -> [u8; 16]
    requires some { 0 < rounds }
    requires words { length schedule.now ≡ 16 * (rounds + 1) }
    ensures { result ≡ cipher block rounds schedule.now }
{
    let mut state = with_round_key(columns_of(block), schedule, 0);
    for round in 1..rounds {
        let mixed = mixed_columns(state);
        state = with_round_key(mixed, schedule, round);
    }
    let last = bytes_of(state);
    let shifted = columns_of(sub_bytes_and_shift_rows(last));
    let keyed = with_round_key(shifted, schedule, rounds);
    bytes_of(keyed)
}

/// The block whose cipher under the same round keys is `block`. `inv_mixed` has each word of the
/// schedule after InvMixColumns.
pub fn inv_cipher(block: [u8; 16], rounds: usize, schedule: &[u8], inv_mixed: &[u8]) -> [u8; 16]
    requires some { 0 < rounds }
    requires words { length schedule.now ≡ 16 * (rounds + 1) }
    requires same { length inv_mixed.now ≡ length schedule.now }
    requires products { IsMultiplied (14 ∷ 11 ∷ 13 ∷ 9 ∷ []) schedule.now inv_mixed.now
        (4 * (rounds + 1)) }
    ensures { result ≡ inv_cipher block rounds schedule.now }
{
    let mut state = with_round_key(columns_of(block), schedule, rounds);
    for round in (1..rounds).rev() {
        let substituted = inv_mixed_columns(state);
        state = with_round_key(substituted, inv_mixed, round);
    }
    let last = bytes_of(state);
    let shifted = columns_of(inv_shift_rows_and_sub_bytes(last));
    let keyed = with_round_key(shifted, schedule, 0);
    bytes_of(keyed)
}
