//! The round keys of the equivalent inverse cipher (FIPS 197, 5.3.5).

ghost use Rattle.std.specs.Prelude.{◌≡◌, ◌+◌, ◌*◌, ◌≤◌, [], ◌∷◌, length};
ghost use Rattle.luks_aes.specs.Aes.{word_at};
ghost use Rattle.luks_aes.specs.Columns.{column_product, IsMultiplied};

use crate::key_expansion::MAX_SCHEDULE_LEN;
use crate::mix_columns::inv_mixed;
use crate::sbox::sbox;

// Word `i` of the schedule after InvMixColumns: the S-box undoes the inverse S-box of the table.
fn inv_mixed_word(schedule: &[u8; MAX_SCHEDULE_LEN], i: usize) -> [u8; 4]
    requires { 4 * i + 4 ≤ MAX_SCHEDULE_LEN }
    ensures { result ≡ column_product (14 ∷ 11 ∷ 13 ∷ 9 ∷ []) (word_at schedule.now i) }
{
    let at = 4 * i;
    inv_mixed(
        sbox(schedule[at]),
        sbox(schedule[at + 1]),
        sbox(schedule[at + 2]),
        sbox(schedule[at + 3]),
    )
    .to_le_bytes()
}

// Writes word `i`.
fn write_inv_mixed(schedule: &[u8; MAX_SCHEDULE_LEN], inv_mixed: &mut [u8], i: usize)
    requires capacity { 4 * i + 4 ≤ MAX_SCHEDULE_LEN }
    requires before { (length inv_mixed.old ≡ MAX_SCHEDULE_LEN)
        × IsMultiplied (14 ∷ 11 ∷ 13 ∷ 9 ∷ []) schedule.now inv_mixed.old i }
    ensures { IsMultiplied (14 ∷ 11 ∷ 13 ∷ 9 ∷ []) schedule.now inv_mixed.new (i + 1) }
{
    let at = 4 * i;
    inv_mixed[at..at + 4].copy_from_slice(&inv_mixed_word(schedule, i));
}

/// Each word of the schedule after InvMixColumns.
pub fn inv_mixed_words(schedule: &[u8; MAX_SCHEDULE_LEN]) -> [u8; MAX_SCHEDULE_LEN]
    ensures { IsMultiplied (14 ∷ 11 ∷ 13 ∷ 9 ∷ []) schedule.now result 60 }
{
    let mut inv_mixed = [0; MAX_SCHEDULE_LEN];
    for i in 0..MAX_SCHEDULE_LEN / 4 {
        write_inv_mixed(schedule, &mut inv_mixed, i);
    }
    inv_mixed
}
