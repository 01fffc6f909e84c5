//! The key schedule (FIPS 197, 5.2): a list of words of 4 bytes that starts with the key.

ghost use Rattle.std.specs.Prelude.{◌≡◌, ◌+◌, ◌*◌, ◌/◌, ◌<◌, ◌≤◌, take, length, IsTrue};
ghost use Rattle.luks_aes.specs.Aes.{word_at, word_xor, rot_word, sub_word, round_constant};
ghost use Rattle.luks_aes.specs.Aes.{next_word, with_next_word, rounds_of, key_expansion};
ghost use Rattle.luks_aes.specs.Aes.{is_aes_key_length};

use crate::field::power_of_x;
use crate::sbox::sbox;

/// The length in bytes of the longest schedule, that of a key of 32 bytes.
pub const MAX_SCHEDULE_LEN: usize = 240;

// For a key of more words than this, the word halfway between two rotated ones is substituted too.
const PLAIN_WORDS: usize = 6;

// Word `i` of the schedule.
fn word_at(schedule: &[u8], i: usize) -> [u8; 4]
    requires { 4 * i + 4 ≤ length schedule.now }
    ensures { result ≡ word_at schedule.now i }
{
    let at = 4 * i;
    [
        schedule[at],
        schedule[at + 1],
        schedule[at + 2],
        schedule[at + 3],
    ]
}

// XOR of two words.
#[tactic(auto, unfolding(crate::specs::Aes::word_xor))]
fn word_xor(a: [u8; 4], b: [u8; 4]) -> [u8; 4]
    ensures { result ≡ word_xor a b }
{
    [a[0] ^ b[0], a[1] ^ b[1], a[2] ^ b[2], a[3] ^ b[3]]
}

// RotWord: rotated left by one byte.
#[tactic(auto, unfolding(crate::specs::Aes::rot_word))]
fn rot_word(a: [u8; 4]) -> [u8; 4]
    ensures { result ≡ rot_word a }
{
    [a[1], a[2], a[3], a[0]]
}

// SubWord: the S-box of each byte.
#[tactic(auto, unfolding(crate::specs::Aes::sub_word))]
fn sub_word(a: [u8; 4]) -> [u8; 4]
    ensures { result ≡ sub_word a }
{
    [sbox(a[0]), sbox(a[1]), sbox(a[2]), sbox(a[3])]
}

// Rcon[j], for `j` from 1.
fn round_constant(j: usize) -> [u8; 4]
    requires { 0 < j }
    ensures { result ≡ round_constant j }
{
    [power_of_x(j - 1), 0, 0, 0]
}

// Word `i` of the schedule of a key of `key_words` words, from the words before it.
fn next_word(key_words: usize, schedule: &[u8], i: usize) -> [u8; 4]
    requires some { 0 < key_words }
    requires after_key { key_words ≤ i }
    requires words { length schedule.now ≡ 4 * i }
    ensures { result ≡ next_word key_words schedule.now i }
{
    let last = word_at(schedule, i - 1);
    let change = if i % key_words == 0 {
        word_xor(sub_word(rot_word(last)), round_constant(i / key_words))
    } else if key_words > PLAIN_WORDS && i % key_words == 4 {
        sub_word(last)
    } else {
        last
    };
    word_xor(word_at(schedule, i - key_words), change)
}

// Writes word `i` after the words before it.
fn write_word(key_words: usize, schedule: &mut [u8], i: usize)
    requires some { 0 < key_words }
    requires after_key { key_words ≤ i }
    requires capacity { 4 * i + 4 ≤ length schedule.old }
    ensures { take (4 * i + 4) schedule.new ≡ with_next_word key_words (take (4 * i) schedule.old) }
{
    let at = 4 * i;
    let word = next_word(key_words, &schedule[..at], i);
    schedule[at..at + 4].copy_from_slice(&word);
}

// Fills `schedule` with the words of the key and those that follow from them.
fn expand(key: &[u8], schedule: &mut [u8])
    requires key_length { IsTrue (is_aes_key_length (length key.now)) }
    requires capacity { length schedule.old ≡ MAX_SCHEDULE_LEN }
    ensures { take (16 * (rounds_of key.now + 1)) schedule.new ≡ key_expansion key.now }
{
    let key_words = key.len() / 4;
    let words = 4 * (key_words + 7);
    schedule[..key.len()].copy_from_slice(key);
    for i in key_words..words {
        write_word(key_words, schedule, i);
    }
}

/// The schedule of a key, at the start of an array that has space for the longest one.
pub fn key_expansion(key: &[u8]) -> [u8; MAX_SCHEDULE_LEN]
    requires { IsTrue (is_aes_key_length (length key.now)) }
    ensures { take (16 * (rounds_of key.now + 1)) result ≡ key_expansion key.now }
{
    let mut schedule = [0; MAX_SCHEDULE_LEN];
    expand(key, &mut schedule);
    schedule
}
