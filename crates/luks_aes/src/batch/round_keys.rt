//! The bitsliced round keys of the equivalent inverse cipher (FIPS 197, 5.3.5).

ghost use Rattle.std.specs.Prelude.{◌≡◌, ◌+◌, ◌/◌, ◌<◌, ◌≤◌, ◌^◌, ℕ, List};
ghost use Rattle.std.specs.Int.{bit_at};
ghost use Rattle.luks_aes.specs.Field.{◌⊕◌};
ghost use Rattle.luks_aes.specs.Aes.{cell, state_of, rounds_of, key_expansion};
ghost use Rattle.luks_aes.specs.Bytes.{IsBytes};
ghost use Rattle.luks_aes.specs.BitPlanes.{IsBitPlane};
ghost use Rattle.luks_aes.specs.Words.{AreRowsOf, GroupsHold};
ghost use Rattle.luks_aes.specs.RoundKeys.{HasRoundKey, HasInvMixedKey};
ghost use Rattle.luks_aes.specs.RoundKeys.{HasInvMixedKeys, state_of_key};

use crate::AesKey;
use crate::batch::round_key::{KeyPlane, RoundKey};

/// The maximum number of round keys between the first and the last.
pub const MAX_INNER_KEYS: usize = 13;

/// The circuit of the inverse S-box expects bytes with this constant XORed into them.
pub const CONSTANT: u8 = 0x63;

/// The round keys for decryption: the first, those between, with round key n at index n - 1, and
/// the last. All but the last have 0x63 XORed into each byte. They are plain numbers, of any
/// values: only those that [`RoundKeys::expanded`] gives are the round keys of a key.
#[repr(C)]
#[derive(Drop)]
pub struct RoundKeys {
    /// The number of rounds.
    pub rounds: u64,
    /// The first round key.
    pub first: RoundKey,
    /// Those between. Entries after the last of them are not used.
    pub between: [RoundKey; 13],
    /// The last one.
    pub last: RoundKey,
}

// Bit `j` of the byte, 16 times.
#[inline(always)]
fn spread(byte: u8, j: u8) -> u64
    requires { j < 8 }
    ensures bits { (q : ℕ) → q < 16 → bit_at result q ≡ bit_at byte j }
    ensures range { result < 2 ^ 16 }
{
    u64::from(byte >> j & 1) * 0xffff
}

// Bit `j` of the four bytes in row `r` of the block, 16 times each.
#[inline(always)]
fn row_word(block: [u8; 16], r: usize, j: u8) -> u64
    requires row { r < 4 }
    requires bit { j < 8 }
    ensures { IsBitPlane (λ q. cell block r (q / 16)) j result }
{
    let high = spread(block[r + 12], j) * 0x1_0000 + spread(block[r + 8], j);
    let low = spread(block[r + 4], j) * 0x1_0000 + spread(block[r], j);
    high * 0x1_0000_0000 + low
}

// Bit plane `j` of 64 equal blocks.
fn equal_plane(block: [u8; 16], j: u8) -> KeyPlane
    requires { j < 8 }
    ensures { (g : ℕ) → g < 4 → AreRowsOf (λ r q. cell block r (q / 16)) j 16 result.words g }
{
    let a = row_word(block, 0, j);
    let b = row_word(block, 1, j);
    let c = row_word(block, 2, j);
    let d = row_word(block, 3, j);
    KeyPlane {
        words: [a, a, a, a, b, b, b, b, c, c, c, c, d, d, d, d],
    }
}

// The bitsliced states of 64 equal blocks.
fn equal_blocks(block: [u8; 16]) -> RoundKey
    ensures { GroupsHold (λ g r q. cell block r (q / 16)) (state_of_key result) }
{
    RoundKey {
        plane_0: equal_plane(block, 0),
        plane_1: equal_plane(block, 1),
        plane_2: equal_plane(block, 2),
        plane_3: equal_plane(block, 3),
        plane_4: equal_plane(block, 4),
        plane_5: equal_plane(block, 5),
        plane_6: equal_plane(block, 6),
        plane_7: equal_plane(block, 7),
    }
}

// The block with a number XORed into each byte.
fn block_xor_number(block: [u8; 16], number: u8) -> [u8; 16]
    ensures { result ≡ state_of (λ r c. cell block r c ⊕ number) }
{
    let mut xored = [0; 16];
    for i in 0..16 {
        xored[i] = block[i] ^ number;
    }
    xored
}

/// Round key `n`, with a number XORed into each byte.
pub fn plain_round_key(key: &AesKey, n: usize, number: u8) -> RoundKey
    requires bytes { IsBytes key.now }
    requires some { n ≤ rounds_of key.now }
    ensures { HasRoundKey (key_expansion key.now) n number result }
{
    equal_blocks(block_xor_number(key.round_key(n), number))
}

// Round key `n` after InvMixColumns, with 0x63 XORed into each byte.
fn inv_mixed_round_key(key: &AesKey, n: usize) -> RoundKey
    requires bytes { IsBytes key.now }
    requires some { n ≤ rounds_of key.now }
    ensures { HasInvMixedKey (key_expansion key.now) n 0x63 result }
{
    equal_blocks(block_xor_number(key.inv_mixed_round_key(n), CONSTANT))
}

/// Fills in the round keys between the first and the last, round key n at index n - 1. Each has
/// 0x63 XORed into each byte.
pub fn fill(key: &AesKey, round_keys: &mut [RoundKey; MAX_INNER_KEYS])
    ensures { HasInvMixedKeys (key_expansion key.now) round_keys.new (rounds_of key.now) }
{
    let rounds = key.rounds();
    for n in 0..rounds - 1 {
        round_keys[n] = inv_mixed_round_key(key, n + 1);
    }
}

/// Round key `n` + 1, one of those between the first and the last.
#[inline(always)]
pub fn inner_key(keys: &[RoundKey; MAX_INNER_KEYS], n: usize) -> &RoundKey
    requires { n < MAX_INNER_KEYS }
    ensures { (w : List ℕ) (end : ℕ) → HasInvMixedKeys w keys.now end → n + 1 < end
        → HasInvMixedKey w (n + 1) 0x63 result.now }
{
    &keys[n]
}
