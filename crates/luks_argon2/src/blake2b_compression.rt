//! F, the compression function of BLAKE2b (RFC 7693, section 3.2).

ghost use Rattle.std.specs.Prelude.{◌≡◌, ℕ, ◌-◌, ◌^◌, ◌≤◌, ◌<◌, if◌then◌else◌, slice_index};
ghost use Rattle.luks_argon2.specs.Blake2b.{compress, initial_hash, mix, round, word_added};
ghost use Rattle.luks_argon2.specs.Blake2b.{word_added_with, word_xor_rotated};

// The first 64 bits of the fractional parts of the square roots of the first eight primes (section
// 2.6).
const IV: [u64; 8] = [
    0x6A09E667F3BCC908,
    0xBB67AE8584CAA73B,
    0x3C6EF372FE94F82B,
    0xA54FF53A5F1D36F1,
    0x510E527FADE682D1,
    0x9B05688C2B3E6C1F,
    0x1F83D9ABFB41BD6B,
    0x5BE0CD19137E2179,
];

// The order of a block's words in each of ten rounds (section 2.7).
const SIGMA: [[usize; 16]; 10] = [
    [0, 1, 2, 3, 4, 5, 6, 7, 8, 9, 10, 11, 12, 13, 14, 15],
    [14, 10, 4, 8, 9, 15, 13, 6, 1, 12, 0, 2, 11, 7, 5, 3],
    [11, 8, 12, 0, 5, 2, 15, 13, 10, 14, 3, 6, 7, 1, 9, 4],
    [7, 9, 3, 1, 13, 12, 11, 14, 2, 6, 5, 10, 4, 0, 15, 8],
    [9, 0, 5, 7, 2, 4, 10, 15, 14, 1, 11, 12, 6, 8, 3, 13],
    [2, 12, 6, 10, 0, 11, 8, 3, 4, 13, 7, 5, 15, 14, 1, 9],
    [12, 5, 1, 15, 14, 13, 4, 10, 0, 7, 6, 3, 9, 2, 8, 11],
    [13, 11, 7, 14, 12, 1, 3, 9, 5, 0, 15, 4, 8, 6, 2, 10],
    [6, 15, 14, 9, 11, 3, 0, 8, 12, 2, 13, 7, 1, 4, 10, 5],
    [10, 2, 8, 4, 7, 6, 1, 5, 15, 11, 9, 14, 3, 12, 13, 0],
];

#[inline(always)]
#[tactic(auto, unfolding(crate::specs::Blake2b::word_added))]
fn add(v: &mut [u64; 16], a: usize, b: usize)
    requires a { a < 16 }
    requires b { b < 16 }
    ensures { v.new ≡ word_added v.old a b }
{
    v[a] = v[a].wrapping_add(v[b]);
}

#[inline(always)]
#[tactic(auto, unfolding(crate::specs::Blake2b::word_added_with))]
fn add_with(v: &mut [u64; 16], a: usize, b: usize, x: u64)
    requires a { a < 16 }
    requires b { b < 16 }
    ensures { v.new ≡ word_added_with v.old a b x }
{
    v[a] = v[a].wrapping_add(v[b]).wrapping_add(x);
}

#[inline(always)]
#[tactic(auto, unfolding(crate::specs::Blake2b::word_xor_rotated))]
fn xor_rotate(v: &mut [u64; 16], d: usize, a: usize, by: u32)
    requires d { d < 16 }
    requires a { a < 16 }
    ensures { v.new ≡ word_xor_rotated v.old d a by }
{
    v[d] = (v[d] ^ v[a]).rotate_right(by);
}

// G, the mixing function (section 3.1): mixes two words of the message into four of the working
// vector.
#[inline(always)]
#[tactic(auto, unfolding(crate::specs::Blake2b::mix))]
fn mix(v: &mut [u64; 16], a: usize, b: usize, c: usize, d: usize, x: u64, y: u64)
    requires a { a < 16 }
    requires b { b < 16 }
    requires c { c < 16 }
    requires d { d < 16 }
    ensures { v.new ≡ mix v.old a b c d x y }
{
    add_with(v, a, b, x);
    xor_rotate(v, d, a, 32);
    add(v, c, d);
    xor_rotate(v, b, c, 24);
    add_with(v, a, b, y);
    xor_rotate(v, d, a, 16);
    add(v, c, d);
    xor_rotate(v, b, c, 63);
}

// A round, with the words of the block in the order `s`.
#[tactic(auto, unfolding(crate::specs::Blake2b::round))]
fn round(v: &mut [u64; 16], m: &[u64; 16], s: &[usize; 16])
    requires { (k : ℕ) → k < 16 → slice_index s.now k < 16 }
    ensures { v.new ≡ round v.old m.now s.now }
{
    mix(v, 0, 4, 8, 12, m[s[0]], m[s[1]]);
    mix(v, 1, 5, 9, 13, m[s[2]], m[s[3]]);
    mix(v, 2, 6, 10, 14, m[s[4]], m[s[5]]);
    mix(v, 3, 7, 11, 15, m[s[6]], m[s[7]]);
    mix(v, 0, 5, 10, 15, m[s[8]], m[s[9]]);
    mix(v, 1, 6, 11, 12, m[s[10]], m[s[11]]);
    mix(v, 2, 7, 8, 13, m[s[12]], m[s[13]]);
    mix(v, 3, 4, 9, 14, m[s[14]], m[s[15]]);
}

// The mask that inverts a word of the working vector for the last block.
fn final_flag(last: bool) -> u64
    ensures { result ≡ (if last then 2 ^ 64 - 1 else 0) }
{
    if last { u64::MAX } else { 0 }
}

/// F: the state `h` after one more block, whose words are `m`. The message has `count` bytes up to
/// the end of this block, which is its last one if `last` is true.
pub(crate) fn compress(h: &[u64; 8], m: &[u64; 16], count: u64, last: bool) -> [u64; 8]
    ensures { result ≡ compress h.now m.now count last }
{
    let flag = final_flag(last);
    let mut v = [
        h[0],
        h[1],
        h[2],
        h[3],
        h[4],
        h[5],
        h[6],
        h[7],
        IV[0],
        IV[1],
        IV[2],
        IV[3],
        IV[4] ^ count,
        IV[5],
        IV[6] ^ flag,
        IV[7],
    ];
    'rounds: for r in 0..12 {
        round(&mut v, m, &SIGMA[r % 10]);
    }
    [
        h[0] ^ v[0] ^ v[8],
        h[1] ^ v[1] ^ v[9],
        h[2] ^ v[2] ^ v[10],
        h[3] ^ v[3] ^ v[11],
        h[4] ^ v[4] ^ v[12],
        h[5] ^ v[5] ^ v[13],
        h[6] ^ v[6] ^ v[14],
        h[7] ^ v[7] ^ v[15],
    ]
}

/// The state before the first block, for a digest of `len` bytes.
pub(crate) fn initial_hash(len: usize) -> [u64; 8]
    requires { len ≤ 64 }
    ensures { result ≡ initial_hash len }
{
    [
        IV[0] ^ 0x01010000 ^ len as u64,
        IV[1],
        IV[2],
        IV[3],
        IV[4],
        IV[5],
        IV[6],
        IV[7],
    ]
}
