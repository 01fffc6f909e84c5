//! XTS-AES byte by byte, as the standards write it, for comparison with the code that uses tables.

// b times x in the field (FIPS 197, 4.2).
fn times_x(b: u8) -> u8 {
    if b < 0x80 { b << 1 } else { (b << 1) ^ 0x1b }
}

fn product(a: u8, b: u8) -> u8 {
    let mut xor = 0;
    let mut bits = a;
    let mut shifted = b;
    for _ in 0..8u32 {
        if bits == 0 {
            break;
        }
        if bits % 2 == 1 {
            xor ^= shifted;
        }
        bits /= 2;
        shifted = times_x(shifted);
    }
    xor
}

// The field's inverse, and 0 for 0 (4.4).
fn inverse(b: u8) -> u8 {
    for c in 0..=255u8 {
        if product(b, c) == 1 {
            return c;
        }
    }
    0
}

// The affine map of the S-box (5.1.1).
fn affine(a: u8) -> u8 {
    a ^ a.rotate_left(1) ^ a.rotate_left(2) ^ a.rotate_left(3) ^ a.rotate_left(4) ^ 0x63
}

// The S-box (5.1.1) and its inverse (5.3.2).
#[derive(Drop)]
struct Boxes {
    s_box: [u8; 256],
    inv_s_box: [u8; 256],
}

impl Boxes {
    // The S-box is the inverse, then the affine map. The inverse S-box maps its values back.
    fn new() -> Boxes {
        let mut s_box = [0; 256];
        let mut inv_s_box = [0; 256];
        for b in 0..=255u8 {
            let c = affine(inverse(b));
            s_box[b as usize] = c;
            inv_s_box[c as usize] = b;
        }
        Boxes { s_box, inv_s_box }
    }
}

pub type State = [u8; 16];

// The bytes substituted by the table, and row r rotated left by `by * r` columns (5.1.1 and 5.1.2
// with the S-box and 1; 5.3.1 and 5.3.2 with the inverse S-box and 3).
fn shifted_rows(table: &[u8; 256], by: usize, s: State) -> State {
    let mut next = [0; 16];
    for i in 0..16 {
        let row = i % 4;
        let column = (i / 4 + (by % 4) * row) % 4;
        next[i] = table[s[row + 4 * column] as usize];
    }
    next
}

// Each column times the matrix whose first row is `a` (4.3).
fn multiplied(a: [u8; 4], s: State) -> State {
    let mut next = [0; 16];
    for i in 0..16 {
        let row = i % 4;
        let column = 4 * (i / 4);
        next[i] = product(a[0], s[row + column])
            ^ product(a[1], s[(row + 1) % 4 + column])
            ^ product(a[2], s[(row + 2) % 4 + column])
            ^ product(a[3], s[(row + 3) % 4 + column]);
    }
    next
}

// XOR of two states.
pub fn xored(a: State, b: State) -> State {
    let mut next = [0; 16];
    for i in 0..16 {
        next[i] = a[i] ^ b[i];
    }
    next
}

type Word = [u8; 4];

// The words of a schedule: as many as the longest key needs.
type Words = [Word; 60];

// Word `i` of the schedule of a key of `words` words, from the words before it (5.2).
fn next_word(s_box: &[u8; 256], all: &Words, words: usize, i: usize, constant: u8) -> Word {
    let [a, b, c, d] = all[i.saturating_sub(1).min(59)];
    let mut word = [a, b, c, d];
    let substituted = [
        s_box[a as usize],
        s_box[b as usize],
        s_box[c as usize],
        s_box[d as usize],
    ];
    if i.checked_rem(words) == Some(0) {
        let [a, b, c, d] = substituted;
        word = [b ^ constant, c, d, a];
    } else if words == 8 && i % 8 == 4 {
        word = substituted;
    }
    let first = all[i.saturating_sub(words).min(59)];
    for k in 0..4 {
        word[k] ^= first[k];
    }
    word
}

// Word `i` of a key.
fn key_word(key: &[u8], i: usize) -> Word {
    let mut word = [0; 4];
    for k in 0..4 {
        let offset = i.saturating_mul(4).saturating_add(k);
        if offset < key.len() {
            word[k] = key[offset];
        }
    }
    word
}

// The schedule of a key of 16 or 32 bytes (5.2).
fn schedule(s_box: &[u8; 256], key: &[u8]) -> Words {
    let words = key.len() / 4;
    let mut all = [[0; 4]; 60];
    let mut constant = 1;
    for i in 0..60usize {
        if i < words {
            all[i] = key_word(key, i);
            continue;
        }
        all[i] = next_word(s_box, &all, words, i, constant);
        if i.checked_rem(words) == Some(0) {
            constant = times_x(constant);
        }
    }
    all
}

// The key of a round (5.2).
fn round_key(all: &Words, round: usize) -> State {
    let mut state = [0; 16];
    for i in 0..16 {
        state[i] = all[4 * round.min(14) + i / 4][i % 4];
    }
    state
}

// Twice a tweak (IEEE 1619, 5.2).
pub fn doubled(tweak: State) -> State {
    let mut next = tweak;
    let mut carry = 0;
    for i in 0..16 {
        next[i] = (tweak[i] << 1) | carry;
        carry = tweak[i] >> 7;
    }
    if carry == 1 {
        next[0] ^= 0x87;
    }
    next
}

// The number of a data unit as a block.
pub fn number_block(number: u64) -> State {
    let mut block = [0; 16];
    let low = number.to_le_bytes();
    for i in 0..8 {
        block[i] = low[i];
    }
    block
}

/// The schedules of two keys of AES, for XTS-AES.
#[derive(Drop)]
pub struct Bytewise {
    boxes: Boxes,
    rounds: usize,
    data_words: Words,
    tweak_words: Words,
}

impl Bytewise {
    /// The schedules of a key of 32 or 64 bytes.
    pub fn new(key: &[u8]) -> Bytewise {
        let boxes = Boxes::new();
        let (data_key, tweak_key) = key.split_at(key.len() / 2);
        let data_words = schedule(&boxes.s_box, data_key);
        let tweak_words = schedule(&boxes.s_box, tweak_key);
        Bytewise {
            boxes,
            rounds: data_key.len() / 4 + 6,
            data_words,
            tweak_words,
        }
    }

    // Cipher (5.1).
    fn encrypted(&self, all: &Words, block: State) -> State {
        let mut s = xored(block, round_key(all, 0));
        for round in 1..self.rounds {
            let shifted = shifted_rows(&self.boxes.s_box, 1, s);
            s = xored(multiplied([2, 3, 1, 1], shifted), round_key(all, round));
        }
        let shifted = shifted_rows(&self.boxes.s_box, 1, s);
        xored(shifted, round_key(all, self.rounds))
    }

    // InvCipher (5.3).
    fn decrypted(&self, all: &Words, block: State) -> State {
        let mut s = xored(block, round_key(all, self.rounds));
        for round in (1..self.rounds).rev() {
            let shifted = shifted_rows(&self.boxes.inv_s_box, 3, s);
            s = multiplied([14, 11, 13, 9], xored(shifted, round_key(all, round)));
        }
        let shifted = shifted_rows(&self.boxes.inv_s_box, 3, s);
        xored(shifted, round_key(all, 0))
    }

    /// Encrypts or decrypts the data unit with this number (IEEE 1619, 5.3.2 and 5.4.2).
    pub fn unit(&self, encrypts: bool, number: u64, unit: &mut [u8]) {
        let mut tweak = self.encrypted(&self.tweak_words, number_block(number));
        for piece in unit.chunks_exact_mut(16) {
            let mut block = [0; 16];
            block.copy_from_slice(piece);
            let masked = xored(block, tweak);
            let done = if encrypts {
                self.encrypted(&self.data_words, masked)
            } else {
                self.decrypted(&self.data_words, masked)
            };
            piece.copy_from_slice(&xored(done, tweak));
            let next = doubled(tweak);
            tweak = next;
        }
    }
}
