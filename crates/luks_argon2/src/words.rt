//! Words of 64 bits as bytes, the least significant byte first (RFC 7693, section 2.4).

ghost use Rattle.std.specs.Prelude.{◌≡◌, ◌+◌, ◌*◌, ◌≤◌, ◌<◌, length};
ghost use Rattle.luks_argon2.specs.Words.{le64_bytes, le64_words_at, le64_at};

// The word in the 8 bytes from byte `i` on.
#[tactic(auto, unfolding(crate::specs::Words::le64_at))]
fn load_word(bytes: &[u8], i: usize) -> u64
    requires { i + 8 ≤ length bytes.now }
    ensures { result ≡ le64_at bytes.now i }
{
    u64::from_le_bytes([
        bytes[i],
        bytes[i + 1],
        bytes[i + 2],
        bytes[i + 3],
        bytes[i + 4],
        bytes[i + 5],
        bytes[i + 6],
        bytes[i + 7],
    ])
}

/// The 16 words in the 128 bytes from byte `at` on.
#[tactic(auto, unfolding(crate::specs::Words::le64_words_at))]
pub(crate) fn load_words(bytes: &[u8], at: usize) -> [u64; 16]
    requires { at + 128 ≤ length bytes.now }
    ensures { result ≡ le64_words_at bytes.now at }
{
    [
        load_word(bytes, at),
        load_word(bytes, at + 8),
        load_word(bytes, at + 16),
        load_word(bytes, at + 24),
        load_word(bytes, at + 32),
        load_word(bytes, at + 40),
        load_word(bytes, at + 48),
        load_word(bytes, at + 56),
        load_word(bytes, at + 64),
        load_word(bytes, at + 72),
        load_word(bytes, at + 80),
        load_word(bytes, at + 88),
        load_word(bytes, at + 96),
        load_word(bytes, at + 104),
        load_word(bytes, at + 112),
        load_word(bytes, at + 120),
    ]
}

/// Writes the words as bytes, eight for each.
#[tactic(auto, unfolding(crate::specs::Words::le64_bytes))]
pub(crate) fn store_words(words: &[u64], bytes: &mut [u8])
    requires { length bytes.old ≡ 8 * length words.now }
    ensures { bytes.new ≡ le64_bytes words.now }
{
    'words: for i in 0..words.len() {
        bytes[8 * i..8 * i + 8].copy_from_slice(&words[i].to_le_bytes());
    }
}
