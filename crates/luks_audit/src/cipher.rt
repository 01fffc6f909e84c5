//! How a cipher encrypts sectors, by its name.

ghost use Rattle.std.specs.Prelude.{◌≡◌, ◌<◌, ◌==◌, IfSome, length, option_map, position, ℕ};
ghost use Rattle.luks_audit.specs.Cipher.{begins_with, cipher_mode2, ends_word, has_first_word};
ghost use Rattle.luks_audit.specs.Cipher.{has_template, has_word, is_mark, is_null, mode_after_dash};
ghost use Rattle.luks_audit.specs.Cipher.{mode_of, name_before_dash, named_mode, uses_mode};

use crate::rows::CipherMode;

/// Whether a text begins with this word.
#[tactic(auto, unfolding(crate::specs::Cipher::begins_with))]
pub(crate) fn begins_with(word: &[u8], mode: &[u8]) -> bool
    ensures { result ≡ begins_with word.now mode.now }
{
    mode.starts_with(word)
}

// Whether the byte separates words in the notation of the kernel's crypto API.
fn is_mark(byte: u8) -> bool
    ensures { result ≡ is_mark byte }
{
    byte == b'(' || byte == b')' || byte == b',' || byte == b'-' || byte == b':'
}

// Whether a word ends before this byte, or with the text.
fn ends_word(next: Option<&u8>) -> bool
    ensures { result ≡ ends_word (option_map (λ b. b.now) next.entry) }
{
    match next {
        Some(byte) => is_mark(*byte),
        None => true,
    }
}

// Whether the first word of a text is this one.
#[tactic(auto, unfolding(crate::specs::Cipher::has_first_word))]
fn has_first_word(word: &[u8], text: &[u8]) -> bool
    ensures { result ≡ has_first_word word.now text.now }
{
    begins_with(word, text) && ends_word(text.get(word.len()))
}

// Whether a word after a mark is this one.
#[tactic(auto, unfolding(crate::specs::Cipher::has_word))]
fn has_word(word: &[u8], text: &[u8]) -> bool
    ensures { result ≡ has_word word.now text.now }
{
    for mark in 0..text.len() {
        if is_mark(text[mark]) && has_first_word(word, &text[mark + 1..]) {
            return true;
        }
    }
    false
}

// Whether a cipher in the notation of the kernel's crypto API has this word among its templates and
// ciphers.
#[tactic(auto, unfolding(crate::specs::Cipher::has_template))]
fn has_template(word: &[u8], cipher: &[u8]) -> bool
    ensures { result ≡ has_template word.now cipher.now }
{
    begins_with(b"capi:", cipher) && has_word(word, cipher)
}

// Whether a mode, or a template, is this one.
#[tactic(auto, unfolding(crate::specs::Cipher::uses_mode))]
fn uses_mode(word: &[u8], cipher: &[u8], mode: &[u8]) -> bool
    ensures { result ≡ uses_mode word.now cipher.now mode.now }
{
    begins_with(word, mode) || has_template(word, cipher)
}

// Whether nothing is encrypted.
#[tactic(auto, unfolding(crate::specs::Cipher::is_null))]
fn is_null(cipher: &[u8], name: &[u8]) -> bool
    ensures { result ≡ is_null cipher.now name.now }
{
    name == b"cipher_null".as_slice()
        || name == b"null".as_slice()
        || has_template(b"cipher_null", cipher)
}

/// How a cipher encrypts sectors, by the cipher as it is named, the name in it, and its mode.
#[tactic(auto, unfolding(crate::specs::Cipher::mode_of))]
pub(crate) fn mode_of(cipher: &[u8], name: &[u8], mode: &[u8]) -> CipherMode
    ensures { result ≡ mode_of cipher.now name.now mode.now }
{
    if is_null(cipher, name) {
        CipherMode::Null
    } else if uses_mode(b"ecb", cipher, mode) {
        CipherMode::Ecb
    } else if uses_mode(b"cbc", cipher, mode) {
        CipherMode::Cbc
    } else if uses_mode(b"xts", cipher, mode) {
        CipherMode::Xts
    } else if uses_mode(b"lrw", cipher, mode) {
        CipherMode::Lrw
    } else {
        CipherMode::Other
    }
}

// ---- a cipher of LUKS2

// The index of the first dash.
fn dash_in(cipher: &[u8]) -> Option<usize>
    ensures value { result ≡ position (λ (byte : ℕ). byte == 45) cipher.now }
    ensures bound { IfSome result (λ dash. dash < length cipher.now) }
{
    cipher.iter().position(|byte| *byte == b'-')
}

// The mode in a cipher's name: what follows the first dash.
fn mode_after_dash(cipher: &[u8]) -> &[u8]
    ensures { result.now ≡ mode_after_dash cipher.now }
{
    match dash_in(cipher) {
        Some(dash) => &cipher[dash + 1..],
        None => &[],
    }
}

// The name in a cipher's name: what precedes the first dash.
fn name_before_dash(cipher: &[u8]) -> &[u8]
    ensures { result.now ≡ name_before_dash cipher.now }
{
    match dash_in(cipher) {
        Some(dash) => &cipher[..dash],
        None => cipher,
    }
}

// How this cipher encrypts sectors.
fn named_mode(cipher: &[u8]) -> CipherMode
    ensures { result ≡ named_mode cipher.now }
{
    mode_of(cipher, name_before_dash(cipher), mode_after_dash(cipher))
}

/// How the cipher of this name encrypts sectors, in LUKS2.
#[tactic(auto, unfolding(crate::specs::Cipher::cipher_mode2))]
pub(crate) fn cipher_mode(cipher: Option<&str>) -> CipherMode
    ensures { result ≡ cipher_mode2 (option_map (λ t. t.now) cipher.entry) }
{
    match cipher {
        Some(name) => named_mode(name.as_bytes()),
        None => CipherMode::Other,
    }
}
