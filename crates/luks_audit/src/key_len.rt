//! The length of the key that is a cipher's own, and when it is short.

ghost use Rattle.std.specs.Prelude.{◌≡◌};
ghost use Rattle.luks_audit.specs.KeyLength.{authenc_key_len, integrity_key_len, is_known_short};
ghost use Rattle.luks_audit.specs.KeyLength.{is_short, own_key_len, tag_key_len};
ghost use Rattle.luks_audit.specs.Weakness.{segment_key_len};

use crate::cipher::begins_with;
use crate::rows::{CipherMode, PayloadRow};
use crate::text::Text;
use crate::token::is_named;

/// The least length in bytes of a cipher's key that is not weak: 256 bits.
pub(crate) const LEAST_KEY_LEN: u64 = 32;

/// The length in bytes of the key besides those of the cipher in LRW mode.
const LRW_TWEAK_KEY_LEN: u64 = 16;

// The length in bytes of the key for integrity tags of this type.
fn integrity_key_len(kind: &Option<Text>) -> u64
    ensures { result ≡ integrity_key_len kind.now }
{
    if is_named(kind, "hmac(sha1)") {
        20
    } else if is_named(kind, "hmac(sha256)") {
        32
    } else if is_named(kind, "hmac(sha512)") {
        64
    } else {
        0
    }
}

// The length in bytes of that key for a cipher that makes the tags itself.
#[tactic(auto, unfolding(crate::specs::KeyLength::authenc_key_len))]
fn authenc_key_len(cipher: &[u8]) -> u64
    ensures { result ≡ authenc_key_len cipher.now }
{
    if begins_with(b"capi:authenc(hmac(sha1),", cipher) {
        20
    } else if begins_with(b"capi:authenc(hmac(sha256),", cipher) {
        32
    } else if begins_with(b"capi:authenc(hmac(sha512),", cipher) {
        64
    } else {
        0
    }
}

// The length in bytes of that key by both: it is there once.
#[tactic(auto, unfolding(crate::specs::KeyLength::tag_key_len))]
fn tag_key_len(cipher: &[u8], kind: &Option<Text>) -> u64
    ensures { result ≡ tag_key_len cipher.now kind.now }
{
    let len = authenc_key_len(cipher);
    if len == 0 {
        integrity_key_len(kind)
    } else {
        len
    }
}

/// The length in bytes of the part of the volume key that is the cipher's.
#[tactic(auto, unfolding(crate::specs::KeyLength::cipher_key_len))]
pub(crate) fn segment_key_len(row: &PayloadRow) -> Option<u64>
    ensures { result ≡ segment_key_len row.now }
{
    let Some(cipher) = &row.cipher else {
        return None;
    };
    let tags = tag_key_len(cipher.as_bytes(), &row.integrity);
    match row.key_bytes {
        Some(bytes) => Some(bytes.saturating_sub(tags)),
        None => None,
    }
}

/// The length in bytes of the cipher's own key.
pub(crate) fn own_key_len(mode: CipherMode, bytes: u64) -> u64
    ensures { result ≡ own_key_len mode bytes }
{
    match mode {
        CipherMode::Xts => bytes / 2,
        CipherMode::Lrw => bytes.saturating_sub(LRW_TWEAK_KEY_LEN),
        CipherMode::Null | CipherMode::Ecb | CipherMode::Cbc | CipherMode::Other => bytes,
    }
}

/// Whether the cipher's own key is short.
pub(crate) fn is_short(mode: CipherMode, bytes: u64) -> bool
    ensures { result ≡ is_short mode bytes }
{
    match mode {
        CipherMode::Null => false,
        mode => own_key_len(mode, bytes) < LEAST_KEY_LEN,
    }
}

/// Whether the cipher's own key is short, if its length is known.
pub(crate) fn is_known_short(mode: CipherMode, bytes: Option<u64>) -> bool
    ensures { result ≡ is_known_short mode bytes }
{
    match bytes {
        Some(bytes) => is_short(mode, bytes),
        None => false,
    }
}
