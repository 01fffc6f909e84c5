//! The key of a mode.

use luks_cipher::Mode;

/// The bytes that a mode takes as its key of AES-256: all of these for XTS, which has two keys, and
/// the first 32 for CBC.
pub fn key_of(mode: Mode, bytes: &[u8; 64]) -> &[u8] {
    match mode {
        Mode::XtsPlain64 | Mode::XtsPlain => &bytes[..],
        Mode::CbcEssivSha256 | Mode::CbcPlain64 => &bytes[..32],
    }
}
