//! Published vectors, and values from Python's `hashlib` and `hmac`.

use luks_kdf::Hash;
use std::process::Abort;

mod derive;
mod hash;
mod mac;
mod stripes;

static HASHES: [Hash; 5] = [
    Hash::Sha1,
    Hash::Sha224,
    Hash::Sha256,
    Hash::Sha384,
    Hash::Sha512,
];

// Asserts that `holds` is true, and names the case with this number if it is not.
fn assert_in(rt: &impl Abort, case: usize, holds: bool) {
    assert!(rt; holds, "{case}");
}

// Both hexadecimal digits of a byte.
fn digits(byte: u8) -> [u8; 2] {
    let digits = b"0123456789abcdef";
    [digits[(byte / 16) as usize], digits[(byte % 16) as usize]]
}

// Asserts that the bytes are those that the hexadecimal digits represent.
fn assert_hex(rt: &impl Abort, bytes: &[u8], hex: &[u8]) {
    assert!(rt; hex.len() / 2 == bytes.len());
    assert!(rt; hex.len() % 2 == 0);
    for i in 0..bytes.len() {
        assert_in(rt, i, [hex[2 * i], hex[2 * i + 1]] == digits(bytes[i]));
    }
}

// Fills the bytes with `start`, `start` + 7, `start` + 14 and so on, modulo 256.
fn number(bytes: &mut [u8], start: u8) {
    let mut next = start;
    for byte in bytes.iter_mut() {
        *byte = next;
        next = next.wrapping_add(7);
    }
}
