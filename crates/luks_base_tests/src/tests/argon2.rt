//! Tests of BLAKE2b, of Argon2's hash function of variable length, and of Argon2, against values that
//! other programs made.

use std::process::Abort;

mod blake2b;
mod parameters;
mod tags;

// Asserts that the bytes are those that the hexadecimal digits represent.
fn assert_bytes(rt: &(impl Abort + AllocGlobal), out: &[u8], digits: &str) {
    let want = hex::decode(rt.alloc(), digits).expect(rt, "hexadecimal digits");
    assert!(rt; out == &want[..], "{digits}");
}

// The bytes `start`, `start` + 7, `start` + 14 and so on, modulo 256.
fn numbered(rt: &(impl Abort + AllocGlobal), start: u8, len: usize) -> Vec<u8> {
    let mut bytes = Vec::new(rt.alloc());
    let mut next = start;
    for _ in 0..len {
        bytes.push(next).expect(rt, "bytes");
        next = next.wrapping_add(7);
    }
    bytes
}
