//! Published vectors, values from other tools, and AES byte by byte. Bytes are written as
//! hexadecimal digits.

mod aes_vectors;
mod bytewise;
mod cipher;
mod comparison;
mod lengths;
mod mode_vectors;
mod units;
mod vectors;
mod xts_vectors;

use std::process::Abort;

// Asserts that `holds` is true, and names this case of a table if it is not.
fn assert_in(rt: &impl Abort, case: &str, holds: bool) {
    assert!(rt; holds, "{case}");
}

// The bytes that the hexadecimal digits represent.
fn bytes(rt: &(impl Abort + AllocGlobal), digits: &str) -> Vec<u8> {
    hex::decode(rt.alloc(), digits).expect(rt, "hexadecimal digits")
}

// `length` bytes, modulo 256, from 0 on. Each is greater than the one before it by `step`, and by
// `extra` more at the start of each 256 bytes.
fn counted(rt: &(impl Abort + AllocGlobal), length: usize, step: usize, extra: usize) -> Vec<u8> {
    let mut bytes = Vec::new(rt.alloc());
    for i in 0..length {
        let byte = i
            .wrapping_mul(step)
            .wrapping_add((i / 256).wrapping_mul(extra))
            % 256;
        bytes.push(byte as u8).expect(rt, "memory");
    }
    bytes
}
