//! Units by tables and batches, compared with units byte by byte.

use super::bytewise::Bytewise;
use super::cipher::Cipher;
use std::process::Abort;

// A step of a xorshift generator (Marsaglia).
fn next(x: u64) -> u64 {
    let a = x ^ (x << 13);
    let b = a ^ (a >> 7);
    b ^ (b << 17)
}

// `length` bytes that are generated from the seed.
fn generated_bytes(rt: &(impl Abort + AllocGlobal), seed: u64, length: usize) -> Vec<u8> {
    let mut x = seed;
    let mut bytes = Vec::new(rt.alloc());
    for _ in 0..length {
        x = next(x);
        bytes.push((x >> 56) as u8).expect(rt, "memory");
    }
    bytes
}

// Asserts that both ways encrypt and decrypt the generated unit with this number and length alike.
fn check_unit(
    rt: &(impl Abort + AllocGlobal),
    (cipher, bytewise): (&Cipher, &Bytewise),
    number: u64,
    length: usize,
) {
    let plain = generated_bytes(rt, number, length);
    let mut unit = generated_bytes(rt, number, length);
    let mut other = generated_bytes(rt, number, length);
    cipher.encrypt(rt, number, &mut unit);
    bytewise.unit(true, number, &mut other);
    let is_encrypted = unit == other;
    cipher.decrypt(rt, number, &mut unit);
    bytewise.unit(false, number, &mut other);
    assert!(rt;
        is_encrypted && unit == other && unit == plain,
        "unit {number}"
    );
}

// Checks 1000 units of this length, each under its own number.
fn check_length(rt: &(impl Abort + AllocGlobal), key_length: usize, length: usize) {
    let key = generated_bytes(rt, 0x9e37_79b9_7f4a_7c15, key_length);
    let cipher = Cipher::new(rt, "xts", &key, "");
    let bytewise = Bytewise::new(&key);
    let mut number = 0x0123_4567_89ab_cdef;
    for _ in 0..1000u32 {
        number = next(number);
        check_unit(rt, (&cipher, &bytewise), number, length);
    }
}

#[test]
fn a_thousand_units_of_each_length_are_alike(rt: HostRuntime) {
    for (key_length, length) in [(32, 16), (64, 16), (32, 512), (64, 512), (64, 4096)] {
        check_length(&rt, key_length, length);
    }
}
