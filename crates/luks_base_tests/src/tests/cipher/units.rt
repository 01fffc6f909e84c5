//! Data units of 512 bytes that the standard publishes, and one of 4096 bytes block by block.

use super::bytewise::{State, doubled, number_block, xored};
use super::cipher::Cipher;
use super::vectors::check_unit;
use super::xts_vectors::{KEY_256, KEY_512, UNIT_00, UNIT_FD, UNIT_FF, WIDE_FF, WIDE_FFFFFFFFFF};
use super::{assert_in, bytes, counted};
use luks_cipher::AesKey;
use std::process::Abort;

// Encrypts the unit under each number in turn. The standard publishes the unit after some of them.
fn encrypt_in_turn(rt: &(impl Abort + AllocGlobal), cipher: &Cipher, unit: &mut [u8]) {
    for number in 0..=255 {
        cipher.encrypt(rt, number, unit);
        let published = match number {
            0 => UNIT_00,
            0xfd => UNIT_FD,
            0xff => UNIT_FF,
            _ => continue,
        };
        assert_in(rt, published, bytes(rt, published).as_slice() == unit);
    }
}

#[test]
fn units_that_are_encrypted_in_turn_are_as_published(rt: HostRuntime) {
    let cipher = Cipher::new(&rt, "xts", &bytes(&rt, KEY_256), "");
    let plain = counted(&rt, 512, 1, 0);
    let mut unit = counted(&rt, 512, 1, 0);
    encrypt_in_turn(&rt, &cipher, &mut unit);
    for number in (0..=255).rev() {
        cipher.decrypt(&rt, number, &mut unit);
    }
    assert_in(&rt, "256 numbers", unit == plain);
}

#[test]
fn units_under_long_keys_are_as_published(rt: HostRuntime) {
    let cipher = Cipher::new(&rt, "xts", &bytes(&rt, KEY_512), "");
    let plain = counted(&rt, 512, 1, 0);
    for (number, published) in [(0xff, WIDE_FF), (0xff_ffff_ffff, WIDE_FFFFFFFFFF)] {
        check_unit(
            &rt,
            published,
            (&cipher, number),
            &plain,
            &bytes(&rt, published),
        );
    }
}

const NUMBER: u64 = 0xfedc_ba98_7654_3210;

// A block of bytes.
fn block_of(rt: &impl Abort, bytes: &[u8], j: usize) -> State {
    let offset = j.saturating_mul(16);
    assert!(rt; offset < bytes.len() && 16 <= bytes.len() - offset);
    let mut block = [0; 16];
    block.copy_from_slice(&bytes[offset..offset + 16]);
    block
}

// Asserts that block `j` of the unit is that of the plain one, encrypted under its tweak: the tweak
// of block 0, doubled `j` times.
fn check_block(
    rt: &impl Abort,
    (data_key, tweak_key): (&AesKey, &AesKey),
    j: usize,
    plain: &[u8],
    unit: &[u8],
) {
    let mut tweak = number_block(NUMBER);
    tweak_key.encrypt_block(&mut tweak);
    for _ in 0..j {
        let next = doubled(tweak);
        tweak = next;
    }
    let mut block = xored(block_of(rt, plain, j), tweak);
    data_key.encrypt_block(&mut block);
    assert!(rt; block_of(rt, unit, j) == xored(block, tweak), "block {j}");
}

#[test]
fn the_blocks_of_a_unit_of_4096_bytes_have_doubled_tweaks(rt: HostRuntime) {
    let key = bytes(&rt, KEY_512);
    let (first, second) = key.split_at(key.len() / 2);
    let data_key = AesKey::new(first).expect(&rt, "a key");
    let tweak_key = AesKey::new(second).expect(&rt, "a key");
    let cipher = Cipher::new(&rt, "xts", &key, "");
    let plain = counted(&rt, 4096, 1, 0);
    let mut unit = counted(&rt, 4096, 1, 0);
    cipher.encrypt(&rt, NUMBER, &mut unit);
    for j in 0..256 {
        check_block(&rt, (&data_key, &tweak_key), j, &plain, &unit);
    }
    cipher.decrypt(&rt, NUMBER, &mut unit);
    assert_in(&rt, "4096 bytes", unit == plain);
}
