//! Tables of plain and encrypted bytes. A line is a cipher, a key, the number of a unit or the IV
//! of a chain (`-` for a block), the plain bytes, and the encrypted bytes.

use super::aes_vectors::{BATCH_128, BATCH_192, BATCH_256, EXAMPLES, KNOWN_ANSWERS};
use super::cipher::Cipher;
use super::mode_vectors::{CHAINS, DECRYPTED, DIGESTS, SECTORS, WORKED};
use super::xts_vectors::{LARGE_NUMBERS, NIST, SHORT};
use super::{assert_in, bytes, counted};
use luks_aes::BatchKey;
use luks_cipher::cbc::decrypt_pair;
use luks_cipher::{Mode, SectorCipher, XtsKey};
use sha2::{Digest, Sha256};
use std::process::Abort;

// The word of a line with this number, counted from 0.
fn word<'a>(rt: &impl Abort, line: &'a str, number: usize) -> &'a str {
    line.split(' ').nth(number).expect(rt, "a word")
}

// Asserts that the cipher encrypts the plain unit with this number to the encrypted one, and
// decrypts that to the plain one.
pub fn check_unit(
    rt: &(impl Abort + AllocGlobal),
    case: &str,
    (cipher, number): (&Cipher, u64),
    plain: &[u8],
    encrypted: &[u8],
) {
    let mut unit = plain.to_vec(rt.alloc()).expect(rt, "memory");
    cipher.encrypt(rt, number, &mut unit);
    assert_in(rt, case, unit.as_slice() == encrypted);
    cipher.decrypt(rt, number, &mut unit);
    assert_in(rt, case, unit.as_slice() == plain);
}

fn check_line(rt: &(impl Abort + AllocGlobal), line: &str) {
    let middle = word(rt, line, 2);
    // The IV of a chain is not a number.
    let number = middle.parse().unwrap_or(0);
    let cipher = Cipher::new(rt, word(rt, line, 0), &bytes(rt, word(rt, line, 1)), middle);
    let plain = bytes(rt, word(rt, line, 3));
    let encrypted = bytes(rt, word(rt, line, 4));
    check_unit(rt, line, (&cipher, number), &plain, &encrypted);
}

#[test]
fn each_line_is_encrypted_and_decrypted(rt: HostRuntime) {
    for table in [
        EXAMPLES,
        KNOWN_ANSWERS,
        CHAINS,
        SECTORS,
        WORKED,
        NIST,
        SHORT,
        LARGE_NUMBERS,
    ] {
        for line in table.lines() {
            check_line(&rt, line);
        }
    }
}

/// Bytes of keys.
const KEY: &str = "\
05162738495a6b7c8d9eafc0d1e2f30415263748596a7b8c9daebfd0e1f20314\
25364758697a8b9cadbecfe0f102132435465768798a9bacbdcedff001122334";

// Asserts that the line's sector is encrypted to one with the digest, and that this is decrypted to
// the plain one.
fn check_digest(rt: &(impl Abort + AllocGlobal), line: &str) {
    let key = bytes(rt, KEY);
    let key_length = word(rt, line, 1)
        .parse::<usize>()
        .expect(rt, "a length")
        .min(key.len());
    let cipher = Cipher::new(rt, word(rt, line, 0), &key[..key_length], "");
    let number = word(rt, line, 2).parse().expect(rt, "a number");
    let plain = counted(rt, word(rt, line, 3).parse().expect(rt, "a length"), 7, 1);
    let mut sector = plain.clone().expect(rt, "memory");
    cipher.encrypt(rt, number, &mut sector);
    let digest = Sha256::digest(&sector);
    assert_in(
        rt,
        line,
        bytes(rt, word(rt, line, 4)).as_slice() == digest.as_slice(),
    );
    cipher.decrypt(rt, number, &mut sector);
    assert_in(rt, line, sector == plain);
}

#[test]
fn sectors_of_batches_and_blocks_have_their_digests(rt: HostRuntime) {
    for line in DIGESTS.lines() {
        check_digest(&rt, line);
    }
}

// Asserts that the line's sectors are decrypted to ones with the digest.
fn check_decrypted(rt: &(impl Abort + AllocGlobal), line: &str) {
    let key = bytes(rt, KEY);
    let key_length = word(rt, line, 1)
        .parse::<usize>()
        .expect(rt, "a length")
        .min(key.len());
    let mode = Mode::from_name(word(rt, line, 0)).expect(rt, "a mode");
    let cipher = SectorCipher::new(mode, &key[..key_length]).expect(rt, "a key of the mode");
    let first = word(rt, line, 2).parse::<u64>().expect(rt, "a number");
    let size = word(rt, line, 3).parse::<usize>().expect(rt, "a length");
    let all = word(rt, line, 4).parse::<usize>().expect(rt, "a length");
    let mut sectors = counted(rt, all, 7, 1);
    assert!(rt; size % 512 == 0 && 512 <= size && size <= 4096 && sectors.len() % size == 0);
    cipher.decrypt_units(first, size, &mut sectors);
    let digest = Sha256::digest(&sectors);
    assert_in(
        rt,
        line,
        bytes(rt, word(rt, line, 5)).as_slice() == digest.as_slice(),
    );
}

#[test]
fn sectors_that_follow_one_another_are_decrypted(rt: HostRuntime) {
    for line in DECRYPTED.lines() {
        check_decrypted(&rt, line);
    }
}

// Decrypts two data units of 512 bytes at once, in the mode of this name.
fn decrypt_both(rt: &impl Abort, mode: &str, key: &[u8], first: u64, pair: &mut [u8]) {
    assert!(rt; pair.len() == 1024);
    let second = first.wrapping_add(1);
    if mode == "xts-plain64" {
        let key = XtsKey::new(key).expect(rt, "a key of XTS");
        key.decrypt_pair(first, second, pair);
    } else {
        let key = BatchKey::new(key).expect(rt, "a key of AES");
        let iv = u128::from(first).to_le_bytes();
        decrypt_pair(&key, iv, u128::from(second).to_le_bytes(), pair);
    }
}

// Asserts that the line's two sectors are decrypted to ones with the digest.
fn check_pair(rt: &(impl Abort + AllocGlobal), line: &str) {
    let key = bytes(rt, KEY);
    let key_length = word(rt, line, 1)
        .parse::<usize>()
        .expect(rt, "a length")
        .min(key.len());
    let first = word(rt, line, 2).parse::<u64>().expect(rt, "a number");
    let mut pair = counted(rt, 1024, 7, 1);
    decrypt_both(rt, word(rt, line, 0), &key[..key_length], first, &mut pair);
    let digest = Sha256::digest(&pair);
    assert_in(
        rt,
        line,
        bytes(rt, word(rt, line, 5)).as_slice() == digest.as_slice(),
    );
}

// Whether the line has two sectors of 512 bytes in a mode whose unit numbers are used as they are.
fn is_pair(rt: &impl Abort, line: &str) -> bool {
    let mode = word(rt, line, 0);
    (mode == "xts-plain64" || mode == "cbc-plain64")
        && word(rt, line, 3) == "512"
        && word(rt, line, 4) == "1024"
}

#[test]
fn two_units_are_decrypted_at_once(rt: HostRuntime) {
    let mut pairs = 0u32;
    for line in DECRYPTED.lines() {
        if is_pair(&rt, line) {
            check_pair(&rt, line);
            pairs = pairs.saturating_add(1);
        }
    }
    assert!(rt; pairs == 4);
}

// Checks the decryption of 32 blocks at once, and of the first of them alone.
fn check_batch(rt: &(impl Abort + AllocGlobal), key: &[u8], encrypted: &str, plain: &[u8]) {
    let key = BatchKey::new(key).expect(rt, "a key of AES");
    let mut batch = [0; 512];
    hex::decode_to_slice(encrypted, &mut batch).expect(rt, "a batch");
    let mut block = [0; 16];
    block.copy_from_slice(&batch[..16]);
    key.decrypt_batch(&mut batch, &[0; 512], &[0; 512]);
    assert_in(rt, encrypted, batch.as_slice() == plain);
    key.key().decrypt_block(&mut block);
    assert_in(rt, encrypted, plain.starts_with(&block));
}

#[test]
fn batches_are_decrypted_under_each_length_of_key(rt: HostRuntime) {
    let key = bytes(&rt, KEY);
    let plain = counted(&rt, 512, 7, 1);
    for (length, encrypted) in [(16, BATCH_128), (24, BATCH_192), (32, BATCH_256)] {
        check_batch(&rt, &key[..key.len().min(length)], encrypted, &plain);
    }
}
