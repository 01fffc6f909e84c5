//! Volumes in each mode, with attached and detached headers.

use super::runs::{CAT_DETACHED, DONE, Inputs, NO_KEY, check};
use super::tables::{CAT_ROW, Output, Row, check_rows, opened, refused, written};
use super::volume::{
    AT_START, KEY, PASSPHRASE, PLAIN, PLAIN_LEN, USUAL, changed, payload_of, sealed, usual,
};
use luks_cipher::Mode;
use luks_test_support::bytes::at;
use std::process::Abort;

/// A mode, the length of the key in bytes, where the key material ends, and rows.
type InMode = (Mode, usize, usize, &'static [Row<'static>]);

// The volume opens after `loaded` bytes are consumed, and its plaintext is written.
macro_rules! in_mode {
    ($mode:ident, $key_len:literal, $loaded:literal) => {
        (
            Mode::$mode,
            $key_len,
            $loaded,
            &[
                opened!("", PASSPHRASE, 0, $loaded),
                written!("", PASSPHRASE, Output::Plain(PLAIN_LEN), DONE),
                refused!("", b"wrong", NO_KEY, $loaded, 0),
            ],
        )
    };
}

static MODES: [InMode; 7] = [
    in_mode!(XtsPlain64, 32, 132_096),
    in_mode!(XtsPlain, 32, 132_096),
    in_mode!(XtsPlain, 64, 260_096),
    in_mode!(CbcEssivSha256, 16, 68_096),
    in_mode!(CbcEssivSha256, 32, 132_096),
    in_mode!(CbcPlain64, 16, 68_096),
    in_mode!(CbcPlain64, 32, 132_096),
];

// The plaintext is written with a detached header, which is the first `loaded` bytes of the image
// with a payload offset of 0.
fn check_detached(rt: &(impl Abort + AllocGlobal), image: &[u8], loaded: usize) {
    let header = changed(rt, image, loaded, AT_START);
    let inputs: Inputs<'_> = [header.as_slice(), payload_of(image), PASSPHRASE];
    check(rt, CAT_DETACHED, inputs, (&PLAIN, DONE), (0, 0, 0))
}

// A volume in this mode.
fn check_mode(rt: &(impl Abort + AllocGlobal), (mode, key_len, loaded, rows): &InMode) {
    let image = sealed(rt, (*mode, at(KEY, 0, *key_len)), USUAL, PASSPHRASE);
    check_rows(rt, &image, rows);
    check_detached(rt, &image, *loaded)
}

#[test]
fn volumes_are_written_out_in_each_mode(rt: HostRuntime) {
    for row in &MODES {
        check_mode(&rt, row);
    }
}

const KEY_BYTES: &str = "1 luksrd: segment refused: key bytes\n";

const ENCRYPTION: &str = "1 luksrd: segment refused: encryption\n";

const HASH: &str = "1 luksrd: segment refused: hash\n";

// Bytes at offsets of a header, and what is reported: the cipher's name is at 8, its mode at 40,
// the hash at 72, and the last byte of the key's length at 111.
macro_rules! texts {
    ($changes:expr, $reported:ident) => {
        Row {
            changes: $changes,
            ..refused!("", PASSPHRASE, $reported, 592, 13)
        }
    };
}

// These replace `cbc-essiv:sha256` and a key of 32 bytes.
static OF_CBC: [Row<'static>; 7] = [
    texts!(&[(111, &[24])], KEY_BYTES),
    texts!(&[(111, &[64])], KEY_BYTES),
    texts!(&[(40, b"cbc-plain64\0"), (111, &[64])], KEY_BYTES),
    texts!(&[(40, b"xts-plain\0"), (111, &[16])], KEY_BYTES),
    texts!(&[(40, b"cbc-essiv:sha1\0")], ENCRYPTION),
    texts!(&[(40, b"cbc-plain\0")], ENCRYPTION),
    texts!(&[(40, b"ecb\0")], ENCRYPTION),
];

// These replace `aes`, `xts-plain64`, `sha256` and a key of 64 bytes.
static OF_XTS: [Row<'static>; 2] = [
    texts!(&[(72, b"ripemd160\0")], HASH),
    texts!(&[(8, b"serpent\0"), (72, b"ripemd160\0")], ENCRYPTION),
];

#[test]
fn other_texts_and_lengths_are_refused(rt: HostRuntime) {
    let key = (Mode::CbcEssivSha256, at(KEY, 0, 32));
    check_rows(&rt, &sealed(&rt, key, USUAL, PASSPHRASE), &OF_CBC);
    check_rows(&rt, &usual(&rt), &OF_XTS)
}
