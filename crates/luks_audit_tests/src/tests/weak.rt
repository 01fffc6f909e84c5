//! What is weak, by the numbers of a slot.

use super::fixture::{PLAIN, assert_member, header1, image2, text_of};
use luks_audit::image::Policy;
use std::process::Abort;

// A mode, a hash function, other numbers, and what is weak.
type Row1 = (
    &'static str,
    &'static str,
    &'static [(usize, u32)],
    &'static str,
);

static ROWS1: [Row1; 7] = [
    ("xts-plain64", "sha512", &[(212, 210_000)], "[]"),
    (
        "xts-plain64",
        "sha512",
        &[(212, 209_999)],
        "[{\"limit\":210000,\"name\":\"iterations\",\"place\":\"slot 0\",\"severity\":\"high\",\"value\":209999}]",
    ),
    (
        "xts-plain64",
        "SHA1",
        &[(212, 1_300_000)],
        "[{\"limit\":null,\"name\":\"sha1\",\"place\":\"slot 0\",\"severity\":\"low\",\"value\":\"SHA1\"},{\"limit\":null,\"name\":\"sha1\",\"place\":\"digest 0\",\"severity\":\"low\",\"value\":\"SHA1\"}]",
    ),
    (
        "xts-plain64",
        "ripemd160",
        &[(212, 1_299_999), (164, 999)],
        "[{\"limit\":1300000,\"name\":\"iterations\",\"place\":\"slot 0\",\"severity\":\"high\",\"value\":1299999},{\"limit\":1000,\"name\":\"digest-iterations\",\"place\":\"digest 0\",\"severity\":\"low\",\"value\":999}]",
    ),
    (
        "cbc-essiv:sha256",
        "sha256",
        &[(212, 600_000), (108, 16)],
        "[{\"limit\":null,\"name\":\"cbc\",\"place\":\"segment\",\"severity\":\"low\",\"value\":\"aes-cbc-essiv:sha256\"},{\"limit\":32,\"name\":\"short-key\",\"place\":\"segment\",\"severity\":\"low\",\"value\":16},{\"limit\":null,\"name\":\"cbc\",\"place\":\"slot 0\",\"severity\":\"low\",\"value\":\"aes-cbc-essiv:sha256\"},{\"limit\":32,\"name\":\"short-key\",\"place\":\"slot 0\",\"severity\":\"low\",\"value\":16}]",
    ),
    (
        // the cipher `capi:cbc(aes)`
        "essiv:sha256",
        "sha256",
        &[
            (212, 600_000),
            (8, 0x6361_7069),
            (12, 0x3a63_6263),
            (16, 0x2861_6573),
            (20, 0x2900_0000),
        ],
        "[{\"limit\":null,\"name\":\"cbc\",\"place\":\"segment\",\"severity\":\"low\",\"value\":\"capi:cbc(aes)-essiv:sha256\"},{\"limit\":null,\"name\":\"cbc\",\"place\":\"slot 0\",\"severity\":\"low\",\"value\":\"capi:cbc(aes)-essiv:sha256\"}]",
    ),
    (
        // the slot is neither enabled nor disabled: luksrd skips it, and it is judged
        "xts-plain64",
        "sha256",
        &[(208, 1), (212, 599_999)],
        "[{\"limit\":600000,\"name\":\"iterations\",\"place\":\"slot 0\",\"severity\":\"high\",\"value\":599999}]",
    ),
];

#[test]
fn weak1(rt: HostRuntime) {
    for (mode, hash, numbers, weak) in &ROWS1 {
        let image = header1(&rt, mode, hash, numbers);
        assert_member(&rt, PLAIN, image.as_slice(), "weak", weak);
    }
}

// What encrypts key material, with the length of its key, how keys are derived, and what is weak.
type Row2 = (
    &'static str,
    &'static str,
    &'static str,
    &'static str,
    &'static str,
);

static ROWS2: [Row2; 16] = [
    (
        "aes-xts-plain64",
        "64",
        "{\"type\":\"argon2id\",\"time\":4,\"memory\":65536,\"cpus\":1,\"salt\":\"\"}",
        "1000",
        "[]",
    ),
    (
        "aes-xts-plain64",
        "64",
        "{\"type\":\"argon2i\",\"time\":4,\"memory\":65535,\"cpus\":1,\"salt\":\"\"}",
        "1000",
        "[{\"limit\":65536,\"name\":\"argon2-memory\",\"place\":\"slot 7\",\"severity\":\"high\",\"value\":65535}]",
    ),
    (
        "aes-xts-plain64",
        "64",
        "{\"type\":\"argon2id\"}",
        "999",
        "[{\"limit\":65536,\"name\":\"argon2-memory\",\"place\":\"slot 7\",\"severity\":\"high\",\"value\":null},{\"limit\":3,\"name\":\"argon2-time\",\"place\":\"slot 7\",\"severity\":\"low\",\"value\":null},{\"limit\":1000,\"name\":\"digest-iterations\",\"place\":\"digest 0\",\"severity\":\"low\",\"value\":999}]",
    ),
    (
        "aes-cbc-plain64",
        "16",
        "{\"type\":\"pbkdf2\",\"hash\":\"sha256\",\"iterations\":600000,\"salt\":\"\"}",
        "1000",
        "[{\"limit\":null,\"name\":\"cbc\",\"place\":\"slot 7\",\"severity\":\"low\",\"value\":\"aes-cbc-plain64\"},{\"limit\":32,\"name\":\"short-key\",\"place\":\"slot 7\",\"severity\":\"low\",\"value\":16}]",
    ),
    (
        "aes-xts-plain64",
        "32",
        "{\"type\":\"pbkdf2\",\"hash\":\"sha1\",\"iterations\":1000,\"salt\":\"\"}",
        "1000",
        "[{\"limit\":1300000,\"name\":\"iterations\",\"place\":\"slot 7\",\"severity\":\"high\",\"value\":1000},{\"limit\":null,\"name\":\"sha1\",\"place\":\"slot 7\",\"severity\":\"low\",\"value\":\"sha1\"},{\"limit\":32,\"name\":\"short-key\",\"place\":\"slot 7\",\"severity\":\"low\",\"value\":16}]",
    ),
    (
        "aes-xts-plain64",
        "32",
        "{\"type\":\"scrypt\"}",
        "1000",
        "[{\"limit\":32,\"name\":\"short-key\",\"place\":\"slot 7\",\"severity\":\"low\",\"value\":16}]",
    ),
    (
        "capi:cbc(aes)-essiv:sha256",
        "32",
        "{\"type\":\"scrypt\"}",
        "1000",
        "[{\"limit\":null,\"name\":\"cbc\",\"place\":\"slot 7\",\"severity\":\"low\",\"value\":\"capi:cbc(aes)-essiv:sha256\"}]",
    ),
    (
        "capi:authenc(hmac(sha256),cbc(aes))-random",
        "32",
        "{\"type\":\"scrypt\"}",
        "1000",
        "[{\"limit\":null,\"name\":\"cbc\",\"place\":\"slot 7\",\"severity\":\"low\",\"value\":\"capi:authenc(hmac(sha256),cbc(aes))-random\"}]",
    ),
    (
        "capi:authenc(xcbc(aes),xts(aes))-random",
        "32",
        "{\"type\":\"scrypt\"}",
        "1000",
        "[{\"limit\":32,\"name\":\"short-key\",\"place\":\"slot 7\",\"severity\":\"low\",\"value\":16}]",
    ),
    (
        "xcapi:cbc(aes)-essiv:sha256",
        "32",
        "{\"type\":\"scrypt\"}",
        "1000",
        "[]",
    ),
    (
        "cipher_null-ecb",
        "16",
        "{\"type\":\"scrypt\"}",
        "1000",
        "[{\"limit\":null,\"name\":\"null-cipher\",\"place\":\"slot 7\",\"severity\":\"high\",\"value\":\"cipher_null-ecb\"}]",
    ),
    (
        "capi:ecb(cipher_null)-plain",
        "16",
        "{\"type\":\"scrypt\"}",
        "1000",
        "[{\"limit\":null,\"name\":\"null-cipher\",\"place\":\"slot 7\",\"severity\":\"high\",\"value\":\"capi:ecb(cipher_null)-plain\"}]",
    ),
    (
        "aes-ecb",
        "32",
        "{\"type\":\"scrypt\"}",
        "1000",
        "[{\"limit\":null,\"name\":\"ecb\",\"place\":\"slot 7\",\"severity\":\"high\",\"value\":\"aes-ecb\"}]",
    ),
    (
        "serpent-xts-plain64",
        "63",
        "{\"type\":\"scrypt\"}",
        "1000",
        "[{\"limit\":32,\"name\":\"short-key\",\"place\":\"slot 7\",\"severity\":\"low\",\"value\":31}]",
    ),
    (
        // 2 GiB of memory need one pass, and less needs three
        "aes-xts-plain64",
        "64",
        "{\"type\":\"argon2id\",\"time\":1,\"memory\":2097152,\"cpus\":1,\"salt\":\"\"}",
        "1000",
        "[]",
    ),
    (
        "aes-xts-plain64",
        "64",
        "{\"type\":\"argon2i\",\"time\":2,\"memory\":2097151,\"cpus\":1,\"salt\":\"\"}",
        "1000",
        "[{\"limit\":3,\"name\":\"argon2-time\",\"place\":\"slot 7\",\"severity\":\"low\",\"value\":2}]",
    ),
];

// A LUKS2 image whose key slot is of this row.
fn image_of_row(rt: &(impl Abort + AllocGlobal), row: &Row2) -> Vec<u8> {
    let (cipher, key_size, kdf, iterations, _) = *row;
    let slot = text_of(
        rt,
        &[
            "{\"type\":\"luks2\",\"key_size\":64,\"kdf\":",
            kdf,
            ",\"af\":{\"type\":\"luks1\",\"stripes\":4000,\"hash\":\"sha256\"},\"area\":{\"type\":\"raw\",\"offset\":\"32768\",\"size\":\"258048\",\"encryption\":\"",
            cipher,
            "\",\"key_size\":",
            key_size,
            "}}",
        ],
    );
    image2(rt, slot.as_str(), iterations)
}

#[test]
fn weak2(rt: HostRuntime) {
    for row in &ROWS2 {
        let image = image_of_row(&rt, row);
        assert_member(&rt, PLAIN, image.as_slice(), "weak", row.4);
    }
}

// A minimum of iterations, and whether 1000 of them are weak.
static MINIMA: [(u32, &str); 3] = [
    (1000, "[]"),
    (
        1001,
        "[{\"limit\":1001,\"name\":\"iterations\",\"place\":\"slot 0\",\"severity\":\"high\",\"value\":1000}]",
    ),
    (1, "[]"),
];

#[test]
fn minimum(rt: HostRuntime) {
    let image = header1(&rt, "xts-plain64", "sha256", &[]);
    for (minimum, weak) in &MINIMA {
        let policy = Policy {
            minimum: Some(*minimum),
            ..PLAIN
        };
        assert_member(&rt, policy, image.as_slice(), "weak", weak);
    }
}

// A slot that is skipped.
const SKIPPED: &str =
    "{\"type\":\"luks2\",\"kdf\":{\"type\":\"argon2id\",\"time\":4,\"memory\":7,\"cpus\":2,\"salt\":\"AP8=\"}}";

// Members of an image with it: the lists, a text, those on the binary header, and the number of the
// first sector.
static MEMBERS: [(&str, &str); 8] = [
    (
        "slots",
        "[{\"af_hash\":null,\"area_cipher\":null,\"area_key_bytes\":null,\"area_offset\":null,\"area_size\":null,\"can_try\":false,\"hash\":null,\"iterations\":null,\"kdf\":\"argon2id\",\"key_bytes\":null,\"library_can_try\":false,\"memory\":7,\"number\":7,\"priority\":1,\"reason\":\"member\",\"salt\":\"00ff\",\"state\":\"skipped\",\"stripes\":null,\"threads\":2,\"time\":4,\"tokens\":[{\"number\":3,\"type\":\"a\\t\\\"b\"}]}]",
    ),
    (
        "tokens",
        "[{\"keyslots\":[\"7\"],\"number\":3,\"stored\":{\"keyslots\":[\"7\"],\"n\":-7,\"type\":\"a\\t\\\"b\"},\"type\":\"a\\t\\\"b\"},{\"keyslots\":[],\"number\":4,\"stored\":null,\"type\":\"f\"}]",
    ),
    (
        "digests",
        "[{\"bytes\":5,\"digest\":\"666f6f6261\",\"hash\":\"sha256\",\"iterations\":1000,\"keyslots\":[\"7\"],\"number\":0,\"salt\":\"666f6f\",\"segments\":[\"0\"],\"type\":\"pbkdf2\"}]",
    ),
    ("label", "\"a\\\\x5clabel\\\\xc3\\\\x0a~\""),
    ("seqid", "3"),
    ("header_size", "16384"),
    ("checksum_hash", "\"sha256\""),
    ("iv_tweak", "8"),
];

#[test]
fn members(rt: HostRuntime) {
    let image = image2(&rt, SKIPPED, "1000");
    for (name, text) in &MEMBERS {
        assert_member(&rt, PLAIN, image.as_slice(), name, text);
    }
}
