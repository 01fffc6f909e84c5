//! Names of modes, and lengths of keys.

use super::assert_in;
use luks_cipher::{AesKey, Mode, SectorCipher, XtsKey};

static NAMES: [(&str, Option<Mode>); 10] = [
    ("xts-plain64", Some(Mode::XtsPlain64)),
    ("xts-plain", Some(Mode::XtsPlain)),
    ("cbc-essiv:sha256", Some(Mode::CbcEssivSha256)),
    ("cbc-plain64", Some(Mode::CbcPlain64)),
    ("", None),
    ("XTS-plain64", None),
    ("xts-plain65", None),
    ("cbc-plain", None),
    ("cbc-essiv:sha1", None),
    ("cbc-plain64 ", None),
];

#[test]
fn modes_have_names(rt: HostRuntime) {
    for (name, mode) in &NAMES {
        assert_in(&rt, name, Mode::from_name(name) == *mode);
        if let Some(mode) = mode {
            assert_in(&rt, name, mode.name() == *name);
        }
    }
}

// A length in bytes, and whether a key of AES, of XTS and of CBC can have it here.
static LENGTHS: [(usize, bool, bool, bool); 10] = [
    (0, false, false, false),
    (15, false, false, false),
    (16, true, false, true),
    (17, false, false, false),
    (24, true, false, false),
    (32, true, true, true),
    (33, false, false, false),
    (48, false, false, false),
    (64, false, true, false),
    (65, false, false, false),
];

#[test]
fn keys_have_lengths(rt: HostRuntime) {
    for (length, aes, xts, cbc) in &LENGTHS {
        let key = &[0; 65][..*length.min(&65)];
        let are_keys = [
            AesKey::new(key).is_some(),
            XtsKey::new(key).is_some(),
            SectorCipher::new(Mode::XtsPlain64, key).is_some(),
            SectorCipher::new(Mode::XtsPlain, key).is_some(),
            SectorCipher::new(Mode::CbcEssivSha256, key).is_some(),
            SectorCipher::new(Mode::CbcPlain64, key).is_some(),
        ];
        assert!(rt;
            are_keys == [*aes, *xts, *xts, *xts, *cbc, *cbc],
            "{length}: {are_keys:?}"
        );
    }
}
