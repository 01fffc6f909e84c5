use super::{HASHES, assert_in};
use luks_kdf::Hash;
use std::process::Abort;

static NAMES: [&str; 5] = ["sha1", "SHA224", "Sha256", "sHa384", "shA512"];

#[test]
fn names_are_case_insensitive(rt: HostRuntime) {
    for i in 0..5 {
        let hash = HASHES[i];
        assert_in(&rt, i, Hash::from_name(hash.name()) == Some(hash));
        assert_in(&rt, i, Hash::from_name(NAMES[i]) == Some(hash));
    }
}

// The last begins with U+017F, whose capital is the letter S.
static OTHER_NAMES: [&str; 15] = [
    "",
    "sha",
    "sha2",
    "sha-1",
    "sha-256",
    "sha1 ",
    " sha1",
    "sha11",
    "sha25",
    "sha2566",
    "sha512/256",
    "sha3-256",
    "md5",
    "whirlpool",
    "\u{17f}ha1",
];

#[test]
fn other_names(rt: HostRuntime) {
    for name in &OTHER_NAMES {
        assert!(rt; Hash::from_name(name).is_none(), "{name}");
    }
}

// FIPS 180-4, figure 1.
static SIZES: [(&str, usize, usize); 5] = [
    ("sha1", 20, 64),
    ("sha224", 28, 64),
    ("sha256", 32, 64),
    ("sha384", 48, 128),
    ("sha512", 64, 128),
];

fn check_sizes(rt: &impl Abort, i: usize, hash: Hash, (name, size, block): (&str, usize, usize)) {
    assert_in(rt, i, hash.name() == name);
    assert_in(rt, i, hash.size() == size);
    assert_in(rt, i, hash.block() == block);
}

#[test]
fn sizes(rt: HostRuntime) {
    for i in 0..5 {
        check_sizes(&rt, i, HASHES[i], SIZES[i]);
    }
}
