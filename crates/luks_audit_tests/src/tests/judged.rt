//! The two lists of findings, and what is weak about the segment, by the JSON area.

use super::fixture::{PLAIN, assert_member, text_of};
use luks_test_support::header2::image_of;
use std::process::Abort;

// Key slots, segments, the configuration, what is wrong, and what is not supported.
type Lists = (
    &'static str,
    &'static str,
    &'static str,
    &'static str,
    &'static str,
);

static LISTS: [Lists; 18] = [
    (
        // a key slot that is no object
        "{\"0\":5}",
        "{\"0\":{\"type\":\"crypt\",\"offset\":\"32768\",\"size\":\"dynamic\",\"iv_tweak\":\"0\",\"sector_size\":512,\"encryption\":\"aes-xts-plain64\"}}",
        "{}",
        "[\"slot 0: type\"]",
        "[]",
    ),
    (
        // one without a type
        "{\"0\":{}}",
        "{\"0\":{\"type\":\"crypt\",\"offset\":\"32768\",\"size\":\"dynamic\",\"iv_tweak\":\"0\",\"sector_size\":512,\"encryption\":\"aes-xts-plain64\"}}",
        "{}",
        "[\"slot 0: type\"]",
        "[]",
    ),
    (
        // one with a type that is no text
        "{\"0\":{\"type\":7}}",
        "{\"0\":{\"type\":\"crypt\",\"offset\":\"32768\",\"size\":\"dynamic\",\"iv_tweak\":\"0\",\"sector_size\":512,\"encryption\":\"aes-xts-plain64\"}}",
        "{}",
        "[\"slot 0: type\"]",
        "[]",
    ),
    (
        "{\"0\":{\"type\":\"reencrypt\"}}",
        "{\"0\":{\"type\":\"crypt\",\"offset\":\"32768\",\"size\":\"dynamic\",\"iv_tweak\":\"0\",\"sector_size\":512,\"encryption\":\"aes-xts-plain64\"}}",
        "{}",
        "[]",
        "[\"slot 0: type\"]",
    ),
    (
        // requirements of another form
        "{}",
        "{\"0\":{\"type\":\"crypt\",\"offset\":\"32768\",\"size\":\"dynamic\",\"iv_tweak\":\"0\",\"sector_size\":512,\"encryption\":\"aes-xts-plain64\"}}",
        "{\"requirements\":5}",
        "[\"segment: requirement\"]",
        "[]",
    ),
    (
        "{}",
        "{\"0\":{\"type\":\"crypt\",\"offset\":\"32768\",\"size\":\"dynamic\",\"iv_tweak\":\"0\",\"sector_size\":512,\"encryption\":\"aes-xts-plain64\"}}",
        "{\"requirements\":[\"online-reencrypt\"]}",
        "[\"segment: requirement\"]",
        "[]",
    ),
    (
        "{}",
        "{\"0\":{\"type\":\"crypt\",\"offset\":\"32768\",\"size\":\"dynamic\",\"iv_tweak\":\"0\",\"sector_size\":512,\"encryption\":\"aes-xts-plain64\"}}",
        "{\"requirements\":{\"mandatory\":\"online-reencrypt\"}}",
        "[\"segment: requirement\"]",
        "[]",
    ),
    (
        "{}",
        "{\"0\":{\"type\":\"crypt\",\"offset\":\"32768\",\"size\":\"dynamic\",\"iv_tweak\":\"0\",\"sector_size\":512,\"encryption\":\"aes-xts-plain64\"}}",
        "{\"requirements\":{\"mandatory\":[\"online-reencrypt\",7]}}",
        "[\"segment: requirement\"]",
        "[]",
    ),
    (
        // requirements, and a segment of another form
        "{}",
        "{\"0\":{\"type\":5,\"offset\":\"32768\",\"size\":\"dynamic\",\"iv_tweak\":\"0\",\"sector_size\":512,\"encryption\":\"aes-xts-plain64\"}}",
        "{\"requirements\":{\"mandatory\":[\"online-reencrypt\"]}}",
        "[\"segment: requirement\"]",
        "[]",
    ),
    (
        "{}",
        "{\"0\":{\"type\":\"crypt\",\"offset\":\"32768\",\"size\":\"dynamic\",\"iv_tweak\":\"0\",\"sector_size\":\"512\",\"encryption\":\"aes-xts-plain64\"}}",
        "{\"requirements\":{\"mandatory\":[\"online-reencrypt\"]}}",
        "[\"segment: requirement\"]",
        "[]",
    ),
    (
        "{}",
        "{}",
        "{\"requirements\":{\"mandatory\":[\"online-reencrypt\"]}}",
        "[\"segment: requirement\"]",
        "[]",
    ),
    (
        "{}",
        "{\"0\":{\"type\":\"linear\",\"offset\":\"32768\",\"size\":\"dynamic\"},\"1\":{\"type\":\"crypt\",\"offset\":\"32768\",\"size\":\"dynamic\",\"iv_tweak\":\"0\",\"sector_size\":512,\"encryption\":\"aes-xts-plain64\"}}",
        "{\"requirements\":{\"mandatory\":[\"online-reencrypt\"]}}",
        "[]",
        "[\"segment: requirement\"]",
    ),
    (
        // integrity tags
        "{}",
        "{\"0\":{\"type\":\"crypt\",\"offset\":\"32768\",\"size\":\"dynamic\",\"iv_tweak\":\"0\",\"sector_size\":512,\"encryption\":\"aes-xts-plain64\",\"integrity\":3}}",
        "{}",
        "[\"segment: integrity\"]",
        "[]",
    ),
    (
        "{}",
        "{\"0\":{\"type\":\"crypt\",\"offset\":\"32768\",\"size\":\"dynamic\",\"iv_tweak\":\"0\",\"sector_size\":512,\"encryption\":\"aes-xts-plain64\",\"integrity\":{\"type\":\"aead\"}}}",
        "{}",
        "[\"segment: integrity\"]",
        "[]",
    ),
    (
        "{}",
        "{\"0\":{\"type\":\"crypt\",\"offset\":\"32768\",\"size\":\"dynamic\",\"iv_tweak\":\"0\",\"sector_size\":512,\"encryption\":\"aes-xts-plain64\",\"integrity\":{\"type\":null,\"journal_encryption\":\"none\",\"journal_integrity\":\"none\"}}}",
        "{}",
        "[\"segment: integrity\"]",
        "[]",
    ),
    (
        "{}",
        "{\"0\":{\"type\":\"crypt\",\"offset\":\"32768\",\"size\":\"dynamic\",\"iv_tweak\":\"0\",\"sector_size\":512,\"encryption\":\"aes-xts-plain64\",\"integrity\":{\"type\":\"hmac(sha256)\",\"journal_encryption\":\"none\",\"journal_integrity\":\"none\"}}}",
        "{}",
        "[]",
        "[\"segment: integrity\"]",
    ),
    (
        // another type, or none
        "{}",
        "{\"0\":{\"type\":\"mine\"}}",
        "{}",
        "[]",
        "[\"segment: type\"]",
    ),
    (
        "{}",
        "{\"0\":{\"type\":null,\"offset\":\"32768\",\"size\":\"dynamic\",\"iv_tweak\":\"0\",\"sector_size\":512,\"encryption\":\"aes-xts-plain64\"}}",
        "{}",
        "[\"segment: member\"]",
        "[]",
    ),
];

// A LUKS2 image with this JSON area.
fn image_with(
    rt: &(impl Abort + AllocGlobal),
    slots: &str,
    segments: &str,
    config: &str,
) -> Vec<u8> {
    let json = text_of(
        rt,
        &[
            "{\"keyslots\":",
            slots,
            ",\"segments\":",
            segments,
            ",\"config\":",
            config,
            ",\"digests\":{}}",
        ],
    );
    image_of(rt.alloc(), 3, 3, json.as_str()).expect(rt, "memory")
}

#[test]
fn lists(rt: HostRuntime) {
    for (slots, segments, config, findings, unsupported) in &LISTS {
        let image = image_with(&rt, slots, segments, config);
        assert_member(&rt, PLAIN, image.as_slice(), "findings", findings);
        assert_member(&rt, PLAIN, image.as_slice(), "unsupported", unsupported);
    }
}

// The volume key's length, segments, and what is weak.
static SEGMENTS: [(&str, &str, &str); 15] = [
    (
        // a segment that is not encrypted
        "64",
        "{\"0\":{\"type\":\"linear\",\"offset\":\"32768\",\"size\":\"dynamic\"}}",
        "[{\"limit\":null,\"name\":\"null-cipher\",\"place\":\"segment\",\"severity\":\"high\",\"value\":\"linear\"}]",
    ),
    (
        // another one beside it
        "64",
        "{\"0\":{\"type\":\"crypt\",\"offset\":\"32768\",\"size\":\"dynamic\",\"iv_tweak\":\"0\",\"sector_size\":512,\"encryption\":\"aes-xts-plain64\"},\"40\":{\"type\":\"linear\",\"offset\":\"32768\",\"size\":\"dynamic\"}}",
        "[{\"limit\":null,\"name\":\"null-cipher\",\"place\":\"segment\",\"severity\":\"high\",\"value\":\"linear\"}]",
    ),
    (
        // integrity tags by a key of their own
        "64",
        "{\"0\":{\"type\":\"crypt\",\"offset\":\"32768\",\"size\":\"dynamic\",\"iv_tweak\":\"0\",\"sector_size\":512,\"encryption\":\"aes-xts-plain64\",\"integrity\":{\"type\":\"hmac(sha256)\",\"journal_encryption\":\"none\",\"journal_integrity\":\"none\"}}}",
        "[{\"limit\":32,\"name\":\"short-key\",\"place\":\"segment\",\"severity\":\"low\",\"value\":16}]",
    ),
    (
        "96",
        "{\"0\":{\"type\":\"crypt\",\"offset\":\"32768\",\"size\":\"dynamic\",\"iv_tweak\":\"0\",\"sector_size\":512,\"encryption\":\"aes-xts-plain64\",\"integrity\":{\"type\":\"hmac(sha256)\",\"journal_encryption\":\"none\",\"journal_integrity\":\"none\"}}}",
        "[]",
    ),
    (
        "96",
        "{\"0\":{\"type\":\"crypt\",\"offset\":\"32768\",\"size\":\"dynamic\",\"iv_tweak\":\"0\",\"sector_size\":512,\"encryption\":\"aes-xts-plain64\",\"integrity\":{\"type\":\"hmac(sha512)\",\"journal_encryption\":\"none\",\"journal_integrity\":\"none\"}}}",
        "[{\"limit\":32,\"name\":\"short-key\",\"place\":\"segment\",\"severity\":\"low\",\"value\":16}]",
    ),
    (
        "51",
        "{\"0\":{\"type\":\"crypt\",\"offset\":\"32768\",\"size\":\"dynamic\",\"iv_tweak\":\"0\",\"sector_size\":512,\"encryption\":\"aes-xts-plain64\",\"integrity\":{\"type\":\"hmac(sha1)\",\"journal_encryption\":\"none\",\"journal_integrity\":\"none\"}}}",
        "[{\"limit\":32,\"name\":\"short-key\",\"place\":\"segment\",\"severity\":\"low\",\"value\":15}]",
    ),
    (
        "64",
        "{\"0\":{\"type\":\"crypt\",\"offset\":\"32768\",\"size\":\"dynamic\",\"iv_tweak\":\"0\",\"sector_size\":512,\"encryption\":\"aes-xts-plain64\",\"integrity\":{\"type\":\"aead\",\"journal_encryption\":\"none\",\"journal_integrity\":\"none\"}}}",
        "[]",
    ),
    (
        // the cipher makes them
        "95",
        "{\"0\":{\"type\":\"crypt\",\"offset\":\"32768\",\"size\":\"dynamic\",\"iv_tweak\":\"0\",\"sector_size\":512,\"encryption\":\"capi:authenc(hmac(sha256),xts(aes))-random\"}}",
        "[{\"limit\":32,\"name\":\"short-key\",\"place\":\"segment\",\"severity\":\"low\",\"value\":31}]",
    ),
    (
        "96",
        "{\"0\":{\"type\":\"crypt\",\"offset\":\"32768\",\"size\":\"dynamic\",\"iv_tweak\":\"0\",\"sector_size\":512,\"encryption\":\"capi:authenc(hmac(sha256),xts(aes))-random\"}}",
        "[]",
    ),
    (
        // the cipher and the type name one key
        "95",
        "{\"0\":{\"type\":\"crypt\",\"offset\":\"32768\",\"size\":\"dynamic\",\"iv_tweak\":\"0\",\"sector_size\":512,\"encryption\":\"capi:authenc(hmac(sha256),xts(aes))-plain64\",\"integrity\":{\"type\":\"hmac(sha256)\",\"journal_encryption\":\"none\",\"journal_integrity\":\"none\"}}}",
        "[{\"limit\":32,\"name\":\"short-key\",\"place\":\"segment\",\"severity\":\"low\",\"value\":31}]",
    ),
    (
        "96",
        "{\"0\":{\"type\":\"crypt\",\"offset\":\"32768\",\"size\":\"dynamic\",\"iv_tweak\":\"0\",\"sector_size\":512,\"encryption\":\"capi:authenc(hmac(sha256),xts(aes))-plain64\",\"integrity\":{\"type\":\"hmac(sha256)\",\"journal_encryption\":\"none\",\"journal_integrity\":\"none\"}}}",
        "[]",
    ),
    (
        // more than the whole key
        "20",
        "{\"0\":{\"type\":\"crypt\",\"offset\":\"32768\",\"size\":\"dynamic\",\"iv_tweak\":\"0\",\"sector_size\":512,\"encryption\":\"aes-xts-plain64\",\"integrity\":{\"type\":\"hmac(sha256)\",\"journal_encryption\":\"none\",\"journal_integrity\":\"none\"}}}",
        "[{\"limit\":32,\"name\":\"short-key\",\"place\":\"segment\",\"severity\":\"low\",\"value\":0}]",
    ),
    (
        // LRW has a second key of 16 bytes
        "47",
        "{\"0\":{\"type\":\"crypt\",\"offset\":\"32768\",\"size\":\"dynamic\",\"iv_tweak\":\"0\",\"sector_size\":512,\"encryption\":\"aes-lrw-benbi\"}}",
        "[{\"limit\":32,\"name\":\"short-key\",\"place\":\"segment\",\"severity\":\"low\",\"value\":31}]",
    ),
    (
        "48",
        "{\"0\":{\"type\":\"crypt\",\"offset\":\"32768\",\"size\":\"dynamic\",\"iv_tweak\":\"0\",\"sector_size\":512,\"encryption\":\"aes-lrw-benbi\"}}",
        "[]",
    ),
    (
        // no cipher
        "16",
        "{\"0\":{\"type\":\"crypt\",\"offset\":\"32768\",\"size\":\"dynamic\",\"iv_tweak\":\"0\",\"sector_size\":512,\"encryption\":null}}",
        "[]",
    ),
];

// A key slot before the volume key's length.
const SLOT: &str =
    "{\"type\":\"luks2\",\"kdf\":{\"type\":\"scrypt\"},\"af\":{},\"area\":{\"encryption\":\"aes-xts-plain64\",\"key_size\":64},\"key_size\":";

#[test]
fn segments(rt: HostRuntime) {
    for (length, segments, weak) in &SEGMENTS {
        let slots = text_of(&rt, &["{\"0\":", SLOT, length, "}}"]);
        let image = image_with(&rt, slots.as_str(), segments, "{}");
        assert_member(&rt, PLAIN, image.as_slice(), "weak", weak);
    }
}
