//! Headers of both formats, read and then marked as detached.

use super::fixture::{changed, image2, read};
use super::validation::{Numbers, PAYLOAD_OFFSET, SLOT_OFFSET, fault_of, is_there};
use crate::tests::shared::{assert_of, kept};
use luks_header::derivation::Limits;
use luks_header::header::Header;
use luks_header::header_slots::{VerdictKind, verdict_kind};
use std::process::Abort;

// A salt of 8 bytes 01, and a digest of 20 bytes 02, by Python's base64.b64encode.
const KEYSLOTS: &str = "{\"keyslots\":{\"0\":{\"type\":\"luks2\",\"key_size\":64,\
    \"af\":{\"type\":\"luks1\",\"stripes\":4000,\"hash\":\"sha256\"},\
    \"area\":{\"type\":\"raw\",\"offset\":\"32768\",\"size\":\"258048\",\
    \"encryption\":\"aes-xts-plain64\",\"key_size\":64},\
    \"kdf\":{\"type\":\"pbkdf2\",\"hash\":\"sha256\",\"iterations\":1000,\
    \"salt\":\"AQEBAQEBAQE=\"}}},";

const DIGESTS: &str = "\"digests\":{\"0\":{\"type\":\"pbkdf2\",\"keyslots\":[\"0\"],\
    \"segments\":[\"0\"],\"hash\":\"sha256\",\"iterations\":1000,\
    \"salt\":\"AQEBAQEBAQE=\",\"digest\":\"AgICAgICAgICAgICAgICAgICAgI=\"}},";

const SEGMENT: &str = "\"segments\":{\"0\":{\"type\":\"crypt\",\"size\":\"dynamic\",\
    \"iv_tweak\":\"0\",\"encryption\":\"aes-xts-plain64\",\"sector_size\":512,\
    \"offset\":\"";

// The verdict on key slot 0.
fn slot_word(header: &Header) -> &'static str {
    match verdict_kind(header, Limits::without_argon2(None), 0) {
        Some(VerdictKind::Usable(_)) => "usable",
        Some(VerdictKind::Disabled) => "disabled",
        Some(VerdictKind::Skipped(reason)) => reason.text(),
        None => "not there",
    }
}

fn is_detached(header: &Header) -> bool {
    match header {
        Header::V1(first) => first.detached,
        Header::V2(second, _) => second.detached,
    }
}

/// The fault of the segment, and the verdict on key slot 0.
type Words = [&'static str; 2];

fn has_words(header: &Header, want: &Words) -> bool {
    [fault_of(header), slot_word(header)] == *want
}

// Checks that a header that was read is not detached, and its fault and verdict before and after it
// is detached.
fn check(
    rt: &(impl Abort + AllocGlobal),
    row: &str,
    header: Header,
    attached: &Words,
    detached: &Words,
) {
    assert_of(
        rt,
        row,
        has_words(&header, attached) & !is_detached(&header),
    );
    let without_image = kept(rt, header.detach());
    assert_of(
        rt,
        row,
        has_words(without_image, detached) & is_detached(without_image),
    );
    assert_of(
        rt,
        row,
        is_there(rt, without_image, 0) | (detached[1] == "area"),
    );
}

const GOOD: Words = ["none", "usable"];

const FIRST: Words = ["offset", "area"];

const DETACHED: Words = ["none", "area"];

type First = (&'static str, Numbers, Words, Words);

// Numbers of a header of LUKS1, and the problems if it is attached and if it is detached. The key
// material ends with sector 508. With a detached header too, key material starts after the header
// and ends within 32 MiB.
static OF_LUKS1: [First; 10] = [
    ("0", &[(PAYLOAD_OFFSET, 0)], FIRST, GOOD),
    ("1", &[(PAYLOAD_OFFSET, 1)], FIRST, GOOD),
    ("2", &[(PAYLOAD_OFFSET, 2)], DETACHED, GOOD),
    ("507", &[(PAYLOAD_OFFSET, 507)], DETACHED, GOOD),
    ("508", &[(PAYLOAD_OFFSET, 508)], GOOD, GOOD),
    ("0xffffffff", &[(PAYLOAD_OFFSET, 0xffff_ffff)], GOOD, GOOD),
    (
        "area 1",
        &[(PAYLOAD_OFFSET, 0), (SLOT_OFFSET, 1)],
        FIRST,
        DETACHED,
    ),
    (
        "area 2",
        &[(PAYLOAD_OFFSET, 0), (SLOT_OFFSET, 2)],
        FIRST,
        GOOD,
    ),
    (
        "area 65036",
        &[(PAYLOAD_OFFSET, 0), (SLOT_OFFSET, 65_036)],
        FIRST,
        GOOD,
    ),
    (
        "area 65037",
        &[(PAYLOAD_OFFSET, 0), (SLOT_OFFSET, 65_037)],
        FIRST,
        DETACHED,
    ),
];

fn check_first(rt: &(impl Abort + AllocGlobal), rows: &[First]) {
    for (row, numbers, attached, detached) in rows {
        let header = read(rt, &changed(numbers, &[]));
        check(rt, row, header, attached, detached);
    }
}

#[test]
fn a_header_of_luks1(rt: HostRuntime) {
    check_first(&rt, &OF_LUKS1);
}

const WRONG: Words = ["offset", "usable"];

type Second = (&'static str, Words, Words);

// The payload's start, and the problems if the header is attached and if it is detached. Both
// headers end with byte 32,768, and the key material with byte 288,768. If the payload's start is
// refused, key areas are checked without it.
static OF_LUKS2: [Second; 7] = [
    ("0", WRONG, GOOD),
    ("511", WRONG, WRONG),
    ("32256", WRONG, GOOD),
    ("32768", DETACHED, GOOD),
    ("32769", WRONG, WRONG),
    ("288256", DETACHED, GOOD),
    ("288768", GOOD, GOOD),
];

fn check_second(rt: &(impl Abort + AllocGlobal), rows: &[Second]) {
    for (offset, attached, detached) in rows {
        let image = image2(rt, &[KEYSLOTS, DIGESTS, SEGMENT, offset, "\"}}}"]);
        check(rt, offset, read(rt, image), attached, detached);
    }
}

#[test]
fn a_header_of_luks2(rt: HostRuntime) {
    check_second(&rt, &OF_LUKS2);
}
