//! What is printed of LUKS2 headers.

use super::fixture::{assert_text, check_findings, read};
use crate::tests::shared::joined;
use luks_report::dump::{dump_text, uuid_text};
use luks_test_support::header2::{SIZE, empty_image, write_header};
use std::process::Abort;

// Key slots in JSON text that are not ordered by number, and digests with and without their
// members.
const KEYSLOTS: &str = "{\"keyslots\":{\
    \"10\":{\"type\":\"luks2\",\"key_size\":64,\
    \"af\":{\"type\":\"luks1\",\"stripes\":4000,\"hash\":\"sha256\"},\
    \"area\":{\"type\":\"raw\",\"offset\":\"548864\",\"size\":\"258048\",\
    \"encryption\":\"aes-xts-plain64\",\"key_size\":64},\
    \"kdf\":{\"type\":\"argon2id\"}},\
    \"2\":{\"type\":\"luks2\",\"key_size\":64,\"priority\":2,\
    \"af\":{\"type\":\"luks1\",\"stripes\":4000,\"hash\":\"sha256\"},\
    \"area\":{\"type\":\"raw\",\"offset\":\"290816\",\"size\":\"262144\",\
    \"encryption\":\"aes-xts-plain64\",\"key_size\":64},\
    \"kdf\":{\"type\":\"pbkdf2\",\"hash\":\"SHA512\",\"iterations\":4294967295,\"salt\":\"\"}},\
    \"1\":{\"type\":\"luks1\"},\
    \"0\":{\"type\":\"luks2\",\"key_size\":64,\
    \"af\":{\"type\":\"luks1\",\"stripes\":4000,\"hash\":\"sha256\"},\
    \"area\":{\"type\":\"raw\",\"offset\":\"32768\",\"size\":\"258048\",\
    \"encryption\":\"aes-xts-plain64\",\"key_size\":64},\
    \"kdf\":{\"type\":\"pbkdf2\",\"hash\":\"sha256\",\"iterations\":1000,\"salt\":\"AAAA\"}}},";

const REST: &str = "\"segments\":{\"0\":{\"type\":\"crypt\",\"offset\":\"16777216\",\
    \"size\":\"dynamic\",\"iv_tweak\":\"0\",\"encryption\":\"aes-xts-plain64\",\
    \"sector_size\":512}},\
    \"digests\":{\"10\":{\"type\":\"pbkdf2\",\"keyslots\":[],\"segments\":[\"a,\\\\b\",\"\"],\
    \"hash\":\"sha1\",\"iterations\":1,\"salt\":\"\",\"digest\":\"AAAAAAAAAAAAAAAAAAAAAAAAAAA=\"},\
    \"9\":{\"type\":\"pbkdf2\"},\
    \"0\":{\"type\":\"pbkdf2\",\"keyslots\":[\"10\",\"2\",\"0\"],\"segments\":[\"0\"],\
    \"hash\":\"sha256\",\"iterations\":1500,\"salt\":\"AAAA\",\
    \"digest\":\"AAAAAAAAAAAAAAAAAAAAAAAAAAAAAAAAAAAAAAAAAAA=\"}}}";

const UUID: &str = "11111111-2222-3333-4444-555555555555\n";

const VERSION: &str = "Version: 2\nHeader: ";

const HEADER_LINES: &str = "Header size: 16384\n\
    UUID: 11111111-2222-3333-4444-555555555555\nLabel: a\\x5clabel\\xc3\\x0a~\nSubsystem: \n\
    Checksum: sha256\n";

const SLOT_LINES: &str = "Slot 0: USABLE priority=1 kdf=pbkdf2 hash=sha256 iterations=1000 \
    offset=32768 size=258048\n\
    Slot 1: SKIPPED type\n\
    Slot 2: USABLE priority=2 kdf=pbkdf2 hash=sha512 iterations=4294967295 \
    offset=290816 size=262144\n\
    Slot 10: SKIPPED argon2id\n";

const OTHER_LINES: &str = "Segment 0: offset=16777216 size=dynamic iv=0 \
    encryption=aes-xts-plain64 sector=512\n\
    Digest 0: USABLE hash=sha256 iterations=1500 bytes=32 keyslots=10,2,0 segments=0\n\
    Digest 9: REFUSED\n\
    Digest 10: USABLE hash=sha1 iterations=1 bytes=20 keyslots= segments=a,\\x5cb,\n";

// The JSON text before a segment, and the text after it.
const BEFORE: &str = r#"{"keyslots":{},"digests":{},"segments":{"#;

const AFTER: &str = "}}";

const FIXED: &str = "\"0\":{\"type\":\"crypt\",\"offset\":\"32768\",\"size\":\"8192\",\
    \"iv_tweak\":\"18446744073709551615\",\"encryption\":\"aes-cbc-essiv:sha256\",\
    \"sector_size\":4096}";

const FIXED_LINE: &str = "Segment 0: offset=32768 size=8192 iv=18446744073709551615 \
    encryption=aes-cbc-essiv:sha256 sector=4096\n";

const LINEAR: &str = r#""0":{"type":"linear"}"#;

const NO_SEGMENT: &str = "Segment: REFUSED segments\n";

/// The sequence numbers of two headers, the parts of their JSON text, the first lines of the dump,
/// and the lines after those of the binary header.
type Dump = ([u64; 2], [&'static str; 3], &'static str, [&'static str; 2]);

static DUMPS: [Dump; 5] = [
    (
        [258, 258],
        [KEYSLOTS, REST, ""],
        "primary\nSequence: 258\n",
        [SLOT_LINES, OTHER_LINES],
    ),
    (
        [0, 1],
        [BEFORE, FIXED, AFTER],
        "secondary\nSequence: 1\n",
        [FIXED_LINE, ""],
    ),
    (
        [0, 1],
        [BEFORE, LINEAR, AFTER],
        "secondary\nSequence: 1\n",
        ["Segment: REFUSED type\n", ""],
    ),
    (
        [0, 1],
        [BEFORE, "", AFTER],
        "secondary\nSequence: 1\n",
        [NO_SEGMENT, ""],
    ),
    (
        [1, u64::MAX],
        [BEFORE, "", AFTER],
        "secondary\nSequence: 18446744073709551615\n",
        [NO_SEGMENT, ""],
    ),
];

// An image with a header of this JSON text for each sequence number that is given: the primary
// header, the secondary one, or both.
fn image(rt: &(impl Abort + AllocGlobal), numbers: [Option<u64>; 2], json: &str) -> Vec<u8> {
    let mut image = empty_image(rt.alloc()).expect(rt, "memory");
    if let Some(number) = numbers[0] {
        write_header(image.as_mut_slice(), 0, number, json);
    }
    if let Some(number) = numbers[1] {
        write_header(image.as_mut_slice(), SIZE, number, json);
    }
    image
}

fn check_dump(rt: &(impl Abort + AllocGlobal), row: &Dump) {
    let ([one, other], json, first, rest) = *row;
    let json = joined(rt, &json);
    let image = image(rt, [Some(one), Some(other)], json.as_str());
    let header = read(rt, &image);
    let shown = dump_text(rt.alloc(), &header).expect(rt, "memory");
    let wanted = joined(rt, &[VERSION, first, HEADER_LINES, rest[0], rest[1]]);
    assert_text(rt, shown.as_str(), wanted.as_str());
    let shown = uuid_text(rt.alloc(), &header).expect(rt, "memory");
    assert_text(rt, shown.as_str(), UUID);
}

#[test]
fn a_header_is_printed_whole(rt: HostRuntime) {
    for row in &DUMPS {
        check_dump(&rt, row);
    }
}

const PLAIN: &str = r#"{"keyslots":{},"segments":{},"digests":{}}"#;

const DIFFER: &str = "headers: sequence numbers differ\n";

// The sequence numbers of the headers that the image has, and the findings before the one that
// there is no segment.
static FOUND: [([Option<u64>; 2], &str); 5] = [
    ([Some(5), Some(5)], ""),
    ([Some(5), Some(6)], DIFFER),
    ([Some(6), Some(5)], DIFFER),
    ([Some(5), None], "secondary header: not valid\n"),
    ([None, Some(5)], "primary header: not valid\n"),
];

#[test]
fn findings_of_two_headers(rt: HostRuntime) {
    for (numbers, first) in &FOUND {
        let wanted = joined(&rt, &[first, "segment: segments\n"]);
        check_findings(&rt, &image(&rt, *numbers, PLAIN), wanted.as_str());
    }
}

static NAMES: [&str; 4] = ["32", "00", "x", ""];

const NAMED: &str = "headers: sequence numbers differ\nkeyslots: name out of range\n\
    segment: segments\nslot 0: type\n";

#[test]
fn a_name_out_of_range_is_found(rt: HostRuntime) {
    let json = r#"{"keyslots":{"31":{}},"segments":{},"digests":{"x":{}}}"#;
    let wanted = "segment: segments\nslot 31: type\n";
    check_findings(&rt, &image(&rt, [Some(5), Some(5)], json), wanted);
    for name in &NAMES {
        let after = r#"":{}},"segments":{},"digests":{}}"#;
        let json = joined(&rt, &[r#"{"keyslots":{"0":{},""#, name, after]);
        check_findings(&rt, &image(&rt, [Some(5), Some(6)], json.as_str()), NAMED);
    }
}
