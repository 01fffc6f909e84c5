//! LUKS2 volumes: which key slots are tried, key slots that use Argon2, fixed sizes, and a damaged
//! primary header, with a search that reads past the payload's start.

use super::calls::{Hardship, check_trial};
use super::devices::Trial;
use super::runs::{
    ALL, BEFORE, CAT, DONE, Inputs, NO_KEY, TEST, WRITE_FAILED, check, check_within,
};
use super::tables::{CAT_ROW, Output, Row, check_rows, opened, refused, written};
use super::volume::{
    Changes, KEY, NAMES_64_KIB, PASSPHRASE, PLAIN, PLAIN_LEN, SLOT, SMALL_LEN, changed, followed,
    plain_of, prefix2_of, sealed2, text_of,
};
use luks_kdf::Hash;
use luks_test_support::bytes::at;
use luks_test_support::parameters::parameters2;
use luks_volume::luks2::seal2;
use luks_volume::parameters::{Seal2, Slot2};
use std::process::Abort;

/// A key slot with this number, this priority and this passphrase, and `random_len` bytes of random
/// stripes.
macro_rules! slot {
    ($number:literal, $priority:literal, $passphrase:expr, $random_len:literal) => {
        Slot2 {
            number: $number,
            priority: $priority,
            hash: Hash::Sha512,
            iterations: 2,
            salt: [0x51; 32],
            af_hash: Hash::Sha1,
            stripes: 4,
            passphrase: $passphrase,
            random: &[0x5a; $random_len],
        }
    };
}

pub(super) use slot;

// A volume with the key of 64 bytes and a payload from `offset` on, which has a fixed size if
// `fixed`.
fn sealed_at<'a>(
    rt: &(impl Abort + AllocGlobal),
    slots: &'a [Slot2<'a>],
    (offset, fixed): (u64, bool),
    plain: &'a [u8],
) -> Vec<u8> {
    let volume = Seal2 {
        key: KEY,
        offset,
        fixed,
        ..parameters2(slots, plain)
    };
    seal2(rt.alloc(), &volume).expect(rt, "a volume")
}

// An empty output.
const EMPTY: Output = Output::Text("");

// The key slots that are tried without `--key-slot` end at byte 49,664, and slot 1 ends at byte
// 37,376.
static OF_RANKED: [Row<'static>; 9] = [
    opened!("", b"one", 2, 49_664),
    written!("", b"one", EMPTY, DONE),
    opened!("", b"two", 3, 49_664),
    written!("", b"two", EMPTY, DONE),
    opened!("--key-slot 10 ", b"two", 10, 49_664),
    written!("--key-slot 10 ", b"two", EMPTY, DONE),
    opened!("--key-slot 1 ", b"hidden", 1, 37_376),
    written!("--key-slot 1 ", b"hidden", EMPTY, DONE),
    refused!("", b"hidden", NO_KEY, 49_664, 0),
];

static RANKED: [Slot2<'static>; 5] = [
    slot!(0, 1, b"one", 192),
    slot!(1, 0, b"hidden", 192),
    slot!(2, 2, b"one", 192),
    slot!(10, 1, b"two", 192),
    slot!(3, 1, b"two", 192),
];

#[test]
fn slots_are_tried_by_priority_and_number(rt: HostRuntime) {
    let image = sealed_at(&rt, &RANKED, (65_536, false), &[]);
    check_rows(&rt, &image, &OF_RANKED)
}

// A key slot as cryptsetup makes it by default, without its number.
const ARGON2ID: &str = "{\"type\":\"luks2\",\"key_size\":64,\
    \"af\":{\"type\":\"luks1\",\"stripes\":4000,\"hash\":\"sha256\"},\
    \"area\":{\"type\":\"raw\",\"offset\":\"33280\",\"size\":\"258048\",\
    \"encryption\":\"aes-xts-plain64\",\"key_size\":64},\
    \"kdf\":{\"type\":\"argon2id\",\"time\":4,\"memory\":1048576,\"cpus\":4,\
    \"salt\":\"UVFRUVFRUVFRUVFRUVFRUVFRUVFRUVFRUVFRUVFRUVE=\"}}";

const NO_OTHER: &str = "2 luksrd: no key opens the volume; skipped: 0 (argon2id)\n";

const NAMED: &str = "1 luksrd: key slot 0 is skipped: argon2id\n";

const NONE_TRIED: &str = "1 luksrd: no key slot can be tried; skipped: 0 (argon2id)\n";

// Slot 0 uses Argon2, and slots 2 and 10 use PBKDF2 over the same key material.
const OF_ARGON: &[Row<'static>] = &[
    opened!("", PASSPHRASE, 2, 33_280),
    written!("", PASSPHRASE, EMPTY, BEFORE),
    refused!("", b"another", NO_OTHER, 33_280, 0),
    refused!("--key-slot 0 ", PASSPHRASE, NAMED, 32_768, 13),
    opened!("--key-slot 10 ", PASSPHRASE, 10, 33_280),
    written!("--key-slot 10 ", PASSPHRASE, EMPTY, BEFORE),
];

const OF_LONE: &[Row<'static>] = &[refused!("", PASSPHRASE, NONE_TRIED, 32_768, 13)];

// Key slots, their names, and rows for a volume with them and without a payload.
type Slots = (
    &'static [&'static str],
    &'static str,
    &'static [Row<'static>],
);

static SLOTS: [Slots; 2] = [
    (
        &["\"0\":", ARGON2ID, ",\"2\":", SLOT, ",\"10\":", SLOT],
        "\"0\",\"2\",\"10\"",
        OF_ARGON,
    ),
    (&["\"0\":", ARGON2ID], "\"0\"", OF_LONE),
];

fn check_slots(rt: &(impl Abort + AllocGlobal), (slots, names, rows): &Slots) {
    let slots = text_of(rt, slots);
    let image = prefix2_of(rt, (slots.as_str(), names), ("36864", "dynamic"));
    check_rows(rt, &image, rows)
}

#[test]
fn slots_by_argon2_are_skipped(rt: HostRuntime) {
    for row in &SLOTS {
        check_slots(&rt, row);
    }
}

const SHORT: &str = "4 luksrd: image ends 2560 bytes before the segment does\n";

static AFTER: [u8; 808] = [0xee; 808];

// A volume with this plaintext and a fixed size, with 808 bytes after it.
fn fixed_size(rt: &(impl Abort + AllocGlobal), plain: &[u8]) -> Vec<u8> {
    let sealed = sealed_at(rt, &[slot!(0, 1, b"one", 192)], (65_536, true), plain);
    followed(rt, sealed, 65_536 + 3584, &AFTER)
}

// The volume, whole and truncated.
fn check_fixed_size(rt: &(impl Abort + AllocGlobal), image: &[u8], plain: &[u8]) {
    let whole: Inputs<'_> = [&[], image, b"one"];
    check(rt, CAT, whole, (plain, DONE), (0, 808, 0));
    let cut: Inputs<'_> = [&[], at(image, 0, 65_536 + 1024), b"one"];
    check(rt, CAT, cut, (at(plain, 0, 1024), SHORT), (0, 0, 0))
}

#[test]
fn a_fixed_size_ends_the_payload(rt: HostRuntime) {
    let plain = plain_of(&rt, 3584);
    check_fixed_size(&rt, &fixed_size(&rt, &plain), &plain)
}

const NAMES_4_MIB: Changes = &[(8, &[0, 0, 0, 0, 0, 0x40, 0, 0])];

// A volume whose key slot has 4000 stripes, the most possible, and whose payload starts at byte
// 1,048,576. The primary header names 4,194,304 bytes, and its checksum no longer matches: the
// search for the secondary header reads as many bytes, of which 3,145,728 are the payload's.
fn searched(rt: &(impl Abort + AllocGlobal), plain: &[u8]) -> Vec<u8> {
    let random = plain_of(rt, 3999 * 64);
    let slots = [Slot2 {
        stripes: 4000,
        random: &random,
        ..slot!(0, 1, b"one", 192)
    }];
    let image = sealed_at(rt, &slots, (1_048_576, false), plain);
    changed(rt, &image, image.len(), NAMES_4_MIB)
}

// The whole volume, and an output with a capacity of 700 bytes.
fn check_far_search(rt: &(impl Abort + AllocGlobal), image: &[u8], plain: &[u8]) {
    let inputs: Inputs<'_> = [&[], image, b"one"];
    let whole = (plain, DONE);
    check_within(rt, (ALL, ALL, 4_194_304), CAT, inputs, whole, (0, 0, 0));
    let ends = (at(plain, 0, 700), WRITE_FAILED);
    check_within(rt, (ALL, ALL, 700), CAT, inputs, ends, (0, 1_048_576, 0))
}

#[test]
fn a_search_past_the_start_loses_nothing(rt: HostRuntime) {
    let plain = plain_of(&rt, 4_194_304);
    check_far_search(&rt, &searched(&rt, &plain), &plain)
}

const TORN_412: &str = "4 luksrd: image ends inside a sector: 412 bytes left over\n";

// A row for an output of this capacity, which is filled with plaintext.
macro_rules! capacity {
    ($capacity:literal) => {
        Row {
            limits: (ALL, ALL, $capacity),
            output: Output::Plain($capacity),
            reported: WRITE_FAILED,
            ..CAT_ROW
        }
    };
}

// The bytes of the payload that a search has read are written first, up to the output's capacity.
static SEARCHED: [Row<'static>; 9] = [
    opened!("", PASSPHRASE, 0, 38_400),
    written!("", PASSPHRASE, Output::Plain(PLAIN_LEN), DONE),
    refused!("", b"another passphrase", NO_KEY, 38_400, 0),
    capacity!(0),
    capacity!(511),
    capacity!(512),
    capacity!(700),
    capacity!(1535),
    Row {
        len: 38_300,
        output: Output::Plain(1024),
        reported: TORN_412,
        ..CAT_ROW
    },
];

// The plaintext is also written if the image is read in pieces.
fn check_searched(rt: &(impl Abort + AllocGlobal), image: &[u8]) {
    let trial = Trial {
        line: CAT,
        header: &[],
        image,
        secret: PASSPHRASE,
        start: 36_864,
        whole: &PLAIN,
        has_findings: false,
        left: 0,
    };
    for piece in [1, 511, 4097] {
        check_trial(rt, Hardship::Given, &trial, (0, piece, 0, 4096));
    }
}

// The payload starts at byte 36,864, and the damaged primary header names 65,536 bytes.
#[test]
fn what_a_search_has_read_is_written(rt: HostRuntime) {
    let image = changed(&rt, &sealed2(&rt, "dynamic"), SMALL_LEN, NAMES_64_KIB);
    check_rows(&rt, &image, &SEARCHED);
    check_searched(&rt, &image)
}

// An image that ends within its secondary header is not read again for the key areas or the
// payload.
#[test]
fn a_second_header_that_is_truncated_ends_the_image(rt: HostRuntime) {
    let image = sealed2(&rt, "dynamic");
    for line in [TEST, CAT] {
        let trial = Trial {
            line,
            header: &[],
            image: at(&image, 0, 20_000),
            secret: PASSPHRASE,
            start: usize::MAX,
            whole: &[],
            has_findings: false,
            left: 0,
        };
        check_trial(&rt, Hardship::Truncated, &trial, (0, 0, 0, 0));
    }
}
