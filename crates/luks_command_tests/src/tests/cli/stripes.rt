//! `afSplit` and `afMerge`, and lines that are not a luksrd command.

use super::runs::{
    ALL, DONE, Inputs, WRITE_FAILED, check, check_reported, check_within, run_over, sink,
};
use super::same::assert_same_in;
use luks_args::planning::PlanFault;
use luks_commands::plan_fault::report_of_fault;
use luks_report::message::Message;
use luks_test_support::bytes::at;
use std::process::Abort;

pub(super) const ZEROS: &[u8] = &[0; 28];

// The first 28 bytes of the SHA-256 of 32 zero bytes.
const HASHED: &[u8] = &[
    0x66, 0x68, 0x7a, 0xad, 0xf8, 0x62, 0xbd, 0x77, 0x6c, 0x8f, 0xc1, 0x8b, 0x8e, 0x9f, 0x8e, 0x20,
    0x08, 0x97, 0x14, 0x85, 0x6e, 0xe2, 0x33, 0xb3, 0x90, 0x2a, 0x59, 0x1d,
];

// These bytes, followed by the last stripe of a key of 28 bytes 0xff, with one random stripe of
// zeros and SHA-256.
macro_rules! with_last {
    ($($first:literal)*) => {
        &[
            $($first,)* 0x99, 0x97, 0x85, 0x52, 0x07, 0x9d, 0x42, 0x88, 0x93, 0x70, 0x3e, 0x74,
            0x71, 0x60, 0x71, 0xdf, 0xf7, 0x68, 0xeb, 0x7a, 0x91, 0x1d, 0xcc, 0x4c, 0x6f, 0xd5,
            0xa6, 0xe2,
        ]
    };
}

const LAST: &[u8] = with_last!();

/// Both stripes.
pub(super) const STRIPES: &[u8] =
    with_last!(0 0 0 0 0 0 0 0 0 0 0 0 0 0 0 0 0 0 0 0 0 0 0 0 0 0 0 0);

// The bytes 0 to 31 and 32 to 63.
const UP_TO_31: &[u8] = &[
    0x00, 0x01, 0x02, 0x03, 0x04, 0x05, 0x06, 0x07, 0x08, 0x09, 0x0a, 0x0b, 0x0c, 0x0d, 0x0e, 0x0f,
    0x10, 0x11, 0x12, 0x13, 0x14, 0x15, 0x16, 0x17, 0x18, 0x19, 0x1a, 0x1b, 0x1c, 0x1d, 0x1e, 0x1f,
];

const UP_TO_63: &[u8] = &[
    0x20, 0x21, 0x22, 0x23, 0x24, 0x25, 0x26, 0x27, 0x28, 0x29, 0x2a, 0x2b, 0x2c, 0x2d, 0x2e, 0x2f,
    0x30, 0x31, 0x32, 0x33, 0x34, 0x35, 0x36, 0x37, 0x38, 0x39, 0x3a, 0x3b, 0x3c, 0x3d, 0x3e, 0x3f,
];

// 128 bytes, each 7 more than the one before, modulo 256.
const SEVENTHS: &[u8] = &[
    0x03, 0x0a, 0x11, 0x18, 0x1f, 0x26, 0x2d, 0x34, 0x3b, 0x42, 0x49, 0x50, 0x57, 0x5e, 0x65, 0x6c,
    0x73, 0x7a, 0x81, 0x88, 0x8f, 0x96, 0x9d, 0xa4, 0xab, 0xb2, 0xb9, 0xc0, 0xc7, 0xce, 0xd5, 0xdc,
    0xe3, 0xea, 0xf1, 0xf8, 0xff, 0x06, 0x0d, 0x14, 0x1b, 0x22, 0x29, 0x30, 0x37, 0x3e, 0x45, 0x4c,
    0x53, 0x5a, 0x61, 0x68, 0x6f, 0x76, 0x7d, 0x84, 0x8b, 0x92, 0x99, 0xa0, 0xa7, 0xae, 0xb5, 0xbc,
    0xc3, 0xca, 0xd1, 0xd8, 0xdf, 0xe6, 0xed, 0xf4, 0xfb, 0x02, 0x09, 0x10, 0x17, 0x1e, 0x25, 0x2c,
    0x33, 0x3a, 0x41, 0x48, 0x4f, 0x56, 0x5d, 0x64, 0x6b, 0x72, 0x79, 0x80, 0x87, 0x8e, 0x95, 0x9c,
    0xa3, 0xaa, 0xb1, 0xb8, 0xbf, 0xc6, 0xcd, 0xd4, 0xdb, 0xe2, 0xe9, 0xf0, 0xf7, 0xfe, 0x05, 0x0c,
    0x13, 0x1a, 0x21, 0x28, 0x2f, 0x36, 0x3d, 0x44, 0x4b, 0x52, 0x59, 0x60, 0x67, 0x6e, 0x75, 0x7c,
];

// The last stripe of a key of the bytes 0 to 63, with the two random stripes of `SEVENTHS` and
// SHA-1. By a script over Python's hashlib.
const LAST_SHA1: &[u8] = &[
    0xcd, 0x64, 0x4a, 0xa6, 0x21, 0xf8, 0x5f, 0x39, 0x37, 0x36, 0x14, 0x8e, 0x26, 0x6a, 0x9c, 0xf0,
    0x6f, 0x90, 0xab, 0x49, 0x02, 0xef, 0x32, 0x00, 0x28, 0xd9, 0x25, 0xa0, 0x89, 0xe0, 0x67, 0x0c,
    0x99, 0xaa, 0xc1, 0xfa, 0xfb, 0x83, 0x67, 0x67, 0xfa, 0x39, 0xc8, 0x5c, 0x01, 0x71, 0x79, 0xf8,
    0x09, 0xaa, 0x2a, 0x3c, 0x07, 0x54, 0xae, 0x9f, 0x46, 0x92, 0xea, 0x80, 0xf4, 0x8e, 0xfa, 0x17,
];

const SPLIT_1: &str = "afSplit --hash sha1 --stripes 1 --random r k";

pub(super) const SPLIT_2: &str = "afSplit --hash sha256 --stripes 2 --random r k";

const SPLIT_3: &str = "afSplit --hash sha256 --stripes 3 --random r k";

const SPLIT_64: &str = "afSplit --hash sha1 --stripes 3 --random r k";

const MERGE_1: &str = "afMerge --hash sha256 --stripes 1 --key-bytes 32 s";

pub(super) const MERGE_2: &str = "afMerge --hash sha256 --stripes 2 --key-bytes 28 s";

const MERGE_3: &str = "afMerge --hash sha256 --stripes 3 --key-bytes 28 s";

const MERGE_64: &str = "afMerge --hash sha1 --stripes 3 --key-bytes 64 s";

const FEW_STRIPES: &str = "4 luksrd: stripes are too few\n";

const FEW_BYTES: &str = "4 luksrd: random bytes are too few\n";

const LENGTH: &str = "4 luksrd: key must be 1 to 512 bytes\n";

const USAGE: &str = "1 usage: luksrd isLuks [--header FILE] IMAGE
       luksrd luksUUID [--header FILE] IMAGE
       luksrd luksDump [--header FILE] IMAGE
       luksrd luksCheck [--header FILE] IMAGE
       luksrd testPassphrase --key-file FILE [--key-slot N] [--max-iterations N] \
       [--header FILE] IMAGE
       luksrd luksCat --key-file FILE [--key-slot N] [--max-iterations N] [--header FILE] IMAGE
       luksrd afSplit --hash HASH --stripes N --random FILE KEY
       luksrd afMerge --hash HASH --stripes N --key-bytes N STRIPES
";

const TWO_INPUTS: &str = "luksCat --key-file - -";

const TWO_SECRETS: &str = "afSplit --hash sha256 --stripes 2 --random - -";

const MANY: &str = "afMerge --hash sha256 --stripes 4001 --key-bytes 1 s";

/// Parts of a byte string, to be joined.
type Parts = &'static [&'static [u8]];

/// A key of 28 bytes.
pub(super) const FF: &[u8] = &[0xff; 28];

const NONE: Parts = &[];

const THREE: Parts = &[ZEROS, HASHED, HASHED];

const SHORT: Parts = &[SEVENTHS, LAST_SHA1];

const KEY_64: Parts = &[UP_TO_31, UP_TO_63];

/// A line, the image, the second input and the output, the status and the message, and how many
/// bytes of the image and the second input remain.
type Row = (&'static str, [Parts; 3], &'static str, (usize, usize));

static ROWS: [Row; 17] = [
    (MERGE_1, [&[UP_TO_31], NONE, &[UP_TO_31]], DONE, (0, 0)),
    (MERGE_2, [&[ZEROS, LAST, b"x"], NONE, &[FF]], DONE, (1, 0)),
    (MERGE_2, [&[&[0; 55]], NONE, NONE], FEW_STRIPES, (0, 0)),
    (MERGE_3, [THREE, NONE, &[ZEROS]], DONE, (0, 0)),
    (SPLIT_2, [&[FF], &[&[0; 30]], &[ZEROS, LAST]], DONE, (0, 2)),
    (SPLIT_2, [&[FF], &[&[0; 27]], NONE], FEW_BYTES, (0, 0)),
    (SPLIT_3, [&[ZEROS], &[ZEROS, HASHED], THREE], DONE, (0, 0)),
    (SPLIT_1, [&[b"12345"], NONE, &[b"12345"]], DONE, (0, 0)),
    (
        SPLIT_3,
        [&[b"1234"], &[b"abcdefg"], &[b"abcd"]],
        FEW_BYTES,
        (0, 0),
    ),
    (SPLIT_64, [KEY_64, &[SEVENTHS], SHORT], DONE, (0, 0)),
    (MERGE_64, [SHORT, NONE, KEY_64], DONE, (0, 0)),
    (SPLIT_2, [NONE, &[&[0; 600]], NONE], LENGTH, (0, 600)),
    (
        SPLIT_2,
        [&[&[7; 515]], &[&[0; 600]], NONE],
        LENGTH,
        (2, 600),
    ),
    (TWO_INPUTS, [&[b"x"], &[b"y"], NONE], USAGE, (1, 1)),
    (TWO_SECRETS, [&[b"x"], &[b"y"], NONE], USAGE, (1, 1)),
    (MANY, [&[b"x"], &[b"y"], NONE], USAGE, (1, 1)),
    ("", [&[b"x"], &[b"y"], NONE], USAGE, (1, 1)),
];

// These parts, joined.
fn joined(rt: &(impl Abort + AllocGlobal), parts: &[&[u8]]) -> Vec<u8> {
    let mut all = Vec::new(rt.alloc());
    for part in parts {
        all.extend_from_slice(part).expect(rt, "memory for all");
    }
    all
}

fn check_row(rt: &(impl Abort + AllocGlobal), (line, parts, reported, left): &Row) {
    let [image, secret, output] = *parts;
    let image = joined(rt, image);
    let secret = joined(rt, secret);
    let output = joined(rt, output);
    let inputs: Inputs<'_> = [&[], image.as_slice(), secret.as_slice()];
    let (of_image, of_secret) = *left;
    check(
        rt,
        line,
        inputs,
        (output.as_slice(), *reported),
        (0, of_image, of_secret),
    )
}

#[test]
fn keys_are_split_and_merged(rt: HostRuntime) {
    for row in &ROWS {
        check_row(&rt, row);
    }
}

static MAX_KEY: [u8; 512] = [7; 512];

static ENOUGH: [u8; 600] = [0; 600];

// The longest key is split into two stripes, and 88 random bytes remain.
#[test]
fn the_longest_key_is_split(rt: HostRuntime) {
    let mut out = sink(&rt, 4096);
    let inputs: Inputs<'_> = [&[], &MAX_KEY, &ENOUGH];
    let (report, left) = run_over(&rt, SPLIT_2, inputs, (ALL, ALL), &mut out);
    check_reported(&rt, &"512", &report, DONE);
    assert_same_in(&rt, &"512", out.as_slice().len(), 1024);
    assert_same_in(&rt, &"512", left, (0, 0, 88));
}

// An output of this capacity, and a random stripe with 72 bytes after it.
fn check_capacity(rt: &(impl Abort + AllocGlobal), capacity: usize) {
    let inputs: Inputs<'_> = [&[], FF, at(&ENOUGH, 0, 100)];
    let ends = (at(STRIPES, 0, capacity), WRITE_FAILED);
    check_within(rt, (ALL, ALL, capacity), SPLIT_2, inputs, ends, (0, 0, 72));
}

#[test]
fn stripes_are_written_up_to_the_capacity(rt: HostRuntime) {
    check_capacity(&rt, 10);
    check_capacity(&rt, 30)
}

// The report if memory runs out while the arguments are parsed.
#[test]
fn a_plan_out_of_memory_is_reported(rt: HostRuntime) {
    let report = report_of_fault(PlanFault::Memory);
    assert_same_in(&rt, &report, report.message, Message::OutOfMemory);
    check_reported(&rt, &report, &report, "3 luksrd: out of memory\n")
}
