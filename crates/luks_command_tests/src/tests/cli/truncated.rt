//! Volumes that are truncated at every offset where it matters.

use super::runs::{BEFORE, CAT, CUT, DONE, Inputs, NOT_LUKS, TORN_511, check};
use super::same::assert_same_in;
use super::tables::{CAT_ROW, Output, Row, check_rows};
use super::volume::{PASSPHRASE, PLAIN, PLAIN_LEN, SMALL_LEN, sealed2, small, usual};
use luks_test_support::bytes::at;
use std::process::Abort;

// A row with the first `len` bytes of the image, all of which `luksCat` consumes: it writes this
// many bytes of the plaintext and reports this. It reads the key file only after it has the header,
// and leaves this many bytes of it.
macro_rules! cut {
    ($len:literal, $written:literal, $reported:ident, $unread:literal) => {
        Row {
            len: $len,
            output: Output::Plain($written),
            reported: $reported,
            unread: $unread,
            ..CAT_ROW
        }
    };
}

static USUAL_CUTS: [Row<'static>; 12] = [
    cut!(0, 0, NOT_LUKS, 13),
    cut!(7, 0, NOT_LUKS, 13),
    cut!(8, 0, CUT, 13),
    cut!(591, 0, CUT, 13),
    cut!(592, 0, CUT, 0),
    cut!(260_095, 0, CUT, 0),
    cut!(260_096, 0, BEFORE, 0),
    cut!(2_000_000, 0, BEFORE, 0),
    cut!(2_097_151, 0, BEFORE, 0),
    cut!(2_097_152, 0, DONE, 0),
    cut!(2_098_176, 1024, DONE, 0),
    cut!(2_098_687, 1024, TORN_511, 0),
];

const TORN_1: &str = "4 luksrd: image ends inside a sector: 1 bytes left over\n";

// Truncated in the binary header, the JSON text, the secondary header, the key area, before the
// payload, and in a sector.
static CUTS: [Row<'static>; 22] = [
    cut!(0, 0, NOT_LUKS, 13),
    cut!(7, 0, NOT_LUKS, 13),
    cut!(591, 0, NOT_LUKS, 13),
    cut!(592, 0, NOT_LUKS, 13),
    cut!(4095, 0, NOT_LUKS, 13),
    cut!(4096, 0, NOT_LUKS, 13),
    cut!(16_383, 0, NOT_LUKS, 13),
    cut!(16_384, 0, CUT, 0),
    cut!(20_480, 0, CUT, 0),
    cut!(32_767, 0, CUT, 0),
    cut!(32_768, 0, CUT, 0),
    cut!(33_279, 0, CUT, 0),
    cut!(33_280, 0, BEFORE, 0),
    cut!(36_863, 0, BEFORE, 0),
    cut!(36_864, 0, DONE, 0),
    cut!(36_865, 0, TORN_1, 0),
    cut!(37_375, 0, TORN_511, 0),
    cut!(37_376, 512, DONE, 0),
    cut!(37_377, 512, TORN_1, 0),
    cut!(37_888, 1024, DONE, 0),
    cut!(38_399, 1024, TORN_511, 0),
    cut!(38_400, 1536, DONE, 0),
];

const SHORT_1024: &str = "4 luksrd: image ends 1024 bytes before the segment does\n";

const SHORT_513: &str = "4 luksrd: image ends 513 bytes before the segment does\n";

const SHORT_512: &str = "4 luksrd: image ends 512 bytes before the segment does\n";

const SHORT_1: &str = "4 luksrd: image ends 1 bytes before the segment does\n";

// The last row is the whole image, with 512 bytes after the payload.
static FIXED_CUTS: [Row<'static>; 7] = [
    cut!(36_863, 0, BEFORE, 0),
    cut!(36_864, 0, SHORT_1024, 0),
    cut!(37_375, 0, SHORT_513, 0),
    cut!(37_376, 512, SHORT_512, 0),
    cut!(37_887, 512, SHORT_1, 0),
    cut!(37_888, 1024, DONE, 0),
    Row {
        output: Output::Plain(1024),
        consumed: 37_888,
        ..CAT_ROW
    },
];

#[test]
fn a_truncated_volume_is_reported(rt: HostRuntime) {
    check_rows(&rt, &usual(&rt), &USUAL_CUTS);
    let image = sealed2(&rt, "dynamic");
    assert_same_in(&rt, &"a volume of LUKS2", image.len(), SMALL_LEN);
    check_rows(&rt, &image, &CUTS)
}

// A payload of 1,024 bytes, truncated and whole.
#[test]
fn a_truncated_fixed_size_is_reported(rt: HostRuntime) {
    check_rows(&rt, &sealed2(&rt, "1024"), &FIXED_CUTS)
}

// What is reported of an image that ends this many bytes after a sector's start.
fn torn_line(rt: &(impl Abort + AllocGlobal), torn: usize) -> String {
    if torn == 0 {
        return String::from_str(rt.alloc(), DONE).expect(rt, "memory for a line");
    }
    format!(in rt.alloc(); "4 luksrd: image ends inside a sector: {torn} bytes left over\n").expect(
        rt,
        "memory for a line",
    )
}

// A small volume, truncated after `len` bytes of its payload.
fn check_torn(rt: &(impl Abort + AllocGlobal), image: &[u8], len: usize) {
    let torn = len % 512;
    let reported = torn_line(rt, torn);
    let inputs: Inputs<'_> = [&[], at(image, 0, len.saturating_add(36_864)), PASSPHRASE];
    let ends = (at(&PLAIN, 0, len - torn), reported.as_str());
    check(rt, CAT, inputs, ends, (0, 0, 0))
}

#[test]
fn each_truncation_of_a_payload_is_reported(rt: HostRuntime) {
    let image = small(&rt);
    assert_same_in(&rt, &"a small volume", image.len(), SMALL_LEN);
    for len in 0..PLAIN_LEN + 1 {
        check_torn(&rt, &image, len);
    }
}
