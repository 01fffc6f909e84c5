//! Numbers in a header on both sides of each bound, and devices that fail after a number of bytes.

use super::runs::{ALL, NO_KEY, OFFSET, TEST, WRITE_FAILED};
use super::tables::{CAT_ROW, Output, Row, check_rows, opened};
use super::volume::{Changes, PASSPHRASE, changed, usual};

// Offsets in a LUKS1 header.
const PAYLOAD_OFFSET: usize = 104;

const KEY_BYTES: usize = 108;

const DIGEST_ITERATIONS: usize = 164;

const SLOT_STATE: usize = 208;

const SLOT_ITERATIONS: usize = 212;

const SLOT_OFFSET: usize = 248;

const SLOT_STRIPES: usize = 252;

const STATE: &str = "1 luksrd: no key slot can be tried; skipped: 0 (state)\n";

const STRIPES: &str = "1 luksrd: no key slot can be tried; skipped: 0 (stripes)\n";

const ITERATIONS: &str = "1 luksrd: no key slot can be tried; skipped: 0 (iterations)\n";

const AREA: &str = "1 luksrd: no key slot can be tried; skipped: 0 (area)\n";

const DIGEST: &str = "1 luksrd: no key slot can be tried; skipped: 0 (digest)\n";

const KEY_SIZE: &str = "1 luksrd: segment refused: key bytes\n";

// The bytes of a number, in big-endian order.
macro_rules! bytes_of {
    ($number:literal) => {
        [
            ($number as u32 >> 24) as u8,
            ($number as u32 >> 16 & 0xff) as u8,
            ($number as u32 >> 8 & 0xff) as u8,
            ($number as u32 & 0xff) as u8,
        ]
    };
}

// A number at an offset, what `testPassphrase` reports, and how many bytes it consumes of the image
// and leaves of the key file: the key slot or the segment is refused right after the header was
// read, or the key slot is tried.
macro_rules! number {
    ($offset:ident, $number:literal, $reported:ident, $consumed:literal, $unread:literal) => {
        Row {
            lines: &[TEST],
            changes: &[($offset, &bytes_of!($number))],
            reported: $reported,
            consumed: $consumed,
            unread: $unread,
            ..CAT_ROW
        }
    };
}

static NUMBERS: [Row<'static>; 30] = [
    number!(SLOT_STATE, 1, STATE, 592, 13),
    number!(SLOT_STATE, 0x00ac_71f2, STATE, 592, 13),
    number!(SLOT_STATE, 0x00ac_71f4, STATE, 592, 13),
    number!(SLOT_STRIPES, 0, STRIPES, 592, 13),
    number!(SLOT_STRIPES, 1, NO_KEY, 4608, 0),
    number!(SLOT_STRIPES, 3999, NO_KEY, 260_096, 0),
    number!(SLOT_STRIPES, 4001, STRIPES, 592, 13),
    number!(SLOT_STRIPES, 0xffff_ffff, STRIPES, 592, 13),
    number!(SLOT_ITERATIONS, 0, ITERATIONS, 592, 13),
    number!(SLOT_ITERATIONS, 1, NO_KEY, 260_096, 0),
    number!(DIGEST_ITERATIONS, 0, DIGEST, 592, 13),
    number!(DIGEST_ITERATIONS, 1, NO_KEY, 260_096, 0),
    number!(SLOT_OFFSET, 0, AREA, 592, 13),
    number!(SLOT_OFFSET, 1, AREA, 592, 13),
    number!(SLOT_OFFSET, 2, NO_KEY, 257_024, 0),
    number!(SLOT_OFFSET, 3596, NO_KEY, 2_097_152, 0),
    number!(SLOT_OFFSET, 3597, AREA, 592, 13),
    number!(SLOT_OFFSET, 0xffff_ffff, AREA, 592, 13),
    number!(PAYLOAD_OFFSET, 0, OFFSET, 592, 13),
    number!(PAYLOAD_OFFSET, 1, OFFSET, 592, 13),
    number!(PAYLOAD_OFFSET, 2, AREA, 592, 13),
    number!(PAYLOAD_OFFSET, 507, AREA, 592, 13),
    // The key material may end where the payload starts.
    Row {
        changes: &[(PAYLOAD_OFFSET, &bytes_of!(508))],
        ..opened!("", PASSPHRASE, 0, 260_096)
    },
    number!(KEY_BYTES, 0, KEY_SIZE, 592, 13),
    number!(KEY_BYTES, 31, KEY_SIZE, 592, 13),
    number!(KEY_BYTES, 33, KEY_SIZE, 592, 13),
    number!(KEY_BYTES, 48, KEY_SIZE, 592, 13),
    number!(KEY_BYTES, 63, KEY_SIZE, 592, 13),
    number!(KEY_BYTES, 65, KEY_SIZE, 592, 13),
    number!(KEY_BYTES, 0xffff_ffff, KEY_SIZE, 592, 13),
];

// At most 32 MiB are loaded, even if the payload starts after them.
static FAR: [Row<'static>; 2] = [
    number!(SLOT_OFFSET, 65_036, NO_KEY, 33_554_432, 0),
    number!(SLOT_OFFSET, 65_037, AREA, 592, 13),
];

// The payload starts at sector 100,000.
const LATE: Changes = &[(PAYLOAD_OFFSET, &[0, 1, 0x86, 0xa0])];

#[test]
fn each_number_has_its_bounds(rt: HostRuntime) {
    let image = usual(&rt);
    check_rows(&rt, &image, &NUMBERS);
    check_rows(&rt, &changed(&rt, &image, 33_554_433, LATE), &FAR)
}

const READ_FAILED: &str = "6 luksrd: read failed\n";

// A row of `luksCat` of the whole image with these limits: how many bytes of the plaintext are
// written, what is reported, and how many bytes are consumed of the image and left of the key file.
macro_rules! limited {
    ($limits:expr, $written:literal, $reported:ident, $consumed:literal, $unread:literal) => {
        Row {
            limits: $limits,
            output: Output::Plain($written),
            reported: $reported,
            consumed: $consumed,
            unread: $unread,
            ..CAT_ROW
        }
    };
}

static LIMITS: [Row<'static>; 15] = [
    limited!((ALL, ALL, 0), 0, WRITE_FAILED, 2_097_664, 0),
    limited!((ALL, ALL, 511), 511, WRITE_FAILED, 2_097_664, 0),
    limited!((ALL, ALL, 512), 512, WRITE_FAILED, 2_098_176, 0),
    limited!((ALL, ALL, 700), 700, WRITE_FAILED, 2_098_176, 0),
    limited!((ALL, ALL, 1535), 1535, WRITE_FAILED, 2_098_688, 0),
    limited!((0, ALL, 4096), 0, READ_FAILED, 0, 13),
    limited!((591, ALL, 4096), 0, READ_FAILED, 591, 13),
    limited!((592, ALL, 4096), 0, READ_FAILED, 592, 0),
    limited!((260_095, ALL, 4096), 0, READ_FAILED, 260_095, 0),
    limited!((2_097_151, ALL, 4096), 0, READ_FAILED, 2_097_151, 0),
    limited!((2_097_152, ALL, 4096), 0, READ_FAILED, 2_097_152, 0),
    limited!((2_098_175, ALL, 4096), 512, READ_FAILED, 2_098_175, 0),
    limited!((2_098_300, ALL, 4096), 1024, READ_FAILED, 2_098_300, 0),
    limited!((2_098_688, ALL, 4096), 1536, READ_FAILED, 2_098_688, 0),
    limited!((ALL, 5, 4096), 0, READ_FAILED, 592, 8),
];

#[test]
fn a_run_stops_at_a_failed_call(rt: HostRuntime) {
    check_rows(&rt, &usual(&rt), &LIMITS)
}
