//! The commands on headers, over LUKS1 and over images without a header.

use super::runs::{ALL, CUT, DONE, FINDINGS, NOT_LUKS, WRITE_FAILED};
use super::tables::{CAT_ROW, HEADER_ROW, Output, Row, check_rows};
use super::volume::{Changes, changed};

// The state of a key slot that is not in use.
const DISABLED: &[u8] = &[0, 0, 0xde, 0xad];

/// The fields of a header, by offset: the cipher aes-xts-plain64, SHA-256, payload offset 4096, 64
/// key bytes, the digest 00 to 13, a digest salt of bytes aa, 1000 iterations, a UUID field with no
/// zero byte, slot 0 in use, slot 2 with state 1 and the others disabled.
pub(super) static FIELDS: [(usize, &[u8]); 20] = [
    (0, b"LUKS\xba\xbe\x00\x01"),
    (8, b"aes"),
    (40, b"xts-plain64"),
    (72, b"sha256"),
    (104, &[0, 0, 16, 0]),
    (108, &[0, 0, 0, 64]),
    (
        112,
        &[
            0, 1, 2, 3, 4, 5, 6, 7, 8, 9, 10, 11, 12, 13, 14, 15, 16, 17, 18, 19,
        ],
    ),
    (132, &[0xaa; 32]),
    (164, &[0, 0, 3, 0xe8]),
    (168, b"0123456789012345678901234567890123456789"),
    (208, &[0, 0xac, 0x71, 0xf3, 0, 0, 7, 0xd0]),
    (216, &[1; 32]),
    (248, &[0, 0, 0, 8, 0, 0, 15, 0xa0]),
    (256, DISABLED),
    (304, &[0, 0, 0, 1]),
    (352, DISABLED),
    (400, DISABLED),
    (448, DISABLED),
    (496, DISABLED),
    (544, DISABLED),
];

// A dump that starts with these lines.
macro_rules! dump {
    ($top:literal) => {
        concat!(
            $top,
            "Key bytes: 64\nMK digest: 000102030405060708090a0b0c0d0e0f10111213\n",
            "MK salt: aaaaaaaaaaaaaaaaaaaaaaaaaaaaaaaaaaaaaaaaaaaaaaaaaaaaaaaaaaaaaaaa\n",
            "MK iterations: 1000\nSlot 0: ENABLED iterations=2000 ",
            "salt=0101010101010101010101010101010101010101010101010101010101010101 ",
            "offset=8 stripes=4000\nSlot 1: DISABLED\nSlot 2: DAMAGED state=00000001\n",
            "Slot 3: DISABLED\nSlot 4: DISABLED\nSlot 5: DISABLED\nSlot 6: DISABLED\n",
            "Slot 7: DISABLED\n",
        )
    };
}

const DUMP: &str = dump!(
    "Version: 1\nUUID: 0123456789012345678901234567890123456789\n\
    Cipher: aes-xts-plain64\nHash: sha256\nPayload offset: 4096\n"
);

const UUID: &str = "0123456789012345678901234567890123456789\n";

// The finding in that header: one of its slots is damaged.
const ONE_FINDING: &str = "slot 2: state\n";

const EMPTY: &str = "";

/// A line, the text that it prints, and whether it has findings.
pub(super) type PrintedText = (&'static str, &'static str, bool);

/// What each command prints of the header of `FIELDS`.
pub(super) static PRINTED_TEXTS: [PrintedText; 4] = [
    ("isLuks i", EMPTY, false),
    ("luksUUID i", UUID, false),
    ("luksDump i", DUMP, false),
    ("luksCheck i", ONE_FINDING, true),
];

// Texts that are empty, are not ASCII, or contain a newline.
const ODD: Changes = &[
    (168, b"a\\b\x1f \x7e\x7f\x80\xff\n\x00z"),
    (8, b"\x00"),
    (40, b"c\xc3\x00"),
    (72, b"\x00"),
];

const ODD_UUID: &str = "a\\x5cb\\x1f ~\\x7f\\x80\\xff\\x0a\n";

const ODD_DUMP: &str = dump!(
    "Version: 1\nUUID: a\\x5cb\\x1f ~\\x7f\\x80\\xff\\x0a\nCipher: -c\\xc3\nHash: \n\
    Payload offset: 4096\n"
);

/// Command lines.
type Lines = &'static [&'static str];

const IS: Lines = &["isLuks i"];

const UUIDS: Lines = &["luksUUID i"];

const DUMPS: Lines = &["luksDump i"];

const CHECKS: Lines = &["luksCheck i"];

const ALL_THREE: Lines = &["isLuks i", "luksUUID i", "luksDump i"];

const BOTH: Lines = &["luksUUID i", "luksDump i"];

// Only the status reports that the image is not LUKS.
const NO: &str = "1 ";

// Lines, changes of the header, its length, and what each line prints and reports. A command on
// headers reads no second input.
macro_rules! printed {
    ($lines:ident, $changes:expr, $len:literal, $shown:expr, $reported:ident) => {
        Row {
            lines: $lines,
            len: $len,
            changes: $changes,
            secret: b"secret",
            output: Output::Text($shown),
            reported: $reported,
            consumed: 592,
            unread: 6,
            ..CAT_ROW
        }
    };
}

static ROWS: [Row<'static>; 25] = [
    printed!(DUMPS, &[], 592, DUMP, DONE),
    printed!(UUIDS, &[], 592, UUID, DONE),
    printed!(IS, &[], 592, EMPTY, DONE),
    printed!(IS, &[], 593, EMPTY, DONE),
    printed!(DUMPS, ODD, 592, ODD_DUMP, DONE),
    printed!(UUIDS, ODD, 592, ODD_UUID, DONE),
    printed!(CHECKS, &[], 592, ONE_FINDING, FINDINGS),
    printed!(CHECKS, &[(304, DISABLED)], 592, "clean\n", DONE),
    printed!(IS, &[], 0, EMPTY, NO),
    printed!(BOTH, &[], 0, EMPTY, NOT_LUKS),
    printed!(IS, &[], 7, EMPTY, NO),
    printed!(BOTH, &[], 7, EMPTY, NOT_LUKS),
    printed!(ALL_THREE, &[], 8, EMPTY, CUT),
    printed!(ALL_THREE, &[], 20, EMPTY, CUT),
    printed!(ALL_THREE, &[], 591, EMPTY, CUT),
    printed!(IS, &[(0, b"l")], 592, EMPTY, NO),
    printed!(DUMPS, &[(0, b"l")], 592, EMPTY, NOT_LUKS),
    printed!(IS, &[(5, b"\xbf")], 592, EMPTY, NO),
    printed!(DUMPS, &[(5, b"\xbf")], 592, EMPTY, NOT_LUKS),
    printed!(IS, &[(6, b"\x01")], 592, EMPTY, NO),
    printed!(DUMPS, &[(6, b"\x01")], 592, EMPTY, NOT_LUKS),
    printed!(IS, &[(7, b"\x00")], 592, EMPTY, NO),
    printed!(DUMPS, &[(7, b"\x00")], 592, EMPTY, NOT_LUKS),
    printed!(IS, &[(7, b"\x03")], 592, EMPTY, NO),
    printed!(DUMPS, &[(7, b"\x03")], 592, EMPTY, NOT_LUKS),
];

#[test]
fn headers_are_printed_and_reported(rt: HostRuntime) {
    check_rows(&rt, &changed(&rt, &[], 592, &FIELDS), &ROWS)
}

// Only the first ten bytes of a dump are written.
static OF_10: [Row<'static>; 1] = [Row {
    lines: DUMPS,
    limits: (ALL, ALL, 10),
    output: Output::Text("Version: 1"),
    reported: WRITE_FAILED,
    ..HEADER_ROW
}];

#[test]
fn a_dump_is_written_up_to_the_capacity(rt: HostRuntime) {
    check_rows(&rt, &changed(&rt, &[], 592, &FIELDS), &OF_10)
}

// A row of `len` zeros, of which `consumed` are consumed.
macro_rules! sought {
    ($len:literal, $consumed:literal) => {
        Row {
            lines: IS,
            len: $len,
            reported: NO,
            consumed: $consumed,
            ..HEADER_ROW
        }
    };
}

// A secondary header is sought at nine offsets, and 4,096 bytes are read at the last of them.
static SOUGHT: [Row<'static>; 3] = [
    sought!(1000, 1000),
    sought!(4_198_400, 4_198_400),
    sought!(4_200_000, 4_198_400),
];

#[test]
fn the_search_for_a_header_has_an_end(rt: HostRuntime) {
    check_rows(&rt, &changed(&rt, &[], 4_200_000, &[]), &SOUGHT)
}
