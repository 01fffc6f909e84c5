//! Key files, key slots and options of the commands that open a volume.

use super::runs::{ALL, CAT, DONE, Ends, Inputs, NO_KEY, OPENS, TEST, check, run_over, sink};
use super::same::assert_same_in;
use super::tables::{CAT_ROW, Output, Row, check_rows, opened, refused, written};
use super::volume::{
    Changes, NEWEST, PASSPHRASE, PLAIN_LEN, SMALL, SMALL_LEN, USUAL_LEN, changed, sealed, usual,
};
use luks_test_support::bytes::at;
use std::process::Abort;

const NEWLINE: &[u8] = b"correct horse\n";

// How many bytes of a usual volume are consumed to open it: up to the end of its key material.
const LOADED: usize = 260_096;

const NOT_8: &str = "1 luksrd: key slot 8 is not there\n";

const NOT_31: &str = "1 luksrd: key slot 31 is not there\n";

const DISABLED_1: &str = "1 luksrd: key slot 1 is disabled\n";

const DISABLED_7: &str = "1 luksrd: key slot 7 is disabled\n";

const LIMITED: &str = "1 luksrd: no key slot can be tried; skipped: 0 (iterations)\n";

const LIMITED_0: &str = "1 luksrd: key slot 0 is skipped: iterations\n";

// The whole plaintext.
const WHOLE: Output = Output::Plain(PLAIN_LEN);

static OF_USUAL: [Row<'static>; 14] = [
    opened!("", PASSPHRASE, 0, LOADED),
    written!("", PASSPHRASE, WHOLE, DONE),
    refused!("", NEWLINE, NO_KEY, LOADED, 0),
    opened!("--key-slot 0 ", PASSPHRASE, 0, LOADED),
    written!("--key-slot 0 ", PASSPHRASE, WHOLE, DONE),
    opened!("--max-iterations 1000 ", PASSPHRASE, 0, LOADED),
    written!("--max-iterations 1000 ", PASSPHRASE, WHOLE, DONE),
    // Nothing is read after the header.
    refused!("--key-slot 8 ", PASSPHRASE, NOT_8, 592, 13),
    refused!("--key-slot 31 ", PASSPHRASE, NOT_31, 592, 13),
    refused!("--key-slot 1 ", PASSPHRASE, DISABLED_1, 592, 13),
    refused!("--key-slot 7 ", PASSPHRASE, DISABLED_7, 592, 13),
    refused!("--max-iterations 999 ", PASSPHRASE, LIMITED, 592, 13),
    refused!(
        "--key-slot 0 --max-iterations 999 ",
        PASSPHRASE,
        LIMITED_0,
        592,
        13
    ),
    // The key file may be standard input.
    Row {
        lines: &["luksCat --key-file - i"],
        output: WHOLE,
        ..CAT_ROW
    },
];

#[test]
fn a_usual_volume_opens_as_requested(rt: HostRuntime) {
    let image = usual(&rt);
    assert_same_in(&rt, &"a usual volume", image.len(), USUAL_LEN);
    check_rows(&rt, &image, &OF_USUAL)
}

/// A line, its second input, and the evaluations of HMAC in its run over a usual volume: 1000 times
/// 2 blocks for the key of the key material, and 1000 times 1 for the digest.
static WORKS: [(&str, &[u8], u128); 5] = [
    (TEST, PASSPHRASE, 3000),
    (TEST, NEWLINE, 3000),
    (CAT, PASSPHRASE, 3000),
    ("luksCat --key-file f --key-slot 8 i", PASSPHRASE, 0),
    ("luksDump i", b"", 0),
];

// The work of each run.
fn check_works(rt: &(impl Abort + AllocGlobal), image: &[u8]) {
    for (line, secret, work) in &WORKS {
        let mut out = sink(rt, 8192);
        let inputs: Inputs<'_> = [&[], image, *secret];
        let (report, _) = run_over(rt, *line, inputs, (ALL, ALL), &mut out);
        assert_same_in(rt, line, report.work, *work);
    }
}

#[test]
fn a_report_has_the_work_of_its_run(rt: HostRuntime) {
    check_works(&rt, &usual(&rt))
}

// A key slot's state in use.
const ENABLED: &[u8] = &[0, 0xac, 0x71, 0xf3];

// Slot 3 is damaged, slot 5 is in use with too many stripes, and slot 7 with none.
const WRONG_SLOTS: Changes = &[
    (352, &[0, 0, 0, 1]),
    (448, ENABLED),
    (492, &[0, 0, 15, 0xa1]),
    (544, ENABLED),
    (588, &[0; 4]),
];

// The same, with slot 0 disabled.
const NO_SLOTS: Changes = &[
    (352, &[0, 0, 0, 1]),
    (448, ENABLED),
    (492, &[0, 0, 15, 0xa1]),
    (544, ENABLED),
    (588, &[0; 4]),
    (208, &[0, 0, 0xde, 0xad]),
];

const NO_KEY_OTHERS: &str =
    "2 luksrd: no key opens the volume; skipped: 3 (state), 5 (stripes), 7 (stripes)\n";

const SKIPPED_3: &str = "1 luksrd: key slot 3 is skipped: state\n";

const NONE_TRIED: &str =
    "1 luksrd: no key slot can be tried; skipped: 3 (state), 5 (stripes), 7 (stripes)\n";

// A row of a refusal, with these slots changed.
macro_rules! none_opens {
    ($changes:ident, $($refused:tt)*) => {
        Row {
            changes: $changes,
            ..refused!($($refused)*)
        }
    };
}

static OF_SMALL: [Row<'static>; 7] = [
    opened!("", NEWLINE, 0, 4608),
    written!("", NEWLINE, WHOLE, DONE),
    refused!("", PASSPHRASE, NO_KEY, 4608, 0),
    none_opens!(WRONG_SLOTS, "", b"wrong", NO_KEY_OTHERS, 4608, 0),
    none_opens!(WRONG_SLOTS, "--key-slot 0 ", b"wrong", NO_KEY, 4608, 0),
    none_opens!(WRONG_SLOTS, "--key-slot 3 ", PASSPHRASE, SKIPPED_3, 592, 13),
    none_opens!(NO_SLOTS, "", PASSPHRASE, NONE_TRIED, 592, 13),
];

#[test]
fn small_volumes_open_as_requested(rt: HostRuntime) {
    check_rows(&rt, &sealed(&rt, NEWEST, SMALL, NEWLINE), &OF_SMALL)
}

// The length of the longest key file.
const MAX_KEY_FILE_LEN: usize = 8_388_608;

const TOO_LONG: Ends<'static> = (b"", "1 luksrd: key file is longer than 8388608 bytes\n");

/// How long a key file of zeros is, how the run ends, and how many bytes it consumes of the image
/// and leaves of the key file.
static LENGTHS: [(usize, Ends<'static>, (usize, usize)); 11] = [
    (MAX_KEY_FILE_LEN, (OPENS, DONE), (4608, 0)),
    (0, (b"", NO_KEY), (4608, 0)),
    (1, (b"", NO_KEY), (4608, 0)),
    (4095, (b"", NO_KEY), (4608, 0)),
    (4096, (b"", NO_KEY), (4608, 0)),
    (4097, (b"", NO_KEY), (4608, 0)),
    (8192, (b"", NO_KEY), (4608, 0)),
    (MAX_KEY_FILE_LEN - 1, (b"", NO_KEY), (4608, 0)),
    (MAX_KEY_FILE_LEN + 1, TOO_LONG, (592, 0)),
    (MAX_KEY_FILE_LEN + 2, TOO_LONG, (592, 1)),
    (MAX_KEY_FILE_LEN + 4, TOO_LONG, (592, 3)),
];

// Key files of zeros, with each of these lengths.
fn check_lengths(rt: &(impl Abort + AllocGlobal), image: &[u8], zeros: &[u8]) {
    for (len, ends, (consumed, unread)) in &LENGTHS {
        let inputs: Inputs<'_> = [&[], image, at(zeros, 0, *len)];
        let left = (0, SMALL_LEN.saturating_sub(*consumed), *unread);
        check(rt, TEST, inputs, *ends, left);
    }
}

#[test]
fn long_key_files_are_read_up_to_the_limit(rt: HostRuntime) {
    let zeros = changed(&rt, &[], MAX_KEY_FILE_LEN + 4, &[]);
    let image = sealed(&rt, NEWEST, SMALL, at(&zeros, 0, MAX_KEY_FILE_LEN));
    check_lengths(&rt, &image, &zeros)
}
