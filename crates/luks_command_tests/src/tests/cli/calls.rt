//! The commands over devices that move a few bytes a call, with one call that fails, and with
//! failing allocations.

use super::devices::{Pieces, Trial, check_failures, check_pieces, check_truncated};
use super::headers::{self, FIELDS, PrintedText};
use super::headers2::{self, image2};
use super::runs::{CAT, CAT_DETACHED, OPENS, TEST, TEST_DETACHED, args_of};
use super::scarce::check_scarcity;
use super::stripes::{self, FF, MERGE_2, SPLIT_2, ZEROS};
use super::volume::{
    AT_START, PASSPHRASE, PLAIN, PLAIN_LEN, SMALL_LEN, changed, payload_of, prefix2, sealed2, small,
};
use luks_args::planning::plan;
use luks_request::command::Command;
use std::process::Abort;

/// How a run is disturbed.
#[derive(Clone, Copy)]
pub(super) enum Hardship {
    /// The devices move pieces of each length.
    Pieces,
    /// The devices move pieces of the given lengths.
    Given,
    /// The devices move pieces of the given lengths, and the image ends before its key areas.
    Truncated,
    /// Each call of each device fails, one a run.
    Failures,
    /// Allocations fail: the first number is how many bytes become free again after each run, the
    /// second one how many runs have to run out of memory at least.
    Scarcity(usize, usize),
}

static WAYS: [Pieces; 15] = [
    (1, 1, 1, 1),
    (1, 1, 1, 700),
    (1, 1, 0, 4096),
    (500, 511, 511, 1),
    (500, 511, 511, 700),
    (500, 512, 512, 1),
    (500, 512, 512, 700),
    (500, 513, 513, 1),
    (500, 513, 513, 700),
    (0, 591, 0, 4096),
    (0, 4095, 0, 4096),
    (0, 4096, 0, 4096),
    (0, 5000, 5000, 1),
    (0, 5000, 5000, 700),
    (0, 32_768, 0, 4096),
];

fn check_all_pieces(rt: &(impl Abort + AllocGlobal), command: &Command<'_>, trial: &Trial<'_>) {
    for pieces in &WAYS {
        check_pieces(rt, command, trial, *pieces);
    }
}

// The devices move these pieces if they are given, the image is truncated, or calls fail.
fn check_command(
    rt: &(impl Abort + AllocGlobal),
    hardship: Hardship,
    command: &Command<'_>,
    trial: &Trial<'_>,
    pieces: Pieces,
) {
    match hardship {
        Hardship::Pieces => check_all_pieces(rt, command, trial),
        Hardship::Given => check_pieces(rt, command, trial, pieces),
        Hardship::Truncated => check_truncated(rt, command, trial, pieces),
        Hardship::Failures => check_failures(rt, command, trial, pieces),
        Hardship::Scarcity(piece, least) => check_scarcity(rt, command, trial, (piece, least)),
    }
}

/// Checks the command of the trial's line in the same way.
pub(super) fn check_trial(
    rt: &(impl Abort + AllocGlobal),
    hardship: Hardship,
    trial: &Trial<'_>,
    pieces: Pieces,
) {
    let args = args_of(rt, trial.line);
    let command = plan(rt.alloc(), &args).expect(rt, "a command");
    check_command(rt, hardship, &command, trial, pieces)
}

// The lines print these texts of an image, and leave `left` bytes of it.
fn check_printed_texts(
    rt: &(impl Abort + AllocGlobal),
    hardship: Hardship,
    (image, piece, left): (&[u8], usize, usize),
    rows: &[PrintedText],
) {
    for (line, shown, has_findings) in rows {
        let trial = Trial {
            line,
            header: &[],
            image,
            secret: &[],
            start: usize::MAX,
            whole: shown.as_bytes(),
            has_findings: *has_findings,
            left,
        };
        check_trial(rt, hardship, &trial, (0, piece, 5, 3));
    }
}

fn check_headers(rt: &(impl Abort + AllocGlobal), hardship: Hardship) {
    let first = changed(rt, &[], 592, &FIELDS);
    check_printed_texts(rt, hardship, (&first, 5, 0), &headers::PRINTED_TEXTS);
    let second = image2(rt);
    check_printed_texts(rt, hardship, (&second, 327, 10), &headers2::PRINTED_TEXTS)
}

// The pieces that the devices of a run move if a call fails.
const ATTACHED_PIECES: Pieces = (0, 384, 5, 3);

const DETACHED_PIECES: Pieces = (500, 100, 5, 300);

const STRIPES: Pieces = (0, 5, 5, 3);

/// The runs of both commands that open a volume: their lines, where the payload starts in the
/// image, how many bytes of it `testPassphrase` leaves, and the pieces that the devices move.
type Moves = ([&'static str; 2], usize, usize, Pieces);

// Both payloads start at byte 36,864; the key material ends at byte 4,608 and at byte 33,280.
const FIRST: Moves = ([CAT, TEST], 36_864, SMALL_LEN - 4608, ATTACHED_PIECES);

const SECOND: Moves = ([CAT, TEST], 36_864, SMALL_LEN - 33_280, ATTACHED_PIECES);

const DETACHED: Moves = ([CAT_DETACHED, TEST_DETACHED], 0, PLAIN_LEN, DETACHED_PIECES);

// Both commands, over this image, and this detached header if the lines name one.
fn check_both(
    rt: &(impl Abort + AllocGlobal),
    hardship: Hardship,
    header: &[u8],
    image: &[u8],
    ([cat, test], start, left, pieces): Moves,
) {
    let written = Trial {
        line: cat,
        header,
        image,
        secret: PASSPHRASE,
        start,
        whole: &PLAIN,
        has_findings: false,
        left: 0,
    };
    check_trial(rt, hardship, &written, pieces);
    let opened = Trial {
        line: test,
        whole: OPENS,
        left,
        ..written
    };
    check_trial(rt, hardship, &opened, pieces)
}

// Volumes of both formats.
fn check_attached(rt: &(impl Abort + AllocGlobal), first: Hardship, second: Hardship) {
    check_both(rt, first, &[], &small(rt), FIRST);
    check_both(rt, second, &[], &sealed2(rt, "dynamic"), SECOND)
}

// The same with detached headers.
fn check_detached(rt: &(impl Abort + AllocGlobal), first: Hardship, second: Hardship) {
    let volume = small(rt);
    let payload = payload_of(&volume);
    let header = changed(rt, &volume, 4608, AT_START);
    check_both(rt, first, &header, payload, DETACHED);
    check_both(rt, second, &prefix2(rt, "0", "dynamic"), payload, DETACHED)
}

#[test]
fn all_pieces_have_the_same_result(rt: HostRuntime) {
    check_headers(&rt, Hardship::Pieces);
    check_attached(&rt, Hardship::Pieces, Hardship::Pieces);
    check_detached(&rt, Hardship::Pieces, Hardship::Pieces)
}

#[test]
fn each_failed_call_is_reported(rt: HostRuntime) {
    check_headers(&rt, Hardship::Failures);
    check_attached(&rt, Hardship::Failures, Hardship::Failures);
    check_detached(&rt, Hardship::Failures, Hardship::Failures)
}

#[test]
fn out_of_memory_is_reported(rt: HostRuntime) {
    check_headers(&rt, Hardship::Scarcity(1100, 1));
    let (first, second) = (Hardship::Scarcity(136, 11), Hardship::Scarcity(1100, 11));
    check_attached(&rt, first, second);
    check_detached(&rt, first, second)
}

static OF_STRIPES: [Trial<'static>; 2] = [
    Trial {
        line: SPLIT_2,
        header: &[],
        image: FF,
        secret: ZEROS,
        start: usize::MAX,
        whole: stripes::STRIPES,
        has_findings: false,
        left: 0,
    },
    Trial {
        line: MERGE_2,
        header: &[],
        image: stripes::STRIPES,
        secret: &[],
        start: usize::MAX,
        whole: FF,
        has_findings: false,
        left: 0,
    },
];

#[test]
fn each_failed_call_of_stripes_is_reported(rt: HostRuntime) {
    for trial in &OF_STRIPES {
        check_trial(&rt, Hardship::Failures, trial, STRIPES);
    }
}
