//! Tables of runs over one image.

use super::runs::{ALL, CAT, DONE, Inputs, Limits, NO_FAULT, check_within};
use super::volume::{PASSPHRASE, PLAIN, changed};
use luks_test_support::bytes::at;
use std::process::Abort;

/// What a run writes.
#[derive(Clone, Copy)]
pub(super) enum Output {
    /// This text.
    Text(&'static str),
    /// A prefix of the plaintext, of this length.
    Plain(usize),
}

impl Output {
    /// The bytes that are written.
    pub(super) fn bytes(self) -> &'static [u8] {
        match self {
            Output::Text(text) => text.as_bytes(),
            Output::Plain(len) => at(&PLAIN, 0, len),
        }
    }
}

/// Lines that run over a changed image, and how each of them ends.
pub(super) struct Row<'a> {
    pub(super) lines: &'a [&'a str],
    /// The length to which the image is truncated or padded with zeros; `ALL` means its own.
    pub(super) len: usize,
    /// The changes of the image.
    pub(super) changes: &'a [(usize, &'a [u8])],
    /// The second input.
    pub(super) secret: &'a [u8],
    pub(super) limits: Limits,
    pub(super) output: Output,
    /// The status and the message.
    pub(super) reported: &'a str,
    /// How many bytes of the image are consumed; `ALL` means all of them.
    pub(super) consumed: usize,
    /// How many bytes of the second input are left.
    pub(super) unread: usize,
}

/// `luksCat` of the whole image, which consumes it and the key file, and writes nothing.
pub(super) const CAT_ROW: Row<'static> = Row {
    lines: &[CAT],
    len: ALL,
    changes: &[],
    secret: PASSPHRASE,
    limits: NO_FAULT,
    output: Output::Text(""),
    reported: DONE,
    consumed: ALL,
    unread: 0,
};

/// A row of lines without a second input.
pub(super) const HEADER_ROW: Row<'static> = Row {
    secret: b"",
    ..CAT_ROW
};

/// With these options and this key file, `testPassphrase` and `luksCat` write nothing and report
/// this. They consume `consumed` bytes of the image and leave `unread` bytes of the key file.
macro_rules! refused {
    ($options:literal, $secret:expr, $reported:expr, $consumed:expr, $unread:literal) => {
        Row {
            lines: &[
                concat!("testPassphrase --key-file f ", $options, "i"),
                concat!("luksCat --key-file f ", $options, "i"),
            ],
            secret: $secret,
            reported: $reported,
            consumed: $consumed,
            unread: $unread,
            ..CAT_ROW
        }
    };
}

/// With these options and this key file, `testPassphrase` finds that this key slot opens the
/// volume, after it consumed `consumed` bytes of the image.
macro_rules! opened {
    ($options:literal, $secret:expr, $slot:literal, $consumed:expr) => {
        Row {
            lines: &[concat!("testPassphrase --key-file f ", $options, "i")],
            secret: $secret,
            output: Output::Text(concat!("Key slot ", $slot, " opens the volume.\n")),
            consumed: $consumed,
            ..CAT_ROW
        }
    };
}

/// With these options and this key file, `luksCat` consumes the image, and ends with this output
/// and message.
macro_rules! written {
    ($options:literal, $secret:expr, $output:expr, $reported:expr) => {
        Row {
            lines: &[concat!("luksCat --key-file f ", $options, "i")],
            secret: $secret,
            output: $output,
            reported: $reported,
            ..CAT_ROW
        }
    };
}

pub(super) use opened;
pub(super) use refused;
pub(super) use written;

fn check_row(rt: &(impl Abort + AllocGlobal), image: &[u8], row: &Row<'_>) {
    let len = if row.len == ALL { image.len() } else { row.len };
    let image = changed(rt, image, len, row.changes);
    check_lines(rt, &image, row)
}

// Each line of the row ends as specified.
fn check_lines(rt: &(impl Abort + AllocGlobal), image: &[u8], row: &Row<'_>) {
    let inputs: Inputs<'_> = [&[], image, row.secret];
    let left = (0, image.len().saturating_sub(row.consumed), row.unread);
    let ends = (row.output.bytes(), row.reported);
    for line in row.lines {
        check_within(rt, row.limits, line, inputs, ends, left);
    }
}

/// Each row over this image ends as specified.
pub(super) fn check_rows(rt: &(impl Abort + AllocGlobal), image: &[u8], rows: &[Row<'static>]) {
    for row in rows {
        check_row(rt, image, row);
    }
}
