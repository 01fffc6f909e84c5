//! Tables of changed texts.
//!
//! A row is a line with a verdict and the text's changes: `VERDICT: PART -> OTHER; PART -> OTHER`.
//! If the verdict differs for a detached header, that one follows after a slash.

use super::fixture::{ATTACHED, DETACHED, metadata};
use super::{assert_answer, digests, segments, slots};
use luks2_json::tree::Metadata;
use luks2_metadata::bounds::Bounds;
use std::process::Abort;

/// The subject of the verdicts in a table.
#[derive(Clone, Copy)]
pub enum Subject {
    /// Slot 2.
    Slot,
    /// The segment.
    Segment,
    /// The digest of slot 2.
    Digest,
}

fn verdict(
    rt: &(impl Abort + AllocGlobal),
    subject: Subject,
    metadata: &Metadata,
    bounds: Bounds,
) -> &'static str {
    match subject {
        Subject::Slot => slots::verdict(rt, metadata, bounds),
        Subject::Segment => segments::verdict(metadata, bounds),
        Subject::Digest => digests::verdict(rt, metadata, bounds),
    }
}

/// Checks the verdict on a text, attached and detached.
pub fn check_verdicts(
    rt: &(impl Abort + AllocGlobal),
    subject: Subject,
    row: &str,
    metadata: &Metadata,
    want: &str,
) {
    let (attached, detached) = want.split_once(" / ").unwrap_or((want, want));
    assert_answer(rt, row, verdict(rt, subject, metadata, ATTACHED), attached);
    assert_answer(rt, row, verdict(rt, subject, metadata, DETACHED), detached);
}

fn check_row(rt: &(impl Abort + AllocGlobal), subject: Subject, row: &str) {
    let (want, changes) = row.split_once(": ").ok_or(row).expect(rt, "a row");
    check_verdicts(rt, subject, row, metadata(rt, changes), want);
}

/// Checks each row of a table.
pub fn check_rows(rt: &(impl Abort + AllocGlobal), subject: Subject, rows: &str) {
    for row in rows.lines() {
        check_row(rt, subject, row);
    }
}
