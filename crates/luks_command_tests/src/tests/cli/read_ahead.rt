//! `luksCat` over an image that is read ahead: it allows read-ahead for what it needs and no more,
//! so that what follows the payload remains for the next reader.

use super::runs::{
    CAT, CAT_DETACHED, DONE, WRITE_FAILED, args_of, check_reported, report_of, sink,
};
use super::same::{assert_in, assert_same_in};
use super::volume::{
    NAMES_64_KIB, PASSPHRASE, PLAIN, PLAIN_LEN, changed, payload_of, prefix2, sealed2,
};
use luks_io::memory::{MemSink, MemSource};
use luks_io::read_ahead::ReadAheadSource;
use luks_report::message::Message;
use luks_report::report::Report;
use luks_test_support::bytes::at;
use luks_test_support::devices::FlakySource;
use std::process::Abort;

// An image that gives all bytes that are requested, and reads up to `capacity` bytes ahead.
fn ahead<'a>(
    rt: &(impl Abort + AllocGlobal),
    image: &'a [u8],
    capacity: usize,
) -> ReadAheadSource<FlakySource<'a>> {
    let below = FlakySource::new(image, 0, u64::MAX);
    ReadAheadSource::new(rt.alloc(), capacity, below).expect(rt, "memory for what is read ahead")
}

// What a run over this image reports.
fn report_ahead(
    rt: &(impl Abort + AllocGlobal),
    line: &str,
    (header, secret): (&[u8], &[u8]),
    image: &mut ReadAheadSource<FlakySource<'_>>,
    out: &mut MemSink,
) -> Report {
    let args = args_of(rt, line);
    let mut header = MemSource::new(header);
    let mut secret = MemSource::new(secret);
    report_of(rt, &args, &mut header, image, &mut secret, out)
}

/// A run whose image is read ahead.
struct AheadRow {
    line: &'static str,
    /// How many bytes may be read ahead, and the capacity of the output.
    capacity: usize,
    space: usize,
    /// How many bytes of the plaintext are written.
    written: usize,
    /// The status and the message.
    reported: &'static str,
    /// How many bytes of the image remain.
    left: usize,
}

/// Runs over the same image, with different capacities for read-ahead.
struct AheadRows {
    none: AheadRow,
    all: AheadRow,
    others: &'static [AheadRow],
}

// A run with this capacity for read-ahead.
macro_rules! row_of {
    ($capacity:literal, $written:expr, $left:expr) => {
        AheadRow {
            line: CAT,
            capacity: $capacity,
            space: 65_536,
            written: $written,
            reported: DONE,
            left: $left,
        }
    };
}

// With every capacity for read-ahead, this many bytes of the plaintext are written, and this many
// bytes of the image remain.
macro_rules! rows {
    ($written:expr, $left:expr) => {
        AheadRows {
            none: row_of!(0, $written, $left),
            all: row_of!(65_536, $written, $left),
            others: &[
                row_of!(1, $written, $left),
                row_of!(511, $written, $left),
                row_of!(512, $written, $left),
                row_of!(513, $written, $left),
                row_of!(1023, $written, $left),
                row_of!(4096, $written, $left),
            ],
        }
    };
}

// The run reports the row's message, writes a prefix of the plaintext up to the capacity of the
// output, and leaves the row's number of bytes of the image. Returns the number of calls of the
// image.
fn check_ahead(
    rt: &(impl Abort + AllocGlobal),
    header: &[u8],
    image: &[u8],
    row: &AheadRow,
) -> u64 {
    let case = (row.line, row.capacity, image.len(), row.left);
    let mut image = ahead(rt, image, row.capacity);
    let mut out = sink(rt, row.space);
    let report = report_ahead(rt, row.line, (header, PASSPHRASE), &mut image, &mut out);
    check_reported(rt, &case, &report, row.reported);
    let written = at(out.as_slice(), 0, PLAIN_LEN);
    assert_same_in(rt, &case, written, at(&PLAIN, 0, row.written));
    assert_same_in(rt, &case, image.get_ref().left(), row.left);
    image.get_ref().calls()
}

// The capacity for read-ahead changes only the number of calls. Returns that number for no
// read-ahead and for the largest capacity.
fn check_rows(rt: &(impl Abort + AllocGlobal), image: &[u8], rows: &AheadRows) -> (u64, u64) {
    for row in rows.others {
        check_ahead(rt, &[], image, row);
    }
    let most = check_ahead(rt, &[], image, &rows.none);
    let least = check_ahead(rt, &[], image, &rows.all);
    (most, least)
}

// The same for a volume with a payload of this size.
fn check_size(rt: &(impl Abort + AllocGlobal), size: &str, rows: &AheadRows) -> (u64, u64) {
    check_rows(rt, &sealed2(rt, size), rows)
}

// The same for an image of 80,000 bytes. Its damaged primary header names 65,536 bytes, so as many
// are read before the payload is.
fn check_searched(rt: &(impl Abort + AllocGlobal), size: &str, rows: &AheadRows) {
    let image = changed(rt, &sealed2(rt, size), 80_000, NAMES_64_KIB);
    check_rows(rt, &image, rows);
}

static OF_ALL: AheadRows = rows!(PLAIN_LEN, 0);

static OF_ONE: AheadRows = rows!(512, 1024);

static OF_TWO: AheadRows = rows!(1024, 512);

static OF_SEARCHED: AheadRows = rows!(1024, 80_000 - 65_536);

static OF_LONGER: AheadRows = rows!(PLAIN_LEN, 80_000 - 36_864 - 33_792);

// The payload starts at byte 36,864 of an image of 38,400 bytes, and each sector is a call of its
// own without read-ahead. One payload ends within the bytes that the search for a header has read,
// and one of 66 sectors ends after them.
#[test]
fn no_more_is_consumed_than_the_payload(rt: HostRuntime) {
    check_size(&rt, "dynamic", &OF_ALL);
    let one = check_size(&rt, "512", &OF_ONE);
    let two = check_size(&rt, "1024", &OF_TWO);
    assert_same_in(&rt, &"each by itself", two.0.saturating_sub(one.0), 1);
    assert_same_in(&rt, &"all at once", one.1, two.1);
    check_searched(&rt, "1024", &OF_SEARCHED);
    check_searched(&rt, "33792", &OF_LONGER);
}

// A run with a detached header and this capacity for read-ahead.
macro_rules! detached {
    ($capacity:literal) => {
        AheadRow {
            line: CAT_DETACHED,
            capacity: $capacity,
            space: 4096,
            written: 1024,
            reported: DONE,
            left: 512,
        }
    };
}

// The number of calls of the image.
static CALLS: [(AheadRow, u64); 5] = [
    (detached!(0), 2),
    (detached!(1), 2),
    (detached!(512), 2),
    (detached!(1024), 1),
    (detached!(65_536), 1),
];

fn check_detached(rt: &(impl Abort + AllocGlobal), header: &[u8], image: &[u8]) {
    for (row, calls) in &CALLS {
        let found = check_ahead(rt, header, image, row);
        assert_same_in(rt, &row.capacity, found, *calls);
    }
}

// With a detached header, the payload starts at the image's first byte, and is read in one call if
// all of it is read ahead.
#[test]
fn no_more_is_consumed_with_a_detached_header(rt: HostRuntime) {
    let image = sealed2(&rt, "dynamic");
    check_detached(&rt, &prefix2(&rt, "0", "1024"), payload_of(&image))
}

// A run whose output has no capacity.
macro_rules! full {
    ($capacity:literal, $left:literal) => {
        AheadRow {
            line: CAT,
            capacity: $capacity,
            space: 0,
            written: 0,
            reported: WRITE_FAILED,
            left: $left,
        }
    };
}

static FULL: [AheadRow; 3] = [full!(0, 1024), full!(512, 1024), full!(65_536, 512)];

// If a write fails, bytes that were read ahead are lost, but none after the payload.
#[test]
fn no_more_is_consumed_if_a_write_fails(rt: HostRuntime) {
    let image = sealed2(&rt, "1024");
    for row in &FULL {
        check_ahead(&rt, &[], &image, row);
    }
}

// A run whose image fails at this call, if there are so many calls. Whole sectors that were
// consumed are written, and the image is not called after that.
fn check_failed_read(rt: &(impl Abort + AllocGlobal), image: &[u8], call: u64) -> Report {
    let below = FlakySource::new(image, 700, call);
    let mut source = ReadAheadSource::new(rt.alloc(), 1024, below).expect(rt, "memory");
    let mut out = sink(rt, 4096);
    let report = report_ahead(rt, CAT, (&[], PASSPHRASE), &mut source, &mut out);
    check_consumed(rt, call, image.len(), source.get_ref(), &out);
    report
}

// The whole sectors that were consumed are written, and no call of the image was needless.
fn check_consumed(rt: &impl Abort, call: u64, len: usize, image: &FlakySource<'_>, out: &MemSink) {
    let consumed = len - image.left().min(len);
    let sectors = consumed.saturating_sub(36_864) / 512;
    let whole = at(&PLAIN, 0, sectors.saturating_mul(512));
    assert_same_in(rt, &call, out.as_slice(), whole);
    assert_same_in(rt, &call, image.counts.needless, 0);
    assert_in(rt, &call, image.calls() <= call.saturating_add(1));
}

// Runs until no read fails. A read fails in each of the first fifty runs.
fn check_failed_reads(rt: &(impl Abort + AllocGlobal), image: &[u8]) {
    for call in 0..1000 {
        let report = check_failed_read(rt, image, call);
        if report.status == 0 {
            assert_in(rt, &call, call > 50);
            return;
        }
        assert_same_in(rt, &call, report.message, Message::ReadFailed);
    }
    rt.panic("no run without a failed read")
}

#[test]
fn what_came_before_a_failed_read_is_written(rt: HostRuntime) {
    check_failed_reads(&rt, &sealed2(&rt, "dynamic"))
}
