//! What no clause says about read-ahead: how often the source below is called, and that all bytes
//! that may be read ahead come at once.

use super::assert_at;
use luks_io::DeviceFault;
use luks_io::memory::MemSource;
use luks_io::read_ahead::ReadAheadSource;
use luks_io::source::{Source, fill};
use luks_test_support::devices::FlakySource;
use std::process::Abort;

const BYTES: &[u8] = b"abcdefghij";

/// Up to which position read-ahead is allowed, how many bytes are requested, and the answer.
/// Afterwards the source below has this many bytes left, and was called this often.
type Step = (Option<u64>, usize, Result<usize, DeviceFault>, usize, u64);

/// A source with capacity for four bytes, over one that gives at most this many bytes a call, or
/// all if that is 0, and fails at the call of this number. At the end, the source below has counted
/// this many failures, ends and needless calls. Each call after a failure is needless.
type Row = (&'static str, (usize, u64), &'static [Step], (u64, u64, u64));

static ROWS: [Row; 7] = [
    (
        "reads what is allowed at once",
        (0, 99),
        &[
            (Some(6), 1, Ok(1), 6, 1),
            (None, 2, Ok(2), 6, 1),
            (None, 2, Ok(1), 6, 1),
            (None, 1, Ok(1), 4, 2),
            (None, 0, Ok(0), 4, 2),
            (None, 1, Ok(1), 4, 2),
        ],
        (0, 0, 0),
    ),
    (
        "reads nothing ahead that is not allowed",
        (0, 99),
        &[
            (None, 1, Ok(1), 9, 1),
            (None, 2, Ok(2), 7, 2),
            (Some(6), 1, Ok(1), 4, 3),
            (None, 2, Ok(2), 4, 3),
            (None, 1, Ok(1), 3, 4),
            (None, 1, Ok(1), 2, 5),
        ],
        (0, 0, 0),
    ),
    // At the third read, one more byte may still be read ahead.
    (
        "forwards large reads",
        (0, 99),
        &[
            (Some(10), 4, Ok(4), 6, 1),
            (None, 5, Ok(5), 1, 2),
            (None, 1, Ok(1), 0, 3),
            (None, 1, Ok(0), 0, 4),
        ],
        (0, 1, 0),
    ),
    (
        "what was allowed stays allowed",
        (0, 99),
        &[
            (Some(10), 1, Ok(1), 6, 1),
            (Some(5), 3, Ok(3), 6, 1),
            (None, 0, Ok(0), 6, 1),
            (None, 1, Ok(1), 2, 2),
            (Some(0), 1, Ok(1), 2, 2),
        ],
        (0, 0, 0),
    ),
    (
        "a position that was passed allows nothing",
        (0, 99),
        &[
            (None, 3, Ok(3), 7, 1),
            (Some(2), 1, Ok(1), 6, 2),
            (Some(6), 1, Ok(1), 4, 3),
            (None, 2, Ok(1), 4, 3),
            (None, 1, Ok(1), 3, 4),
        ],
        (0, 0, 0),
    ),
    (
        "gives what came of few bytes",
        (3, 99),
        &[
            (Some(5), 2, Ok(2), 7, 1),
            (None, 2, Ok(1), 7, 1),
            (None, 1, Ok(1), 5, 2),
            (None, 1, Ok(1), 5, 2),
            (None, 1, Ok(1), 4, 3),
        ],
        (0, 0, 0),
    ),
    (
        "reports a failure in its turn",
        (0, 1),
        &[
            (Some(8), 3, Ok(3), 6, 1),
            (None, 3, Ok(1), 6, 1),
            (None, 3, Err(DeviceFault), 6, 2),
            (None, 3, Ok(3), 2, 3),
            (None, 3, Ok(1), 2, 3),
            (None, 1, Ok(1), 1, 4),
        ],
        (1, 0, 2),
    ),
];

// Whether the step goes as its row says.
fn goes_as_expected(
    source: &mut ReadAheadSource<FlakySource<'_>>,
    (allowed, requested, answer, left, calls): &Step,
) -> bool {
    if let Some(end) = allowed {
        source.allow_read_ahead(*end);
    }
    let mut buf = [b'-'; 16];
    let got = source.read(&mut buf[..*requested.min(&16)]);
    let below = source.get_ref();
    got == *answer && below.left() == *left && below.calls() == *calls
}

fn check_row(rt: &(impl Abort + AllocGlobal), (name, (piece, failing), steps, last): &Row) {
    let below = FlakySource::new(BYTES, *piece, *failing);
    let mut source = ReadAheadSource::new(rt.alloc(), 4, below).expect(rt, "memory");
    for (i, step) in steps.iter().enumerate() {
        assert_at(rt, name, i, goes_as_expected(&mut source, step));
    }
    let counts = source.get_ref().counts;
    let counted = (counts.failures, counts.ends, counts.needless);
    assert_at(rt, name, steps.len(), counted == *last);
}

#[test]
fn requests_what_is_allowed_at_once(rt: HostRuntime) {
    for row in &ROWS {
        check_row(&rt, row);
    }
}

// Checks that all bytes come in pieces of this size, and how often EOF is hit.
fn check_bytes(
    rt: &(impl Abort + AllocGlobal),
    allowed: u64,
    capacity: usize,
    (piece, ends): (usize, u64),
) {
    let mut source = ReadAheadSource::new(
        rt.alloc(),
        capacity,
        FlakySource::new(BYTES, 0, 99),
    ).expect(rt, "memory");
    source.allow_read_ahead(allowed);
    let mut buf = [b'-'; 12];
    let mut count = 0;
    for part in buf.chunks_mut(piece.max(1)) {
        count = fill(&mut source, part).map_or(99, |got| got.saturating_add(count));
    }
    let all = count == 10 && buf == *b"abcdefghij--" && source.get_ref().counts.ends == ends;
    assert!(rt;
        all,
        "{allowed} allowed ahead, capacity {capacity}, pieces of {piece}"
    );
}

#[test]
fn gives_the_same_whatever_is_allowed(rt: HostRuntime) {
    let counts = [0, 1, 2, 3, 4, 5, 6, 7, 8, 9, 10, 11, u64::MAX];
    for allowed in counts {
        for capacity in 0..6 {
            check_bytes(&rt, allowed, capacity, (1, 2));
            check_bytes(&rt, allowed, capacity, (12, 1));
        }
    }
    let refused = ReadAheadSource::new(rt.alloc(), usize::MAX, MemSource::new(BYTES));
    assert!(rt; refused.is_err(), "all the memory that there is");
}
