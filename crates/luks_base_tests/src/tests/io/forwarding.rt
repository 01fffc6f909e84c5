//! Bytes that are forwarded in place: only by a source that has all of them buffered, and without a
//! call of the source below.

use super::assert_at;
use luks_io::memory::{MemSink, MemSource};
use luks_io::read_ahead::ReadAheadSource;
use luks_io::sink::WriteFault;
use luks_io::source::Source;
use luks_io::transform::Transform;
use luks_test_support::devices::{FlakySink, FlakySource};
use std::process::Abort;
use std::test::Fail;

// Reverses bytes.
struct Reversed;

impl Transform for Reversed {
    ghost use Rattle.std.specs.Prelude.{⊤, reverse};

    ghost accepts = { λ _ _. ⊤ };

    ghost transformed = { λ _ bytes. reverse bytes };

    fn apply(&self, bytes: &mut [u8]) {
        bytes.reverse();
    }
}

/// What is forwarded by a source that has five of ten letters buffered, to a sink with this
/// capacity: how many bytes, and the answers. Afterwards these bytes are written, by this many
/// calls of which this many failed, and these bytes are still buffered.
type Row = (
    &'static str,
    usize,
    &'static [(usize, Option<Result<(), WriteFault>>)],
    (&'static [u8], u64, u64),
    &'static [u8],
);

static ROWS: [Row; 4] = [
    (
        "buffered bytes",
        9,
        &[(2, Some(Ok(()))), (3, Some(Ok(())))],
        (b"cbfed", 2, 0),
        b"",
    ),
    (
        "what is not buffered",
        9,
        &[(6, None), (usize::MAX, None)],
        (b"", 0, 0),
        b"bcdef",
    ),
    (
        "up to a failed write",
        2,
        &[(4, Some(Err(WriteFault { written: 2 })))],
        (b"ed", 2, 1),
        b"f",
    ),
    ("no bytes", 9, &[(0, Some(Ok(())))], (b"", 0, 0), b"bcdef"),
];

// Whether the next bytes of the source are these, and the source below was called this often.
fn gives(source: &mut ReadAheadSource<FlakySource<'_>>, next: &[u8], calls: u64) -> bool {
    let mut buf = [b'-'; 16];
    let buf = &mut buf[..next.len().min(16)];
    source.read(buf) == Ok(next.len()) && *buf == *next && source.get_ref().calls() == calls
}

// The source has given the first letter, and has five more buffered. It forwards only those.
fn check_row(
    rt: &(impl Abort + AllocGlobal),
    (name, capacity, steps, (written, calls, failures), buffered): &Row,
) {
    let below = FlakySource::new(b"abcdefghij", 0, 99);
    let mut source = ReadAheadSource::new(rt.alloc(), 6, below).expect(rt, "memory");
    source.allow_read_ahead(8);
    let is_first = gives(&mut source, b"a", 1);
    assert_at(rt, name, 0, is_first && source.get_ref().left() == 4);
    let mut sink = FlakySink::new(rt.alloc(), *capacity, 9, 99).expect(rt, "memory");
    for (count, answer) in *steps {
        let got = source.forward_buffered(*count, &Reversed, &mut sink);
        assert_at(rt, name, 1, got == *answer);
    }
    let is_alone = source.get_ref().calls() == 1;
    assert_at(rt, name, 2, is_alone && sink.as_slice() == *written);
    let is_counted = sink.calls() == *calls && sink.failures() == *failures;
    assert_at(rt, name, 3, is_counted);
    assert_at(rt, name, 4, gives(&mut source, buffered, 1));
    let more = source.forward_buffered(1, &Reversed, &mut sink);
    assert_at(rt, name, 5, more.is_none());
    assert_at(rt, name, 6, source.get_ref().calls() == 1);
    assert_at(rt, name, 7, gives(&mut source, b"gh", 2));
}

#[test]
fn forwards_what_is_buffered_and_nothing_else(rt: HostRuntime) {
    for row in &ROWS {
        check_row(&rt, row);
    }
}

#[test]
fn sources_that_buffer_nothing_forward_nothing(rt: HostRuntime) -> Result<(), Fail> {
    let mut sink = MemSink::new(rt.alloc(), 9)?;
    let mut flaky = FlakySource::new(b"abc", 0, 99);
    assert_at(
        &rt,
        "a source",
        0,
        flaky.forward_buffered(1, &Reversed, &mut sink).is_none(),
    );
    assert_at(&rt, "a source", 1, flaky.calls() == 0);
    let mut memory = MemSource::new(b"abc");
    assert_at(
        &rt,
        "memory",
        0,
        memory.forward_buffered(1, &Reversed, &mut sink).is_none(),
    );
    assert_at(&rt, "memory", 1, memory.left() == b"abc".as_slice());
    let mut ahead = ReadAheadSource::new(rt.alloc(), 4, FlakySource::new(b"abc", 0, 99))?;
    ahead.allow_read_ahead(3);
    assert_at(
        &rt,
        "ahead",
        0,
        ahead.forward_buffered(1, &Reversed, &mut sink).is_none(),
    );
    assert_at(&rt, "ahead", 1, ahead.get_ref().calls() == 0);
    assert_at(&rt, "the sink", 0, sink.as_slice().is_empty());
    Ok(())
}
