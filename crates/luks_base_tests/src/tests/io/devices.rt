//! What no clause says: that calls can succeed, how often an interrupted call is repeated, and what
//! follows a failure.

ghost use Rattle.std.specs.Prelude.{◌≤◌, IfOk};

use super::assert_at;
use luks_io::DeviceFault;
use luks_io::adapters::{ReadSource, WriteSink};
use luks_io::memory::{MemSink, MemSource};
use luks_io::sink::{Sink, WriteFault, put_all};
use luks_io::source::{Source, fill};
use std::io::{self, ErrorKind, Read, Write};
use std::process::Abort;
use std::test::Fail;

/// A device's answer: it moves at most this many bytes, is interrupted, or refuses.
enum Answer {
    Moves(usize),
    Interrupted,
    Refused,
}

// How often each answer comes.
type Script = &'static [(u32, Answer)];

/// A reader that gives bytes 7, and a writer. It refuses every call after its script.
#[derive(Drop)]
struct Device {
    script: Script,
    given: u32,
}

impl Device {
    fn answer(&mut self, capacity: usize) -> io::Result<usize>
        ensures { IfOk result (λ n. n ≤ capacity) }
    {
        let Some(((times, answer), later)) = self.script.split_first() else {
            return Err(io::Error::from(ErrorKind::Other));
        };
        self.given = self.given.saturating_add(1);
        if *times <= self.given {
            self.given = 0;
            self.script = later;
        }
        match answer {
            Answer::Moves(piece) => Ok(capacity.min(*piece)),
            Answer::Interrupted => Err(io::Error::from(ErrorKind::Interrupted)),
            Answer::Refused => Err(io::Error::from(ErrorKind::Other)),
        }
    }
}

impl Read for Device {
    fn read(&mut self, buf: &mut [u8]) -> io::Result<usize> {
        let count = self.answer(buf.len())?;
        buf[..count].fill(7);
        Ok(count)
    }
}

impl Write for Device {
    fn write(&mut self, buf: &[u8]) -> io::Result<usize> {
        self.answer(buf.len())
    }

    fn flush(&mut self) -> io::Result<()> {
        self.answer(1).map(|_| ())
    }
}

/// A call that moves as many bytes as the device does at once, or all of them, and its answer: how
/// many were moved, even if it failed.
type Call = (bool, Result<usize, usize>);

const ONCE: bool = false;

const WHOLE: bool = true;

const HUNDRED: Script = &[(100, Answer::Interrupted), (9, Answer::Moves(3))];

const ONE_MORE: Script = &[(101, Answer::Interrupted), (9, Answer::Moves(3))];

const FAILED_ONCE: Script = &[(1, Answer::Refused), (9, Answer::Moves(1))];

const NOTHING: Script = &[(9, Answer::Moves(0))];

// After its end this device would move a byte.
const NOTHING_ONCE: Script = &[(1, Answer::Moves(0)), (9, Answer::Moves(1))];

// A device's script, calls of a source with a buffer of eight bytes, and how many of these are
// filled in the end.
static READS: [(&str, Script, &[Call], usize); 8] = [
    (
        "waits for a hundred interruptions",
        HUNDRED,
        &[(ONCE, Ok(3))],
        3,
    ),
    ("waits for no more", ONE_MORE, &[(ONCE, Err(0))], 0),
    ("the end is no failure", NOTHING, &[(ONCE, Ok(0))], 0),
    ("nor is it at once", NOTHING, &[(WHOLE, Ok(0))], 0),
    (
        "goes on after a failure",
        FAILED_ONCE,
        &[(ONCE, Err(0)), (ONCE, Ok(1))],
        1,
    ),
    (
        "ends once",
        NOTHING_ONCE,
        &[(ONCE, Ok(0)), (ONCE, Ok(0)), (ONCE, Ok(0)), (WHOLE, Ok(0))],
        0,
    ),
    (
        "fills in pieces",
        &[(9, Answer::Moves(3))],
        &[(WHOLE, Ok(8))],
        8,
    ),
    (
        "reports how far it came",
        &[(2, Answer::Moves(3))],
        &[(WHOLE, Err(6))],
        6,
    ),
];

#[test]
fn readers_are_sources(rt: HostRuntime) {
    for (name, script, calls, filled) in &READS {
        let mut source = ReadSource::new(Device { script, given: 0 });
        let mut buf = [0; 8];
        for (i, (is_whole, answer)) in calls.iter().enumerate() {
            let got = if *is_whole {
                fill(&mut source, &mut buf).map_err(|fault| fault.got)
            } else {
                source.read(&mut buf).map_err(|_| 0)
            };
            assert_at(&rt, name, i, got == *answer);
        }
        let mut wanted = [0; 8];
        wanted[..*filled.min(&8)].fill(7);
        assert_at(&rt, name, calls.len(), buf == wanted);
    }
}

// A device's script, and calls of a sink with these bytes.
static WRITES: [(&str, Script, &[u8], &[Call]); 8] = [
    (
        "waits for a hundred interruptions",
        HUNDRED,
        b"abcde",
        &[(ONCE, Ok(3))],
    ),
    ("waits for no more", ONE_MORE, b"abcde", &[(ONCE, Err(0))]),
    (
        "a write of nothing is a failure",
        NOTHING,
        b"a",
        &[(ONCE, Err(0))],
    ),
    (
        "unless nothing is to be written",
        &[],
        b"",
        &[(ONCE, Ok(0))],
    ),
    (
        "goes on after a failure",
        FAILED_ONCE,
        b"abcd",
        &[(ONCE, Err(0)), (ONCE, Ok(1))],
    ),
    (
        "and after a write of nothing",
        NOTHING_ONCE,
        b"abcd",
        &[(ONCE, Err(0)), (ONCE, Ok(1))],
    ),
    (
        "writes in pieces",
        &[(3, Answer::Moves(3))],
        b"abcdefgh",
        &[(WHOLE, Ok(8))],
    ),
    (
        "reports how far it came",
        &[(2, Answer::Moves(3))],
        b"abcdefgh",
        &[(WHOLE, Err(6))],
    ),
];

#[test]
fn writers_are_sinks(rt: HostRuntime) {
    for (name, script, bytes, calls) in &WRITES {
        let mut sink = WriteSink::new(Device { script, given: 0 });
        for (i, (is_whole, answer)) in calls.iter().enumerate() {
            let put = if *is_whole {
                let put = put_all(&mut sink, bytes);
                put.map(|()| bytes.len()).map_err(|fault| fault.written)
            } else {
                sink.write(bytes).map_err(|_| 0)
            };
            assert_at(&rt, name, i, put == *answer);
        }
    }
}

// The source gives these ten bytes, six at first.
fn check_ten(rt: &impl Abort, name: &str, source: &mut impl Source) {
    let mut buf = [0; 6];
    assert_at(
        rt,
        name,
        0,
        fill(source, &mut buf) == Ok(6) && buf == *b"012345",
    );
    assert_at(
        rt,
        name,
        1,
        fill(source, &mut buf) == Ok(4) && buf == *b"678945",
    );
}

// The sink with capacity for eight bytes accepts six, two of them again, and no more.
#[test]
fn readers_of_std_and_memory_move_bytes_up_to_the_capacity(rt: HostRuntime) -> Result<(), Fail> {
    let bytes: &[u8] = b"0123456789";
    check_ten(&rt, "a reader of std", &mut ReadSource::new(bytes));
    let mut source = MemSource::new(bytes);
    assert_at(
        &rt,
        "memory",
        2,
        fill(&mut source, &mut [0; 6]) == Ok(6) && source.left() == b"6789".as_slice(),
    );
    check_ten(&rt, "memory", &mut MemSource::new(bytes));
    let mut sink = MemSink::new(rt.alloc(), 8)?;
    assert_at(&rt, "a sink", 0, put_all(&mut sink, b"012345") == Ok(()));
    let fault = Err(WriteFault { written: 2 });
    assert_at(&rt, "a sink", 1, put_all(&mut sink, b"012345") == fault);
    assert_at(
        &rt,
        "a sink",
        2,
        sink.as_slice() == b"01234501".as_slice() && sink.failures() == 1,
    );
    assert_at(&rt, "a full sink", 0, sink.write(b"") == Ok(0));
    assert_at(&rt, "a full sink", 1, sink.write(b"a") == Err(DeviceFault));
    assert_at(&rt, "a full sink", 2, sink.failures() == 2);
    Ok(())
}
