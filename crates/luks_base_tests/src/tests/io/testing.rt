//! What no clause says about the devices for tests: how many bytes a call moves, and which call
//! fails.

use super::assert_at;
use luks_io::DeviceFault;
use luks_io::sink::Sink;
use luks_io::source::Source;
use luks_test_support::devices::{BrokenSource, FlakySink, FlakySource};
use luks_test_support::same::{holds_in, same, same_in};
use std::process::Abort;
use std::test::Fail;

// What calls of a source answer, and how many bytes are left after each.
static FLAKY: [(Result<usize, DeviceFault>, usize); 5] = [
    (Ok(3), 5),
    (Err(DeviceFault), 5),
    (Ok(3), 2),
    (Ok(2), 0),
    (Ok(0), 0),
];

static BROKEN: [(Result<usize, DeviceFault>, usize); 4] = [
    (Ok(4), 4),
    (Ok(1), 3),
    (Err(DeviceFault), 3),
    (Err(DeviceFault), 3),
];

#[test]
fn a_flaky_source_fails_once_and_gives_pieces(rt: HostRuntime) {
    let mut source = FlakySource::new(b"abcdefgh", 3, 1);
    let mut buf = [0; 8];
    for (i, (answer, left)) in FLAKY.iter().enumerate() {
        let got = source.read(&mut buf);
        assert_at(&rt, "flaky", i, got == *answer && source.left() == *left);
    }
    assert_at(
        &rt,
        "flaky",
        5,
        source.calls() == 5 && source.counts.failures == 1,
    );
    let got = FlakySource::new(b"abcdefgh", 0, 9).read(&mut buf[..7]);
    assert_at(
        &rt,
        "no pieces",
        0,
        got == Ok(7) && buf.starts_with(b"abcdefg"),
    );
}

#[test]
fn a_broken_source_gives_some_bytes_and_then_fails(rt: HostRuntime) {
    let mut source = BrokenSource::new(b"abcdefgh", 5);
    for (i, (answer, left)) in BROKEN.iter().enumerate() {
        let got = source.read(&mut [0; 4]);
        assert_at(&rt, "broken", i, got == *answer && source.left() == *left);
    }
    assert_at(&rt, "broken", 4, source.counts.failures == 2);
}

static LEAKY: [(&[u8], Result<usize, DeviceFault>); 5] = [
    (b"abcdefgh", Ok(3)),
    (b"defgh", Err(DeviceFault)),
    (b"de", Ok(2)),
    (b"fgh", Ok(1)),
    (b"gh", Err(DeviceFault)),
];

#[test]
fn a_leaky_sink_fails_once_and_accepts_pieces(rt: HostRuntime) -> Result<(), Fail> {
    let mut sink = FlakySink::new(rt.alloc(), 6, 3, 1)?;
    for (i, (bytes, answer)) in LEAKY.iter().enumerate() {
        assert_at(&rt, "leaky", i, sink.write(bytes) == *answer);
    }
    assert_at(&rt, "leaky", 5, sink.as_slice() == b"abcdef".as_slice());
    assert_at(&rt, "leaky", 6, sink.calls() == 5 && sink.failures() == 2);
    assert_at(
        &rt,
        "slow",
        0,
        FlakySink::new(rt.alloc(), 6, 0, 9)?.write(b"ab") == Ok(1),
    );
    Ok(())
}

#[test]
#[should_panic(expected = "the same: InCase { case: 3, wrong: Difference { left: 1, right: 2 } }")]
fn a_difference_is_printed_and_ends_a_test(rt: HostRuntime) {
    assert!(rt; same(1, 1).is_ok() && same(1, 2).is_err());
    assert!(rt; same_in(&"case", "a", "a").is_ok() && same_in(&"case", "a", "b").is_err());
    assert!(rt; holds_in(&7, true).is_ok() && holds_in(&7, false).is_err());
    same_in(&3, 1, 2).expect(&rt, "the same");
}
