//! Runs over memory, and how they end.

use super::same::{assert_in, assert_same_in};
use luks_args::planning::plan;
use luks_commands::execute::{execute, execute_detached};
use luks_commands::plan_fault::report_of_fault;
use luks_io::memory::MemSink;
use luks_io::sink::{Sink, put_all};
use luks_io::source::Source;
use luks_report::report::Report;
use luks_request::command::Command;
use luks_test_support::devices::BrokenSource;
use std::alloc::Global;
use std::fmt::Debug;
use std::process::Abort;

pub(super) const CAT: &str = "luksCat --key-file f i";

pub(super) const TEST: &str = "testPassphrase --key-file f i";

/// The same commands with a detached header.
pub(super) const CAT_DETACHED: &str = "luksCat --key-file f --header h i";

pub(super) const TEST_DETACHED: &str = "testPassphrase --key-file f --header h i";

/// What `testPassphrase` writes if slot 0 opens the volume.
pub(super) const OPENS: &[u8] = b"Key slot 0 opens the volume.\n";

/// A status, and the message after it: none here.
pub(super) const DONE: &str = "0 ";

pub(super) const NOT_LUKS: &str = "4 luksrd: not a LUKS image\n";

pub(super) const CUT: &str = "4 luksrd: image ends inside the header or a key area\n";

pub(super) const BEFORE: &str = "4 luksrd: image ends before the payload\n";

pub(super) const TORN_511: &str = "4 luksrd: image ends inside a sector: 511 bytes left over\n";

pub(super) const NO_KEY: &str = "2 luksrd: no key opens the volume\n";

pub(super) const OFFSET: &str = "1 luksrd: segment refused: offset\n";

pub(super) const FINDINGS: &str = "1 luksrd: the header has findings\n";

pub(super) const WRITE_FAILED: &str = "6 luksrd: write failed\n";

/// The detached header, if a line names one, the image, and the second input.
pub(super) type Inputs<'a> = [&'a [u8]; 3];

/// What a run writes, and its status with its message.
pub(super) type Ends<'a> = (&'a [u8], &'a str);

/// How many bytes a run leaves of the detached header, the image and the second input.
pub(super) type Left = (usize, usize, usize);

/// How many bytes the image and the second input give before a read of them fails, and the capacity
/// of the output, after which a write fails.
pub(super) type Limits = (usize, usize, usize);

/// As many bytes as there are.
pub(super) const ALL: usize = usize::MAX;

/// Limits with which no call fails.
pub(super) const NO_FAULT: Limits = (ALL, ALL, 8192);

/// The arguments of a line, separated by single spaces.
pub(super) fn args_of<'a>(rt: &(impl Abort + AllocGlobal), line: &'a str) -> Vec<&'a str> {
    line.split(' ')
        .collect(rt.alloc())
        .expect(rt, "memory for arguments")
}

/// A sink with this capacity.
pub(super) fn sink(rt: &(impl Abort + AllocGlobal), capacity: usize) -> MemSink {
    MemSink::new(rt.alloc(), capacity).expect(rt, "memory for an output")
}

/// What a command reports over these devices.
pub(super) fn report_over<H: Source, I: Source, K: Source, O: Sink>(
    alloc: Global,
    command: &Command<'_>,
    header: &mut H,
    image: &mut I,
    secret: &mut K,
    out: &mut O,
) -> Report {
    if command.is_detached() {
        execute_detached(alloc, command, header, image, secret, out)
    } else {
        execute(alloc, command, image, secret, out)
    }
}

/// What a run with these arguments reports over these devices.
pub(super) fn report_of<H: Source, I: Source, K: Source, O: Sink>(
    rt: &(impl Abort + AllocGlobal),
    args: &[&str],
    header: &mut H,
    image: &mut I,
    secret: &mut K,
    out: &mut O,
) -> Report {
    match plan(rt.alloc(), args) {
        Ok(command) => report_over(rt.alloc(), &command, header, image, secret, out),
        Err(fault) => report_of_fault(fault),
    }
}

/// The report has this status and this message.
pub(super) fn check_reported(
    rt: &(impl Abort + AllocGlobal),
    case: &impl Debug,
    report: &Report,
    reported: &str,
) {
    let mut line = sink(rt, 2048);
    let status = [b'0'.wrapping_add(report.status), b' '];
    assert_in(rt, case, put_all(&mut line, &status).is_ok());
    assert_in(rt, case, report.message.print(&mut line).is_ok());
    assert_same_in(rt, case, line.as_slice(), reported.as_bytes());
}

/// What a run of this line reports, and how many bytes of its inputs it leaves. Reads of the image
/// and the second input fail after this many bytes.
pub(super) fn run_over(
    rt: &(impl Abort + AllocGlobal),
    line: &str,
    [header, image, secret]: Inputs<'_>,
    (of_image, of_secret): (usize, usize),
    out: &mut MemSink,
) -> (Report, Left) {
    let args = args_of(rt, line);
    let mut header = BrokenSource::new(header, ALL);
    let mut image = BrokenSource::new(image, of_image);
    let mut secret = BrokenSource::new(secret, of_secret);
    let report = report_of(rt, &args, &mut header, &mut image, &mut secret, out);
    (report, (header.left(), image.left(), secret.left()))
}

/// A run of this line over devices with these limits ends like this, and leaves this many bytes.
pub(super) fn check_within(
    rt: &(impl Abort + AllocGlobal),
    (of_image, of_secret, capacity): Limits,
    line: &str,
    inputs: Inputs<'_>,
    (output, reported): Ends<'_>,
    left: Left,
) {
    let case = (line, inputs[1].len(), inputs[2].len(), capacity);
    let mut out = sink(rt, capacity);
    let (report, lefts) = run_over(rt, line, inputs, (of_image, of_secret), &mut out);
    check_reported(rt, &case, &report, reported);
    assert_same_in(rt, &case, out.as_slice(), output);
    assert_same_in(rt, &case, lefts, left);
}

/// The same over devices without a failing call.
pub(super) fn check(
    rt: &(impl Abort + AllocGlobal),
    line: &str,
    inputs: Inputs<'_>,
    ends: Ends<'_>,
    left: Left,
) {
    check_within(rt, NO_FAULT, line, inputs, ends, left)
}
