//! Runs over devices that move a few bytes a call, one of which may fail at one call.

use super::runs::report_over;
use super::same::{assert_in, assert_same_in};
use luks_report::message::Message;
use luks_report::report::Report;
use luks_request::command::Command;
use luks_test_support::devices::{FlakySink, FlakySource};
use std::process::Abort;

/// A run, and how it ends if no call fails.
#[derive(Clone, Copy)]
pub(super) struct Trial<'a> {
    pub(super) line: &'a str,
    /// The detached header, if the line names one.
    pub(super) header: &'a [u8],
    pub(super) image: &'a [u8],
    pub(super) secret: &'a [u8],
    /// Where the payload starts in the image, or `usize::MAX` if the command writes none.
    pub(super) start: usize,
    pub(super) whole: &'a [u8],
    /// Whether it reports findings.
    pub(super) has_findings: bool,
    /// How many bytes of the image it leaves. It leaves none of the other inputs.
    pub(super) left: usize,
}

impl Trial<'_> {
    /// The message of the run.
    pub(super) fn message(&self) -> Message {
        if self.has_findings {
            Message::Findings
        } else {
            Message::Done
        }
    }
}

/// How many bytes a call moves of the detached header, the image, the second input and the output.
/// For an input, 0 means all bytes that are requested.
pub(super) type Pieces = (usize, usize, usize, usize);

/// How the devices of a run move bytes, and which call of which device fails: the image is device
/// 0, the second input 1, the output 2 and the detached header 3; with 4, no call fails.
#[derive(Clone, Copy, Debug)]
struct Way {
    pieces: Pieces,
    device: u32,
    call: u64,
}

impl Way {
    // The devices move these pieces, and no call fails.
    fn without_failure(pieces: Pieces) -> Way {
        Way {
            pieces,
            device: 4,
            call: 0,
        }
    }

    // The number of the call of this device that fails.
    fn call_of(self, device: u32) -> u64 {
        if device == self.device {
            self.call
        } else {
            u64::MAX
        }
    }
}

/// A run that has ended: what it reports, and its devices.
#[derive(Drop)]
struct Ended<'a> {
    report: Report,
    header: FlakySource<'a>,
    image: FlakySource<'a>,
    secret: FlakySource<'a>,
    out: FlakySink,
}

// A run of this command.
fn run<'a>(
    rt: &(impl Abort + AllocGlobal),
    command: &Command<'_>,
    trial: &Trial<'a>,
    way: Way,
) -> Ended<'a> {
    let (of_header, of_image, of_secret, of_out) = way.pieces;
    let mut out = FlakySink::new(rt.alloc(), 4096, of_out, way.call_of(2)).expect(rt, "memory");
    let mut header = FlakySource::new(trial.header, of_header, way.call_of(3));
    let mut image = FlakySource::new(trial.image, of_image, way.call_of(0));
    let mut secret = FlakySource::new(trial.secret, of_secret, way.call_of(1));
    let report = report_over(
        rt.alloc(),
        command,
        &mut header,
        &mut image,
        &mut secret,
        &mut out,
    );
    Ended {
        report,
        header,
        image,
        secret,
        out,
    }
}

// No read of the source was needless: none was empty or came after EOF was hit, and none came
// after the failed read.
fn reads_as_needed(way: Way, source: &FlakySource<'_>) -> bool {
    let last = source.counts.failures == 0 || source.calls() == way.call.saturating_add(1);
    last && source.counts.ends <= 1 && source.counts.needless == 0
}

// No write to the output was needless: none was empty, and none came after the failed write.
fn writes_as_needed(way: Way, out: &FlakySink) -> bool {
    let last = out.failures() == 0 || out.calls() == way.call.saturating_add(1);
    last && out.counts.needless == 0
}

impl Ended<'_> {
    // No call of a device was needless.
    fn is_sparing(&self, way: Way) -> bool {
        reads_as_needed(way, &self.header)
            && reads_as_needed(way, &self.image)
            && reads_as_needed(way, &self.secret)
            && writes_as_needed(way, &self.out)
    }

    // Whether a call failed.
    fn has_failed(&self) -> bool {
        self.header.counts.failures != 0
            || self.image.counts.failures != 0
            || self.secret.counts.failures != 0
            || self.out.failures() != 0
    }
}

// What was written, and how many bytes of the payload were consumed.
type Moved<'a> = (&'a [u8], usize);

// The failed call is reported. After a failed read of the image, all whole sectors that were
// consumed are written. After a failed read of another input, nothing is written, and nothing of
// the payload is consumed. After a failed write, no byte past the current sector was consumed.
fn check_failed(rt: &impl Abort, way: Way, report: Report, (written, consumed): Moved<'_>) {
    let reported = if way.device == 2 {
        Message::WriteFailed
    } else {
        Message::ReadFailed
    };
    assert_in(rt, &way, report.message == reported);
    match way.device {
        0 => assert_same_in(rt, &way, written.len(), consumed / 512 * 512),
        2 => assert_in(rt, &way, consumed <= (written.len() / 512 + 1) * 512),
        _ => assert_same_in(rt, &way, (written.len(), consumed), (0, 0)),
    }
}

// The run ends as the trial specifies.
fn check_whole(rt: &impl Abort, way: Way, trial: &Trial<'_>, ended: &Ended<'_>) {
    assert_same_in(rt, &way, ended.report.message, trial.message());
    assert_same_in(rt, &way, ended.out.as_slice(), trial.whole);
    let lefts = (ended.header.left(), ended.image.left(), ended.secret.left());
    assert_same_in(rt, &way, lefts, (0, trial.left, 0));
}

// The run made no needless call and wrote a prefix of the whole output. It ends as specified if no
// call failed. Returns whether one did.
fn check_ended(rt: &impl Abort, way: Way, trial: &Trial<'_>, ended: &Ended<'_>) -> bool {
    let written = ended.out.as_slice();
    assert_in(rt, &way, ended.is_sparing(way));
    assert_in(rt, &way, trial.whole.starts_with(written));
    if ended.has_failed() {
        let consumed = trial.image.len() - ended.image.left().min(trial.image.len());
        let moved = (written, consumed.saturating_sub(trial.start));
        check_failed(rt, way, ended.report, moved);
        return true;
    }
    check_whole(rt, way, trial, ended);
    false
}

// Makes runs in which one call of this device fails, a later one each time, until none does.
fn check_device(
    rt: &(impl Abort + AllocGlobal),
    command: &Command<'_>,
    trial: &Trial<'_>,
    pieces: Pieces,
    device: u32,
) {
    for call in 0..900 {
        let way = Way {
            pieces,
            device,
            call,
        };
        if !check_ended(rt, way, trial, &run(rt, command, trial, way)) {
            return;
        }
    }
    assert_in(rt, &device, false);
}

/// Runs with one failing call each, for each device in turn. Each run reports the failure, and what
/// it wrote is a prefix of the whole output.
pub(super) fn check_failures(
    rt: &(impl Abort + AllocGlobal),
    command: &Command<'_>,
    trial: &Trial<'_>,
    pieces: Pieces,
) {
    for device in 0..4 {
        check_device(rt, command, trial, pieces, device);
    }
}

/// A run whose devices move these pieces ends as specified.
pub(super) fn check_pieces(
    rt: &(impl Abort + AllocGlobal),
    command: &Command<'_>,
    trial: &Trial<'_>,
    pieces: Pieces,
) {
    let way = Way::without_failure(pieces);
    check_whole(rt, way, trial, &run(rt, command, trial, way))
}

/// The image ends before its key areas. That is reported, and EOF was hit once.
pub(super) fn check_truncated(
    rt: &(impl Abort + AllocGlobal),
    command: &Command<'_>,
    trial: &Trial<'_>,
    pieces: Pieces,
) {
    let way = Way::without_failure(pieces);
    let ended = run(rt, command, trial, way);
    let counts = &ended.image.counts;
    assert_same_in(rt, &way, ended.report.message, Message::Cut);
    assert_in(rt, &way, counts.ends == 1 && counts.needless == 0);
    assert_in(rt, &way, ended.out.as_slice().is_empty());
}
