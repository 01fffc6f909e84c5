//! Runs with more and more memory, until no allocation fails.

use super::devices::Trial;
use super::runs::{report_over, sink};
use super::same::{assert_in, assert_same_in};
use luks_io::memory::{MemSink, MemSource};
use luks_report::message::Message;
use luks_report::report::Report;
use luks_request::command::Command;
use luks_test_support::scarce::Scarcity;
use std::alloc::Global;
use std::process::Abort;

// How many runs there may be.
const MAX_RUNS: usize = 400;

// What a run reports, and how many bytes of the image it leaves.
fn run_once(
    alloc: Global,
    command: &Command<'_>,
    trial: &Trial<'_>,
    out: &mut MemSink,
) -> (Report, usize) {
    let mut header = MemSource::new(trial.header);
    let mut image = MemSource::new(trial.image);
    let mut secret = MemSource::new(trial.secret);
    let report = report_over(alloc, command, &mut header, &mut image, &mut secret, out);
    (report, image.left().len())
}

// The run ends as the trial specifies.
fn check_done(rt: &impl Abort, trial: &Trial<'_>, report: Report, out: &MemSink) {
    assert_in(rt, &trial.line, report.message == trial.message());
    assert_same_in(rt, &trial.line, out.as_slice(), trial.whole);
}

// If there is a second input, a run with all memory ends as specified. The stack grows in this run,
// since it cannot when all memory is allocated.
fn check_first(rt: &(impl Abort + AllocGlobal), command: &Command<'_>, trial: &Trial<'_>) {
    if trial.secret.is_empty() {
        return;
    }
    let mut out = sink(rt, 4096);
    let (report, _) = run_once(rt.alloc(), command, trial, &mut out);
    check_done(rt, trial, report, &out)
}

// Makes runs, each with one more piece of memory, until a run does not report that it is out of
// memory. Returns what that run reports, how many runs came before it, and whether each of those
// wrote nothing and, if the header is detached, left the image as it was.
fn run_until_done(
    alloc: Global,
    command: &Command<'_>,
    trial: &Trial<'_>,
    scarcity: &mut Scarcity,
    out: &mut MemSink,
) -> (Report, usize, bool) {
    let mut sound = true;
    for refused in 0..MAX_RUNS {
        let (report, left) = run_once(alloc, command, trial, out);
        if report.message != Message::OutOfMemory {
            return (report, refused, sound);
        }
        let untouched = left == trial.image.len() || !command.is_detached();
        sound = sound && untouched && report.status == 3 && out.as_slice().is_empty();
        scarcity.relent();
    }
    (Report::of(Message::OutOfMemory, 0), MAX_RUNS, sound)
}

// The same with pieces of this many bytes.
fn run_scarce(
    rt: &(impl Abort + AllocGlobal),
    command: &Command<'_>,
    trial: &Trial<'_>,
    piece: usize,
    out: &mut MemSink,
) -> (Report, usize, bool) {
    let mut scarcity = Scarcity::new(rt.alloc(), MAX_RUNS, piece).expect(rt, "pieces");
    run_until_done(rt.alloc(), command, trial, &mut scarcity, out)
}

/// Runs a command with more and more memory, until no allocation fails. Each run has one more piece
/// of `piece` bytes, and at least `least` runs run out of memory. Each of those reports it, writes
/// nothing and leaves the image of a detached header as it was; the last run ends as specified.
pub(super) fn check_scarcity(
    rt: &(impl Abort + AllocGlobal),
    command: &Command<'_>,
    trial: &Trial<'_>,
    (piece, least): (usize, usize),
) {
    check_first(rt, command, trial);
    let mut out = sink(rt, 4096);
    let (report, refused, sound) = run_scarce(rt, command, trial, piece, &mut out);
    assert_in(rt, &(trial.line, refused), least <= refused && sound);
    check_done(rt, trial, report, &out)
}
