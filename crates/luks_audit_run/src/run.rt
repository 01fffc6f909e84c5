//! A run: the images in their order.

ghost use Rattle.std.specs.Prelude.{◌≡◌, IfOk, OnErr, false, is_err, map};
ghost use Rattle.luks_io.specs.Devices.{counted};
ghost use Rattle.luks_audit.specs.Line.{error_value, head_of, line_text};
ghost use Rattle.luks_audit_run.specs.Run.{Audits, AuditsFile, EndsAudit, Puts, Runs, RunsPartly};
ghost use Rattle.luks_audit_run.specs.Run.{ending_status};
ghost use Rattle.luks_audit_run.specs.Run.{ends_unwritten};
ghost use Rattle.luks_audit_run.specs.Run.{is_unwritten, unopened_line};

use crate::host::{ImageFault, Images};
use crate::image::{RunFault, Scope, audit_start, graver, put, put_line, search_image};
use luks_audit::image::{ImageLine, Policy, State, fault_line};
use luks_audit::line::{Format, error_tree, head_of, line_text};
use luks_header::fault::HeaderFault;
use luks_io::sink::Sink;
use luks_io::source::Source;
use std::alloc::{AllocError, Global};

/// How a run ends.
#[derive(Clone, Copy)]
pub enum Ending {
    /// Each image has its line. The gravest state of all is this one.
    Done(State),
    /// Memory ran out.
    OutOfMemory,
    /// A write failed.
    WriteFailed,
}

impl Ending {
    /// The exit status: 0 if nothing is wrong or weak, 1 if something is, 4 if an image was not
    /// read or memory ran out, 6 if a write failed.
    pub fn status(self) -> u8
        ensures { result ≡ ending_status self }
    {
        match self {
            Ending::Done(State::Clean) => 0,
            Ending::Done(State::Flawed) => 1,
            Ending::Done(State::Unread) | Ending::OutOfMemory => 4,
            Ending::WriteFailed => 6,
        }
    }
}

// The line of an image that was not opened.
fn unopened_line(
    alloc: Global,
    format: Format,
    file: &str,
    fault: ImageFault,
) -> Result<Vec<u8>, AllocError>
    ensures { IfOk result (λ line. line.items ≡ unopened_line format file.now fault) }
{
    match fault {
        ImageFault::NotOpened => {
            let tree = error_tree(alloc, file, "cannot be opened")?;
            line_text(alloc, format, &tree)
        }
        ImageFault::Memory => fault_line(alloc, format, file, HeaderFault::Memory),
    }
}

// Writes the line of an image that was not opened.
fn put_unopened<O: Sink>(
    alloc: Global,
    format: Format,
    file: &str,
    fault: ImageFault,
    out: &mut O,
) -> Result<State, RunFault>
    ensures puts { Puts (O.written out.old) (O.written out.new)
        (unopened_line format file.now fault) (is_err result) }
    ensures shows { IfOk result (λ state. state ≡ State.Unread) }
    ensures writes { (O.counts out.new).failures
        ≡ counted (is_unwritten result) (O.counts out.old).failures }
{
    let line = unopened_line(alloc, format, file, fault)?;
    let state = State::Unread;
    put_line(ImageLine { line, state }, out)
}

// Audits an open image.
fn audit_open<S: Source, O: Sink>(
    alloc: Global,
    policy: Policy,
    scope: Scope,
    file: &str,
    source: &mut S,
    out: &mut O,
) -> Result<State, RunFault>
    ensures audits { Audits policy scope file.now (S.to_come source.old) (S.to_come source.new)
        (S.counts source.old).failures (S.counts source.new).failures
        (O.written out.old) (O.written out.new) result }
    ensures writes { (O.counts out.new).failures
        ≡ counted (is_unwritten result) (O.counts out.old).failures }
{
    match scope {
        Scope::Start => audit_start(alloc, policy, file, source, out),
        Scope::Everywhere => search_image(alloc, policy, file, source, out),
    }
}

// Opens an image, audits and closes it, and returns what its audit showed.
fn audit_file<H: Images, O: Sink>(
    alloc: Global,
    policy: Policy,
    scope: Scope,
    file: &str,
    host: &mut H,
    out: &mut O,
) -> Result<State, RunFault>
    ensures kept { H.stored host.new ≡ H.stored host.old }
    ensures audits { AuditsFile policy scope file.now (H.stored host.old file.now)
        (H.failures host.old) (H.failures host.new)
        (O.written out.old) (O.written out.new) result }
    ensures writes { (O.counts out.new).failures
        ≡ counted (is_unwritten result) (O.counts out.old).failures }
{
    match host.open(file) {
        Ok(mut image) => {
            let shown = audit_open(alloc, policy, scope, file, &mut image, out);
            host.close(image);
            shown
        }
        Err(fault) => put_unopened(alloc, policy.format, file, fault, out),
    }
}

// Writes the line before all others.
fn put_head<O: Sink>(alloc: Global, format: Format, out: &mut O) -> Result<(), RunFault>
    ensures puts { Puts (O.written out.old) (O.written out.new) (head_of format)
        (is_err result) }
    ensures writes { (O.counts out.new).failures
        ≡ counted (is_unwritten result) (O.counts out.old).failures }
{
    let head = head_of(alloc, format)?;
    put(head.as_slice(), out)
}

// Writes everything, and returns the gravest state of the images.
fn write_all<H: Images, O: Sink>(
    alloc: Global,
    policy: Policy,
    scope: Scope,
    files: &[&str],
    host: &mut H,
    out: &mut O,
) -> Result<State, RunFault>
    ensures ok { IfOk result (λ state. Runs policy scope (H.stored host.old)
        (map (λ file. file.now) files.now) (H.failures host.old) (H.failures host.new)
        (O.written out.old) (O.written out.new) state false) }
    ensures err { OnErr result (RunsPartly policy scope (H.stored host.old)
        (map (λ file. file.now) files.now) (H.failures host.old) (H.failures host.new)
        (O.written out.old) (O.written out.new)) }
    ensures writes { (O.counts out.new).failures
        ≡ counted (is_unwritten result) (O.counts out.old).failures }
{
    put_head(alloc, policy.format, out)?;
    let mut state = State::Clean;
    for file in files {
        let shown = audit_file(alloc, policy, scope, file, host, out)?;
        state = graver(state, shown);
    }
    Ok(state)
}

/// Audits the images of these names, and writes a line for each header: goes on after an image
/// that cannot be read.
///
/// What is written is `audit_text` of the names, of what the host has under them, and of the course
/// of each audit. A course is determined by what the host has, but for faults: an image that is
/// there is opened unless memory runs out, and an absent one is not. "Read failed" is written for
/// as many images as have had a failed read. If a write fails, or memory runs out for a line, a
/// prefix of that text is written; the run ends with `WriteFailed` exactly if a write failed. This
/// holds for images of any length; a search lists the headers in their first 2^63 bytes. If the
/// host does not know the bytes of an image, its text without a search is that of some header or
/// fault; nothing is said of the text of a search then.
pub fn run<H: Images, O: Sink>(
    alloc: Global,
    policy: Policy,
    scope: Scope,
    files: &[&str],
    host: &mut H,
    out: &mut O,
) -> Ending
    ensures ends { EndsAudit policy scope (H.stored host.old) (map (λ file. file.now) files.now)
        (H.failures host.old) (H.failures host.new)
        (O.written out.old) (O.written out.new) result }
    ensures writes { (O.counts out.new).failures
        ≡ counted (ends_unwritten result) (O.counts out.old).failures }
{
    match write_all(alloc, policy, scope, files, host, out) {
        Ok(state) => Ending::Done(state),
        Err(RunFault::OutOfMemory) => Ending::OutOfMemory,
        Err(RunFault::WriteFailed) => Ending::WriteFailed,
    }
}
