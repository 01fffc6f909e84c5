//! The audit of one open image: of the header at its start, or of every header in it.

ghost use Rattle.std.specs.Prelude.{◌≡◌, IfOk, is_err};
ghost use Rattle.luks_io.specs.Devices.{counted};
ghost use Rattle.luks_audit.specs.Image.{fault_line, header_line, header_state};
ghost use Rattle.luks_audit_run.specs.Run.{Audits, Puts, is_unwritten};
ghost use Rattle.luks_audit_run.specs.Searched.{end_line, end_state, graver, graver_of};
ghost use Rattle.luks_audit_run.specs.Searched.{search_fault};

use crate::place::{Place, SearchFault};
use crate::search::Search;
use luks_audit::image::{ImageLine, Policy, State, audit_image, fault_line, header_line};
use luks_header::fault::HeaderFault;
use luks_io::sink::{Sink, put_all};
use luks_io::source::Source;
use std::alloc::{AllocError, Global};

/// Where headers are sought in an image.
#[derive(Clone, Copy)]
pub enum Scope {
    /// At its start.
    Start,
    /// At each multiple of 512 bytes.
    Everywhere,
}

/// Why a run is aborted.
#[derive(Clone, Copy)]
pub(crate) enum RunFault {
    OutOfMemory,
    WriteFailed,
}

impl From<AllocError> for RunFault {
    ghost use Rattle.luks_audit_run.specs.declared.image.RunFault.{RunFault};

    ghost from_gives = { λ _ fault. fault ≡ RunFault.OutOfMemory };

    fn from(_error: AllocError) -> RunFault {
        RunFault::OutOfMemory
    }
}

/// The graver of two states.
pub(crate) fn graver(first: State, second: State) -> State
    ensures { result ≡ graver first second }
{
    match (first, second) {
        (State::Unread, _) => State::Unread,
        (State::Flawed, State::Unread) => State::Unread,
        (State::Flawed, _) => State::Flawed,
        (State::Clean, other) => other,
    }
}

// The graver of a state and those before it, if there are any.
fn graver_of(before: Option<State>, state: State) -> State
    ensures { result ≡ graver_of before state }
{
    match before {
        Some(before) => graver(before, state),
        None => state,
    }
}

// The fault of a header for a fault of a search.
fn search_fault(fault: SearchFault) -> HeaderFault
    ensures { result ≡ search_fault fault }
{
    match fault {
        SearchFault::Read => HeaderFault::Read,
        SearchFault::Memory => HeaderFault::Memory,
    }
}

/// Writes bytes.
pub(crate) fn put<O: Sink>(bytes: &[u8], out: &mut O) -> Result<(), RunFault>
    ensures puts { Puts (O.written out.old) (O.written out.new) bytes.now (is_err result) }
    ensures writes { (O.counts out.new).failures
        ≡ counted (is_unwritten result) (O.counts out.old).failures }
{
    match put_all(out, bytes) {
        Ok(()) => Ok(()),
        Err(_) => Err(RunFault::WriteFailed),
    }
}

/// Writes a line, and returns the state that was found with it.
pub(crate) fn put_line<O: Sink>(made: ImageLine, out: &mut O) -> Result<State, RunFault>
    ensures puts { Puts (O.written out.old) (O.written out.new) made.line.items (is_err result) }
    ensures shows { IfOk result (λ state. state ≡ made.state) }
    ensures writes { (O.counts out.new).failures
        ≡ counted (is_unwritten result) (O.counts out.old).failures }
{
    put(made.line.as_slice(), out)?;
    Ok(made.state)
}

// Writes the line that says why an image has no header, and returns the given state.
fn put_fault<O: Sink>(
    alloc: Global,
    policy: Policy,
    file: &str,
    fault: HeaderFault,
    state: State,
    out: &mut O,
) -> Result<State, RunFault>
    ensures puts { Puts (O.written out.old) (O.written out.new)
        (fault_line policy.format file.now fault) (is_err result) }
    ensures shows { IfOk result (λ shown. shown ≡ state) }
    ensures writes { (O.counts out.new).failures
        ≡ counted (is_unwritten result) (O.counts out.old).failures }
{
    let line = fault_line(alloc, policy.format, file, fault)?;
    put_line(ImageLine { line, state }, out)
}

// Writes the line of the header at a place, and returns what its audit showed.
fn put_place<O: Sink>(
    alloc: Global,
    policy: Policy,
    file: &str,
    place: Place,
    out: &mut O,
) -> Result<State, RunFault>
    ensures puts { Puts (O.written out.old) (O.written out.new)
        (header_line policy file.now place.offset place.header) (is_err result) }
    ensures shows { IfOk result (λ state. state ≡ header_state policy place.header) }
    ensures writes { (O.counts out.new).failures
        ≡ counted (is_unwritten result) (O.counts out.old).failures }
{
    let made = header_line(alloc, policy, file, place.offset, &place.header)?;
    put_line(made, out)
}

/// Writes the line of the header at the start of an image, or why there is none, and returns what
/// its audit showed.
pub(crate) fn audit_start<S: Source, O: Sink>(
    alloc: Global,
    policy: Policy,
    file: &str,
    source: &mut S,
    out: &mut O,
) -> Result<State, RunFault>
    ensures audits { Audits policy Scope.Start file.now (S.to_come source.old)
        (S.to_come source.new) (S.counts source.old).failures (S.counts source.new).failures
        (O.written out.old) (O.written out.new) result }
    ensures writes { (O.counts out.new).failures
        ≡ counted (is_unwritten result) (O.counts out.old).failures }
{
    let made = audit_image(alloc, policy, file, source)?;
    put_line(made, out)
}

// Ends the search of an image: writes that there is no header, if none was found.
fn end_search<O: Sink>(
    alloc: Global,
    policy: Policy,
    file: &str,
    found: Option<State>,
    out: &mut O,
) -> Result<State, RunFault>
    ensures puts { Puts (O.written out.old) (O.written out.new)
        (end_line policy file.now found) (is_err result) }
    ensures shows { IfOk result (λ state. state ≡ end_state found) }
    ensures writes { (O.counts out.new).failures
        ≡ counted (is_unwritten result) (O.counts out.old).failures }
{
    match found {
        Some(state) => Ok(state),
        None => put_fault(
            alloc,
            policy,
            file,
            HeaderFault::NotLuks,
            State::Flawed,
            out,
        ),
    }
}

/// Searches an image for headers, writes a line for each, and returns what their audit showed. If
/// there is none, or the search is aborted, a line says that.
pub(crate) fn search_image<S: Source, O: Sink>(
    alloc: Global,
    policy: Policy,
    file: &str,
    source: &mut S,
    out: &mut O,
) -> Result<State, RunFault>
    ensures audits { Audits policy Scope.Everywhere file.now (S.to_come source.old)
        (S.to_come source.new) (S.counts source.old).failures (S.counts source.new).failures
        (O.written out.old) (O.written out.new) result }
    ensures writes { (O.counts out.new).failures
        ≡ counted (is_unwritten result) (O.counts out.old).failures }
{
    let mut search = Search::new(alloc)?;
    let mut found = None;
    loop {
        match search.next(alloc, source) {
            Ok(Some(place)) => {
                let shown = put_place(alloc, policy, file, place, out)?;
                found = Some(graver_of(found, shown));
            }
            Ok(None) => return end_search(alloc, policy, file, found, out),
            Err(fault) => {
                let fault = search_fault(fault);
                return put_fault(alloc, policy, file, fault, State::Unread, out);
            }
        }
    }
}
