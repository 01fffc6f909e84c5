//! `luksrd`: reads its arguments, opens the inputs, runs the command, and reports how it ended.
//!
//! What a run does is specified by `plan`, `execute` and `execute_detached` of `luks_commands`, and
//! how files are opened and a run ends by `luks_host`; only their calls, and calls of std, are
//! here.
#![tactic(auto)]

mod input;

use input::{HostInput, open_host_input};
use luks_commands::execute::{execute, execute_detached};
use luks_commands::plan_fault::report_of_fault;
use luks_commands::{Command, Message, NOT_OPENED, Report, not_opened_text, plan};
use luks_host::descriptors::stand_ins;
use luks_host::ending::{Ending, end_run, print_ending};
use luks_host::input::Input;
use luks_host::output::{RawFlush, RetryingWriter};
use luks_host::system::InputFault;
use luks_io::adapters::{ReadSource, WriteSink};
use luks_io::read_ahead::ReadAheadSource;
use std::env;
use std::io::{BufWriter, ErrorKind};
use std::process::ExitCode;

/// The capacity in bytes of the buffers for the image and for the output.
const BUFFER: usize = 65536;

fn main(rt: HostRuntime) -> ExitCode {
    let _stand_ins = stand_ins(&rt);
    let args = match env::args(&rt) {
        Ok(args) => args,
        Err(e) if e.kind() == ErrorKind::OutOfMemory => return end(&rt, Message::OutOfMemory),
        Err(_) => return end(&rt, Message::Usage),
    };
    let Ok(args) = args.skip(1).collect::<Vec<String>>(rt.alloc()) else {
        return end(&rt, Message::OutOfMemory);
    };
    match plan(rt.alloc(), args.as_slice()) {
        Ok(command) => run(&rt, &command).unwrap_or_else(|fault| report_fault(&rt, fault)),
        Err(fault) => print_report(&rt, &report_of_fault(fault)),
    }
}

/// Why a command was not started.
#[derive(Clone, Copy)]
enum StartFault<'a> {
    /// The input with this name cannot be opened.
    NotOpened(&'a str),
    /// No buffer could be allocated.
    OutOfMemory,
}

/// Opens the inputs and runs the command over them: the image is opened first, then a detached
/// header's file, then the second input. Returns the exit status.
fn run<'a>(rt: &HostRuntime, command: &Command<'a>) -> Result<ExitCode, StartFault<'a>> {
    let image = ReadSource::new(open(rt, Some(command.image()))?);
    let Ok(mut image) = ReadAheadSource::new(rt.alloc(), BUFFER, image) else {
        return Err(StartFault::OutOfMemory);
    };
    let mut header = ReadSource::new(open(rt, command.header())?);
    let mut secret = ReadSource::new(open(rt, command.secret())?);
    let Ok(writer) = BufWriter::with_capacity(rt.alloc(), BUFFER, RetryingWriter::new(rt.stdout()))
    else {
        return Err(StartFault::OutOfMemory);
    };
    let mut out = WriteSink::new(writer);
    let alloc = rt.alloc();
    let report = if command.is_detached() {
        execute_detached(
            alloc,
            command,
            &mut header,
            &mut image,
            &mut secret,
            &mut out,
        )
    } else {
        execute(alloc, command, &mut image, &mut secret, &mut out)
    };
    Ok(finish(rt, &report, &mut out.into_inner()))
}

/// Flushes the output, prints the message of a report, and returns the exit status.
///
/// It is not inlined: the buffers of its lines would be on the stack during the run, and may not
/// fit into a limited address space (`tests/test_memory.py`).
#[inline(never)]
fn finish<O: RawFlush>(rt: &HostRuntime, report: &Report, output: &mut O) -> ExitCode {
    let (line, lost) = (report.message.line(), Message::WriteFailed.line());
    let status = end_run(
        output,
        Ending {
            line: line.as_slice(),
            status: report.status,
        },
        Ending {
            line: lost.as_slice(),
            status: Message::WriteFailed.status(),
        },
        &mut WriteSink::new(rt.stderr()),
    );
    ExitCode::from(status)
}

/// Opens the named input; without a name, an empty one.
fn open<'a>(rt: &HostRuntime, name: Option<&'a str>) -> Result<HostInput, StartFault<'a>> {
    let Some(name) = name else {
        return Ok(Input::Empty);
    };
    open_host_input(rt, name).map_err(|fault| match fault {
        InputFault::NotOpened => StartFault::NotOpened(name),
        InputFault::Memory => StartFault::OutOfMemory,
    })
}

/// Reports why a command was not started, and returns the exit status.
fn report_fault(rt: &HostRuntime, fault: StartFault<'_>) -> ExitCode {
    let StartFault::NotOpened(name) = fault else {
        return end(rt, Message::OutOfMemory);
    };
    let Ok(line) = not_opened_text(rt.alloc(), name) else {
        return end(rt, Message::OutOfMemory);
    };
    print(rt, line.as_bytes(), NOT_OPENED)
}

/// Prints this message and returns its exit status.
fn end(rt: &HostRuntime, message: Message) -> ExitCode {
    print_report(rt, &Report::of(message, 0))
}

/// Prints the message of a report and returns its status. It is not inlined, as [`finish`] is not.
#[inline(never)]
fn print_report(rt: &HostRuntime, report: &Report) -> ExitCode {
    print(rt, report.message.line().as_slice(), report.status)
}

/// Prints a line on standard error and returns the status with it.
fn print(rt: &HostRuntime, line: &[u8], status: u8) -> ExitCode {
    let ending = Ending { line, status };
    ExitCode::from(print_ending(ending, &mut WriteSink::new(rt.stderr())))
}
