//! `luksrd-audit`: reads its arguments, audits the images, and reports how that ended.
//!
//! What a run writes is specified by `run` of `luks_audit_run`, and how images are opened by
//! `luks_host`; only their calls, calls of std and the command line are here.
#![tactic(auto)]

mod arguments;
mod images;

use arguments::{Request, command, request_in};
use clap::ArgMatches;
use images::HostImages;
use luks_audit::image::State;
use luks_audit_run::run::{Ending, run};
use luks_host::descriptors::stand_ins;
use luks_host::is_output::is_output_named;
use luks_host::output::{RawFlush, RetryingWriter};
use luks_io::adapters::WriteSink;
use std::alloc::AllocError;
use std::env;
use std::fs::File;
use std::io::{BufWriter, ErrorKind};
use std::os::fd::AsRawFd;
use std::process::ExitCode;

/// The capacity in bytes of the buffer for the output.
const BUFFER: usize = 65536;

/// The exit status if the arguments are not understood, as that of `clap`.
const USAGE: u8 = 2;

fn main(rt: HostRuntime) -> ExitCode {
    let stand_ins = stand_ins(&rt);
    let has_input = !stands_in_for_input(&stand_ins);
    let args = match env::args(&rt) {
        Ok(args) => args,
        Err(e) if e.kind() == ErrorKind::OutOfMemory => return end(&rt, Ending::OutOfMemory),
        Err(_) => return misused(&rt, "an argument is not UTF-8"),
    };
    let Ok(words) = args.skip(1).collect::<Vec<String>>(rt.alloc()) else {
        return end(&rt, Ending::OutOfMemory);
    };
    obey(&rt, has_input, words.as_slice())
}

/// Whether one of the stand-ins has the descriptor of standard input, which then was closed.
fn stands_in_for_input(stand_ins: &[Option<File>]) -> bool {
    for stand_in in stand_ins {
        if let Some(file) = stand_in {
            if file.as_raw_fd() == 0 {
                return true;
            }
        }
    }
    false
}

/// Does what these arguments request.
fn obey(rt: &HostRuntime, has_input: bool, words: &[String]) -> ExitCode {
    let Ok(command) = command(rt.alloc()) else {
        return end(rt, Ending::OutOfMemory);
    };
    match command.try_get_matches_from(words) {
        Ok(matches) => audit_requested(rt, has_input, &matches),
        Err(error) => show(rt, &error),
    }
}

/// Audits the images that parsed arguments name.
fn audit_requested(rt: &HostRuntime, has_input: bool, matches: &ArgMatches<'_>) -> ExitCode {
    match request_in(matches) {
        Some(request) => audit(rt, has_input, &request),
        None => misused(rt, "standard input is named twice"),
    }
}

/// Prints what `clap` reports: a fault of the arguments, the help or the version.
fn show(rt: &HostRuntime, error: &clap::Error) -> ExitCode {
    if error.kind() == clap::error::ErrorKind::OutOfMemory {
        return end(rt, Ending::OutOfMemory);
    }
    if error.print(rt).is_err() {
        return end(rt, Ending::WriteFailed);
    }
    ExitCode::from(if error.exit_code() == 0 { 0 } else { USAGE })
}

/// Whether standard output writes to one of these images.
fn is_overwritten(rt: &HostRuntime, images: &[&str]) -> Result<bool, AllocError> {
    for name in images {
        if is_output_named(rt, rt.alloc(), name)? {
            return Ok(true);
        }
    }
    Ok(false)
}

/// Audits the requested images, unless the output would go into one of them.
fn audit(rt: &HostRuntime, has_input: bool, request: &Request<'_, '_>) -> ExitCode {
    match is_overwritten(rt, request.files) {
        Ok(false) => {}
        Ok(true) => {
            let _ = eprintln!(rt; "luksrd-audit: standard output is one of the images");
            return end(rt, Ending::Done(State::Unread));
        }
        Err(_) => return end(rt, Ending::OutOfMemory),
    }
    let Ok(writer) = BufWriter::with_capacity(rt.alloc(), BUFFER, RetryingWriter::new(rt.stdout()))
    else {
        return end(rt, Ending::OutOfMemory);
    };
    let mut out = WriteSink::new(writer);
    let mut host = HostImages::new(rt, has_input);
    let ending = run(
        rt.alloc(),
        request.policy,
        request.scope,
        request.files,
        &mut host,
        &mut out,
    );
    if out.into_inner().flush_once() {
        end(rt, ending)
    } else {
        end(rt, Ending::WriteFailed)
    }
}

/// Reports arguments that are not understood.
fn misused(rt: &HostRuntime, message: &str) -> ExitCode {
    if eprintln!(rt; "luksrd-audit: {message}").is_err() {
        return end(rt, Ending::WriteFailed);
    }
    ExitCode::from(USAGE)
}

/// Prints a message if the run was aborted, and returns the exit status.
fn end(rt: &HostRuntime, ending: Ending) -> ExitCode {
    match ending {
        Ending::Done(_) => {}
        Ending::OutOfMemory => {
            let _ = eprintln!(rt; "luksrd-audit: out of memory");
        }
        Ending::WriteFailed => {
            let _ = eprintln!(rt; "luksrd-audit: write failed");
        }
    }
    ExitCode::from(ending.status())
}
