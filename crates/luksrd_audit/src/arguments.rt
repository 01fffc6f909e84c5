//! The command line.

use clap::{Arg, ArgAction, ArgMatches, Command, value_parser};
use luks_audit::image::Policy;
use luks_audit::line::Format;
use luks_audit::program::VERSION;
use luks_audit::weak_row::Severity;
use luks_audit_run::image::Scope;
use std::alloc::{AllocError, Global};

/// What the arguments request.
#[derive(Drop)]
pub struct Request<'r, 'a> {
    /// How headers are audited and printed.
    pub policy: Policy,
    /// Where headers are sought.
    pub scope: Scope,
    /// The names of the images, in their order.
    pub files: &'r [&'a str],
}

/// The command line as `clap` reads it.
pub fn command<'a>(alloc: Global) -> Result<Command<'a>, AllocError> {
    let command = Command::new(alloc, "luksrd-audit")
        .no_binary_name(true)
        .version(VERSION)
        .about("Lists what is in LUKS headers, and what is weak about them, as JSON.");
    with_images(alloc, with_options(alloc, command)?)
}

// The command with its options.
fn with_options<'a>(alloc: Global, command: Command<'a>) -> Result<Command<'a>, AllocError> {
    let command = with_minimum(alloc, command)?;
    let command = with_fail_on(alloc, command)?;
    let command = with_search(alloc, command)?;
    with_tsv(alloc, command)
}

fn with_minimum<'a>(alloc: Global, command: Command<'a>) -> Result<Command<'a>, AllocError> {
    let minimum = Arg::new(alloc, "min-iterations")
        .long("min-iterations")
        .value_name("N")
        .value_parser(value_parser!(u32))
        .help("Fewer iterations of PBKDF2 are weak, in place of OWASP's figures");
    command.arg(minimum)
}

fn with_fail_on<'a>(alloc: Global, command: Command<'a>) -> Result<Command<'a>, AllocError> {
    let fail_on = Arg::new(alloc, "fail-on")
        .long("fail-on")
        .value_name("SEVERITY")
        .value_parser(["low", "high"].as_slice())
        .help("Weaknesses that make the status 1: low (all, the default) or high");
    command.arg(fail_on)
}

fn with_search<'a>(alloc: Global, command: Command<'a>) -> Result<Command<'a>, AllocError> {
    let search = Arg::new(alloc, "search")
        .long("search")
        .action(ArgAction::SetTrue)
        .help("Seeks headers at each multiple of 512 bytes");
    command.arg(search)
}

fn with_tsv<'a>(alloc: Global, command: Command<'a>) -> Result<Command<'a>, AllocError> {
    let tsv = Arg::new(alloc, "tsv")
        .long("tsv")
        .action(ArgAction::SetTrue)
        .help("Prints columns with tabs between them, and their names first");
    command.arg(tsv)
}

// The command with its images.
fn with_images<'a>(alloc: Global, command: Command<'a>) -> Result<Command<'a>, AllocError> {
    let images = Arg::new(alloc, "IMAGE")
        .required(true)
        .num_args(1..)
        .help("Image files or devices; - is standard input");
    command.arg(images)
}

// The least severity that makes a header flawed.
fn fail_on(matches: &ArgMatches<'_>) -> Severity {
    match matches.get_str("fail-on") {
        Some("high") => Severity::High,
        _ => Severity::Low,
    }
}

/// The request of parsed arguments, or `None` if standard input is named more than once.
pub fn request_in<'r, 'a>(matches: &'r ArgMatches<'a>) -> Option<Request<'r, 'a>> {
    let files = matches.get_strs("IMAGE")?;
    if files.iter().filter(|name| **name == "-").count() > 1 {
        return None;
    }
    let format = if matches.get_flag("tsv") {
        Format::Tsv
    } else {
        Format::Json
    };
    let scope = if matches.get_flag("search") {
        Scope::Everywhere
    } else {
        Scope::Start
    };
    Some(Request {
        scope,
        policy: Policy {
            minimum: matches.get_one::<u32>("min-iterations"),
            fail_on: fail_on(matches),
            format,
        },
        files,
    })
}
