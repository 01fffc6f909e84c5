//! How the arguments name a command.

ghost use Rattle.std.specs.Prelude.{◌≡◌, IfOk, None, Some, map, option_map, option_and_then};
ghost use Rattle.clap.specs.Words.{found_of, kind_of, rows_of, subcommand_rows_of};
ghost use Rattle.luks_args.specs.Command.{request_of_args, fault_for, header_request_in};
ghost use Rattle.luks_args.specs.Command.{merge_args_in};
ghost use Rattle.luks_args.specs.Command.{volume_args_in, header_args_in, request_in};
ghost use Rattle.luks_args.specs.Command.{split_args_in, subcommand_in};
ghost use Rattle.luks_request.specs.Request.{merge_request, volume_request, header_request};
ghost use Rattle.luks_request.specs.Request.{request_of, split_request};

use crate::grammar::grammar;
use crate::options::{hash, key_bytes, key_slot, max_iterations, stripes, text};
use clap::ArgMatches;
use clap::error::ErrorKind;
use luks_request::command::{Command, HeaderArgs, MergeArgs, SlotChoice, SplitArgs, VolumeArgs};
use std::alloc::{AllocError, Global};
use std::convert::AsStr;

/// Why the arguments give no command.
#[derive(Clone, Copy, PartialEq, Eq, Debug)]
pub enum PlanFault {
    /// The arguments are not a luksrd command.
    Usage,
    /// Memory ran out.
    Memory,
}

impl From<AllocError> for PlanFault {
    ghost use Rattle.luks_args.specs.declared.planning.PlanFault.{PlanFault};

    ghost from_gives = { λ _ fault. fault ≡ PlanFault.Memory };

    fn from(_error: AllocError) -> PlanFault {
        PlanFault::Memory
    }
}

impl From<clap::Error> for PlanFault {
    ghost from_gives = { λ error fault. fault ≡ fault_for (kind_of error) };

    fn from(error: clap::Error) -> PlanFault {
        match error.kind() {
            ErrorKind::OutOfMemory => PlanFault::Memory,
            _ => PlanFault::Usage,
        }
    }
}

/// The command that the arguments after the program's name request.
///
/// # Errors
///
/// `Usage` if they are not a luksrd command, also if there are none; `Memory` if memory ran out.
pub fn plan<'a, S: AsStr>(alloc: Global, words: &'a [S]) -> Result<Command<'a>, PlanFault>
    ensures ok { IfOk result (λ command.
        request_of_args (map S.text words.entry.now) ≡ Some (request_of command)) }
    ensures usage { result ≡ Err PlanFault.Usage
        → request_of_args (map S.text words.entry.now) ≡ None }
{
    let matches = matches_of(alloc, words)?;
    match read(&matches) {
        Some(command) if !command.reuses_stdin() => Ok(command),
        _ => Err(PlanFault::Usage),
    }
}

// The arguments as `clap` parses them.
fn matches_of<'a, S: AsStr>(alloc: Global, words: &'a [S]) -> Result<ArgMatches<'a>, PlanFault>
    ensures ok { IfOk result (λ matches.
        subcommand_in (map S.text words.entry.now) ≡ subcommand_rows_of matches) }
    ensures usage { result ≡ Err PlanFault.Usage
        → subcommand_in (map S.text words.entry.now) ≡ None }
{
    let program = grammar(alloc)?;
    Ok(program.try_get_matches_from(words)?)
}

// The command that was named, with its options.
fn read<'a>(matches: &ArgMatches<'a>) -> Option<Command<'a>>
    ensures { option_map request_of result
        ≡ option_and_then request_in (subcommand_rows_of matches.now) }
{
    let (name, options) = matches.subcommand()?;
    read_named(name, options)
}

// The command of that name.
fn read_named<'a>(name: &str, options: &ArgMatches<'a>) -> Option<Command<'a>>
    ensures { option_map request_of result ≡ request_in (name.now, rows_of (found_of options.now)) }
{
    match name {
        "testPassphrase" => volume_args(options).map(Command::TestPassphrase),
        "luksCat" => volume_args(options).map(Command::LuksCat),
        "afSplit" => split_args(options).map(Command::AfSplit),
        "afMerge" => merge_args(options).map(Command::AfMerge),
        _ => read_on_header(name, options),
    }
}

// The command on headers of that name.
#[tactic(auto, unfolding(crate::specs::Command::header_request_in))]
fn read_on_header<'a>(name: &str, options: &ArgMatches<'a>) -> Option<Command<'a>>
    ensures { option_map request_of result
        ≡ header_request_in name.now (rows_of (found_of options.now)) }
{
    match name {
        "isLuks" => header_args(options).map(Command::IsLuks),
        "luksUUID" => header_args(options).map(Command::LuksUuid),
        "luksDump" => header_args(options).map(Command::LuksDump),
        "luksCheck" => header_args(options).map(Command::LuksCheck),
        _ => None,
    }
}

fn header_args<'a>(options: &ArgMatches<'a>) -> Option<HeaderArgs<'a>>
    ensures { option_map header_request result ≡ header_args_in (rows_of (found_of options.now)) }
{
    Some(HeaderArgs {
        image: text(options, "input")?,
        header: text(options, "header"),
    })
}

fn volume_args<'a>(options: &ArgMatches<'a>) -> Option<VolumeArgs<'a>>
    ensures { option_map volume_request result ≡ volume_args_in (rows_of (found_of options.now)) }
{
    let key_file = text(options, "key-file")?;
    let named = key_slot(options)?;
    let max_iterations = max_iterations(options)?;
    let header = text(options, "header");
    let image = text(options, "input")?;
    Some(VolumeArgs {
        image,
        header,
        key_file,
        slots: SlotChoice {
            named,
            max_iterations,
        },
    })
}

fn split_args<'a>(options: &ArgMatches<'a>) -> Option<SplitArgs<'a>>
    ensures { option_map split_request result
        ≡ split_args_in (rows_of (found_of options.now)) }
{
    Some(SplitArgs {
        hash: hash(options)?,
        stripes: stripes(options)?,
        random: text(options, "random")?,
        key: text(options, "input")?,
    })
}

fn merge_args<'a>(options: &ArgMatches<'a>) -> Option<MergeArgs<'a>>
    ensures { option_map merge_request result ≡ merge_args_in (rows_of (found_of options.now)) }
{
    Some(MergeArgs {
        hash: hash(options)?,
        stripes: stripes(options)?,
        key_bytes: key_bytes(options)?,
        stripes_file: text(options, "input")?,
    })
}
