//! The commands of luksrd as `clap` reads them.

ghost use Rattle.std.specs.Prelude.{◌≡◌, ◌∷◌, ◌++◌, [], IfOk, List, OnOk, false};
ghost use Rattle.clap.specs.Words.{App, Shape, app_of, rule_of, with_rule};
ghost use Rattle.luks_args.specs.Grammar.{AreReadAs, BuildsApp, IsReadAs};
ghost use Rattle.luks_args.specs.Grammar.{alone, header_command, header_option, input, luksrd};
ghost use Rattle.luks_args.specs.Grammar.{luksrd_shapes, option, other_shapes, program};
ghost use Rattle.luks_args.specs.Grammar.{stripe_command, volume_command};

use clap::{Arg, Command};
use std::alloc::{AllocError, Global};

// A command being built, or the error if memory ran out: each call below adds one thing to it, or
// returns the error unchanged.
type Making<'a> = Result<Command<'a>, AllocError>;

// luksrd with all its commands.
#[tactic(auto, unfolding(crate::specs::Grammar::luksrd))]
pub(super) fn grammar<'a>(alloc: Global) -> Making<'a>
    ensures { IfOk result (λ made. app_of made ≡ luksrd) }
{
    let commands = commands(alloc)?;
    program(alloc).subcommands(commands)
}

// luksrd with no command yet, without a help flag and a help subcommand.
fn program<'a>(alloc: Global) -> Command<'a>
    ensures { IsReadAs result (alone program) }
{
    Command::new(alloc, "luksrd")
        .no_binary_name(true)
        .disable_help_flag(true)
        .disable_help_subcommand(true)
}

// All commands of luksrd.
fn commands<'a>(alloc: Global) -> Result<Vec<Command<'a>>, AllocError>
    ensures { IfOk result (λ commands. AreReadAs commands.items luksrd_shapes) }
{
    let mut commands = Vec::new(alloc);
    push_commands(alloc, &mut commands)?;
    Ok(commands)
}

// Adds all commands of luksrd.
fn push_commands<'a>(alloc: Global, commands: &mut Vec<Command<'a>>) -> Result<(), AllocError>
    ensures { (before : List Shape) → AreReadAs commands.old.items before
        → OnOk result (AreReadAs commands.new.items (before ++ luksrd_shapes)) }
{
    push_header_command(alloc, commands, "isLuks")?;
    push_header_command(alloc, commands, "luksUUID")?;
    push_header_command(alloc, commands, "luksDump")?;
    push_header_command(alloc, commands, "luksCheck")?;
    push_other_commands(alloc, commands)
}

// Adds the commands on volumes and on stripes.
fn push_other_commands<'a>(alloc: Global, commands: &mut Vec<Command<'a>>) -> Result<(), AllocError>
    ensures { (before : List Shape) → AreReadAs commands.old.items before
        → OnOk result (AreReadAs commands.new.items (before ++ other_shapes)) }
{
    push_command(commands, volume_command(alloc, "testPassphrase"))?;
    push_command(commands, volume_command(alloc, "luksCat"))?;
    push_command(commands, stripe_command(alloc, "afSplit", "random"))?;
    push_command(commands, stripe_command(alloc, "afMerge", "key-bytes"))
}

// Adds the command on headers of that name.
fn push_header_command<'a>(
    alloc: Global,
    commands: &mut Vec<Command<'a>>,
    name: &'a str,
) -> Result<(), AllocError>
    ensures { (before : List Shape) → AreReadAs commands.old.items before → OnOk result
        (AreReadAs commands.new.items (before ++ header_command name.entry.now ∷ [])) }
{
    push_command(commands, header_command(alloc, name))
}

// Adds the command.
fn push_command<'a>(commands: &mut Vec<Command<'a>>, command: Making<'a>) -> Result<(), AllocError>
    ensures { (before : List Shape) (shape : Shape) → AreReadAs commands.old.items before
        → BuildsApp command.entry (alone shape)
        → OnOk result (AreReadAs commands.new.items (before ++ shape ∷ [])) }
{
    Ok(commands.push(command?)?)
}

// `NAME [--header FILE] IMAGE`
fn header_command<'a>(alloc: Global, name: &'a str) -> Making<'a>
    ensures { BuildsApp result (alone (header_command name.entry.now)) }
{
    with_image(alloc, Ok(Command::new(alloc, name)))
}

// `NAME --key-file FILE [--key-slot N] [--max-iterations N] [--header FILE] IMAGE`
fn volume_command<'a>(alloc: Global, name: &'a str) -> Making<'a>
    ensures { BuildsApp result (alone (volume_command name.entry.now)) }
{
    let command = with_option(alloc, Ok(Command::new(alloc, name)), "key-file", true);
    let command = with_option(alloc, command, "key-slot", false);
    let command = with_option(alloc, command, "max-iterations", false);
    with_image(alloc, command)
}

// The command with `[--header FILE] IMAGE` after its options.
fn with_image<'a>(alloc: Global, command: Making<'a>) -> Making<'a>
    ensures { (as_read : App) → BuildsApp command.entry as_read
        → BuildsApp result (with_rule (with_rule as_read header_option) input) }
{
    let command = with_option(alloc, command, "header", false);
    with_input(alloc, command)
}

// `afSplit --hash HASH --stripes N --random FILE KEY` or
// `afMerge --hash HASH --stripes N --key-bytes N STRIPES`, by the name and the last option
fn stripe_command<'a>(alloc: Global, name: &'a str, last: &'a str) -> Making<'a>
    ensures { BuildsApp result (alone (stripe_command name.entry.now last.entry.now)) }
{
    let command = with_option(alloc, Ok(Command::new(alloc, name)), "hash", true);
    let command = with_option(alloc, command, "stripes", true);
    let command = with_option(alloc, command, last, true);
    with_input(alloc, command)
}

// The command with the option `--name` as well.
fn with_option<'a>(
    alloc: Global,
    command: Making<'a>,
    name: &'a str,
    is_required: bool,
) -> Making<'a>
    ensures { (as_read : App) → BuildsApp command.entry as_read
        → BuildsApp result (with_rule as_read (option name.entry.now is_required)) }
{
    command?.arg(option(alloc, name, is_required))
}

// The command with its input as well.
fn with_input<'a>(alloc: Global, command: Making<'a>) -> Making<'a>
    ensures { (as_read : App) → BuildsApp command.entry as_read
        → BuildsApp result (with_rule as_read input) }
{
    command?.arg(input(alloc))
}

// The option `--name`, which has one argument.
fn option<'a>(alloc: Global, name: &'a str, is_required: bool) -> Arg<'a>
    ensures rule { rule_of result ≡ option name.entry.now is_required }
    ensures local { result.global ≡ false }
{
    Arg::new(alloc, name).long(name).required(is_required)
}

// The input, which belongs to no option and is required.
fn input<'a>(alloc: Global) -> Arg<'a>
    ensures rule { rule_of result ≡ input }
    ensures local { result.global ≡ false }
{
    Arg::new(alloc, "input").required(true)
}
