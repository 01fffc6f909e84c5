//! The options and the input of a command, one by one.

ghost use Rattle.std.specs.Prelude.{◌≡◌, option_map};
ghost use Rattle.clap.specs.Words.{found_of, rows_of};
ghost use Rattle.luks_args.specs.Command.{hash_option, key_bytes_in, key_slot_in};
ghost use Rattle.luks_args.specs.Command.{max_iterations_in};
ghost use Rattle.luks_args.specs.Command.{stripes_in, text_in};

use clap::ArgMatches;
use luks_kdf::Hash;
use luks_request::number::{KeyBytes, StripeCount, iteration_limit, slot_number};

// The text of the option or input.
pub(super) fn text<'a>(options: &ArgMatches<'a>, name: &str) -> Option<&'a str>
    ensures { option_map (λ text. text.now) result
        ≡ text_in name.now (rows_of (found_of options.now)) }
{
    options.get_str(name)
}

// The hash function that `--hash` names.
#[tactic(auto, unfolding(crate::specs::Command::hash_option))]
pub(super) fn hash(options: &ArgMatches<'_>) -> Option<Hash>
    ensures { result ≡ hash_option (rows_of (found_of options.now)) }
{
    Hash::from_name(text(options, "hash")?)
}

// The number of `--stripes`.
#[tactic(auto, unfolding(crate::specs::Command::stripes_in))]
pub(super) fn stripes(options: &ArgMatches<'_>) -> Option<StripeCount>
    ensures { option_map (λ stripes. stripes.count) result
        ≡ stripes_in (rows_of (found_of options.now)) }
{
    StripeCount::read(text(options, "stripes")?)
}

// The number of `--key-bytes`.
#[tactic(auto, unfolding(crate::specs::Command::key_bytes_in))]
pub(super) fn key_bytes(options: &ArgMatches<'_>) -> Option<KeyBytes>
    ensures { option_map (λ key. key.bytes) result ≡ key_bytes_in (rows_of (found_of options.now)) }
{
    KeyBytes::read(text(options, "key-bytes")?)
}

// The number of `--key-slot`, if it is given.
#[tactic(auto, unfolding(crate::specs::Command::key_slot_in))]
pub(super) fn key_slot(options: &ArgMatches<'_>) -> Option<Option<u8>>
    ensures { result ≡ key_slot_in (rows_of (found_of options.now)) }
{
    match text(options, "key-slot") {
        Some(text) => Some(Some(slot_number(text)?)),
        None => Some(None),
    }
}

// The number of `--max-iterations`, if it is given.
#[tactic(auto, unfolding(crate::specs::Command::max_iterations_in))]
pub(super) fn max_iterations(options: &ArgMatches<'_>) -> Option<Option<u32>>
    ensures { result ≡ max_iterations_in (rows_of (found_of options.now)) }
{
    match text(options, "max-iterations") {
        Some(text) => Some(Some(iteration_limit(text)?)),
        None => Some(None),
    }
}
