//! Members whose names are numbers.

ghost use Rattle.std.specs.Prelude.{◌≡◌, bytes_eq, decimal, not, option_map, string_bytes};
ghost use Rattle.luks_format.specs.Rule.{max_slots};
ghost use Rattle.luks2_json.specs.Numbered.{any_name, is_number_below, object_numbered};
ghost use Rattle.luks2_json.specs.Numbered.{has_key_out_of_range};
ghost use Rattle.serde_json.specs.View.{members_view, view as data_of};

use crate::tree::Metadata;
use itoa::Buffer;
use luks_format::rule::MAX_SLOTS;
use serde_json::{Map, Value};

/// The value with this number in the object of this name. A number of 32 or more has none.
#[tactic(auto, unfolding(crate::specs::Numbered::object_numbered))]
pub fn object_numbered<'v>(tree: &'v Value, names: &str, number: u8) -> Option<&'v Value>
    ensures { option_map (λ value. data_of value.now) result
        ≡ object_numbered names.now (data_of tree.now) number }
{
    if number >= MAX_SLOTS {
        return None;
    }
    let mut name = Buffer::new();
    tree.get(names)?.get(name.format(number))
}

// The name is this number in decimal digits.
fn is_name(name: &str, number: u8) -> bool
    ensures { result ≡ bytes_eq name.now (decimal number) }
{
    let mut expected = Buffer::new();
    name == expected.format(number)
}

// The name is a number below 32 in decimal digits.
fn is_number(name: &str) -> bool
    ensures { result ≡ is_number_below max_slots name.now }
{
    for number in 0..MAX_SLOTS {
        if is_name(name, number) {
            return true;
        }
    }
    false
}

// A member has a name that is not a number below 32.
fn any_other_name(members: &Map<String, Value>) -> bool
    ensures { result ≡ any_name (λ name. not (is_number_below max_slots name))
        (members_view members.now.entries) }
{
    members.keys().any(|name| !is_number(name.as_str()))
}

/// Whether a member of `keyslots` is ignored, since its name is not a number below 32. This
/// allocates nothing.
#[tactic(auto, unfolding(crate::specs::Numbered::has_key_out_of_range))]
pub fn has_key_out_of_range(metadata: &Metadata) -> bool
    ensures { result ≡ has_key_out_of_range metadata.now }
{
    let Some(keyslots) = metadata.tree().get("keyslots") else {
        return false;
    };
    match keyslots.as_object() {
        Some(members) => any_other_name(members),
        None => false,
    }
}
