//! The types of members: each function finds the value that an object has under a name, if it is
//! present and of that type.

ghost use Rattle.std.specs.Prelude.{◌≡◌, List, ℕ, length, option_map, IfOk};
ghost use Rattle.std.specs.Char.{is_ascii_digit};
ghost use Rattle.std.specs.List.{list_all};
ghost use Rattle.luks2_json.specs.Member.{base64_member, decimal_of, decimal_member, in_member};
ghost use Rattle.luks2_json.specs.Member.{string_is};
ghost use Rattle.luks2_json.specs.Member.{is_type, string_member as text_of, integer_member};
ghost use Rattle.serde_json.specs.View.{view};

use crate::encoded::{decoded, encoded_len};
use serde_json::Value;
use std::alloc::{AllocError, Global};

/// The integer under this name.
#[tactic(auto, unfolding(crate::specs::Member::integer_member))]
pub fn integer_member(object: &Value, name: &str) -> Option<u64>
    ensures { result ≡ integer_member name.now (view object.now) }
{
    object.get(name)?.as_u64()
}

/// The string under this name.
#[tactic(auto, unfolding(crate::specs::Member::string_member))]
pub fn string_member<'v>(object: &'v Value, name: &str) -> Option<&'v str>
    ensures { option_map (λ t. t.now) result ≡ text_of name.now (view object.now) }
{
    object.get(name)?.as_str()
}

/// The string under this name is the expected one.
#[tactic(auto, unfolding(crate::specs::Member::string_is))]
pub fn string_is(object: &Value, name: &str, expected: &str) -> bool
    ensures { result ≡ string_is name.now expected.now (view object.now) }
{
    match string_member(object, name) {
        Some(text) => expected == text,
        None => false,
    }
}

/// The member `type` is this string.
pub fn is_type(object: &Value, expected: &str) -> bool
    ensures { result ≡ is_type expected.now (view object.now) }
{
    string_is(object, "type", expected)
}

// Each byte of the string is a decimal digit.
fn all_digits(text: &str) -> bool
    ensures { result ≡ list_all is_ascii_digit text.now }
{
    text.bytes().all(|byte| byte.is_ascii_digit())
}

// The number below 2^64 that the string represents in 1 to 20 decimal digits.
#[tactic(auto, unfolding(crate::specs::Member::decimal_of))]
fn number_of(text: &str) -> Option<u64>
    ensures { result ≡ decimal_of text.now }
{
    if text.len() == 0 || 20 < text.len() || !all_digits(text) {
        return None;
    }
    text.parse().ok()
}

/// The number below 2^64 that the string under this name represents in 1 to 20 decimal digits.
#[tactic(auto, unfolding(crate::specs::Member::decimal_member))]
pub fn decimal_member(object: &Value, name: &str) -> Option<u64>
    ensures { result ≡ decimal_member name.now (view object.now) }
{
    number_of(string_member(object, name)?)
}

/// The integer under `name` in the object under `object`.
pub fn nested_integer(owner: &Value, object: &str, name: &str) -> Option<u64>
    ensures { result ≡ in_member object.now (integer_member name.now) (view owner.now) }
{
    integer_member(owner.get(object)?, name)
}

/// The string under `name` in the object under `object`.
pub fn nested_string<'v>(owner: &'v Value, object: &str, name: &str) -> Option<&'v str>
    ensures { option_map (λ t. t.now) result
        ≡ in_member object.now (text_of name.now) (view owner.now) }
{
    string_member(owner.get(object)?, name)
}

/// The number in decimal digits under `name` in the object under `object`.
pub fn nested_decimal(owner: &Value, object: &str, name: &str) -> Option<u64>
    ensures { result ≡ in_member object.now (decimal_member name.now) (view owner.now) }
{
    decimal_member(owner.get(object)?, name)
}

/// How many bytes are under this name in base64. This allocates nothing.
#[tactic(auto, unfolding(crate::specs::Member::base64_member))]
pub fn base64_len(object: &Value, name: &str) -> Option<usize>
    ensures { result ≡ option_map (λ (bytes : List ℕ). length bytes)
        (base64_member name.now (view object.now)) }
{
    encoded_len(string_member(object, name)?)
}

/// The bytes under this name in base64.
#[tactic(auto, unfolding(crate::specs::Member::base64_member))]
pub fn base64_member(
    alloc: Global,
    object: &Value,
    name: &str,
) -> Result<Option<Vec<u8>>, AllocError>
    ensures { IfOk result (λ bytes. option_map (λ b. b.items) bytes
        ≡ base64_member name.now (view object.now)) }
{
    match string_member(object, name) {
        Some(text) => decoded(alloc, text),
        None => Ok(None),
    }
}
