//! Arrays of strings.

ghost use Rattle.std.specs.Prelude.{◌≡◌, ◌++◌, [], IfOk, OnOk, List, ℕ, is_some, map, string_bytes};
ghost use Rattle.std.specs.List.{cons_option, list_all, list_any};
ghost use Rattle.luks2_json.specs.List.{has_strings, is_the_string, items_listed};
ghost use Rattle.luks2_json.specs.List.{array_contains, strings_among, strings_at};
ghost use Rattle.serde_json.specs.Find.{as_str};
ghost use Rattle.serde_json.specs.View.{items_view, view as data_of};

use serde_json::Value;
use std::alloc::{AllocError, Global};
use std::marker::Model;

// The value is this string.
fn is_the_string(value: &Value, text: &str) -> bool
    ensures { result ≡ is_the_string text.now (data_of value.now) }
{
    match value.as_str() {
        Some(found) => text == found,
        None => false,
    }
}

// All items of the array are strings.
fn all_strings(values: &[Value]) -> bool
    ensures { result
        ≡ list_all (λ it. is_some (as_str it)) (items_listed (items_view values.now)) }
{
    values.iter().all(|value| value.is_string())
}

// Some item of the array is this string.
fn any_string(values: &[Value], text: &str) -> bool
    ensures { result ≡ list_any (is_the_string text.now) (items_listed (items_view values.now)) }
{
    values.iter().any(|value| is_the_string(value, text))
}

/// There is an array under this name, and all its items are strings.
#[tactic(auto, unfolding(crate::specs::List::has_strings))]
pub fn has_strings(object: &Value, name: &str) -> bool
    ensures { result ≡ has_strings name.now (data_of object.now) }
{
    let Some(member) = object.get(name) else {
        return false;
    };
    match member.as_array() {
        Some(values) => all_strings(values.as_slice()),
        None => false,
    }
}

/// There is an array under this name, and it contains the string.
#[tactic(auto, unfolding(crate::specs::List::array_contains))]
pub fn array_contains(object: &Value, name: &str, text: &str) -> bool
    ensures { result ≡ array_contains name.now text.now (data_of object.now) }
{
    let Some(member) = object.get(name) else {
        return false;
    };
    match member.as_array() {
        Some(values) => any_string(values.as_slice(), text),
        None => false,
    }
}

/// Names, in the order of the array that they come from. A clause sees their bytes.
#[derive(Drop, Debug)]
pub struct Names {
    names: Vec<String>,
}

impl Model for Names {
    ghost Value = { List (List ℕ) };

    ghost view = { λ names. map string_bytes names.names.items };
}

impl Names {
    /// The names.
    pub fn as_slice(&self) -> &[String]
        ensures { map string_bytes result.now ≡ self.now }
    {
        self.names.as_slice()
    }
}

// Appends the value to the names, if it is a string.
fn push_string(alloc: Global, names: &mut Vec<String>, value: &Value) -> Result<(), AllocError>
    ensures { OnOk result (map string_bytes names.new.items
        ≡ map string_bytes names.old.items ++ cons_option (as_str (data_of value.now)) []) }
{
    if let Some(text) = value.as_str() {
        names.push(String::from_str(alloc, text)?)?;
    }
    Ok(())
}

// The strings among the items of the array.
fn strings_among(alloc: Global, values: &[Value]) -> Result<Names, AllocError>
    ensures { IfOk result (λ names. names ≡ strings_among (items_view values.now)) }
{
    let mut names = Vec::new(alloc);
    for value in values {
        push_string(alloc, &mut names, value)?;
    }
    Ok(Names { names })
}

/// The strings in the array under this name.
#[tactic(auto, unfolding(crate::specs::List::strings_at))]
pub fn strings_at(alloc: Global, object: &Value, name: &str) -> Result<Names, AllocError>
    ensures { IfOk result (λ names. names ≡ strings_at name.now (data_of object.now)) }
{
    let Some(member) = object.get(name) else {
        return strings_among(alloc, &[]);
    };
    match member.as_array() {
        Some(values) => strings_among(alloc, values.as_slice()),
        None => strings_among(alloc, &[]),
    }
}
