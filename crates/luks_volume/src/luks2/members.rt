//! Members of JSON objects, made of borrowed parts.

ghost use Rattle.std.specs.Prelude.{◌≡◌, IfOk, OnOk};
ghost use Rattle.serde_json.specs.Data.{no_members, object, put};
ghost use Rattle.serde_json.specs.View.{members_view, view};
ghost use Rattle.luks_volume.specs.Members.{data_of, with_members};
ghost use Rattle.luks_volume.specs.Layout2.{base64_value, decimal_value, encryption_value};

use base64::engine::general_purpose::STANDARD;
use luks_cipher::Mode;
use serde_json::{Map, Value, put};
use std::alloc::{AllocError, Global};

/// The value of a member.
#[derive(Clone, Copy)]
pub(crate) enum Content<'a> {
    /// A string.
    Text(&'a str),
    /// A number.
    Number(u64),
    /// A number in decimal digits, as a string.
    Decimal(u64),
    /// Bytes in base64.
    Bytes(&'a [u8]),
    /// How sectors are encrypted.
    Encryption(Mode),
}

/// A number in decimal digits, as a string.
pub(crate) fn decimal_value(alloc: Global, number: u64) -> Result<Value, AllocError>
    ensures { IfOk result (λ value. view value ≡ decimal_value number) }
{
    Ok(Value::from(number.to_string(alloc)?))
}

/// Bytes in base64.
fn base64_value(alloc: Global, bytes: &[u8]) -> Result<Value, AllocError>
    ensures { IfOk result (λ value. view value ≡ base64_value bytes.now) }
{
    Ok(Value::from(STANDARD.encode(alloc, bytes)?))
}

/// How sectors are encrypted.
fn encryption_value(alloc: Global, mode: Mode) -> Result<Value, AllocError>
    ensures { IfOk result (λ value. view value ≡ encryption_value mode) }
{
    let mut text = String::from_str(alloc, "aes-")?;
    text.push_str(mode.name())?;
    Ok(Value::from(text))
}

/// The JSON value of a member.
fn value_of(alloc: Global, content: Content<'_>) -> Result<Value, AllocError>
    ensures { IfOk result (λ value. view value ≡ data_of content.entry) }
{
    match content {
        Content::Text(text) => Value::try_from_str(alloc, text),
        Content::Number(number) => Ok(Value::from(number)),
        Content::Decimal(number) => decimal_value(alloc, number),
        Content::Bytes(bytes) => base64_value(alloc, bytes),
        Content::Encryption(mode) => encryption_value(alloc, mode),
    }
}

/// Puts members into an object, one after the other.
pub(crate) fn put_members(
    alloc: Global,
    map: &mut Map<String, Value>,
    members: &[(&str, Content<'_>)],
) -> Result<(), AllocError>
    ensures { OnOk result (members_view map.new.entries
        ≡ with_members members.now (members_view map.old.entries)) }
{
    'members: for member in members {
        put(map, alloc, member.0, value_of(alloc, member.1)?)?;
    }
    Ok(())
}

/// An object that has just these members.
pub(crate) fn object_of(alloc: Global, members: &[(&str, Content<'_>)]) -> Result<Value, AllocError>
    ensures { IfOk result (λ value. view value ≡ object (with_members members.now no_members)) }
{
    let mut map = Map::new(alloc);
    put_members(alloc, &mut map, members)?;
    Ok(Value::Object(map))
}

/// Puts an object that has just these members into another.
pub(crate) fn put_object(
    alloc: Global,
    map: &mut Map<String, Value>,
    name: &str,
    members: &[(&str, Content<'_>)],
) -> Result<(), AllocError>
    ensures { OnOk result (members_view map.new.entries ≡ put name.now
        (object (with_members members.now no_members)) (members_view map.old.entries)) }
{
    put(map, alloc, name, object_of(alloc, members)?)
}
