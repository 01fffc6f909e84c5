//! Lines of a header's text.

ghost use Rattle.std.specs.Fmt.{decimal};
ghost use Rattle.std.specs.Prelude.{◌≡◌, ◌++◌, OnOk, string_bytes};
ghost use Rattle.hex.specs.Hex.{encode_lower};
ghost use Rattle.luks_report.specs.DumpLine.{escaped, field};

use crate::escaping::escape;
use std::alloc::{AllocError, Global};

/// Adds one line: a name and a value.
#[tactic(auto, unfolding(crate::specs::DumpLine::field))]
pub fn push_field(lines: &mut String, name: &str, value: &str) -> Result<(), AllocError>
    ensures { OnOk result
        (string_bytes lines.new ≡ string_bytes lines.old ++ field name.now value.now) }
{
    writeln!(lines, "{name}: {value}")
}

/// Adds the line of a text of a header.
pub(crate) fn push_text(
    alloc: Global,
    lines: &mut String,
    name: &str,
    text: &[u8],
) -> Result<(), AllocError>
    ensures { OnOk result
        (string_bytes lines.new ≡ string_bytes lines.old ++ field name.now (escaped text.now)) }
{
    let text = escape(alloc, text)?;
    push_field(lines, name, text.as_str())
}

/// Adds the line of a number.
pub(crate) fn push_number(
    alloc: Global,
    lines: &mut String,
    name: &str,
    number: u64,
) -> Result<(), AllocError>
    ensures { OnOk result
        (string_bytes lines.new ≡ string_bytes lines.old ++ field name.now (decimal number)) }
{
    let digits = number.to_string(alloc)?;
    push_field(lines, name, digits.as_str())
}

/// Adds the line of bytes, as hexadecimal digits.
pub(crate) fn push_bytes(
    alloc: Global,
    lines: &mut String,
    name: &str,
    bytes: &[u8],
) -> Result<(), AllocError>
    ensures { OnOk result
        (string_bytes lines.new ≡ string_bytes lines.old
        ++ field name.now (encode_lower bytes.now)) }
{
    let digits = hex::encode(alloc, bytes)?;
    push_field(lines, name, digits.as_str())
}
