//! Texts of a header, escaped for a terminal, since they come from outside.

ghost use Rattle.std.specs.Prelude.{◌≡◌, ◌++◌, ◌∷◌, [], IfOk, OnOk, string_bytes, ◌≤◌};
ghost use Rattle.hex.specs.Hex.{encode_lower};
ghost use Rattle.luks_report.specs.DumpLine.{escaped, escaped_byte};

use std::alloc::{AllocError, Global};

/// A text of a header as it is printed: all bytes but visible ASCII and spaces are printed as
/// `\xHH`, and so is the backslash.
pub fn escape(alloc: Global, text: &[u8]) -> Result<String, AllocError>
    ensures { IfOk result (λ printed. string_bytes printed ≡ escaped text.now) }
{
    let mut printed = String::new(alloc);
    push_escaped_text(alloc, &mut printed, text)?;
    Ok(printed)
}

/// Adds a text of a header as it is printed.
#[tactic(auto, unfolding(crate::specs::DumpLine::escaped))]
pub(crate) fn push_escaped_text(
    alloc: Global,
    printed: &mut String,
    text: &[u8],
) -> Result<(), AllocError>
    ensures { OnOk result
        (string_bytes printed.new ≡ string_bytes printed.old ++ escaped text.now) }
{
    for byte in text {
        push_escaped(alloc, printed, *byte)?;
    }
    Ok(())
}

/// Adds one byte of a header's text.
#[tactic(auto, unfolding(crate::specs::DumpLine::escaped_byte))]
fn push_escaped(alloc: Global, printed: &mut String, byte: u8) -> Result<(), AllocError>
    ensures { OnOk result
        (string_bytes printed.new ≡ string_bytes printed.old ++ escaped_byte byte) }
{
    if b' ' <= byte && byte <= b'~' && byte != b'\\' {
        printed.push(char::from(byte))
    } else {
        push_digits(alloc, printed, byte)
    }
}

/// Adds a byte as a backslash, an x and two hexadecimal digits.
fn push_digits(alloc: Global, printed: &mut String, byte: u8) -> Result<(), AllocError>
    ensures { OnOk result (string_bytes printed.new
        ≡ string_bytes printed.old ++ 0x5c ∷ 0x78 ∷ encode_lower (byte ∷ [])) }
{
    let digits = hex::encode(alloc, [byte].as_slice())?;
    printed.push_str("\\x")?;
    printed.push_str(digits.as_str())
}
