//! Characters that a terminal obeys, or that change the order in which text is shown.

ghost use Rattle.std.specs.Prelude.{◌≡◌, ◌++◌, ◌<◌, IfOk, OnOk};
ghost use Rattle.luks_audit.specs.Marks.{text_byte, direction_of, escape_of, has_lead, is_behind};
ghost use Rattle.luks_audit.specs.Marks.{is_between, is_lead};
ghost use Rattle.luks_audit.specs.Marks.{is_longer, mark_at, mark_of, marks_escaped, printed_at, unmarked};

use std::alloc::{AllocError, Global};

/// Such a character.
#[derive(Clone, Copy)]
pub(crate) struct Mark {
    /// The high byte of its code point.
    pub high: u8,
    /// The low byte.
    pub low: u8,
    /// Its length in UTF-8.
    pub len: u8,
}

// Whether the byte is one of the range.
fn is_between(first: u8, last: u8, byte: u8) -> bool
    ensures { result ≡ is_between first last byte }
{
    first <= byte && byte <= last
}

// The mark that begins with these bytes.
#[tactic(auto, unfolding(crate::specs::Marks::mark_of))]
fn mark_of(a: u8, b: u8, c: u8) -> Option<Mark>
    ensures { result ≡ mark_of a b c }
{
    if a == 127 {
        Some(Mark {
            high: 0,
            low: 127,
            len: 1,
        })
    } else if a == 194 && is_between(128, 159, b) {
        Some(Mark {
            high: 0,
            low: b,
            len: 2,
        })
    } else if a == 216 && b == 156 {
        Some(Mark {
            high: 6,
            low: 28,
            len: 2,
        })
    } else {
        direction_of(a, b, c)
    }
}

// The mark of the block of general punctuation that begins with these bytes.
fn direction_of(a: u8, b: u8, c: u8) -> Option<Mark>
    ensures { result ≡ direction_of a b c }
{
    if a == 226 && b == 128 && (is_between(142, 143, c) || is_between(170, 174, c)) {
        Some(Mark {
            high: 32,
            low: c - 128,
            len: 3,
        })
    } else if a == 226 && b == 129 && is_between(166, 169, c) {
        Some(Mark {
            high: 32,
            low: c - 64,
            len: 3,
        })
    } else {
        None
    }
}

// The byte at this index, or 0.
fn text_byte(text: &[u8], index: usize) -> u8
    ensures { result ≡ text_byte text.now index }
{
    match text.get(index) {
        Some(byte) => *byte,
        None => 0,
    }
}

// The mark that begins at this index.
#[tactic(auto, unfolding(crate::specs::Marks::mark_at))]
fn mark_at(text: &[u8], index: usize) -> Option<Mark>
    requires { index < 9223372036854775807 }
    ensures { result ≡ mark_at text.now index }
{
    mark_of(
        text_byte(text, index),
        text_byte(text, index + 1),
        text_byte(text, index + 2),
    )
}

// Whether a mark has more than this many bytes.
fn is_longer(len: u8, mark: Option<Mark>) -> bool
    ensures { result ≡ is_longer len mark }
{
    match mark {
        Some(mark) => len < mark.len,
        None => false,
    }
}

// Whether the byte is in a mark, and not its first one.
#[tactic(auto, unfolding(crate::specs::Marks::is_behind))]
fn is_behind(text: &[u8], index: usize) -> bool
    requires { index < 9223372036854775807 }
    ensures { result ≡ is_behind text.now index }
{
    (1 <= index && is_longer(1, mark_at(text, index - 1)))
        || (2 <= index && is_longer(2, mark_at(text, index - 2)))
}

// Adds the escape of a mark.
fn push_escape(alloc: Global, made: &mut Vec<u8>, mark: Mark) -> Result<(), AllocError>
    ensures { OnOk result (made.new.items ≡ made.old.items ++ escape_of mark) }
{
    let digits = hex::encode(alloc, [mark.high, mark.low].as_slice())?;
    made.extend_from_slice(b"\\u")?;
    Ok(made.extend_from_slice(digits.as_bytes())?)
}

// Adds what is printed for a byte that begins no mark.
fn push_unmarked(made: &mut Vec<u8>, text: &[u8], index: usize) -> Result<(), AllocError>
    requires { index < 9223372036854775807 }
    ensures { OnOk result (made.new.items ≡ made.old.items ++ unmarked text.now index) }
{
    if !is_behind(text, index) {
        made.push(text_byte(text, index))?;
    }
    Ok(())
}

// Adds what is printed for the byte at this index.
#[tactic(auto, unfolding(crate::specs::Marks::printed_at))]
fn push_at(alloc: Global, made: &mut Vec<u8>, text: &[u8], index: usize) -> Result<(), AllocError>
    requires { index < 9223372036854775807 }
    ensures { OnOk result (made.new.items ≡ made.old.items ++ printed_at text.now index) }
{
    match mark_at(text, index) {
        Some(mark) => push_escape(alloc, made, mark),
        None => push_unmarked(made, text, index),
    }
}

// The text with its marks escaped, byte by byte.
#[tactic(auto, unfolding(crate::specs::Marks::marks_escaped))]
fn escape_all(alloc: Global, text: &[u8]) -> Result<Vec<u8>, AllocError>
    ensures { IfOk result (λ made. made.items ≡ marks_escaped text.now) }
{
    let mut made = Vec::new(alloc);
    for index in 0..text.len() {
        push_at(alloc, &mut made, text, index)?;
    }
    Ok(made)
}

// Whether a mark can begin with the byte: it is DEL, or not ASCII.
fn is_lead(byte: u8) -> bool
    ensures { result ≡ is_lead byte }
{
    126 < byte
}

// Whether a mark can begin with one of the bytes. All are looked at, since that takes fewer
// instructions than to end at the first one.
fn has_lead(text: &[u8]) -> bool
    ensures { result ≡ has_lead text.now }
{
    let mut found = false;
    for byte in text {
        found |= is_lead(*byte);
    }
    found
}

/// The text with its marks escaped. Nearly every text has none, and stays as it is.
#[tactic(auto, using(crate::proofs::MarkLemmas::plain_escaped))]
pub(crate) fn escape_marks(alloc: Global, text: Vec<u8>) -> Result<Vec<u8>, AllocError>
    ensures { IfOk result (λ made. made.items ≡ marks_escaped text.items) }
{
    if has_lead(text.as_slice()) {
        escape_all(alloc, text.as_slice())
    } else {
        Ok(text)
    }
}
