//! The texts of a header.

ghost use Rattle.std.specs.Prelude.{◌≡◌, ◌≤◌, ◌==◌, List, ℕ, position, take};
ghost use Rattle.luks_format.specs.Fields.{text_of};

use std::marker::Model;

/// A text of at most `N` bytes, which need not be UTF-8. A clause sees its bytes.
#[derive(Drop, Debug)]
pub struct FixedText<const N: usize> {
    field: [u8; N],
    len: usize,
}

impl<const N: usize> Model for FixedText<N> {
    ghost Value = { List ℕ };

    ghost view = { λ text. take text.len text.field };

    ghost invariant = { λ text. text.len ≤ N };
}

impl<const N: usize> FixedText<N> {
    /// The text in a field: the bytes before its first zero byte, or all of them.
    pub fn new(field: [u8; N]) -> FixedText<N>
        ensures { result ≡ text_of field.entry }
    {
        let len = first_zero(&field).unwrap_or(N);
        FixedText { field, len }
    }

    /// The bytes of the text.
    pub fn as_bytes(&self) -> &[u8]
        ensures { result.now ≡ self.now }
    {
        &self.field[..self.len]
    }
}

/// The text in a field of any length: the bytes before its first zero byte, or all of them.
pub fn text_before_zero(field: &[u8]) -> &[u8]
    ensures { result.now ≡ text_of field.now }
{
    &field[..first_zero(field).unwrap_or(field.len())]
}

// The index of the first zero byte, if there is one.
fn first_zero(field: &[u8]) -> Option<usize>
    ensures { result ≡ position (λ b. b == 0) field.now }
{
    field.iter().position(|byte| *byte == 0)
}
