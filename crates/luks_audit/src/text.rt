//! Texts and bytes of a header, as it has them.

ghost use Rattle.std.specs.Prelude.{◌≡◌, IfOk, option_map};
ghost use Rattle.luks_audit.specs.Text.{text_bytes, text_value};

use crate::tree::Tree;
use luks_report::escaping::escape;
use std::alloc::{AllocError, Global};
use std::marker::Model;

/// UTF-8. A clause sees the bytes.
#[derive(Drop)]
pub struct Utf8 {
    text: String,
}

impl Model for Utf8 {
    ghost use Rattle.std.specs.Prelude.{List, string_bytes, ℕ};

    ghost Value = { List ℕ };

    ghost view = { λ utf8. string_bytes utf8.text };
}

/// Any bytes. A clause sees them.
#[derive(Drop)]
pub struct Bytes {
    bytes: Vec<u8>,
}

impl Model for Bytes {
    ghost use Rattle.std.specs.Prelude.{List, ℕ};

    ghost Value = { List ℕ };

    ghost view = { λ bytes. bytes.bytes.items };
}

/// A text, or bytes.
#[derive(Drop)]
pub enum Text {
    /// The text in a field of a binary header, which need not be UTF-8.
    Fixed(Bytes),
    /// A text in the JSON area, or a word of ours.
    Unicode(Utf8),
    /// Bytes that are no text.
    Binary(Bytes),
}

impl Text {
    /// The text in a field of a binary header.
    pub fn fixed(bytes: Vec<u8>) -> Text
        ensures { result ≡ Text.Fixed bytes.items }
    {
        Text::Fixed(Bytes { bytes })
    }

    /// Bytes that are no text.
    pub fn binary(bytes: Vec<u8>) -> Text
        ensures { result ≡ Text.Binary bytes.items }
    {
        Text::Binary(Bytes { bytes })
    }

    /// A copy of this text.
    pub fn copied(alloc: Global, text: &str) -> Result<Text, AllocError>
        ensures { IfOk result (λ made. made ≡ Text.Unicode text.now) }
    {
        let text = String::from_str(alloc, text)?;
        Ok(Text::Unicode(Utf8 { text }))
    }

    /// A copy of this text, if there is one.
    pub fn optional(alloc: Global, text: Option<&str>) -> Result<Option<Text>, AllocError>
        ensures { IfOk result (λ made.
            made ≡ option_map Text.Unicode (option_map (λ t. t.now) text.entry)) }
    {
        match text {
            Some(text) => Ok(Some(Text::copied(alloc, text)?)),
            None => Ok(None),
        }
    }

    /// A copy.
    pub fn copy(&self, alloc: Global) -> Result<Text, AllocError>
        ensures { IfOk result (λ made. made ≡ self.now) }
    {
        match self {
            Text::Fixed(bytes) => Ok(Text::fixed(bytes.bytes.clone()?)),
            Text::Unicode(utf8) => Text::copied(alloc, utf8.text.as_str()),
            Text::Binary(bytes) => Ok(Text::binary(bytes.bytes.clone()?)),
        }
    }

    /// The bytes.
    pub fn as_bytes(&self) -> &[u8]
        ensures { result.now ≡ text_bytes self.now }
    {
        match self {
            Text::Fixed(bytes) => bytes.bytes.as_slice(),
            Text::Unicode(utf8) => utf8.text.as_bytes(),
            Text::Binary(bytes) => bytes.bytes.as_slice(),
        }
    }

    /// The text as it is printed: one that need not be UTF-8 is escaped, and bytes are hexadecimal
    /// digits.
    pub fn to_tree(&self, alloc: Global) -> Result<Tree, AllocError>
        ensures { IfOk result (λ tree. tree ≡ text_value self.now) }
    {
        match self {
            Text::Fixed(bytes) => Ok(Tree::text(escape(alloc, bytes.bytes.as_slice())?)),
            Text::Unicode(utf8) => Tree::copied(alloc, utf8.text.as_str()),
            Text::Binary(bytes) => Ok(Tree::text(hex::encode(alloc, bytes.bytes.as_slice())?)),
        }
    }
}
