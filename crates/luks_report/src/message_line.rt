//! A line of text that allocates nothing.

ghost use Rattle.std.specs.Prelude.{◌≡◌, ◌+◌, ◌≤◌, ◌++◌, [], length, decimal};

use itoa::Buffer;
use std::marker::Model;

/// The capacity of a line in bytes: more than any message needs.
const CAPACITY: usize = 2048;

/// A line that is built piece by piece. Its view is its bytes.
#[derive(Drop)]
pub struct Line {
    bytes: [u8; CAPACITY],
    used: usize,
}

impl Model for Line {
    ghost use Rattle.std.specs.Prelude.{List, ℕ, ◌≤◌, take};

    ghost Value = { List ℕ };

    ghost view = { λ line. take line.used line.bytes };

    ghost invariant = { λ line. line.used ≤ 2048 };
}

impl Line {
    /// An empty line.
    pub(crate) fn new() -> Line
        ensures { result ≡ [] }
    {
        Line {
            bytes: [0; CAPACITY],
            used: 0,
        }
    }

    /// Appends a text.
    pub(crate) fn push(&mut self, text: &str)
        requires { length self.old + length text.now ≤ 2048 }
        ensures { self.new ≡ self.old ++ text.now }
    {
        let end = self.used + text.len();
        self.bytes[self.used..end].copy_from_slice(text.as_bytes());
        self.used = end;
    }

    /// Appends a number in decimal digits.
    pub(crate) fn push_number(&mut self, number: u64)
        requires { length self.old + 20 ≤ 2048 }
        ensures value { self.new ≡ self.old ++ decimal number }
        ensures short { length self.new ≤ length self.old + 20 }
    {
        let mut digits = Buffer::new();
        self.push(digits.format(number));
    }

    /// Appends a number of at most three digits.
    pub(crate) fn push_small(&mut self, number: u8)
        requires { length self.old + 20 ≤ 2048 }
        ensures value { self.new ≡ self.old ++ decimal number }
        ensures short { length self.new ≤ length self.old + 3 }
    {
        self.push_number(u64::from(number));
    }

    /// The bytes of the line.
    pub fn as_slice(&self) -> &[u8]
        ensures { result.now ≡ self.now }
    {
        &self.bytes[..self.used]
    }
}
