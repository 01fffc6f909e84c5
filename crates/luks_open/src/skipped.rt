//! Key slots that were skipped.

ghost use Rattle.std.specs.Prelude.{◌≡◌, ◌+◌, ◌<◌, ◌≤◌, List, [], ◌∷◌, ◌++◌, ℕ, length};

use luks_header::refusal::SkipReason;
use std::marker::Model;

/// The maximum number of skipped key slots: a header has no more.
const MAX_SKIPPED: usize = 32;

/// The value of the unused elements.
const NOTHING: (u8, SkipReason) = (0, SkipReason::State);

/// Key slots that were skipped, by ascending number, and why: at most 32. A clause sees them as a
/// list.
#[derive(Clone, Copy, PartialEq, Eq, Debug)]
pub struct SkippedSlots {
    elements: [(u8, SkipReason); MAX_SKIPPED],
    used: usize,
}

impl Model for SkippedSlots {
    ghost use Rattle.std.specs.Prelude.{List, ℕ, take, length};
    ghost use Rattle.luks_format.specs.declared.refusal.SkipReason.{SkipReason};
    ghost use Rattle.luks_open.specs.Skipped.{IsPadded, padded_to_32, padded_again};

    ghost Value = { List (ℕ × SkipReason) };

    ghost view = { λ s. take s.used s.elements };

    ghost invariant = { λ s. IsPadded s.elements s.used };

    ghost inverse = { λ slots. record { elements = padded_to_32 slots; used = length slots } };

    ghost inverse_ok = { λ s is_padded.
        padded_again (λ elements used. record { elements = elements; used = used })
        s.elements s.used is_padded };
}

impl SkippedSlots {
    /// No key slots.
    pub fn new() -> SkippedSlots
        ensures { result ≡ [] }
    {
        SkippedSlots {
            elements: [NOTHING; MAX_SKIPPED],
            used: 0,
        }
    }

    /// Appends a key slot.
    pub(crate) fn push(&mut self, number: u8, reason: SkipReason)
        requires { length self.old < 32 }
        ensures { self.new ≡ self.old ++ (number, reason) ∷ [] }
    {
        self.elements[self.used] = (number, reason);
        self.used += 1;
    }

    /// The numbers of the key slots, each with the reason, by ascending number; at most 32.
    pub fn as_slice(&self) -> &[(u8, SkipReason)]
        ensures value { result.now ≡ self.now }
        ensures few { length self.now ≤ 32 }
    {
        &self.elements[..self.used]
    }
}
