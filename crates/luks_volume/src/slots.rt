//! Key slots of both formats by their numbers.

ghost use Rattle.std.specs.Prelude.{◌≡◌, ◌≢◌, ◌↔◌, ℕ, All, IsTrue};
ghost use Rattle.luks_volume.specs.Ranges.{AreDistinct};

use crate::parameters::{Slot1, Slot2};

/// A key slot with a number.
pub trait Numbered {
    /// Its number.
    ghost number_of: { Self → ℕ };

    /// Its number.
    fn number(&self) -> u32
        ensures { result ≡ number_of self.now };
}

impl Numbered for Slot1<'_> {
    ghost number_of = { λ slot. slot.number };

    fn number(&self) -> u32 {
        self.number
    }
}

impl Numbered for Slot2<'_> {
    ghost number_of = { λ slot. slot.number };

    fn number(&self) -> u32 {
        self.number
    }
}

/// No slot has this number.
fn is_free<S: Numbered>(number: u32, slots: &[S]) -> bool
    ensures { IsTrue result ↔ All (λ slot. S.number_of slot ≢ number) slots.now }
{
    slots.iter().all(|slot| slot.number() != number)
}

/// No two slots have the same number.
pub fn are_distinct<S: Numbered>(slots: &[S]) -> bool
    ensures { IsTrue result ↔ AreDistinct S.number_of slots.now }
{
    match slots {
        [] => true,
        [slot, rest @ ..] => is_free(slot.number(), rest) && are_distinct(rest),
    }
}
