//! The key slots to be tried, in order.

ghost use Rattle.std.specs.Prelude.{◌≡◌, ◌≤◌};
ghost use Rattle.luks_format.specs.Area.{max_loaded_len};
ghost use Rattle.luks_open.specs.Opening.{key_material_end};

pub use crate::entry::Entry;
use crate::skipped::SkippedSlots;
use std::marker::Model;

/// The key slots to be tried, in order, and those that were skipped.
///
/// A clause sees both lists.
#[derive(Drop, Debug)]
pub struct Order {
    entries: Vec<Entry>,
    skipped: SkippedSlots,
}

impl Model for Order {
    ghost use Rattle.luks_open.specs.Opening.{OrderModel};

    ghost Value = { OrderModel };

    ghost view = { λ order. record { entries = order.entries.items; skipped = order.skipped } };
}

impl Order {
    /// These key slots in their order, and those that were skipped.
    pub(crate) fn new(entries: Vec<Entry>, skipped: SkippedSlots) -> Order
        ensures { result ≡ record { entries = entries.items; skipped = skipped } }
    {
        Order { entries, skipped }
    }

    /// The key slots with their numbers, in the order in which they are tried.
    pub fn entries(&self) -> &[Entry]
        ensures { result.now ≡ self.now.entries }
    {
        self.entries.as_slice()
    }

    /// The key slots that were skipped.
    pub(crate) fn skipped(&self) -> SkippedSlots
        ensures { result ≡ self.now.skipped }
    {
        self.skipped
    }
}

/// The number of the image's first bytes that must be loaded to try these key slots: up to the end
/// of the last key material. At most 33,554,432.
pub fn key_material_end(order: &Order) -> usize
    ensures value { result ≡ key_material_end order.now.entries }
    ensures within { result ≤ max_loaded_len }
{
    let mut end = 0;
    for entry in order.entries() {
        let slot = &entry.slot;
        end = (slot.parts.area_offset + slot.key_material_len()).max(end);
    }
    end as usize
}
