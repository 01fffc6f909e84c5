//! A key slot to be tried.

use luks_header::header_slots::Slot;

/// A key slot to be tried, with its number.
#[derive(Drop, Debug)]
pub struct Entry {
    /// The number of the key slot.
    pub number: u8,
    /// What is needed to open it.
    pub slot: Slot,
}
