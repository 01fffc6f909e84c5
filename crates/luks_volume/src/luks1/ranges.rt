//! Whether the parameters of a volume of LUKS1 are in their ranges.

ghost use Rattle.std.specs.Prelude.{◌≡◌, ◌*◌, ◌-◌, ◌≤◌, ◌↔◌, All, length, IsTrue};
ghost use Rattle.luks_volume.specs.Ranges1.{AreParameters1, FitsCounts1, FitsSlot1, area_sectors};

use crate::parameters::{Seal1, Slot1};
use crate::ranges::{fits_plain, fits_text};
use crate::slots::are_distinct;
use luks_format::sector_size::SectorSize;

/// The sectors of 512 bytes that a slot's stripes need, rounded up to a multiple of 8.
pub(crate) fn area_sectors(key: usize, stripes: u32) -> u32
    requires key { key ≤ 64 }
    requires stripes { stripes ≤ 4000 }
    ensures value { result ≡ area_sectors key stripes }
    ensures most { result ≤ 504 }
{
    (key as u32 * stripes + 4095) / 4096 * 8
}

/// The counts are in their ranges, and the payload begins after the areas of eight slots.
fn fits_counts(seal: &Seal1<'_>) -> bool
    requires { length seal.now.key.now ≤ 64 }
    ensures { IsTrue result ↔ FitsCounts1 seal.now }
{
    if seal.stripes < 1 || seal.stripes > 4000 {
        return false;
    }
    let start = 8 + 8 * area_sectors(seal.key.len(), seal.stripes);
    seal.digest_iterations >= 1 && start <= seal.payload_sectors && seal.payload_sectors <= 65536
}

/// The slot fits a volume whose slots have this many random bytes each.
fn fits_slot(random: usize, slot: &Slot1<'_>) -> bool
    ensures { IsTrue result ↔ FitsSlot1 random slot.now }
{
    slot.number <= 7 && slot.iterations >= 1 && slot.random.len() == random
}

/// Each of these slots fits.
fn fit_slots(random: usize, slots: &[Slot1<'_>]) -> bool
    ensures { IsTrue result ↔ All (FitsSlot1 random) slots.now }
{
    slots.iter().all(|slot| fits_slot(random, slot))
}

/// All parameters are in their ranges.
#[tactic(auto, using(luks_cipher::proofs::ModeLemmas::max_mode_key))]
pub(crate) fn are_parameters(seal: &Seal1<'_>) -> bool
    ensures { IsTrue result ↔ AreParameters1 seal.now }
{
    if !seal.mode.has_key_length(seal.key.len()) || !fits_counts(seal) {
        return false;
    }
    let random = (seal.stripes - 1) as usize * seal.key.len();
    fits_text(40, seal.uuid)
        && fits_plain(SectorSize::B512, seal.plain.len())
        && fit_slots(random, seal.slots)
        && are_distinct(seal.slots)
}
