//! Whether the parameters of a volume of LUKS2 are in their ranges.

ghost use Rattle.std.specs.Prelude.{◌≡◌, ◌≤◌, ◌↔◌, All, length, IsTrue};
ghost use Rattle.luks_volume.specs.Ranges2.{AreParameters2, FitKeys, FitTexts, FitsOffset};
ghost use Rattle.luks_volume.specs.Ranges2.{FitsSlot2, is_header_size};

use crate::luks2::areas::area_start;
use crate::parameters::{Seal2, Slot2};
use crate::ranges::{fits_plain, fits_text};
use crate::slots::are_distinct;

/// The lengths that a header and its JSON area can have together, in bytes.
static SIZES: [u64; 9] = [
    16_384, 32_768, 65_536, 131_072, 262_144, 524_288, 1_048_576, 2_097_152, 4_194_304,
];

/// The size is one of the nine lengths that a header and its JSON area can have together.
#[tactic(auto, unfolding(crate::specs::Ranges2::is_header_size, luks_format::specs::Header2::sizes))]
fn is_header_size(size: u64) -> bool
    ensures { result ≡ is_header_size size }
{
    SIZES.contains(&size)
}

/// The keys have lengths that their modes allow.
fn fit_keys(seal: &Seal2<'_>) -> bool
    ensures { IsTrue result ↔ FitKeys seal.now }
{
    seal.mode.has_key_length(seal.key.len()) && seal.area_mode.has_key_length(seal.area_key_size)
}

/// The texts fit their fields.
fn fit_texts(seal: &Seal2<'_>) -> bool
    ensures { IsTrue result ↔ FitTexts seal.now }
{
    fits_text(40, seal.uuid) && fits_text(48, seal.label) && fits_text(48, seal.subsystem)
}

/// The slot fits a volume whose key has this many bytes.
fn fits_slot(key: usize, slot: &Slot2<'_>) -> bool
    requires { key ≤ 64 }
    ensures { IsTrue result ↔ FitsSlot2 key slot.now }
{
    if slot.stripes < 1 || slot.stripes > 4000 {
        return false;
    }
    slot.number <= 31
        && slot.priority <= 2
        && slot.iterations >= 1
        && slot.random.len() == (slot.stripes - 1) as usize * key
}

/// Each of these slots fits.
fn fit_slots(key: usize, slots: &[Slot2<'_>]) -> bool
    requires { key ≤ 64 }
    ensures { IsTrue result ↔ All (FitsSlot2 key) slots.now }
{
    slots.iter().all(|slot| fits_slot(key, slot))
}

/// The payload begins after all areas, at a multiple of 4096 bytes, and at byte 33,554,432 at most.
fn fits_offset(seal: &Seal2<'_>) -> bool
    requires size { seal.now.hdr_size ≤ 4194304 }
    requires key { length seal.now.key.now ≤ 64 }
    requires slots { All (FitsSlot2 (length seal.now.key.now)) seal.now.slots.now }
    ensures { IsTrue result ↔ FitsOffset seal.now }
{
    seal.offset % 4096 == 0 && seal.offset <= 33_554_432 && area_start(seal, 32) <= seal.offset
}

/// All parameters are in their ranges, as far as they can be checked without the JSON text.
#[tactic(auto, using(crate::proofs::Bounds::limits))]
pub(crate) fn are_parameters2(seal: &Seal2<'_>) -> bool
    ensures { IsTrue result ↔ AreParameters2 seal.now }
{
    if !is_header_size(seal.hdr_size) || !fit_keys(seal) {
        return false;
    }
    if !fit_slots(seal.key.len(), seal.slots) || !are_distinct(seal.slots) {
        return false;
    }
    fit_texts(seal)
        && seal.digest_iterations >= 1
        && fits_plain(seal.sector_size, seal.plain.len())
        && fits_offset(seal)
}
