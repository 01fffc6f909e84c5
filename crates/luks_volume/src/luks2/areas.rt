//! The key slots of a volume of LUKS2 by their numbers, and their areas.

ghost use Rattle.std.specs.Prelude.{◌≡◌, ◌*◌, ◌≤◌, ◌++◌, All, IfOk, OnOk, IfSome, length};
ghost use Rattle.std.specs.Prelude.{option_copied};
ghost use Rattle.luks_kdf.specs.Bytes.{joined};
ghost use Rattle.luks_volume.specs.Layout2.{area_at, area_key_of, area_of};
ghost use Rattle.luks_volume.specs.Ranges2.{AreParameters2, FitsSlot2, area_size, area_size_at};
ghost use Rattle.luks_volume.specs.Ranges2.{area_start, slot_numbered};

use crate::parameters::{Seal2, Slot2};
use crate::pieces::{derived_key, encrypted_material, push_padded, stripes_of};
use std::alloc::{AllocError, Global};

/// The slot of this number, if there is one.
pub(crate) fn slot_numbered<'a>(seal: &Seal2<'a>, number: u32) -> Option<&'a Slot2<'a>>
    requires { All (FitsSlot2 (length seal.now.key.now)) seal.now.slots.now }
    ensures value { option_copied result ≡ slot_numbered number seal.now.slots.now }
    ensures fits { IfSome result (λ slot. FitsSlot2 (length seal.now.key.now) slot.now) }
{
    for slot in seal.slots {
        if slot.number == number {
            return Some(slot);
        }
    }
    None
}

/// The length of a slot's area in bytes: all stripes of the key, rounded up to a multiple of 4096.
pub(crate) fn area_size(key: usize, stripes: u32) -> u64
    requires key { key ≤ 64 }
    requires stripes { stripes ≤ 4000 }
    ensures value { result ≡ area_size key stripes }
    ensures most { result ≤ 258048 }
{
    (key as u64 * stripes as u64 + 4095) / 4096 * 4096
}

/// The length of the area of the slot of this number, or 0 if there is no such slot.
fn area_size_at(seal: &Seal2<'_>, number: u32) -> u64
    requires key { length seal.now.key.now ≤ 64 }
    requires slots { All (FitsSlot2 (length seal.now.key.now)) seal.now.slots.now }
    ensures value { result ≡ area_size_at seal.now number }
    ensures most { result ≤ 258048 }
{
    match slot_numbered(seal, number) {
        Some(slot) => area_size(seal.key.len(), slot.stripes),
        None => 0,
    }
}

/// Where the area of the slot of this number starts, in bytes: after both headers and the areas of
/// all slots with lower numbers.
#[tactic(auto, unfolding(crate::specs::Ranges2::area_start))]
pub(crate) fn area_start(seal: &Seal2<'_>, number: u32) -> u64
    requires size { seal.now.hdr_size ≤ 4194304 }
    requires key { length seal.now.key.now ≤ 64 }
    requires slots { All (FitsSlot2 (length seal.now.key.now)) seal.now.slots.now }
    requires number { number ≤ 32 }
    ensures { result ≡ area_start seal.now number }
{
    let mut start = 2 * seal.hdr_size;
    'slots: for lower in 0..number {
        start += area_size_at(seal, lower);
    }
    start
}

/// The key that encrypts a slot's area.
#[tactic(auto, using(crate::proofs::Bounds::bounds), unfolding(crate::specs::Layout2::area_key_of))]
fn area_key_of(alloc: Global, seal: &Seal2<'_>, slot: &Slot2<'_>) -> Result<Vec<u8>, AllocError>
    requires fits { AreParameters2 seal.now }
    requires slot { FitsSlot2 (length seal.now.key.now) slot.now }
    ensures { IfOk result (λ key. key.items ≡ area_key_of seal.now slot.now) }
{
    derived_key(
        alloc,
        slot.hash,
        slot.passphrase,
        &slot.salt,
        slot.iterations,
        seal.area_key_size,
    )
}

/// Appends a slot's area.
#[tactic(auto, using(crate::proofs::Bounds::bounds), unfolding(crate::specs::Layout2::area_of))]
fn push_area(
    alloc: Global,
    image: &mut Vec<u8>,
    seal: &Seal2<'_>,
    slot: &Slot2<'_>,
) -> Result<(), AllocError>
    requires fits { AreParameters2 seal.now }
    requires slot { FitsSlot2 (length seal.now.key.now) slot.now }
    ensures { OnOk result (image.new.items ≡ image.old.items ++ area_of seal.now slot.now) }
{
    let area_key = area_key_of(alloc, seal, slot)?;
    let stripes = stripes_of(alloc, slot.af_hash, seal.key, slot.stripes, slot.random)?;
    let material = encrypted_material(alloc, seal.area_mode, &area_key, &stripes)?;
    let size = area_size(seal.key.len(), slot.stripes);
    push_padded(alloc, image, &material, size as usize)
}

/// Appends the area of the slot of this number, if there is one.
#[tactic(auto, unfolding(crate::specs::Layout2::area_at))]
fn push_area_at(
    alloc: Global,
    image: &mut Vec<u8>,
    seal: &Seal2<'_>,
    number: u32,
) -> Result<(), AllocError>
    requires { AreParameters2 seal.now }
    ensures { OnOk result (image.new.items ≡ image.old.items ++ area_at seal.now number) }
{
    match slot_numbered(seal, number) {
        Some(slot) => push_area(alloc, image, seal, slot),
        None => Ok(()),
    }
}

/// Appends the areas of all slots, by ascending number.
#[tactic(auto, unfolding(luks_kdf::specs::Bytes::joined))]
pub(crate) fn push_areas(
    alloc: Global,
    image: &mut Vec<u8>,
    seal: &Seal2<'_>,
) -> Result<(), AllocError>
    requires { AreParameters2 seal.now }
    ensures { OnOk result (image.new.items ≡ image.old.items ++ joined (area_at seal.now) 32) }
{
    'slots: for number in 0..32 {
        push_area_at(alloc, image, seal, number)?;
    }
    Ok(())
}
