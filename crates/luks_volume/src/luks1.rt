//! Volumes of LUKS1 (LUKS1 On-Disk Format Specification 1.2.3).

ghost use Rattle.std.specs.Prelude.{◌≡◌, ◌-◌, ◌*◌, ◌++◌, [], IfOk, OnOk, length};
ghost use Rattle.std.specs.Option.{option_map_or};
ghost use Rattle.luks_kdf.specs.Bytes.{joined};
ghost use Rattle.luks_volume.specs.Ranges.{SealAnswer};
ghost use Rattle.luks_volume.specs.Sealed.{Sealed};
ghost use Rattle.luks_volume.specs.Layout1.{area1_of, area_key1_of, image1_of, material1_of};
ghost use Rattle.luks_volume.specs.Layout1.{payload1_bytes, slot1_numbered};
ghost use Rattle.luks_volume.specs.Ranges1.{AreParameters1, FitsSlot1, passphrases1_of};

use crate::luks1::headers::{header1_bytes, slot1_numbered};
use crate::luks1::ranges::{are_parameters, area_sectors};
use crate::luks1::typed::typed1;
use crate::parameters::{Seal1, SealFault, Slot1};
use crate::pieces::{
    cipher_with, derived_key, encrypted, encrypted_material, padded, push_padded, stripes_of,
};
use luks_format::sector_size::SectorSize;
use std::alloc::{AllocError, Global};

mod headers;
mod ranges;
mod typed;

/// The key that encrypts a slot's area.
#[tactic(auto, unfolding(crate::specs::Layout1::area_key1_of))]
fn area_key_of(alloc: Global, seal: &Seal1<'_>, slot: &Slot1<'_>) -> Result<Vec<u8>, AllocError>
    requires fits { AreParameters1 seal.now }
    requires slot { FitsSlot1 ((seal.now.stripes - 1) * length seal.now.key.now) slot.now }
    ensures { IfOk result (λ key. key.items ≡ area_key1_of seal.now slot.now) }
{
    derived_key(
        alloc,
        seal.hash,
        slot.passphrase,
        &slot.salt,
        slot.iterations,
        seal.key.len(),
    )
}

/// A slot's key material.
#[tactic(auto, unfolding(crate::specs::Layout1::material1_of))]
fn slot_material(alloc: Global, seal: &Seal1<'_>, slot: &Slot1<'_>) -> Result<Vec<u8>, AllocError>
    requires fits { AreParameters1 seal.now }
    requires slot { FitsSlot1 ((seal.now.stripes - 1) * length seal.now.key.now) slot.now }
    ensures { IfOk result (λ material. material.items ≡ material1_of seal.now slot.now) }
{
    let area_key = area_key_of(alloc, seal, slot)?;
    let stripes = stripes_of(alloc, seal.hash, seal.key, seal.stripes, slot.random)?;
    encrypted_material(alloc, seal.mode, &area_key, &stripes)
}

/// The key material of the slot of this number, or no bytes if it is not in use.
fn material_at(alloc: Global, seal: &Seal1<'_>, number: u32) -> Result<Vec<u8>, AllocError>
    requires { AreParameters1 seal.now }
    ensures { IfOk result (λ material. material.items
        ≡ option_map_or (material1_of seal.now) (slot1_numbered number seal.now.slots.now) []) }
{
    match slot1_numbered(seal, number) {
        Some(slot) => slot_material(alloc, seal, slot),
        None => Ok(Vec::new(alloc)),
    }
}

/// Appends the area of the slot of this number.
#[tactic(auto, unfolding(crate::specs::Layout1::area1_of))]
fn push_area(
    alloc: Global,
    image: &mut Vec<u8>,
    seal: &Seal1<'_>,
    number: u32,
) -> Result<(), AllocError>
    requires { AreParameters1 seal.now }
    ensures { OnOk result (image.new.items ≡ image.old.items ++ area1_of seal.now number) }
{
    let material = material_at(alloc, seal, number)?;
    let sectors = area_sectors(seal.key.len(), seal.stripes);
    push_padded(alloc, image, &material, sectors as usize * 512)
}

/// Appends the areas of all eight slots.
#[tactic(auto, unfolding(luks_kdf::specs::Bytes::joined))]
fn push_areas(alloc: Global, image: &mut Vec<u8>, seal: &Seal1<'_>) -> Result<(), AllocError>
    requires { AreParameters1 seal.now }
    ensures { OnOk result (image.new.items ≡ image.old.items ++ joined (area1_of seal.now) 8) }
{
    'slots: for number in 0..8 {
        push_area(alloc, image, seal, number)?;
    }
    Ok(())
}

/// The payload.
#[tactic(auto, unfolding(crate::specs::Layout1::payload1_bytes))]
fn payload_of(alloc: Global, seal: &Seal1<'_>) -> Result<Vec<u8>, AllocError>
    requires { AreParameters1 seal.now }
    ensures { IfOk result (λ payload. payload.items ≡ payload1_bytes seal.now) }
{
    let cipher = cipher_with(seal.mode, seal.key);
    encrypted(alloc, &cipher, 0, 1, SectorSize::B512, seal.plain)
}

/// The image of a volume whose parameters are in their ranges.
#[tactic(auto, unfolding(crate::specs::Layout1::image1_of))]
fn image_of(alloc: Global, seal: &Seal1<'_>) -> Result<Vec<u8>, AllocError>
    requires { AreParameters1 seal.now }
    ensures { IfOk result (λ image. image.items ≡ image1_of seal.now) }
{
    let mut prefix = header1_bytes(alloc, seal)?;
    push_areas(alloc, &mut prefix, seal)?;
    let mut image = padded(alloc, &prefix, seal.payload_sectors as usize * 512)?;
    let payload = payload_of(alloc, seal)?;
    image.extend_from_slice(&payload)?;
    Ok(image)
}

/// Makes the image of a volume with the cipher `aes`.
///
/// The area of slot i starts at sector `8 + i * a`, where `a` is the length of an area in sectors
/// of 512 bytes, rounded up to a multiple of 8. The payload ends the image. All other bytes are
/// zero.
///
/// # Errors
///
/// [`Parameters`](SealFault::Parameters) if a parameter is out of range, before any memory is
/// allocated; otherwise [`Memory`](SealFault::Memory) if memory runs out.
pub fn seal1(alloc: Global, seal: &Seal1<'_>) -> Result<Vec<u8>, SealFault>
    ensures answer { SealAnswer (AreParameters1 seal.now) result }
    ensures image { IfOk result (λ image. image.items ≡ image1_of seal.now) }
    ensures sealed { IfOk result (λ image.
        Sealed image.items (passphrases1_of seal.now) seal.now.key.now seal.now.plain.now) }
{
    if !are_parameters(seal) {
        return Err(SealFault::Parameters);
    }
    typed1(seal);
    Ok(image_of(alloc, seal)?)
}
