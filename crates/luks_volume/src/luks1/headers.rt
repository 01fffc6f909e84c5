//! The header of LUKS1 with its key slots (LUKS1 On-Disk Format Specification 1.2.3, section 4.1).

ghost use Rattle.std.specs.Prelude.{◌≡◌, ◌-◌, ◌*◌, ◌<◌, ◌++◌, IfOk, IfSome, OnOk, length};
ghost use Rattle.std.specs.Prelude.{option_copied};
ghost use Rattle.luks_kdf.specs.Bytes.{joined};
ghost use Rattle.luks_volume.specs.Layout1.{digest1_fields, fields1_of, header1_bytes};
ghost use Rattle.luks_volume.specs.Layout1.{key_slot1_of, middle1_of, slot1_numbered, start1_of};
ghost use Rattle.luks_volume.specs.Layout1.{state1_of};
ghost use Rattle.luks_volume.specs.Ranges1.{AreParameters1, FitsSlot1};

use crate::luks1::ranges::area_sectors;
use crate::parameters::{Seal1, Slot1};
use crate::pieces::{derived_key, padded, push_padded};
use std::alloc::{AllocError, Global};

/// The state of a key slot that is in use.
const ENABLED: u32 = 0x00ac_71f3;

/// The state of a key slot that is not in use.
const DISABLED: u32 = 0x0000_dead;

/// The slot of this number, if it is in use.
pub(crate) fn slot1_numbered<'a>(seal: &Seal1<'a>, number: u32) -> Option<&'a Slot1<'a>>
    requires { AreParameters1 seal.now }
    ensures value { option_copied result ≡ slot1_numbered number seal.now.slots.now }
    ensures fits { IfSome result
        (λ slot. FitsSlot1 ((seal.now.stripes - 1) * length seal.now.key.now) slot.now) }
{
    for slot in seal.slots {
        if slot.number == number {
            return Some(slot);
        }
    }
    None
}

/// Appends `magic`, `version`, `cipher-name` and `cipher-mode`.
#[tactic(auto, unfolding(crate::specs::Layout1::start1_of))]
fn push_start(alloc: Global, header: &mut Vec<u8>, seal: &Seal1<'_>) -> Result<(), AllocError>
    ensures { OnOk result (header.new.items ≡ header.old.items ++ start1_of seal.now) }
{
    header.extend_from_slice(b"LUKS\xba\xbe\x00\x01")?;
    push_padded(alloc, header, b"aes", 32)?;
    push_padded(alloc, header, seal.mode.name().as_bytes(), 32)
}

/// Appends `hash-spec`, `payload-offset` and `key-bytes`.
#[tactic(auto, unfolding(crate::specs::Layout1::middle1_of))]
fn push_middle(alloc: Global, header: &mut Vec<u8>, seal: &Seal1<'_>) -> Result<(), AllocError>
    requires { AreParameters1 seal.now }
    ensures { OnOk result (header.new.items ≡ header.old.items ++ middle1_of seal.now) }
{
    push_padded(alloc, header, seal.hash.name().as_bytes(), 32)?;
    header.extend_from_slice(&seal.payload_sectors.to_be_bytes())?;
    header.extend_from_slice(&(seal.key.len() as u32).to_be_bytes())
}

/// Appends `mk-digest`, `mk-digest-salt` and `mk-digest-iter`.
#[tactic(auto, unfolding(crate::specs::Layout1::digest1_fields))]
fn push_digest(alloc: Global, header: &mut Vec<u8>, seal: &Seal1<'_>) -> Result<(), AllocError>
    requires { AreParameters1 seal.now }
    ensures { OnOk result (header.new.items ≡ header.old.items ++ digest1_fields seal.now) }
{
    let digest = derived_key(
        alloc,
        seal.hash,
        seal.key,
        &seal.digest_salt,
        seal.digest_iterations,
        20,
    )?;
    header.extend_from_slice(&digest)?;
    header.extend_from_slice(&seal.digest_salt)?;
    header.extend_from_slice(&seal.digest_iterations.to_be_bytes())
}

/// Appends the header up to the key slots.
#[tactic(auto, unfolding(crate::specs::Layout1::fields1_of))]
fn push_fields(alloc: Global, header: &mut Vec<u8>, seal: &Seal1<'_>) -> Result<(), AllocError>
    requires { AreParameters1 seal.now }
    ensures { OnOk result (header.new.items ≡ header.old.items ++ fields1_of seal.now) }
{
    push_start(alloc, header, seal)?;
    push_middle(alloc, header, seal)?;
    push_digest(alloc, header, seal)?;
    push_padded(alloc, header, seal.uuid, 40)
}

/// Appends the start of a key slot in use: its state, iterations and salt.
#[tactic(auto, unfolding(crate::specs::Layout1::state1_of))]
fn push_enabled(header: &mut Vec<u8>, slot: &Slot1<'_>) -> Result<(), AllocError>
    ensures { OnOk result (header.new.items ≡ header.old.items ++ state1_of (Some slot.now)) }
{
    header.extend_from_slice(&ENABLED.to_be_bytes())?;
    header.extend_from_slice(&slot.iterations.to_be_bytes())?;
    header.extend_from_slice(&slot.salt)
}

/// Appends the start of a key slot that is not in use: its state and zeros.
#[tactic(auto, unfolding(crate::specs::Layout1::state1_of))]
fn push_disabled(alloc: Global, header: &mut Vec<u8>) -> Result<(), AllocError>
    ensures { OnOk result (header.new.items ≡ header.old.items ++ state1_of None) }
{
    header.extend_from_slice(&DISABLED.to_be_bytes())?;
    push_padded(alloc, header, b"", 36)
}

/// Appends `active`, `iterations` and `salt` of the key slot of this number.
fn push_state(
    alloc: Global,
    header: &mut Vec<u8>,
    seal: &Seal1<'_>,
    number: u32,
) -> Result<(), AllocError>
    requires { AreParameters1 seal.now }
    ensures { OnOk result (header.new.items
        ≡ header.old.items ++ state1_of (slot1_numbered number seal.now.slots.now)) }
{
    match slot1_numbered(seal, number) {
        Some(slot) => push_enabled(header, slot),
        None => push_disabled(alloc, header),
    }
}

/// Appends the key slot of this number.
#[tactic(auto, unfolding(crate::specs::Layout1::key_slot1_of))]
fn push_key_slot(
    alloc: Global,
    header: &mut Vec<u8>,
    seal: &Seal1<'_>,
    number: u32,
) -> Result<(), AllocError>
    requires fits { AreParameters1 seal.now }
    requires number { number < 8 }
    ensures { OnOk result (header.new.items ≡ header.old.items ++ key_slot1_of seal.now number) }
{
    let start = 8 + number * area_sectors(seal.key.len(), seal.stripes);
    push_state(alloc, header, seal, number)?;
    header.extend_from_slice(&start.to_be_bytes())?;
    header.extend_from_slice(&seal.stripes.to_be_bytes())
}

/// Appends the eight key slots.
#[tactic(auto, unfolding(luks_kdf::specs::Bytes::joined))]
fn push_key_slots(alloc: Global, header: &mut Vec<u8>, seal: &Seal1<'_>) -> Result<(), AllocError>
    requires { AreParameters1 seal.now }
    ensures { OnOk result (header.new.items
        ≡ header.old.items ++ joined (key_slot1_of seal.now) 8) }
{
    'slots: for number in 0..8 {
        push_key_slot(alloc, header, seal, number)?;
    }
    Ok(())
}

/// The header with its eight key slots, and zeros to sector 8.
#[tactic(auto, unfolding(crate::specs::Layout1::header1_bytes))]
pub(crate) fn header1_bytes(alloc: Global, seal: &Seal1<'_>) -> Result<Vec<u8>, AllocError>
    requires { AreParameters1 seal.now }
    ensures { IfOk result (λ header. header.items ≡ header1_bytes seal.now) }
{
    let mut header = Vec::new(alloc);
    push_fields(alloc, &mut header, seal)?;
    push_key_slots(alloc, &mut header, seal)?;
    padded(alloc, &header, 4096)
}
