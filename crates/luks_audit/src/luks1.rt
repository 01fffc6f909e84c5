//! The fields of a LUKS1 header (LUKS1 On-Disk Format Specification 1.2.3).

ghost use Rattle.std.specs.Prelude.{◌≡◌, ◌*◌, IfOk};
ghost use Rattle.luks_audit.specs.Rows1.{cipher1_of, digest1_row, header1_row, cipher_mode1};
ghost use Rattle.luks_audit.specs.Rows1.{payload1_row, slot1_row};
ghost use Rattle.luks_format.specs.Slot1.{is_disabled};

use crate::cipher::mode_of;
use crate::rows::{CipherMode, DigestRow, HeaderRow, Length, PayloadRow, SlotRow};
use crate::text::Text;
use luks_format::rule::key_material_len;
use luks_format::slot::VerdictKind;
use luks_header::header::{Header1, SlotState, StoredSlot};
use std::alloc::{AllocError, Global};

/// The binary header.
#[tactic(auto, unfolding(crate::specs::Rows1::header1_row))]
pub(crate) fn header_row(alloc: Global, header: &Header1) -> Result<HeaderRow, AllocError>
    ensures { IfOk result (λ row. row ≡ header1_row header.now) }
{
    let uuid = header.uuid.as_bytes().to_vec(alloc)?;
    Ok(HeaderRow {
        version: 1,
        uuid: Text::fixed(uuid),
        label: None,
        subsystem: None,
        role: None,
        finding: None,
        seqid: None,
        header_size: None,
        checksum_hash: None,
        salt: None,
    })
}

// The cipher and its mode.
fn cipher(alloc: Global, header: &Header1) -> Result<Text, AllocError>
    ensures { IfOk result (λ text. text ≡ cipher1_of header.now) }
{
    let mut cipher = header.cipher_name.as_bytes().to_vec(alloc)?;
    cipher.push(b'-')?;
    cipher.extend_from_slice(header.cipher_mode.as_bytes())?;
    Ok(Text::fixed(cipher))
}

// How the cipher encrypts sectors.
#[tactic(auto, unfolding(crate::specs::Rows1::cipher_mode1))]
fn mode(header: &Header1) -> CipherMode
    ensures { result ≡ cipher_mode1 header.now }
{
    let name = header.cipher_name.as_bytes();
    mode_of(name, name, header.cipher_mode.as_bytes())
}

// The offset in bytes of a sector of 512 bytes.
fn sector_offset(sector: u32) -> u64
    ensures { result ≡ 512 * sector }
{
    512 * u64::from(sector)
}

/// The payload.
#[tactic(auto, unfolding(crate::specs::Rows1::payload1_row))]
pub(crate) fn payload_row(alloc: Global, header: &Header1) -> Result<PayloadRow, AllocError>
    ensures { IfOk result (λ row. row ≡ payload1_row header.now) }
{
    let cipher = cipher(alloc, header)?;
    Ok(PayloadRow {
        cipher: Some(cipher),
        key_bytes: Some(u64::from(header.key_bytes)),
        sector_size: Some(512),
        iv_tweak: Some(0),
        segment_offset: Some(sector_offset(header.payload_offset)),
        segment_size: Some(Length::Dynamic),
        segment_type: None,
        segment_flags: None,
        integrity: None,
        flags: None,
        requirements: None,
        has_linear: false,
        mode: mode(header),
    })
}

// Whether the slot is not in use.
fn is_disabled(state: SlotState) -> bool
    ensures { result ≡ is_disabled state }
{
    matches!(state, SlotState::Disabled)
}

// The hash function of the header.
fn hash(alloc: Global, header: &Header1) -> Result<Text, AllocError>
    ensures { IfOk result (λ text. text ≡ Text.Fixed header.now.hash_spec) }
{
    Ok(Text::fixed(header.hash_spec.as_bytes().to_vec(alloc)?))
}

/// A key slot, with its verdict.
#[tactic(auto, unfolding(crate::specs::Rows1::slot1_row))]
pub(crate) fn slot_row(
    alloc: Global,
    header: &Header1,
    slot: &StoredSlot,
    number: u8,
    verdict: VerdictKind,
    library_can_try: bool,
) -> Result<SlotRow, AllocError>
    ensures { IfOk result (λ row. row ≡
        slot1_row header.now slot.now number verdict library_can_try) }
{
    Ok(SlotRow {
        number,
        verdict,
        library_can_try,
        priority: Some(1),
        key_bytes: Some(u64::from(header.key_bytes)),
        kdf: Some(Text::copied(alloc, "pbkdf2")?),
        hash: Some(hash(alloc, header)?),
        salt: Some(Text::binary(slot.salt.to_vec(alloc)?)),
        iterations: Some(u64::from(slot.iterations)),
        time: None,
        memory: None,
        threads: None,
        af_hash: Some(hash(alloc, header)?),
        stripes: Some(u64::from(slot.stripes)),
        area_cipher: Some(cipher(alloc, header)?),
        area_key_bytes: Some(u64::from(header.key_bytes)),
        area_offset: Some(sector_offset(slot.offset)),
        area_size: Some(key_material_len(header.key_bytes, slot.stripes)),
        holds_key: !is_disabled(slot.state),
        mode: mode(header),
    })
}

/// The digest.
#[tactic(auto, unfolding(crate::specs::Rows1::digest1_row))]
pub(crate) fn digest_row(alloc: Global, header: &Header1) -> Result<DigestRow, AllocError>
    ensures { IfOk result (λ row. row ≡ digest1_row header.now) }
{
    Ok(DigestRow {
        number: 0,
        kind: Some(Text::copied(alloc, "pbkdf2")?),
        hash: Some(hash(alloc, header)?),
        salt: Some(Text::binary(header.digest_salt.to_vec(alloc)?)),
        iterations: Some(u64::from(header.digest_iterations)),
        digest: Some(Text::binary(header.digest.to_vec(alloc)?)),
        bytes: Some(20),
        keyslots: None,
        segments: None,
    })
}
