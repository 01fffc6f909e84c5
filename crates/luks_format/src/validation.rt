//! Verdicts on the key slots, the digest and the segment of a header.

ghost use Rattle.std.specs.Prelude.{◌≡◌, ◌*◌, ◌&&◌, not, nat_lt, option_map, IfOk};
ghost use Rattle.luks_format.specs.Header1.{header1_len};
ghost use Rattle.luks_format.specs.Slot.{digest_from, has_no_usable_digest, verdict_kind_of};
ghost use Rattle.luks_format.specs.Table.{first_match};
ghost use Rattle.luks_format.specs.Segment1.{segment1_of, segment_faults1};
ghost use Rattle.luks_format.specs.Slot1.{area1_out_of_range, digest_parts1_of, hash1_of};
ghost use Rattle.luks_format.specs.Slot1.{mode1_of, payload1_start, slot1_at};
ghost use Rattle.luks_format.specs.Slot1.{slot1_of, slot_reasons1, verdict1_at, verdict1_of};

use crate::bytes::HeaderBytes;
use crate::derivation::Derivation;
use crate::digest::{DigestParts, KeyDigest};
use crate::header::{HEADER1_LEN, Header1, SlotState, StoredSlot};
use crate::refusal::{SegmentFault, SkipReason};
use crate::rule::{
    area_out_of_range, iterations_out_of_range, key_material_len, stripes_out_of_range,
};
use crate::sector_size::SectorSize;
use crate::segment::Segment;
use crate::slot::{Slot, SlotParts, VerdictKind};
use luks_cipher::Mode;
use luks_kdf::Hash;
use std::alloc::{AllocError, Global};

/// The offset of the first byte after the header.
const HEADER_END: u64 = HEADER1_LEN as u64;

impl Header1 {
    /// The hash function of the slots, the stripes and the digest, if its name is known.
    #[tactic(auto, unfolding(crate::specs::Slot1::hash1_of))]
    pub fn hash(&self) -> Option<Hash>
        ensures { result ≡ hash1_of self.now }
    {
        Hash::from_bytes(self.hash_spec.as_bytes())
    }

    /// The mode of AES for the sectors of the payload and of key material, if cipher and mode are
    /// known.
    #[tactic(auto, unfolding(crate::specs::Slot1::mode1_of))]
    pub fn mode(&self) -> Option<Mode>
        ensures { result ≡ mode1_of self.now }
    {
        if self.cipher_name.as_bytes() == b"aes".as_slice() {
            Mode::from_bytes(self.cipher_mode.as_bytes())
        } else {
            None
        }
    }
}

// The offset in bytes of a sector of 512 bytes.
fn sector_offset(sector: u32) -> u64
    ensures { result ≡ 512 * sector }
{
    512 * u64::from(sector)
}

// Where the payload starts, if the header is attached.
#[tactic(auto, unfolding(crate::specs::Slot1::payload1_start))]
fn payload1_start(header: &Header1) -> Option<u64>
    ensures { result ≡ payload1_start header.now }
{
    if header.detached {
        None
    } else {
        Some(sector_offset(header.payload_offset))
    }
}

// Whether the key material of a slot starts inside the header, or ends past the payload's start or
// past byte 33,554,432.
#[tactic(auto, unfolding(crate::specs::Slot1::area1_out_of_range))]
fn area1_out_of_range(header: &Header1, slot: &StoredSlot) -> bool
    ensures { result ≡ area1_out_of_range header.now slot.now }
{
    let material_len = key_material_len(header.key_bytes, slot.stripes);
    let payload = payload1_start(header);
    area_out_of_range(
        HEADER_END,
        payload,
        sector_offset(slot.offset),
        material_len,
        material_len,
    )
}

// Whether there is no usable digest, or its iterations are out of range.
#[tactic(auto, unfolding(crate::specs::Slot1::digest_parts1_of))]
fn no_usable_digest1(header: &Header1, limit: Option<u32>) -> bool
    ensures { result ≡ has_no_usable_digest limit (digest_from (digest_parts1_of header.now)) }
{
    DigestParts::no_usable_digest(limit, header.digest_iterations, header.digest.len())
}

// The first reason to skip a slot that is enabled.
#[tactic(auto, unfolding(crate::specs::Slot1::slot_reasons1))]
fn reason(header: &Header1, limit: Option<u32>, slot: &StoredSlot) -> Option<SkipReason>
    ensures { result ≡ first_match (slot_reasons1 header.now limit slot.now) }
{
    if stripes_out_of_range(u64::from(slot.stripes)) {
        Some(SkipReason::Stripes)
    } else if iterations_out_of_range(limit, u64::from(slot.iterations)) {
        Some(SkipReason::Iterations)
    } else if area1_out_of_range(header, slot) {
        Some(SkipReason::Area)
    } else if no_usable_digest1(header, limit) {
        Some(SkipReason::Digest)
    } else {
        None
    }
}

// The verdict on a slot, without what is needed to open it.
#[tactic(auto, unfolding(crate::specs::Slot1::verdict1_of))]
fn slot_verdict_kind(header: &Header1, limit: Option<u32>, slot: &StoredSlot) -> VerdictKind
    ensures { result ≡ verdict_kind_of (verdict1_of header.now limit slot.now) }
{
    match slot.state {
        SlotState::Enabled => {}
        SlotState::Disabled => return VerdictKind::Disabled,
        SlotState::Damaged(_) => return VerdictKind::Skipped(SkipReason::State),
    }
    match reason(header, limit, slot) {
        Some(reason) => VerdictKind::Skipped(reason),
        None => VerdictKind::Usable(1),
    }
}

/// The verdict on the slot of this number, without what is needed to open it. This allocates
/// nothing.
#[tactic(auto, unfolding(crate::specs::Slot1::verdict1_at))]
pub fn verdict_kind(header: &Header1, limit: Option<u32>, number: u8) -> Option<VerdictKind>
    ensures { result ≡ option_map verdict_kind_of (verdict1_at header.now limit number) }
{
    match header.slots.get(usize::from(number)) {
        Some(slot) => Some(slot_verdict_kind(header, limit, slot)),
        None => None,
    }
}

// What is needed to open a slot, if its numbers are in range and there is a usable digest.
#[tactic(auto, unfolding(crate::specs::Slot1::slot1_of, crate::specs::Slot1::slot_parts1_of))]
fn slot1_of(alloc: Global, header: &Header1, slot: &StoredSlot) -> Result<Option<Slot>, AllocError>
    ensures { IfOk result (λ usable. usable ≡ slot1_of header.now slot.now) }
{
    let parts = SlotParts {
        priority: 1,
        derivation: Derivation::Pbkdf2(header.hash(), u64::from(slot.iterations)),
        salt: HeaderBytes::new(alloc, &slot.salt)?,
        af_hash: header.hash(),
        stripes: slot.stripes,
        key_bytes: header.key_bytes,
        area_key_bytes: header.key_bytes,
        area_offset: sector_offset(slot.offset),
        area_size: key_material_len(header.key_bytes, slot.stripes),
        area_mode: header.mode(),
    };
    Ok(Slot::from_parts(parts, digest(alloc, header)?))
}

/// What is needed to open the slot of this number, if it is there, its numbers are in range and
/// there is a usable digest.
#[tactic(auto, unfolding(crate::specs::Slot1::slot1_at))]
pub fn slot(alloc: Global, header: &Header1, number: u8) -> Result<Option<Slot>, AllocError>
    ensures { IfOk result (λ usable. usable ≡ slot1_at header.now number) }
{
    match header.slots.get(usize::from(number)) {
        Some(slot) => slot1_of(alloc, header, slot),
        None => Ok(None),
    }
}

/// The digest of all slots, if its numbers are in range.
#[tactic(auto, unfolding(crate::specs::Slot1::digest_parts1_of))]
pub fn digest(alloc: Global, header: &Header1) -> Result<Option<KeyDigest>, AllocError>
    ensures { IfOk result (λ digest. digest ≡ digest_from (digest_parts1_of header.now)) }
{
    let parts = DigestParts {
        hash: header.hash(),
        iterations: header.digest_iterations,
        salt: HeaderBytes::new(alloc, &header.digest_salt)?,
        value: HeaderBytes::new(alloc, &header.digest)?,
    };
    Ok(KeyDigest::from_parts(parts))
}

// Whether the payload starts inside an attached header.
fn overlaps_header1(header: &Header1) -> bool
    ensures { result ≡ (not header.now.detached
        && nat_lt (512 * header.now.payload_offset) header1_len) }
{
    !header.detached && sector_offset(header.payload_offset) < HEADER_END
}

// The first fault of the segment.
#[tactic(auto, unfolding(crate::specs::Segment1::segment_faults1))]
fn fault(header: &Header1) -> Option<SegmentFault>
    ensures { result ≡ first_match (segment_faults1 header.now) }
{
    let Some(mode) = header.mode() else {
        return Some(SegmentFault::Encryption);
    };
    if header.hash().is_none() {
        Some(SegmentFault::Hash)
    } else if !mode.has_key_length(header.key_bytes as usize) {
        Some(SegmentFault::KeyBytes)
    } else if overlaps_header1(header) {
        Some(SegmentFault::Offset)
    } else {
        None
    }
}

/// The segment of a header, or its first fault. This allocates nothing.
#[tactic(auto, unfolding(crate::specs::Segment1::segment1_of))]
pub fn segment(header: &Header1) -> Result<Segment, SegmentFault>
    ensures { result ≡ segment1_of header.now }
{
    let segment = Segment::from_parts(
        Some(sector_offset(header.payload_offset)),
        Some(None),
        Some(0),
        Some(SectorSize::B512),
        header.mode(),
    );
    Segment::unless_refused(fault(header), segment)
}
