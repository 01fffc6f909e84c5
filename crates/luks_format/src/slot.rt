//! Key slots and the verdicts on them.

ghost use Rattle.std.specs.Prelude.{◌≡◌, ◌+◌, true};
ghost use Rattle.luks_format.specs.Rule.{key_material_len};
ghost use Rattle.luks_format.specs.Derivation.{is_in_range};

use crate::bytes::HeaderBytes;
use crate::derivation::Derivation;
use crate::digest::KeyDigest;
use crate::refusal::SkipReason;
use crate::rule::{MAX_LOADED_LEN, key_material_len, stripes_out_of_range};
use luks_cipher::Mode;
use luks_kdf::Hash;

/// The parts of a key slot that are read, before they are checked.
#[derive(Drop, Debug)]
pub struct SlotParts {
    /// Its priority: 2 is tried before 1, and 0 only if the slot is named.
    pub priority: u8,
    /// How the key of the key material is derived from a passphrase.
    pub derivation: Derivation,
    /// The salt of this derivation.
    pub salt: HeaderBytes,
    /// The hash function of the stripes. `None` only for LUKS1, if its name is not known.
    pub af_hash: Option<Hash>,
    /// The number of stripes in the key material.
    pub stripes: u32,
    /// The length of the volume key in bytes.
    pub key_bytes: u32,
    /// The length in bytes of the key that encrypts the key material.
    pub area_key_bytes: u32,
    /// The first byte of the key material.
    pub area_offset: u64,
    /// The number of bytes that are reserved for the key material.
    pub area_size: u64,
    /// The mode in which the key material is encrypted. `None` only for LUKS1, if its name is not
    /// known.
    pub area_mode: Option<Mode>,
}

/// What is needed to open a key slot. Its numbers are in range: those of its derivation, 1 to 4000
/// stripes, and key material that ends within 33,554,432 bytes.
#[derive(Drop, Debug)]
pub struct Slot {
    /// Its parts, as they were read.
    pub parts: SlotParts,
    /// The digest that its volume key must match.
    pub digest: KeyDigest,
    ghost in_range: { is_in_range parts.derivation parts.stripes
        (parts.area_offset + key_material_len parts.key_bytes parts.stripes) ≡ true },
}

// Whether the numbers of a slot are in range: those of its derivation, its stripes, and where the
// `material_len` bytes of its key material end.
#[tactic(auto, unfolding(crate::specs::Derivation::is_in_range))]
fn in_range(derivation: Derivation, stripes: u32, offset: u64, material_len: u64) -> bool
    ensures { result ≡ is_in_range derivation stripes (offset + material_len) }
{
    let Some(end) = offset.checked_add(material_len) else {
        return false;
    };
    derivation.in_range() && !stripes_out_of_range(u64::from(stripes)) && end <= MAX_LOADED_LEN
}

impl Slot {
    ghost use Rattle.std.specs.Prelude.{◌≡◌};
    ghost use Rattle.luks_format.specs.Rule.{key_material_len};
    ghost use Rattle.luks_format.specs.Slot.{slot_from};

    /// The key slot with these parts and this digest, if their numbers are in range and there is a
    /// digest.
    #[tactic(auto, unfolding(crate::specs::Slot::slot_from))]
    pub fn from_parts(parts: SlotParts, digest: Option<KeyDigest>) -> Option<Slot>
        ensures { result ≡ slot_from parts digest }
    {
        let material_len = key_material_len(parts.key_bytes, parts.stripes);
        if !in_range(
            parts.derivation,
            parts.stripes,
            parts.area_offset,
            material_len,
        ) {
            return None;
        }
        let digest = digest?;
        Some(Slot { parts, digest })
    }

    /// The number of bytes of the key material: one key for each stripe, rounded up to whole
    /// sectors of 512 bytes.
    pub fn key_material_len(&self) -> u64
        ensures { result ≡ key_material_len self.now.parts.key_bytes self.now.parts.stripes }
    {
        key_material_len(self.parts.key_bytes, self.parts.stripes)
    }
}

/// The verdict on a key slot.
#[derive(Drop, Debug)]
pub enum Verdict {
    /// It can be tried.
    Usable(Slot),
    /// It is not in use.
    Disabled,
    /// It cannot be tried.
    Skipped(SkipReason),
}

/// The verdict on a key slot, without what is needed to open it.
#[derive(Clone, Copy, PartialEq, Eq, Debug)]
pub enum VerdictKind {
    /// It can be tried, and has this priority.
    Usable(u8),
    /// It is not in use.
    Disabled,
    /// It cannot be tried.
    Skipped(SkipReason),
}
