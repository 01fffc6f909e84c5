//! The values of a key slot's members.

ghost use Rattle.std.specs.Prelude.{◌≡◌, codes, option_and_then};
ghost use Rattle.luks2_json.specs.Member.{encryption_mode, in_member, string_member};
ghost use Rattle.luks2_metadata.specs.Slot2.{slot_parts2_of, values_of};
ghost use Rattle.serde_json.specs.View.{view as data_of};

use crate::luks2_slot::derivation::derivation;
use crate::luks2_slot::members::priority;
use luks_cipher::Mode;
use luks_format::derivation::Derivation;
use luks_kdf::Hash;
use luks2_json::derivation::nested_hash;
use luks2_json::encryption::encryption_mode;
use luks2_json::member::{integer_member, nested_decimal, nested_integer, nested_string};
use serde_json::Value;

/// The values of a key slot's members but its salt. Each is 0 or `None` if the member is missing or
/// of another type, or names a hash function or mode that is not known.
#[derive(Clone, Copy, Debug)]
pub struct SlotValues {
    /// The priority of the slot: 1 if it has none.
    pub priority: u8,
    /// How the key of the key material is derived from a passphrase.
    pub derivation: Derivation,
    /// The hash function of the stripes, if it is known.
    pub af_hash: Option<Hash>,
    /// The number of stripes in the key material.
    pub stripes: u64,
    /// The length of the volume key in bytes.
    pub key_bytes: u64,
    /// The length in bytes of the key that encrypts the key material.
    pub area_key_bytes: u64,
    /// The first byte of the key material.
    pub area_offset: u64,
    /// The number of bytes that are reserved for the key material.
    pub area_size: u64,
    /// The mode in which the key material is encrypted, if it is known.
    pub area_mode: Option<Mode>,
}

// The mode in which the key material is encrypted.
fn area_mode(slot: &Value) -> Option<Mode>
    ensures { result ≡ option_and_then encryption_mode
        (in_member (codes "area") (string_member (codes "encryption")) (data_of slot.now)) }
{
    encryption_mode(nested_string(slot, "area", "encryption")?)
}

/// The values of the slot's members.
#[tactic(auto, unfolding(crate::specs::Slot2::slot_parts2_of, crate::specs::Slot2::values_of))]
pub fn slot_values(slot: &Value) -> SlotValues
    ensures { result ≡ values_of (slot_parts2_of (data_of slot.now)) }
{
    SlotValues {
        priority: priority(slot).unwrap_or(0),
        derivation: derivation(slot),
        af_hash: nested_hash(slot, "af"),
        stripes: nested_integer(slot, "af", "stripes").unwrap_or(0),
        key_bytes: integer_member(slot, "key_size").unwrap_or(0),
        area_key_bytes: nested_integer(slot, "area", "key_size").unwrap_or(0),
        area_offset: nested_decimal(slot, "area", "offset").unwrap_or(0),
        area_size: nested_decimal(slot, "area", "size").unwrap_or(0),
        area_mode: area_mode(slot),
    }
}
