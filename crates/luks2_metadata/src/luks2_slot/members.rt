//! The members of a key slot: whether each is present and of the right type.

ghost use Rattle.std.specs.Prelude.{◌≡◌, codes};
ghost use Rattle.luks2_json.specs.Member.{passes};
ghost use Rattle.luks2_metadata.specs.Slot2.{has_members, is_af, is_area, is_kdf, is_pbkdf2};
ghost use Rattle.luks2_metadata.specs.Slot2.{priority_of};
ghost use Rattle.serde_json.specs.View.{view as data_of};

use luks2_json::member::{base64_len, decimal_member, integer_member, is_type, string_member};
use serde_json::Value;

/// The priority of the slot: 0, 1 or 2, and 1 if it has none.
#[tactic(auto, unfolding(crate::specs::Slot2::priority_of))]
pub(super) fn priority(slot: &Value) -> Option<u8>
    ensures { result ≡ priority_of (data_of slot.now) }
{
    if slot.get("priority").is_none() {
        return Some(1);
    }
    match integer_member(slot, "priority")? {
        0 => Some(0),
        1 => Some(1),
        2 => Some(2),
        _ => None,
    }
}

// The value is an `af` object of type luks1 with all its members.
#[tactic(auto, unfolding(crate::specs::Slot2::is_af))]
fn is_af(af: &Value) -> bool
    ensures { result ≡ is_af (data_of af.now) }
{
    is_type(af, "luks1")
        && integer_member(af, "stripes").is_some()
        && string_member(af, "hash").is_some()
}

// The value is an `area` object of type raw with all its members.
#[tactic(auto, unfolding(crate::specs::Slot2::is_area))]
fn is_area(area: &Value) -> bool
    ensures { result ≡ is_area (data_of area.now) }
{
    is_type(area, "raw")
        && decimal_member(area, "offset").is_some()
        && decimal_member(area, "size").is_some()
        && string_member(area, "encryption").is_some()
        && integer_member(area, "key_size").is_some()
}

// The object has all parameters of PBKDF2.
#[tactic(auto, unfolding(crate::specs::Slot2::is_pbkdf2))]
fn is_pbkdf2(kdf: &Value) -> bool
    ensures { result ≡ is_pbkdf2 (data_of kdf.now) }
{
    string_member(kdf, "hash").is_some()
        && integer_member(kdf, "iterations").is_some()
        && base64_len(kdf, "salt").is_some()
}

// The value is a `kdf` object: its type is a string, and it has all parameters if that type is
// pbkdf2.
#[tactic(auto, unfolding(crate::specs::Slot2::is_kdf))]
fn is_kdf(kdf: &Value) -> bool
    ensures { result ≡ is_kdf (data_of kdf.now) }
{
    string_member(kdf, "type").is_some() && (!is_type(kdf, "pbkdf2") || is_pbkdf2(kdf))
}

// The slot has a complete `af`.
fn has_af(slot: &Value) -> bool
    ensures { result ≡ passes (codes "af") is_af (data_of slot.now) }
{
    match slot.get("af") {
        Some(af) => is_af(af),
        None => false,
    }
}

// The slot has a complete `area`.
fn has_area(slot: &Value) -> bool
    ensures { result ≡ passes (codes "area") is_area (data_of slot.now) }
{
    match slot.get("area") {
        Some(area) => is_area(area),
        None => false,
    }
}

// The slot has a complete `kdf`.
fn has_kdf(slot: &Value) -> bool
    ensures { result ≡ passes (codes "kdf") is_kdf (data_of slot.now) }
{
    match slot.get("kdf") {
        Some(kdf) => is_kdf(kdf),
        None => false,
    }
}

/// Every member of the key slot is present and of the right type.
#[tactic(auto, unfolding(crate::specs::Slot2::has_members))]
pub(super) fn has_members(slot: &Value) -> bool
    ensures { result ≡ has_members (data_of slot.now) }
{
    integer_member(slot, "key_size").is_some()
        && priority(slot).is_some()
        && has_af(slot)
        && has_area(slot)
        && has_kdf(slot)
}
