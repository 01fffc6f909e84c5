//! Whether members of the JSON area are there, and of the standard's JSON types.

ghost use Rattle.std.specs.Prelude.{◌≡◌, codes, option_map};
ghost use Rattle.luks2_json.specs.Member.{in_member, passes};
ghost use Rattle.luks_audit.specs.Shape.{has_integrity, has_segment, has_slot_type, has_string};
ghost use Rattle.luks_audit.specs.Shape.{is_integrity, names_requirements};
ghost use Rattle.serde_json.specs.Find.{get};
ghost use Rattle.serde_json.specs.View.{view as data_of};

use luks2_json::list::has_strings;
use luks2_json::member::string_member;
use luks2_json::numbered::object_numbered;
use luks2_metadata::luks2_segment::is_segment;
use serde_json::Value;

// Whether a string is under this name.
fn has_string(owner: &Value, name: &str) -> bool
    ensures { result ≡ has_string name.now (data_of owner.now) }
{
    string_member(owner, name).is_some()
}

/// The requirements of the configuration.
pub(crate) fn requirements(tree: &Value) -> Option<&Value>
    ensures { option_map (λ value. data_of value.now) result
        ≡ in_member (codes "config") (get (codes "requirements")) (data_of tree.now) }
{
    tree.get("config")?.get("requirements")
}

/// Whether the configuration has requirements, and an array of strings names them.
#[tactic(auto, unfolding(crate::specs::Shape::names_requirements))]
pub(crate) fn names_requirements(tree: &Value) -> bool
    ensures { result ≡ names_requirements (data_of tree.now) }
{
    match requirements(tree) {
        Some(requirements) => has_strings(requirements, "mandatory"),
        None => false,
    }
}

/// Whether segment 0 is there, names its type, and has the members of `crypt` if that is its type.
#[tactic(auto, unfolding(crate::specs::Shape::has_segment))]
pub(crate) fn has_segment(tree: &Value) -> bool
    ensures { result ≡ has_segment (data_of tree.now) }
{
    match object_numbered(tree, "segments", 0) {
        Some(segment) => is_segment(segment),
        None => false,
    }
}

// Whether an integrity object has all its members.
#[tactic(auto, unfolding(crate::specs::Shape::is_integrity))]
fn is_integrity(integrity: &Value) -> bool
    ensures { result ≡ is_integrity (data_of integrity.now) }
{
    has_string(integrity, "type")
        && has_string(integrity, "journal_encryption")
        && has_string(integrity, "journal_integrity")
}

// Whether a segment has such an object.
fn holds_integrity(segment: &Value) -> bool
    ensures { result ≡ passes (codes "integrity") is_integrity (data_of segment.now) }
{
    match segment.get("integrity") {
        Some(integrity) => is_integrity(integrity),
        None => false,
    }
}

/// Whether segment 0 has such an object.
#[tactic(auto, unfolding(crate::specs::Shape::has_integrity))]
pub(crate) fn has_integrity(tree: &Value) -> bool
    ensures { result ≡ has_integrity (data_of tree.now) }
{
    match object_numbered(tree, "segments", 0) {
        Some(segment) => holds_integrity(segment),
        None => false,
    }
}

/// Whether the key slot of this number names its type.
#[tactic(auto, unfolding(crate::specs::Shape::has_slot_type))]
pub(crate) fn has_slot_type(tree: &Value, number: u8) -> bool
    ensures { result ≡ has_slot_type (data_of tree.now) number }
{
    match object_numbered(tree, "keyslots", number) {
        Some(slot) => has_string(slot, "type"),
        None => false,
    }
}
