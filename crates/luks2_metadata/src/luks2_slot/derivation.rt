//! How the key of a slot's key material is derived: the object `kdf`.

ghost use Rattle.std.specs.Prelude.{◌≡◌, codes};
ghost use Rattle.luks2_json.specs.Member.{passes};
ghost use Rattle.luks2_metadata.specs.Kdf2.{kdf2_of, is_argon2, is_kdf_type, kdf_number};
ghost use Rattle.luks2_metadata.specs.Kdf2.{variant_of};
ghost use Rattle.serde_json.specs.View.{view as data_of};

use luks_argon2::Variant;
use luks_format::derivation::{Argon2Parameters, Derivation};
use luks2_json::derivation::nested_hash;
use luks2_json::member::{base64_len, integer_member, is_type, nested_integer};
use serde_json::Value;

/// The slot's key derivation function is of this type.
pub(super) fn is_kdf_type(slot: &Value, expected: &str) -> bool
    ensures { result ≡ is_kdf_type expected.now (data_of slot.now) }
{
    match slot.get("kdf") {
        Some(kdf) => is_type(kdf, expected),
        None => false,
    }
}

/// The variant of Argon2 that derives the slot's key, if one does.
#[tactic(auto, unfolding(crate::specs::Kdf2::variant_of))]
pub(super) fn variant(slot: &Value) -> Option<Variant>
    ensures { result ≡ variant_of (data_of slot.now) }
{
    if is_kdf_type(slot, "argon2i") {
        Some(Variant::Argon2i)
    } else if is_kdf_type(slot, "argon2id") {
        Some(Variant::Argon2id)
    } else {
        None
    }
}

// The object has all parameters of Argon2.
#[tactic(auto, unfolding(crate::specs::Kdf2::is_argon2))]
fn is_argon2(kdf: &Value) -> bool
    ensures { result ≡ is_argon2 (data_of kdf.now) }
{
    let Some(salt_len) = base64_len(kdf, "salt") else {
        return false;
    };
    salt_len < 1 << 32
        && integer_member(kdf, "time").is_some()
        && integer_member(kdf, "memory").is_some()
        && integer_member(kdf, "cpus").is_some()
}

/// The slot's key derivation function has all parameters of Argon2.
pub(super) fn has_argon2(slot: &Value) -> bool
    ensures { result ≡ passes (codes "kdf") is_argon2 (data_of slot.now) }
{
    match slot.get("kdf") {
        Some(kdf) => is_argon2(kdf),
        None => false,
    }
}

// The number under this name, or 0 if it is missing.
fn kdf_number(slot: &Value, name: &str) -> u64
    ensures { result ≡ kdf_number name.now (data_of slot.now) }
{
    nested_integer(slot, "kdf", name).unwrap_or(0)
}

/// How the slot's key is derived. Numbers are 0 if they are missing.
#[tactic(auto, unfolding(crate::specs::Kdf2::kdf2_of))]
pub(super) fn derivation(slot: &Value) -> Derivation
    ensures { result ≡ kdf2_of (data_of slot.now) }
{
    match variant(slot) {
        Some(variant) => Derivation::Argon2(Argon2Parameters {
            variant,
            passes: kdf_number(slot, "time"),
            memory_kib: kdf_number(slot, "memory"),
            lanes: kdf_number(slot, "cpus"),
        }),
        None => Derivation::Pbkdf2(nested_hash(slot, "kdf"), kdf_number(slot, "iterations")),
    }
}
