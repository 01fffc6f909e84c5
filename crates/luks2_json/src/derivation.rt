//! The parameters of PBKDF2, which key slots and digests state in the same way.

ghost use Rattle.std.specs.Prelude.{◌≡◌, [], IfOk, unwrap_or};
ghost use Rattle.luks2_json.specs.Member.{base64_member, hash_member, in_member, iterations_in};
ghost use Rattle.serde_json.specs.View.{view as data_of};

use crate::member::{base64_member, integer_member, string_member};
use luks_format::bytes::HeaderBytes;
use luks_kdf::Hash;
use serde_json::Value;
use std::alloc::{AllocError, Global};

/// The hash function that the object's member `hash` names, if it is known.
#[tactic(auto, unfolding(crate::specs::Member::hash_member))]
pub fn hash_member(object: &Value) -> Option<Hash>
    ensures { result ≡ hash_member (data_of object.now) }
{
    Hash::from_name(string_member(object, "hash")?)
}

/// The hash function that `hash` names in the object under `object`, if it is known.
pub fn nested_hash(owner: &Value, object: &str) -> Option<Hash>
    ensures { result ≡ in_member object.now hash_member (data_of owner.now) }
{
    hash_member(owner.get(object)?)
}

/// The object's iterations of PBKDF2, or 0 if they are missing.
pub fn iterations_in(object: &Value) -> u64
    ensures { result ≡ iterations_in (data_of object.now) }
{
    integer_member(object, "iterations").unwrap_or(0)
}

/// The bytes under this name in base64, or no bytes if they are missing.
pub fn bytes_in(alloc: Global, object: &Value, name: &str) -> Result<HeaderBytes, AllocError>
    ensures { IfOk result (λ bytes. bytes
        ≡ unwrap_or (base64_member name.now (data_of object.now)) []) }
{
    match base64_member(alloc, object, name)? {
        Some(bytes) => HeaderBytes::new(alloc, bytes.as_slice()),
        None => HeaderBytes::new(alloc, &[]),
    }
}
