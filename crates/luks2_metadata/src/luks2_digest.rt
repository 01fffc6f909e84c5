//! The digests of a header, which identify its volume key.

ghost use Rattle.std.specs.Prelude.{◌≡◌, ◌≤◌, ◌++◌, [], IfOk, OnOk, codes, length, option_map};
ghost use Rattle.std.specs.Prelude.{unwrap_or, vec_len};
ghost use Rattle.std.specs.List.{cons_option};
ghost use Rattle.luks_format.specs.Rule.{max_slots};
ghost use Rattle.luks2_metadata.specs.Digest2.{own_digest_at, digest2_for, digest2_numbered};
ghost use Rattle.luks2_metadata.specs.Digest2.{digest2_of, digests2_of, is_digest2, is_of_slot};
ghost use Rattle.luks2_metadata.specs.Digest2.{iterations_of_digest, listed_of};
ghost use Rattle.luks2_json.specs.Member.{base64_member};
ghost use Rattle.serde_json.specs.View.{view as data_of};

use itoa::Buffer;
use luks_format::digest::{DigestParts, KeyDigest};
use luks_format::rule::{MAX_ITERATION_COUNT, MAX_SLOTS, usable_digest};
use luks2_json::derivation::{bytes_in, hash_member, iterations_in};
use luks2_json::list::{Names, array_contains, has_strings, strings_at};
use luks2_json::member::{base64_len, integer_member, is_type};
use luks2_json::numbered::object_numbered;
use luks2_json::tree::Metadata;
use serde_json::Value;
use std::alloc::{AllocError, Global};

/// A usable digest, and the key slots and segments that it lists.
#[derive(Drop, Debug)]
pub struct Digest {
    /// The digest that identifies the volume key.
    pub key: KeyDigest,
    /// The names of the key slots that hold the key.
    pub keyslots: Names,
    /// The names of the segments that are encrypted under the key.
    pub segments: Names,
}

// The length of the value in bytes, or 0 if it is missing.
fn value_len(digest: &Value) -> usize
    ensures { result
        ≡ length (unwrap_or (base64_member (codes "digest") (data_of digest.now)) []) }
{
    base64_len(digest, "digest").unwrap_or(0)
}

// Every member of the digest is present and of the right type, and its hash function is known.
#[tactic(auto, unfolding(crate::specs::Digest2::is_digest2))]
fn is_digest(digest: &Value) -> bool
    ensures { result ≡ is_digest2 (data_of digest.now) }
{
    is_type(digest, "pbkdf2")
        && has_strings(digest, "keyslots")
        && has_strings(digest, "segments")
        && hash_member(digest).is_some()
        && integer_member(digest, "iterations").is_some()
        && base64_len(digest, "salt").is_some()
        && base64_len(digest, "digest").is_some()
}

// The digest lists the key slot with this number, and segment 0.
#[tactic(auto, unfolding(crate::specs::Digest2::is_of_slot))]
fn is_of_slot(digest: &Value, number: u8) -> bool
    ensures { result ≡ is_of_slot number (data_of digest.now) }
{
    let mut name = Buffer::new();
    array_contains(digest, "keyslots", name.format(number))
        && array_contains(digest, "segments", "0")
}

// The digest, if it is usable.
#[tactic(auto, unfolding(crate::specs::Digest2::digest2_of))]
fn digest2_of(alloc: Global, digest: &Value) -> Result<Option<KeyDigest>, AllocError>
    ensures { IfOk result (λ key. key ≡ digest2_of (data_of digest.now)) }
{
    if !is_digest(digest) {
        return Ok(None);
    }
    let iterations = iterations_in(digest);
    if MAX_ITERATION_COUNT < iterations {
        return Ok(None);
    }
    let parts = DigestParts {
        hash: hash_member(digest),
        iterations: iterations as u32,
        salt: bytes_in(alloc, digest, "salt")?,
        value: bytes_in(alloc, digest, "digest")?,
    };
    Ok(KeyDigest::from_parts(parts))
}

// The iterations of the digest, if it is usable.
fn usable_iterations(digest: &Value) -> Option<u32>
    ensures { result ≡ option_map iterations_of_digest (digest2_of (data_of digest.now)) }
{
    if !is_digest(digest) {
        return None;
    }
    let iterations = iterations_in(digest);
    if !usable_digest(iterations, value_len(digest)) {
        return None;
    }
    Some(iterations as u32)
}

// The digest with a number, if it is usable and belongs to the key slot.
#[tactic(auto, unfolding(crate::specs::Digest2::own_digest_at))]
fn own_digest_at(
    alloc: Global,
    tree: &Value,
    slot: u8,
    number: u8,
) -> Result<Option<KeyDigest>, AllocError>
    ensures { IfOk result (λ key. key ≡ own_digest_at (data_of tree.now) slot number) }
{
    match object_numbered(tree, "digests", number) {
        Some(digest) if is_of_slot(digest, slot) => digest2_of(alloc, digest),
        _ => Ok(None),
    }
}

// The iterations of the digest with a number, if it is usable and belongs to the key slot.
#[tactic(auto, unfolding(crate::specs::Digest2::own_digest_at))]
fn own_iterations_at(tree: &Value, slot: u8, number: u8) -> Option<u32>
    ensures { result
        ≡ option_map iterations_of_digest (own_digest_at (data_of tree.now) slot number) }
{
    match object_numbered(tree, "digests", number) {
        Some(digest) if is_of_slot(digest, slot) => usable_iterations(digest),
        _ => None,
    }
}

/// The digest that the key slot with this number is opened against, if there is one: the
/// lowest-numbered usable digest that lists the slot and segment 0.
pub fn digest_for(
    alloc: Global,
    metadata: &Metadata,
    number: u8,
) -> Result<Option<KeyDigest>, AllocError>
    ensures { IfOk result (λ key. key ≡ digest2_for metadata.now number) }
{
    for digest in 0..MAX_SLOTS {
        let found = own_digest_at(alloc, metadata.tree(), number, digest)?;
        if found.is_some() {
            return Ok(found);
        }
    }
    Ok(None)
}

/// The iterations of the digest that [`digest_for`] finds. This allocates nothing.
pub(crate) fn digest_iterations_for(tree: &Value, number: u8) -> Option<u32>
    ensures { result ≡ option_map iterations_of_digest (digest2_for (data_of tree.now) number) }
{
    for digest in 0..MAX_SLOTS {
        let found = own_iterations_at(tree, number, digest);
        if found.is_some() {
            return found;
        }
    }
    None
}

// A digest as dumps print it, if it is usable.
#[tactic(auto, unfolding(crate::specs::Digest2::listed_of))]
fn listed(alloc: Global, digest: &Value) -> Result<Option<Digest>, AllocError>
    ensures { IfOk result (λ listed. listed ≡ listed_of (data_of digest.now)) }
{
    let Some(key) = digest2_of(alloc, digest)? else {
        return Ok(None);
    };
    Ok(Some(Digest {
        key,
        keyslots: strings_at(alloc, digest, "keyslots")?,
        segments: strings_at(alloc, digest, "segments")?,
    }))
}

// The digest with a number, paired with that number, if there is one.
fn numbered_digest(
    alloc: Global,
    tree: &Value,
    number: u8,
) -> Result<Option<(u8, Option<Digest>)>, AllocError>
    ensures { IfOk result (λ digest. digest ≡ digest2_numbered (data_of tree.now) number) }
{
    match object_numbered(tree, "digests", number) {
        Some(digest) => Ok(Some((number, listed(alloc, digest)?))),
        None => Ok(None),
    }
}

// Appends the digest, if there is one.
fn push_digest(
    digests: &mut Vec<(u8, Option<Digest>)>,
    digest: Option<(u8, Option<Digest>)>,
) -> Result<(), AllocError>
    ensures { OnOk result (digests.new.items ≡ digests.old.items ++ cons_option digest []) }
{
    if let Some(digest) = digest {
        digests.push(digest)?;
    }
    Ok(())
}

/// The digests by ascending number, each with the key slots and segments that it lists, or `None`
/// if it is not usable.
pub fn digests(alloc: Global, metadata: &Metadata) -> Result<Vec<(u8, Option<Digest>)>, AllocError>
    ensures value { IfOk result (λ digests. digests.items ≡ digests2_of metadata.now) }
    ensures few { IfOk result (λ digests. vec_len digests ≤ max_slots) }
{
    let mut digests = Vec::new(alloc);
    for number in 0..MAX_SLOTS {
        let digest = numbered_digest(alloc, metadata.tree(), number)?;
        push_digest(&mut digests, digest)?;
    }
    Ok(digests)
}
