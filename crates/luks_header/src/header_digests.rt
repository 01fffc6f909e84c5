//! The digests of a header.

ghost use Rattle.std.specs.Prelude.{◌≡◌, ◌≤◌, IfOk, vec_len};
ghost use Rattle.luks_format.specs.Rule.{max_slots};
ghost use Rattle.luks_header.specs.HeaderDigests.{digest_for, digests_of};

use crate::header::Header;
pub use luks_format::digest::KeyDigest;
pub use luks2_json::list::Names;
pub use luks2_metadata::luks2_digest::Digest;
use std::alloc::{AllocError, Global};

/// The digest that the key slot of this number is opened against, if there is one (LUKS2 On-Disk
/// Format Specification 1.1, section 3, the digests object). LUKS1 has one digest for all its key
/// slots.
///
/// # Errors
///
/// `AllocError` if memory runs out.
#[tactic(auto, unfolding(crate::specs::HeaderDigests::digest_for))]
pub fn digest_for(
    alloc: Global,
    header: &Header,
    number: u8,
) -> Result<Option<KeyDigest>, AllocError>
    ensures { IfOk result (λ digest. digest ≡ digest_for header.now number) }
{
    match header {
        Header::V1(header) => luks_format::validation::digest(alloc, header),
        Header::V2(_, metadata) => luks2_metadata::luks2_digest::digest_for(
            alloc, metadata, number,
        ),
    }
}

/// The digests of a header by ascending number, at most 32: each with the names that it lists, or
/// `None` if it is not usable (LUKS2 On-Disk Format Specification 1.1, section 3, the digests
/// object). LUKS1 does not number its digest: it has none here.
///
/// # Errors
///
/// `AllocError` if memory runs out.
#[tactic(auto, unfolding(crate::specs::HeaderDigests::digests_of))]
pub fn digests(alloc: Global, header: &Header) -> Result<Vec<(u8, Option<Digest>)>, AllocError>
    ensures value { IfOk result (λ digests. digests.items ≡ digests_of header.now) }
    ensures few { IfOk result (λ digests. vec_len digests ≤ max_slots) }
{
    match header {
        Header::V1(_) => Ok(Vec::new(alloc)),
        Header::V2(_, metadata) => luks2_metadata::luks2_digest::digests(alloc, metadata),
    }
}
