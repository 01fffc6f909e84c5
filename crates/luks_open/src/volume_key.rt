//! A volume key that is known, compared with the digest in a header.

ghost use Rattle.std.specs.Prelude.{◌≡◌, ◌+◌, IfErr, IfOk, MatchOption, None, Some};
ghost use Rattle.luks_kdf.specs.Pbkdf2.{capped};
ghost use Rattle.luks_open.specs.VolumeKey.{compared, comparing_costs};
ghost use Rattle.luks_open.specs.VolumeKey.{key_digest_of, lists_segment};
ghost use Rattle.luks_open.specs.VolumeKey.{first_of_segment, own_key};

use crate::digest_match::key_matches_digest;
use luks_header::header::Header;
use luks_header::header_digests::{Digest, KeyDigest, Names, digest_for, digests};
use luks_header::rule::iterations_out_of_range;
use luks_kdf::Work;
use std::alloc::{AllocError, Global};

/// What comparing a key with a header gives.
#[derive(Clone, Copy, PartialEq, Eq, Debug)]
pub enum KeyCheck {
    /// The key matches the digest.
    Matches,
    /// The key does not match the digest.
    Differs,
    /// The header has no usable digest of its volume key, or the digest has more iterations than
    /// the limit.
    NoDigest,
}

// The names have that of segment 0.
fn lists_segment(segments: &Names) -> bool
    ensures { result ≡ lists_segment segments.now }
{
    segments.as_slice().iter().any(|name| name.as_str() == "0")
}

// The value of a digest that is usable and lists segment 0.
fn own_key(digest: &Option<Digest>) -> Option<&KeyDigest>
    ensures { MatchOption result (own_key digest.now ≡ None)
        (λ key. own_key digest.now ≡ Some key.now) }
{
    match digest {
        Some(digest) if lists_segment(&digest.segments) => Some(&digest.key),
        _ => None,
    }
}

// The first usable digest that lists segment 0.
fn first_of_segment(digests: &[(u8, Option<Digest>)]) -> Option<&KeyDigest>
    ensures { MatchOption result (first_of_segment digests.now ≡ None)
        (λ key. first_of_segment digests.now ≡ Some key.now) }
{
    'digests: for entry in digests {
        if let Some(key) = own_key(&entry.1) {
            return Some(key);
        }
    }
    None
}

// Compares a key with a digest, unless the digest has more iterations than the limit.
#[tactic(auto, unfolding(crate::specs::VolumeKey::compared, crate::specs::VolumeKey::comparing_costs))]
fn compare(digest: &KeyDigest, limit: Option<u32>, key: &[u8], work: &mut Work) -> KeyCheck
    ensures value { result ≡ compared limit (Some digest.now) key.now }
    ensures work { work.new ≡ capped (work.old + comparing_costs limit (Some digest.now)) }
{
    // Without a comparison the count does not change, and it is within its range.
    let _before = work.count();
    if iterations_out_of_range(limit, u64::from(digest.parts.iterations)) {
        return KeyCheck::NoDigest;
    }
    if key_matches_digest(digest, key, work) {
        KeyCheck::Matches
    } else {
        KeyCheck::Differs
    }
}

/// Compares a volume key with the digest of a header: the lowest-numbered usable digest that lists
/// segment 0 (LUKS2 On-Disk Format Specification 1.1, section 3, the digests object). LUKS1 has one
/// digest.
///
/// The key matches if PBKDF2 of it equals the whole value of the digest. The count of work is
/// raised by the evaluations of HMAC for that.
///
/// # Errors
///
/// `AllocError` if memory runs out. Then nothing was compared.
#[tactic(auto, unfolding(crate::specs::VolumeKey::key_digest_of, crate::specs::VolumeKey::compared, crate::specs::VolumeKey::comparing_costs))]
pub fn check_key(
    alloc: Global,
    header: &Header,
    limit: Option<u32>,
    key: &[u8],
    work: &mut Work,
) -> Result<KeyCheck, AllocError>
    ensures value { IfOk result (λ check. check
        ≡ compared limit (key_digest_of header.now) key.now) }
    ensures work { IfOk result (λ _. work.new
        ≡ capped (work.old + comparing_costs limit (key_digest_of header.now))) }
    ensures err { IfErr result (λ _. work.new ≡ work.old) }
{
    let listed = digests(alloc, header)?;
    if let Some(digest) = first_of_segment(listed.as_slice()) {
        return Ok(compare(digest, limit, key, work));
    }
    let own = digest_for(alloc, header, 0)?;
    let _before = work.count();
    match own {
        Some(digest) => Ok(compare(&digest, limit, key, work)),
        None => Ok(KeyCheck::NoDigest),
    }
}
