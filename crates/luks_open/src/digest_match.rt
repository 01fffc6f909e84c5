//! Digests, which identify a volume key.

ghost use Rattle.std.specs.Prelude.{◌≡◌, ◌+◌, length};
ghost use Rattle.luks_kdf.specs.Pbkdf2.{capped};
ghost use Rattle.luks_open.specs.Candidate.{matches_digest};
ghost use Rattle.luks_open.specs.Deriving.{evaluations};

use crate::key::Key;
use luks_header::header_digests::KeyDigest;
use luks_kdf::Work;

/// Whether PBKDF2 of the key gives the digest's whole value.
#[tactic(auto, unfolding(crate::specs::Candidate::matches_digest))]
pub(crate) fn key_matches_digest(digest: &KeyDigest, key: &[u8], work: &mut Work) -> bool
    ensures value { result ≡ matches_digest digest.now key.now }
    ensures work { work.new ≡ capped (work.old
        + evaluations digest.now.parts.hash digest.now.parts.iterations
        (length digest.now.parts.value)) }
{
    // Without a hash function the count does not change, and it is within its range.
    let _before = work.count();
    let Some(hash) = digest.parts.hash else {
        return false;
    };
    let value = digest.parts.value.as_slice();
    let derived = Key::derived(
        hash,
        key,
        digest.parts.salt.as_slice(),
        digest.parts.iterations,
        value.len(),
        work,
    );
    derived.as_slice() == value
}
