//! Digests, which identify a volume key.

ghost use Rattle.std.specs.Prelude.{◌≡◌, length, true};
ghost use Rattle.luks_format.specs.Rule.{is_digest};

use crate::bytes::HeaderBytes;
use crate::rule::{iterations_out_of_range, usable_digest};
use luks_kdf::Hash;

/// The parts of a digest that are read, before they are checked.
#[derive(Drop, Debug)]
pub struct DigestParts {
    /// The hash function of PBKDF2. `None` only for LUKS1, if the name of the hash function is not
    /// known.
    pub hash: Option<Hash>,
    /// The iterations of PBKDF2.
    pub iterations: u32,
    /// The salt of PBKDF2.
    pub salt: HeaderBytes,
    /// The output of PBKDF2.
    pub value: HeaderBytes,
}

/// A digest that identifies a volume key: PBKDF2 of the key gives this value. It has at least one
/// iteration, and a value of 20 to 64 bytes.
#[derive(Drop, Debug)]
pub struct KeyDigest {
    /// Its parts, as they were read.
    pub parts: DigestParts,
    ghost usable: { is_digest parts.iterations (length parts.value) ≡ true },
}

impl DigestParts {
    ghost use Rattle.std.specs.Prelude.{◌≡◌, length};
    ghost use Rattle.luks_format.specs.Slot.{digest_from, has_no_usable_digest};
    ghost use Rattle.luks_format.specs.declared.digest.DigestParts.{DigestParts};

    /// Whether a digest with this number of iterations and bytes is not usable for a key slot: its
    /// numbers are out of range, or it has more iterations than the limit.
    pub fn no_usable_digest(limit: Option<u32>, iterations: u32, len: usize) -> bool
        ensures { (parts : DigestParts) → parts.iterations ≡ iterations → length parts.value ≡ len
            → result ≡ has_no_usable_digest limit (digest_from parts) }
    {
        !usable_digest(u64::from(iterations), len)
            || iterations_out_of_range(limit, u64::from(iterations))
    }
}

impl KeyDigest {
    ghost use Rattle.std.specs.Prelude.{◌≡◌};
    ghost use Rattle.luks_format.specs.Slot.{digest_from};

    /// The digest with these parts, if their numbers are in range.
    #[tactic(auto, unfolding(crate::specs::Slot::digest_from))]
    pub fn from_parts(parts: DigestParts) -> Option<KeyDigest>
        ensures { result ≡ digest_from parts }
    {
        if !usable_digest(u64::from(parts.iterations), parts.value.as_slice().len()) {
            return None;
        }
        Some(KeyDigest { parts })
    }
}
