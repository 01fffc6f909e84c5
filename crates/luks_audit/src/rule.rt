//! When a field is weak: the figures, and the tests.

ghost use Rattle.std.specs.Prelude.{◌≡◌};
ghost use Rattle.luks_audit.specs.Weakness.{has_few_iterations, has_few_passes};
ghost use Rattle.luks_audit.specs.Weakness.{has_little_memory, hash_in, is_sha1, least_iterations};
ghost use Rattle.luks_audit.specs.Weakness.{least_passes, names_sha1, owasp_iterations, uses_argon2};

use crate::rows::SlotRow;
use crate::text::Text;
use crate::token::is_named;
use luks_kdf::Hash;

/// The least memory of Argon2 in KiB that is not weak: 64 MiB.
pub(crate) const LEAST_MEMORY: u64 = 65_536;

/// The memory in KiB from which on one pass of Argon2 is not weak: 2 GiB.
pub(crate) const ONE_PASS_MEMORY: u64 = 2_097_152;

/// The least number of iterations of a digest that is not weak.
pub(crate) const LEAST_DIGEST_ITERATIONS: u64 = 1000;

// ---- the figures

/// The least number of iterations of PBKDF2 with this hash function (OWASP, Password Storage Cheat
/// Sheet, 2023).
pub(crate) fn owasp_iterations(hash: Option<Hash>) -> u64
    ensures { result ≡ owasp_iterations hash }
{
    match hash {
        Some(Hash::Sha512 | Hash::Sha384) => 210_000,
        Some(Hash::Sha256 | Hash::Sha224) => 600_000,
        Some(Hash::Sha1) | None => 1_300_000,
    }
}

/// The least number of iterations: the requested one, or OWASP's.
pub(crate) fn least_iterations(minimum: Option<u32>, hash: Option<Hash>) -> u64
    ensures { result ≡ least_iterations minimum hash }
{
    match minimum {
        Some(minimum) => u64::from(minimum),
        None => owasp_iterations(hash),
    }
}

/// The least number of passes of Argon2 over this memory in KiB.
pub(crate) fn least_passes(memory: u64) -> u64
    ensures { result ≡ least_passes memory }
{
    if memory >= ONE_PASS_MEMORY { 1 } else { 3 }
}

// ---- the tests

/// The hash function that the text names, if it is known.
pub(crate) fn hash_in(text: &Option<Text>) -> Option<Hash>
    ensures { result ≡ hash_in text.now }
{
    match text {
        Some(text) => Hash::from_bytes(text.as_bytes()),
        None => None,
    }
}

/// Whether the hash function is SHA-1.
pub(crate) fn is_sha1(hash: Option<Hash>) -> bool
    ensures { result ≡ is_sha1 hash }
{
    matches!(hash, Some(Hash::Sha1))
}

/// Whether the text names SHA-1.
pub(crate) fn names_sha1(text: &Option<Text>) -> bool
    ensures { result ≡ names_sha1 text.now }
{
    is_sha1(hash_in(text))
}

/// Whether PBKDF2 has too few iterations.
pub(crate) fn has_few_iterations(minimum: Option<u32>, slot: &SlotRow) -> bool
    ensures { result ≡ has_few_iterations minimum slot.now }
{
    let least = least_iterations(minimum, hash_in(&slot.hash));
    is_named(&slot.kdf, "pbkdf2") && slot.iterations.unwrap_or(0) < least
}

/// Whether the key is derived by Argon2.
pub(crate) fn uses_argon2(slot: &SlotRow) -> bool
    ensures { result ≡ uses_argon2 slot.now }
{
    is_named(&slot.kdf, "argon2i") || is_named(&slot.kdf, "argon2id")
}

/// Whether Argon2 has too little memory.
pub(crate) fn has_little_memory(slot: &SlotRow) -> bool
    ensures { result ≡ has_little_memory slot.now }
{
    uses_argon2(slot) && slot.memory.unwrap_or(0) < LEAST_MEMORY
}

/// Whether Argon2 has too few passes for its memory.
pub(crate) fn has_few_passes(slot: &SlotRow) -> bool
    ensures { result ≡ has_few_passes slot.now }
{
    uses_argon2(slot) && slot.time.unwrap_or(0) < least_passes(slot.memory.unwrap_or(0))
}
