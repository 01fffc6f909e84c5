//! Deriving the key of a slot's key material from a passphrase, by the functions that a program
//! has.

ghost use Rattle.std.specs.Prelude.{◌≡◌, ◌+◌, ◌≤◌, ℕ, List, IfErr, IfOk, OnErr, OnOk, Some, length};
ghost use Rattle.luks_kdf.specs.Pbkdf2.{capped};
ghost use Rattle.luks_format.specs.declared.derivation.Derivation.{Derivation};
ghost use Rattle.luks_open.specs.Candidate.{derived_by};
ghost use Rattle.luks_open.specs.Deriving.{IsPbkdf2, NeedsMemory, blocks_by, evaluations_by};

use crate::key::Key;
use luks_header::derivation::Derivation;
use luks_kdf::Work;

/// Memory that Argon2 needs was refused.
#[derive(Clone, Copy, PartialEq, Eq, Debug)]
pub struct MemoryRefused {
    /// How much was asked for, in KiB.
    pub memory_kib: u32,
}

/// Derives the keys of key material.
pub trait Derive {
    /// Whether it derives a key in this way, from this passphrase and salt.
    ghost derives: { Self → Derivation → List ℕ → List ℕ → Type 0 };

    /// How many blocks of 1 KiB Argon2 has filled. The count saturates as that of work does.
    ghost blocks: { Self → ℕ };

    /// Derives the key of `len` bytes. The count of work is raised by the evaluations of HMAC, that
    /// of blocks by those that Argon2 fills.
    ///
    /// # Errors
    ///
    /// The memory that Argon2 needs was refused.
    fn derive(
        &mut self,
        how: Derivation,
        pass: &[u8],
        salt: &[u8],
        len: usize,
        work: &mut Work,
    ) -> Result<Key, MemoryRefused>
        requires derives { derives self.old how pass.now salt.now }
        requires some { 1 ≤ len }
        requires capacity { len ≤ 64 }
        ensures key { IfOk result (λ key. derived_by how pass.now salt.now len ≡ Some key) }
        ensures len { IfOk result (λ key. length key ≡ len) }
        ensures work { OnOk result (work.new ≡ capped (work.old + evaluations_by how len)) }
        ensures filled { OnOk result
            (capped (blocks self.new) ≡ capped (blocks self.old + blocks_by how)) }
        ensures nothing { OnErr result
            ((work.new ≡ work.old) × (capped (blocks self.new) ≡ capped (blocks self.old))) }
        ensures refused { IfErr result (λ refused. NeedsMemory how refused.memory_kib) }
        ensures still { (other : Derivation) → (password other_salt : List ℕ)
            → derives self.old other password other_salt
            → derives self.new other password other_salt };
}

/// PBKDF2, without Argon2. It takes no memory, so it never fails.
#[derive(Drop)]
pub struct Pbkdf2Alone;

impl Derive for Pbkdf2Alone {
    ghost derives = { λ _ how _ _. IsPbkdf2 how };

    ghost blocks = { λ _. 0 };

    fn derive(
        &mut self,
        how: Derivation,
        pass: &[u8],
        salt: &[u8],
        len: usize,
        work: &mut Work,
    ) -> Result<Key, MemoryRefused> {
        Ok(pbkdf2_key(how, pass, salt, len, work))
    }
}

/// The key of `len` bytes that PBKDF2 derives in this way. This allocates nothing.
pub fn pbkdf2_key(how: Derivation, pass: &[u8], salt: &[u8], len: usize, work: &mut Work) -> Key
    requires pbkdf2 { IsPbkdf2 how }
    requires some { 1 ≤ len }
    requires capacity { len ≤ 64 }
    ensures key { derived_by how pass.now salt.now len ≡ Some result }
    ensures len { length result ≡ len }
    ensures work { work.new ≡ capped (work.old + evaluations_by how len) }
    ensures filled { blocks_by how ≡ 0 }
{
    let Derivation::Pbkdf2(Some(hash), iterations) = how else {
        unreachable!();
    };
    Key::derived(hash, pass, salt, iterations as u32, len, work)
}
