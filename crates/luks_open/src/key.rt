//! Keys.

ghost use Rattle.std.specs.Prelude.{◌≡◌, ◌+◌, ◌*◌, ◌≤◌, List, ℕ, true, length, take};
ghost use Rattle.std.specs.Int.{div_ceil};
ghost use Rattle.luks_cipher.specs.Sector.{is_key_length};
ghost use Rattle.luks_kdf.specs.Hash.{digest_len};
ghost use Rattle.luks_kdf.specs.Pbkdf2.{capped, derived_key};
ghost use Rattle.luks_format.specs.Rule.{key_material_len};
ghost use Rattle.luks_open.specs.Candidate.{recovered};

use crate::material;
use luks_cipher::SectorCipher;
use luks_kdf::{Hash, Work, pbkdf2};
use std::marker::Model;

/// The length of the longest key, in bytes.
const MAX_KEY_LEN: usize = 64;

/// A key of at most 64 bytes. A clause sees its bytes.
#[derive(Drop)]
pub struct Key {
    bytes: [u8; MAX_KEY_LEN],
    len: usize,
}

impl Model for Key {
    ghost Value = { List ℕ };

    ghost view = { λ key. take key.len key.bytes };

    ghost invariant = { λ key. key.len ≤ 64 };
}

impl Key {
    /// The first `len` of these bytes.
    pub fn new(bytes: [u8; MAX_KEY_LEN], len: usize) -> Key
        requires { len ≤ 64 }
        ensures value { result ≡ take len bytes }
        ensures len { length result ≡ len }
    {
        Key { bytes, len }
    }

    /// The key of `len` bytes that PBKDF2 derives from a passphrase or from a candidate key.
    pub(crate) fn derived(
        hash: Hash,
        secret: &[u8],
        salt: &[u8],
        iterations: u32,
        len: usize,
        work: &mut Work,
    ) -> Key
        requires iterations { 1 ≤ iterations }
        requires some { 1 ≤ len }
        requires capacity { len ≤ 64 }
        ensures key { result ≡ derived_key hash secret.now salt.now iterations len }
        ensures len { length result ≡ len }
        ensures work { work.new ≡ capped (work.old + iterations * div_ceil len (digest_len hash)) }
    {
        let mut bytes = [0; MAX_KEY_LEN];
        pbkdf2(hash, secret, salt, iterations, &mut bytes[..len], work);
        Key { bytes, len }
    }

    /// The volume key of `len` bytes that the key material from `offset` on holds.
    pub(crate) fn recovered(
        af: Hash,
        key: &SectorCipher,
        image: &[u8],
        offset: usize,
        len: usize,
        stripes: usize,
    ) -> Key
        requires key_bytes { is_key_length len ≡ true }
        requires some { 1 ≤ stripes }
        requires few { stripes ≤ 4000 }
        requires there { offset + key_material_len len stripes ≤ length image.now }
        ensures { result ≡ recovered af key.now image.now offset len stripes }
    {
        let mut bytes = [0; MAX_KEY_LEN];
        material::recover(af, key, image, offset, stripes, &mut bytes[..len]);
        Key { bytes, len }
    }

    /// The bytes of the key.
    pub fn as_slice(&self) -> &[u8]
        ensures { result.now ≡ self.now }
    {
        &self.bytes[..self.len]
    }
}
