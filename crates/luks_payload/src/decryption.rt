//! Decryption of a sector in place.

use luks_cipher::SectorCipher;
use luks_io::transform::Transform;

/// The decryption of the sector with this data unit number.
#[derive(Drop)]
pub(crate) struct Decryption<'a> {
    pub(crate) cipher: &'a SectorCipher,
    pub(crate) number: u64,
}

impl<'a> Transform for Decryption<'a> {
    ghost use Rattle.std.specs.Prelude.{◌≡◌, ◌≤◌, ◌%◌};
    ghost use Rattle.luks_payload.specs.Plain.{unit_plain};

    ghost accepts = { λ _ count. (count % 16 ≡ 0) × (16 ≤ count) × (count ≤ 4096) };

    ghost transformed = { λ d unit. unit_plain d.cipher.now d.number unit };

    fn apply(&self, bytes: &mut [u8]) {
        self.cipher.decrypt_unit(self.number, bytes);
    }
}
