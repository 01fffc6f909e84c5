//! The ciphers of the tables: a key and its use.

use luks_aes::BatchKey;
use luks_cipher::cbc::{decrypt_chain, encrypt_chain};
use luks_cipher::{AesKey, Mode, SectorCipher, XtsKey};
use std::process::Abort;

/// A key for blocks, for chains with this IV, for data units, or for sectors.
#[derive(Drop)]
pub enum Cipher {
    Block(AesKey),
    Chain(BatchKey, [u8; 16]),
    Unit(XtsKey),
    Sector(SectorCipher),
}

impl Cipher {
    /// The cipher with this name. `iv` is the IV of a chain, as hexadecimal digits.
    pub fn new(rt: &impl Abort, name: &str, key: &[u8], iv: &str) -> Cipher {
        match name {
            "aes" => Cipher::Block(AesKey::new(key).expect(rt, "a key of AES")),
            "cbc" => {
                let mut block = [0; 16];
                hex::decode_to_slice(iv, &mut block).expect(rt, "a block");
                Cipher::Chain(BatchKey::new(key).expect(rt, "a key of AES"), block)
            }
            "xts" => Cipher::Unit(XtsKey::new(key).expect(rt, "a key of XTS")),
            _ => {
                let mode = Mode::from_name(name).expect(rt, "a mode");
                Cipher::Sector(SectorCipher::new(mode, key).expect(rt, "a key of the mode"))
            }
        }
    }

    /// Encrypts the unit with this number; blocks and chains have no number.
    pub fn encrypt(&self, rt: &impl Abort, number: u64, unit: &mut [u8]) {
        assert!(rt; unit.len() % 16 == 0 && 16 <= unit.len() && unit.len() <= 4096);
        match self {
            Cipher::Block(key) => {
                let mut block = [0; 16];
                block.copy_from_slice(&unit[..16]);
                key.encrypt_block(&mut block);
                unit[..16].copy_from_slice(&block);
            }
            Cipher::Chain(key, iv) => encrypt_chain(key.key(), *iv, unit),
            Cipher::Unit(key) => key.encrypt_unit(number, unit),
            Cipher::Sector(key) => key.encrypt_unit(number, unit),
        }
    }

    /// Decrypts the unit with this number; blocks and chains have no number.
    pub fn decrypt(&self, rt: &impl Abort, number: u64, unit: &mut [u8]) {
        assert!(rt; unit.len() % 16 == 0 && 16 <= unit.len() && unit.len() <= 4096);
        match self {
            Cipher::Block(key) => {
                let mut block = [0; 16];
                block.copy_from_slice(&unit[..16]);
                key.decrypt_block(&mut block);
                unit[..16].copy_from_slice(&block);
            }
            Cipher::Chain(key, iv) => decrypt_chain(key, *iv, unit),
            Cipher::Unit(key) => key.decrypt_unit(number, unit),
            Cipher::Sector(key) => key.decrypt_unit(number, unit),
        }
    }
}
