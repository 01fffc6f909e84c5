//! AES decryption of batches of 32 or 64 blocks, without tables.
//!
//! [`BatchKey`] decrypts 512 or 1024 bytes at once. The state is bitsliced: each word of 64 bits
//! holds one bit of 64 bytes, and the inverse S-box is a circuit of gates on words. So decryption
//! reads no table, and no address in it depends on a key or on data. Making a key reads tables: it
//! is expanded by those of [`AesKey`](crate::AesKey), at addresses that depend on the key.

mod circuit;
mod gates;
mod inv_mix_columns;
mod key;
mod lane;
mod packing;
mod pairs;
mod planes;
mod round_key;
mod round_keys;
mod rounds;
mod state;
mod steps;
mod transpose;

pub use key::BatchKey;
pub use round_key::{KeyPlane, RoundKey};
pub use round_keys::RoundKeys;
