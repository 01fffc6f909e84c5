//! AES, as FIPS 197 defines it. Nothing here allocates memory, and no key is wiped.
//!
//! [`AesKey`] encrypts and decrypts one block of 16 bytes, by tables. It does not run in constant
//! time. [`BatchKey`] decrypts batches of 32 or 64 blocks, and reads tables only to make a key.
#![tactic(auto)]

mod aes;
mod batch;
mod cipher;
mod columns;
mod field;
mod inv_mixed;
mod key_expansion;
pub mod key_schedule;
mod mix_columns;
mod sbox;
mod state;

pub use aes::AesKey;
pub use batch::{BatchKey, KeyPlane, RoundKey, RoundKeys};
pub use key_schedule::KeySchedule;
