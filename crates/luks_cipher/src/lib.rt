//! Sectors of disks under AES: XTS, as IEEE 1619 defines it, and the older modes of dm-crypt.
//!
//! [`SectorCipher`] encrypts and decrypts a sector of up to 4096 bytes under its unit number, in
//! one of the modes that [`Mode`] names; [`XtsKey`] is XTS alone, and [`cbc`] is CBC alone. Nothing
//! here allocates memory, runs in constant time, or wipes keys.
#![tactic(auto)]

mod block;
pub mod cbc;
mod expanded;
mod mode;
mod sector;
mod units;
mod xts;

pub use expanded::ExpandedKeys;
pub use luks_aes::AesKey;
pub use mode::Mode;
pub use sector::SectorCipher;
pub use xts::XtsKey;
