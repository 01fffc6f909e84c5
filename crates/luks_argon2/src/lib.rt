//! Argon2i and Argon2id, version 0x13 (RFC 9106), without a secret value and associated data. One
//! thread fills the lanes, one after the other. Argon2 is built on BLAKE2b without a key (RFC 7693)
//! and on H', the hash function of variable length that it makes of that (RFC 9106, section 3.3).
//!
//! Only [`Memory::new`] allocates memory.
#![tactic(auto)]

pub use hashing::{Hasher, blake2b, blake2b_512};
pub use memory::Memory;
pub use parameters::{ParameterFault, Parameters};
pub use tag::derive;
pub use variable_length::variable_length_hash;
pub use variant::Variant;

mod addressing;
mod blake2b_compression;
mod block;
mod compression;
mod filling;
mod first_blocks;
mod hashing;
mod layout;
mod memory;
mod parameters;
mod permutation;
mod reference;
mod tag;
mod variable_length;
mod variant;
mod wiping;
mod words;
