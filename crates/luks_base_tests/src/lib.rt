//! Tests of the lowest crates, through their public calls: `luks_io` and `luks_test_support`
//! (devices, and the failing devices for tests), `luks_kdf` (hash functions, keys and stripes),
//! `luks_argon2`, `luks_aes` and `luks_cipher`.
//!
//! They are in a crate of their own, so that the crates below are not proved again with them.
#![tactic(auto)]

#[cfg(test)]
mod tests;
