//! Tests of the crates on volumes, through their public calls: `luks_access`, `luks_open`,
//! `luks_payload` and `luks_volume`.
//!
//! They are in a crate of their own, so that the crates below are not proved again with them.
#![tactic(auto)]

#[cfg(test)]
mod tests;
