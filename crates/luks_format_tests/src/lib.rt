//! Tests of the crates on formats, through their public calls: `luks_header`, `luks2_json`,
//! `luks2_metadata` and `luks_format`.
//!
//! They are in a crate of their own, so that the crates below are not proved again with them.
#![tactic(auto)]

#[cfg(test)]
mod tests;
