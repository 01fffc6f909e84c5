//! The JSON area of a LUKS2 header (LUKS2 On-Disk Format Specification 1.1, section 3): its text as
//! a tree of values, and the types of members that objects of a header have.
#![tactic(auto)]

pub mod derivation;
mod encoded;
pub mod encryption;
pub mod list;
pub mod member;
pub mod numbered;
pub mod tree;
