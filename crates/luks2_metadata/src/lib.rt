//! The key slots, digests and segment in the metadata of a LUKS2 header (LUKS2 On-Disk Format
//! Specification 1.1, section 3): the verdicts on key slots and digests, and where the payload is,
//! or why it cannot be read.
#![tactic(auto)]

pub mod bounds;
pub mod luks2_digest;
pub mod luks2_segment;
pub mod luks2_slot;
