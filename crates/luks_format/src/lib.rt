//! The bytes on the disk that are no JSON: the header of LUKS1 (LUKS1 On-Disk Format Specification
//! 1.2.3) with the verdicts on it, the binary header of LUKS2 (LUKS2 On-Disk Format Specification
//! 1.1), and what both formats share.
//!
//! Shared are the start of an image, with numbers, texts and bytes at fixed offsets, and verdicts
//! on key slots, digests and segments. Of LUKS2 this says which of its two headers an image has,
//! and how much of the image is read for them. The JSON text is returned as it is stored; other
//! crates parse it.
#![tactic(auto)]

pub mod area;
pub mod binary_header2;
pub mod bytes;
mod choice2;
pub mod derivation;
pub mod digest;
pub mod fault;
pub mod field;
pub mod header;
pub mod header2_search;
pub mod refusal;
pub mod rule;
pub mod sector_size;
pub mod segment;
pub mod slot;
pub mod text;
pub mod validation;
mod validity2;
