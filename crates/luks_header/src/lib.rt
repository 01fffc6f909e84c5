//! LUKS headers, which describe a volume's cipher, key slots and payload.
//!
//! [`read_header`](header::read_header) reads the header at the start of an image,
//! [`slots`](header_slots::slots) returns the verdicts on its key slots,
//! [`digest_for`](header_digests::digest_for) the digest of a key slot,
//! [`digests`](header_digests::digests) all digests, and [`segment`](header_segment::segment) the
//! location of the payload.
//!
//! The crates below this one have what belongs to one format, and what both formats share.
#![tactic(auto)]

pub mod header;
pub mod header_digests;
pub mod header_segment;
pub mod header_slots;

pub use luks_format::{area, bytes, derivation, fault, refusal, rule, sector_size, segment, text};
