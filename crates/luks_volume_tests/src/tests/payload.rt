//! What no clause says: runs of whole payloads whose images were encrypted here with the unit
//! numbers written out, and devices that move bytes in pieces or fail.

mod fixture;
mod payload;
mod sealed;
mod sealed_both;
