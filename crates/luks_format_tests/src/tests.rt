//! Tests, by the crate that they test.

mod binary;
mod header;
mod metadata;
mod shared;
