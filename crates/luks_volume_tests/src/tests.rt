//! Tests, by the crate that they test.

mod access;
mod open;
mod payload;
mod seal;
mod shared;
