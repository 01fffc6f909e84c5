//! Tests, by the crate that they test.

mod args;
mod cli;
mod report;
mod shared;
