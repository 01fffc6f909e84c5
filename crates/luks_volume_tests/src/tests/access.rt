//! What no clause says: ranges of volumes that the tests seal from a known text, which sectors are
//! read for a range, images with a read that fails or that are shorter than they report, and
//! images in files.

mod endings;
mod failing;
mod files;
mod fixture;
mod opening;
mod ranges;

use std::process::Abort;

// Asserts what holds in the row of a table with this number in it.
fn assert_at(rt: &impl Abort, number: u64, holds: bool) {
    assert!(rt; holds, "{number}");
}
