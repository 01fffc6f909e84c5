//! What no clause says of devices: that calls succeed, how many bytes one moves, and which one
//! fails.

mod devices;
mod forwarding;
mod read_ahead;
mod testing;

use std::process::Abort;

// Asserts what holds at a step of a row.
fn assert_at(rt: &impl Abort, row: &str, step: usize, holds: bool) {
    assert!(rt; holds, "{row}, step {step}");
}
