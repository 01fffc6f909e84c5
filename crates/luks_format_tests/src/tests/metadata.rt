//! What no clause says: that the definitions mean what the format does, reason by reason and fault
//! by fault, that they read JSON as it does, and that calls succeed.

mod argon2;
mod digests;
mod fixture;
mod kinds;
mod segments;
mod slots;
mod tables;
mod trees;

use std::process::Abort;

// Asserts that the answer in this case of a table is the expected one.
fn assert_answer(rt: &impl Abort, case: &str, answer: &str, want: &str) {
    assert!(rt; answer == want, "{case}: {answer}, and not {want}");
}
