//! What tests of several modules share: an assertion, and values that stay to the end of a test.

use luks_test_support::bytes;
use std::process::Abort;

/// Asserts what holds in this case.
pub fn assert_of(rt: &impl Abort, case: &str, holds: bool) {
    assert!(rt; holds, "{case}");
}

/// A value that stays to the end of the test.
pub fn kept<'a, T: Drop + 'a>(rt: &(impl Abort + AllocGlobal), value: T) -> &'a mut T {
    Box::leak(Box::new(rt.alloc(), value).expect(rt, "memory"))
}

/// This many bytes that count up. They stay to the end of the test.
pub fn counted(rt: &(impl Abort + AllocGlobal), len: usize) -> &'static [u8] {
    bytes::counted(rt.alloc(), len).expect(rt, "memory").leak()
}
