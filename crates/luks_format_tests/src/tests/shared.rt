//! What tests of several modules share: assertions, and values that stay to the end of a test.

use std::process::Abort;

/// Asserts what holds in this case.
pub fn assert_of(rt: &impl Abort, case: &str, holds: bool) {
    assert!(rt; holds, "{case}");
}

/// Asserts what holds in the case of this number.
pub fn assert_in(rt: &impl Abort, case: usize, holds: bool) {
    assert!(rt; holds, "{case}");
}

/// A value that stays to the end of the test.
pub fn kept<'a, T: Drop + 'a>(rt: &(impl Abort + AllocGlobal), value: T) -> &'a T {
    Box::leak(Box::new(rt.alloc(), value).expect(rt, "memory"))
}
