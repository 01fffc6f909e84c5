//! Comparisons that end a test. They are here and not in `luks_test_support`, since a library may
//! not end the process. The compared values may hold references, which an expected error may not.

use std::fmt::Debug;
use std::process::Abort;

/// Asserts that both values are the same, in this case of a table.
pub(super) fn assert_same_in<C: Debug, T: PartialEq + Debug + Drop>(
    rt: &impl Abort,
    case: &C,
    left: T,
    right: T,
) {
    assert_eq!(rt; left, right, "{case:?}");
}

/// Asserts what holds in this case of a table.
pub(super) fn assert_in<C: Debug>(rt: &impl Abort, case: &C, holds: bool) {
    assert!(rt; holds, "{case:?}");
}
