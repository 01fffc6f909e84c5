//! Comparisons of tests. A difference is reported with both values, and with the case if a table
//! has several; a test ends there by `expect`.

use std::fmt::Debug;

/// How two values differ.
#[derive(Debug, Drop)]
pub struct Difference<T> {
    left: T,
    right: T,
}

/// What is wrong in a case of a table.
#[derive(Debug, Drop)]
pub struct InCase<'a, C, W> {
    case: &'a C,
    wrong: W,
}

/// The error of a condition that does not hold.
#[derive(Debug, Drop)]
pub struct NotSo;

/// Whether both values are the same.
pub fn same<T: PartialEq + Drop>(left: T, right: T) -> Result<(), Difference<T>> {
    if left == right {
        Ok(())
    } else {
        Err(Difference { left, right })
    }
}

/// Whether both values are the same, in this case of a table.
pub fn same_in<C, T: PartialEq + Drop>(
    case: &C,
    left: T,
    right: T,
) -> Result<(), InCase<C, Difference<T>>> {
    same(left, right).map_err(|wrong| InCase { case, wrong })
}

/// Whether this holds in this case of a table.
pub fn holds_in<C>(case: &C, holds: bool) -> Result<(), InCase<C, NotSo>> {
    if holds {
        Ok(())
    } else {
        Err(InCase { case, wrong: NotSo })
    }
}
