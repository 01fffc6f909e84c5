//! What the tests of several crates share: comparisons, changes of bytes, pseudorandom numbers,
//! devices whose calls fail, memory that is used up, headers, and parameters of sealed volumes that
//! are in their ranges.
//!
//! Only tests use it.
#![tactic(auto)]

pub mod bytes;
pub mod devices;
pub mod header1;
pub mod header2;
pub mod numbers;
pub mod parameters;
pub mod same;
pub mod scarce;
