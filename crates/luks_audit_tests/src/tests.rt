//! Tests, by what is tested.

mod fixture;
mod judged;
mod runs;
mod weak;
