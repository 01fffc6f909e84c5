//! What no clause says: that calls succeed, headers whose checksums another program computed, and
//! sources that give few bytes at a time or fail.

mod choosing;
mod failing;
mod fixture;
