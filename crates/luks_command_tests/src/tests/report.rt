//! What no clause says: that calls succeed, and what is printed of headers that the tests make.

mod check;
mod dump2;
mod fixture;
