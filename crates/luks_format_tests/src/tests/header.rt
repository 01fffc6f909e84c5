//! What no clause says: that the definitions mean what both formats do, bound by bound and string
//! by string, and that calls succeed.

mod detached;
mod digests;
mod fixture;
mod generated;
mod header;
mod luks2;
mod validation;
