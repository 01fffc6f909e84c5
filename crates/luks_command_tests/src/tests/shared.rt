//! What tests of several modules share: texts of several parts.

use std::process::Abort;

/// These parts, joined.
pub fn joined(rt: &(impl Abort + AllocGlobal), parts: &[&str]) -> String {
    parts.concat(rt.alloc()).expect(rt, "memory")
}
