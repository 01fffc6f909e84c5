//! Tests of the audit, through public calls: of lines (`luks_audit`) and of whole runs
//! (`luks_audit_run`).
//!
//! They are in a crate of their own, so that the crates below are not proved again with them.
#![tactic(auto)]

#[cfg(test)]
mod tests;
