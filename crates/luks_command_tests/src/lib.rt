//! Tests of the commands, through public calls: of the arguments (`luks_args`, `luks_request`), of
//! what is printed (`luks_report`) and of whole runs (`luks_runs`, `luks_commands`).
//!
//! They are in a crate of their own, so that the crates below are not proved again with them.
#![tactic(auto)]

#[cfg(test)]
mod tests;
