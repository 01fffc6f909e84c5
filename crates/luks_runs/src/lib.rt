//! The parts of runs: what a run is, the commands on headers and stripes, and writing the payload.
#![tactic(auto)]

pub mod headers;
pub mod stripes;
pub mod write_payload;
