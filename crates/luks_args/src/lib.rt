//! The arguments of luksrd, and the command that they name.
#![tactic(auto)]

mod grammar;
mod options;
pub mod planning;
