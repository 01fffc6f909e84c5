//! A request to luksrd: a command with its options, and the numbers among them.
#![tactic(auto)]

pub mod command;
pub mod number;
