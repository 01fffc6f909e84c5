//! The payload of a volume: its stored sectors, one after the other, as plaintext.
//!
//! A [`Pump`](pump::Pump) reads an image once, from where it was read so far to the payload's end,
//! and writes the plaintext of each sector as it comes.
#![tactic(auto)]

mod decryption;
pub mod fault;
mod forwarding;
pub mod pump;
pub mod sector;
pub mod state;
