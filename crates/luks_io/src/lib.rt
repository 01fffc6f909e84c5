//! Sources of bytes and sinks for them, whose contracts say which bytes went where and which calls
//! failed.
//!
//! A [`Source`](source::Source) gives the next bytes, a [`Sink`](sink::Sink) appends them. Each
//! counts the calls that failed, so that a caller can say "a failure was reported exactly if one
//! occurred", and the calls that no caller needs, so that it can say "there was none".
#![tactic(auto)]

pub mod adapters;
pub mod counts;
pub mod memory;
pub mod read_ahead;
pub mod sink;
pub mod source;
pub mod transform;

/// A device did not do what was requested. The call that returns this is counted as a failure.
#[derive(Clone, Copy, Debug, PartialEq, Eq)]
pub struct DeviceFault;
