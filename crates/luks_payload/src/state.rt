//! What a step did, and the state of a pump.

use crate::fault::PayloadFault;

/// What one step did.
#[derive(Clone, Copy, PartialEq, Eq, Debug)]
pub enum Step {
    /// The next sector was consumed, and its plaintext was written.
    Sector,
    /// The payload has ended without a fault, and all of it is written.
    End,
}

/// The state of a pump.
#[derive(Clone, Copy, PartialEq, Eq, Debug)]
pub enum State {
    /// Bytes of the image before the payload may remain.
    BeforePayload,
    /// The next byte is the payload's.
    InPayload,
    /// The payload has ended without a fault.
    Ended,
    /// This fault ended it.
    Faulted(PayloadFault),
}
