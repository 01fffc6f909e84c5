//! The bounds that a header sets for key material and for the payload.

/// Where a header ends, and whether it is detached. Key material starts at that end or after it.
#[derive(Clone, Copy, PartialEq, Eq, Debug)]
pub struct Bounds {
    /// The first byte after both headers of the image.
    pub end: u64,
    /// Whether the header is detached.
    pub detached: bool,
}
