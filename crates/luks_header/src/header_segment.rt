//! Where a volume's payload is.

ghost use Rattle.std.specs.Prelude.{◌≡◌};
ghost use Rattle.luks_header.specs.HeaderSegment.{segment_of};

use crate::header::{Header, bounds};
use luks_format::refusal::SegmentFault;
use luks_format::segment::Segment;

/// The segment with a volume's payload (LUKS1 On-Disk Format Specification 1.2.3; LUKS2 On-Disk
/// Format Specification 1.1, section 3, the segments object). This allocates nothing.
///
/// # Errors
///
/// The first [`SegmentFault`] that applies, if luksrd cannot read the payload.
#[tactic(auto, unfolding(crate::specs::HeaderSegment::segment_of))]
pub fn segment(header: &Header) -> Result<Segment, SegmentFault>
    ensures { result ≡ segment_of header.now }
{
    match header {
        Header::V1(header) => luks_format::validation::segment(header),
        Header::V2(header, metadata) => luks2_metadata::luks2_segment::segment(
            metadata,
            bounds(header),
        ),
    }
}
