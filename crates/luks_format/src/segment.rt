//! Where the payload is, and how it is divided into sectors.

ghost use Rattle.std.specs.Prelude.{◌≡◌, true};
ghost use Rattle.luks_format.specs.SectorSize.{has_whole_sectors};

use crate::refusal::SegmentFault;
use crate::sector_size::SectorSize;
use luks_cipher::Mode;

/// Where the payload is in the image, and how its sectors are numbered.
#[derive(Clone, Copy, Debug)]
pub struct Segment {
    /// The first byte of the payload.
    pub offset: u64,
    /// The length of the payload in bytes, or `None` if it goes to the image's end.
    pub size: Option<u64>,
    /// The unit number of the first sector.
    pub iv_tweak: u64,
    /// The length of a sector.
    pub sector_size: SectorSize,
    /// The mode in which sectors are encrypted.
    pub mode: Mode,
    ghost whole_sectors: { has_whole_sectors size sector_size ≡ true },
}

// The length is a multiple of the sectors' length, if it is fixed.
fn has_whole_sectors(size: Option<u64>, sector_size: SectorSize) -> bool
    ensures { result ≡ has_whole_sectors size sector_size }
{
    match size {
        Some(bytes) => bytes % sector_size.bytes() as u64 == 0,
        None => true,
    }
}

impl Segment {
    ghost use Rattle.std.specs.Prelude.{◌≡◌};
    ghost use Rattle.luks_format.specs.Segment.{refused_or, segment_from};

    /// The segment with the parts that were read, if each is present and in range. A length of
    /// `Some(None)` goes to the image's end.
    pub fn from_parts(
        offset: Option<u64>,
        size: Option<Option<u64>>,
        iv_tweak: Option<u64>,
        sector_size: Option<SectorSize>,
        mode: Option<Mode>,
    ) -> Option<Segment>
        ensures { result ≡ segment_from offset size iv_tweak sector_size mode }
    {
        let offset = offset?;
        let size = size?;
        let iv_tweak = iv_tweak?;
        let sector_size = sector_size?;
        let mode = mode?;
        if !has_whole_sectors(size, sector_size) {
            return None;
        }
        Some(Segment {
            offset,
            size,
            iv_tweak,
            sector_size,
            mode,
        })
    }

    /// This segment, or this fault.
    ///
    /// # Errors
    ///
    /// The fault; without one, `Member` if there is no segment.
    pub fn unless_refused(
        fault: Option<SegmentFault>,
        segment: Option<Segment>,
    ) -> Result<Segment, SegmentFault>
        ensures { result ≡ refused_or fault segment }
    {
        match fault {
            Some(fault) => Err(fault),
            None => segment.ok_or(SegmentFault::Member),
        }
    }
}
