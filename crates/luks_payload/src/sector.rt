//! The sectors of a payload: their number, their data unit numbers, and how the payload ends.

ghost use Rattle.std.specs.Prelude.{◌≡◌, ◌+◌, ◌*◌, ◌<◌};
ghost use Rattle.luks_payload.specs.PumpEffects.{max_sectors};
ghost use Rattle.luks_payload.specs.Plain.{ending_of_len, sector_len, unit_number};

use crate::fault::PayloadFault;
use crate::state::Step;
use luks_format::segment::Segment;

/// The largest number of sectors that are forwarded: those of a payload of fixed size, or otherwise
/// 2^64 - 1.
pub(crate) fn max_sectors(segment: &Segment) -> u64
    ensures { result ≡ max_sectors segment.now }
{
    match segment.size {
        Some(size) => size / segment.sector_size.bytes() as u64,
        None => u64::MAX,
    }
}

/// The data unit number of a sector. LUKS counts in units of 512 bytes, and wraps at 2^64.
pub fn unit_number(segment: &Segment, sector: u64) -> u64
    ensures { result ≡ unit_number segment.now sector }
{
    let units = (segment.sector_size.bytes() / 512) as u64;
    segment.iv_tweak.wrapping_add(sector.wrapping_mul(units))
}

/// How the payload ends if the image has `sectors` sectors of it and `more` bytes after them.
pub(crate) fn ending(segment: &Segment, sectors: u64, more: usize) -> Result<Step, PayloadFault>
    requires below { sectors < max_sectors segment.now }
    requires torn { more < sector_len segment.now }
    ensures { result ≡ ending_of_len segment.now.size (sector_len segment.now)
        (sectors * sector_len segment.now + more) }
{
    let sector = segment.sector_size.bytes() as u64;
    match segment.size {
        Some(size) => Err(PayloadFault::Short(size - sectors * sector - more as u64)),
        None if more == 0 => Ok(Step::End),
        None => Err(PayloadFault::Tail(more as u64)),
    }
}
