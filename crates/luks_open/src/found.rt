//! Finding a volume: its header, its segment, and the key slots to be tried.

ghost use Rattle.std.specs.Prelude.{◌≡◌, Bool, IfOk, IfErr, is_none, true};
ghost use Rattle.luks_io.specs.Counts.{Reads};
ghost use Rattle.luks_io.specs.Devices.{IfKnown};
ghost use Rattle.luks_open.specs.Fault.{has_fault, is_read_failure};
ghost use Rattle.luks_open.specs.Location.{reader_for};
ghost use Rattle.luks_open.specs.Reasons.{FaultWithoutArgon2};
ghost use Rattle.luks_open.specs.Volume.{FindsNoVolume, FindsVolume, NoPassphraseFault};

use crate::allowed::AllowedSlots;
use crate::fault::VolumeFault;
use crate::location::{HeaderLocation, read_header_at};
use crate::order::Order;
use crate::ordering::order_within;
use luks_header::area::HeaderArea;
use luks_header::header::Header;
use luks_header::header_segment::segment;
use luks_header::segment::Segment;
use luks_io::source::Source;
use std::alloc::Global;

/// A volume whose header was read, with its segment and the key slots to be tried.
#[derive(Drop)]
pub struct FoundVolume {
    /// Its header.
    pub header: Header,
    /// All bytes that were consumed: the first ones of the image, or of the file with the detached
    /// header.
    pub area: HeaderArea,
    /// Where its payload is.
    pub segment: Segment,
    /// The key slots to be tried, in order, and those that are skipped.
    pub order: Order,
}

/// Reads an attached or a detached header, and finds its segment and its key slots to be tried.
/// `image` is the image with an attached header, or the file of a detached one.
pub fn find_volume<I: Source>(
    alloc: Global,
    location: HeaderLocation,
    slots: AllowedSlots,
    image: &mut I,
) -> Result<FoundVolume, VolumeFault>
    ensures found { IfOk result (λ volume. FindsVolume location slots volume
        (I.to_come image.old) (I.to_come image.new) (I.counts image.old) (I.counts image.new)) }
    ensures only { NoPassphraseFault result }
    ensures without_argon2 { is_none slots.limits.argon2 ≡ true
        → IfErr result FaultWithoutArgon2 }
    ensures err { IfErr result (λ fault. IfKnown (I.to_come image.old)
        (λ known. FindsNoVolume (reader_for location) slots known (I.to_come image.new) fault)) }
    ensures reads { (ended : Bool) × Reads (has_fault is_read_failure result) ended
        (I.counts image.old) (I.counts image.new) }
{
    let (header, area) = read_header_at(alloc, location, image)?;
    let segment = segment(&header)?;
    let order = order_within(alloc, &header, slots.named, slots.limits)?;
    Ok(FoundVolume {
        header,
        area,
        segment,
        order,
    })
}
