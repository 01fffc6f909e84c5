//! Where a header is stored, and how it is read from there.

ghost use Rattle.std.specs.Prelude.{◌≡◌, Bool, Ok, IfOk, IfErr, length, take};
ghost use Rattle.luks_io.specs.Counts.{Reads};
ghost use Rattle.luks_io.specs.Devices.{ConsumedExactly, IfKnown};
ghost use Rattle.luks_format.specs.Area.{is_read_fault};
ghost use Rattle.luks_header.specs.Header.{ReadsNoHeader, header_read_len};
ghost use Rattle.luks_open.specs.Location.{LoadedFrom, reader_for};

use luks_header::area::HeaderArea;
use luks_header::fault::HeaderFault;
use luks_header::header::{Header, read_header};
use luks_io::source::Source;
use std::alloc::Global;

/// The location of a header.
#[derive(Clone, Copy)]
pub enum HeaderLocation {
    /// At the start of the payload's image.
    Attached,
    /// Detached, in a file of its own.
    Detached,
}

/// Reads the header at the start of an image, or a detached one, with all bytes that were consumed.
pub fn read_header_at<S: Source>(
    alloc: Global,
    location: HeaderLocation,
    source: &mut S,
) -> Result<(Header, HeaderArea), HeaderFault>
    ensures consumed { IfOk result (λ read. IfKnown (S.to_come source.old) (λ known.
        (reader_for location known ≡ Ok read.0)
        × (read.1.bytes ≡ take (header_read_len known) known)
        × ConsumedExactly known (S.to_come source.new) (header_read_len known))) }
    ensures no_header { IfErr result (λ fault. IfKnown (S.to_come source.old) (λ known.
        ReadsNoHeader known (S.to_come source.new) (S.counts source.old).ends
        (S.counts source.new).ends fault)) }
    ensures of_area { IfOk result (λ read. reader_for location read.1.bytes ≡ Ok read.0) }
    ensures whole_area { IfOk result (λ read. length read.1.bytes ≡ header_read_len read.1.bytes) }
    ensures reads { (ended : Bool)
        × Reads (is_read_fault result) ended (S.counts source.old) (S.counts source.new) }
    ensures loaded { IfOk result (λ read. LoadedFrom read.1 (S.to_come source.old)
        (S.to_come source.new) (S.counts source.old) (S.counts source.new)) }
{
    let (header, area) = read_header(alloc, source)?;
    match location {
        HeaderLocation::Attached => Ok((header, area)),
        HeaderLocation::Detached => Ok((header.detach(), area)),
    }
}
