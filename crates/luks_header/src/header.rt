//! Which header an image has.

ghost use Rattle.std.specs.Prelude.{◌≡◌, ◌<◌, ◌≤◌, Bool, Some, None, Ok, Err, IfOk, IfErr, IfSome};
ghost use Rattle.std.specs.Prelude.{[], length, take, true, false};
ghost use Rattle.luks_io.specs.Devices.{ConsumedExactly, IfKnown};
ghost use Rattle.luks_io.specs.Counts.{Reads};
ghost use Rattle.luks_format.specs.Area.{is_read_fault, max_loaded_len};
ghost use Rattle.luks_format.specs.Header1.{is_luks1};
ghost use Rattle.luks_format.specs.ReadLen2.{IsNextEnd};
ghost use Rattle.luks_format.specs.Search2.{IsSearchOf};
ghost use Rattle.luks_header.specs.Header.{HasNoHeader, ReadsNoHeader, bounds2_of};
ghost use Rattle.luks_header.specs.Header.{header_read_len, detached_of, falls_short, header_of};
ghost use Rattle.luks_header.specs.Header.{probe_len};

use luks_format::area::HeaderArea;
pub use luks_format::binary_header2::{Header2, HeaderRole, PairFinding};
use luks_format::fault::HeaderFault;
use luks_format::header::{HEADER1_LEN, is_header1};
pub use luks_format::header::{Header1, SlotState, StoredSlot};
use luks_format::header2_search::{Search, header2, next_end2};
use luks_io::source::Source;
pub use luks2_json::tree::Metadata;
pub use luks2_metadata::bounds::Bounds;
use std::alloc::Global;

/// A header, by the version of its format.
#[derive(Drop)]
pub enum Header {
    /// LUKS1.
    V1(Header1),
    /// LUKS2: the binary header, and the metadata of its JSON area.
    V2(Header2, Metadata),
}

impl Header {
    /// Marks a header as detached: it is in another file than the payload. The payload may start at
    /// any multiple of 512 bytes in its own image, and the key areas may extend past that offset.
    /// Nothing else changes, and this allocates nothing.
    #[tactic(auto, unfolding(crate::specs::Header::detached_of))]
    pub fn detach(self) -> Header
        ensures { result ≡ detached_of self }
    {
        let detached = true;
        match self {
            Header::V1(header) => Header::V1(Header1 { detached, ..header }),
            Header::V2(header, metadata) => Header::V2(Header2 { detached, ..header }, metadata),
        }
    }
}

/// The bounds that a LUKS2 header sets for key material and for the payload: where both headers
/// end, and whether it is detached. This allocates nothing.
#[tactic(auto, unfolding(crate::specs::Header::bounds2_of))]
pub fn bounds(header: &Header2) -> Bounds
    ensures { result ≡ bounds2_of header.now }
{
    Bounds {
        end: header.end(),
        detached: header.detached,
    }
}

/// The header of an image with these bytes (LUKS1 On-Disk Format Specification 1.2.3; LUKS2 On-Disk
/// Format Specification 1.1, section 2).
///
/// # Errors
///
/// [`HeaderFault::NotLuks`] for an image that has neither a LUKS1 header nor a valid LUKS2 header,
/// [`HeaderFault::Cut`] for one that starts as LUKS1 and is shorter than the header,
/// [`HeaderFault::Json`] for a LUKS2 header whose JSON area cannot be read, and
/// [`HeaderFault::Memory`] if memory ran out.
pub fn header_of_bytes(alloc: Global, bytes: &[u8]) -> Result<Header, HeaderFault>
    ensures ok { IfOk result (λ header. header_of bytes.now ≡ Ok header) }
    ensures none { IfErr result (HasNoHeader bytes.now) }
{
    header_found(alloc, bytes, Search::new())
}

// The same, if the search for a LUKS2 header came so far in these bytes.
#[tactic(auto, unfolding(crate::specs::Header::header_of))]
fn header_found(alloc: Global, bytes: &[u8], search: Search) -> Result<Header, HeaderFault>
    requires { IsSearchOf bytes.now search }
    ensures ok { IfOk result (λ header. header_of bytes.now ≡ Ok header) }
    ensures none { IfErr result (HasNoHeader bytes.now) }
{
    if is_header1(bytes) {
        if bytes.len() < HEADER1_LEN {
            return Err(HeaderFault::Cut);
        }
        return Ok(Header::V1(Header1::from_bytes(&bytes[..HEADER1_LEN])));
    }
    let Some(header) = header2(bytes, search) else {
        return Err(HeaderFault::NotLuks);
    };
    let metadata = Metadata::read(alloc, header.json_text(bytes))?;
    Ok(Header::V2(header, metadata))
}

// How far to load next an image that starts with these bytes: past them, unless all bytes that are
// read for its header are loaded.
fn next_end(bytes: &[u8], search: &mut Search) -> usize
    requires { IsSearchOf bytes.now search.old }
    ensures next { IsNextEnd probe_len bytes.now result }
    ensures least { length bytes.now < result → 592 ≤ result }
    ensures searched { IsSearchOf bytes.now search.new }
{
    if bytes.len() < HEADER1_LEN || is_header1(bytes) {
        return HEADER1_LEN;
    }
    next_end2(bytes, search)
}

// How far to load an image next, if bytes that are read for its header are missing and EOF was not
// hit.
fn missing_end(area: &HeaderArea, search: &mut Search) -> Option<usize>
    requires { IsSearchOf area.now.bytes search.old }
    ensures live { IfSome result (λ _. area.now.ended ≡ false) }
    ensures some { IfSome result (λ end. IsNextEnd probe_len area.now.bytes end
        × (length area.now.bytes < end) × (592 ≤ end) × (end ≤ max_loaded_len)) }
    ensures none { result ≡ None → area.now.ended ≡ false
        → probe_len area.now.bytes ≤ length area.now.bytes }
    ensures searched { IsSearchOf area.now.bytes search.new }
{
    if area.has_ended() {
        return None;
    }
    let bytes = area.as_slice();
    let end = next_end(bytes, search);
    if bytes.len() < end { Some(end) } else { None }
}

/// Reads the header at the start of an image, and returns it with the bytes that were read. It
/// reads no more than it has to: 592 bytes for LUKS1, or all of a shorter image; for LUKS2 both
/// headers, or, if the first is not valid, as much as finding the second requires (LUKS1 On-Disk
/// Format Specification 1.2.3; LUKS2 On-Disk Format Specification 1.1, section 2).
///
/// # Errors
///
/// [`HeaderFault::NotLuks`] for an image that has neither a LUKS1 header nor a valid LUKS2 header,
/// [`HeaderFault::Cut`] for one that starts as LUKS1 and is shorter than the header,
/// [`HeaderFault::Json`] for a LUKS2 header whose JSON area cannot be read, [`HeaderFault::Read`]
/// if a read failed, and [`HeaderFault::Memory`] if memory ran out.
pub fn read_header<S: Source>(
    alloc: Global,
    source: &mut S,
) -> Result<(Header, HeaderArea), HeaderFault>
    ensures consumed { IfOk result (λ read. IfKnown (S.to_come source.old) (λ image.
        (header_of image ≡ Ok read.0) × (read.1.bytes ≡ take (header_read_len image) image)
        × ConsumedExactly image (S.to_come source.new) (header_read_len image))) }
    ensures no_header { IfErr result (λ fault. IfKnown (S.to_come source.old) (λ image.
        ReadsNoHeader image (S.to_come source.new) (S.counts source.old).ends
        (S.counts source.new).ends fault)) }
    ensures memory { IfKnown (S.to_come source.old) (λ image. is_luks1 image ≡ true
        → result ≡ Err HeaderFault.Memory → source.new ≡ source.old) }

    // Whether or not the source knows its bytes:
    ensures of_area { IfOk result (λ read. header_of read.1.bytes ≡ Ok read.0) }
    ensures whole_area { IfOk result (λ read. length read.1.bytes ≡ header_read_len read.1.bytes) }
    ensures reads { (ended : Bool)
        × Reads (is_read_fault result) ended (S.counts source.old) (S.counts source.new)
        × IfOk result (λ read. read.1.ended ≡ ended) }
    ensures ended { IfOk result (λ read. (read.1.ended ≡ falls_short read.1.bytes)
        × (read.1.ended ≡ true
        → IfKnown (S.to_come source.old) (λ _. S.to_come source.new ≡ Some []))) }
{
    let mut area = HeaderArea::new(alloc);
    let mut search = Search::new();
    while let Some(end) = missing_end(&area, &mut search) {
        area.extend_to(source, end)?;
    }
    let header = header_found(alloc, area.as_slice(), search)?;
    Ok((header, area))
}
