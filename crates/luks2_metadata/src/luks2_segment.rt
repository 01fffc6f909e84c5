//! Where the payload is, or why it cannot be read.

ghost use Rattle.std.specs.Prelude.{◌≡◌, option_map, true};
ghost use Rattle.std.specs.Option.{option_map_or};
ghost use Rattle.luks_format.specs.Table.{first_match};
ghost use Rattle.luks2_metadata.specs.Segment2.{has_requirement, has_segment_members};
ghost use Rattle.luks2_metadata.specs.Segment2.{is_empty_array, is_segment, size_is_wrong};
ghost use Rattle.luks2_metadata.specs.Segment2.{mode2_of};
ghost use Rattle.luks2_metadata.specs.Segment2.{payload2_start, payload_mode2_of, requires_nothing};
ghost use Rattle.luks2_metadata.specs.Segment2.{sector_size_of, segment2_of};
ghost use Rattle.luks2_metadata.specs.Segment2.{segment_faults, segment_of_members, size_member};
ghost use Rattle.luks2_metadata.specs.Segment2.{offset_is_wrong, the_segment};
ghost use Rattle.serde_json.specs.Find.{get};
ghost use Rattle.serde_json.specs.View.{view as data_of};

use crate::bounds::Bounds;
use luks_cipher::Mode;
use luks_format::refusal::SegmentFault;
use luks_format::sector_size::SectorSize;
use luks_format::segment::Segment;
use luks2_json::encryption::encryption_mode;
use luks2_json::member::{decimal_member, integer_member, is_type, string_is, string_member};
use luks2_json::tree::Metadata;
use serde_json::Value;

// The value is an empty array.
fn is_empty_array(value: &Value) -> bool
    ensures { result ≡ is_empty_array (data_of value.now) }
{
    match value.as_array() {
        Some(values) => values.is_empty(),
        None => false,
    }
}

// The member with this name is missing or an empty array.
fn has_none_of(name: &str, value: &Value) -> bool
    ensures { result ≡ option_map_or is_empty_array (get name.now (data_of value.now)) true }
{
    match value.get(name) {
        Some(values) => is_empty_array(values),
        None => true,
    }
}

// These requirements require nothing.
#[tactic(auto, unfolding(crate::specs::Segment2::requires_nothing))]
fn requires_nothing(requirements: &Value) -> bool
    ensures { result ≡ requires_nothing (data_of requirements.now) }
{
    is_empty_array(requirements)
        || requirements.is_object() && has_none_of("mandatory", requirements)
}

// The configuration requires something of a program that reads the volume.
#[tactic(auto, unfolding(crate::specs::Segment2::has_requirement))]
fn has_requirement(tree: &Value) -> bool
    ensures { result ≡ has_requirement (data_of tree.now) }
{
    let Some(config) = tree.get("config") else {
        return false;
    };
    match config.get("requirements") {
        Some(requirements) => !requires_nothing(requirements),
        None => false,
    }
}

// The segment, if there is exactly one and it is named 0.
#[tactic(auto, unfolding(crate::specs::Segment2::the_segment))]
fn the_segment(tree: &Value) -> Option<&Value>
    ensures { option_map (λ value. data_of value.now) result ≡ the_segment (data_of tree.now) }
{
    let segments = tree.get("segments")?;
    if segments.as_object()?.len() == 1 {
        segments.get("0")
    } else {
        None
    }
}

// The segment's length in bytes, or `Some(None)` if it extends to the image's end.
#[tactic(auto, unfolding(crate::specs::Segment2::size_member))]
fn size(segment: &Value) -> Option<Option<u64>>
    ensures { result ≡ size_member (data_of segment.now) }
{
    if string_is(segment, "size", "dynamic") {
        return Some(None);
    }
    Some(Some(decimal_member(segment, "size")?))
}

// The segment's sector size.
#[tactic(auto, unfolding(crate::specs::Segment2::sector_size_of))]
fn sector_size(segment: &Value) -> Option<SectorSize>
    ensures { result ≡ sector_size_of (data_of segment.now) }
{
    SectorSize::with_bytes(integer_member(segment, "sector_size")?)
}

// The mode in which the segment's sectors are encrypted.
#[tactic(auto, unfolding(crate::specs::Segment2::mode2_of))]
fn mode(segment: &Value) -> Option<Mode>
    ensures { result ≡ mode2_of (data_of segment.now) }
{
    encryption_mode(string_member(segment, "encryption")?)
}

// Every member of a segment of type crypt is present and of the right type.
#[tactic(auto, unfolding(crate::specs::Segment2::has_segment_members))]
fn has_members(segment: &Value) -> bool
    ensures { result ≡ has_segment_members (data_of segment.now) }
{
    decimal_member(segment, "offset").is_some()
        && size(segment).is_some()
        && decimal_member(segment, "iv_tweak").is_some()
        && string_member(segment, "encryption").is_some()
        && integer_member(segment, "sector_size").is_some()
}

/// The segment's type is a string, and a segment of type crypt has its members.
#[tactic(auto, unfolding(crate::specs::Segment2::is_segment))]
pub fn is_segment(segment: &Value) -> bool
    ensures { result ≡ is_segment (data_of segment.now) }
{
    string_member(segment, "type").is_some() && (!is_type(segment, "crypt") || has_members(segment))
}

// The segment has no offset, or starts inside an attached header or not at a multiple of 512 bytes.
#[tactic(auto, unfolding(crate::specs::Segment2::offset_is_wrong))]
fn offset_is_wrong(bounds: Bounds, offset: Option<u64>) -> bool
    ensures { result ≡ offset_is_wrong bounds offset }
{
    match offset {
        Some(offset) => !bounds.detached && offset < bounds.end || offset % 512 != 0,
        None => true,
    }
}

// The segment's length or sector size is missing, or its length is fixed and not a multiple of the
// sector size.
#[tactic(auto, unfolding(crate::specs::Segment2::size_is_wrong))]
fn size_is_wrong(size: Option<Option<u64>>, sector_size: Option<SectorSize>) -> bool
    ensures { result ≡ size_is_wrong size sector_size }
{
    let (Some(size), Some(sector_size)) = (size, sector_size) else {
        return true;
    };
    match size {
        Some(bytes) => bytes % sector_size.bytes() as u64 != 0,
        None => false,
    }
}

// The first fault of a segment that exists.
fn fault(segment: &Value, bounds: Bounds) -> Option<SegmentFault>
    ensures { result ≡ first_match (segment_faults bounds (data_of segment.now)) }
{
    if !is_segment(segment) {
        Some(SegmentFault::Member)
    } else if !is_type(segment, "crypt") {
        Some(SegmentFault::Kind)
    } else if segment.get("integrity").is_some() {
        Some(SegmentFault::Integrity)
    } else if mode(segment).is_none() {
        Some(SegmentFault::Encryption)
    } else if sector_size(segment).is_none() {
        Some(SegmentFault::SectorSize)
    } else if offset_is_wrong(bounds, decimal_member(segment, "offset")) {
        Some(SegmentFault::Offset)
    } else if size_is_wrong(size(segment), sector_size(segment)) {
        Some(SegmentFault::Size)
    } else {
        None
    }
}

// The segment with the values of its members, if each can be read and is in range.
#[tactic(auto, unfolding(crate::specs::Segment2::segment_of_members))]
fn of_members(segment: &Value) -> Option<Segment>
    ensures { result ≡ segment_of_members (data_of segment.now) }
{
    Segment::from_parts(
        decimal_member(segment, "offset"),
        size(segment),
        decimal_member(segment, "iv_tweak"),
        sector_size(segment),
        mode(segment),
    )
}

// The segment of a tree, or its first fault.
#[tactic(auto, unfolding(crate::specs::Segment2::segment2_of, crate::specs::Segment2::fault2_of))]
fn segment_in(tree: &Value, bounds: Bounds) -> Result<Segment, SegmentFault>
    ensures { result ≡ segment2_of (data_of tree.now) bounds }
{
    if has_requirement(tree) {
        return Err(SegmentFault::Requirement);
    }
    let Some(segment) = the_segment(tree) else {
        return Err(SegmentFault::Segments);
    };
    Segment::unless_refused(fault(segment, bounds), of_members(segment))
}

/// The segment of a header with these bounds, or its first fault. This allocates nothing.
pub fn segment(metadata: &Metadata, bounds: Bounds) -> Result<Segment, SegmentFault>
    ensures { result ≡ segment2_of metadata.now bounds }
{
    segment_in(metadata.tree(), bounds)
}

/// What key slots are checked against of the payload.
#[derive(Clone, Copy)]
pub(crate) struct Payload {
    // Where it starts, if the header is attached and the segment is not refused.
    pub(crate) start: Option<u64>,
    // Its mode, if the segment is not refused.
    pub(crate) mode: Option<Mode>,
}

/// The payload of a header with these bounds.
#[tactic(auto, unfolding(crate::specs::Segment2::payload2_start, crate::specs::Segment2::payload_mode2_of))]
pub(crate) fn find_payload(tree: &Value, bounds: Bounds) -> Payload
    ensures start { result.start ≡ payload2_start (data_of tree.now) bounds }
    ensures mode { result.mode ≡ payload_mode2_of (data_of tree.now) bounds }
{
    match segment_in(tree, bounds) {
        Ok(segment) if bounds.detached => Payload {
            start: None,
            mode: Some(segment.mode),
        },
        Ok(segment) => Payload {
            start: Some(segment.offset),
            mode: Some(segment.mode),
        },
        Err(_) => Payload {
            start: None,
            mode: None,
        },
    }
}
