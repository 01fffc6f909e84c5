//! The line of the segment.

ghost use Rattle.std.specs.Prelude.{◌≡◌, ◌++◌, IfOk, OnOk, codes, string_bytes};
ghost use Rattle.luks_report.specs.Dump2.{segment_line, segment_text, size_text};
ghost use Rattle.luks_format.specs.SegmentFault.{fault_text};
ghost use Rattle.luks2_metadata.specs.Segment2.{segment2_of};

use crate::dump_line::push_field;
use luks_format::refusal::SegmentFault;
use luks_format::segment::Segment;
use luks_header::header::Bounds;
use luks2_json::tree::Metadata;
use luks2_metadata::luks2_segment::segment;
use std::alloc::{AllocError, Global};

/// Adds the line of the segment of a header with these bounds, or of its fault.
pub(super) fn push_segment(
    alloc: Global,
    lines: &mut String,
    metadata: &Metadata,
    bounds: Bounds,
) -> Result<(), AllocError>
    ensures { OnOk result (string_bytes lines.new
        ≡ string_bytes lines.old ++ segment_line (segment2_of metadata.now bounds)) }
{
    match segment(metadata, bounds) {
        Ok(segment) => {
            let text = describe(alloc, segment)?;
            push_field(lines, "Segment 0", text.as_str())
        }
        Err(fault) => {
            let text = describe_fault(alloc, fault)?;
            push_field(lines, "Segment", text.as_str())
        }
    }
}

// The text of a segment.
#[tactic(auto, unfolding(crate::specs::Dump2::segment_text))]
fn describe(alloc: Global, segment: Segment) -> Result<String, AllocError>
    ensures { IfOk result (λ text. string_bytes text ≡ segment_text segment) }
{
    let offset = segment.offset;
    let size = size_text(alloc, segment.size)?;
    let iv = segment.iv_tweak;
    let mode = segment.mode.name();
    let sector = segment.sector_size.bytes();
    let mut text = format!(in alloc; "offset={offset} size={size} iv={iv}")?;
    write!(text, " encryption=aes-{mode} sector={sector}")?;
    Ok(text)
}

// The length of a segment in bytes, or `dynamic` if it is not fixed.
fn size_text(alloc: Global, size: Option<u64>) -> Result<String, AllocError>
    ensures { IfOk result (λ text. string_bytes text ≡ size_text size) }
{
    match size {
        Some(bytes) => bytes.to_string(alloc),
        None => String::from_str(alloc, "dynamic"),
    }
}

// The text of a fault.
fn describe_fault(alloc: Global, fault: SegmentFault) -> Result<String, AllocError>
    ensures { IfOk result (λ text. string_bytes text ≡ codes "REFUSED " ++ fault_text fault) }
{
    let fault = fault.text();
    format!(in alloc; "REFUSED {fault}")
}
