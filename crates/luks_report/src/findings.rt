//! The findings in a header.

ghost use Rattle.std.specs.Prelude.{◌≡◌, ◌++◌, IfOk, OnOk, flat_map, string_bytes};
ghost use Rattle.luks_header.specs.HeaderSegment.{segment_of};
ghost use Rattle.luks_report.specs.Findings.{do_overlap, finding_line, finding_list};
ghost use Rattle.luks_report.specs.Findings.{finding_text, findings_of, is_finding};
ghost use Rattle.luks_report.specs.Findings.{name_findings, overlap, overlaps, pair_findings};
ghost use Rattle.luks_report.specs.Findings.{pair_text, segment_findings, slot_findings};

use luks_header::header::{Header, PairFinding};
use luks_header::header_segment::segment;
use luks_header::header_slots::{Slot, Verdict, has_name_out_of_range, slots};
use luks_header::refusal::{SegmentFault, SkipReason};
use std::alloc::{AllocError, Global};

/// What is wrong with a header, or cannot be read by luksrd.
#[derive(Clone, Copy, PartialEq, Eq, Debug)]
pub enum Finding {
    /// The two headers of LUKS2 differ, or one of them is not valid.
    Pair(PairFinding),
    /// The name of a key slot is out of range.
    NameOutOfRange,
    /// The segment is refused.
    Segment(SegmentFault),
    /// The key slot of this number is skipped.
    Slot(u8, SkipReason),
    /// The areas of the key slots of these two numbers overlap.
    Overlap(u8, u8),
}

// The finding about the two headers, as it is printed.
fn pair_text(finding: PairFinding) -> &'static str
    ensures { result.now ≡ pair_text finding }
{
    match finding {
        PairFinding::PrimaryNotValid => "primary header: not valid",
        PairFinding::SecondaryNotValid => "secondary header: not valid",
        PairFinding::SequencesDiffer => "headers: sequence numbers differ",
    }
}

impl Finding {
    /// Adds the finding to a text, as it is printed.
    pub fn push_to(self, text: &mut String) -> Result<(), AllocError>
        ensures { OnOk result
            (string_bytes text.new ≡ string_bytes text.old ++ finding_text self) }
    {
        match self {
            Finding::Pair(finding) => text.push_str(pair_text(finding)),
            Finding::NameOutOfRange => text.push_str("keyslots: name out of range"),
            Finding::Segment(fault) => write!(text, "segment: {}", fault.text()),
            Finding::Slot(number, reason) => write!(text, "slot {number}: {}", reason.text()),
            Finding::Overlap(i, j) => write!(text, "slots {i} and {j}: areas overlap"),
        }
    }
}

/// The findings, each on a line of its own. The number of iterations has no limit here.
#[tactic(auto, unfolding(crate::specs::Findings::findings_of))]
pub fn findings(alloc: Global, header: &Header) -> Result<String, AllocError>
    ensures { IfOk result (λ lines. string_bytes lines ≡ findings_of header.now) }
{
    let found = finding_list(alloc, header)?;
    let mut lines = String::new(alloc);
    for finding in &found {
        push_line(&mut lines, *finding)?;
    }
    Ok(lines)
}

// Adds the line of a finding.
fn push_line(lines: &mut String, finding: Finding) -> Result<(), AllocError>
    ensures { OnOk result
        (string_bytes lines.new ≡ string_bytes lines.old ++ finding_line finding) }
{
    finding.push_to(lines)?;
    lines.push('\n')
}

/// The findings, in their order. The number of iterations has no limit here.
#[tactic(auto, unfolding(crate::specs::Findings::finding_list))]
pub fn finding_list(alloc: Global, header: &Header) -> Result<Vec<Finding>, AllocError>
    ensures { IfOk result (λ found. found.items ≡ finding_list header.now) }
{
    let verdicts = slots(alloc, header, None)?;
    let mut found = Vec::new(alloc);
    push_pair(&mut found, header)?;
    push_names(&mut found, header)?;
    push_segment(&mut found, header)?;
    push_slots(&mut found, verdicts.as_slice())?;
    push_overlaps(&mut found, verdicts.as_slice())?;
    Ok(found)
}

// Adds the finding about the two headers of LUKS2.
fn push_pair(found: &mut Vec<Finding>, header: &Header) -> Result<(), AllocError>
    ensures { OnOk result (found.new.items ≡ found.old.items ++ pair_findings header.now) }
{
    match header {
        Header::V1(_) => Ok(()),
        Header::V2(header, _) => match header.finding {
            None => Ok(()),
            Some(finding) => Ok(found.push(Finding::Pair(finding))?),
        },
    }
}

// Adds the finding about the names of key slots.
fn push_names(found: &mut Vec<Finding>, header: &Header) -> Result<(), AllocError>
    ensures { OnOk result (found.new.items ≡ found.old.items ++ name_findings header.now) }
{
    if has_name_out_of_range(header) {
        found.push(Finding::NameOutOfRange)?;
    }
    Ok(())
}

// Adds the finding about the segment.
fn push_segment(found: &mut Vec<Finding>, header: &Header) -> Result<(), AllocError>
    ensures { OnOk result
        (found.new.items ≡ found.old.items ++ segment_findings (segment_of header.now)) }
{
    match segment(header) {
        Ok(_) => Ok(()),
        Err(fault) => Ok(found.push(Finding::Segment(fault))?),
    }
}

// Adds the findings about key slots.
fn push_slots(found: &mut Vec<Finding>, verdicts: &[(u8, Verdict)]) -> Result<(), AllocError>
    ensures { OnOk result
        (found.new.items ≡ found.old.items ++ flat_map slot_findings verdicts.now) }
{
    for verdict in verdicts {
        push_slot(found, verdict)?;
    }
    Ok(())
}

// Adds the finding about a key slot.
fn push_slot(found: &mut Vec<Finding>, verdict: &(u8, Verdict)) -> Result<(), AllocError>
    ensures { OnOk result (found.new.items ≡ found.old.items ++ slot_findings verdict.now) }
{
    match verdict {
        (number, Verdict::Skipped(reason)) if is_finding(*reason) => {
            Ok(found.push(Finding::Slot(*number, *reason))?)
        }
        _ => Ok(()),
    }
}

// Whether a key slot that is skipped for this reason is a finding.
fn is_finding(reason: SkipReason) -> bool
    ensures { result ≡ is_finding reason }
{
    !matches!(reason, SkipReason::Argon2i | SkipReason::Argon2id)
}

// Adds the findings about each two of these key slots.
#[tactic(auto, unfolding(crate::specs::Findings::overlaps))]
fn push_overlaps(found: &mut Vec<Finding>, verdicts: &[(u8, Verdict)]) -> Result<(), AllocError>
    ensures { OnOk result (found.new.items ≡ found.old.items ++ overlaps verdicts.now) }
{
    for (index, first) in verdicts.iter().enumerate() {
        push_overlaps_with(found, first, &verdicts[index + 1..])?;
    }
    Ok(())
}

// Adds the findings about a key slot and each of the others.
fn push_overlaps_with(
    found: &mut Vec<Finding>,
    first: &(u8, Verdict),
    rest: &[(u8, Verdict)],
) -> Result<(), AllocError>
    ensures { OnOk result
        (found.new.items ≡ found.old.items ++ flat_map (overlap first.now) rest.now) }
{
    for second in rest {
        push_overlap(found, first, second)?;
    }
    Ok(())
}

// Adds the finding about two key slots.
fn push_overlap(
    found: &mut Vec<Finding>,
    first: &(u8, Verdict),
    second: &(u8, Verdict),
) -> Result<(), AllocError>
    ensures { OnOk result
        (found.new.items ≡ found.old.items ++ overlap first.now second.now) }
{
    match (first, second) {
        ((i, Verdict::Usable(a)), (j, Verdict::Usable(b))) if do_overlap(a, b) => {
            Ok(found.push(Finding::Overlap(*i, *j))?)
        }
        _ => Ok(()),
    }
}

// Whether the areas of two key slots share a byte. Areas that only touch do not.
#[tactic(auto, unfolding(crate::specs::Findings::do_overlap))]
fn do_overlap(a: &Slot, b: &Slot) -> bool
    ensures { result ≡ do_overlap a.now b.now }
{
    let start = a.parts.area_offset.max(b.parts.area_offset);
    let a_end = a.parts.area_offset + a.key_material_len();
    let b_end = b.parts.area_offset + b.key_material_len();
    start < a_end.min(b_end)
}
