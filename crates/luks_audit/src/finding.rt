//! Findings as they are listed: what is wrong, and apart from that what luksrd does not support.

ghost use Rattle.std.specs.Prelude.{◌≡◌, ◌++◌, IfOk, OnOk, flat_map};
ghost use Rattle.luks_audit.specs.Finding.{finding_values, is_unsupported, is_unsupported1};
ghost use Rattle.luks_audit.specs.Finding.{is_unsupported2, is_unsupported_segment};
ghost use Rattle.luks_audit.specs.Finding.{is_unsupported_slot, unsupported, unsupported_values};
ghost use Rattle.luks_audit.specs.Finding.{wrong};
ghost use Rattle.luks_report.specs.Findings.{finding_text};
ghost use Rattle.serde_json.specs.Data.{string};
ghost use Rattle.serde_json.specs.View.{view as data_of};

use crate::shape::{has_integrity, has_segment, has_slot_type, names_requirements};
use crate::tree::{Array, Tree};
use luks_header::header::Header;
use luks_header::refusal::{SegmentFault, SkipReason};
use luks_report::findings::Finding;
use serde_json::Value;
use std::alloc::{AllocError, Global};

// Whether a finding in LUKS1 says what luksrd does not support.
fn is_unsupported1(finding: Finding) -> bool
    ensures { result ≡ is_unsupported1 finding }
{
    matches!(
        finding,
        Finding::Segment(SegmentFault::Encryption | SegmentFault::Hash)
    )
}

// Whether a segment of LUKS2 is refused for what luksrd does not support, and is not damaged.
fn is_unsupported_segment(tree: &Value, fault: SegmentFault) -> bool
    ensures { result ≡ is_unsupported_segment (data_of tree.now) fault }
{
    match fault {
        SegmentFault::Requirement => names_requirements(tree) && has_segment(tree),
        SegmentFault::Integrity => has_integrity(tree),
        SegmentFault::Kind | SegmentFault::Encryption => true,
        _ => false,
    }
}

// Whether a key slot of LUKS2 is skipped for what luksrd does not support, and is not damaged.
fn is_unsupported_slot(tree: &Value, number: u8, reason: SkipReason) -> bool
    ensures { result ≡ is_unsupported_slot (data_of tree.now) number reason }
{
    match reason {
        SkipReason::Kind => has_slot_type(tree, number),
        SkipReason::Kdf | SkipReason::Hash | SkipReason::Encryption => true,
        _ => false,
    }
}

// Whether a finding in LUKS2 says what luksrd does not support, and not what is wrong.
fn is_unsupported2(tree: &Value, finding: Finding) -> bool
    ensures { result ≡ is_unsupported2 (data_of tree.now) finding }
{
    match finding {
        Finding::Segment(fault) => is_unsupported_segment(tree, fault),
        Finding::Slot(number, reason) => is_unsupported_slot(tree, number, reason),
        Finding::Pair(_) | Finding::NameOutOfRange | Finding::Overlap(_, _) => false,
    }
}

// Whether a finding says what luksrd does not support, and not what is wrong.
fn is_unsupported(header: &Header, finding: Finding) -> bool
    ensures { result ≡ is_unsupported header.now finding }
{
    match header {
        Header::V1(_) => is_unsupported1(finding),
        Header::V2(_, metadata) => is_unsupported2(metadata.tree(), finding),
    }
}

// A finding as a text.
fn finding_tree(alloc: Global, finding: Finding) -> Result<Tree, AllocError>
    ensures { IfOk result (λ tree. tree ≡ string (finding_text finding)) }
{
    let mut text = String::new(alloc);
    finding.push_to(&mut text)?;
    Ok(Tree::text(text))
}

// Adds a finding, if something is wrong.
fn push_wrong(
    alloc: Global,
    findings: &mut Array,
    header: &Header,
    finding: Finding,
) -> Result<(), AllocError>
    ensures { OnOk result (findings.new ≡ findings.old ++ wrong header.now finding) }
{
    if !is_unsupported(header, finding) {
        findings.push(finding_tree(alloc, finding)?)?;
    }
    Ok(())
}

// Adds a finding, if it says what luksrd does not support.
fn push_unsupported(
    alloc: Global,
    findings: &mut Array,
    header: &Header,
    finding: Finding,
) -> Result<(), AllocError>
    ensures { OnOk result (findings.new ≡ findings.old ++ unsupported header.now finding) }
{
    if is_unsupported(header, finding) {
        findings.push(finding_tree(alloc, finding)?)?;
    }
    Ok(())
}

/// What is wrong, each a text.
pub(crate) fn finding_array(
    alloc: Global,
    header: &Header,
    found: &[Finding],
) -> Result<Array, AllocError>
    ensures { IfOk result (λ findings. findings ≡ finding_values header.now found.now) }
{
    let mut findings = Array::new(alloc);
    for finding in found {
        push_wrong(alloc, &mut findings, header, *finding)?;
    }
    Ok(findings)
}

/// What luksrd does not support, each a text.
pub(crate) fn unsupported_array(
    alloc: Global,
    header: &Header,
    found: &[Finding],
) -> Result<Array, AllocError>
    ensures { IfOk result (λ findings. findings ≡ unsupported_values header.now found.now) }
{
    let mut findings = Array::new(alloc);
    for finding in found {
        push_unsupported(alloc, &mut findings, header, *finding)?;
    }
    Ok(findings)
}
