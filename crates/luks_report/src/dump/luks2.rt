//! The texts of a LUKS2 header.

ghost use Rattle.std.specs.Prelude.{◌≡◌, ◌++◌, IfOk, OnOk, string_bytes};
ghost use Rattle.luks_report.specs.Dump2.{dump2_of, role_lines, role_text, text2_lines, uuid2_line};
ghost use Rattle.luks_header.specs.declared.header.Header.TheVariants.{V2};

use crate::dump_line::{push_field, push_number, push_text};
use crate::escaping::escape;
use luks_format::binary_header2::{Header2, HeaderRole};
use luks_header::header::{Header, bounds};
use luks2_json::tree::Metadata;
use std::alloc::{AllocError, Global};

mod digests;
mod segments;
mod slots;

/// The line with the UUID alone.
#[tactic(auto, unfolding(crate::specs::Dump2::uuid2_line))]
pub(crate) fn uuid_text(alloc: Global, header: &Header2) -> Result<String, AllocError>
    ensures { IfOk result (λ lines. string_bytes lines ≡ uuid2_line header.now) }
{
    let mut lines = escape(alloc, header.uuid.as_bytes())?;
    lines.push('\n')?;
    Ok(lines)
}

/// The dump of a header: of its binary header and of its JSON area.
#[tactic(auto, unfolding(crate::specs::Dump2::dump2_of))]
pub(crate) fn dump_text(
    alloc: Global,
    whole: &Header,
    header: &Header2,
    metadata: &Metadata,
) -> Result<String, AllocError>
    requires { whole.now ≡ V2 header.now metadata.now }
    ensures { IfOk result (λ lines. string_bytes lines ≡ dump2_of header.now metadata.now) }
{
    let bounds = bounds(header);
    let mut lines = String::new(alloc);
    push_role(alloc, &mut lines, header)?;
    push_texts(alloc, &mut lines, header)?;
    slots::push_slots(alloc, &mut lines, whole)?;
    segments::push_segment(alloc, &mut lines, metadata, bounds)?;
    digests::push_digests(alloc, &mut lines, metadata)?;
    Ok(lines)
}

// Adds the lines from the version to the header's length.
#[tactic(auto, unfolding(crate::specs::Dump2::role_lines))]
fn push_role(alloc: Global, lines: &mut String, header: &Header2) -> Result<(), AllocError>
    ensures { OnOk result
        (string_bytes lines.new ≡ string_bytes lines.old ++ role_lines header.now) }
{
    push_field(lines, "Version", "2")?;
    push_field(lines, "Header", role_text(header.role))?;
    push_number(alloc, lines, "Sequence", header.sequence)?;
    push_number(alloc, lines, "Header size", header.size as u64)
}

/// Which of the two headers it is.
pub fn role_text(role: HeaderRole) -> &'static str
    ensures { result.now ≡ role_text role }
{
    match role {
        HeaderRole::Primary => "primary",
        HeaderRole::Secondary => "secondary",
    }
}

// Adds the lines from the UUID to the hash function of the checksum.
#[tactic(auto, unfolding(crate::specs::Dump2::text2_lines))]
fn push_texts(alloc: Global, lines: &mut String, header: &Header2) -> Result<(), AllocError>
    ensures { OnOk result
        (string_bytes lines.new ≡ string_bytes lines.old ++ text2_lines header.now) }
{
    push_text(alloc, lines, "UUID", header.uuid.as_bytes())?;
    push_text(alloc, lines, "Label", header.label.as_bytes())?;
    push_text(alloc, lines, "Subsystem", header.subsystem.as_bytes())?;
    push_field(lines, "Checksum", header.hash.name())
}
