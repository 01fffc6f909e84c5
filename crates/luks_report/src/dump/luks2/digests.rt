//! The lines of digests.

ghost use Rattle.std.specs.Prelude.{◌≡◌, ◌++◌, IfOk, OnOk, codes, flat_map, map, string_bytes};
ghost use Rattle.luks_report.specs.Dump2.{digest_line, digest_text, listed_text};
ghost use Rattle.luks_report.specs.Dump2.{more_names, names_text};
ghost use Rattle.luks_report.specs.DumpLine.{escaped};
ghost use Rattle.luks2_metadata.specs.Digest2.{digests2_of};

use super::slots::hash_text;
use crate::dump_line::push_field;
use crate::escaping::push_escaped_text;
use luks2_json::tree::Metadata;
use luks2_metadata::luks2_digest::{Digest, digests};
use std::alloc::{AllocError, Global};

/// Adds a line for each digest.
pub(super) fn push_digests(
    alloc: Global,
    lines: &mut String,
    metadata: &Metadata,
) -> Result<(), AllocError>
    ensures { OnOk result (string_bytes lines.new
        ≡ string_bytes lines.old ++ flat_map digest_line (digests2_of metadata.now)) }
{
    let digests = digests(alloc, metadata)?;
    push_all(alloc, lines, digests.as_slice())
}

// Adds a line for each of these digests.
fn push_all(
    alloc: Global,
    lines: &mut String,
    digests: &[(u8, Option<Digest>)],
) -> Result<(), AllocError>
    ensures { OnOk result
        (string_bytes lines.new ≡ string_bytes lines.old ++ flat_map digest_line digests.now) }
{
    for digest in digests {
        push_digest(alloc, lines, digest)?;
    }
    Ok(())
}

// Adds the line of a digest.
fn push_digest(
    alloc: Global,
    lines: &mut String,
    digest: &(u8, Option<Digest>),
) -> Result<(), AllocError>
    ensures { OnOk result
        (string_bytes lines.new ≡ string_bytes lines.old ++ digest_line digest.now) }
{
    let (number, digest) = digest;
    let name = format!(in alloc; "Digest {number}")?;
    let text = describe(alloc, digest)?;
    push_field(lines, name.as_str(), text.as_str())
}

// The text of a digest.
fn describe(alloc: Global, digest: &Option<Digest>) -> Result<String, AllocError>
    ensures { IfOk result (λ text. string_bytes text ≡ listed_text digest.now) }
{
    match digest {
        Some(digest) => describe_usable(alloc, digest),
        None => String::from_str(alloc, "REFUSED"),
    }
}

// The text of a digest that can be used.
fn describe_usable(alloc: Global, digest: &Digest) -> Result<String, AllocError>
    ensures { IfOk result (λ text. string_bytes text ≡ digest_text digest.now) }
{
    let mut text = String::new(alloc);
    push_usable(alloc, &mut text, digest)?;
    Ok(text)
}

// Adds the text of a digest that can be used.
#[tactic(auto, unfolding(crate::specs::Dump2::digest_text))]
fn push_usable(alloc: Global, text: &mut String, digest: &Digest) -> Result<(), AllocError>
    ensures { OnOk result
        (string_bytes text.new ≡ string_bytes text.old ++ digest_text digest.now) }
{
    let hash = hash_text(digest.key.parts.hash);
    let iterations = digest.key.parts.iterations;
    let bytes = digest.key.parts.value.as_slice().len();
    write!(
        text,
        "USABLE hash={hash} iterations={iterations} bytes={bytes} keyslots="
    )?;
    push_names(alloc, text, digest.keyslots.as_slice())?;
    text.push_str(" segments=")?;
    push_names(alloc, text, digest.segments.as_slice())
}

// Adds names in their order, with commas between them.
fn push_names(alloc: Global, text: &mut String, names: &[String]) -> Result<(), AllocError>
    ensures { OnOk result (string_bytes text.new
        ≡ string_bytes text.old ++ names_text (map string_bytes names.now)) }
{
    match names {
        [] => Ok(()),
        [first, rest @ ..] => {
            push_escaped_text(alloc, text, first.as_bytes())?;
            push_more(alloc, text, rest)
        }
    }
}

// Adds further names, after the first one.
fn push_more(alloc: Global, text: &mut String, names: &[String]) -> Result<(), AllocError>
    ensures { OnOk result (string_bytes text.new
        ≡ string_bytes text.old ++ more_names (map string_bytes names.now)) }
{
    for name in names {
        push_name(alloc, text, name.as_str())?;
    }
    Ok(())
}

// Adds a further name, after a comma.
fn push_name(alloc: Global, text: &mut String, name: &str) -> Result<(), AllocError>
    ensures { OnOk result
        (string_bytes text.new ≡ string_bytes text.old ++ codes "," ++ escaped name.now) }
{
    text.push(',')?;
    push_escaped_text(alloc, text, name.as_bytes())
}
