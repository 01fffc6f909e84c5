//! Weaknesses as they are listed.

ghost use Rattle.std.specs.Prelude.{◌≡◌, ◌++◌, IfOk, map, string_bytes};
ghost use Rattle.luks_audit.specs.Weakness.{part_text, weak_by, weak_value};

use crate::tree::{Array, Object, Tree};
use crate::weak_row::{Part, WeakRow};
use std::alloc::{AllocError, Global};

// A part of a header, with its number.
fn part_text(alloc: Global, part: Part) -> Result<String, AllocError>
    ensures { IfOk result (λ text. string_bytes text ≡ part_text part) }
{
    match part {
        Part::Segment => String::from_str(alloc, "segment"),
        Part::Slot(number) => format!(in alloc; "slot {number}"),
        Part::Digest(number) => format!(in alloc; "digest {number}"),
    }
}

// The name or the number that is weak.
fn weak_by(alloc: Global, row: &WeakRow) -> Result<Tree, AllocError>
    ensures { IfOk result (λ tree. tree ≡ weak_by row.now) }
{
    match &row.text {
        Some(text) => text.to_tree(alloc),
        None => Ok(Tree::optional_number(row.number)),
    }
}

// The object of a weakness.
#[tactic(auto, unfolding(crate::specs::Weakness::weak_value))]
fn weak_tree(alloc: Global, row: &WeakRow) -> Result<Tree, AllocError>
    ensures { IfOk result (λ tree. tree ≡ weak_value row.now) }
{
    let place = part_text(alloc, row.part)?;
    let value = weak_by(alloc, row)?;
    let mut fields = Object::new(alloc);
    fields.push_text(alloc, "name", row.weakness.name())?;
    fields.push_text(alloc, "place", place.as_str())?;
    fields.push(alloc, "value", value)?;
    fields.push_optional_number(alloc, "limit", row.limit)?;
    fields.push_text(alloc, "severity", row.severity.name())?;
    Ok(fields.into_tree())
}

/// The objects of weaknesses.
pub(crate) fn weak_array(alloc: Global, rows: &[WeakRow]) -> Result<Array, AllocError>
    ensures { IfOk result (λ weak. weak ≡ map weak_value rows.now) }
{
    let mut weak = Array::new(alloc);
    for row in rows {
        weak.push(weak_tree(alloc, row)?)?;
    }
    Ok(weak)
}
