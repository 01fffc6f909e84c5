//! The lines that are printed.

ghost use Rattle.std.specs.Prelude.{◌≡◌, ◌++◌, ◌∷◌, [], IfOk, List, OnOk, false};
ghost use Rattle.std.specs.Prelude.{map, ℕ};
ghost use Rattle.luks_audit.specs.Line.{cell_text, cells_of, column_names, column_of};
ghost use Rattle.luks_audit.specs.Line.{columns, error_value, head_of, line_text, tabbed_of};
ghost use Rattle.serde_json.specs.View.{view as data_of};
ghost use Rattle.serde_json.specs.Written.{has_float};

use crate::mark::escape_marks;
use crate::table::push_program;
use crate::tree::{Object, Tree};
use serde_json::Value;
use std::alloc::{AllocError, Global};

/// How objects are printed.
#[derive(Clone, Copy)]
pub enum Format {
    /// As JSON, each on a line of its own.
    Json,
    /// As lines of columns with tabs between them, after a line with the names of the columns.
    Tsv,
}

// Adds a text without the quotation marks around it.
fn push_unquoted(line: &mut Vec<u8>, quoted: &[u8]) -> Result<(), AllocError>
    ensures { (text : List ℕ) → quoted.now ≡ 34 ∷ (text ++ 34 ∷ [])
        → OnOk result (line.new.items ≡ line.old.items ++ text) }
{
    if quoted.len() < 2 {
        return Ok(());
    }
    Ok(line.extend_from_slice(&quoted[1..quoted.len() - 1])?)
}

// Adds what a member has in its column.
#[tactic(auto, unfolding(crate::specs::Line::cell_text))]
fn push_value(alloc: Global, line: &mut Vec<u8>, value: &Value) -> Result<(), AllocError>
    requires { has_float (data_of value.now) ≡ false }
    ensures { OnOk result (line.new.items ≡ line.old.items ++ cell_text (data_of value.now)) }
{
    if value.is_null() {
        return Ok(());
    }
    let text = value.to_vec(alloc)?;
    if value.is_string() {
        return push_unquoted(line, text.as_slice());
    }
    Ok(line.extend_from_slice(text.as_slice())?)
}

// Adds the column of this name.
#[tactic(auto, unfolding(crate::specs::Line::column_of))]
fn push_column(alloc: Global, line: &mut Vec<u8>, tree: &Tree, name: &str) -> Result<(), AllocError>
    ensures { OnOk result (line.new.items ≡ line.old.items ++ column_of tree.now name.now) }
{
    match tree.value().get(name) {
        Some(value) => push_value(alloc, line, value),
        None => Ok(()),
    }
}

// Adds a tab and the column of this name.
#[tactic(auto, unfolding(crate::specs::Line::tabbed_of))]
fn push_tabbed(alloc: Global, line: &mut Vec<u8>, tree: &Tree, name: &str) -> Result<(), AllocError>
    ensures { OnOk result (line.new.items ≡ line.old.items ++ tabbed_of tree.now name.now) }
{
    line.push(b'\t')?;
    push_column(alloc, line, tree, name)
}

// The names of the columns after the first one, which is the file, with tabs between them.
#[tactic(auto, unfolding(crate::specs::Line::columns))]
fn columns() -> &'static str
    ensures { result.now ≡ columns }
{
    "offset\terror\tversion\tuuid\tlabel\tsubsystem\theader\tother_header\tcipher\tkey_bytes\t\
    sector_size\tsegment_offset\tsegment_size\trequirements\tslots\tdigests\ttokens\tfindings\t\
    weak\tseqid\theader_size\tchecksum_hash\tsalt\tiv_tweak\tprogram_version\tpolicy\t\
    unsupported\tsegment_type\tsegment_flags\tintegrity\tflags"
}

// These names.
fn column_names(alloc: Global) -> Result<Vec<&'static str>, AllocError>
    ensures { IfOk result (λ names. map (λ name. name.now) names.items ≡ column_names) }
{
    columns().split('\t').collect(alloc)
}

// Adds the columns of an object, but for the file.
#[tactic(auto, unfolding(crate::specs::Line::cells_of))]
fn push_cells(alloc: Global, line: &mut Vec<u8>, tree: &Tree) -> Result<(), AllocError>
    ensures { OnOk result (line.new.items ≡ line.old.items ++ cells_of tree.now) }
{
    let names = column_names(alloc)?;
    for name in names.as_slice() {
        push_tabbed(alloc, line, tree, name)?;
    }
    Ok(())
}

/// The line of an object.
#[tactic(auto, unfolding(crate::specs::Line::line_text))]
pub fn line_text(alloc: Global, format: Format, tree: &Tree) -> Result<Vec<u8>, AllocError>
    ensures { IfOk result (λ line. line.items ≡ line_text format tree.now) }
{
    match format {
        Format::Json => json_line(alloc, tree),
        Format::Tsv => tsv_line(alloc, tree),
    }
}

// The line of an object as JSON.
#[tactic(auto, unfolding(crate::specs::Line::line_text))]
fn json_line(alloc: Global, tree: &Tree) -> Result<Vec<u8>, AllocError>
    ensures { IfOk result (λ line. line.items ≡ line_text Format.Json tree.now) }
{
    let text = tree.to_vec(alloc)?;
    let mut line = escape_marks(alloc, text)?;
    line.push(b'\n')?;
    Ok(line)
}

// The line of an object in columns.
#[tactic(auto, unfolding(crate::specs::Line::line_text))]
fn tsv_line(alloc: Global, tree: &Tree) -> Result<Vec<u8>, AllocError>
    ensures { IfOk result (λ line. line.items ≡ line_text Format.Tsv tree.now) }
{
    let mut text = Vec::new(alloc);
    push_column(alloc, &mut text, tree, "file")?;
    push_cells(alloc, &mut text, tree)?;
    let mut line = escape_marks(alloc, text)?;
    line.push(b'\n')?;
    Ok(line)
}

// The line with the names of the columns.
#[tactic(auto, unfolding(crate::specs::Line::head_of))]
fn tsv_head(alloc: Global) -> Result<Vec<u8>, AllocError>
    ensures { IfOk result (λ line. line.items ≡ head_of Format.Tsv) }
{
    let mut line = b"file\t".to_vec(alloc)?;
    line.extend_from_slice(columns().as_bytes())?;
    line.push(b'\n')?;
    Ok(line)
}

/// The line before all others: the names of the columns, or nothing.
#[tactic(auto, unfolding(crate::specs::Line::head_of))]
pub fn head_of(alloc: Global, format: Format) -> Result<Vec<u8>, AllocError>
    ensures { IfOk result (λ line. line.items ≡ head_of format) }
{
    match format {
        Format::Json => Ok(Vec::new(alloc)),
        Format::Tsv => tsv_head(alloc),
    }
}

/// The object of an image without a header, or of one that could not be read.
#[tactic(auto, unfolding(crate::specs::Line::error_value))]
pub fn error_tree(alloc: Global, file: &str, error: &str) -> Result<Tree, AllocError>
    ensures { IfOk result (λ tree. tree ≡ error_value file.now error.now) }
{
    let mut fields = Object::new(alloc);
    push_program(alloc, &mut fields)?;
    fields.push_text(alloc, "file", file)?;
    fields.push_text(alloc, "error", error)?;
    Ok(fields.into_tree())
}
