//! G, the compression function, which makes one block of two (RFC 9106, section 3.5).

ghost use Rattle.std.specs.Prelude.{◌≡◌, ◌<◌, [], if◌then◌else◌, length, slice_index_or, slice_set};
ghost use Rattle.luks_argon2.specs.Block.{block_of, xor_blocks, xor_rows};
ghost use Rattle.luks_argon2.specs.Compression.{column, columns_permuted, kept_block, new_block};
ghost use Rattle.luks_argon2.specs.Compression.{rows_permuted};

use crate::block::{Block, ZERO_BLOCK, xor_rows};
use crate::permutation::permute;

// Column `q` of the registers: two words of each row.
#[inline(always)]
#[tactic(auto, unfolding(crate::specs::Compression::column))]
fn column(x: &Block, q: usize) -> [u64; 16]
    requires { q < 8 }
    ensures { result ≡ column x.now q }
{
    [
        x[0][2 * q],
        x[0][2 * q + 1],
        x[1][2 * q],
        x[1][2 * q + 1],
        x[2][2 * q],
        x[2][2 * q + 1],
        x[3][2 * q],
        x[3][2 * q + 1],
        x[4][2 * q],
        x[4][2 * q + 1],
        x[5][2 * q],
        x[5][2 * q + 1],
        x[6][2 * q],
        x[6][2 * q + 1],
        x[7][2 * q],
        x[7][2 * q + 1],
    ]
}

// A row, with the XOR of the old one if `again` is true.
#[inline(always)]
fn kept_row(again: bool, row: [u64; 16], old: [u64; 16]) -> [u64; 16]
    ensures { result ≡ (if again then xor_rows row old else row) }
{
    if again { xor_rows(row, old) } else { row }
}

// The XOR of two blocks, and the same with the old block if `again` is true. This reads all of both
// blocks before the first permutation, so that the processor does not wait for one row after the
// other.
#[inline(always)]
fn combine(
    previous: &Block,
    reference: &Block,
    old: &Block,
    again: bool,
    xored: &mut Block,
    kept: &mut Block,
)
    ensures xored { xored.new ≡ xor_blocks previous.now reference.now }
    ensures kept { kept.new ≡ kept_block again old.now (xor_blocks previous.now reference.now) }
{
    'rows: for i in 0..8 {
        let row = xor_rows(previous[i], reference[i]);
        xored[i] = row;
        kept[i] = kept_row(again, row, old[i]);
    }
}

// Permutes each row.
#[inline(always)]
fn permute_rows(x: &mut Block)
    ensures { x.new ≡ rows_permuted x.old }
{
    'rows: for i in 0..8 {
        x[i] = permute(x[i]);
    }
}

// Permutes each column, and writes it as a row.
#[inline(always)]
fn permute_columns(rows: &Block, columns: &mut Block)
    ensures { columns.new ≡ columns_permuted rows.now }
{
    'columns: for i in 0..8 {
        columns[i] = permute(column(rows, i));
    }
}

// The XOR of a block with the rows that these columns make.
#[inline(always)]
fn finish(kept: &Block, columns: &Block, out: &mut Block)
    ensures { out.new ≡ xor_blocks kept.now (block_of (column columns.now)) }
{
    'rows: for i in 0..8 {
        out[i] = xor_rows(kept[i], column(columns, i));
    }
}

/// The blocks in between. They are made once a segment, since it takes time to set them to zero.
#[derive(Drop)]
pub(crate) struct Scratch {
    rows: Block,
    kept: Block,
    columns: Block,
}

impl Scratch {
    pub(crate) fn new() -> Scratch {
        Scratch {
            rows: ZERO_BLOCK,
            kept: ZERO_BLOCK,
            columns: ZERO_BLOCK,
        }
    }
}

/// Replaces block `at` by G of two blocks, with the XOR of what was there if `again` is true.
pub(crate) fn compress_into(
    memory: &mut [Block],
    at: usize,
    previous: usize,
    reference: usize,
    again: bool,
    scratch: &mut Scratch,
)
    requires at { at < length memory.old }
    requires previous { previous < length memory.old }
    requires reference { reference < length memory.old }
    ensures { memory.new ≡ slice_set memory.old at (new_block again
        (slice_index_or memory.old at []) (slice_index_or memory.old previous [])
        (slice_index_or memory.old reference [])) }
{
    combine(
        &memory[previous],
        &memory[reference],
        &memory[at],
        again,
        &mut scratch.rows,
        &mut scratch.kept,
    );
    permute_rows(&mut scratch.rows);
    permute_columns(&scratch.rows, &mut scratch.columns);
    finish(&scratch.kept, &scratch.columns, &mut memory[at]);
}
