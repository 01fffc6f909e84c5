//! The tag, which is the derived key (RFC 9106, section 3.2).

ghost use Rattle.std.specs.Prelude.{◌≡◌, ◌-◌, ◌*◌, ◌^◌, ◌≤◌, ◌<◌, length, replicate};
ghost use Rattle.luks_argon2.specs.Argon2.{argon2, last_column_xor, rows_bytes, tag_in};
ghost use Rattle.luks_argon2.specs.Block.{zero_block};
ghost use Rattle.luks_argon2.specs.Layout.{IsLayout, block_count};
ghost use Rattle.luks_argon2.specs.Parameters.{memory_blocks};
ghost use Rattle.luks_argon2.specs.VariableLength.{variable_length_hash};

use crate::block::{Block, xor_into};
use crate::filling::fill;
use crate::first_blocks::{first_digest, write_first_blocks};
use crate::layout::{Layout, layout_of};
use crate::memory::{Memory, clear};
use crate::parameters::Parameters;
use crate::variable_length::variable_length_hash;
use crate::variant::Variant;
use crate::wiping::wiped_after_tag;
use crate::words::store_words;

// C, the XOR of the last column (step 7).
#[tactic(auto, unfolding(crate::specs::Argon2::last_column_xor))]
fn last_column_xor(lanes: usize, lane_len: usize, memory: &[Block]) -> Block
    requires lanes { 1 ≤ lanes }
    requires lane_len { 1 ≤ lane_len }
    requires size { length memory.now ≡ lanes * lane_len }
    ensures { result ≡ last_column_xor lane_len memory.now (lanes - 1) }
{
    let mut last = memory[lane_len - 1];
    'lanes: for lane in 1..lanes {
        xor_into(&mut last, &memory[lane * lane_len + (lane_len - 1)]);
    }
    last
}

// H' of a block (step 8).
#[tactic(auto, unfolding(crate::specs::Argon2::rows_bytes))]
fn hash_block(block: &Block, tag: &mut [u8])
    requires some { 1 ≤ length tag.old }
    requires capacity { length tag.old < 2 ^ 32 }
    ensures { tag.new ≡ variable_length_hash (length tag.old) (rows_bytes block.now 8) }
{
    let mut bytes = [0; 1024];
    'rows: for i in 0..8 {
        store_words(&block[i], &mut bytes[128 * i..128 * i + 128]);
    }
    variable_length_hash(&bytes, tag);
}

// Steps 3 to 8.
fn derive_in(variant: Variant, layout: Layout, h0: &[u8; 64], memory: &mut [Block], tag: &mut [u8])
    requires layout { IsLayout layout }
    requires size { length memory.old ≡ block_count layout }
    requires some { 1 ≤ length tag.old }
    requires capacity { length tag.old < 2 ^ 32 }
    ensures { tag.new ≡ tag_in variant layout h0.now memory.old (length tag.old) }
{
    let lane_len = 4 * layout.segment_len;
    write_first_blocks(h0, layout.lanes as u32, lane_len, memory);
    fill(variant, layout, memory);
    let block = last_column_xor(layout.lanes, lane_len, memory);
    hash_block(&block, tag);
}

/// Fills `tag`, 1 to 2^32 - 1 bytes, with the key that Argon2 derives from the password and the
/// salt. The standard has tags of 4 bytes at least.
///
/// The memory is that of these parameters. What it held of the password is written over, as is the
/// stack.
pub fn derive(
    variant: Variant,
    parameters: Parameters,
    memory: &mut Memory,
    password: &[u8],
    salt: &[u8],
    tag: &mut [u8],
)
    requires memory { memory.old ≡ memory_blocks parameters.memory_kib parameters.lanes }
    requires password { length password.now < 2 ^ 32 }
    requires salt { length salt.now < 2 ^ 32 }
    requires some { 1 ≤ length tag.old }
    requires capacity { length tag.old < 2 ^ 32 }
    ensures tag { tag.new ≡ argon2 variant password.now salt.now parameters.passes
        parameters.memory_kib parameters.lanes (length tag.old) }
    ensures memory { memory.new ≡ memory.old }
{
    let count = memory.blocks.len();
    write_tag(variant, parameters, &mut memory.blocks, password, salt, tag);
    tag[0] = wiped_after_tag(tag[0], count);
}

// The whole derivation. It is a call of its own, so that its stack can be written over, and so that
// the compiler cannot drop the zeros, which the caller could read.
#[inline(never)]
fn write_tag(
    variant: Variant,
    parameters: Parameters,
    memory: &mut [Block],
    password: &[u8],
    salt: &[u8],
    tag: &mut [u8],
)
    requires memory { memory.old
        ≡ replicate (memory_blocks parameters.memory_kib parameters.lanes) zero_block }
    requires password { length password.now < 2 ^ 32 }
    requires salt { length salt.now < 2 ^ 32 }
    requires some { 1 ≤ length tag.old }
    requires capacity { length tag.old < 2 ^ 32 }
    ensures memory { memory.new ≡ memory.old }
    ensures tag { tag.new ≡ argon2 variant password.now salt.now parameters.passes
        parameters.memory_kib parameters.lanes (length tag.old) }
{
    let layout = layout_of(parameters);
    let h0 = first_digest(variant, parameters, password, salt, tag.len() as u32);
    derive_in(variant, layout, &h0, memory, tag);
    clear(memory);
}
