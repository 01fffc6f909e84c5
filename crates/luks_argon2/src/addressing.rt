//! The pseudorandom numbers J_1 and J_2 of each block (RFC 9106, section 3.4.1).

ghost use Rattle.std.specs.Prelude.{◌≡◌, ◌+◌, ◌*◌, ◌/◌, ◌%◌, ◌≤◌, ◌<◌, IsTrue, length, slice_index};
ghost use Rattle.luks_argon2.specs.Addressing.{HasAddresses, address_block, is_data_independent};
ghost use Rattle.luks_argon2.specs.Addressing.{previous_index, pseudorandom};
ghost use Rattle.luks_argon2.specs.Block.{block_row};
ghost use Rattle.luks_argon2.specs.Layout.{IsLayout, block_count};

use crate::block::{Block, ZERO_BLOCK};
use crate::compression::{Scratch, compress_into};
use crate::layout::{Layout, Segment};
use crate::variant::{Variant, variant_number};

fn is_data_independent(variant: Variant, segment: Segment) -> bool
    ensures { result ≡ is_data_independent variant segment }
{
    match variant {
        Variant::Argon2i => true,
        Variant::Argon2id => segment.pass == 0 && segment.slice < 2,
    }
}

/// The addresses of 128 blocks of a segment, which do not depend on the password. `counter` is 1
/// for the first 128 blocks (section 3.4.1.2).
pub(crate) fn address_block(
    variant: Variant,
    layout: Layout,
    segment: Segment,
    counter: usize,
) -> Block
    requires { IsLayout layout }
    ensures { result ≡ address_block variant layout segment counter }
{
    let zeros = [0; 16];
    let input = [
        segment.pass as u64,
        segment.lane as u64,
        segment.slice as u64,
        (layout.lanes * (4 * layout.segment_len)) as u64,
        layout.passes as u64,
        variant_number(variant) as u64,
        counter as u64,
        0,
        0,
        0,
        0,
        0,
        0,
        0,
        0,
        0,
    ];
    let mut blocks = [
        ZERO_BLOCK,
        [input, zeros, zeros, zeros, zeros, zeros, zeros, zeros],
    ];
    let mut scratch = Scratch::new();
    compress_into(&mut blocks, 1, 0, 1, false, &mut scratch);
    compress_into(&mut blocks, 1, 0, 1, false, &mut scratch);
    blocks[1]
}

/// The index of the block before block `i` of a segment. That before a lane's first block is the
/// lane's last one.
pub(crate) fn previous_index(layout: Layout, segment: Segment, i: usize) -> usize
    requires layout { IsLayout layout }
    requires slice { segment.slice < 4 }
    requires lane { segment.lane < layout.lanes }
    requires last { i < layout.segment_len }
    ensures value { result ≡ previous_index layout segment i }
    ensures bound { result < block_count layout }
{
    let lane_len = 4 * layout.segment_len;
    let column = segment.slice * layout.segment_len + i;
    let after = if column == 0 { lane_len } else { column };
    segment.lane * lane_len + (after - 1)
}

// The address for block `i` of a segment.
fn address_in(words: &Block, i: usize) -> u64
    ensures { result ≡ slice_index (block_row words.now (i % 128 / 16)) (i % 16) }
{
    words[i % 128 / 16][i % 16]
}

// Makes the next 128 addresses if block `i` of a segment is the first that needs them.
fn renew(variant: Variant, layout: Layout, segment: Segment, i: usize, words: &mut Block)
    requires layout { IsLayout layout }
    requires words { 0 < i % 128 → words.old ≡ address_block variant layout segment (i / 128 + 1) }
    ensures { words.new ≡ address_block variant layout segment (i / 128 + 1) }
{
    if i % 128 == 0 {
        *words = address_block(variant, layout, segment, i / 128 + 1);
    }
}

/// J_1 and J_2 for block `i` of a segment, as the low and the high half of one word. `words` has
/// the addresses of 128 blocks, and of the next 128 once they are needed, unless they depend on the
/// password: then they are in the previous block.
pub(crate) fn pseudorandom(
    variant: Variant,
    layout: Layout,
    segment: Segment,
    memory: &[Block],
    previous: usize,
    i: usize,
    words: &mut Block,
) -> u64
    requires layout { IsLayout layout }
    requires previous { previous < length memory.now }
    requires index { previous ≡ previous_index layout segment i }
    requires words { HasAddresses variant layout segment i words.old }
    ensures value { result ≡ pseudorandom variant layout segment memory.now i }
    ensures words { IsTrue (is_data_independent variant segment)
        → words.new ≡ address_block variant layout segment (i / 128 + 1) }
{
    if is_data_independent(variant, segment) {
        renew(variant, layout, segment, i, words);
        address_in(words, i)
    } else {
        memory[previous][0][0]
    }
}
