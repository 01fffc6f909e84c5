//! The fill of the memory, segment by segment (RFC 9106, section 3.2, steps 5 and 6, and section
//! 3.4).

ghost use Rattle.std.specs.Prelude.{◌≡◌, ◌<◌, length};
ghost use Rattle.luks_argon2.specs.Fill.{first_filled, lanes_filled, passes_filled};
ghost use Rattle.luks_argon2.specs.Fill.{segment_filled, slices_filled};
ghost use Rattle.luks_argon2.specs.Layout.{IsLayout, block_count};

use crate::addressing::{address_block, previous_index, pseudorandom};
use crate::block::Block;
use crate::compression::{Scratch, compress_into};
use crate::layout::{Layout, Segment};
use crate::reference::reference_index;
use crate::variant::Variant;

// The first block of a segment that is filled.
fn first_filled(segment: Segment) -> usize
    ensures { result ≡ first_filled segment }
{
    if segment.pass == 0 && segment.slice == 0 {
        2
    } else {
        0
    }
}

fn fill_segment(variant: Variant, layout: Layout, segment: Segment, memory: &mut [Block])
    requires layout { IsLayout layout }
    requires slice { segment.slice < 4 }
    requires lane { segment.lane < layout.lanes }
    requires size { length memory.old ≡ block_count layout }
    ensures { memory.new ≡ segment_filled variant layout segment memory.old layout.segment_len }
{
    let mut words = address_block(variant, layout, segment, 1);
    let mut scratch = Scratch::new();
    'columns: for i in first_filled(segment)..layout.segment_len {
        let previous = previous_index(layout, segment, i);
        let word = pseudorandom(variant, layout, segment, memory, previous, i, &mut words);
        let reference = reference_index(layout, segment, i, word);
        let column = segment.slice * layout.segment_len + i;
        let at = segment.lane * (4 * layout.segment_len) + column;
        compress_into(
            memory,
            at,
            previous,
            reference,
            segment.pass != 0,
            &mut scratch,
        );
    }
}

#[tactic(auto, unfolding(crate::specs::Fill::lanes_filled))]
fn fill_slice(variant: Variant, layout: Layout, pass: u32, slice: usize, memory: &mut [Block])
    requires layout { IsLayout layout }
    requires slice { slice < 4 }
    requires size { length memory.old ≡ block_count layout }
    ensures { memory.new ≡ lanes_filled variant layout pass slice memory.old layout.lanes }
{
    'lanes: for lane in 0..layout.lanes {
        fill_segment(variant, layout, Segment { pass, slice, lane }, memory);
    }
}

#[tactic(auto, unfolding(crate::specs::Fill::slices_filled))]
fn fill_pass(variant: Variant, layout: Layout, pass: u32, memory: &mut [Block])
    requires layout { IsLayout layout }
    requires size { length memory.old ≡ block_count layout }
    ensures { memory.new ≡ slices_filled variant layout pass memory.old 4 }
{
    'slices: for slice in 0..4 {
        fill_slice(variant, layout, pass, slice, memory);
    }
}

/// Fills the memory, whose first two columns are filled already.
#[tactic(auto, unfolding(crate::specs::Fill::passes_filled))]
pub(crate) fn fill(variant: Variant, layout: Layout, memory: &mut [Block])
    requires layout { IsLayout layout }
    requires size { length memory.old ≡ block_count layout }
    ensures { memory.new ≡ passes_filled variant layout memory.old layout.passes }
{
    'passes: for pass in 0..layout.passes {
        fill_pass(variant, layout, pass, memory);
    }
}
