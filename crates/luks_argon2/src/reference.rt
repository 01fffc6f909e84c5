//! The reference block, which J_1 and J_2 choose (RFC 9106, section 3.4.2).

ghost use Rattle.std.specs.Prelude.{◌≡◌, ◌*◌, ◌≤◌, ◌<◌, ◌^◌};
ghost use Rattle.luks_argon2.specs.Fill.{first_filled};
ghost use Rattle.luks_argon2.specs.Layout.{IsLayout, block_count};
ghost use Rattle.luks_argon2.specs.Reference.{reference_index, reference_lane, window_index};
ghost use Rattle.luks_argon2.specs.Reference.{window_size, window_start};

use crate::layout::{Layout, Segment};

fn reference_lane(layout: Layout, segment: Segment, word: u64) -> usize
    requires layout { IsLayout layout }
    requires lane { segment.lane < layout.lanes }
    ensures value { result ≡ reference_lane layout segment word }
    ensures bound { result < layout.lanes }
{
    if segment.pass == 0 && segment.slice == 0 {
        segment.lane
    } else {
        (word >> 32) as usize % layout.lanes
    }
}

// |W|: how many blocks of a lane may be the reference block.
fn window_size(layout: Layout, segment: Segment, i: usize, lane: usize) -> usize
    requires layout { IsLayout layout }
    requires slice { segment.slice < 4 }
    requires first { first_filled segment ≤ i }
    requires last { i < layout.segment_len }
    requires same { segment.pass ≡ 0 → segment.slice ≡ 0 → lane ≡ segment.lane }
    ensures value { result ≡ window_size layout segment i lane }
    ensures some { 1 ≤ result }
    ensures bound { result < 4 * layout.segment_len }
{
    let finished = if segment.pass == 0 {
        segment.slice * layout.segment_len
    } else {
        3 * layout.segment_len
    };
    if lane == segment.lane {
        finished + i - 1
    } else if i == 0 {
        finished - 1
    } else {
        finished
    }
}

// zz: the index in W.
fn window_index(size: usize, word: u64) -> usize
    requires some { 1 ≤ size }
    requires fits { size < 2 ^ 32 }
    ensures value { result ≡ window_index size word }
    ensures bound { result < size }
{
    let low = word & 0xFFFF_FFFF;
    let x = low * low >> 32;
    let y = (size as u64 * x >> 32) as usize;
    size - 1 - y
}

// The column of the first block in W.
fn window_start(layout: Layout, segment: Segment) -> usize
    requires layout { IsLayout layout }
    requires slice { segment.slice < 4 }
    ensures value { result ≡ window_start layout segment }
    ensures bound { result < 4 * layout.segment_len }
{
    if segment.pass == 0 {
        0
    } else {
        (segment.slice + 1) % 4 * layout.segment_len
    }
}

/// The index of the reference block for block `i` of a segment. J_1 and J_2 are the low and the
/// high half of `word`.
#[tactic(auto, unfolding(crate::specs::Reference::reference_index))]
pub(crate) fn reference_index(layout: Layout, segment: Segment, i: usize, word: u64) -> usize
    requires layout { IsLayout layout }
    requires slice { segment.slice < 4 }
    requires lane { segment.lane < layout.lanes }
    requires first { first_filled segment ≤ i }
    requires last { i < layout.segment_len }
    ensures value { result ≡ reference_index layout segment i word }
    ensures bound { result < block_count layout }
{
    let lane_len = 4 * layout.segment_len;
    let lane = reference_lane(layout, segment, word);
    let size = window_size(layout, segment, i, lane);
    let start = window_start(layout, segment);
    let index = window_index(size, word);
    lane * lane_len + (start + index) % lane_len
}
