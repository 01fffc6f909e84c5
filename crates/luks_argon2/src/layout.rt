//! The memory as a matrix of blocks: rows are lanes, columns are cut into four slices (RFC 9106,
//! section 3.2, step 2, and 3.4).

ghost use Rattle.std.specs.Prelude.{◌≡◌};
ghost use Rattle.luks_argon2.specs.Layout.{IsLayout, layout_of};

use crate::parameters::Parameters;

/// The memory: `lanes` lanes of four segments, each of `segment_len` blocks, filled `passes` times.
#[derive(Clone, Copy, Drop)]
pub(crate) struct Layout {
    pub(crate) lanes: usize,
    pub(crate) segment_len: usize,
    pub(crate) passes: u32,
}

/// A segment: the part of a lane that is in a slice, and the pass in which it is filled.
#[derive(Clone, Copy, Drop)]
pub(crate) struct Segment {
    pub(crate) pass: u32,
    pub(crate) slice: usize,
    pub(crate) lane: usize,
}

/// The memory that these parameters make.
pub(crate) fn layout_of(parameters: Parameters) -> Layout
    ensures value { result ≡ layout_of parameters.passes parameters.memory_kib parameters.lanes }
    ensures layout { IsLayout result }
{
    let lanes = parameters.lanes as usize;
    Layout {
        lanes,
        segment_len: parameters.memory_kib as usize / (4 * lanes),
        passes: parameters.passes,
    }
}
