//! Rules for numbers, which hold for both formats.

ghost use Rattle.std.specs.Prelude.{◌≡◌, ◌+◌, ◌<◌, ◌^◌};
ghost use Rattle.luks_format.specs.Rule.{iterations_out_of_range, is_digest};
ghost use Rattle.luks_format.specs.Rule.{area_out_of_range, stripes_out_of_range};
ghost use Rattle.luks_format.specs.Rule.{key_material_len};

use crate::area::HeaderArea;

/// The largest number of key slots in a header; they are numbered from 0.
pub const MAX_SLOTS: u8 = 32;

/// The largest number of stripes that a key slot may have.
pub const MAX_STRIPES: u64 = 4000;

/// The largest number of PBKDF2 iterations.
pub const MAX_ITERATION_COUNT: u64 = 4_294_967_295;

/// The largest number of bytes of an image that are loaded.
pub(crate) const MAX_LOADED_LEN: u64 = HeaderArea::MAX_LEN as u64;

/// Whether this number of iterations is refused: 0, more than fits into four bytes, or above the
/// limit.
#[tactic(auto, unfolding(crate::specs::Rule::iterations_out_of_range))]
pub fn iterations_out_of_range(limit: Option<u32>, iterations: u64) -> bool
    ensures { result ≡ iterations_out_of_range limit iterations }
{
    iterations == 0
        || MAX_ITERATION_COUNT < iterations
        || limit.is_some_and(|limit| u64::from(limit) < iterations)
}

/// Whether the number of stripes is not 1 to 4000.
#[tactic(auto, unfolding(crate::specs::Rule::stripes_out_of_range))]
pub fn stripes_out_of_range(stripes: u64) -> bool
    ensures { result ≡ stripes_out_of_range stripes }
{
    stripes == 0 || MAX_STRIPES < stripes
}

/// The number of bytes of a slot's key material: one key for each stripe, rounded up to whole
/// sectors of 512 bytes.
#[tactic(auto, unfolding(crate::specs::Rule::key_material_len))]
pub fn key_material_len(key_bytes: u32, stripes: u32) -> u64
    ensures { result ≡ key_material_len key_bytes stripes }
{
    (u64::from(key_bytes) * u64::from(stripes)).div_ceil(512) * 512
}

/// Whether key material from `offset` on does not fit: it starts below `start`, its area of `size`
/// bytes is too small for the `material_len`, or it ends past the payload's start, if that is
/// known, or past byte 33,554,432.
#[tactic(auto, unfolding(crate::specs::Rule::area_out_of_range))]
pub fn area_out_of_range(
    start: u64,
    payload: Option<u64>,
    offset: u64,
    size: u64,
    material_len: u64,
) -> bool
    ensures { result ≡ area_out_of_range start payload offset size material_len }
{
    let Some(end) = offset.checked_add(material_len) else {
        return true;
    };
    offset < start
        || size < material_len
        || payload.is_some_and(|payload| payload < end)
        || MAX_LOADED_LEN < end
}

/// Whether a digest with this number of iterations and bytes can be used: the iterations are in
/// range, and it has 20 to 64 bytes.
#[tactic(auto, unfolding(crate::specs::Rule::is_digest))]
pub fn usable_digest(iterations: u64, len: usize) -> bool
    ensures { result ≡ is_digest iterations len }
{
    !iterations_out_of_range(None, iterations) && 20 <= len && len <= 64
}
