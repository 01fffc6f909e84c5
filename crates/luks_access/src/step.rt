//! Steps of reading a range of a plaintext: which bytes of the image each of them reads, and how
//! these become bytes of the range.

ghost use Rattle.std.specs.Prelude.{◌≡◌, ◌+◌, ◌-◌, ◌*◌, ◌%◌, ◌<◌, ◌≤◌, ◌^◌, ◌⊎◌, List, ℕ};
ghost use Rattle.std.specs.Prelude.{MatchOption, drop, length, nat_le, take};
ghost use Rattle.luks_cipher.specs.Expanded.{AreExpanded};
ghost use Rattle.luks_payload.specs.Plain.{plain_of, sector_len};
ghost use Rattle.luks_access.specs.Sectors.{AreStored, IsRangeOf, plain_in};
ghost use Rattle.luks_access.specs.Steps.{IsNextStep, IsStep, StepsReadRange};

use crate::sectors::decrypt_sectors;
use luks_cipher::ExpandedKeys;
use luks_header::segment::Segment;

/// A step of reading a range of a plaintext: the bytes of the image that it reads, which are whole
/// sectors, and which of them the range gets.
#[derive(Clone, Copy, PartialEq, Eq, Debug)]
pub struct ReadStep {
    /// The offset of the first byte in the image.
    pub read_offset: u64,
    /// The number of bytes that are read.
    pub read_len: usize,
    /// The number of the sector that begins there.
    pub first_sector: u64,
    /// How many of the bytes come before the range.
    pub skip: usize,
    /// How many bytes of the range the step gives.
    pub count: usize,
}

/// How many bytes a step reads, and how many of them the range gets, if it begins `skip` bytes
/// after the start of a sector of `size` bytes: all whole sectors, or a part of the first one.
fn lengths(size: usize, skip: usize, count: usize) -> (usize, usize)
    requires inside { skip < size }
    requires some { 0 < count }
    ensures whole { result.0 % size ≡ 0 }
    ensures some { 0 < result.1 }
    ensures few { result.1 ≤ count }
    ensures within { skip + result.1 ≤ result.0 }
    ensures needed { result.0 < skip + result.1 + size }
    ensures placed { (result.0 ≡ result.1) ⊎ (result.0 ≡ size) }
    ensures last { (result.1 ≡ count) ⊎ ((skip + result.1) % size ≡ 0) }
    ensures most { skip ≡ 0 → count < result.1 + size }
{
    if skip == 0 && count >= size {
        let whole = count - count % size;
        (whole, whole)
    } else {
        (size, count.min(size - skip))
    }
}

/// The next step of reading a range of at least one byte.
fn next_step(segment: &Segment, len: u64, offset: u64, count: usize) -> ReadStep
    requires counted { segment.now.offset + len < 2 ^ 64 }
    requires multiple { len % sector_len segment.now ≡ 0 }
    requires some { 0 < count }
    requires inside { offset + count ≤ len }
    ensures { IsStep segment.now len offset count result }
{
    let size = segment.sector_size.bytes();
    let first_sector = offset / size as u64;
    let skip = (offset % size as u64) as usize;
    let (read_len, given) = lengths(size, skip, count);
    ReadStep {
        read_offset: segment.offset + first_sector * size as u64,
        read_len,
        first_sector,
        skip,
        count: given,
    }
}

/// The next step of reading the `count` bytes from `offset` on in a plaintext of `len` bytes, which
/// are whole sectors; `None` if the range ends past them.
///
/// Each sector that the step reads has a byte of the range. It gives at least one byte, if there is
/// one, and reads whole sectors that the range gets, or one sector of which it gets a part. So a
/// range has at most three steps.
pub fn plan(segment: &Segment, len: u64, offset: u64, count: usize) -> Option<ReadStep>
    requires counted { segment.now.offset + len < 2 ^ 64 }
    requires multiple { len % sector_len segment.now ≡ 0 }
    ensures { MatchOption result (len < offset + count)
        (λ step. (offset + count ≤ len) × IsNextStep segment.now len offset count step) }
{
    if !is_within(len, offset, count) {
        return None;
    }
    if count > 0 {
        return Some(next_step(segment, len, offset, count));
    }
    Some(ReadStep {
        read_offset: 0,
        read_len: 0,
        first_sector: 0,
        skip: 0,
        count: 0,
    })
}

/// Whether `count` bytes from this offset on are within a plaintext of `len` bytes.
pub(crate) fn is_within(len: u64, offset: u64, count: usize) -> bool
    ensures { result ≡ nat_le (offset + count) len }
{
    match offset.checked_add(count as u64) {
        Some(end) => end <= len,
        None => false,
    }
}

/// Moves the bytes from `skip` on to the beginning.
fn move_to_front(bytes: &mut [u8], skip: usize, count: usize)
    requires { skip + count ≤ length bytes.old }
    ensures { take count bytes.new ≡ take count (drop skip bytes.old) }
{
    if skip > 0 {
        bytes.copy_within(skip..skip + count, 0);
    }
}

/// Decrypts the bytes that a step has read, and moves those that the range gets to their beginning:
/// the first `step.count` of them. If an image stores the bytes there, these are the bytes of the
/// range.
pub fn finish(segment: &Segment, keys: &ExpandedKeys, step: &ReadStep, bytes: &mut [u8])
    requires whole { length bytes.old % sector_len segment.now ≡ 0 }
    requires part { step.now.skip + step.now.count ≤ length bytes.old }
    ensures value { (key : List ℕ) → AreExpanded key segment.now.mode keys.now
        → take step.now.count bytes.new
        ≡ take step.now.count (drop step.now.skip
        (plain_in segment.now (segment.now.mode, key) step.now.first_sector bytes.old)) }
    ensures plain { (key image : List ℕ) → AreExpanded key segment.now.mode keys.now
        → AreStored segment.now image step.now.first_sector bytes.old
        → IsRangeOf (plain_of segment.now (segment.now.mode, key) image)
        (step.now.first_sector * sector_len segment.now + step.now.skip)
        (take step.now.count bytes.new) }
{
    decrypt_sectors(segment, keys, step.first_sector, bytes);
    move_to_front(bytes, step.skip, step.count);
}

/// Whoever reads the bytes that each step of a range names, and decrypts them as [`finish`] does,
/// has that range of the plaintext when none is left, and that is after at most three steps.
pub fn steps_read_range()
    ensures { StepsReadRange }
{}
