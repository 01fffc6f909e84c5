//! Whole sectors of a payload, starting with any of them.

ghost use Rattle.std.specs.Prelude.{◌≡◌, ◌+◌, ◌*◌, ◌-◌, ◌/◌, ◌%◌, ◌<◌, ◌≤◌, ◌^◌, List, ℕ, Err};
ghost use Rattle.std.specs.Prelude.{if◌then◌else◌, length, nat_lt};
ghost use Rattle.luks_cipher.specs.Expanded.{AreExpanded};
ghost use Rattle.luks_format.specs.SectorSize.{bytes_of};
ghost use Rattle.luks_payload.specs.Plain.{ending_of_len, sector_len, payload_bytes};
ghost use Rattle.luks_access.specs.Sectors.{AreStored, plain_at, plain_in};

use luks_cipher::ExpandedKeys;
use luks_format::sector_size::SectorSize;
use luks_header::segment::Segment;
use luks_payload::fault::PayloadFault;
use luks_payload::sector::unit_number;
use luks_payload::state::Step;

/// The length in bytes of a payload's plaintext: all its whole sectors. The payload is in an image
/// of `image_len` bytes, from `offset` on, and its size may be fixed.
pub fn plaintext_len(offset: u64, size: Option<u64>, sector_size: SectorSize, image_len: u64) -> u64
    ensures value { result ≡ payload_bytes size (image_len - offset) / bytes_of sector_size
        * bytes_of sector_size }
    ensures within { result ≤ image_len - offset }
    ensures counted { offset + result < 2 ^ 64 }
    ensures multiple { result % bytes_of sector_size ≡ 0 }
{
    let available = image_len.saturating_sub(offset);
    let within = match size {
        Some(size) => available.min(size),
        None => available,
    };
    within - within % sector_size.bytes() as u64
}

/// How such a payload ends in such an image, as `luksCat` reports it.
///
/// # Errors
///
/// [`PayloadFault::CutBeforePayload`] if the image ends before the payload's start,
/// [`PayloadFault::Tail`] if it ends inside a sector and the size is not fixed,
/// [`PayloadFault::Short`] if it ends before the end of a fixed size.
pub fn payload_ending(
    offset: u64,
    size: Option<u64>,
    sector_size: SectorSize,
    image_len: u64,
) -> Result<Step, PayloadFault>
    ensures { result ≡ (if nat_lt image_len offset then Err PayloadFault.CutBeforePayload
        else ending_of_len size (bytes_of sector_size) (image_len - offset)) }
{
    let Some(len) = image_len.checked_sub(offset) else {
        return Err(PayloadFault::CutBeforePayload);
    };
    let more = len % sector_size.bytes() as u64;
    match size {
        Some(size) if len < size => Err(PayloadFault::Short(size - len)),
        None if more != 0 => Err(PayloadFault::Tail(more)),
        _ => Ok(Step::End),
    }
}

/// Decrypts whole sectors in place, the first of which is sector `first` of the payload, by the key
/// that these keys were expanded from. If an image stores the sectors, they become that part of its
/// plaintext. With other keys the bytes are not determined.
pub fn decrypt_sectors(segment: &Segment, keys: &ExpandedKeys, first: u64, bytes: &mut [u8])
    requires { length bytes.old % sector_len segment.now ≡ 0 }
    ensures value { (key : List ℕ) → AreExpanded key segment.now.mode keys.now
        → bytes.new ≡ plain_in segment.now (segment.now.mode, key) first bytes.old }
    ensures plain { (key image : List ℕ) → AreExpanded key segment.now.mode keys.now
        → AreStored segment.now image first bytes.old
        → bytes.new
        ≡ plain_at segment.now (segment.now.mode, key) image (first * sector_len segment.now)
        (length bytes.old) }
{
    let number = unit_number(segment, first);
    keys.decrypt_units(segment.mode, number, segment.sector_size.bytes(), bytes);
}
