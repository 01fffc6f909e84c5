//! Comparing a known volume key with a header.

ghost use Rattle.std.specs.Prelude.{◌≡◌, Bool, IfErr, IfOk, Ok, Err, false, length, true};
ghost use Rattle.luks_cipher.specs.Sector.{is_mode_key_length};
ghost use Rattle.luks_io.specs.Counts.{Reads};
ghost use Rattle.luks_io.specs.Devices.{IfKnown};
ghost use Rattle.luks_open.specs.Fault.{aborts_opening, has_fault, is_read_failure};
ghost use Rattle.luks_open.specs.Location.{reader_for};
ghost use Rattle.luks_open.specs.Volume.{HasSegmentBy};
ghost use Rattle.luks_access.specs.Keys.{ConsumesToCheck, KeyCheckFault, key_check_of};

use luks_header::header_segment::segment;
use luks_header::segment::Segment;
use luks_io::source::Source;
use luks_kdf::Work;
use luks_open::fault::VolumeFault;
use luks_open::location::{HeaderLocation, read_header_at};
use luks_open::volume_key;
pub use luks_open::volume_key::KeyCheck;
use std::alloc::Global;

/// Compares a volume key with the digest in a header: the lowest-numbered usable digest that lists
/// segment 0; LUKS1 has one digest. A key whose length is not one of the cipher's differs. The
/// source gives the bytes of the image, or of the detached header. As many of them are consumed as
/// `luksUUID` consumes, which are those that are read for the header, and none for a key area. The
/// header's segment is returned with the answer: the key is one of its cipher if it matches.
///
/// PBKDF2 does not distinguish a key from the same key with zeros after it, up to the block length
/// of the hash function.
///
/// # Errors
///
/// The fault with which `luksCat` ends if there is no header, its segment is refused, a read fails
/// or memory runs out.
pub fn check_key_from<S: Source>(
    alloc: Global,
    location: HeaderLocation,
    max_iterations: Option<u32>,
    source: &mut S,
    key: &[u8],
) -> Result<(KeyCheck, Segment), VolumeFault>
    ensures checks { IfOk result (λ checked. IfKnown (S.to_come source.old)
        (λ known. key_check_of location max_iterations known key.now ≡ Ok checked.0)) }
    ensures segment { IfOk result (λ checked. IfKnown (S.to_come source.old)
        (λ known. HasSegmentBy (reader_for location) known checked.1)) }
    ensures length { IfOk result (λ checked. checked.0 ≡ KeyCheck.Matches
        → is_mode_key_length checked.1.mode (length key.now) ≡ true) }
    ensures refuses { IfErr result (λ fault. aborts_opening fault ≡ false
        → IfKnown (S.to_come source.old)
        (λ known. key_check_of location max_iterations known key.now ≡ Err fault)) }
    ensures consumes { IfKnown (S.to_come source.old) (λ known. ConsumesToCheck known result
        (S.to_come source.new)) }
    ensures only { IfErr result KeyCheckFault }
    ensures reads { (ended : Bool) × Reads (has_fault is_read_failure result) ended
        (S.counts source.old) (S.counts source.new) }
{
    let (header, _area) = read_header_at(alloc, location, source)?;
    let segment = segment(&header)?;
    if !segment.mode.has_key_length(key.len()) {
        return Ok((KeyCheck::Differs, segment));
    }
    let work = &mut Work::new(0);
    let check = volume_key::check_key(alloc, &header, max_iterations, key, work)?;
    Ok((check, segment))
}
