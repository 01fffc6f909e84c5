//! Which of two valid headers of LUKS2 is chosen.

ghost use Rattle.std.specs.Prelude.{◌≡◌, ◌==◌, None, Some, if◌then◌else◌, true};
ghost use Rattle.luks_format.specs.Choice2.{chosen2_of, header2_at, is_valid, pair_finding_of};
ghost use Rattle.luks_format.specs.declared.binary_header2.PairFinding.{PairFinding};

use crate::binary_header2::{
    Header2, HeaderRole, PairFinding, checksum_hash_in, sequence_in, size_in,
};
use crate::field::{bytes_at, text_at};
use crate::validity2::{binary_at, is_valid};

/// The valid header in these bytes at an offset. The finding is what is wrong with the two headers
/// of the image.
#[tactic(auto, unfolding(crate::specs::Choice2::header2_at))]
pub(crate) fn valid_header(
    bytes: &[u8],
    start: usize,
    role: HeaderRole,
    finding: Option<PairFinding>,
) -> Option<Header2>
    requires valid { is_valid bytes.now start ≡ true }
    requires found { finding ≡ pair_finding_of bytes.now }
    ensures { result ≡ header2_at bytes.now role start }
{
    let binary = binary_at(bytes, start);
    let hash = checksum_hash_in(binary)?;
    Some(Header2 {
        role,
        size: size_in(binary) as u32,
        sequence: sequence_in(binary),
        label: text_at(binary, 24),
        hash,
        salt: bytes_at(binary, 104),
        uuid: text_at(binary, 168),
        subsystem: text_at(binary, 208),
        finding,
        detached: false,
    })
}

// What is wrong with two valid headers that have these sequence numbers.
fn finding_for(primary: u64, secondary: u64) -> Option<PairFinding>
    ensures { result
        ≡ (if primary == secondary then None else Some PairFinding.SequencesDiffer) }
{
    if primary == secondary {
        None
    } else {
        Some(PairFinding::SequencesDiffer)
    }
}

/// The header of an image whose primary one is valid: the secondary one if that is valid with a
/// higher sequence number, and otherwise the primary.
#[tactic(auto, unfolding(crate::specs::Choice2::chosen2_of, crate::specs::Choice2::pair_finding_of))]
pub(crate) fn with_valid_primary(bytes: &[u8]) -> Option<Header2>
    requires { is_valid bytes.now 0 ≡ true }
    ensures { result ≡ chosen2_of bytes.now }
{
    let size = size_in(binary_at(bytes, 0)) as usize;
    if !is_valid(bytes, size) {
        let finding = Some(PairFinding::SecondaryNotValid);
        return valid_header(bytes, 0, HeaderRole::Primary, finding);
    }
    let primary = sequence_in(binary_at(bytes, 0));
    let secondary = sequence_in(binary_at(bytes, size));
    let finding = finding_for(primary, secondary);
    if primary < secondary {
        valid_header(bytes, size, HeaderRole::Secondary, finding)
    } else {
        valid_header(bytes, 0, HeaderRole::Primary, finding)
    }
}
