//! Volumes of LUKS2 (LUKS2 On-Disk Format Specification 1.1).

ghost use Rattle.std.specs.Prelude.{◌≡◌, ◌++◌, IfOk, OnOk};
ghost use Rattle.luks_volume.specs.Ranges.{SealAnswerLate};
ghost use Rattle.luks_volume.specs.Sealed.{Sealed};
ghost use Rattle.luks_volume.specs.Layout2.{FitsJson, image2_of, json_of, payload_of};
ghost use Rattle.luks_volume.specs.Ranges2.{AreParameters2, passphrases2_of};

use crate::luks2::areas::push_areas;
use crate::luks2::headers::headers_of;
use crate::luks2::metadata::json_of;
use crate::luks2::ranges::are_parameters2;
use crate::luks2::typed::typed2;
use crate::parameters::{Seal2, SealFault};
use crate::pieces::{cipher_with, encrypted, padded};
use crate::ranges::fits_text;
use std::alloc::{AllocError, Global};

mod areas;
mod headers;
mod members;
mod metadata;
mod ranges;
mod typed;

/// The payload.
#[tactic(auto, unfolding(crate::specs::Layout2::payload_of))]
fn payload_of(alloc: Global, seal: &Seal2<'_>) -> Result<Vec<u8>, AllocError>
    requires { AreParameters2 seal.now }
    ensures { IfOk result (λ payload. payload.items ≡ payload_of seal.now) }
{
    let cipher = cipher_with(seal.mode, seal.key);
    let step = (seal.sector_size.bytes() / 512) as u64;
    encrypted(
        alloc,
        &cipher,
        seal.iv_tweak,
        step,
        seal.sector_size,
        seal.plain,
    )
}

/// The image of a volume whose parameters are in their ranges, with this JSON text.
#[tactic(auto, unfolding(crate::specs::Layout2::image2_of))]
fn image_of(alloc: Global, seal: &Seal2<'_>, json: &[u8]) -> Result<Vec<u8>, AllocError>
    requires fits { AreParameters2 seal.now }
    requires json { json.now ≡ json_of seal.now }
    ensures { IfOk result (λ image. image.items ≡ image2_of seal.now) }
{
    let mut prefix = headers_of(alloc, seal, json)?;
    push_areas(alloc, &mut prefix, seal)?;
    let mut image = padded(alloc, &prefix, seal.offset as usize)?;
    let payload = payload_of(alloc, seal)?;
    image.extend_from_slice(&payload)?;
    Ok(image)
}

/// Makes the image of a volume with the cipher `aes` and PBKDF2 in all its key slots.
///
/// The areas follow one another by ascending slot number, right after both headers. The payload
/// ends the image. All other bytes are zero.
///
/// # Errors
///
/// [`Parameters`](SealFault::Parameters) if a parameter is out of range, before any memory is
/// allocated, or if the JSON text does not fit the header, which is only known after the text is
/// made; otherwise [`Memory`](SealFault::Memory) if memory runs out.
#[tactic(auto, using(crate::proofs::Bounds::limits))]
pub fn seal2(alloc: Global, seal: &Seal2<'_>) -> Result<Vec<u8>, SealFault>
    ensures answer { SealAnswerLate (AreParameters2 seal.now) (FitsJson seal.now) result }
    ensures image { IfOk result (λ image. image.items ≡ image2_of seal.now) }
    ensures sealed { IfOk result (λ image. Sealed image.items (passphrases2_of seal.now)
        seal.now.key.now seal.now.plain.now) }
{
    if !are_parameters2(seal) {
        return Err(SealFault::Parameters);
    }
    typed2(seal);
    let json = json_of(alloc, seal)?;
    if !fits_text((seal.hdr_size - 4097) as usize, &json) {
        return Err(SealFault::Parameters);
    }
    Ok(image_of(alloc, seal, &json)?)
}
