//! The binary headers of LUKS2 (LUKS2 On-Disk Format Specification 1.1, section 2).

ghost use Rattle.std.specs.Prelude.{◌≡◌, ◌++◌, [], IfOk, OnOk};
ghost use Rattle.luks_kdf.specs.Hash.{hash_of};
ghost use Rattle.luks_kdf.specs.declared.hash.Hash.TheVariants.{Sha256};
ghost use Rattle.luks_volume.specs.Pieces.{padded};
ghost use Rattle.luks_volume.specs.Layout2.{fields_end_bytes, fields_of, header2_bytes, headers_of};
ghost use Rattle.luks_volume.specs.Layout2.{body_bytes, json_of, middle_of, start_of};
ghost use Rattle.luks_volume.specs.Ranges2.{AreParameters2};

use crate::parameters::Seal2;
use crate::pieces::{padded, push_padded};
use luks_kdf::{Hash, digest};
use std::alloc::{AllocError, Global};

/// The length of the checksum's field in bytes.
const CHECKSUM: usize = 64;

/// Appends `magic`, `version`, `hdr_size` and `seqid`.
#[tactic(auto, unfolding(crate::specs::Layout2::start_of))]
fn push_start(header: &mut Vec<u8>, seal: &Seal2<'_>, magic: &[u8]) -> Result<(), AllocError>
    ensures { OnOk result (header.new.items ≡ header.old.items ++ start_of seal.now magic.now) }
{
    header.extend_from_slice(magic)?;
    header.extend_from_slice(&2u16.to_be_bytes())?;
    header.extend_from_slice(&seal.hdr_size.to_be_bytes())?;
    header.extend_from_slice(&seal.seqid.to_be_bytes())
}

/// Appends `label`, `csum_alg` and `salt`.
#[tactic(auto, unfolding(crate::specs::Layout2::middle_of))]
fn push_middle(
    alloc: Global,
    header: &mut Vec<u8>,
    seal: &Seal2<'_>,
    salt: &[u8],
) -> Result<(), AllocError>
    ensures { OnOk result (header.new.items ≡ header.old.items ++ middle_of seal.now salt.now) }
{
    push_padded(alloc, header, seal.label, 48)?;
    push_padded(alloc, header, b"sha256", 32)?;
    header.extend_from_slice(salt)
}

/// Appends `uuid`, `subsystem` and `hdr_offset`, and the zeros before the checksum.
#[tactic(auto, unfolding(crate::specs::Layout2::fields_end_bytes))]
fn push_end(
    alloc: Global,
    header: &mut Vec<u8>,
    seal: &Seal2<'_>,
    offset: u64,
) -> Result<(), AllocError>
    ensures { OnOk result (header.new.items
        ≡ header.old.items ++ fields_end_bytes seal.now offset) }
{
    push_padded(alloc, header, seal.uuid, 40)?;
    push_padded(alloc, header, seal.subsystem, 48)?;
    push_padded(alloc, header, &offset.to_be_bytes(), 192)
}

/// The bytes before the checksum.
fn fields_of(
    alloc: Global,
    seal: &Seal2<'_>,
    magic: &[u8],
    salt: &[u8],
    offset: u64,
) -> Result<Vec<u8>, AllocError>
    ensures { IfOk result (λ fields. fields.items
        ≡ fields_of seal.now magic.now salt.now offset) }
{
    let mut fields = Vec::new(alloc);
    push_start(&mut fields, seal, magic)?;
    push_middle(alloc, &mut fields, seal, salt)?;
    push_end(alloc, &mut fields, seal, offset)?;
    Ok(fields)
}

/// The bytes after the checksum: zeros, and the JSON area.
#[tactic(auto, using(crate::proofs::Bounds::limits), unfolding(crate::specs::Layout2::body_bytes))]
fn body_bytes(alloc: Global, seal: &Seal2<'_>, json: &[u8]) -> Result<Vec<u8>, AllocError>
    requires fits { AreParameters2 seal.now }
    requires json { json.now ≡ json_of seal.now }
    ensures { IfOk result (λ rest. rest.items ≡ body_bytes seal.now) }
{
    let mut rest = padded(alloc, b"", 3584)?;
    push_padded(alloc, &mut rest, json, (seal.hdr_size - 4096) as usize)?;
    Ok(rest)
}

/// The checksum of a header: the hash of all its bytes, with zeros in the checksum's field.
fn checksum_of(alloc: Global, fields: &[u8], rest: &[u8]) -> Result<Vec<u8>, AllocError>
    ensures { IfOk result (λ checksum. checksum.items
        ≡ hash_of Sha256 (fields.now ++ padded 64 [] ++ rest.now)) }
{
    let zeros = padded(alloc, b"", CHECKSUM)?;
    let mut checksum = vec![in alloc; 0; 32]?;
    digest(Hash::Sha256, fields, &zeros, rest, &mut checksum);
    Ok(checksum)
}

/// Appends a header with its JSON area; `rest` holds the bytes after the checksum.
#[tactic(auto, unfolding(crate::specs::Layout2::header2_bytes))]
fn push_header(
    alloc: Global,
    image: &mut Vec<u8>,
    seal: &Seal2<'_>,
    rest: &[u8],
    magic: &[u8],
    salt: &[u8],
    offset: u64,
) -> Result<(), AllocError>
    requires { rest.now ≡ body_bytes seal.now }
    ensures { OnOk result (image.new.items
        ≡ image.old.items ++ header2_bytes seal.now magic.now salt.now offset) }
{
    let fields = fields_of(alloc, seal, magic, salt, offset)?;
    let checksum = checksum_of(alloc, &fields, rest)?;
    image.extend_from_slice(&fields)?;
    push_padded(alloc, image, &checksum, CHECKSUM)?;
    image.extend_from_slice(rest)
}

/// Both headers, with this JSON text.
#[tactic(auto, unfolding(crate::specs::Layout2::headers_of))]
pub(crate) fn headers_of(
    alloc: Global,
    seal: &Seal2<'_>,
    json: &[u8],
) -> Result<Vec<u8>, AllocError>
    requires fits { AreParameters2 seal.now }
    requires json { json.now ≡ json_of seal.now }
    ensures { IfOk result (λ headers. headers.items ≡ headers_of seal.now) }
{
    let rest = body_bytes(alloc, seal, json)?;
    let mut headers = Vec::new(alloc);
    push_header(
        alloc,
        &mut headers,
        seal,
        &rest,
        b"LUKS\xba\xbe",
        &seal.primary_salt,
        0,
    )?;
    let offset = seal.hdr_size;
    push_header(
        alloc,
        &mut headers,
        seal,
        &rest,
        b"SKUL\xba\xbe",
        &seal.secondary_salt,
        offset,
    )?;
    Ok(headers)
}
