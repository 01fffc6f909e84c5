//! The pieces that volumes of both formats are put together from: fields padded with zeros,
//! encrypted sectors, key material.

ghost use Rattle.std.specs.Prelude.{◌≡◌, ◌-◌, ◌*◌, ◌%◌, ◌≤◌, ◌++◌, IfOk, OnOk, length};
ghost use Rattle.luks_cipher.specs.Sector.{sector_encrypted};
ghost use Rattle.luks_kdf.specs.Pbkdf2.{derived_key};
ghost use Rattle.luks_volume.specs.Pieces.{encrypted_material, padded, sectors_encrypted};
ghost use Rattle.luks_volume.specs.Pieces.{stripes_of, wrapping_number, sector_padded};
ghost use Rattle.luks_volume.specs.Ranges.{FitsKey};
ghost use Rattle.luks_format.specs.SectorSize.{bytes_of};

use luks_cipher::{Mode, SectorCipher};
use luks_format::sector_size::SectorSize;
use luks_kdf::{Hash, Work, af_split, pbkdf2};
use std::alloc::{AllocError, Global};

/// Bytes padded with zeros to this length.
#[tactic(auto, unfolding(crate::specs::Pieces::padded))]
pub fn padded(alloc: Global, bytes: &[u8], capacity: usize) -> Result<Vec<u8>, AllocError>
    ensures { IfOk result (λ all. all.items ≡ padded capacity bytes.now) }
{
    let mut all = Vec::from_slice(alloc, bytes)?;
    all.resize(capacity.max(bytes.len()), 0)?;
    Ok(all)
}

/// Appends bytes padded with zeros to this length.
pub fn push_padded(
    alloc: Global,
    image: &mut Vec<u8>,
    bytes: &[u8],
    capacity: usize,
) -> Result<(), AllocError>
    ensures { OnOk result (image.new.items ≡ image.old.items ++ padded capacity bytes.now) }
{
    let field = padded(alloc, bytes, capacity)?;
    image.extend_from_slice(&field)
}

/// A key of this length, which PBKDF2 derives from a password.
pub fn derived_key(
    alloc: Global,
    hash: Hash,
    password: &[u8],
    salt: &[u8],
    iterations: u32,
    len: usize,
) -> Result<Vec<u8>, AllocError>
    requires iterations { 1 ≤ iterations }
    requires some { 1 ≤ len }
    requires capacity { len ≤ 512 }
    ensures { IfOk result (λ key. key.items
        ≡ derived_key hash password.now salt.now iterations len) }
{
    let mut key = vec![in alloc; 0; len]?;
    pbkdf2(
        hash,
        password,
        salt,
        iterations,
        &mut key,
        &mut Work::new(0),
    );
    Ok(key)
}

/// A cipher of this mode and key.
pub fn cipher_with(mode: Mode, key: &[u8]) -> SectorCipher
    requires { FitsKey mode (length key.now) }
    ensures { result ≡ (mode, key.now) }
{
    SectorCipher::expanded(mode, key)
}

/// The unit number of a sector.
fn wrapping_number(first: u64, step: u64, sector: u64) -> u64
    ensures { result ≡ wrapping_number first step sector }
{
    first.wrapping_add(sector.wrapping_mul(step))
}

/// Appends a sector, encrypted under this unit number.
fn push_sector(
    alloc: Global,
    image: &mut Vec<u8>,
    cipher: &SectorCipher,
    number: u64,
    plain: &[u8],
) -> Result<(), AllocError>
    requires whole_blocks { length plain.now % 16 ≡ 0 }
    requires shortest { 16 ≤ length plain.now }
    requires longest { length plain.now ≤ 4096 }
    ensures { OnOk result (image.new.items
        ≡ image.old.items ++ sector_encrypted cipher.now.0 cipher.now.1 number plain.now) }
{
    let mut sector = Vec::from_slice(alloc, plain)?;
    cipher.encrypt_unit(number, &mut sector);
    image.extend_from_slice(&sector)
}

/// Whole sectors of this size, each encrypted. The first has the number `first`, and each further
/// one `step` more than the one before it.
pub fn encrypted(
    alloc: Global,
    cipher: &SectorCipher,
    first: u64,
    step: u64,
    size: SectorSize,
    plain: &[u8],
) -> Result<Vec<u8>, AllocError>
    ensures { IfOk result (λ sectors. sectors.items
        ≡ sectors_encrypted cipher.now first step (bytes_of size) plain.now) }
{
    let mut sectors = Vec::new(alloc);
    let size = size.bytes();
    'fill: for i in 0..plain.len() / size {
        let sector = &plain[i * size..i * size + size];
        push_sector(
            alloc,
            &mut sectors,
            cipher,
            wrapping_number(first, step, i as u64),
            sector,
        )?;
    }
    Ok(sectors)
}

/// The stripes of a key: the random ones, and one more that makes them merge to the key.
pub fn stripes_of(
    alloc: Global,
    hash: Hash,
    key: &[u8],
    count: u32,
    random: &[u8],
) -> Result<Vec<u8>, AllocError>
    requires some { 1 ≤ length key.now }
    requires capacity { length key.now ≤ 64 }
    requires least { 1 ≤ count }
    requires most { count ≤ 4000 }
    requires random { length random.now ≡ (count - 1) * length key.now }
    ensures { IfOk result (λ stripes. stripes.items ≡ stripes_of hash key.now count random.now) }
{
    let mut stripes = vec![in alloc; 0; key.len() * count as usize]?;
    af_split(hash, key, random, &mut stripes);
    Ok(stripes)
}

/// Key material: these stripes padded to whole sectors of 512 bytes, encrypted and numbered from 0.
#[tactic(auto, unfolding(crate::specs::Pieces::encrypted_material, crate::specs::Pieces::sector_padded))]
pub fn encrypted_material(
    alloc: Global,
    mode: Mode,
    key: &[u8],
    stripes: &[u8],
) -> Result<Vec<u8>, AllocError>
    requires { FitsKey mode (length key.now) }
    ensures { IfOk result (λ material. material.items
        ≡ encrypted_material (mode, key.now) stripes.now) }
{
    let cipher = cipher_with(mode, key);
    let sectors = padded(alloc, stripes, stripes.len().div_ceil(512) * 512)?;
    encrypted(alloc, &cipher, 0, 1, SectorSize::B512, &sectors)
}
