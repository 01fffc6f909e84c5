//! Whether there is a valid LUKS2 header at an offset.

ghost use Rattle.std.specs.Prelude.{◌≡◌, ◌+◌, ◌≤◌, ◌==◌, ◌&&◌, ◌||◌, IfSome, bytes_eq};
ghost use Rattle.std.specs.Prelude.{if◌then◌else◌, length, replicate, Some, None};
ghost use Rattle.std.specs.List.{list_any};
ghost use Rattle.luks_kdf.specs.Hash.{hash_of, digest_len};
ghost use Rattle.luks_format.specs.Fields.{at};
ghost use Rattle.luks_format.specs.Checksum2.{checksum_matches, without_checksum};
ghost use Rattle.luks_format.specs.Choice2.{beginning_at, binary_at, fits, is_binary_of, is_valid};
ghost use Rattle.luks_format.specs.Choice2.{size_at};
ghost use Rattle.luks_format.specs.Header2.{checksum_hash_in, size_in, sizes};
ghost use Rattle.luks_format.specs.Search2.{offsets};

use crate::binary_header2::{BINARY_LEN, checksum_hash_in, hdr_offset_in, size_in};
use luks_kdf::{Hash, digest};

/// The lengths that a header and its JSON area can have together, in bytes. They are also the
/// offsets of secondary headers.
static SIZES: [u64; 9] = [
    16_384, 32_768, 65_536, 131_072, 262_144, 524_288, 1_048_576, 2_097_152, 4_194_304,
];

/// The offsets at which a header may be.
static OFFSETS: [u32; 10] = [
    0, 16_384, 32_768, 65_536, 131_072, 262_144, 524_288, 1_048_576, 2_097_152, 4_194_304,
];

/// The first bytes of a primary header: the magic bytes and the version 2.
const PRIMARY_BEGINNING: [u8; 8] = [0x4c, 0x55, 0x4b, 0x53, 0xba, 0xbe, 0x00, 0x02];

/// The first bytes of a secondary header.
const SECONDARY_BEGINNING: [u8; 8] = [0x53, 0x4b, 0x55, 0x4c, 0xba, 0xbe, 0x00, 0x02];

// Whether a binary header starts with the magic bytes and the version that belong at this offset.
#[tactic(auto, unfolding(crate::specs::Choice2::beginning_at))]
fn begins(offset: u64, binary: &[u8]) -> bool
    ensures { result ≡ bytes_eq (at 0 8 binary.now) (beginning_at offset) }
{
    if offset == 0 {
        binary.starts_with(&PRIMARY_BEGINNING)
    } else {
        binary.starts_with(&SECONDARY_BEGINNING)
    }
}

// Whether the number is one of the nine lengths.
#[tactic(auto, unfolding(crate::specs::Header2::sizes))]
fn is_size(number: u64) -> bool
    ensures { result ≡ list_any (λ size. size == number) sizes }
{
    SIZES.contains(&number)
}

// Whether these bytes are a binary header for this offset.
#[tactic(auto, unfolding(crate::specs::Choice2::is_binary_of))]
fn is_binary_of(offset: u64, binary: &[u8]) -> bool
    requires { length binary.now ≡ 4096 }
    ensures { result ≡ is_binary_of offset binary.now }
{
    let size = size_in(binary);
    begins(offset, binary)
        && is_size(size)
        && (offset == 0 || size == offset)
        && hdr_offset_in(binary) == offset
        && checksum_hash_in(binary).is_some()
}

/// The 4,096 bytes at an offset.
pub(crate) fn binary_at(bytes: &[u8], offset: usize) -> &[u8]
    requires { offset + 4096 ≤ length bytes.now }
    ensures value { result.now ≡ binary_at bytes.now offset }
    ensures whole { length result.now ≡ 4096 }
{
    &bytes[offset..offset + BINARY_LEN]
}

// Whether a binary header for this offset is at the offset.
#[tactic(auto, unfolding(crate::specs::Choice2::fits))]
fn fits(bytes: &[u8], offset: usize) -> bool
    ensures { result ≡ fits bytes.now offset }
{
    offset.saturating_add(BINARY_LEN) <= bytes.len()
        && is_binary_of(offset as u64, binary_at(bytes, offset))
}

static NO_CHECKSUM: [u8; 64] = [0; 64];

// The bytes in place of a checksum while it is computed.
fn no_checksum() -> &'static [u8]
    ensures { result.now ≡ replicate 64 0 }
{
    &NO_CHECKSUM
}

// Whether the checksum of a header by this hash function is the stored one. `sum` is a buffer for
// it.
#[tactic(auto, unfolding(crate::specs::Checksum2::without_checksum))]
fn agrees(hash: Hash, header: &[u8], sum: &mut [u8]) -> bool
    requires whole { 4096 ≤ length header.now }
    requires capacity { length sum.old ≡ digest_len hash }
    ensures { result ≡ bytes_eq (hash_of hash (without_checksum header.now))
        (at 448 (digest_len hash) header.now) }
{
    digest(hash, &header[..448], no_checksum(), &header[512..], sum);
    header[448..].starts_with(sum)
}

// Whether the checksum of a header and its JSON area is the stored one.
#[tactic(auto, unfolding(crate::specs::Checksum2::checksum_matches))]
fn checksum_matches(header: &[u8]) -> bool
    requires { 4096 ≤ length header.now }
    ensures { result ≡ checksum_matches header.now }
{
    let mut sum = [0; 64];
    match checksum_hash_in(header) {
        Some(hash) => agrees(hash, header, &mut sum[..hash.size()]),
        None => false,
    }
}

/// Whether a valid header is at the offset: it fits, all of it is there, and its checksum matches.
#[tactic(auto, unfolding(crate::specs::Choice2::is_valid))]
pub(crate) fn is_valid(bytes: &[u8], offset: usize) -> bool
    ensures { result ≡ is_valid bytes.now offset }
{
    let Some(size) = fitting_size(bytes, offset) else {
        return false;
    };
    offset + size <= bytes.len() && checksum_matches(&bytes[offset..offset + size])
}

/// The length of the header at the offset, if one fits.
pub(crate) fn fitting_size(bytes: &[u8], offset: usize) -> Option<usize>
    ensures value { result
        ≡ (if fits bytes.now offset then Some (size_at bytes.now offset) else None) }
    ensures range { IfSome result (λ size. (16384 ≤ size) × (size ≤ 4194304)) }
    ensures within { IfSome result (λ size. offset + 4096 ≤ length bytes.now) }
{
    if fits(bytes, offset) {
        Some(size_in(binary_at(bytes, offset)) as usize)
    } else {
        None
    }
}

/// The offsets at which a header may be, ascending.
#[tactic(auto, unfolding(crate::specs::Header2::sizes, crate::specs::Search2::offsets))]
pub(crate) fn offsets() -> &'static [u32]
    ensures { result.now ≡ offsets }
{
    &OFFSETS
}
