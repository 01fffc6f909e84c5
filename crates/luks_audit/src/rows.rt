//! The fields of a header of either format, as the header has them. A field is `None` if the header
//! does not have it, or has it in a form that is not the standard's.

use crate::text::Text;
use crate::tree::Tree;
use luks_format::slot::VerdictKind;
use luks_header::header::{HeaderRole, PairFinding};
use luks_kdf::Hash;
use luks2_json::list::Names;

/// The length of a segment.
#[derive(Clone, Copy)]
pub enum Length {
    /// It goes to the image's end.
    Dynamic,
    /// It has this many bytes.
    Fixed(u64),
}

/// How a cipher encrypts sectors.
#[derive(Clone, Copy)]
pub enum CipherMode {
    /// Not at all.
    Null,
    /// Block by block, in electronic codebook mode.
    Ecb,
    /// By cipher block chaining.
    Cbc,
    /// By XTS, with two keys for the cipher.
    Xts,
    /// By LRW, with a second key of 16 bytes.
    Lrw,
    /// In another mode, or one that is not known.
    Other,
}

/// The binary header.
#[derive(Drop)]
pub struct HeaderRow {
    /// The version of the format.
    pub version: u64,
    /// The volume's UUID.
    pub uuid: Text,
    /// The volume's label.
    pub label: Option<Text>,
    /// The volume's subsystem.
    pub subsystem: Option<Text>,
    /// Which of the two headers of LUKS2 it is.
    pub role: Option<HeaderRole>,
    /// What is wrong with the two.
    pub finding: Option<PairFinding>,
    /// A number that increases with each change of the header.
    pub seqid: Option<u64>,
    /// The length of the header and its JSON area in bytes.
    pub header_size: Option<u64>,
    /// The hash function of the checksum.
    pub checksum_hash: Option<Hash>,
    /// The salt.
    pub salt: Option<Text>,
}

/// The payload.
#[derive(Drop)]
pub struct PayloadRow {
    /// The cipher with its mode.
    pub cipher: Option<Text>,
    /// The length of the volume key in bytes.
    pub key_bytes: Option<u64>,
    /// The length of a sector in bytes.
    pub sector_size: Option<u64>,
    /// The number of the first sector.
    pub iv_tweak: Option<u64>,
    /// The first byte of the payload.
    pub segment_offset: Option<u64>,
    /// The length of the payload.
    pub segment_size: Option<Length>,
    /// The type of the segment.
    pub segment_type: Option<Text>,
    /// The flags of the segment.
    pub segment_flags: Option<Names>,
    /// The type of integrity tags.
    pub integrity: Option<Text>,
    /// The flags with which the volume is activated.
    pub flags: Option<Names>,
    /// What a program that reads the volume must support.
    pub requirements: Option<Names>,
    /// Whether a segment is not encrypted, as while a volume is being encrypted or decrypted. This
    /// is not listed.
    pub has_linear: bool,
    /// How the cipher encrypts sectors. This is not listed.
    pub mode: CipherMode,
}

/// A key slot.
#[derive(Drop)]
pub struct SlotRow {
    /// Its number.
    pub number: u8,
    /// Whether luksrd can try it, or why it is skipped.
    pub verdict: VerdictKind,
    /// Whether the library can try it, by its default limits.
    pub library_can_try: bool,
    /// Its priority.
    pub priority: Option<u64>,
    /// The length of the volume key in bytes.
    pub key_bytes: Option<u64>,
    /// The key derivation function.
    pub kdf: Option<Text>,
    /// The hash function of the key derivation.
    pub hash: Option<Text>,
    /// The salt of the key derivation.
    pub salt: Option<Text>,
    /// The iterations of PBKDF2.
    pub iterations: Option<u64>,
    /// The passes of Argon2.
    pub time: Option<u64>,
    /// The memory of Argon2 in KiB.
    pub memory: Option<u64>,
    /// The threads of Argon2.
    pub threads: Option<u64>,
    /// The hash function of the stripes.
    pub af_hash: Option<Text>,
    /// The number of stripes.
    pub stripes: Option<u64>,
    /// The cipher of the key material.
    pub area_cipher: Option<Text>,
    /// The length in bytes of the key that encrypts the key material.
    pub area_key_bytes: Option<u64>,
    /// The first byte of the key material.
    pub area_offset: Option<u64>,
    /// The bytes that are reserved for the key material.
    pub area_size: Option<u64>,
    /// Whether it can hold a key. This is not listed.
    pub holds_key: bool,
    /// How the cipher encrypts the key material. This is not listed.
    pub mode: CipherMode,
}

/// A digest.
#[derive(Drop)]
pub struct DigestRow {
    /// Its number.
    pub number: u8,
    /// Its type.
    pub kind: Option<Text>,
    /// Its hash function.
    pub hash: Option<Text>,
    /// Its salt.
    pub salt: Option<Text>,
    /// Its iterations.
    pub iterations: Option<u64>,
    /// The digest.
    pub digest: Option<Text>,
    /// The length of the digest in bytes.
    pub bytes: Option<u64>,
    /// The key slots that it belongs to.
    pub keyslots: Option<Names>,
    /// The segments that it belongs to.
    pub segments: Option<Names>,
}

/// A token of LUKS2.
#[derive(Drop)]
pub struct TokenRow {
    /// Its number.
    pub number: u8,
    /// Its type.
    pub kind: Option<Text>,
    /// The key slots that it is for.
    pub keyslots: Names,
    /// The whole object, or null if it has a float.
    pub stored: Tree,
}
