//! What a volume is made from. Parameters are not `Debug`, since they hold keys and passphrases.

use luks_cipher::Mode;
use luks_format::sector_size::SectorSize;
use luks_kdf::Hash;
use std::alloc::AllocError;

/// A volume of LUKS1.
#[derive(Clone, Copy)]
pub struct Seal1<'a> {
    /// The hash function of the key slots, the stripes and the digest.
    pub hash: Hash,
    /// The mode in which the payload and the key material are encrypted.
    pub mode: Mode,
    /// The volume key. Its length is one of those of the mode.
    pub key: &'a [u8],
    /// How many stripes hold the key, from 1 to 4000.
    pub stripes: u32,
    /// Where the payload starts, in sectors of 512 bytes: after the areas of eight slots, and at
    /// most 65,536.
    pub payload_sectors: u32,
    /// The UUID, of at most 40 bytes, none of them zero.
    pub uuid: &'a [u8],
    /// The salt of the key's digest.
    pub digest_salt: [u8; 32],
    /// The iterations of the key's digest, at least 1.
    pub digest_iterations: u32,
    /// The key slots that are in use, each with a number of its own.
    pub slots: &'a [Slot1<'a>],
    /// The plaintext: whole sectors of 512 bytes, and 8,388,608 bytes at most.
    pub plain: &'a [u8],
}

/// A key slot of LUKS1 that is in use.
#[derive(Clone, Copy)]
pub struct Slot1<'a> {
    /// Its number, from 0 to 7.
    pub number: u32,
    /// The PBKDF2 iterations that derive its key from the passphrase, at least 1.
    pub iterations: u32,
    /// The PBKDF2 salt that its key is derived with.
    pub salt: [u8; 32],
    /// The passphrase.
    pub passphrase: &'a [u8],
    /// The random stripes: their length is the key's length times one less than the number of
    /// stripes.
    pub random: &'a [u8],
}

/// A volume of LUKS2.
#[derive(Clone, Copy)]
pub struct Seal2<'a> {
    /// The length of a header and its JSON area in bytes, one of the nine that the format has.
    pub hdr_size: u64,
    /// The sequence number of the last change, which both headers have.
    pub seqid: u64,
    /// The UUID, of at most 40 bytes, none of them zero.
    pub uuid: &'a [u8],
    /// The label, of at most 48 bytes, none of them zero.
    pub label: &'a [u8],
    /// The subsystem, of at most 48 bytes, none of them zero.
    pub subsystem: &'a [u8],
    /// The salt of the primary header, which makes its checksum differ from others.
    pub primary_salt: [u8; 64],
    /// The salt of the secondary header.
    pub secondary_salt: [u8; 64],
    /// The mode in which the payload is encrypted.
    pub mode: Mode,
    /// The volume key. Its length is one of those of the mode.
    pub key: &'a [u8],
    /// The length of a sector of the payload.
    pub sector_size: SectorSize,
    /// The unit number of the payload's first sector.
    pub iv_tweak: u64,
    /// Where the payload starts, in bytes: a multiple of 4096 after all areas, and at most
    /// 33,554,432.
    pub offset: u64,
    /// Whether the header states the payload's length. If not, the payload ends with the image.
    pub fixed: bool,
    /// The mode in which the key material is encrypted.
    pub area_mode: Mode,
    /// The length in bytes of the keys that encrypt the key material, one that `area_mode` has.
    pub area_key_size: usize,
    /// The hash function of the key's digest.
    pub digest_hash: Hash,
    /// The salt of the key's digest.
    pub digest_salt: [u8; 32],
    /// The iterations of the key's digest, at least 1.
    pub digest_iterations: u32,
    /// The key slots, each with a number of its own.
    pub slots: &'a [Slot2<'a>],
    /// The plaintext: whole sectors, and 8,388,608 bytes at most.
    pub plain: &'a [u8],
}

/// A key slot of LUKS2.
#[derive(Clone, Copy)]
pub struct Slot2<'a> {
    /// Its number, from 0 to 31.
    pub number: u32,
    /// Its priority: 2 is tried first, then 1, and 0 only if the slot is chosen by its number.
    pub priority: u32,
    /// The hash function of PBKDF2, which derives its key from the passphrase.
    pub hash: Hash,
    /// The PBKDF2 iterations that derive its key from the passphrase, at least 1.
    pub iterations: u32,
    /// The PBKDF2 salt that its key is derived with.
    pub salt: [u8; 32],
    /// The hash function of its stripes.
    pub af_hash: Hash,
    /// How many stripes hold the volume key, from 1 to 4000.
    pub stripes: u32,
    /// The passphrase.
    pub passphrase: &'a [u8],
    /// The random stripes: their length is the key's length times one less than the number of
    /// stripes.
    pub random: &'a [u8],
}

/// Why there is no volume.
#[derive(Clone, Copy, PartialEq, Eq, Debug)]
pub enum SealFault {
    /// A value is out of range. No memory was allocated, unless only the JSON text of LUKS2 does
    /// not fit.
    Parameters,
    /// Memory ran out.
    Memory,
}

impl From<AllocError> for SealFault {
    ghost use Rattle.std.specs.Prelude.{◌≡◌};
    ghost use Rattle.luks_volume.specs.declared.parameters.SealFault.TheVariants.{Memory};

    ghost from_gives = { λ _ fault. fault ≡ Memory };

    fn from(_error: AllocError) -> SealFault {
        SealFault::Memory
    }
}
