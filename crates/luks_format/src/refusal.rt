//! Why a key slot is skipped or a segment refused.

ghost use Rattle.std.specs.Prelude.{◌≡◌};
ghost use Rattle.luks_format.specs.SegmentFault.{fault_text};
ghost use Rattle.luks_format.specs.SkipReason.{asked_kib, reason_text};

/// Why a key slot cannot be tried. If there are several reasons, it is the first in this order.
#[derive(Clone, Copy, PartialEq, Eq, Debug)]
pub enum SkipReason {
    /// LUKS1: the state is neither that of a used slot nor that of an unused one.
    State,
    /// LUKS2: no object of type `luks2`.
    Kind,
    /// LUKS2: a member is missing, of the wrong type, or has a value that luksrd does not know.
    Member,
    /// LUKS2: the key is derived by Argon2i.
    Argon2i,
    /// LUKS2: the key is derived by Argon2id.
    Argon2id,
    /// LUKS2: the key is derived by another function that is not PBKDF2.
    Kdf,
    /// LUKS2: a hash function's name is not known.
    Hash,
    /// LUKS2: the encryption of the key material is not `aes-` and the name of a mode.
    Encryption,
    /// LUKS2: the length of the key material's key is not one of its mode, or the volume key's is
    /// not one of the payload's mode (of any mode, if the segment is refused).
    KeySize,
    /// The number of stripes is not 1 to 4000.
    Stripes,
    /// The number of iterations is 0, above 4,294,967,295 or above the limit.
    Iterations,
    /// LUKS2, if Argon2 is used: the time is not 1 to 4,294,967,295.
    Argon2Time,
    /// The same: the number of CPUs is not 1 to 16,777,215.
    Argon2Cpus,
    /// The same: the memory is less than 8 KiB for each CPU, or more than 4,294,967,295 KiB.
    Argon2Memory,
    /// The same: the memory, here in KiB, is above the limit.
    Argon2MemoryLimit(u64),
    /// The same: the memory that all passes fill, here in KiB, is above the limit.
    Argon2FillLimit(u64),
    /// The key material starts inside the header, or it ends past byte 33,554,432 or past the
    /// payload's start. LUKS2: or the area's size is below what the key material needs. The
    /// payload's start is no bound for a detached header, nor, in LUKS2, if the segment is refused.
    Area,
    /// LUKS1: the digest is not usable: its iterations are 0. LUKS2: no usable digest lists the
    /// slot and segment `0`. Both: the digest has more iterations than the limit.
    Digest,
}

impl SkipReason {
    /// The reason as dumps and messages state it.
    pub fn text(self) -> &'static str
        ensures { result.now ≡ reason_text self }
    {
        match self {
            SkipReason::State => "state",
            SkipReason::Kind => "type",
            SkipReason::Member => "member",
            SkipReason::Argon2i => "argon2i",
            SkipReason::Argon2id => "argon2id",
            SkipReason::Kdf => "kdf",
            SkipReason::Hash => "hash",
            SkipReason::Encryption => "encryption",
            SkipReason::KeySize => "key size",
            SkipReason::Stripes => "stripes",
            SkipReason::Iterations => "iterations",
            SkipReason::Argon2Time => "argon2 time",
            SkipReason::Argon2Cpus => "argon2 cpus",
            SkipReason::Argon2Memory => "argon2 memory",
            SkipReason::Argon2MemoryLimit(_) => "argon2 memory limit",
            SkipReason::Argon2FillLimit(_) => "argon2 fill limit",
            SkipReason::Area => "area",
            SkipReason::Digest => "digest",
        }
    }

    /// What the slot asks for in KiB, if that is above a limit on Argon2.
    pub fn asked_kib(self) -> Option<u64>
        ensures { result ≡ asked_kib self }
    {
        match self {
            SkipReason::Argon2MemoryLimit(kib) | SkipReason::Argon2FillLimit(kib) => Some(kib),
            _ => None,
        }
    }
}

/// Why a payload cannot be read. If there are several faults, it is the first in this order.
#[derive(Clone, Copy, PartialEq, Eq, Debug)]
pub enum SegmentFault {
    /// LUKS2: the configuration requires something of a program that reads the volume.
    Requirement,
    /// LUKS2: there is not exactly one segment, named `0`.
    Segments,
    /// LUKS2: a member is missing or of the wrong type.
    Member,
    /// LUKS2: the type is not `crypt`.
    Kind,
    /// LUKS2: the segment has integrity tags.
    Integrity,
    /// The payload's cipher is not AES, or its mode is not known.
    Encryption,
    /// LUKS1: the hash function's name is not known.
    Hash,
    /// LUKS1: the length of the volume key is not one of the mode: 32 or 64 bytes for XTS, 16 or 32
    /// for CBC.
    KeyBytes,
    /// LUKS2: the length of a sector is not 512, 1024, 2048 or 4096 bytes.
    SectorSize,
    /// The payload does not start at a multiple of 512 bytes, or it starts inside an attached
    /// header.
    Offset,
    /// LUKS2: the length of the payload is fixed and not a multiple of the sectors' length.
    Size,
}

impl SegmentFault {
    /// The fault as dumps and messages state it.
    pub fn text(self) -> &'static str
        ensures { result.now ≡ fault_text self }
    {
        match self {
            SegmentFault::Requirement => "requirement",
            SegmentFault::Segments => "segments",
            SegmentFault::Member => "member",
            SegmentFault::Kind => "type",
            SegmentFault::Integrity => "integrity",
            SegmentFault::Encryption => "encryption",
            SegmentFault::Hash => "hash",
            SegmentFault::KeyBytes => "key bytes",
            SegmentFault::SectorSize => "sector size",
            SegmentFault::Offset => "offset",
            SegmentFault::Size => "size",
        }
    }
}
