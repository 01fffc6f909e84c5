//! The reasons why a volume is not opened.

ghost use Rattle.std.specs.Prelude.{◌≡◌};

use crate::skipped::SkippedSlots;
use luks_header::fault::HeaderFault;
use luks_header::refusal::{SegmentFault, SkipReason};
use luks_io::source::ReadFault;
use std::alloc::AllocError;

/// Why a volume is not opened.
#[derive(Clone, Copy, PartialEq, Eq, Debug)]
pub enum VolumeFault {
    /// No header was read, or a read of a key area failed, or memory for one ran out.
    Header(HeaderFault),
    /// The segment is refused, so the payload cannot be read.
    Segment(SegmentFault),
    /// The passphrase was not read.
    Passphrase(PassphraseFault),
    /// The image ends inside a key area.
    KeyAreaCut,
    /// No key slot opens, or memory for key slots or digests ran out.
    Slots(OpenFault),
    /// The memory that Argon2 needs for the key slot with this number was refused: so much in KiB.
    Argon2Memory(u8, u32),
}

/// Why a passphrase was not read.
#[derive(Clone, Copy, PartialEq, Eq, Debug)]
pub enum PassphraseFault {
    /// It is longer than 8,388,608 bytes.
    TooLong,
    /// A read failed.
    Read,
    /// Memory ran out.
    Memory,
}

/// Why no key slot opens a volume.
#[derive(Clone, Copy, PartialEq, Eq, Debug)]
pub enum OpenFault {
    /// The header has no key slot with this number, which was named.
    NoSuchSlot(u8),
    /// The key slot with this number, which was named, is not in use.
    Disabled(u8),
    /// The key slot with this number, which was named, cannot be tried.
    NamedSkipped(u8, SkipReason),
    /// There is no key slot to try. These were skipped.
    NothingTried(SkippedSlots),
    /// No key slot that was tried opens the volume. These were skipped, or none if a key slot was
    /// named.
    NoKey(SkippedSlots),
    /// Out of memory.
    Memory,
}

impl From<HeaderFault> for VolumeFault {
    ghost use Rattle.luks_open.specs.declared.fault.VolumeFault.{VolumeFault};

    ghost from_gives = { λ it fault. fault ≡ VolumeFault.Header it };

    fn from(fault: HeaderFault) -> VolumeFault {
        VolumeFault::Header(fault)
    }
}

impl From<SegmentFault> for VolumeFault {
    ghost use Rattle.luks_open.specs.declared.fault.VolumeFault.{VolumeFault};

    ghost from_gives = { λ it fault. fault ≡ VolumeFault.Segment it };

    fn from(fault: SegmentFault) -> VolumeFault {
        VolumeFault::Segment(fault)
    }
}

impl From<PassphraseFault> for VolumeFault {
    ghost use Rattle.luks_open.specs.declared.fault.VolumeFault.{VolumeFault};

    ghost from_gives = { λ it fault. fault ≡ VolumeFault.Passphrase it };

    fn from(fault: PassphraseFault) -> VolumeFault {
        VolumeFault::Passphrase(fault)
    }
}

impl From<OpenFault> for VolumeFault {
    ghost use Rattle.luks_open.specs.declared.fault.VolumeFault.{VolumeFault};

    ghost from_gives = { λ it fault. fault ≡ VolumeFault.Slots it };

    fn from(fault: OpenFault) -> VolumeFault {
        VolumeFault::Slots(fault)
    }
}

impl From<AllocError> for VolumeFault {
    ghost use Rattle.luks_open.specs.declared.fault.OpenFault.{OpenFault};
    ghost use Rattle.luks_open.specs.declared.fault.VolumeFault.{VolumeFault};

    ghost from_gives = { λ _ fault. fault ≡ VolumeFault.Slots OpenFault.Memory };

    fn from(_error: AllocError) -> VolumeFault {
        VolumeFault::Slots(OpenFault::Memory)
    }
}

impl From<AllocError> for OpenFault {
    ghost use Rattle.luks_open.specs.declared.fault.OpenFault.{OpenFault};

    ghost from_gives = { λ _ fault. fault ≡ OpenFault.Memory };

    fn from(_error: AllocError) -> OpenFault {
        OpenFault::Memory
    }
}

impl From<AllocError> for PassphraseFault {
    ghost use Rattle.luks_open.specs.declared.fault.PassphraseFault.{PassphraseFault};

    ghost from_gives = { λ _ fault. fault ≡ PassphraseFault.Memory };

    fn from(_error: AllocError) -> PassphraseFault {
        PassphraseFault::Memory
    }
}

impl From<ReadFault> for PassphraseFault {
    ghost use Rattle.luks_open.specs.declared.fault.PassphraseFault.{PassphraseFault};

    ghost from_gives = { λ _ fault. fault ≡ PassphraseFault.Read };

    fn from(_fault: ReadFault) -> PassphraseFault {
        PassphraseFault::Read
    }
}
