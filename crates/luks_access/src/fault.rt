//! Why a range of plaintext is not read.

use crate::image::ReadAtFault;

/// Why a range of a volume's plaintext is not read.
#[derive(Clone, Copy, PartialEq, Eq, Debug)]
pub enum RangeFault {
    /// The range ends past the plaintext. The buffer is as it was.
    PastEnd,
    /// A read of the image failed.
    Read,
    /// The image has become shorter: it ends before the last sector of the range does.
    Shorter,
}

impl From<ReadAtFault> for RangeFault {
    ghost use Rattle.std.specs.Prelude.{◌≡◌};
    ghost use Rattle.luks_access.specs.Sectors.{range_fault};

    ghost from_gives = { λ it fault. fault ≡ range_fault it };

    fn from(fault: ReadAtFault) -> RangeFault {
        match fault {
            ReadAtFault::Failed => RangeFault::Read,
            ReadAtFault::Ended => RangeFault::Shorter,
        }
    }
}
