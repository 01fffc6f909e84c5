//! How reading a header can fail.

ghost use Rattle.std.specs.Prelude.{◌≡◌};
ghost use Rattle.luks_format.specs.declared.fault.HeaderFault.TheVariants.{Memory};

use std::alloc::AllocError;

/// Why no header was read.
#[derive(Clone, Copy, PartialEq, Eq, Debug)]
pub enum HeaderFault {
    /// The image has neither a LUKS1 header nor a valid LUKS2 header.
    NotLuks,
    /// The image ends inside its LUKS1 header.
    Cut,
    /// The text of a header's JSON area cannot be read.
    Json,
    /// A read of the image failed.
    Read,
    /// Memory ran out.
    Memory,
}

impl From<AllocError> for HeaderFault {
    ghost from_gives = { λ _ fault. fault ≡ Memory };

    fn from(_error: AllocError) -> HeaderFault {
        HeaderFault::Memory
    }
}
