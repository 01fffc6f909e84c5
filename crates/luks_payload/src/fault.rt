//! How forwarding a payload can fail.

use luks_io::sink::WriteFault;
use luks_io::source::ReadFault;

/// Why a payload was not written to its end.
#[derive(Clone, Copy, PartialEq, Eq, Debug)]
pub enum PayloadFault {
    /// The image ends before its payload begins.
    CutBeforePayload,
    /// The image ends inside a sector, and has this many bytes of it.
    Tail(u64),
    /// The image ends this many bytes before the end of a payload of fixed size.
    Short(u64),
    /// A read of the image failed.
    Read,
    /// A write of plaintext failed.
    Write,
}

impl From<ReadFault> for PayloadFault {
    ghost use Rattle.std.specs.Prelude.{◌≡◌};
    ghost use Rattle.luks_payload.specs.declared.fault.PayloadFault.TheVariants.{Read};

    ghost from_gives = { λ _ fault. fault ≡ Read };

    fn from(_fault: ReadFault) -> PayloadFault {
        PayloadFault::Read
    }
}

impl From<WriteFault> for PayloadFault {
    ghost use Rattle.std.specs.Prelude.{◌≡◌};
    ghost use Rattle.luks_payload.specs.declared.fault.PayloadFault.TheVariants.{Write};

    ghost from_gives = { λ _ fault. fault ≡ Write };

    fn from(_fault: WriteFault) -> PayloadFault {
        PayloadFault::Write
    }
}
