//! The message for each fault of the layers below.

ghost use Rattle.std.specs.Prelude.{◌≡◌};

use crate::message::Message;
use luks_header::fault::HeaderFault;
use luks_header::refusal::SegmentFault;
use luks_io::sink::WriteFault;
use luks_io::source::ReadFault;
use luks_open::fault::{OpenFault, PassphraseFault, VolumeFault};
use luks_payload::fault::PayloadFault;
use std::alloc::AllocError;

impl From<AllocError> for Message {
    ghost use Rattle.luks_report.specs.declared.message.Message.{Message};

    ghost from_gives = { λ _ message. message ≡ Message.OutOfMemory };

    fn from(_error: AllocError) -> Message {
        Self::OutOfMemory
    }
}

impl From<HeaderFault> for Message {
    ghost use Rattle.luks_report.specs.Faults.{message_for_header};

    ghost from_gives = { λ fault message. message ≡ message_for_header fault };

    fn from(fault: HeaderFault) -> Message {
        match fault {
            HeaderFault::NotLuks => Message::NotLuks,
            HeaderFault::Cut => Message::Cut,
            HeaderFault::Json => Message::Json,
            HeaderFault::Read => Message::ReadFailed,
            HeaderFault::Memory => Message::OutOfMemory,
        }
    }
}

impl From<SegmentFault> for Message {
    ghost use Rattle.luks_report.specs.declared.message.Message.{Message};

    ghost from_gives = { λ fault message. message ≡ Message.SegmentRefused fault };

    fn from(fault: SegmentFault) -> Message {
        Message::SegmentRefused(fault)
    }
}

impl From<PassphraseFault> for Message {
    ghost use Rattle.luks_report.specs.Faults.{message_for_passphrase};

    ghost from_gives = { λ fault message. message ≡ message_for_passphrase fault };

    fn from(fault: PassphraseFault) -> Message {
        match fault {
            PassphraseFault::TooLong => Message::KeyFileLength,
            PassphraseFault::Read => Message::ReadFailed,
            PassphraseFault::Memory => Message::OutOfMemory,
        }
    }
}

impl From<OpenFault> for Message {
    ghost use Rattle.luks_report.specs.Faults.{message_for_slots};

    ghost from_gives = { λ fault message. message ≡ message_for_slots fault };

    fn from(fault: OpenFault) -> Message {
        match fault {
            OpenFault::NoSuchSlot(slot) => Message::NoSuchSlot(slot),
            OpenFault::Disabled(slot) => Message::SlotDisabled(slot),
            OpenFault::NamedSkipped(slot, reason) => Message::SlotSkipped(slot, reason),
            OpenFault::NothingTried(skipped) => Message::NothingTried(skipped),
            OpenFault::NoKey(skipped) => Message::NoKey(skipped),
            OpenFault::Memory => Message::OutOfMemory,
        }
    }
}

impl From<VolumeFault> for Message {
    ghost use Rattle.luks_report.specs.Faults.{message_for_volume};

    ghost from_gives = { λ fault message. message ≡ message_for_volume fault };

    fn from(fault: VolumeFault) -> Message {
        match fault {
            VolumeFault::Header(fault) => Message::from(fault),
            VolumeFault::Segment(fault) => Message::from(fault),
            VolumeFault::Passphrase(fault) => Message::from(fault),
            VolumeFault::KeyAreaCut => Message::Cut,
            VolumeFault::Slots(fault) => Message::from(fault),
            VolumeFault::Argon2Memory(_, _) => Message::OutOfMemory,
        }
    }
}

impl From<PayloadFault> for Message {
    ghost use Rattle.luks_report.specs.Faults.{message_for_payload};

    ghost from_gives = { λ fault message. message ≡ message_for_payload fault };

    fn from(fault: PayloadFault) -> Message {
        match fault {
            PayloadFault::CutBeforePayload => Message::CutBeforePayload,
            PayloadFault::Tail(bytes) => Message::Tail(bytes),
            PayloadFault::Short(bytes) => Message::Short(bytes),
            PayloadFault::Read => Message::ReadFailed,
            PayloadFault::Write => Message::WriteFailed,
        }
    }
}

impl From<ReadFault> for Message {
    ghost use Rattle.luks_report.specs.declared.message.Message.{Message};

    ghost from_gives = { λ _ message. message ≡ Message.ReadFailed };

    fn from(_fault: ReadFault) -> Message {
        Self::ReadFailed
    }
}

impl From<WriteFault> for Message {
    ghost use Rattle.luks_report.specs.declared.message.Message.{Message};

    ghost from_gives = { λ _ message. message ≡ Message.WriteFailed };

    fn from(_fault: WriteFault) -> Message {
        Self::WriteFailed
    }
}
