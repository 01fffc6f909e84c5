//! What luksrd prints on standard error when it ends, and its exit status.

ghost use Rattle.std.specs.Prelude.{◌≡◌};
ghost use Rattle.luks_report.specs.Texts.{status_of};

use luks_header::refusal::{SegmentFault, SkipReason};
use luks_open::skipped::SkippedSlots;

/// How a run ended. It prints as its line, newline included, or as nothing.
#[derive(Clone, Copy, Debug, PartialEq, Eq)]
pub enum Message {
    /// Success; no message.
    Done,
    /// `isLuks` found no LUKS header; only the status reports it.
    No,
    /// The arguments are not a luksrd command. The message is the usage text.
    Usage,
    /// The segment is refused, so the payload cannot be read.
    SegmentRefused(SegmentFault),
    /// The key slot that was named is not there.
    NoSuchSlot(u8),
    /// The key slot that was named is not in use.
    SlotDisabled(u8),
    /// The key slot that was named cannot be tried.
    SlotSkipped(u8, SkipReason),
    /// There is no key slot to try. These were skipped.
    NothingTried(SkippedSlots),
    /// The key file is longer than 8,388,608 bytes.
    KeyFileLength,
    /// No key slot that was tried opens the volume. These were skipped.
    NoKey(SkippedSlots),
    /// The image has no LUKS header.
    NotLuks,
    /// The image ends inside the header or a key area.
    Cut,
    /// The JSON area of a LUKS2 header is not readable.
    Json,
    /// The image ends before its payload begins.
    CutBeforePayload,
    /// The image ends inside a sector: it has this many bytes of it.
    Tail(u64),
    /// The image ends this many bytes before the end of a payload of fixed size.
    Short(u64),
    /// A check of a header has findings.
    Findings,
    /// A key to be split is empty or longer than 512 bytes.
    KeyLength,
    /// The random bytes are fewer than the stripes need; all stripes but the last are random.
    FewRandomBytes,
    /// The input ended before the last stripe was complete.
    FewStripes,
    /// Memory ran out.
    OutOfMemory,
    /// A read failed.
    ReadFailed,
    /// A write failed.
    WriteFailed,
}

impl Message {
    /// The exit status of a run that ended with this message.
    pub fn status(&self) -> u8
        ensures { result ≡ status_of self.now }
    {
        match self {
            Message::Done => 0,
            Message::No | Message::Usage => 1,
            Message::SegmentRefused(_) | Message::NothingTried(_) | Message::KeyFileLength => 1,
            Message::NoSuchSlot(_) | Message::SlotDisabled(_) | Message::SlotSkipped(..) => 1,
            Message::Findings => 1,
            Message::NoKey(_) => 2,
            Message::OutOfMemory => 3,
            Message::NotLuks | Message::Cut | Message::Json => 4,
            Message::CutBeforePayload | Message::Tail(_) | Message::Short(_) => 4,
            Message::KeyLength | Message::FewRandomBytes | Message::FewStripes => 4,
            Message::ReadFailed | Message::WriteFailed => 6,
        }
    }
}
