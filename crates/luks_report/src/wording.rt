//! The lines of messages.

ghost use Rattle.std.specs.Prelude.{◌≡◌, ◌+◌, ◌<◌, ◌≤◌, ◌++◌, OnOk, IfErr, codes, decimal, is_err};
ghost use Rattle.std.specs.Prelude.{length, take};
ghost use Rattle.luks_io.specs.Counts.{Writes};
ghost use Rattle.luks_io.specs.Devices.{Appended};
ghost use Rattle.luks_report.specs.Texts.{message_line, line_of, more_skips_text, skip_text};
ghost use Rattle.luks_report.specs.Texts.{argon2_memory_text, asked_text, first_skip_text};
ghost use Rattle.luks_report.specs.Texts.{header_fault_line, skips_text};
ghost use Rattle.luks_header.specs.SkipReason.{asked_kib};

use crate::header_fault::fault_sentence;
use crate::message::Message;
use crate::message_line::Line;
use crate::usage::usage;
use luks_header::fault::HeaderFault;
use luks_header::refusal::SkipReason;
use luks_io::sink::{Sink, WriteFault, put_all};
use luks_open::skipped::SkippedSlots;

impl Message {
    /// Writes the line of the message, if it has one, newline included.
    ///
    /// # Errors
    ///
    /// A [`WriteFault`] if a write failed: it has the number of bytes of the line that were written
    /// before.
    pub fn print<O: Sink>(&self, out: &mut O) -> Result<(), WriteFault>
        ensures ok { OnOk result (Appended (O.written out.old) (O.written out.new)
            (line_of self.now)) }
        ensures err { IfErr result (λ fault. (fault.written < length (line_of self.now))
            × Appended (O.written out.old) (O.written out.new)
            (take fault.written (line_of self.now))) }
        ensures writes { Writes (is_err result) (O.counts out.old) (O.counts out.new) }
    {
        put_all(out, self.line().as_slice())
    }

    /// The line of the message, newline included, or nothing if it has none.
    #[tactic(auto, using(crate::proofs::Lengths::fault_len))]
    pub fn line(&self) -> Line
        ensures value { result ≡ line_of self.now }
        ensures fits { length result ≤ 1016 }
    {
        match self {
            Message::Done | Message::No => Line::new(),
            Message::Usage => text(usage()),
            Message::SegmentRefused(fault) => sentence("segment refused: ", fault.text()),
            Message::NoSuchSlot(slot) => on_slot(*slot, " is not there"),
            Message::SlotDisabled(slot) => on_slot(*slot, " is disabled"),
            Message::SlotSkipped(slot, reason) => slot_skipped(*slot, *reason),
            Message::NothingTried(skipped) => with_skipped("no key slot can be tried", skipped),
            Message::KeyFileLength => sentence("key file is longer than 8388608 bytes", ""),
            Message::NoKey(skipped) => with_skipped("no key opens the volume", skipped),
            Message::Findings => sentence("the header has findings", ""),
            Message::NotLuks => header_fault_line(HeaderFault::NotLuks),
            Message::Cut => header_fault_line(HeaderFault::Cut),
            Message::Json => header_fault_line(HeaderFault::Json),
            Message::CutBeforePayload => sentence("image ends before the payload", ""),
            Message::Tail(left) => {
                of_bytes("image ends inside a sector: ", *left, " bytes left over")
            }
            Message::Short(missing) => {
                of_bytes("image ends ", *missing, " bytes before the segment does")
            }
            Message::KeyLength => sentence("key must be 1 to 512 bytes", ""),
            Message::FewRandomBytes => sentence("random bytes are too few", ""),
            Message::FewStripes => sentence("stripes are too few", ""),
            Message::OutOfMemory => header_fault_line(HeaderFault::Memory),
            Message::ReadFailed => header_fault_line(HeaderFault::Read),
            Message::WriteFailed => sentence("write failed", ""),
        }
    }
}

/// The text about memory that Argon2 needs for a key slot and does not get. It has no newline.
pub fn argon2_memory_line(slot: u8, memory_kib: u32) -> Line
    ensures value { result ≡ argon2_memory_text slot memory_kib }
    ensures fits { length result ≤ 200 }
{
    let mut whole = Line::new();
    whole.push("luksrd: out of memory: Argon2 needs ");
    whole.push_number(u64::from(memory_kib));
    whole.push(" KiB for key slot ");
    whole.push_number(u64::from(slot));
    whole
}

// A text as it is.
fn text(text: &str) -> Line
    requires { length text.now ≤ 2048 }
    ensures { result ≡ text.now }
{
    let mut whole = Line::new();
    whole.push(text);
    whole
}

// Why no header was read, on a line.
#[tactic(auto, using(crate::proofs::Lengths::sentence_len))]
fn header_fault_line(fault: HeaderFault) -> Line
    ensures { result ≡ header_fault_line fault }
{
    let mut whole = Line::new();
    whole.push(fault_sentence(fault));
    whole.push("\n");
    whole
}

// A line of two texts.
fn sentence(text: &str, rest: &str) -> Line
    requires { length text.now + length rest.now ≤ 200 }
    ensures value { result ≡ message_line (text.now ++ rest.now) }
    ensures fits { length result ≤ 300 }
{
    let mut whole = Line::new();
    whole.push("luksrd: ");
    whole.push(text);
    whole.push(rest);
    whole.push("\n");
    whole
}

// A line with a number of bytes.
fn of_bytes(text: &str, bytes: u64, rest: &str) -> Line
    requires { length text.now + length rest.now ≤ 200 }
    ensures value { result ≡ message_line (text.now ++ decimal bytes ++ rest.now) }
    ensures fits { length result ≤ 300 }
{
    let mut whole = Line::new();
    whole.push("luksrd: ");
    whole.push(text);
    whole.push_number(bytes);
    whole.push(rest);
    whole.push("\n");
    whole
}

// A line about a key slot.
fn on_slot(slot: u8, text: &str) -> Line
    requires { length text.now ≤ 200 }
    ensures value { result ≡ message_line (codes "key slot " ++ decimal slot ++ text.now) }
    ensures fits { length result ≤ 300 }
{
    let mut whole = Line::new();
    whole.push("luksrd: key slot ");
    whole.push_small(slot);
    whole.push(text);
    whole.push("\n");
    whole
}

// A line about a key slot that is named and skipped.
#[tactic(auto, using(crate::proofs::Lengths::reason_len))]
fn slot_skipped(slot: u8, reason: SkipReason) -> Line
    ensures value { result ≡ line_of (Message.SlotSkipped slot reason) }
    ensures fits { length result ≤ 300 }
{
    let mut whole = Line::new();
    whole.push("luksrd: key slot ");
    whole.push_small(slot);
    whole.push(" is skipped: ");
    whole.push(reason.text());
    push_asked(&mut whole, reason);
    whole.push("\n");
    whole
}

// A line that ends with the key slots that were skipped.
fn with_skipped(text: &str, skipped: &SkippedSlots) -> Line
    requires { length text.now ≤ 30 }
    ensures value { result ≡ message_line (text.now ++ skips_text skipped.now) }
    ensures fits { length result ≤ 1016 }
{
    let mut whole = Line::new();
    whole.push("luksrd: ");
    whole.push(text);
    push_skipped(&mut whole, skipped.as_slice());
    whole.push("\n");
    whole
}

// Appends the text about the skipped key slots to a line.
fn push_skipped(whole: &mut Line, skipped: &[(u8, SkipReason)])
    requires short { length whole.old ≤ 40 }
    requires few { length skipped.now ≤ 32 }
    ensures value { whole.new ≡ whole.old ++ skips_text skipped.now }
    ensures fits { length whole.new ≤ length whole.old + 910 }
{
    if let [first, rest @ ..] = skipped {
        whole.push("; skipped: ");
        push_first_skip(whole, *first);
        push_more(whole, rest);
    }
}

// Appends the first key slot that was skipped, and what it asks for if that is above a limit.
#[tactic(auto, using(crate::proofs::Lengths::reason_len))]
fn push_first_skip(whole: &mut Line, skip: (u8, SkipReason))
    requires { length whole.old ≤ 60 }
    ensures value { whole.new ≡ whole.old ++ first_skip_text skip }
    ensures fits { length whole.new ≤ length whole.old + 60 }
{
    let (number, reason) = skip;
    whole.push_small(number);
    whole.push(" (");
    whole.push(reason.text());
    push_asked(whole, reason);
    whole.push(")");
}

// Appends what a key slot asks for, if that is above a limit.
fn push_asked(whole: &mut Line, reason: SkipReason)
    requires { length whole.old ≤ 200 }
    ensures value { whole.new ≡ whole.old ++ asked_text (asked_kib reason) }
    ensures fits { length whole.new ≤ length whole.old + 35 }
{
    if let Some(kib) = reason.asked_kib() {
        whole.push(", asks for ");
        whole.push_number(kib);
        whole.push(" KiB");
    }
}

// Appends further skipped key slots after the first one.
fn push_more(whole: &mut Line, skipped: &[(u8, SkipReason)])
    requires short { length whole.old ≤ 120 }
    requires few { length skipped.now ≤ 31 }
    ensures value { whole.new ≡ whole.old ++ more_skips_text skipped.now }
    ensures fits { length whole.new ≤ length whole.old + 837 }
{
    for skip in skipped {
        whole.push(", ");
        push_skip(whole, *skip);
    }
}

// Appends one key slot and its reason to a line.
#[tactic(auto, using(crate::proofs::Lengths::reason_len))]
fn push_skip(whole: &mut Line, skip: (u8, SkipReason))
    requires { length whole.old ≤ 1900 }
    ensures value { whole.new ≡ whole.old ++ skip_text skip }
    ensures fits { length whole.new ≤ length whole.old + 25 }
{
    let (number, reason) = skip;
    whole.push_small(number);
    whole.push(" (");
    whole.push(reason.text());
    whole.push(")");
}
