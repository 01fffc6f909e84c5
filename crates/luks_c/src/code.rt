//! The results of the functions: the numbers of `enum luksrd_code`.

ghost use Rattle.std.specs.Prelude.{◌≡◌, ◌≤◌, length};
ghost use Rattle.luks_c.specs.Keys.{check_code};
ghost use Rattle.luks_report.specs.Faults.{message_for_volume};
ghost use Rattle.luks_c.specs.Stored.{StoresCode, StoresFault, StoresMessage, code_for, sentence_for};

use crate::message::LuksrdMessage;
use luks_access::key::KeyCheck;
use luks_header::fault::HeaderFault;
use luks_open::fault::VolumeFault;
use luks_report::header_fault::fault_sentence;
use luks_report::message::Message;

/// Success.
pub(crate) const OK: u32 = 0;

/// Out of memory, or a refusal or an ending that has no number of its own.
const OUT_OF_MEMORY: u32 = 11;

/// The options name a key slot by a number above 31, or are of another version.
pub(crate) const BAD_OPTIONS: u32 = 15;

/// The struct holds no open volume.
pub(crate) const BAD_VOLUME: u32 = 16;

/// The bytes are not whole sectors, the sector numbers are too large, or the range ends past the
/// plaintext.
pub(crate) const BAD_RANGE: u32 = 17;

/// A volume key does not match the digest in a header.
pub(crate) const OTHER_KEY: u32 = 18;

/// A header has no digest that a volume key can be compared with.
pub(crate) const NO_DIGEST: u32 = 19;

/// The number of success, a refusal or an ending. Any other message gets that of "out of memory".
fn code_of(message: &Message) -> u32
    ensures { result ≡ code_for message.now }
{
    match message {
        Message::Done => 0,
        Message::NotLuks => 1,
        Message::Cut => 2,
        Message::Json => 3,
        Message::SegmentRefused(_) => 4,
        Message::NoSuchSlot(_) => 5,
        Message::SlotDisabled(_) => 6,
        Message::SlotSkipped(..) => 7,
        Message::NothingTried(_) => 8,
        Message::KeyFileLength => 9,
        Message::NoKey(_) => 10,
        Message::CutBeforePayload => 12,
        Message::Tail(_) => 13,
        Message::Short(_) => 14,
        _ => OUT_OF_MEMORY,
    }
}

/// The number of what comparing a volume key with a header gives.
pub(crate) fn code_of_check(check: KeyCheck) -> u32
    ensures { result ≡ check_code check }
{
    match check {
        KeyCheck::Matches => OK,
        KeyCheck::Differs => OTHER_KEY,
        KeyCheck::NoDigest => NO_DIGEST,
    }
}

/// Stores a message, and returns its number.
pub(crate) fn answer_message(said: &Message, message: &mut LuksrdMessage) -> u32
    ensures code { result ≡ code_for said.now }
    ensures message { StoresMessage message.new said.now }
{
    message.set(said);
    code_of(said)
}

/// Stores why a volume is not opened, and returns its number.
pub(crate) fn answer_fault(fault: VolumeFault, message: &mut LuksrdMessage) -> u32
    ensures code { result ≡ code_for (message_for_volume fault) }
    ensures message { StoresFault message.new fault }
{
    match fault {
        VolumeFault::Argon2Memory(slot, memory_kib) => {
            message.set_argon2_memory(slot, memory_kib);
            OUT_OF_MEMORY
        }
        _ => answer_message(&Message::from(fault), message),
    }
}

/// Stores the status and the sentence of a code, and returns the code.
pub(crate) fn answer_code(code: u32, message: &mut LuksrdMessage) -> u32
    ensures code { result ≡ code }
    ensures message { StoresCode message.new code }
{
    let (status, text) = sentence(code);
    message.set_text(status, text);
    code
}

/// The exit status and the sentence of a number alone.
fn sentence(code: u32) -> (u32, &'static str)
    ensures status { result.0 ≡ (sentence_for code).0 }
    ensures text { result.1.now ≡ (sentence_for code).1 }
    ensures short { length result.1.now ≤ 100 }
{
    match code {
        0 => (0, ""),
        1 => (4, fault_sentence(HeaderFault::NotLuks)),
        2 => (4, fault_sentence(HeaderFault::Cut)),
        3 => (4, fault_sentence(HeaderFault::Json)),
        4 => (1, "luksrd: segment refused"),
        5 => (1, "luksrd: key slot is not there"),
        6 => (1, "luksrd: key slot is disabled"),
        7 => (1, "luksrd: key slot is skipped"),
        8 => (1, "luksrd: no key slot can be tried"),
        9 => (1, "luksrd: key file is longer than 8388608 bytes"),
        10 => (2, "luksrd: no key opens the volume"),
        11 => (3, fault_sentence(HeaderFault::Memory)),
        12 => (4, "luksrd: image ends before the payload"),
        13 => (4, "luksrd: image ends inside a sector"),
        14 => (4, "luksrd: image ends before the segment does"),
        15 => (
            1,
            "luksrd: key slot number is above 31, or options of another version",
        ),
        16 => (1, "luksrd: not an open volume"),
        17 => (
            1,
            "luksrd: not whole sectors, or not a range of the plaintext",
        ),
        18 => (
            2,
            "luksrd: volume key does not match the digest in the header",
        ),
        19 => (1, "luksrd: no digest to compare the volume key with"),
        _ => (1, "luksrd: no such code"),
    }
}
