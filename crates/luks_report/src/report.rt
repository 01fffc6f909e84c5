//! How a run ended, for the program that ran it.

ghost use Rattle.std.specs.Prelude.{◌≡◌};
ghost use Rattle.luks_report.specs.Texts.{status_of};

use crate::message::Message;

/// The exit status of a run, its message and its work.
#[derive(Clone, Copy, Debug, PartialEq, Eq)]
pub struct Report {
    /// 0: success; 1: wrong arguments, a key file that is too long, a refused segment, no key slot
    /// to try, a named key slot that cannot be tried, findings, or, for `isLuks`, no LUKS header;
    /// 2: no key opens the volume; 3: out of memory; 4: an input is not valid; 6: a read or a write
    /// failed.
    pub status: u8,
    /// What is printed on standard error.
    pub message: Message,
    /// The evaluations of HMAC that deriving and checking keys took. The count saturates at
    /// 2^128 - 1.
    pub work: u128,
    /// The status is that of the message.
    pub ghost of_message: { status ≡ status_of message },
}

impl Report {
    /// The report of a run that ended with this message, after this work.
    pub fn of(message: Message, work: u128) -> Report
        ensures message { result.message ≡ message }
        ensures work { result.work ≡ work }
    {
        let status = message.status();
        Report {
            status,
            message,
            work,
        }
    }
}
