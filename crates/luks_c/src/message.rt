//! The messages of luksrd, as C keeps them.

ghost use Rattle.std.specs.Prelude.{◌≡◌, ◌+◌, ◌-◌, ◌≤◌, drop, length, replicate, take};
ghost use Rattle.luks_report.specs.Texts.{argon2_memory_text};
ghost use Rattle.luks_c.specs.Stored.{StoresMessage, StoresText};

use luks_report::message::Message;
use luks_report::wording::argon2_memory_line;

/// How many bytes of a text fit. Each text that is stored fits, and a zero follows it.
const CAPACITY: usize = 1015;

/// The exit status of `luksrd luksCat`, and the line that it prints, without its newline.
#[repr(C)]
pub struct LuksrdMessage {
    /// The exit status.
    pub status: u32,
    /// The length of the text in bytes.
    pub len: u32,
    /// The text, and zeros after it, at least one.
    pub text: [u8; 1016],
}

// Writes a text, and zeros after it. Returns its length.
fn write_text(buf: &mut [u8], text: &[u8]) -> u32
    requires whole { length buf.old ≡ CAPACITY + 1 }
    requires fits { length text.now ≤ CAPACITY }
    ensures count { result ≡ length text.now }
    ensures text { take result buf.new ≡ text.now }
    ensures rest { drop result buf.new ≡ replicate (CAPACITY + 1 - result) 0 }
{
    let len = text.len();
    buf.fill(0);
    buf[..len].copy_from_slice(text);
    len as u32
}

impl LuksrdMessage {
    /// Stores a message.
    pub(crate) fn set(&mut self, message: &Message)
        ensures { StoresMessage self.new message.now }
    {
        let line = message.line();
        let bytes = line.as_slice();
        let end = bytes.len().saturating_sub(1);
        self.status = u32::from(message.status());
        self.len = write_text(&mut self.text, &bytes[..end]);
    }

    /// Stores that memory which Argon2 needs for a key slot was refused.
    pub(crate) fn set_argon2_memory(&mut self, slot: u8, memory_kib: u32)
        ensures { StoresText self.new 3 (argon2_memory_text slot memory_kib) }
    {
        let line = argon2_memory_line(slot, memory_kib);
        self.status = 3;
        self.len = write_text(&mut self.text, line.as_slice());
    }

    /// Stores an exit status and a text.
    pub(crate) fn set_text(&mut self, status: u32, text: &str)
        requires { length text.now ≤ CAPACITY }
        ensures { StoresText self.new status text.now }
    {
        self.status = status;
        self.len = write_text(&mut self.text, text.as_bytes());
    }
}
