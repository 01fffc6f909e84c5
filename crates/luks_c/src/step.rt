//! Steps of reading a range, as C keeps them.

ghost use Rattle.std.specs.Prelude.{◌≡◌, ◌+◌, nat_le};
ghost use Rattle.luks_c.specs.Steps.{IsNoStep, step_in};

use luks_access::step::ReadStep;

/// A step of reading a range of the plaintext.
#[repr(C)]
pub struct LuksrdStep {
    /// The first byte of the image to read.
    pub read_offset: u64,
    /// The number of bytes to read.
    pub read_len: u64,
    /// The number of the sector that begins there.
    pub first_sector: u64,
    /// How many of the bytes come before the range.
    pub skip: u64,
    /// How many bytes of the range the step gives.
    pub count: u64,
}

impl LuksrdStep {
    /// Stores a step.
    pub(crate) fn store(&mut self, step: &ReadStep)
        ensures { step_in self.new ≡ step.now }
    {
        self.read_offset = step.read_offset;
        self.read_len = step.read_len as u64;
        self.first_sector = step.first_sector;
        self.skip = step.skip as u64;
        self.count = step.count as u64;
    }

    /// The step that is stored.
    pub(crate) fn stored(&self) -> ReadStep
        ensures { result ≡ step_in self.now }
    {
        ReadStep {
            read_offset: self.read_offset,
            read_len: self.read_len as usize,
            first_sector: self.first_sector,
            skip: self.skip as usize,
            count: self.count as usize,
        }
    }

    /// Whether the bytes that the range gets are among `len` bytes.
    pub(crate) fn is_within(&self, len: usize) -> bool
        ensures { result ≡ nat_le (self.now.skip + self.now.count) len }
    {
        match self.skip.checked_add(self.count) {
            Some(end) => end <= len as u64,
            None => false,
        }
    }

    /// Fills the struct with zeros.
    pub(crate) fn clear(&mut self)
        ensures { IsNoStep self.new }
    {
        self.read_offset = 0;
        self.read_len = 0;
        self.first_sector = 0;
        self.skip = 0;
        self.count = 0;
    }
}
