//! The counts that devices keep of their calls. A count of calls saturates.

ghost use Rattle.std.specs.Prelude.{◌≡◌, ◌==◌, ◌&&◌};
ghost use Rattle.luks_io.specs.Devices.{counted, is_end, saturating_add};
ghost use Rattle.luks_io.specs.Counts.{after_read, after_write, ahead_of, allowed_to};
ghost use Rattle.luks_io.specs.Counts.{given, unread, with_consumed};

use crate::DeviceFault;

/// The counts of a source's reads, and how far it was ever allowed to read ahead. None of them ever
/// falls.
#[derive(Clone, Copy, Debug, PartialEq, Eq)]
pub struct ReadCounts {
    /// Reads that failed.
    pub failures: u64,
    /// Reads that hit EOF: they gave nothing to a buffer with capacity.
    pub ends: u64,
    /// Reads that no caller needs: into a buffer without capacity, or after a read that failed or
    /// hit EOF.
    pub needless: u64,
    /// How many bytes were consumed: the position in the source.
    pub consumed: u64,
    /// The greatest position up to which read-ahead was allowed. The bytes between `consumed` and
    /// this position may be read before they are requested.
    pub reached: u64,
}

impl ReadCounts {
    /// The counts of a source that has not been read yet.
    pub fn new() -> ReadCounts
        ensures { result ≡ unread }
    {
        ReadCounts {
            failures: 0,
            ends: 0,
            needless: 0,
            consumed: 0,
            reached: 0,
        }
    }

    /// Counts a read into a buffer of `capacity` bytes, and returns its answer. A source calls it
    /// in its own `read`.
    pub fn count(
        &mut self,
        answer: Result<usize, DeviceFault>,
        capacity: usize,
    ) -> Result<usize, DeviceFault>
        ensures value { result ≡ answer }
        ensures counts { self.new ≡ after_read answer capacity self.old }
    {
        let needless = capacity == 0 || self.failures > 0 || self.ends > 0;
        count_if(&mut self.needless, needless);
        count_if(&mut self.failures, answer.is_err());
        count_if(&mut self.ends, hits_end(&answer, capacity));
        self.consume(given(&answer));
        answer
    }

    /// Counts `count` more bytes as consumed.
    pub(crate) fn consume(&mut self, count: u64)
        ensures { self.new ≡ with_consumed count self.old }
    {
        self.consumed = self.consumed.saturating_add(count);
    }

    /// How many bytes after the consumed ones are allowed to be read ahead.
    pub(crate) fn ahead(&self) -> u64
        ensures { result ≡ ahead_of self.now }
    {
        self.reached.saturating_sub(self.consumed)
    }

    /// Notes that read-ahead is allowed up to this position. A source calls it in its own
    /// `allow_read_ahead`.
    pub fn allow(&mut self, end: u64)
        ensures { self.new ≡ allowed_to end self.old }
    {
        self.reached = self.reached.max(end);
    }
}

/// The counts of a sink's writes.
#[derive(Clone, Copy, Debug, PartialEq, Eq)]
pub struct WriteCounts {
    /// Writes that failed.
    pub failures: u64,
    /// Writes that no caller needs: of no bytes, or after a write that failed.
    pub needless: u64,
}

impl WriteCounts {
    /// The counts of a sink that has not been written to yet.
    pub fn new() -> WriteCounts
        ensures { result ≡ record { failures = 0; needless = 0 } }
    {
        WriteCounts {
            failures: 0,
            needless: 0,
        }
    }

    /// Counts a write of `len` bytes, and returns its answer. A sink calls it in its own `write`.
    pub fn count(
        &mut self,
        answer: Result<usize, DeviceFault>,
        len: usize,
    ) -> Result<usize, DeviceFault>
        ensures value { result ≡ answer }
        ensures counts { self.new ≡ after_write answer len self.old }
    {
        let needless = len == 0 || self.failures > 0;
        count_if(&mut self.needless, needless);
        count_if(&mut self.failures, answer.is_err());
        answer
    }
}

/// The number of bytes that a read gave.
fn given(answer: &Result<usize, DeviceFault>) -> u64
    ensures { result ≡ given answer.now }
{
    match answer {
        Ok(count) => *count as u64,
        Err(_) => 0,
    }
}

/// Raises the count by one if `is` holds.
fn count_if(count: &mut u64, is: bool)
    ensures { count.new ≡ counted is count.old }
{
    if is {
        *count = count.saturating_add(1);
    }
}

/// Whether a read into a buffer of `capacity` bytes hit EOF.
fn hits_end(answer: &Result<usize, DeviceFault>, capacity: usize) -> bool
    ensures { result ≡ is_end answer.now capacity }
{
    match answer {
        Ok(count) => *count == 0 && capacity > 0,
        Err(_) => false,
    }
}
