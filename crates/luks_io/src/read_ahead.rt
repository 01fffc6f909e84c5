//! A source that reads many bytes at once, but only those that are requested or allowed to be read
//! ahead.

ghost use Rattle.std.specs.Prelude.{◌≡◌, ◌+◌, ◌-◌, ◌<◌, ◌≤◌, ◌++◌, [], IfOk};
ghost use Rattle.std.specs.Prelude.{MatchResult, is_err, is_some, length, max, min, nat_le, take};
ghost use Rattle.std.specs.Io.{ReadsAtMost};
ghost use Rattle.std.specs.Io.KnownBytes.{Consumes, IsAtEnd, Keeps, ReadConsumes, prepend_known};
ghost use Rattle.luks_io.specs.Devices.{ConsumedAtMost, ForwardEffect, IfKnown, buffered_after};
ghost use Rattle.luks_io.specs.Devices.{is_aborted, is_end};
ghost use Rattle.luks_io.specs.Counts.{Reads, ReadsAhead, Writes, after_forward, after_read};
ghost use Rattle.luks_io.specs.Counts.{ahead_of, allowed_to, max_read, read_ahead_remaining};
ghost use Rattle.luks_io.specs.Counts.{unread};

use crate::DeviceFault;
use crate::counts::ReadCounts;
use crate::sink::{Sink, WriteFault};
use crate::source::Source;
use crate::transform::{Transform, put_transformed};
use std::alloc::{AllocError, Global};
use std::marker::Model;

/// A source over another one whose calls are expensive: it reads as many bytes at once as are
/// allowed to be read ahead and fit into its buffer, and copies them out as they are requested. It
/// reads no others before they are requested, so unneeded bytes stay in the source below.
///
/// A clause sees the source below, which of its bytes are buffered, the buffer's capacity, and the
/// counts. The buffered bytes are some of those that are allowed to be read ahead.
#[derive(Drop)]
pub struct ReadAheadSource<S> {
    source: S,
    buffer: Vec<u8>,
    start: usize,
    end: usize,
    counts: ReadCounts,
}

impl<S> Model for ReadAheadSource<S> {
    ghost use Rattle.std.specs.Prelude.{◌-◌, ◌≤◌, slice_range, vec_len};
    ghost use Rattle.luks_io.specs.Counts.{ReadAheadModel, ahead_of};

    ghost Value = { ReadAheadModel S };

    ghost view = { λ a.
        record {
          source = a.source;
          buffered = slice_range a.buffer.items a.start a.end;
          capacity = vec_len a.buffer;
          counts = a.counts;
        } };

    ghost invariant = { λ a. (a.start ≤ a.end) × (a.end ≤ vec_len a.buffer)
        × (a.end - a.start ≤ ahead_of a.counts) };
}

/// Reads at most `count` bytes into the start of a buffer.
fn read_prefix<S: Source>(
    source: &mut S,
    buffer: &mut [u8],
    count: usize,
) -> Result<usize, DeviceFault>
    requires { count ≤ length buffer.old }
    ensures len { length buffer.new ≡ length buffer.old }
    ensures bound { IfOk result (λ n. n ≤ count) }
    ensures bytes { MatchResult result
        (λ n. Consumes (S.to_come source.old) (S.to_come source.new) (take n buffer.new)
        × (n ≡ 0 → 0 < count → IsAtEnd (S.to_come source.new)))
        (λ _. Keeps (S.to_come source.old) (S.to_come source.new)) }
    ensures counts { S.counts source.new ≡ after_read result count (S.counts source.old) }
{
    source.read(&mut buffer[..count])
}

impl<S: Source + Drop> ReadAheadSource<S> {
    /// A source over this one, which reads at most `capacity` bytes ahead. The buffer for them is
    /// allocated here.
    ///
    /// # Errors
    ///
    /// `AllocError` if memory runs out.
    pub fn new(alloc: Global, capacity: usize, source: S) -> Result<ReadAheadSource<S>, AllocError>
        ensures { IfOk result (λ a. a ≡ record {
          source = source;
          buffered = [];
          capacity = capacity;
          counts = unread;
        }) }
    {
        let buffer = vec![in alloc; 0; capacity]?;
        Ok(ReadAheadSource {
            source,
            buffer,
            start: 0,
            end: 0,
            counts: ReadCounts::new(),
        })
    }
}

impl<S: Source> ReadAheadSource<S> {
    /// The source below.
    pub fn get_ref(&self) -> &S
        ensures { result.now ≡ self.now.source }
    {
        &self.source
    }

    /// Reads the requested bytes from the source below, without the buffer.
    fn read_unbuffered(&mut self, buf: &mut [u8]) -> Result<usize, DeviceFault>
        ensures bound { ReadsAtMost result buf.new }
        ensures bytes { ReadConsumes (S.to_come self.old.source) (S.to_come self.new.source)
            result buf.new }
        ensures below { S.counts self.new.source
            ≡ after_read result (length buf.new) (S.counts self.old.source) }
        ensures leaves { self.new ≡ record self.old { source = self.new.source } }
    {
        self.source.read(buf)
    }

    /// Reads at most `count` bytes into the empty buffer, and returns how many it read.
    fn refill(&mut self, count: usize) -> Result<usize, DeviceFault>
        requires capacity { count ≤ self.old.capacity }
        requires allowed { count ≤ ahead_of self.old.counts }
        requires empty { self.old.buffered ≡ [] }
        ensures buffered { MatchResult result (λ n. (n ≤ count) × (length self.new.buffered ≡ n))
            (λ _. self.new.buffered ≡ self.old.buffered) }
        ensures bytes { MatchResult result
            (λ n. Consumes (S.to_come self.old.source) (S.to_come self.new.source) self.new.buffered
            × (n ≡ 0 → 0 < count → IsAtEnd (S.to_come self.new.source)))
            (λ _. Keeps (S.to_come self.old.source) (S.to_come self.new.source)) }
        ensures below { S.counts self.new.source
            ≡ after_read result count (S.counts self.old.source) }
        ensures leaves { self.new ≡ record self.old {
          source = self.new.source;
          buffered = self.new.buffered;
        } }
    {
        self.start = 0;
        self.end = 0;
        let got = read_prefix(&mut self.source, &mut self.buffer, count)?;
        self.end = got;
        Ok(got)
    }

    /// Copies out as many of the buffered bytes as fit, and returns how many.
    fn copy_out(&mut self, buf: &mut [u8]) -> usize
        ensures count { result ≡ min (length buf.old) (length self.old.buffered) }
        ensures len { length buf.new ≡ length buf.old }
        ensures bytes { self.old.buffered ≡ take result buf.new ++ self.new.buffered }
        ensures leaves { self.new ≡ record self.old { buffered = self.new.buffered } }
        ensures allowed { length self.new.buffered ≤ ahead_of self.old.counts - result }
    {
        let (start, end) = (self.start, self.end);
        let count = buf.len().min(end - start);
        buf[..count].copy_from_slice(&self.buffer[start..start + count]);
        self.start = start + count;
        count
    }
}

impl<S> ReadAheadSource<S> {
    /// Counts a read of this source, and returns its answer.
    fn counted(
        &mut self,
        answer: Result<usize, DeviceFault>,
        capacity: usize,
    ) -> Result<usize, DeviceFault>
        requires { length self.old.buffered
            ≤ ahead_of (after_read answer capacity self.old.counts) }
        ensures value { result ≡ answer }
        ensures counts { self.new
            ≡ record self.old { counts = after_read answer capacity self.old.counts } }
    {
        self.counts.count(answer, capacity)
    }
}

impl<S: Source> ReadAheadSource<S> {
    /// Copies out as many of the buffered bytes as fit, and counts that as a read.
    fn copy_out_counted(&mut self, buf: &mut [u8]) -> Result<usize, DeviceFault>
        ensures value { result ≡ Ok (min (length buf.old) (length self.old.buffered)) }
        ensures len { length buf.new ≡ length buf.old }
        ensures bytes { self.old.buffered
            ≡ take (min (length buf.old) (length self.old.buffered)) buf.new ++ self.new.buffered }
        ensures leaves { self.new ≡ record self.old {
          buffered = self.new.buffered;
          counts = after_read result (length buf.old) self.old.counts;
        } }
    {
        let count = self.copy_out(buf);
        self.counted(Ok(count), buf.len())
    }
}

impl<S: Source> Source for ReadAheadSource<S> {
    ghost use Rattle.std.specs.Io.KnownBytes.{prepend_known};

    ghost to_come = { λ a. prepend_known a.buffered (S.to_come a.source) };

    ghost counts = { λ a. a.counts };

    /// Copies out buffered bytes. If there are none, it reads once from the source below: as many
    /// bytes as are allowed to be read ahead and fit into its own buffer, or as this call requests,
    /// whichever is more.
    fn read(&mut self, buf: &mut [u8]) -> Result<usize, DeviceFault>
        ensures bound { ReadsAtMost result buf.new }
        ensures bytes { ReadConsumes (prepend_known self.old.buffered (S.to_come self.old.source))
            (prepend_known self.new.buffered (S.to_come self.new.source)) result buf.new }
        ensures counts { self.new.counts ≡ after_read result (length buf.new) self.old.counts }
        ensures reads { Reads (is_err result) (is_end result (length buf.new))
            (S.counts self.old.source) (S.counts self.new.source) }
        ensures within { IfKnown (S.to_come self.old.source)
            (λ known. ConsumedAtMost known (S.to_come self.new.source)
            (max_read (length buf.old) (read_ahead_remaining self.old) self.old.capacity)) }
        ensures leaves { ReadsAhead (length buf.old) result self.old self.new }
    {
        if self.start == self.end && !buf.is_empty() {
            let ahead = self.counts.ahead().min(self.buffer.len() as u64) as usize;
            if ahead <= buf.len() {
                let answer = self.read_unbuffered(buf);
                return self.counted(answer, buf.len());
            }
            if let Err(fault) = self.refill(ahead) {
                return self.counted(Err(fault), buf.len());
            }
            return self.copy_out_counted(buf);
        }
        self.copy_out_counted(buf)
    }

    fn allow_read_ahead(&mut self, end: u64)
        ensures { self.new ≡ record self.old { counts = allowed_to end self.old.counts } }
    {
        self.counts.allow(end);
    }

    /// Forwards only buffered bytes, and does not read from the source below.
    fn forward_buffered<C: Transform, O: Sink>(
        &mut self,
        count: usize,
        transform: &C,
        sink: &mut O,
    ) -> Option<Result<(), WriteFault>>
        requires { C.accepts transform.now count }
        ensures forwards { ForwardEffect result ((self.new ≡ self.old) × (sink.new ≡ sink.old))
            count
            (C.transformed transform.now)
            (prepend_known self.old.buffered (S.to_come self.old.source))
            (prepend_known self.new.buffered (S.to_come self.new.source))
            (O.written sink.old) (O.written sink.new) }
        ensures counts { self.new.counts ≡ after_forward result count self.old.counts }
        ensures writes { Writes (is_aborted result) (O.counts sink.old) (O.counts sink.new) }
        ensures enough { is_some result ≡ nat_le count (length self.old.buffered) }
        ensures leaves { self.new ≡ record self.old {
          buffered = buffered_after result count self.old.buffered;
          counts = self.new.counts;
        } }
    {
        let start = self.start;
        if self.end - start < count {
            return None;
        }
        let answer = put_transformed(&mut self.buffer, start, count, transform, sink);
        self.start += count;
        self.counts.consume(count as u64);
        Some(answer)
    }
}
