//! The pump: reads an image's payload and writes its plaintext, one sector at a time.

ghost use Rattle.std.specs.Prelude.{◌≡◌, ◌+◌, ◌^◌, ◌<◌, ◌≤◌, ◌⊎◌, List, [], ℕ, Ok, IfErr};
ghost use Rattle.std.specs.Prelude.{true, length};
ghost use Rattle.luks_io.specs.Counts.{Reads, Writes};
ghost use Rattle.luks_payload.specs.Plain.{sector_len, sector_start, unit_number};
ghost use Rattle.luks_payload.specs.PumpEffects.{AppendsUnit, MayAnswer, PositionedAt};
ghost use Rattle.luks_payload.specs.PumpEffects.{PositionedIn, SkipEffect, SkipsAgain, StepEffect};
ghost use Rattle.luks_payload.specs.PumpEffects.{StepsIdle, WritesSectors, after_step, consumed_by};
ghost use Rattle.luks_payload.specs.PumpEffects.{hits_eof_at, is_cut_before_payload, is_running};
ghost use Rattle.luks_payload.specs.PumpEffects.{is_pump_read_failure, is_pump_write_failure};
ghost use Rattle.luks_payload.specs.PumpEffects.{max_sectors, state_after_skip};

use crate::fault::PayloadFault;
use crate::forwarding::{discard, forward_sector};
use crate::sector::{ending, max_sectors, unit_number};
use crate::state::{State, Step};
use luks_cipher::SectorCipher;
use luks_format::segment::Segment;
use luks_io::sink::Sink;
use luks_io::source::Source;
use std::marker::Model;

/// The capacity for the longest sector.
const CAPACITY: usize = 4096;

/// Forwards a payload, sector by sector. It buffers one sector and allocates nothing.
///
/// A clause sees its segment and its cipher, the number of sectors that it has forwarded, and its
/// state. It also sees what was consumed before it was made: how many of the image's bytes before
/// the payload, and the first bytes of the payload.
#[derive(Drop)]
pub struct Pump<'a> {
    segment: Segment,
    cipher: SectorCipher,
    consumed_before: u64,
    count: u64,
    state: State,
    prefix: &'a [u8],
    buffer: [u8; CAPACITY],
}

impl<'a> Model for Pump<'a> {
    ghost use Rattle.std.specs.Prelude.{◌≡◌, ◌≤◌, []};
    ghost use Rattle.luks_payload.specs.PumpEffects.{PumpModel, max_sectors};
    ghost use Rattle.luks_payload.specs.declared.state.State.TheVariants.{BeforePayload};

    ghost Value = { PumpModel };

    ghost view = { λ p.
        record {
          segment = p.segment;
          cipher = p.cipher;
          consumed_before = p.consumed_before;
          count = p.count;
          state = p.state;
          prefix = p.prefix.now;
        } };

    ghost invariant = { λ p.
        (p.consumed_before ≤ p.segment.offset) × (p.count ≤ max_sectors p.segment)
        × (p.state ≡ BeforePayload → (p.count ≡ 0) × (p.prefix.now ≡ [])) };
}

/// Forwards the sector after the first `count` sectors. It starts with the bytes of `prefix`. If
/// the payload ends before it, the answer says how. The longest sector fits into the buffer.
fn next_sector<S: Source, O: Sink>(
    segment: &Segment,
    cipher: &SectorCipher,
    count: u64,
    prefix: &[u8],
    buffer: &mut [u8; CAPACITY],
    source: &mut S,
    sink: &mut O,
) -> Result<Step, PayloadFault>
    requires { count ≤ max_sectors segment.now }
    ensures limit { count ≡ max_sectors segment.now
        → (result ≡ Ok Step.End) × (source.new ≡ source.old) × (sink.new ≡ sink.old) }
    ensures only { MayAnswer State.InPayload segment.now count result }
    ensures run { (image : List ℕ) → length image < 2 ^ 64
        → PositionedAt image prefix.now (sector_start segment.now count) (S.to_come source.old)
        → StepEffect segment.now cipher.now count
        (sector_start segment.now count + length prefix.now)
        image result (S.to_come source.new) (O.written sink.old) (O.written sink.new) }
    ensures writes_sectors { WritesSectors result (AppendsUnit cipher.now
        (unit_number segment.now count) (sector_len segment.now) prefix.now
        (O.written sink.old) (O.written sink.new)) (sink.new ≡ sink.old) }
    ensures reads { Reads (is_pump_read_failure result) (hits_eof_at segment.now count result)
        (S.counts source.old) (S.counts source.new) }
    ensures writes { Writes (is_pump_write_failure result)
        (O.counts sink.old) (O.counts sink.new) }
{
    if count == max_sectors(segment) {
        return Ok(Step::End);
    }
    let size = segment.sector_size.bytes();
    let got = forward_sector(
        cipher,
        unit_number(segment, count),
        prefix,
        &mut buffer[..size],
        source,
        sink,
    )?;
    if got < size {
        return ending(segment, count, got);
    }
    Ok(Step::Sector)
}

impl<'a> Pump<'a> {
    /// A pump for this payload and this cipher, and for an image whose first `consumed` bytes are
    /// consumed already. None of them is in the payload.
    pub fn new(segment: Segment, cipher: SectorCipher, consumed: u64) -> Pump<'a>
        requires { consumed ≤ segment.offset }
        ensures { result ≡ record {
          segment = segment;
          cipher = cipher;
          consumed_before = consumed;
          count = 0;
          state = State.BeforePayload;
          prefix = [];
        } }
    {
        Pump {
            segment,
            cipher,
            consumed_before: consumed,
            count: 0,
            state: State::BeforePayload,
            prefix: &[],
            buffer: [0; CAPACITY],
        }
    }

    /// A pump for this payload and this cipher, and for an image that was consumed up to the end of
    /// `prefix`, the payload's first bytes. They come before those that remain in the source.
    pub fn with_loaded(segment: Segment, cipher: SectorCipher, prefix: &'a [u8]) -> Pump<'a>
        ensures { result ≡ record {
          segment = segment;
          cipher = cipher;
          consumed_before = segment.offset;
          count = 0;
          state = State.InPayload;
          prefix = prefix.now;
        } }
    {
        Pump {
            segment,
            cipher,
            consumed_before: segment.offset,
            count: 0,
            state: State::InPayload,
            prefix,
            buffer: [0; CAPACITY],
        }
    }

    /// Consumes the image's bytes up to the payload's start, and none after it. Further calls touch
    /// nothing.
    ///
    /// # Errors
    ///
    /// [`CutBeforePayload`](PayloadFault::CutBeforePayload) if the image ends before,
    /// [`Read`](PayloadFault::Read) if a read failed. A pump that has failed repeats its fault.
    pub fn skip<S: Source>(&mut self, source: &mut S) -> Result<(), PayloadFault>
        ensures pump { self.new
            ≡ record self.old { state = state_after_skip self.old.state result } }
        ensures again { SkipsAgain self.old.state result (source.new ≡ source.old) }
        ensures run { (image : List ℕ) → self.old.state ≡ State.BeforePayload
            → PositionedIn image self.old (S.to_come source.old)
            → SkipEffect self.old image result (S.to_come source.new) }
        ensures only { self.old.state ≡ State.BeforePayload → IfErr result (λ fault.
            (fault ≡ PayloadFault.CutBeforePayload) ⊎ (fault ≡ PayloadFault.Read)) }
        ensures fresh { self.old.state ≡ State.BeforePayload
            → (self.old.count ≡ 0) × (self.old.prefix ≡ []) }
        ensures reads { is_running self.old.state ≡ true
            → Reads (is_pump_read_failure result) (is_cut_before_payload result)
            (S.counts source.old) (S.counts source.new) }
    {
        match self.state {
            State::BeforePayload => {
                let count = self.segment.offset - self.consumed_before;
                let answer = discard(source, count, &mut self.buffer);
                self.state = match answer {
                    Ok(()) => State::InPayload,
                    Err(fault) => State::Faulted(fault),
                };
                answer
            }
            State::InPayload | State::Ended => Ok(()),
            State::Faulted(fault) => Err(fault),
        }
    }

    /// Updates the pump with the answer of a step in the payload.
    fn remember(&mut self, answer: Result<Step, PayloadFault>)
        requires running { self.old.state ≡ State.InPayload }
        requires below { answer ≡ Ok Step.Sector → self.old.count < max_sectors self.old.segment }
        ensures { self.new ≡ after_step self.old answer }
    {
        match answer {
            Ok(Step::Sector) => {
                let size = self.segment.sector_size.bytes();
                let loaded = size.min(self.prefix.len());
                self.prefix = &self.prefix[loaded..];
                self.count += 1;
            }
            Ok(Step::End) => self.state = State::Ended,
            Err(fault) => self.state = State::Faulted(fault),
        }
    }

    /// Forwards the next sector, or ends. The first step skips to the payload if no skip came
    /// before it.
    ///
    /// An incomplete sector is not written. A pump that has ended or failed gives its last answer
    /// again, and touches nothing.
    ///
    /// # Errors
    ///
    /// [`CutBeforePayload`](PayloadFault::CutBeforePayload), [`Tail`](PayloadFault::Tail) or
    /// [`Short`](PayloadFault::Short) if the image is truncated; [`Read`](PayloadFault::Read) or
    /// [`Write`](PayloadFault::Write) if a read or a write failed.
    pub fn step<S: Source, O: Sink>(
        &mut self,
        source: &mut S,
        sink: &mut O,
    ) -> Result<Step, PayloadFault>
        ensures pump { self.new ≡ after_step self.old result }
        ensures idle { StepsIdle self.old.state (self.old.count ≡ max_sectors self.old.segment)
            result ((source.new ≡ source.old) × (sink.new ≡ sink.old)) }
        ensures run { (image : List ℕ) → length image < 2 ^ 64
            → PositionedIn image self.old (S.to_come source.old)
            → StepEffect self.old.segment self.old.cipher self.old.count
            (consumed_by self.old) image result
            (S.to_come source.new) (O.written sink.old) (O.written sink.new) }
        ensures only { is_running self.old.state ≡ true
            → MayAnswer self.old.state self.old.segment self.old.count result }
        ensures writes_sectors { WritesSectors result (AppendsUnit self.old.cipher
            (unit_number self.old.segment self.old.count) (sector_len self.old.segment)
            self.old.prefix (O.written sink.old) (O.written sink.new)) (sink.new ≡ sink.old) }
        ensures reads { is_running self.old.state ≡ true → Reads (is_pump_read_failure result)
            (hits_eof_at self.old.segment self.old.count result)
            (S.counts source.old) (S.counts source.new) }
        ensures writes { is_running self.old.state ≡ true
            → Writes (is_pump_write_failure result) (O.counts sink.old) (O.counts sink.new) }
    {
        self.skip(source)?;
        if self.state == State::Ended {
            return Ok(Step::End);
        }
        let answer = next_sector(
            &self.segment,
            &self.cipher,
            self.count,
            self.prefix,
            &mut self.buffer,
            source,
            sink,
        );
        self.remember(answer);
        answer
    }
}
