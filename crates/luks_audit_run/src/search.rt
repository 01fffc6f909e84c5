//! A search for headers in an image.

ghost use Rattle.std.specs.Prelude.{◌≡◌, ◌⊎◌, ◌+◌, ◌*◌, ◌<◌, ◌≤◌, ◌^◌, ℕ, List, Option, [], Err};
ghost use Rattle.std.specs.Prelude.{IfOk, IfSome, OnErr, OnOk, drop, false, is_err, length, take};
ghost use Rattle.std.specs.Prelude.{true};
ghost use Rattle.luks_io.specs.Devices.{counted};
ghost use Rattle.luks_audit_run.specs.Search.{FindsNext, FindsNone, IsEnd, IsIn, IsNear, StepsOn};
ghost use Rattle.luks_audit_run.specs.Search.{reports_failed_read};

use crate::buffer::refill;
use crate::magic::{MAX_SECONDARY_OFFSET, SECTOR_LEN, is_quiet};
use crate::place::{MAX_SECTORS, Place, SearchFault, Step, header_here};
use luks_io::source::Source;
use std::alloc::{AllocError, Global};
use std::marker::Model;

/// The bytes that a search holds at most: 32 MiB.
const CAPACITY: usize = 33_554_432;

/// The length of both headers of LUKS2, if they have the largest length. They decide which header
/// there is.
const MAX_PAIR_LEN: usize = 8_388_608;

/// How many of the first sectors of 32 MiB have no header if none there begins with magic bytes:
/// all their secondary headers would begin there, too.
const QUIET_SECTORS: u64 = 57_344;

/// A search for headers in an image that is read once, from its start to its end. A clause sees the
/// next sector to try, the loaded bytes from there on, and whether the image ends after them.
#[derive(Drop)]
pub struct Search {
    buffer: Vec<u8>,
    start: usize,
    end: usize,
    sector: u64,
    ended: bool,
}

impl Model for Search {
    ghost use Rattle.std.specs.Prelude.{◌≡◌, ◌≤◌, drop, take, vec_len};
    ghost use Rattle.luks_audit_run.specs.Search.{SearchModel};

    ghost Value = { SearchModel };

    ghost view = { λ s.
        record {
          sector = s.sector;
          bytes = drop s.start (take s.end s.buffer.items);
          ended = s.ended;
        } };

    ghost invariant = { λ s. (vec_len s.buffer ≡ 33554432) × (s.start ≤ s.end) × (s.end ≤ 33554432)
        × (s.sector ≤ 18014398509481984) };
}

impl Search {
    /// A search at the start of an image. It allocates 32 MiB.
    ///
    /// # Errors
    ///
    /// `AllocError` if memory runs out.
    pub fn new(alloc: Global) -> Result<Search, AllocError>
        ensures { IfOk result (λ search.
            search ≡ record { sector = 0; bytes = []; ended = false }) }
    {
        Ok(Search {
            buffer: vec![in alloc; 0; CAPACITY]?,
            start: 0,
            end: 0,
            sector: 0,
            ended: false,
        })
    }

    // The loaded bytes.
    fn bytes(&self) -> &[u8]
        ensures value { result.now ≡ self.now.bytes }
        ensures within { length result.now ≤ 33554432 }
    {
        &self.buffer[self.start..self.end]
    }

    // Leaves this many sectors behind.
    fn advance(&mut self, count: usize)
        requires few { count ≤ 65536 }
        requires more { self.old.sector + count ≤ 18014398509481984 }
        ensures { self.new ≡ record {
          sector = self.old.sector + count;
          bytes = drop (512 * count) self.old.bytes;
          ended = self.old.ended;
        } }
    {
        self.start = self.end.min(self.start + SECTOR_LEN * count);
        self.sector += count as u64;
    }

    // Loads as many further bytes of the image as the buffer can hold.
    fn load<S: Source>(&mut self, source: &mut S) -> Result<(), SearchFault>
        ensures sector { self.new.sector ≡ self.old.sector }
        ensures enough { OnOk result
            (self.new.ended ≡ false → 33554432 ≤ length self.new.bytes) }
        ensures held { (image : List ℕ) → IsIn image self.old (S.to_come source.old)
            → OnOk result (IsIn image self.new (S.to_come source.new)) }
        ensures behind { (image : List ℕ) → IsIn image self.old (S.to_come source.old)
            → OnErr result (IsNear image self.new.sector (S.to_come source.new)) }
        ensures failures { (S.counts source.new).failures
            ≡ counted (reports_failed_read result) (S.counts source.old).failures }
    {
        let kept = self.end - self.start;
        let count = refill(&mut self.buffer, self.start, self.end, source)?;
        self.start = 0;
        self.end = kept + count;
        self.ended = self.end < CAPACITY;
        Ok(())
    }

    // Loads further bytes if the next sector cannot be tried with those that are loaded. If then no
    // loaded sector begins with magic bytes, leaves those behind that have no header. Returns how
    // many were left behind.
    fn load_if_needed<S: Source>(&mut self, source: &mut S) -> Result<u64, SearchFault>
        requires { self.old.sector < 18014398509481984 }
        ensures sector { IfOk result (λ count. self.new.sector ≡ self.old.sector + count) }
        ensures within { self.new.sector ≤ 18014398509481984 }
        ensures enough { IfOk result (λ count. count ≡ 0 →
            (self.new.ended ≡ true) ⊎ (8388608 ≤ length self.new.bytes)) }
        ensures none { (image : List ℕ) → IsIn image self.old (S.to_come source.old)
            → FindsNone image self.old.sector self.new.sector }
        ensures held { (image : List ℕ) → IsIn image self.old (S.to_come source.old)
            → OnOk result (IsIn image self.new (S.to_come source.new)) }
        ensures behind { (image : List ℕ) → IsIn image self.old (S.to_come source.old)
            → OnErr result (IsNear image self.new.sector (S.to_come source.new)) }
        ensures failures { (S.counts source.new).failures
            ≡ counted (reports_failed_read result) (S.counts source.old).failures }
    {
        if self.ended || self.bytes().len() >= MAX_PAIR_LEN {
            return Ok(0);
        }
        self.load(source)?;
        if self.ended || !is_quiet(self.bytes()) {
            return Ok(0);
        }
        let count = QUIET_SECTORS.min(MAX_SECTORS - self.sector);
        self.advance(count as usize);
        Ok(count)
    }

    // Tries the next sector and leaves it behind, unless there are no further bytes.
    fn try_sector(&mut self, alloc: Global) -> Result<Step, SearchFault>
        requires more { self.old.sector < 18014398509481984 }
        requires enough { (self.old.ended ≡ true) ⊎ (8388608 ≤ length self.old.bytes) }
        ensures on { IfOk result (λ step. IsEnd step ⊎ (self.new.sector ≡ self.old.sector + 1)) }
        ensures near { OnOk result (self.new.sector ≤ self.old.sector + 1) }
        ensures stopped { OnErr result (self.new.sector ≡ self.old.sector) }
        ensures found { (image : List ℕ) (left : Option (List ℕ)) → IsIn image self.old left
            → OnOk result (IsIn image self.new left)
            × StepsOn image self.old.sector self.new.sector result }
        ensures behind { (image : List ℕ) (left : Option (List ℕ)) → IsIn image self.old left
            → OnErr result (IsNear image self.new.sector left) }
        ensures only { reports_failed_read result ≡ false }
    {
        if self.bytes().is_empty() {
            return Ok(Step::End);
        }
        let found = header_here(alloc, self.bytes())?;
        let offset = 512 * self.sector;
        self.advance(1);
        match found {
            Some(header) => Ok(Step::Found(Place { offset, header })),
            None => Ok(Step::Skipped),
        }
    }

    // Takes a step: tries the next sector, or leaves some behind.
    fn step<S: Source>(&mut self, alloc: Global, source: &mut S) -> Result<Step, SearchFault>
        requires { self.old.sector < 18014398509481984 }
        ensures on { IfOk result (λ step. IsEnd step ⊎ (self.old.sector < self.new.sector)) }
        ensures range { self.new.sector ≤ 18014398509481984 }
        ensures held { (image : List ℕ) → IsIn image self.old (S.to_come source.old)
            → OnOk result (IsIn image self.new (S.to_come source.new))
            × StepsOn image self.old.sector self.new.sector result }
        ensures behind { (image : List ℕ) → IsIn image self.old (S.to_come source.old)
            → OnErr result (IsNear image self.new.sector (S.to_come source.new)) }
        ensures failures { (S.counts source.new).failures
            ≡ counted (reports_failed_read result) (S.counts source.old).failures }
    {
        let skipped = self.load_if_needed(source)?;
        if skipped > 0 {
            return Ok(Step::Skipped);
        }
        self.try_sector(alloc)
    }

    /// The next place of the image, and the header that is there; `None` if there are no further
    /// places. The image is the one that the source gave from its start on: each call continues
    /// where the one before ended.
    ///
    /// A call reads up to 32 MiB of the source at a time, and never a byte twice. The search holds
    /// at most 32 MiB. An image of any length is searched up to its first 2^63 bytes; no file is
    /// longer.
    ///
    /// # Errors
    ///
    /// A [`SearchFault`]: there is no further place before the next sector to try, and at most
    /// 32 MiB from there on were read. The search is of no use after that.
    pub fn next<S: Source>(
        &mut self,
        alloc: Global,
        source: &mut S,
    ) -> Result<Option<Place>, SearchFault>
        ensures found { (image : List ℕ) → IsIn image self.old (S.to_come source.old)
            → OnOk result (IsIn image self.new (S.to_come source.new))
            × FindsNext image self.old.sector self.new.sector result }
        ensures behind { (image : List ℕ) → IsIn image self.old (S.to_come source.old)
            → OnErr result (IsNear image self.new.sector (S.to_come source.new)) }
        ensures on { IfOk result (λ found. IfSome found (λ _. self.old.sector < self.new.sector)) }
        ensures range { self.new.sector ≤ 18014398509481984 }
        ensures failures { (S.counts source.new).failures
            ≡ counted (reports_failed_read result) (S.counts source.old).failures }
    {
        prove!(self.sector <= MAX_SECTORS);
        while self.sector < MAX_SECTORS {
            match self.step(alloc, source)? {
                Step::End => return Ok(None),
                Step::Skipped => {}
                Step::Found(place) => return Ok(Some(place)),
            }
        }
        Ok(None)
    }
}
