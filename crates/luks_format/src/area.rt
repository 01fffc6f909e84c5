//! The start of an image with its headers and key areas, loaded from a source as far as it is
//! needed.

ghost use Rattle.std.specs.Prelude.{◌≡◌, ◌-◌, ◌<◌, ◌≤◌, ◌++◌, if◌then◌else◌, true, false, [], OnOk};
ghost use Rattle.std.specs.Prelude.{OnErr, Ok, Err, List, ℕ, Some, length, max, replicate};
ghost use Rattle.std.specs.Prelude.{vec_capacity, vec_len};
ghost use Rattle.luks_io.specs.Devices.{IfKnown};
ghost use Rattle.luks_io.specs.Counts.{Reads};
ghost use Rattle.luks_format.specs.Area.{IsStart, Loads, is_read_fault, loading_hits_end};
ghost use Rattle.luks_format.specs.Area.{max_loaded_len};

use crate::fault::HeaderFault;
use luks_io::source::{ReadFault, Source, fill};
use std::alloc::{AllocError, Global};
use std::marker::Model;

/// The first bytes of an image, at most [`HeaderArea::MAX_LEN`] of them.
///
/// An area keeps the allocator that it was made with. A clause sees the bytes, and whether EOF was
/// hit after them.
#[derive(Drop)]
pub struct HeaderArea {
    bytes: Vec<u8>,
    ended: bool,
}

impl Model for HeaderArea {
    ghost use Rattle.std.specs.Prelude.{◌≤◌, vec_len};
    ghost use Rattle.luks_format.specs.Area.{HeaderAreaModel, max_loaded_len};

    ghost Value = { HeaderAreaModel };

    ghost view = { λ area. record { bytes = area.bytes.items; ended = area.ended } };

    ghost invariant = { λ area. vec_len area.bytes ≤ max_loaded_len };
}

impl HeaderArea {
    /// The largest number of bytes in an area: 32 MiB.
    pub const MAX_LEN: usize = 33_554_432;

    /// An area without any bytes yet.
    pub fn new(alloc: Global) -> HeaderArea
        ensures { result ≡ record { bytes = []; ended = false } }
    {
        HeaderArea {
            bytes: Vec::new(alloc),
            ended: false,
        }
    }

    /// The loaded bytes.
    pub fn as_slice(&self) -> &[u8]
        ensures value { result.now ≡ self.now.bytes }
        ensures within { length self.now.bytes ≤ max_loaded_len }
    {
        self.bytes.as_slice()
    }

    /// Whether EOF was hit after the bytes.
    pub fn has_ended(&self) -> bool
        ensures { result ≡ self.now.ended }
    {
        self.ended
    }

    /// Loads further bytes of the image from the source until there are `end`, and returns whether
    /// there are: `Ok(false)` means that the image ended first, and all of it is loaded. Nothing is
    /// read if that many are loaded already.
    ///
    /// # Errors
    ///
    /// After [`HeaderFault::Read`] the area has the bytes that were consumed before the read
    /// failed; after [`HeaderFault::Memory`] nothing was consumed. There are no other faults.
    pub fn extend_to<S: Source>(&mut self, source: &mut S, end: usize) -> Result<bool, HeaderFault>
        requires { end ≤ max_loaded_len }
        ensures start { (image : List ℕ) → IsStart image self.old.bytes (S.to_come source.old)
            → IsStart image self.new.bytes (S.to_come source.new) }
        ensures whole { loading_hits_end result ≡ true → IfKnown (S.to_come source.old) (λ _.
            S.to_come source.new ≡ Some []) }

        // Whether or not the source knows its bytes:
        ensures loads { Loads end self.old.bytes self.new.bytes result }
        ensures already { end ≤ length self.old.bytes
            → (result ≡ Ok true) × (self.new ≡ self.old) × (source.new ≡ source.old) }
        ensures memory { result ≡ Err HeaderFault.Memory
            → (self.new ≡ self.old) × (source.new ≡ source.old) }
        ensures reads { Reads (is_read_fault result) (loading_hits_end result)
            (S.counts source.old) (S.counts source.new) }
        ensures ended { self.new.ended
            ≡ (if loading_hits_end result then true else self.old.ended) }
    {
        if end <= self.bytes.len() || extend(&mut self.bytes, source, end)? {
            return Ok(true);
        }
        self.ended = true;
        Ok(false)
    }
}

// Raises the capacity of the vector to `end` bytes in all, and no further.
fn reserve(bytes: &mut Vec<u8>, end: usize) -> Result<(), AllocError>
    requires { vec_len bytes.old ≤ end }
    ensures items { bytes.new.items ≡ bytes.old.items }
    ensures capacity { OnOk result (vec_capacity bytes.new ≡ max (vec_capacity bytes.old) end) }
    ensures none { OnErr result (vec_capacity bytes.new ≡ vec_capacity bytes.old) }
{
    bytes.reserve_exact(end - bytes.len())
}

// Appends zeros until there are `end` bytes.
fn append_zeros(bytes: &mut Vec<u8>, end: usize) -> Result<(), AllocError>
    requires { vec_len bytes.old ≤ end }
    ensures ok { OnOk result (bytes.new.items
        ≡ bytes.old.items ++ replicate (end - vec_len bytes.old) 0) }
    ensures err { OnErr result (bytes.new.items ≡ bytes.old.items) }
{
    reserve(bytes, end)?;
    bytes.resize(end, 0)
}

// Appends the next bytes of the source, up to `end` in all.
fn extend<S: Source>(bytes: &mut Vec<u8>, source: &mut S, end: usize) -> Result<bool, HeaderFault>
    requires { vec_len bytes.old < end }
    ensures start { (image : List ℕ) → IsStart image bytes.old.items (S.to_come source.old)
        → IsStart image bytes.new.items (S.to_come source.new) }
    ensures whole { loading_hits_end result ≡ true → IfKnown (S.to_come source.old) (λ _.
        S.to_come source.new ≡ Some []) }
    ensures loads { Loads end bytes.old.items bytes.new.items result }
    ensures memory { result ≡ Err HeaderFault.Memory
        → (bytes.new.items ≡ bytes.old.items) × (source.new ≡ source.old) }
    ensures reads { Reads (is_read_fault result) (loading_hits_end result)
        (S.counts source.old) (S.counts source.new) }
{
    let loaded = bytes.len();
    append_zeros(bytes, end)?;
    match fill(source, &mut bytes[loaded..]) {
        Ok(count) => {
            bytes.truncate(loaded + count);
            Ok(loaded + count == end)
        }
        Err(ReadFault { got }) => {
            bytes.truncate(loaded + got);
            Err(HeaderFault::Read)
        }
    }
}
