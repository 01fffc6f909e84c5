//! The start of an image that is read at offsets, as a source of its bytes.

ghost use Rattle.std.specs.Prelude.{◌≡◌, ◌<◌, ◌≤◌, length, true};
ghost use Rattle.luks_format.specs.Area.{max_loaded_len};
ghost use Rattle.luks_io.specs.Counts.{unread};
ghost use Rattle.luks_io.specs.Devices.{IfKnown};
ghost use Rattle.luks_access.specs.Sectors.{FailsAtStart, remaining_from, image_start};

use crate::image::ReadAt;
use luks_header::area::HeaderArea;
use luks_io::DeviceFault;
use luks_io::counts::ReadCounts;
use luks_io::source::Source;
use std::marker::{Brand, PhantomData};

/// The number of bytes at the start of an image that decide how it is opened.
const START_LEN: u64 = HeaderArea::MAX_LEN as u64;

/// Whether a read of an image's first bytes may fail. A call that reads an image picks it.
pub trait FailedRead {
    ghost use Rattle.std.specs.Prelude.{Bool};

    ghost may_fail: { Bool };
}

impl FailedRead for Brand {
    ghost use Rattle.std.specs.Prelude.{true};

    ghost may_fail = { true };
}

/// A source over the start of an image: it gives the image's first 33,554,432 bytes, from the first
/// one on. It knows its bytes if the image does. A read of it fails only if a read of one of these
/// bytes may fail.
#[derive(Drop)]
pub struct StartSource<'a, I: ReadAt, B: FailedRead> {
    image: &'a I,
    at: u64,
    counts: ReadCounts,
    failed: PhantomData<B>,
    ghost near: { at ≤ max_loaded_len },
    ghost within: { IfKnown (I.image image.now) (λ known. at ≤ length known) },
    ghost shows: { FailsAtStart (I.image image.now) (I.fails image.now) → B.may_fail ≡ true },
    ghost shown: { 0 < counts.failures → B.may_fail ≡ true },
}

impl<'a, I: ReadAt, B: FailedRead> StartSource<'a, I, B> {
    /// A source over the start of this image, from its first byte on, with nothing counted so far.
    pub fn new(image: &'a I) -> StartSource<'a, I, B>
        requires { FailsAtStart (I.image image.now) (I.fails image.now) → B.may_fail ≡ true }
        ensures bytes { ⟦<StartSource<'a, I, B> as Source>⟧.to_come result
            ≡ remaining_from 0 (image_start (I.image image.entry.now)) }
        ensures counts { ⟦<StartSource<'a, I, B> as Source>⟧.counts result
            ≡ unread }
    {
        StartSource {
            image,
            at: 0,
            counts: ReadCounts::new(),
            failed: PhantomData,
        }
    }
}

impl<'a, I: ReadAt, B: FailedRead> Source for StartSource<'a, I, B> {
    ghost use Rattle.luks_access.specs.Sectors.{remaining_from, image_start};

    ghost to_come = { λ s. remaining_from s.at (image_start (I.image s.image.now)) };

    ghost counts = { λ s. s.counts };

    /// Fills the buffer with the remaining bytes, as far as there are any. It fails if a read of
    /// the image fails or the image has become shorter.
    fn read(&mut self, buf: &mut [u8]) -> Result<usize, DeviceFault> {
        let remaining = self.image.len().min(START_LEN).saturating_sub(self.at);
        let count = remaining.min(buf.len() as u64) as usize;
        match self.image.read_at(self.at, &mut buf[..count]) {
            Ok(()) => {
                self.at += count as u64;
                self.counts.count(Ok(count), buf.len())
            }
            Err(_) => self.counts.count(Err(DeviceFault), buf.len()),
        }
    }

    fn allow_read_ahead(&mut self, end: u64) {
        self.counts.allow(end);
    }
}
