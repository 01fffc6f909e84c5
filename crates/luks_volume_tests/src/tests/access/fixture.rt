//! Sealed volumes, and images that fail.
//!
//! What is made for a test lives to its end, so that no function drops it.

use crate::tests::shared::kept;
use luks_access::image::{ReadAt, ReadAtFault};
use luks_access::memory::MemImage;
use luks_access::options::Options;
use luks_access::volume::Volume;
use luks_access::{HeaderLocation, SlotChoice, VolumeFault};
use luks_format::sector_size::SectorSize;
use luks_test_support::bytes::{at, counted};
use luks_test_support::parameters::{parameters1, parameters2, slot1, slot2};
use luks_volume::luks1::seal1;
use luks_volume::luks2::seal2;
use luks_volume::parameters::Seal2;
use std::alloc::Global;
use std::cell::Cell;
use std::process::Abort;

/// The passphrase of key slot 2 of each volume here.
pub const PASS: &[u8] = b"second";

/// The options that open each volume here.
pub const OPTIONS: Options = Options {
    location: HeaderLocation::Attached,
    slots: SlotChoice {
        named: None,
        max_iterations: None,
    },
    argon2: None,
};

/// This many bytes that count up, to be read or overwritten.
pub fn text(rt: &(impl Abort + AllocGlobal), len: usize) -> &'static mut [u8] {
    counted(rt.alloc(), len).expect(rt, "memory").leak()
}

/// A volume of LUKS1 with this text. Its payload begins at byte 36,864.
pub fn image1(rt: &(impl Abort + AllocGlobal), plain: &[u8]) -> &'static mut [u8] {
    let slots = [slot1(2, [0x22; 32], PASS)];
    let image = seal1(rt.alloc(), &parameters1(&slots, plain));
    image.expect(rt, "a volume").leak()
}

/// A volume of LUKS2 with this text, in sectors of this size, numbered from `iv_tweak` on. Its
/// payload begins at byte 65,536, and has a fixed size or ends with the image.
pub fn image2(
    rt: &(impl Abort + AllocGlobal),
    plain: &[u8],
    sector_size: SectorSize,
    iv_tweak: u64,
    fixed: bool,
) -> &'static mut [u8] {
    let slots = [slot2(2, [0x22; 32], PASS)];
    let parameters = Seal2 {
        sector_size,
        iv_tweak,
        fixed,
        ..parameters2(&slots, plain)
    };
    seal2(rt.alloc(), &parameters).expect(rt, "a volume").leak()
}

/// Opens the volume of an image with the passphrase of its key slot.
pub fn opened(rt: &(impl Abort + AllocGlobal), options: &Options, image: &[u8]) -> &'static Volume {
    let image = MemImage::new(image);
    let Ok(volume) = Volume::open(rt.alloc(), options, &image, PASS) else {
        panic!(rt; "not opened");
    };
    kept(rt, volume)
}

/// Whether the range of a volume from this offset on has the bytes of the text, if the image is
/// read.
pub fn is_range(
    volume: &Volume,
    image: &[u8],
    plain: &[u8],
    offset: usize,
    bytes: &mut [u8],
) -> bool {
    bytes.fill(0xee);
    let answer = volume.read_at(&MemImage::new(image), offset as u64, bytes);
    (answer == Ok(())) & (at(plain, offset, bytes.len()) == &bytes[..])
}

/// Why a volume is not opened, or `None` if it is.
pub fn refusal(
    alloc: Global,
    options: &Options,
    image: &impl ReadAt,
    pass: &[u8],
) -> Option<VolumeFault> {
    match Volume::open(alloc, options, image, pass) {
        Ok(_) => None,
        Err(fault) => Some(fault),
    }
}

/// An image with one call that fails, or with parts that cannot be read.
#[derive(Drop)]
pub struct BadImage<'a> {
    /// The bytes that can be read.
    pub bytes: &'a [u8],
    /// The length that it reports.
    pub len: u64,
    /// The number of the call of `read_at` that fails, from 1 on; 0 if none does.
    pub failing: u32,
    /// The number of calls of `read_at` so far.
    pub calls: Cell<u32>,
    /// No byte before this offset can be read.
    pub first: u64,
    /// No byte from this offset on can be read.
    pub end: u64,
}

impl<'a> BadImage<'a> {
    /// An image of these bytes, of which no call fails.
    pub fn new(bytes: &'a [u8]) -> BadImage<'a> {
        let len = bytes.len() as u64;
        BadImage {
            bytes,
            len,
            failing: 0,
            calls: Cell::new(0),
            first: 0,
            end: len,
        }
    }
}

impl<'a> ReadAt for BadImage<'a> {
    ghost use Rattle.std.specs.Prelude.{None, true};

    ghost image = { λ _. None };

    ghost fails = { λ _ _. true };

    fn len(&self) -> u64 {
        self.len
    }

    fn read_at(&self, offset: u64, buf: &mut [u8]) -> Result<(), ReadAtFault> {
        let call = self.calls.get().saturating_add(1);
        self.calls.set(call);
        let end = offset.saturating_add(buf.len() as u64);
        if buf.is_empty() {
            return Ok(());
        }
        if call == self.failing || offset < self.first || self.end < end {
            // What a failed read leaves in the buffer is not plaintext.
            buf.fill(0xbd);
            return Err(ReadAtFault::Failed);
        }
        MemImage::new(self.bytes).read_at(offset, buf)
    }
}
