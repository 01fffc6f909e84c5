//! Images with a read that fails, and images that have become shorter.

use super::assert_at;
use super::fixture::{BadImage, OPTIONS, PASS, image2, opened, refusal, text};
use crate::tests::shared::assert_of;
use luks_access::fault::RangeFault;
use luks_access::volume::Volume;
use luks_access::{HeaderFault, VolumeFault};
use luks_format::sector_size::SectorSize;
use luks_test_support::bytes::at;
use std::process::Abort;

/// A read of the image failed.
const UNREAD: VolumeFault = VolumeFault::Header(HeaderFault::Read);

fn is_zero(bytes: &[u8]) -> bool {
    bytes.iter().all(|byte| *byte == 0)
}

// The result of reading the range of 3,000 bytes from byte 1,500 on.
fn read(volume: &Volume, image: &BadImage<'_>, bytes: &mut [u8; 3000]) -> Result<(), RangeFault> {
    bytes.fill(0xee);
    volume.read_at(image, 1500, bytes)
}

// Whether reading the range ends with this fault, and the buffer is all zero.
fn is_blank(volume: &Volume, image: &BadImage<'_>, fault: RangeFault) -> bool {
    let mut bytes = [0; 3000];
    (read(volume, image, &mut bytes) == Err(fault)) & is_zero(&bytes)
}

// Whether reading the range gives the bytes of the text, with three reads.
fn is_whole(volume: &Volume, image: &[u8], plain: &[u8]) -> bool {
    let whole = BadImage::new(image);
    let mut bytes = [0; 3000];
    (read(volume, &whole, &mut bytes) == Ok(()))
        & (at(plain, 1500, 3000) == bytes.as_slice())
        & (whole.calls.get() == 3)
}

// The range has a part of a sector, two whole ones, and a part of a sector: three reads.
#[test]
fn a_read_that_fails_gives_no_plaintext(rt: HostRuntime) {
    let plain = text(&rt, 8192);
    let image = image2(&rt, plain, SectorSize::B1024, 0, false);
    let volume = opened(&rt, &OPTIONS, image);
    for failing in 1..4 {
        let bad = BadImage {
            failing,
            ..BadImage::new(image)
        };
        let is_so = is_blank(volume, &bad, RangeFault::Read);
        assert_at(&rt, u64::from(failing), is_so);
    }
    assert_of(&rt, "whole", is_whole(volume, image, plain));
}

// The last sector of the range ends at byte 70,656 of the image.
#[test]
fn an_image_that_became_shorter_gives_no_plaintext(rt: HostRuntime) {
    let image = image2(&rt, text(&rt, 8192), SectorSize::B1024, 0, false);
    let volume = opened(&rt, &OPTIONS, image);
    for len in [65_536, 67_000, 68_000, 70_655] {
        let shorter = BadImage {
            bytes: at(image, 0, len),
            ..BadImage::new(image)
        };
        let is_so = is_blank(volume, &shorter, RangeFault::Shorter);
        assert_at(&rt, len as u64, is_so);
    }
}

#[test]
fn an_image_is_not_opened_if_a_read_fails(rt: HostRuntime) {
    let image = image2(&rt, text(&rt, 1024), SectorSize::B512, 0, false);
    let whole = BadImage::new(image);
    let opened = refusal(rt.alloc(), &OPTIONS, &whole, PASS);
    assert_of(&rt, "whole", opened.is_none());
    let calls = whole.calls.get();
    assert_of(&rt, "calls", (0 < calls) & (calls < 100));
    for failing in 1..=calls {
        let bad = BadImage {
            failing,
            ..BadImage::new(image)
        };
        let fault = refusal(rt.alloc(), &OPTIONS, &bad, PASS);
        assert_at(&rt, u64::from(failing), fault == Some(UNREAD));
    }
}

// The image reports its first length: it is not one that ends inside its header or a key area.
#[test]
fn an_image_that_became_shorter_is_not_opened(rt: HostRuntime) {
    let image = image2(&rt, text(&rt, 1024), SectorSize::B512, 0, false);
    for len in [0, 511, 4_096, 20_000, 33_000] {
        let shorter = BadImage {
            bytes: at(image, 0, len),
            ..BadImage::new(image)
        };
        let fault = refusal(rt.alloc(), &OPTIONS, &shorter, PASS);
        assert_at(&rt, len as u64, fault == Some(UNREAD));
    }
}
