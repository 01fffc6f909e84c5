//! Ranges of volumes that were sealed from a known text.

use super::assert_at;
use super::fixture::{BadImage, OPTIONS, image1, image2, is_range, opened, text};
use crate::tests::shared::assert_of;
use luks_access::fault::RangeFault;
use luks_access::sectors::decrypt_sectors;
use luks_access::volume::Volume;
use luks_format::sector_size::SectorSize;
use luks_test_support::bytes::at;
use std::process::Abort;

/// The length of each text here: three of the longest sectors.
const LEN: usize = 12_288;

/// Ranges of such a text: the offset of each, and its length.
static RANGES: [(usize, usize); 16] = [
    (0, 0),
    (0, 1),
    (0, 512),
    (0, LEN),
    (1, 510),
    (1, 511),
    (1, 512),
    (511, 2),
    (512, 4096),
    (4095, 2),
    (4096, 4096),
    (4097, 8190),
    (5000, 3000),
    (LEN - 1, 1),
    (LEN - 513, 513),
    (LEN, 0),
];

/// Ranges that end past the text.
static PAST: [(u64, usize); 5] = [
    (0, LEN + 1),
    (LEN as u64, 1),
    (LEN as u64 - 1, 2),
    (u64::MAX, 1),
    (u64::MAX, 0),
];

/// A range of a text in sectors of 1,024 bytes, stored from byte 65,536 on: its offset, its length,
/// and the offsets in the image at which its sectors start and end.
type Window = (u64, usize, u64, u64);

static WINDOWS: [Window; 6] = [
    (1024, 1024, 66_560, 67_584),
    (1500, 10, 66_560, 67_584),
    (1500, 1000, 66_560, 68_608),
    (2047, 2050, 66_560, 70_656),
    (11_264, 1024, 76_800, 77_824),
    (2048, 0, 1, 1),
];

// Each range of the volume has the bytes of the text.
fn check_ranges(
    rt: &(impl Abort + AllocGlobal),
    image: &[u8],
    plain: &[u8],
    rows: &[(usize, usize)],
) {
    let volume = opened(rt, &OPTIONS, image);
    let bytes = text(rt, LEN);
    for (offset, count) in rows {
        let count = (*count).min(bytes.len());
        let is_so = is_range(volume, image, plain, *offset, &mut bytes[..count]);
        assert_at(rt, *offset as u64, is_so);
    }
}

/// The size of sectors, the number of the first one, and whether the payload's size is fixed.
type Shape = (SectorSize, u64, bool);

static SHAPES: [Shape; 4] = [
    (SectorSize::B512, 0, false),
    (SectorSize::B1024, 7, true),
    (SectorSize::B2048, u64::MAX, false),
    (SectorSize::B4096, 8, true),
];

fn check_shapes(rt: &(impl Abort + AllocGlobal), plain: &[u8], rows: &[Shape]) {
    for (sector_size, iv_tweak, fixed) in rows {
        let image = image2(rt, plain, *sector_size, *iv_tweak, *fixed);
        check_ranges(rt, image, plain, &RANGES);
    }
}

#[test]
fn each_range_of_a_volume_is_that_of_its_text(rt: HostRuntime) {
    let plain = text(&rt, LEN);
    check_ranges(&rt, image1(&rt, plain), plain, &RANGES);
    check_shapes(&rt, plain, &SHAPES);
}

// The range is refused: no call reads the image, and the buffer stays as it was.
fn check_past(
    rt: &(impl Abort + AllocGlobal),
    volume: &Volume,
    image: &[u8],
    (offset, len): &(u64, usize),
) {
    let image = BadImage::new(image);
    let (before, bytes) = (text(rt, *len), text(rt, *len));
    let answer = volume.read_at(&image, *offset, bytes);
    let is_unread = (&bytes[..] == &before[..]) & (image.calls.get() == 0);
    let is_past = answer == Err(RangeFault::PastEnd);
    assert_at(rt, *offset, is_past & is_unread);
}

#[test]
fn a_range_past_the_end_reads_nothing(rt: HostRuntime) {
    let image = image2(&rt, text(&rt, LEN), SectorSize::B4096, 0, false);
    let volume = opened(&rt, &OPTIONS, image);
    for row in &PAST {
        check_past(&rt, volume, image, row);
    }
}

// The range can be read if only this part of the image can.
fn check_window(
    rt: &(impl Abort + AllocGlobal),
    volume: &Volume,
    image: &[u8],
    (offset, len, first, end): &Window,
) {
    let window = BadImage {
        first: *first,
        end: *end,
        ..BadImage::new(image)
    };
    let answer = volume.read_at(&window, *offset, text(rt, *len));
    assert_at(rt, *offset, answer == Ok(()));
}

#[test]
fn only_the_sectors_of_a_range_are_read(rt: HostRuntime) {
    let image = image2(&rt, text(&rt, LEN), SectorSize::B1024, 0, false);
    let volume = opened(&rt, &OPTIONS, image);
    for row in &WINDOWS {
        check_window(&rt, volume, image, row);
    }
}

// Decrypts the stored sectors from sector 2 of the payload on, if they are whole.
fn decrypt(volume: &Volume, bytes: &mut [u8]) {
    let segment = volume.segment();
    let size = segment.sector_size.bytes();
    if bytes.len() % size == 0 {
        decrypt_sectors(&segment, volume.keys(), 2, bytes);
    }
}

#[test]
fn stored_sectors_are_decrypted_in_place(rt: HostRuntime) {
    let plain = text(&rt, LEN);
    let image = image2(&rt, plain, SectorSize::B1024, 7, false);
    let stored = at(image, 67_584, 2048);
    assert!(rt; stored.len() == 2048);
    let mut bytes = [0; 2048];
    bytes.copy_from_slice(stored);
    decrypt(opened(&rt, &OPTIONS, image), &mut bytes);
    assert_of(&rt, "decrypted", at(plain, 2048, 2048) == bytes.as_slice());
}
