//! How payloads end, and how much plaintext they have.

use super::assert_at;
use super::fixture::{OPTIONS, image2, is_range, opened, text};
use luks_access::volume::Volume;
use luks_format::sector_size::SectorSize;
use luks_payload::fault::PayloadFault;
use luks_payload::state::Step;
use luks_test_support::bytes::at;
use std::process::Abort;

/// How an image ends: its length, that of its plaintext, and how the payload ends.
type Ending = (u64, u64, Result<Step, PayloadFault>);

/// A payload of two sectors of 1,024 bytes, from byte 65,536 to the end of its image.
static OPEN: [Ending; 7] = [
    (0, 0, Err(PayloadFault::CutBeforePayload)),
    (65_535, 0, Err(PayloadFault::CutBeforePayload)),
    (65_536, 0, Ok(Step::End)),
    (65_537, 0, Err(PayloadFault::Tail(1))),
    (66_560, 1024, Ok(Step::End)),
    (67_583, 1024, Err(PayloadFault::Tail(1023))),
    (67_584, 2048, Ok(Step::End)),
];

/// The same with a fixed size, which is that of the two sectors.
static FIXED: [Ending; 6] = [
    (65_535, 0, Err(PayloadFault::CutBeforePayload)),
    (65_536, 0, Err(PayloadFault::Short(2048))),
    (66_560, 1024, Err(PayloadFault::Short(1024))),
    (67_583, 1024, Err(PayloadFault::Short(1))),
    (67_584, 2048, Ok(Step::End)),
    (99_999, 2048, Ok(Step::End)),
];

// Whether an image of this length has a plaintext of this length and this ending.
fn has_ending(volume: &Volume, (image_len, len, ending): &Ending) -> bool {
    (volume.len(*image_len) == *len) & (volume.payload_ending(*image_len) == *ending)
}

// The plaintext of the image of this length is a prefix of the text.
fn check_ending(
    rt: &(impl Abort + AllocGlobal),
    volume: &Volume,
    image: &[u8],
    plain: &[u8],
    row: &Ending,
) {
    assert_at(rt, row.0, has_ending(volume, row));
    let cut = at(image, 0, row.0 as usize);
    let bytes = text(rt, row.1 as usize);
    assert_at(rt, row.0, is_range(volume, cut, plain, 0, bytes));
}

fn check_endings(rt: &(impl Abort + AllocGlobal), image: &[u8], plain: &[u8], rows: &[Ending]) {
    let volume = opened(rt, &OPTIONS, image);
    for row in rows {
        check_ending(rt, volume, image, plain, row);
    }
}

#[test]
fn a_truncated_image_gives_its_whole_sectors(rt: HostRuntime) {
    let plain = text(&rt, 2048);
    let open = image2(&rt, plain, SectorSize::B1024, 0, false);
    let fixed = image2(&rt, plain, SectorSize::B1024, 0, true);
    check_endings(&rt, open, plain, &OPEN);
    check_endings(&rt, fixed, plain, &FIXED);
}
