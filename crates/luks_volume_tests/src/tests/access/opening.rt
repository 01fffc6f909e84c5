//! Opening volumes, and how they are refused.

use super::fixture::{OPTIONS, PASS, image1, image2, is_range, opened, refusal, text};
use crate::tests::shared::assert_of;
use luks_access::memory::MemImage;
use luks_access::options::Options;
use luks_access::volume::{MAX_PASSPHRASE_LEN, Volume};
use luks_access::{
    HeaderFault, HeaderLocation, OpenFault, PassphraseFault, SlotChoice, VolumeFault,
};
use luks_format::sector_size::SectorSize;
use luks_test_support::bytes::at;
use luks_test_support::parameters::KEY;
use luks_test_support::scarce::Scarcity;
use std::alloc::Global;
use std::process::Abort;

// Options that name the key slot with this number.
fn named(slot: u8) -> Options {
    Options {
        slots: SlotChoice {
            named: Some(slot),
            max_iterations: None,
        },
        ..OPTIONS
    }
}

// Options with this limit on iterations.
fn limited(iterations: u32) -> Options {
    Options {
        slots: SlotChoice {
            named: None,
            max_iterations: Some(iterations),
        },
        ..OPTIONS
    }
}

// Why an image in memory is not opened.
fn fault(alloc: Global, options: &Options, image: &[u8], pass: &[u8]) -> Option<VolumeFault> {
    refusal(alloc, options, &MemImage::new(image), pass)
}

fn check_opened(rt: &(impl Abort + AllocGlobal), image: &[u8]) {
    assert_of(
        rt,
        "any",
        fault(rt.alloc(), &OPTIONS, image, PASS).is_none(),
    );
    assert_of(
        rt,
        "slot 2",
        fault(rt.alloc(), &named(2), image, PASS).is_none(),
    );
    assert_of(
        rt,
        "limit 3",
        fault(rt.alloc(), &limited(3), image, PASS).is_none(),
    );
}

fn check_refused(rt: &(impl Abort + AllocGlobal), image: &[u8]) {
    let named = fault(rt.alloc(), &named(3), image, PASS);
    let no_slot = VolumeFault::Slots(OpenFault::NoSuchSlot(3));
    assert_of(rt, "slot 3", named == Some(no_slot));
    let limited = fault(rt.alloc(), &limited(1), image, PASS);
    let is_untried = matches!(
        limited,
        Some(VolumeFault::Slots(OpenFault::NothingTried(_)))
    );
    assert_of(rt, "limit 1", is_untried);
    for pass in [b"Second".as_slice(), b"".as_slice()] {
        let other = fault(rt.alloc(), &OPTIONS, image, pass);
        let has_no_key = matches!(other, Some(VolumeFault::Slots(OpenFault::NoKey(_))));
        assert_of(rt, "another key", has_no_key);
    }
}

// The long text is too long for a passphrase, and is not a volume.
fn check_others(rt: &(impl Abort + AllocGlobal), image: &[u8], long: &[u8]) {
    let other = fault(rt.alloc(), &OPTIONS, image, long);
    let too_long = VolumeFault::Passphrase(PassphraseFault::TooLong);
    assert_of(rt, "long", other == Some(too_long));
    let other = fault(rt.alloc(), &OPTIONS, long, PASS);
    let not_luks = VolumeFault::Header(HeaderFault::NotLuks);
    assert_of(rt, "no volume", other == Some(not_luks));
    let other = fault(rt.alloc(), &OPTIONS, at(image, 0, 33_000), PASS);
    assert_of(rt, "cut", other == Some(VolumeFault::KeyAreaCut));
}

#[test]
fn a_volume_is_opened_or_refused_as_luks_cat_does(rt: HostRuntime) {
    let image = image2(&rt, text(&rt, 1024), SectorSize::B512, 3, false);
    check_opened(&rt, image);
    check_refused(&rt, image);
    check_others(&rt, image, text(&rt, MAX_PASSPHRASE_LEN + 1));
}

// Whether a volume was opened by slot 2, and has a payload from this byte on, of this size if it is
// fixed, with sectors that are numbered from `iv_tweak` on.
fn is_volume(volume: &Volume, offset: u64, size: Option<u64>, iv_tweak: u64) -> bool {
    let segment = volume.segment();
    (volume.slot() == 2)
        & (volume.key() == KEY)
        & (segment.offset == offset)
        & (segment.size == size)
        & (segment.iv_tweak == iv_tweak)
}

fn check_volume(
    rt: &(impl Abort + AllocGlobal),
    image: &[u8],
    offset: u64,
    size: Option<u64>,
    iv_tweak: u64,
) {
    let volume = opened(rt, &OPTIONS, image);
    assert_of(rt, "volume", is_volume(volume, offset, size, iv_tweak));
}

#[test]
fn a_volume_has_its_segment_slot_and_key(rt: HostRuntime) {
    let plain = text(&rt, 1024);
    let second = image2(&rt, plain, SectorSize::B512, 3, true);
    check_volume(&rt, second, 65_536, Some(1024), 3);
    check_volume(&rt, image1(&rt, plain), 36_864, None, 0);
}

// The image of the payload has zeros in place of its header.
#[test]
fn a_detached_header_opens_another_image(rt: HostRuntime) {
    let plain = text(&rt, 2048);
    let header = image2(&rt, plain, SectorSize::B512, 0, false);
    let image = image2(&rt, plain, SectorSize::B512, 0, false);
    let end = image.len().min(65_536);
    image[..end].fill(0);
    let options = Options {
        location: HeaderLocation::Detached,
        ..OPTIONS
    };
    let volume = opened(&rt, &options, at(header, 0, 65_536));
    let is_so = is_range(volume, image, plain, 700, &mut [0; 1000]);
    assert_of(&rt, "detached", is_so);
}

// Opens the volume again and again, with one more piece of memory each time.
fn open_until_done(
    alloc: Global,
    image: &[u8],
    scarcity: &mut Scarcity,
) -> (u32, Option<VolumeFault>) {
    let mut last = None;
    for refused in 0..400 {
        last = fault(alloc, &OPTIONS, image, PASS);
        let (Some(VolumeFault::Header(HeaderFault::Memory))
        | Some(VolumeFault::Slots(OpenFault::Memory))) = last
        else {
            return (refused, last);
        };
        scarcity.relent();
    }
    (400, last)
}

#[test]
fn out_of_memory_is_reported(rt: HostRuntime) {
    let image = image2(&rt, text(&rt, 1024), SectorSize::B512, 0, false);
    // The stack grows in this first run, since it cannot when all memory is allocated.
    let first = fault(rt.alloc(), &OPTIONS, image, PASS);
    assert_of(&rt, "first", first.is_none());
    let mut scarcity = Scarcity::new(rt.alloc(), 400, 4096).expect(&rt, "memory");
    let (refused, last) = open_until_done(rt.alloc(), image, &mut scarcity);
    drop(scarcity);
    assert_of(&rt, "last", last.is_none());
    assert_of(&rt, "refused", (0 < refused) & (refused < 400));
}
