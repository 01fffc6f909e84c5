//! Sealed volumes of both formats: the header is read, passphrases are tried, and a pump decrypts
//! the payload.

use super::fixture::{NEVER, run_pieces, sink_of};
use crate::tests::shared::{assert_of, counted, kept};
use luks_cipher::{Mode, SectorCipher};
use luks_header::area::HeaderArea;
use luks_header::header::{Header, read_header};
use luks_header::header_segment::segment;
use luks_header::sector_size::SectorSize;
use luks_io::memory::MemSource;
use luks_kdf::{Hash, Work};
use luks_open::fault::OpenFault;
use luks_open::opening::{Opened, open};
use luks_open::order::key_material_end;
use luks_open::ordering::order;
use luks_payload::pump::Pump;
use luks_payload::state::Step;
use luks_test_support::bytes::{at, put};
use luks_test_support::devices::FlakySource;
use luks_test_support::parameters::{self, parameters1, parameters2};
use luks_volume::luks1::seal1;
use luks_volume::luks2::seal2;
use luks_volume::parameters::{Seal1, Seal2, Slot1, Slot2};
use std::process::Abort;

const MODES: [(Mode, usize); 8] = [
    (Mode::XtsPlain64, 32),
    (Mode::XtsPlain64, 64),
    (Mode::XtsPlain, 32),
    (Mode::XtsPlain, 64),
    (Mode::CbcEssivSha256, 16),
    (Mode::CbcEssivSha256, 32),
    (Mode::CbcPlain64, 16),
    (Mode::CbcPlain64, 32),
];

const SIZES: [SectorSize; 4] = [
    SectorSize::B512,
    SectorSize::B1024,
    SectorSize::B2048,
    SectorSize::B4096,
];

const FIRST: &[u8] = b"first";

const SECOND: &[u8] = b"";

const UNRANKED: &[u8] = b"by its number alone";

/// Bytes of keys.
const KEY: &[u8] = b"a volume key of AES-256 has two halves, thirty-two bytes in each";

/// How many stripes there are.
const STRIPES: u32 = 3;

// What a passphrase opens in a header's image, whether or not a slot is named.
fn opened(
    rt: &(impl Abort + AllocGlobal),
    header: &Header,
    area: &mut HeaderArea,
    source: &mut MemSource<'_>,
    named: Option<u8>,
    pass: &[u8],
) -> Result<Opened, OpenFault> {
    let Ok(_) = segment(header) else {
        panic!(rt; "the segment is refused");
    };
    let Ok(order) = order(rt.alloc(), header, named, None) else {
        panic!(rt; "nothing is tried");
    };
    let Ok(true) = area.extend_to(source, key_material_end(&order)) else {
        panic!(rt; "the image is cut");
    };
    open(header, area, &order, pass, &mut Work::new(0))
}

// Checks that the payload under this key is this plaintext.
fn check_payload(
    rt: &(impl Abort + AllocGlobal),
    header: &Header,
    key: &[u8],
    image: &[u8],
    plain: &[u8],
) {
    let payload = segment(header).expect(rt, "a segment");
    let cipher = SectorCipher::new(payload.mode, key).expect(rt, "a key of the mode");
    let mut source = FlakySource::new(image, 0, NEVER);
    let sink = sink_of(rt, 65_536, 65_536, NEVER);
    let (_, last) = run_pieces(&mut Pump::new(payload, cipher, 0), &mut source, sink);
    let is_plain = sink.as_slice() == plain;
    assert_of(rt, "payload", is_plain & (last == Ok(Step::End)));
}

fn check_slot(rt: &impl Abort, pass: &[u8], found: Option<u8>, slot: Option<u8>) {
    assert!(rt; found == slot, "{pass:?}: {found:?}");
}

// Checks that the passphrase opens this slot of the image and that the payload is this plaintext,
// or that it opens no slot, or not the named one.
fn check_opens(
    rt: &(impl Abort + AllocGlobal),
    (image, plain): (&[u8], &[u8]),
    named: Option<u8>,
    pass: &[u8],
    slot: Option<u8>,
) {
    let mut source = MemSource::new(image);
    let (header, area) = read_header(rt.alloc(), &mut source).expect(rt, "a header");
    let (header, area) = (kept(rt, header), kept(rt, area));
    match opened(rt, header, area, &mut source, named, pass) {
        Ok(opened) => {
            check_slot(rt, pass, Some(opened.slot), slot);
            check_payload(rt, header, opened.key.as_slice(), image, plain);
        }
        Err(_) => check_slot(rt, pass, None, slot),
    }
}

/// The named slot, a passphrase, and the slot that it opens.
type Opening = (Option<u8>, &'static [u8], Option<u8>);

fn check_openings(
    rt: &(impl Abort + AllocGlobal),
    (image, plain): (&[u8], &[u8]),
    rows: &[Opening],
) {
    for (named, pass, slot) in rows {
        check_opens(rt, (image, plain), *named, pass, *slot);
    }
}

static OF_LUKS1: [Opening; 4] = [
    (None, FIRST, Some(1)),
    (None, SECOND, Some(6)),
    (Some(6), SECOND, Some(6)),
    (Some(1), SECOND, None),
];

// A volume of LUKS1 with two slots.
fn check_volume1(rt: &(impl Abort + AllocGlobal), mode: Mode, key: &[u8], plain: &[u8]) {
    let random = counted(rt, key.len().saturating_mul(2));
    let second = Slot1 {
        random,
        ..parameters::slot1(6, [0x41; 32], SECOND)
    };
    let first = Slot1 {
        random,
        ..parameters::slot1(1, [0x41; 32], FIRST)
    };
    let slots = [second, first];
    let seal = Seal1 {
        hash: Hash::Sha384,
        mode,
        key,
        stripes: STRIPES,
        digest_iterations: 2,
        ..parameters1(&slots, plain)
    };
    let image = seal1(rt.alloc(), &seal).expect(rt, "a volume").leak();
    check_openings(rt, (image, plain), &OF_LUKS1);
}

#[test]
fn each_passphrase_opens_a_volume_of_luks1_in_each_mode(rt: HostRuntime) {
    let plain = counted(&rt, 1536);
    for (mode, len) in MODES {
        check_volume1(&rt, mode, at(KEY, 0, len), plain);
    }
}

fn slot2<'a>(
    (number, priority): (u32, u32),
    hash: Hash,
    passphrase: &'static [u8],
    random: &'a [u8],
) -> Slot2<'a> {
    Slot2 {
        priority,
        hash,
        iterations: 3,
        af_hash: hash,
        stripes: STRIPES,
        random,
        ..parameters::slot2(number, [0x42; 32], passphrase)
    }
}

fn volume2<'a>(mode: Mode, key: &'a [u8], plain: &'a [u8]) -> Seal2<'a> {
    Seal2 {
        mode,
        key,
        offset: 49_152,
        digest_hash: Hash::Sha512,
        digest_iterations: 2,
        ..parameters2(&[], plain)
    }
}

static OF_LUKS2: [Opening; 5] = [
    (None, FIRST, Some(10)),
    (None, SECOND, Some(31)),
    (Some(2), UNRANKED, Some(2)),
    (None, UNRANKED, None),
    (Some(2), FIRST, None),
];

// A volume of LUKS2 with three slots. The one with priority 0 only opens by its number.
fn check_volume2(rt: &(impl Abort + AllocGlobal), seal: Seal2<'_>) {
    let random = counted(rt, seal.key.len().saturating_mul(2));
    let slots = [
        slot2((31, 2), Hash::Sha512, SECOND, random),
        slot2((2, 0), Hash::Sha256, UNRANKED, random),
        slot2((10, 1), Hash::Sha1, FIRST, random),
    ];
    let seal = Seal2 {
        slots: &slots,
        ..seal
    };
    let image = seal2(rt.alloc(), &seal).expect(rt, "a volume").leak();
    check_openings(rt, (image, seal.plain), &OF_LUKS2);
}

#[test]
fn each_passphrase_opens_a_volume_of_luks2_in_each_mode(rt: HostRuntime) {
    let plain = counted(&rt, 8192);
    for (mode, len) in MODES {
        for sector_size in SIZES {
            let seal = Seal2 {
                sector_size,
                ..volume2(mode, at(KEY, 0, len), plain)
            };
            check_volume2(&rt, seal);
        }
    }
}

#[test]
fn key_material_is_in_a_mode_of_its_own(rt: HostRuntime) {
    let plain = counted(&rt, 512);
    for (area_mode, area_key_size) in MODES {
        let seal = Seal2 {
            area_mode,
            area_key_size,
            ..volume2(Mode::XtsPlain64, KEY, plain)
        };
        check_volume2(&rt, seal);
    }
}

/// Lengths of payloads, 0 among them, and whether they are fixed.
const LENGTHS: [(usize, bool); 5] = [
    (12_288, false),
    (12_288, true),
    (4096, true),
    (0, true),
    (0, false),
];

// Unit numbers that wrap at 2^64, and lengths that are fixed, 0 among them.
#[test]
fn unit_numbers_wrap_and_sizes_are_kept(rt: HostRuntime) {
    let plain = counted(&rt, 12_288);
    for (len, fixed) in LENGTHS {
        for sector_size in SIZES {
            let seal = Seal2 {
                sector_size,
                fixed,
                iv_tweak: u64::MAX - 7,
                ..volume2(Mode::XtsPlain64, KEY, at(plain, 0, len))
            };
            check_volume2(&rt, seal);
        }
    }
}

// A volume of LUKS2 with one slot.
fn sealed_once(rt: &(impl Abort + AllocGlobal), seal: Seal2<'_>) -> &'static mut [u8] {
    let random = counted(rt, 128);
    let seal = Seal2 {
        slots: &[slot2((0, 1), Hash::Sha256, FIRST, random)],
        ..seal
    };
    seal2(rt.alloc(), &seal).expect(rt, "a volume").leak()
}

// Bytes after a fixed size are no part of the payload.
#[test]
fn a_fixed_size_ends_the_payload(rt: HostRuntime) {
    let plain = counted(&rt, 1024);
    let seal = Seal2 {
        fixed: true,
        ..volume2(Mode::XtsPlain64, KEY, plain)
    };
    let parts: [&[u8]; 2] = [sealed_once(&rt, seal), plain];
    let image = parts.concat(rt.alloc()).expect(&rt, "memory").leak();
    check_opens(&rt, (image, plain), None, FIRST, Some(0));
}

/// Seven of the nine sizes that a header can have.
const HEADERS: [u64; 7] = [16_384, 32_768, 65_536, 131_072, 262_144, 524_288, 1_048_576];

// Opens the volume, and opens it again with a damaged primary header: the first byte of its text
// is then one that ends it.
fn check_headers(rt: &(impl Abort + AllocGlobal), plain: &[u8], hdr_size: u64) {
    let seal = Seal2 {
        hdr_size,
        offset: hdr_size.saturating_mul(2).saturating_add(4096),
        ..volume2(Mode::XtsPlain64, KEY, plain)
    };
    let image = sealed_once(rt, seal);
    check_opens(rt, (image, plain), None, FIRST, Some(0));
    assert_of(rt, "length", 4096 < image.len());
    put(image, 4096, b"}");
    check_opens(rt, (image, plain), None, FIRST, Some(0));
}

// The secondary header is chosen if the primary one is damaged.
#[test]
fn both_headers_are_valid(rt: HostRuntime) {
    let plain = counted(&rt, 1024);
    for hdr_size in HEADERS {
        check_headers(&rt, plain, hdr_size);
    }
}
