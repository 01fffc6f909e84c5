//! Whole images of sealed volumes, compared with those that a Python program made from the same
//! parameters by the LUKS1 and LUKS2 On-Disk Format Specifications, with hashlib, json and the AES,
//! XTS and CBC of `cryptography`. cryptsetup opens a LUKS1 image of that program with 4000 stripes,
//! and qemu-img reads it.

use crate::tests::shared::counted;
use luks_cipher::Mode;
use luks_format::sector_size::SectorSize;
use luks_kdf::{Hash, digest};
use luks_test_support::bytes::at;
use luks_test_support::parameters::{parameters1, parameters2, slot1, slot2};
use luks_volume::luks1::seal1;
use luks_volume::luks2::seal2;
use luks_volume::parameters::{Seal1, Seal2, SealFault, Slot1, Slot2};
use std::process::Abort;

/// The SHA-256 of an image of LUKS1 with a key of 32 bytes and areas of one sector.
const SMALL_1: [u8; 32] = [
    0x2e, 0x0e, 0xbf, 0x00, 0x18, 0x67, 0xff, 0x8a, 0xd7, 0x33, 0xfa, 0x2f, 0x09, 0xcb, 0x28, 0xdf,
    0xe8, 0xbf, 0xb6, 0xec, 0x6a, 0x4b, 0x90, 0x7e, 0x0f, 0x86, 0x99, 0xfd, 0xcf, 0x5f, 0x02, 0xae,
];

/// The SHA-256 of one with a key of 64 bytes, areas of 13 sectors, the last one half used, and
/// three slots.
const LARGE_1: [u8; 32] = [
    0x64, 0x9d, 0x65, 0x78, 0x5d, 0x45, 0x5c, 0x56, 0x6e, 0x13, 0xef, 0xa9, 0x79, 0x98, 0xc3, 0x60,
    0x24, 0xca, 0x11, 0x51, 0x03, 0xbd, 0x40, 0x62, 0x60, 0xab, 0x14, 0xbd, 0x39, 0xae, 0x77, 0xdf,
];

/// The SHA-256 of an image of LUKS2 with a key of 32 bytes and two slots.
const SMALL_2: [u8; 32] = [
    0x85, 0x38, 0x80, 0xc4, 0x51, 0x73, 0x70, 0xe7, 0x7b, 0x82, 0xcc, 0x74, 0x20, 0xf1, 0xb4, 0x5a,
    0xdf, 0x08, 0xb8, 0xcc, 0x65, 0xc9, 0x99, 0xaf, 0x4a, 0x6e, 0x5d, 0x85, 0xbb, 0x60, 0xe2, 0x65,
];

/// The SHA-256 of one with headers of 32,768 bytes, three slots with hashes and stripes of
/// their own, and two sectors of 4096 bytes whose unit numbers wrap.
const LARGE_2: [u8; 32] = [
    0xde, 0x32, 0x64, 0x51, 0x64, 0x0b, 0x4d, 0x59, 0x2c, 0xc8, 0x85, 0x38, 0x73, 0x4d, 0xd0, 0xf9,
    0x84, 0xa2, 0x38, 0xd0, 0x5b, 0xd0, 0xe7, 0xc8, 0x10, 0x04, 0x3c, 0xe1, 0xeb, 0x1f, 0x27, 0x3d,
];

/// The SHA-256 of one as volumes usually are, with 4000 stripes and a key of 64 bytes. Both
/// passphrases open that program's image in cryptsetup 2.6.1, which gives the volume key.
const USUAL_2: [u8; 32] = [
    0x6a, 0xda, 0x48, 0xa8, 0xba, 0x5b, 0x53, 0xa4, 0x15, 0x06, 0x07, 0x85, 0xd9, 0xb2, 0x3f, 0xfc,
    0xaf, 0x2e, 0x30, 0x9a, 0xd4, 0x7d, 0x43, 0x22, 0x27, 0xa9, 0xef, 0x45, 0xed, 0x4c, 0xe7, 0xea,
];

// Checks that the volume is sealed, and that its image has this length and this hash.
fn check_image(rt: &impl Abort, sealed: Result<Vec<u8>, SealFault>, len: usize, hash: [u8; 32]) {
    let image = sealed.expect(rt, "a volume");
    let mut found = [0; 32];
    digest(Hash::Sha256, &image, b"", b"", &mut found);
    assert!(rt; image.len() == len && found == hash, "{found:?}");
}

#[test]
fn small_volumes_are_laid_out_as_specified(rt: HostRuntime) {
    let plain = counted(&rt, 1024);
    let slots = [
        slot1(5, [0x66; 32], b"sixth"),
        slot1(0, [0x11; 32], b"first"),
    ];
    let sealed = seal1(rt.alloc(), &parameters1(&slots, plain));
    check_image(&rt, sealed, 37_888, SMALL_1);
    let slots = [
        slot2(5, [0x66; 32], b"sixth"),
        slot2(0, [0x11; 32], b"first"),
    ];
    let sealed = seal2(rt.alloc(), &parameters2(&slots, plain));
    check_image(&rt, sealed, 66_560, SMALL_2);
}

#[test]
fn a_large_volume_of_luks1_is_laid_out_as_specified(rt: HostRuntime) {
    let bytes = counted(&rt, 6336);
    let fourth = Slot1 {
        iterations: 1003,
        random: bytes,
        ..slot1(3, [0x33; 32], b"")
    };
    let eighth = Slot1 {
        iterations: 1,
        random: bytes,
        ..slot1(7, [0x77; 32], b"the last slot")
    };
    let first = Slot1 {
        iterations: 5,
        random: bytes,
        ..slot1(0, [0x01; 32], b"\x00\xff")
    };
    let slots = [fourth, eighth, first];
    let seal = Seal1 {
        hash: Hash::Sha1,
        mode: Mode::XtsPlain64,
        key: at(bytes, 0, 64),
        stripes: 100,
        payload_sectors: 136,
        uuid: b"0123456789012345678901234567890123456789",
        digest_salt: [0x2a; 32],
        digest_iterations: 1001,
        slots: &slots,
        plain: at(bytes, 0, 1536),
    };
    check_image(&rt, seal1(rt.alloc(), &seal), 71_168, LARGE_1);
}

fn large_slots(bytes: &[u8]) -> [Slot2<'_>; 3] {
    let eleventh = Slot2 {
        priority: 0,
        hash: Hash::Sha512,
        iterations: 1003,
        af_hash: Hash::Sha1,
        stripes: 200,
        random: at(bytes, 0, 6368),
        ..slot2(10, [0x33; 32], b"")
    };
    let last = Slot2 {
        priority: 2,
        hash: Hash::Sha1,
        iterations: 1,
        af_hash: Hash::Sha384,
        stripes: 1,
        random: b"",
        ..slot2(31, [0x77; 32], b"the last slot")
    };
    let third = Slot2 {
        hash: Hash::Sha224,
        iterations: 5,
        af_hash: Hash::Sha224,
        stripes: 129,
        random: at(bytes, 0, 4096),
        ..slot2(2, [0x01; 32], b"\x00\xff")
    };
    [eleventh, last, third]
}

#[test]
fn a_large_volume_of_luks2_is_laid_out_as_specified(rt: HostRuntime) {
    let bytes = counted(&rt, 8192);
    let slots = large_slots(bytes);
    let seal = Seal2 {
        hdr_size: 32_768,
        seqid: u64::MAX,
        uuid: b"0123456789012345678901234567890123456789",
        label: b"llllllllllllllllllllllllllllllllllllllllllllllll",
        subsystem: b"a \\ subsystem",
        mode: Mode::CbcEssivSha256,
        key: at(bytes, 0, 32),
        sector_size: SectorSize::B4096,
        iv_tweak: 18_446_744_073_709_551_608,
        offset: 94_208,
        fixed: true,
        area_mode: Mode::CbcPlain64,
        area_key_size: 16,
        digest_hash: Hash::Sha512,
        digest_salt: [0x2a; 32],
        digest_iterations: 1001,
        ..parameters2(&slots, bytes)
    };
    check_image(&rt, seal2(rt.alloc(), &seal), 102_400, LARGE_2);
}

#[test]
fn a_volume_as_they_usually_are_is_laid_out_as_specified(rt: HostRuntime) {
    let bytes = counted(&rt, 255_936);
    let first = Slot2 {
        iterations: 1000,
        af_hash: Hash::Sha1,
        stripes: 4000,
        random: bytes,
        ..slot2(0, [0x20; 32], b"first passphrase")
    };
    let second = Slot2 {
        priority: 2,
        hash: Hash::Sha512,
        iterations: 1000,
        stripes: 4000,
        random: bytes,
        ..slot2(1, [0x21; 32], b"second passphrase")
    };
    let slots = [second, first];
    let seal = Seal2 {
        uuid: b"11111111-2222-3333-4444-555555555555",
        key: at(bytes, 7, 64),
        sector_size: SectorSize::B4096,
        offset: 1_048_576,
        digest_iterations: 1000,
        ..parameters2(&slots, at(bytes, 0, 16_384))
    };
    check_image(&rt, seal2(rt.alloc(), &seal), 1_064_960, USUAL_2);
}
