//! Sealed volumes of both formats with two key slots, in each mode and with sectors of each length.
//! `luksCat` writes their plaintext by either passphrase.

use super::runs::{CAT, DONE, Inputs, check};
use super::volume::{KEY, plain_of};
use super::volumes2::slot;
use luks_cipher::Mode;
use luks_format::sector_size::SectorSize;
use luks_kdf::Hash;
use luks_test_support::bytes::at;
use luks_test_support::parameters::{parameters1, parameters2};
use luks_volume::luks1::seal1;
use luks_volume::luks2::seal2;
use luks_volume::parameters::{Seal1, Seal2, Slot1, Slot2};
use std::process::Abort;

const ONE: &[u8] = b"one";

const OTHER: &[u8] = b"another";

/// A mode, how many bytes of the key it uses, and the key slots of both formats.
type InMode = (
    Mode,
    usize,
    &'static [Slot1<'static>],
    &'static [Slot2<'static>],
);

// A LUKS1 key slot with this number and this passphrase, and `random_len` bytes of random stripes.
macro_rules! slot1 {
    ($number:literal, $passphrase:ident, $random_len:literal) => {
        Slot1 {
            number: $number,
            iterations: 2,
            salt: [0x51; 32],
            passphrase: $passphrase,
            random: &[0x5a; $random_len],
        }
    };
}

// Two key slots of each format.
macro_rules! in_mode {
    ($mode:ident, $key_len:literal, $random_len:literal) => {
        (
            Mode::$mode,
            $key_len,
            &[
                slot1!(2, ONE, $random_len),
                slot1!(5, OTHER, $random_len),
            ],
            &[
                slot!(7, 1, ONE, $random_len),
                slot!(31, 1, OTHER, $random_len),
            ],
        )
    };
}

static MODES: [InMode; 4] = [
    in_mode!(XtsPlain64, 64, 192),
    in_mode!(XtsPlain, 32, 96),
    in_mode!(CbcEssivSha256, 32, 96),
    in_mode!(CbcPlain64, 16, 48),
];

static SECTOR_SIZES: [SectorSize; 4] = [
    SectorSize::B512,
    SectorSize::B1024,
    SectorSize::B2048,
    SectorSize::B4096,
];

fn first<'a>(
    rt: &(impl Abort + AllocGlobal),
    (mode, key): (Mode, &'a [u8]),
    slots: &'a [Slot1<'a>],
    plain: &'a [u8],
) -> Vec<u8> {
    let volume = Seal1 {
        hash: Hash::Sha1,
        mode,
        key,
        ..parameters1(slots, plain)
    };
    seal1(rt.alloc(), &volume).expect(rt, "a volume")
}

fn second<'a>(
    rt: &(impl Abort + AllocGlobal),
    (mode, key, sector_size): (Mode, &'a [u8], SectorSize),
    slots: &'a [Slot2<'a>],
    plain: &'a [u8],
) -> Vec<u8> {
    let volume = Seal2 {
        mode,
        key,
        sector_size,
        iv_tweak: 18_446_744_073_709_551_612,
        area_mode: Mode::CbcPlain64,
        area_key_size: 32,
        ..parameters2(slots, plain)
    };
    seal2(rt.alloc(), &volume).expect(rt, "a volume")
}

// Either passphrase gives the plaintext.
fn check_written(rt: &(impl Abort + AllocGlobal), image: &[u8], plain: &[u8]) {
    for passphrase in [ONE, OTHER] {
        let inputs: Inputs<'_> = [&[], image, passphrase];
        check(rt, CAT, inputs, (plain, DONE), (0, 0, 0));
    }
}

// LUKS2 volumes with these key slots and sectors of each length give the plaintext.
fn check_sectors<'a>(
    rt: &(impl Abort + AllocGlobal),
    (mode, key): (Mode, &'a [u8]),
    slots: &'a [Slot2<'a>],
    plain: &'a [u8],
) {
    for sector_size in &SECTOR_SIZES {
        let image = second(rt, (mode, key, *sector_size), slots, plain);
        check_written(rt, &image, plain);
    }
}

// A volume in this mode gives the plaintext; LUKS2 is tried with sectors of each length.
fn check_mode(
    rt: &(impl Abort + AllocGlobal),
    (mode, key_len, slots1, slots2): InMode,
    plain: &[u8],
) {
    let cipher = (mode, at(KEY, 0, key_len));
    check_written(rt, &first(rt, cipher, slots1, plain), plain);
    check_sectors(rt, cipher, slots2, plain)
}

#[test]
fn volumes_of_both_formats_are_written_out(rt: HostRuntime) {
    let plain = plain_of(&rt, 8192);
    for row in &MODES {
        check_mode(&rt, *row, &plain);
    }
}
