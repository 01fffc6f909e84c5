//! Writes a sealed volume to standard output: `seal FORMAT MODE SECTOR`, where FORMAT is `luks1` or
//! `luks2`, MODE the name of a mode and SECTOR the length of a sector in bytes (LUKS1 has only
//! 512). The volume holds 32,768 plain bytes that count modulo 251, and has two key slots, 0 with
//! the passphrase `one` and 1 with the passphrase `two`. With no further arguments it does nothing.
//! `tests/test_sealed.py` shows its volumes to other programs.

use crate::mode_key::key_of;
use crate::usage::print_usage;
use luks_cipher::Mode;
use luks_format::sector_size::SectorSize;
use luks_kdf::Hash;
use luks_volume::luks1::seal1;
use luks_volume::luks2::seal2;
use luks_volume::parameters::{Seal1, Seal2, SealFault, Slot1, Slot2};
use std::alloc::{AllocError, Global};
use std::env::Args;
use std::io::{self, Write};

const ARGUMENTS: &str = "seal luks1|luks2 MODE SECTOR";

const UUID: &[u8] = b"0a1b2c3d-4e5f-4a6b-8c7d-9e0f1a2b3c4d";

/// The volume key; a mode uses as many bytes as it needs.
const KEY: [u8; 64] = *b"a volume key of AES-256 has two halves, thirty-two bytes in each";

/// As many stripes as cryptsetup's own volumes have; cryptsetup opens no LUKS2 volumes with others.
const STRIPES: u32 = 4000;

const ITERATIONS: u32 = 1000;

// This many bytes that count from `first` on, modulo 251.
fn counting(alloc: Global, first: usize, len: usize) -> Result<Vec<u8>, AllocError> {
    let mut bytes = Vec::with_capacity(alloc, len)?;
    for i in 0..len {
        bytes.push((first.wrapping_add(i) % 251) as u8)?;
    }
    Ok(bytes)
}

fn sector_size_of(text: &str) -> Option<SectorSize> {
    match text {
        "512" => Some(SectorSize::B512),
        "1024" => Some(SectorSize::B1024),
        "2048" => Some(SectorSize::B2048),
        "4096" => Some(SectorSize::B4096),
        _ => None,
    }
}

fn slot1<'a>(number: u32, passphrase: &'a [u8], random: &'a [u8]) -> Slot1<'a> {
    Slot1 {
        number,
        iterations: ITERATIONS,
        salt: [0x51; 32],
        passphrase,
        random,
    }
}

fn first(alloc: Global, mode: Mode, plain: &[u8]) -> Result<Vec<u8>, SealFault> {
    let key = key_of(mode, &KEY);
    let random = counting(alloc, 7, 3999 * key.len().min(64))?;
    let slots = [slot1(0, b"one", &random), slot1(1, b"two", &random)];
    seal1(
        alloc,
        &Seal1 {
            hash: Hash::Sha256,
            mode,
            key,
            stripes: STRIPES,
            payload_sectors: 4096,
            uuid: UUID,
            digest_salt: [0xd1; 32],
            digest_iterations: ITERATIONS,
            slots: &slots,
            plain,
        },
    )
}

fn slot2<'a>(number: u32, passphrase: &'a [u8], random: &'a [u8]) -> Slot2<'a> {
    Slot2 {
        number,
        priority: 1,
        hash: Hash::Sha512,
        iterations: ITERATIONS,
        salt: [0x51; 32],
        af_hash: Hash::Sha256,
        stripes: STRIPES,
        passphrase,
        random,
    }
}

fn second(
    alloc: Global,
    mode: Mode,
    sector_size: SectorSize,
    plain: &[u8],
) -> Result<Vec<u8>, SealFault> {
    let key = key_of(mode, &KEY);
    let random = counting(alloc, 7, 3999 * key.len().min(64))?;
    let slots = [slot2(0, b"one", &random), slot2(1, b"two", &random)];
    seal2(
        alloc,
        &Seal2 {
            hdr_size: 16_384,
            seqid: 3,
            uuid: UUID,
            label: b"",
            subsystem: b"",
            primary_salt: [1; 64],
            secondary_salt: [2; 64],
            mode,
            key,
            sector_size,
            iv_tweak: 0,
            offset: 1_048_576,
            fixed: false,
            area_mode: Mode::XtsPlain64,
            area_key_size: 64,
            digest_hash: Hash::Sha256,
            digest_salt: [0xd1; 32],
            digest_iterations: ITERATIONS,
            slots: &slots,
            plain,
        },
    )
}

// The volume that the arguments request, if they name one.
fn volume(alloc: Global, format: &str, mode: &str, sector: &str) -> Result<Vec<u8>, SealFault> {
    let mode = Mode::from_name(mode).ok_or(SealFault::Parameters)?;
    let sector_size = sector_size_of(sector).ok_or(SealFault::Parameters)?;
    let plain = counting(alloc, 0, 32_768)?;
    match (format, sector_size) {
        ("luks1", SectorSize::B512) => first(alloc, mode, &plain),
        ("luks2", _) => second(alloc, mode, sector_size, &plain),
        _ => Err(SealFault::Parameters),
    }
}

/// Writes the volume that these arguments request.
pub fn run(rt: &HostRuntime, mut args: Args) -> io::Result<()> {
    let Some(format) = args.next() else {
        return Ok(());
    };
    let mode = args.next();
    let sector = args.next();
    match (mode, sector) {
        (Some(mode), Some(sector)) => match volume(rt.alloc(), &format, &mode, &sector) {
            Ok(image) => rt.stdout().write_all(&image),
            Err(_) => print_usage(rt, ARGUMENTS),
        },
        _ => print_usage(rt, ARGUMENTS),
    }
}
