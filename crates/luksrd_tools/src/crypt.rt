//! Times sectors: `crypt MODE WAY BYTES COUNT` encrypts or decrypts (WAY is `encrypt` or
//! `decrypt`) COUNT sectors of BYTES bytes under the numbers from 0 and a key of AES-256 (two for
//! XTS) in the mode of this name, and writes to standard error the number of bytes, the nanoseconds
//! that they cost, and the first byte of the result. With no further arguments it does nothing.
//! `bench/measure` runs it beside others.

use crate::mode_key::key_of;
use crate::usage::print_usage;
use luks_cipher::{Mode, SectorCipher};
use std::env::Args;
use std::io;
use std::rt::Runtime;
use std::time::Instant;

const ARGUMENTS: &str = "crypt MODE WAY BYTES COUNT";

// Two different keys of AES-256.
const KEY: [u8; 64] = [
    0x27, 0x18, 0x28, 0x18, 0x28, 0x45, 0x90, 0x45, 0x23, 0x53, 0x60, 0x28, 0x74, 0x71, 0x35, 0x26,
    0x62, 0x49, 0x77, 0x57, 0x24, 0x70, 0x93, 0x69, 0x99, 0x59, 0x57, 0x49, 0x66, 0x96, 0x76, 0x27,
    0x31, 0x41, 0x59, 0x26, 0x53, 0x58, 0x97, 0x93, 0x23, 0x84, 0x62, 0x64, 0x33, 0x83, 0x27, 0x95,
    0x02, 0x88, 0x41, 0x97, 0x16, 0x93, 0x99, 0x37, 0x51, 0x05, 0x82, 0x09, 0x74, 0x94, 0x45, 0x92,
];

// Whether the sectors are encrypted or decrypted.
#[derive(Clone, Copy, PartialEq, Eq)]
enum Way {
    Encrypt,
    Decrypt,
}

fn way_of(name: &str) -> Option<Way> {
    match name {
        "encrypt" => Some(Way::Encrypt),
        "decrypt" => Some(Way::Decrypt),
        _ => None,
    }
}

fn cipher_of(mode: Mode) -> Option<SectorCipher> {
    SectorCipher::new(mode, key_of(mode, &KEY))
}

fn work(cipher: &SectorCipher, way: Way, sector: &mut [u8], count: u64) {
    let length = sector.len();
    if length % 16 == 0 && length >= 16 && length <= 4096 {
        for number in 0..count {
            match way {
                Way::Encrypt => cipher.encrypt_unit(number, sector),
                Way::Decrypt => cipher.decrypt_unit(number, sector),
            }
        }
    }
}

fn time<R: Runtime>(rt: &R, mode: Mode, way: Way, length: usize, count: u64) -> io::Result<()> {
    let Some(cipher) = cipher_of(mode) else {
        return Ok(());
    };
    let mut sector = vec![in rt.alloc(); 0u8; length]?;
    let start = Instant::now(rt)?;
    work(&cipher, way, &mut sector, count);
    let elapsed = start.elapsed(rt)?.as_nanos();
    let total = (length as u128).saturating_mul(u128::from(count));
    let left = sector.first().copied().unwrap_or(0);
    eprintln!(rt; "{total} {elapsed} {left}")
}

/// Encrypts or decrypts as these arguments request.
pub fn run(rt: &HostRuntime, mut args: Args) -> io::Result<()> {
    let Some(mode) = args.next() else {
        return Ok(());
    };
    let mode = Mode::from_name(&mode);
    let way = args.next();
    let length = args.next();
    let count = args.next();
    match (mode, way, length, count) {
        (Some(mode), Some(way), Some(length), Some(count)) => {
            match (way_of(&way), length.parse(), count.parse()) {
                (Some(way), Ok(length), Ok(count)) => time(rt, mode, way, length, count),
                _ => print_usage(rt, ARGUMENTS),
            }
        }
        _ => print_usage(rt, ARGUMENTS),
    }
}
