//! Volumes sealed from generated parameters that are all in their ranges: if memory is ample, none
//! is refused.

use luks_cipher::Mode;
use luks_kdf::Hash;
use luks_test_support::numbers::next;
use luks_test_support::parameters::slot1 as slot;
use luks_volume::luks1::seal1;
use luks_volume::parameters::{Seal1, Slot1};
use std::process::Abort;

/// How many volumes are generated.
const GENERATED: u32 = 200;

const HASHES: [Hash; 5] = [
    Hash::Sha1,
    Hash::Sha224,
    Hash::Sha256,
    Hash::Sha384,
    Hash::Sha512,
];

const MODES: [Mode; 4] = [
    Mode::XtsPlain64,
    Mode::XtsPlain,
    Mode::CbcEssivSha256,
    Mode::CbcPlain64,
];

/// The bytes that keys and texts are cut from.
const BYTES: &[u8] = &[0x6b; 1024];

// A key slot with the random stripe that 32 bytes of key and two stripes need.
fn generated_slot(state: &mut u64, number: u32) -> Slot1<'static> {
    let [byte, _, _, _] = next(state).to_be_bytes();
    Slot1 {
        number,
        iterations: 1 + next(state) % 3,
        random: &BYTES[..32],
        ..slot(number, [byte; 32], b"a passphrase")
    }
}

// Checks that a volume of generated parameters is sealed.
fn check_generated(rt: &(impl Abort + AllocGlobal), state: &mut u64, run: u32) {
    let first = next(state) % 4;
    let second = 4 + next(state) % 4;
    let slots = [generated_slot(state, first), generated_slot(state, second)];
    let uuid = next(state) as usize % 41;
    // No plaintext, one sector or two.
    let plain = next(state) as usize % 3 * 512;
    let seal = Seal1 {
        hash: HASHES[run as usize % 5],
        mode: MODES[run as usize % 4],
        key: &BYTES[..32],
        stripes: 2,
        payload_sectors: 72 + next(state) % 100,
        uuid: &BYTES[..uuid],
        digest_salt: [0x5a; 32],
        digest_iterations: 1 + next(state) % 3,
        slots: &slots,
        plain: &BYTES[..plain],
    };
    assert!(rt; seal1(rt.alloc(), &seal).is_ok(), "{run}");
}

#[test]
fn seals_whatever_is_in_range(rt: HostRuntime) {
    let mut state = 1;
    for run in 0..GENERATED {
        check_generated(&rt, &mut state, run);
    }
}
