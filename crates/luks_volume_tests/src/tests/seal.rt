//! What no clause says: whole images compared with those of another program, and that the ranges
//! are the specified ones.

mod generated1;
mod images;
mod memory;
mod ranges1;
mod ranges2;

use luks_cipher::Mode;
use luks_volume::parameters::SealFault;
use std::process::Abort;

/// Lengths of keys in bytes, and whether the mode has such keys.
static KEY_LENGTHS: [(Mode, usize, bool); 16] = [
    (Mode::XtsPlain64, 0, false),
    (Mode::XtsPlain64, 16, false),
    (Mode::XtsPlain64, 31, false),
    (Mode::XtsPlain64, 32, true),
    (Mode::XtsPlain64, 33, false),
    (Mode::XtsPlain64, 48, false),
    (Mode::XtsPlain64, 63, false),
    (Mode::XtsPlain64, 64, true),
    (Mode::XtsPlain64, 65, false),
    (Mode::XtsPlain, 64, true),
    (Mode::XtsPlain, 16, false),
    (Mode::CbcEssivSha256, 15, false),
    (Mode::CbcEssivSha256, 16, true),
    (Mode::CbcEssivSha256, 24, false),
    (Mode::CbcPlain64, 32, true),
    (Mode::CbcPlain64, 64, false),
];

// Checks that the volume of this row is sealed if its parameters fit, and that they are refused if
// not.
fn check_fits(rt: &impl Abort, row: usize, fault: Option<SealFault>, fits: bool) {
    let expected = if fits {
        None
    } else {
        Some(SealFault::Parameters)
    };
    assert!(rt; fault == expected, "row {row}: {fault:?}");
}
