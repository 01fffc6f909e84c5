//! Which slot each passphrase opens, and how much work that takes.

use super::volumes::{LONG_KEY, Question, SHORT_KEY, Volume, answer};
use luks_header::refusal::SkipReason;
use luks_kdf::Work;
use luks_open::fault::OpenFault;
use luks_open::opening::Opened;
use luks_test_support::header1::USUAL_NUMBERS;
use std::process::Abort;

/// What is changed in a volume.
enum Change {
    Nothing,
    /// A bit of the byte at this offset.
    Flipped(usize),
    /// Numbers of its header.
    Numbers(&'static [(usize, u32)]),
}

// The numbers of a usual volume: slot 0 alone is in use. The key material is then not the split of
// a key.
const USUAL: Change = Change::Numbers(&USUAL_NUMBERS);

/// Which slot opens, with the volume's key; or none, and these are skipped.
enum Expected {
    Opens(u8),
    NoKey(&'static [(u8, SkipReason)]),
}

// The slots of the volume with the short key that are always skipped.
const SKIPPED: Expected = Expected::NoKey(&[
    (2, SkipReason::Stripes),
    (4, SkipReason::State),
    (6, SkipReason::Area),
]);

const SKIPPED_BY_LIMIT: Expected = Expected::NoKey(&[
    (2, SkipReason::Stripes),
    (3, SkipReason::Iterations),
    (4, SkipReason::State),
    (6, SkipReason::Area),
]);

const NONE: Expected = Expected::NoKey(&[]);

/// The passphrase, the named slot, and the limit of iterations.
type Requested = (&'static [u8], Option<u8>, Option<u32>);

/// A volume and a change of it, a request, the answer, and the count of work before and after it.
type Row = (&'static Volume, Change, Requested, Expected, (u128, u128));

static ROWS: [Row; 24] = [
    (
        &SHORT_KEY,
        Change::Nothing,
        (b"first", None, None),
        Expected::Opens(0),
        (0, 12),
    ),
    (
        &SHORT_KEY,
        Change::Nothing,
        (b"second", None, None),
        Expected::Opens(3),
        (0, 28),
    ),
    (
        &SHORT_KEY,
        Change::Nothing,
        (b"third", None, None),
        Expected::Opens(5),
        (0, 38),
    ),
    (
        &LONG_KEY,
        Change::Nothing,
        (b"sesame", None, None),
        Expected::Opens(0),
        (0, 19),
    ),
    (
        &SHORT_KEY,
        Change::Nothing,
        (b"", None, None),
        SKIPPED,
        (0, 38),
    ),
    (
        &SHORT_KEY,
        Change::Nothing,
        (b"first\n", None, None),
        SKIPPED,
        (0, 38),
    ),
    (
        &SHORT_KEY,
        Change::Nothing,
        (b"firs", None, None),
        SKIPPED,
        (0, 38),
    ),
    (
        &SHORT_KEY,
        Change::Nothing,
        (b"fourth", None, None),
        SKIPPED,
        (0, 38),
    ),
    (
        &LONG_KEY,
        Change::Nothing,
        (b"sesam", None, None),
        NONE,
        (0, 19),
    ),
    (
        &SHORT_KEY,
        Change::Nothing,
        (b"third", Some(5), None),
        Expected::Opens(5),
        (0, 10),
    ),
    (
        &SHORT_KEY,
        Change::Nothing,
        (b"third", Some(0), None),
        NONE,
        (0, 12),
    ),
    (
        &SHORT_KEY,
        Change::Nothing,
        (b"second", None, Some(9)),
        Expected::Opens(3),
        (0, 28),
    ),
    (
        &SHORT_KEY,
        Change::Nothing,
        (b"second", None, Some(8)),
        SKIPPED_BY_LIMIT,
        (0, 22),
    ),
    // A digest that matches only in part is another digest.
    (
        &SHORT_KEY,
        Change::Flipped(112),
        (b"first", None, None),
        SKIPPED,
        (0, 38),
    ),
    (
        &SHORT_KEY,
        Change::Flipped(128),
        (b"first", None, None),
        SKIPPED,
        (0, 38),
    ),
    (
        &SHORT_KEY,
        Change::Flipped(131),
        (b"first", None, None),
        SKIPPED,
        (0, 38),
    ),
    // Each byte of the stripes counts, and a byte after them does not.
    (
        &SHORT_KEY,
        Change::Flipped(2048),
        (b"third", None, None),
        SKIPPED,
        (0, 38),
    ),
    (
        &SHORT_KEY,
        Change::Flipped(2559),
        (b"third", None, None),
        SKIPPED,
        (0, 38),
    ),
    (
        &SHORT_KEY,
        Change::Flipped(2560),
        (b"third", None, None),
        SKIPPED,
        (0, 38),
    ),
    (
        &SHORT_KEY,
        Change::Flipped(2655),
        (b"third", None, None),
        SKIPPED,
        (0, 38),
    ),
    (
        &SHORT_KEY,
        Change::Flipped(2656),
        (b"third", None, None),
        Expected::Opens(5),
        (0, 38),
    ),
    (&SHORT_KEY, USUAL, (b"first", None, None), NONE, (0, 3000)),
    // A count of work at its maximum stays there.
    (
        &SHORT_KEY,
        Change::Nothing,
        (b"third", None, None),
        Expected::Opens(5),
        (u128::MAX - 20, u128::MAX),
    ),
    (
        &SHORT_KEY,
        Change::Nothing,
        (b"fourth", None, None),
        SKIPPED,
        (u128::MAX, u128::MAX),
    ),
];

// The image of a volume with this change.
fn changed(rt: &(impl Abort + AllocGlobal), volume: &Volume, change: &Change) -> Vec<u8> {
    let mut image = volume.image(rt);
    match change {
        Change::Nothing => {}
        Change::Flipped(offset) => {
            assert!(rt; *offset < image.len());
            image[*offset] ^= 1;
        }
        Change::Numbers(numbers) => {
            image.resize(260_096, 0).expect(rt, "memory");
            for (offset, number) in *numbers {
                assert!(rt; image.len() == 260_096 && *offset <= 588);
                image[*offset..*offset + 4].copy_from_slice(&number.to_be_bytes());
            }
        }
    }
    image
}

// Whether the answer is the specified one, with this key if a slot opens.
fn is_expected(answer: &Result<Opened, OpenFault>, expected: &Expected, key: &[u8]) -> bool {
    match expected {
        Expected::Opens(slot) => match answer {
            Ok(opened) => opened.slot == *slot && opened.key.as_slice() == key,
            Err(_) => false,
        },
        Expected::NoKey(skipped) => match answer {
            Err(OpenFault::NoKey(slots)) => slots.as_slice() == *skipped,
            _ => false,
        },
    }
}

fn check_row(
    rt: &(impl Abort + AllocGlobal),
    row: usize,
    (volume, change, requested, expected, work): &Row,
) {
    let image = changed(rt, volume, change);
    let (pass, named, limit) = *requested;
    let question = Question { pass, named, limit };
    let (before, after) = *work;
    let mut work = Work::new(before);
    let key = hex::decode(rt.alloc(), volume.key).expect(rt, "hexadecimal digits");
    let answer = answer(rt, &image, question, &mut work);
    let holds = is_expected(&answer, expected, key.as_slice());
    assert!(rt; holds && work.count() == after, "row {row}: {question:?}");
}

#[test]
fn passphrases_open_their_slots_and_no_others(rt: HostRuntime) {
    for (i, row) in ROWS.iter().enumerate() {
        check_row(&rt, i, row);
    }
}
