//! Headers of generated numbers: the verdicts on their slots.

use super::fixture::{parse, verdicts, volume_header};
use super::validation::{
    DIGEST_ITERATIONS, ITERATIONS, KEY_BYTES, PAYLOAD_OFFSET, SLOT_OFFSET, STATE, STRIPES,
    has_digest, is_there,
};
use crate::tests::shared::assert_in;
use luks_header::header::Header;
use luks_header::header_slots::Verdict;
use luks_test_support::bytes::{put, put_numbers};
use luks_test_support::numbers::next;
use std::process::Abort;

// One of four numbers that are usual for a field, or any number.
fn choose(state: &mut u64, usual: [u32; 4]) -> u32 {
    match next(state) % 5 {
        0 => usual[0],
        1 => usual[1],
        2 => usual[2],
        3 => usual[3],
        _ => next(state),
    }
}

fn generated_header(state: &mut u64) -> [u8; 592] {
    let mut bytes = volume_header();
    let numbers = [
        (KEY_BYTES, choose(state, [32, 64, 0, 1])),
        (PAYLOAD_OFFSET, choose(state, [4096, 65536, 2, 0])),
        (DIGEST_ITERATIONS, choose(state, [1000, 1, 0, 2000])),
    ];
    put_numbers(&mut bytes, &numbers);
    for slot in 0..8 {
        let numbers = [
            (STATE, choose(state, [0x00ac_71f3, 0x00ac_71f3, 0xdead, 1])),
            (ITERATIONS, choose(state, [1000, 1, 0, 1001])),
            (SLOT_OFFSET, choose(state, [8, 2, 1, 65036])),
            (STRIPES, choose(state, [4000, 1, 0, 4001])),
        ];
        for (offset, number) in numbers {
            put(&mut bytes, offset + 48 * slot, &number.to_be_bytes());
        }
    }
    bytes
}

// How many of these slots are usable. Each of them has its digest and its contents.
fn usable_slots(
    rt: &(impl Abort + AllocGlobal),
    header: &Header,
    verdicts: &[(u8, Verdict)],
    run: u32,
) -> u32 {
    let mut usable = 0u32;
    for (number, verdict) in verdicts {
        if matches!(verdict, Verdict::Usable(_)) {
            usable = usable.saturating_add(1);
            let has_both = has_digest(rt, header, *number) & is_there(rt, header, *number);
            assert_in(rt, run as usize, has_both);
        }
    }
    usable
}

// How many slots of a generated header are usable.
fn usable_of(rt: &(impl Abort + AllocGlobal), bytes: &[u8; 592], run: u32) -> u32 {
    let header = parse(rt, bytes);
    let limit = if run % 2 == 0 { None } else { Some(1000) };
    let verdicts = verdicts(rt, header, limit);
    assert_in(rt, run as usize, verdicts.len() == 8);
    usable_slots(rt, header, verdicts, run)
}

// With ample memory no call reports that it is out of memory: an error ends the test.
#[test]
fn slots_and_digests_of_any_header_are_reported(rt: HostRuntime) {
    let mut state = 1;
    let mut usable = 0u32;
    for run in 0..2000u32 {
        usable = usable.saturating_add(usable_of(&rt, &generated_header(&mut state), run));
    }
    // Some slots are usable, and some are not.
    assert_in(&rt, usable as usize, (usable > 100) & (usable < 15_900));
}
