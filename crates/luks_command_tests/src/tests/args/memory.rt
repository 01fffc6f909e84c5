//! The results of `plan` if memory runs out.

use super::{args_of, assert_of};
use luks_args::planning::{PlanFault, plan};
use luks_request::command::Command;
use luks_test_support::scarce::Scarcity;
use std::alloc::Global;
use std::process::Abort;

// The number of pieces in which memory becomes free again.
const PIECES: usize = 1000;

const PIECE_SIZE: usize = 136;

// Plans again with each further piece of memory, until memory suffices. Returns how often it ran
// out before, or `None` if a result is neither that nor the specified one.
fn failed_plans<'a>(
    alloc: Global,
    args: &'a [&'a str],
    expected: &Result<Command<'a>, PlanFault>,
    scarcity: &mut Scarcity,
) -> Option<usize> {
    for failures in 0..PIECES {
        let planned = plan(alloc, args);
        if planned == *expected {
            return Some(failures);
        }
        if planned != Err(PlanFault::Memory) {
            return None;
        }
        scarcity.relent();
    }
    None
}

fn scarce_plans<'a>(
    rt: &(impl Abort + AllocGlobal),
    args: &'a [&'a str],
    expected: &Result<Command<'a>, PlanFault>,
) -> Option<usize> {
    let mut scarcity = Scarcity::new(rt.alloc(), PIECES, PIECE_SIZE).expect(rt, "memory");
    failed_plans(rt.alloc(), args, expected, &mut scarcity)
}

fn check_scarce(rt: &(impl Abort + AllocGlobal), line: &str, args: &[&str]) {
    let expected = plan(rt.alloc(), args);
    assert_of(rt, line, expected.is_ok());
    let failures = scarce_plans(rt, args, &expected);
    assert_of(rt, line, 20 < failures.unwrap_or(0));
}

static LINES: [&str; 14] = [
    "isLuks i",
    "luksUUID i",
    "luksDump i",
    "luksCheck i",
    "isLuks --header h i",
    "luksUUID --header h i",
    "luksDump --header h i",
    "luksCheck --header=h i",
    "testPassphrase --key-file f i",
    "testPassphrase --key-file f --header h i",
    "luksCat --key-file f --key-slot 1 --max-iterations 1000 i",
    "luksCat --key-file f --key-slot 1 --max-iterations 1000 --header h i",
    "afSplit --hash sha256 --stripes 2 --random r k",
    "afMerge --hash sha256 --stripes 1 --key-bytes 32 s",
];

#[test]
fn out_of_memory_is_reported_by_plan(rt: HostRuntime) {
    for line in &LINES {
        check_scarce(&rt, line, &args_of(&rt, line));
    }
}
