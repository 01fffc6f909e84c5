//! What no clause says: that the definitions read arguments as intended, and that calls succeed.

use crate::tests::shared::joined;
use luks_args::planning::{PlanFault, plan};
use luks_kdf::Hash;
use luks_report::usage::usage;
use luks_request::command::{Command, HeaderArgs, MergeArgs, SlotChoice, SplitArgs, VolumeArgs};
use luks_request::number::{KeyBytes, StripeCount, iteration_limit, slot_number};
use std::process::Abort;

mod memory;
mod refusals;

// Asserts what holds of a line.
fn assert_of(rt: &impl Abort, line: &str, holds: bool) {
    assert!(rt; holds, "{line}");
}

// The arguments of a line, separated by single spaces.
fn args_of<'a>(rt: &(impl Abort + AllocGlobal), line: &'a str) -> Vec<&'a str> {
    line.split(' ').collect(rt.alloc()).expect(rt, "memory")
}

// This replaces the name of an input that the command does not have.
const NONE: &str = "none at all";

// The line is this command, which names these inputs: the image, the key file or the random bytes,
// and the detached header.
fn check_line(
    rt: &(impl Abort + AllocGlobal),
    line: &str,
    command: Command<'_>,
    [image, secret, header]: [&str; 3],
) {
    assert_of(
        rt,
        line,
        plan(rt.alloc(), &args_of(rt, line)) == Ok(command),
    );
    assert_of(rt, line, command.image() == image);
    assert_of(rt, line, command.secret().unwrap_or(NONE) == secret);
    assert_of(rt, line, command.header().unwrap_or(NONE) == header);
    assert_of(rt, line, command.is_detached() == (header != NONE));
}

// The arguments of a command, its image, and its detached header, if any.
static READINGS: [(&str, &str, Option<&str>); 16] = [
    ("i", "i", None),
    ("-", "-", None),
    ("-- -", "-", None),
    ("-- -h", "-h", None),
    ("-- --header", "--header", None),
    ("--header h i", "i", Some("h")),
    ("--header=h i", "i", Some("h")),
    ("i --header h", "i", Some("h")),
    ("--header - i", "i", Some("-")),
    ("--header=- i", "i", Some("-")),
    ("--header h -", "-", Some("h")),
    ("--header h -- -", "-", Some("h")),
    ("--header h -- --header", "--header", Some("h")),
    ("--header i i", "i", Some("i")),
    ("--header= i", "i", Some("")),
    ("--header=a=b i", "i", Some("a=b")),
];

// Each command on headers reads these arguments like this.
fn check_reading(rt: &(impl Abort + AllocGlobal), args: &str, reading: HeaderArgs<'_>) {
    let commands = [
        ("isLuks ", Command::IsLuks(reading)),
        ("luksUUID ", Command::LuksUuid(reading)),
        ("luksDump ", Command::LuksDump(reading)),
        ("luksCheck ", Command::LuksCheck(reading)),
    ];
    let inputs = [reading.image, NONE, reading.header.unwrap_or(NONE)];
    for (name, command) in &commands {
        check_line(rt, joined(rt, &[name, args]).as_str(), *command, inputs);
    }
}

#[test]
fn reads_headers(rt: HostRuntime) {
    for (args, image, header) in &READINGS {
        let reading = HeaderArgs {
            image,
            header: *header,
        };
        check_reading(&rt, args, reading);
    }
}

// The arguments of a command, its image, its key file, and its detached header, if any.
static OPENINGS: [(&str, &str, &str, Option<&str>); 11] = [
    ("--key-file f i", "i", "f", None),
    ("i --key-file=f", "i", "f", None),
    ("--key-file f --header h i", "i", "f", Some("h")),
    ("--header=h --key-file=f i", "i", "f", Some("h")),
    ("i --header h --key-file f", "i", "f", Some("h")),
    ("--key-file - --header h i", "i", "-", Some("h")),
    ("--key-file f --header - i", "i", "f", Some("-")),
    ("--key-file f --header=- i", "i", "f", Some("-")),
    ("--key-file f --header h -", "-", "f", Some("h")),
    ("--key-file f --header h -- -", "-", "f", Some("h")),
    ("--key-file i --header i i", "i", "i", Some("i")),
];

// Both commands that open a volume read these arguments like this.
fn check_opening(rt: &(impl Abort + AllocGlobal), args: &str, opening: VolumeArgs<'_>) {
    let commands = [
        ("testPassphrase ", Command::TestPassphrase(opening)),
        ("luksCat ", Command::LuksCat(opening)),
    ];
    let header = opening.header.unwrap_or(NONE);
    let inputs = [opening.image, opening.key_file, header];
    for (name, command) in &commands {
        check_line(rt, joined(rt, &[name, args]).as_str(), *command, inputs);
    }
}

#[test]
fn opens_volumes(rt: HostRuntime) {
    for (args, image, key_file, header) in &OPENINGS {
        let opening = VolumeArgs {
            image,
            header: *header,
            key_file,
            slots: SlotChoice {
                named: None,
                max_iterations: None,
            },
        };
        check_opening(&rt, args, opening);
    }
}

// The arguments of a command, its detached header, its slot and its limit, if any.
static LIMITED: [(&str, Option<&str>, Option<u8>, Option<u32>); 7] = [
    ("--key-file f --key-slot 0 i", None, Some(0), None),
    ("--key-file f --key-slot 31 i", None, Some(31), None),
    ("--key-file f --max-iterations 1 i", None, None, Some(1)),
    (
        "--key-slot=007 --max-iterations=4294967295 --key-file=f i",
        None,
        Some(7),
        Some(4_294_967_295),
    ),
    (
        "--max-iterations 0000000009 --key-file f --key-slot 8 -- i",
        None,
        Some(8),
        Some(9),
    ),
    (
        "--key-file f --key-slot 3 --max-iterations 5 --header h i",
        Some("h"),
        Some(3),
        Some(5),
    ),
    (
        "--header h --max-iterations=5 --key-slot=3 --key-file=f i",
        Some("h"),
        Some(3),
        Some(5),
    ),
];

#[test]
fn opens_volumes_with_limits(rt: HostRuntime) {
    for (args, header, slot, limit) in &LIMITED {
        let opening = VolumeArgs {
            image: "i",
            header: *header,
            key_file: "f",
            slots: SlotChoice {
                named: *slot,
                max_iterations: *limit,
            },
        };
        check_opening(&rt, args, opening);
    }
}

fn splitting<'a>(
    rt: &impl Abort,
    hash: Hash,
    stripes: u64,
    random: &'a str,
    key: &'a str,
) -> Command<'a> {
    Command::AfSplit(SplitArgs {
        hash,
        stripes: StripeCount::new(stripes).expect(rt, "a number of stripes"),
        random,
        key,
    })
}

fn merging<'a>(rt: &impl Abort, hash: Hash, stripes: u64, key_bytes: u64) -> Command<'a> {
    Command::AfMerge(MergeArgs {
        hash,
        stripes: StripeCount::new(stripes).expect(rt, "a number of stripes"),
        key_bytes: KeyBytes::new(key_bytes).expect(rt, "a length"),
        stripes_file: "s",
    })
}

static SPLITS: [&str; 4] = [
    "afSplit --hash sha256 --stripes 2 --random r k",
    "afSplit k --random r --stripes 0000000002 --hash SHA256",
    "afSplit --hash=Sha256 --stripes=2 k --random=r",
    "afSplit --hash sha256 --stripes 2 --random r -- k",
];

// Unusual names of inputs, and standard input.
static INPUTS: [(&str, &str, &str); 9] = [
    ("--random - k", "-", "k"),
    ("--random=- k", "-", "k"),
    ("--random r -", "r", "-"),
    ("--random r -- -", "r", "-"),
    ("--random r -- --help", "r", "--help"),
    ("--random= k", "", "k"),
    ("--random=a=b k", "a=b", "k"),
    ("--random r ", "r", ""),
    ("--random afMerge é", "afMerge", "é"),
];

// Each of these lines is this command.
fn check_lines(
    rt: &(impl Abort + AllocGlobal),
    lines: &[&str],
    command: Command<'_>,
    inputs: [&str; 3],
) {
    for line in lines {
        check_line(rt, line, command, inputs);
    }
}

#[test]
fn splits_keys(rt: HostRuntime) {
    let command = splitting(&rt, Hash::Sha256, 2, "r", "k");
    check_lines(&rt, &SPLITS, command, ["k", "r", NONE]);
    for (inputs, random, key) in &INPUTS {
        let line = joined(&rt, &["afSplit --hash sha1 --stripes 1 ", inputs]);
        let command = splitting(&rt, Hash::Sha1, 1, random, key);
        check_line(&rt, line.as_str(), command, [key, random, NONE]);
    }
}

static MERGES: [&str; 2] = [
    "afMerge --hash sha512 --stripes 4000 --key-bytes 64 s",
    "afMerge s --key-bytes=64 --stripes 4000 --hash=sha512",
];

static NAMES: [(&str, Hash); 5] = [
    ("sha1", Hash::Sha1),
    ("SHA224", Hash::Sha224),
    ("Sha256", Hash::Sha256),
    ("sHA384", Hash::Sha384),
    ("shA512", Hash::Sha512),
];

#[test]
fn merges_stripes(rt: HostRuntime) {
    let command = merging(&rt, Hash::Sha512, 4000, 64);
    check_lines(&rt, &MERGES, command, ["s", NONE, NONE]);
    for (name, hash) in &NAMES {
        let line = joined(
            &rt,
            &["afMerge --hash ", name, " --stripes 1 --key-bytes 1 s"],
        );
        let command = merging(&rt, *hash, 1, 1);
        check_line(&rt, line.as_str(), command, ["s", NONE, NONE]);
    }
}

#[test]
fn accepts_arguments_that_are_strings(rt: HostRuntime) {
    let mut args = Vec::new(rt.alloc());
    for word in "afMerge --hash sha1 --stripes 1 --key-bytes 20 s".split(' ') {
        args.push(joined(&rt, &[word])).expect(&rt, "memory");
    }
    let planned = plan(rt.alloc(), &args);
    assert_of(
        &rt,
        "strings",
        planned == Ok(merging(&rt, Hash::Sha1, 1, 20)),
    );
}

// A number and its text, and whether it is a valid number of stripes, of bytes of a key, of a slot,
// and of iterations.
static NUMBERS: [(u64, &str, [bool; 4]); 12] = [
    (0, "0", [false, false, true, false]),
    (1, "1", [true, true, true, true]),
    (31, "31", [true, true, true, true]),
    (32, "32", [true, true, false, true]),
    (256, "256", [true, true, false, true]),
    (512, "512", [true, true, false, true]),
    (513, "513", [true, false, false, true]),
    (4000, "4000", [true, false, false, true]),
    (4001, "4001", [false, false, false, true]),
    (4_294_967_295, "4294967295", [false, false, false, true]),
    (4_294_967_296, "4294967296", [false, false, false, false]),
    (
        u64::MAX,
        "18446744073709551615",
        [false, false, false, false],
    ),
];

fn check_number(rt: &impl Abort, number: u64, text: &str, fits: [bool; 4]) {
    let numbers = [
        StripeCount::new(number).map(|stripes| stripes.get() as u64),
        KeyBytes::new(number).map(|bytes| bytes.get() as u64),
        slot_number(text).map(|slot| slot as u64),
        iteration_limit(text).map(|limit| limit as u64),
    ];
    let holds = numbers == fits.map(|fits| fits.then_some(number));
    assert!(rt; holds, "{number}");
}

#[test]
fn numbers_have_ranges(rt: HostRuntime) {
    for (number, text, fits) in &NUMBERS {
        check_number(&rt, *number, text, *fits);
    }
}

static USAGE: [&str; 5] = [
    "usage: luksrd isLuks [--header FILE] IMAGE",
    "       luksrd luksUUID [--header FILE] IMAGE",
    "       luksrd luksDump [--header FILE] IMAGE",
    "       luksrd luksCheck [--header FILE] IMAGE",
    "       luksrd testPassphrase --key-file FILE [--key-slot N] [--max-iterations N] \
     [--header FILE] IMAGE",
];

#[test]
fn usage_has_a_line_a_command(rt: HostRuntime) {
    let mut lines = usage().lines();
    for line in &USAGE {
        assert_of(&rt, line, lines.next() == Some(*line));
    }
    assert_of(
        &rt,
        usage(),
        usage().lines().count() == 8 && usage().len() <= 1000,
    );
    assert_of(&rt, usage(), usage().ends_with(" --key-bytes N STRIPES\n"));
}
