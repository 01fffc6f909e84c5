//! Lines that are not a luksrd command.

use super::{args_of, assert_of};
use crate::tests::shared::joined;
use luks_args::planning::{PlanFault, plan};
use std::process::Abort;

// The arguments are not a luksrd command.
fn check_refused(rt: &(impl Abort + AllocGlobal), line: &str, args: &[&str]) {
    assert_of(rt, line, plan(rt.alloc(), args) == Err(PlanFault::Usage));
}

// Lines that are not a luksrd command.
static FAULTS: [&str; 133] = [
    // no command, or an unknown one
    "",
    "-",
    "--",
    "afmerge --hash sha256 --stripes 1 --key-bytes 32 s",
    "afMerg --hash sha256 --stripes 1 --key-bytes 32 s",
    "afMerges --hash sha256 --stripes 1 --key-bytes 32 s",
    "--hash sha256 afMerge --stripes 1 --key-bytes 32 s",
    "-- afMerge --hash sha256 --stripes 1 --key-bytes 32 s",
    "luksd i",
    "isluks i",
    "luksUuid i",
    "luksDum i",
    "lukscat --key-file f i",
    // help and version are neither commands nor options
    "-h",
    "-V",
    "--help",
    "--version",
    "help",
    "help afMerge",
    "afMerge -h",
    "afMerge --help",
    "afMerge --version",
    "afMerge --hash sha256 --stripes 1 --key-bytes 32 s --help",
    // an option or the input is missing
    "luksCat",
    "luksCat i",
    "luksCat --key-file f",
    "testPassphrase i",
    "testPassphrase --key-file f",
    "testPassphrase --key-slot 1 --max-iterations 1 i",
    "isLuks",
    "luksUUID",
    "luksDump",
    "luksCheck",
    "afMerge",
    "afMerge --stripes 1 --key-bytes 32 s",
    "afMerge --hash sha256 --key-bytes 32 s",
    "afMerge --hash sha256 --stripes 1 s",
    "afMerge --hash sha256 --stripes 1 --key-bytes 32",
    "afSplit --stripes 2 --random r k",
    "afSplit --hash sha256 --random r k",
    "afSplit --hash sha256 --stripes 2 k",
    "afSplit --hash sha256 --stripes 2 --random r",
    // an option without its argument
    "isLuks --header",
    "isLuks --header i",
    "isLuks i --header",
    "luksUUID --header -- i",
    "luksDump --header --header i",
    "luksCheck --header -x i",
    "testPassphrase --header --key-file f i",
    "luksCat --key-file f i --header",
    "luksCat --key-file f i --key-slot",
    "luksCat --key-file f --max-iterations --key-slot 1 i",
    "afSplit --hash sha256 --stripes 2 k --random",
    "afSplit --hash --stripes 2 --random r k",
    // an option or the input is given twice
    "isLuks --header h --header h i",
    "luksUUID --header h --header=g i",
    "luksDump --header=h i --header h",
    "luksCheck --header h i i",
    "testPassphrase --key-file f --header h --header h i",
    "luksCat --header=h --key-file f --header=h i",
    "afMerge --hash sha256 --hash sha256 --stripes 1 --key-bytes 32 s",
    "afMerge --hash sha256 --stripes 1 --stripes 1 --key-bytes 32 s",
    "afMerge --hash sha256 --stripes 1 --key-bytes 32 --key-bytes=32 s",
    "afMerge --hash sha256 --stripes 1 --key-bytes 32 s s",
    "afSplit --hash sha256 --hash=sha256 --stripes 2 --random r k",
    "afSplit --hash sha256 --stripes 2 --stripes 2 --random r k",
    "afSplit --hash sha256 --stripes 2 --random r --random r k",
    "afSplit --hash sha256 --stripes 2 --random r k k",
    "isLuks i i",
    "luksCat --key-file f --key-file f i",
    "luksCat --key-file f --key-slot 1 --key-slot 1 i",
    "luksCat --key-file f --max-iterations 9 --max-iterations=9 i",
    "testPassphrase --key-file f --key-slot 1 --key-slot=2 i",
    "testPassphrase --key-file f i i",
    // options of other commands, short options and prefixes
    "isLuks --header h --key-file f i",
    "luksUUID --head h i",
    "luksDump --headers h i",
    "luksCheck -h h i",
    "luksCat --key-file f --heade=h i",
    "afSplit --hash sha256 --stripes 2 --random r --header h k",
    "afSplit --header=h --hash sha256 --stripes 2 --random r k",
    "afMerge --hash sha256 --stripes 1 --key-bytes 32 --header h s",
    "afMerge --hash sha256 --stripes 1 --key-bytes 32 s --header=h",
    "luksDump --key-slot 1 i",
    "luksCat --key-file f --hash sha256 i",
    "luksCat --key f i",
    "luksCat -d f i",
    "luksDump --hash sha256 i",
    "luksCheck --max-iterations 1 i",
    "afSplit --hash sha256 --stripes 2 --random r --key-bytes 32 k",
    "afMerge --hash sha256 --stripes 1 --key-bytes 32 --random r s",
    "afMerge --hash sha256 --stripe 1 --key-bytes 32 s",
    "afMerge -h sha256 --stripes 1 --key-bytes 32 s",
    // unknown hash functions
    "afMerge --hash sha --stripes 1 --key-bytes 32 s",
    "afMerge --hash sha-256 --stripes 1 --key-bytes 32 s",
    "afMerge --hash ripemd160 --stripes 1 --key-bytes 32 s",
    "afMerge --hash= --stripes 1 --key-bytes 32 s",
    "afMerge --hash sha256 --stripes 1 --key-bytes 32 -s",
    // standard input for two inputs, or for three
    "isLuks --header - -",
    "isLuks --header=- -",
    "luksUUID - --header -",
    "luksDump --header - -- -",
    "luksCheck --header=- -",
    "testPassphrase --key-file f --header - -",
    "testPassphrase --key-file - --header - i",
    "testPassphrase --key-file - --header h -",
    "testPassphrase --key-file - --header - -",
    "luksCat --header=- --key-file f -- -",
    "luksCat --header=- --key-file=- i",
    "luksCat --header=h --key-file=- -",
    "luksCat - --header - --key-file -",
    "luksCat --key-file - -",
    "luksCat --key-file=- -",
    "testPassphrase --key-file - -- -",
    "testPassphrase - --key-slot 1 --key-file -",
    "afSplit --hash sha256 --stripes 2 --random - -",
    "afSplit --hash sha256 --stripes 2 --random=- -",
    "afSplit --hash sha256 --stripes 2 --random - -- -",
    "afSplit - --hash sha256 --stripes 2 --random=-",
    "afSplit --hash sha256 --stripes 2 --random - - x",
    // numbers out of range
    "afMerge --hash sha1 --stripes 1 --key-bytes 513 s",
    "luksCat --key-file f --key-slot 32 i",
    "luksCat --key-file f --key-slot= i",
    "luksCat --key-file f --key-slot +1 i",
    "luksCat --key-file f --key-slot=-1 i",
    "luksCat --key-file f --key-slot 0x10 i",
    "luksCat --key-file f --key-slot 00000000001 i",
    "testPassphrase --key-file f --max-iterations 0 i",
    "testPassphrase --key-file f --max-iterations= i",
    "testPassphrase --key-file f --max-iterations +1 i",
    "testPassphrase --key-file f --max-iterations 4294967296 i",
    "testPassphrase --key-file f --max-iterations 9999999999 i",
    "testPassphrase --key-file f --max-iterations 00000000001 i",
];

#[test]
fn refuses_other_lines(rt: HostRuntime) {
    check_refused(&rt, "no words", &[]);
    for line in &FAULTS {
        check_refused(&rt, line, &args_of(&rt, line));
    }
}

// Texts that are neither a number of stripes nor a number of key bytes.
static NO_NUMBERS: [&str; 18] = [
    "",
    "0",
    "4001",
    "9999999999",
    "00000000001",
    "+1",
    "-1",
    "-0",
    "1.0",
    "1e1",
    "0x10",
    "1,000",
    "1_0",
    "one",
    "1k",
    "１",
    "18446744073709551617",
    "4294967297",
];

// The text before a number, and the text after it.
static AROUND: [(&str, &str); 3] = [
    ("afSplit --hash sha1 --stripes=", " --random r k"),
    ("afMerge --hash sha1 --stripes=", " --key-bytes 1 s"),
    ("afMerge --hash sha1 --stripes 1 --key-bytes=", " s"),
];

fn check_number(rt: &(impl Abort + AllocGlobal), number: &str) {
    for (before, after) in &AROUND {
        let line = joined(rt, &[before, number, after]);
        check_refused(rt, line.as_str(), &args_of(rt, line.as_str()));
    }
}

#[test]
fn refuses_other_numbers(rt: HostRuntime) {
    for number in &NO_NUMBERS {
        check_number(&rt, number);
    }
}
