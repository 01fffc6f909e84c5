//! Slots whose keys Argon2 derives: their parameters, each bound from both sides, and the limits.

use super::assert_answer;
use super::fixture::{ATTACHED, metadata};
use super::slots::word;
use crate::tests::shared::assert_of;
use luks_argon2::Variant;
use luks_format::derivation::{Argon2Limits, Argon2Parameters, Derivation, Limits};
use luks2_json::tree::Metadata;
use luks2_metadata::luks2_slot::{slot, verdict_kind};
use std::process::Abort;

// These limits on the memory and on the fill of a slot, in KiB.
fn within(memory_kib: u32, fill_kib: u64) -> Limits {
    Limits {
        max_iterations: None,
        argon2: Some(Argon2Limits {
            memory_kib,
            fill_kib,
        }),
    }
}

// No parameters in range exceed these.
fn no_limits() -> Limits {
    within(u32::MAX, u64::MAX)
}

// The verdict on slot 0. If it is skipped, there is nothing to open.
fn verdict(rt: &(impl Abort + AllocGlobal), metadata: &Metadata, limits: Limits) -> &'static str {
    let word = word(verdict_kind(metadata, ATTACHED, limits, 0));
    let slot = slot(rt.alloc(), metadata, ATTACHED, limits, 0).expect(rt, "memory");
    assert_of(rt, word, slot.is_some() == word.starts_with("usable"));
    word
}

// A row is a verdict, and the changes of the text. Slot 0 has time 4, 1,048,576 KiB and 4 CPUs.
// Numbers end below 2^32, that of CPUs below 2^24, and each CPU has 8 KiB at least. A salt may be
// shorter than the eight bytes that RFC 9106 recommends.
const ROWS: &str = "\
    usable 1: 'time':4 -> 'time':1\n\
    argon2 time: 'time':4 -> 'time':0\n\
    usable 1: 'time':4 -> 'time':4294967295\n\
    argon2 time: 'time':4 -> 'time':4294967296\n\
    argon2 time: 'time':4 -> 'time':18446744073709551615\n\
    member: 'time':4 -> 'time':18446744073709551616\n\
    member: 'time':4 -> 'time':-1\n\
    member: 'time':4 -> 'time':4.0\n\
    member: 'time':4 -> 'time':'4'\n\
    member: 'time':4 -> 'time':null\n\
    member: 'time':4, -> \n\
    usable 1: 'cpus':4 -> 'cpus':1\n\
    argon2 cpus: 'cpus':4 -> 'cpus':0\n\
    usable 1: 'memory':1048576 -> 'memory':134217720; 'cpus':4 -> 'cpus':16777215\n\
    argon2 cpus: 'memory':1048576 -> 'memory':134217728; 'cpus':4 -> 'cpus':16777216\n\
    argon2 memory: 'memory':1048576 -> 'memory':134217719; 'cpus':4 -> 'cpus':16777215\n\
    member: 'cpus':4 -> 'cpus':'4'\n\
    member: 'cpus':4 -> 'cpus':[4]\n\
    member: 'cpus':4, -> \n\
    usable 1: 'memory':1048576 -> 'memory':32\n\
    argon2 memory: 'memory':1048576 -> 'memory':31\n\
    argon2 memory: 'memory':1048576 -> 'memory':0\n\
    usable 1: 'memory':1048576 -> 'memory':4294967295\n\
    argon2 memory: 'memory':1048576 -> 'memory':4294967296\n\
    member: 'memory':1048576 -> 'memory':true\n\
    member: 'memory':1048576, -> \n\
    usable 1: 'cpus':4,'salt':'AQEBAQEBAQEBAQEBAQEBAQEBAQEBAQEBAQEBAQEBAQE=' \
     -> 'cpus':4,'salt':''\n\
    usable 1: 'cpus':4,'salt':'AQEBAQEBAQEBAQEBAQEBAQEBAQEBAQEBAQEBAQEBAQE=' \
     -> 'cpus':4,'salt':'AQ=='\n\
    member: 'cpus':4,'salt':'AQEBAQEBAQEBAQEBAQEBAQEBAQEBAQEBAQEBAQEBAQE=' \
     -> 'cpus':4,'salt':'AQ'\n\
    member: 'cpus':4,'salt':'AQEBAQEBAQEBAQEBAQEBAQEBAQEBAQEBAQEBAQEBAQE=' -> 'cpus':4,'salt':7\n\
    member: 'cpus':4,'salt':'AQEBAQEBAQEBAQEBAQEBAQEBAQEBAQEBAQEBAQEBAQE=' -> 'cpus':4\n\
    usable 1: 'type':'argon2id' -> 'type':'argon2i'\n\
    kdf: 'type':'argon2id' -> 'type':'argon2d'\n\
    kdf: 'type':'argon2id' -> 'type':'argon2'\n\
    member: 'type':'argon2id', -> \n\
    usable 1: 'type':'argon2id' -> 'type':'argon2id','hash':'x','iterations':0\n\
    hash: 'stripes':4000,'hash':'sha256' -> 'stripes':4000,'hash':'x'\n\
    encryption: '258048','encryption':'aes-xts-plain64','key_size':64},'kdf':{'type':'argon2id' \
     -> '258048','encryption':'x','key_size':64},'kdf':{'type':'argon2id'\n\
    stripes: 'stripes':4000,'hash':'sha256' -> 'stripes':4001,'hash':'sha256'\n\
    area: 'offset':'290816' -> 'offset':'1'\n\
    digest: 'keyslots':['0','2'] -> 'keyslots':['2']";

#[test]
fn each_bound_of_a_slot_with_argon2(rt: HostRuntime) {
    for row in ROWS.lines() {
        let (want, changes) = row.split_once(": ").ok_or(row).expect(&rt, "a row");
        let word = verdict(&rt, metadata(&rt, changes), no_limits());
        assert_answer(&rt, row, word, want);
    }
}

// Without Argon2 the slot is skipped by its type, whatever its parameters are.
#[test]
fn without_argon2_parameters_are_not_looked_at(rt: HostRuntime) {
    for row in ROWS.lines() {
        let (_, changes) = row.split_once(": ").ok_or(row).expect(&rt, "a row");
        if changes.starts_with("'type'") {
            continue;
        }
        let word = verdict(&rt, metadata(&rt, changes), Limits::without_argon2(None));
        assert_answer(&rt, row, word, "argon2id");
    }
}

// The limits on memory and fill in KiB, and the verdict on slot 0. It fills 4 * 1,048,576 KiB.
static LIMITS: [(u32, u64, &str); 8] = [
    (1_048_576, 4_194_304, "usable 1"),
    (1_048_575, 4_194_304, "argon2 memory limit"),
    (1_048_577, 4_194_304, "usable 1"),
    (1_048_576, 4_194_303, "argon2 fill limit"),
    (1_048_576, 4_194_305, "usable 1"),
    (1_048_575, 4_194_303, "argon2 memory limit"),
    (0, 0, "argon2 memory limit"),
    (1_048_576, 0, "argon2 fill limit"),
];

#[test]
fn limits_from_both_sides(rt: HostRuntime) {
    let metadata = metadata(&rt, "");
    for (memory_kib, fill_kib, want) in &LIMITS {
        let word = verdict(&rt, metadata, within(*memory_kib, *fill_kib));
        assert_answer(&rt, want, word, want);
    }
}

// (2^32 - 1)^2 KiB is the largest fill, and fits into 64 bits.
#[test]
fn the_largest_fill_has_its_limit(rt: HostRuntime) {
    let changes = "'time':4 -> 'time':4294967295; 'memory':1048576 -> 'memory':4294967295";
    let metadata = metadata(&rt, changes);
    let enough = verdict(&rt, metadata, within(u32::MAX, 18_446_744_065_119_617_025));
    assert_answer(&rt, "enough", enough, "usable 1");
    let below = verdict(&rt, metadata, within(u32::MAX, 18_446_744_065_119_617_024));
    assert_answer(&rt, "below", below, "argon2 fill limit");
}

#[test]
fn the_parameters_as_they_are(rt: HostRuntime) {
    let found = slot(rt.alloc(), metadata(&rt, ""), ATTACHED, no_limits(), 0);
    let slot = found.expect(&rt, "memory").expect(&rt, "slot 0");
    let want = Derivation::Argon2(Argon2Parameters {
        variant: Variant::Argon2id,
        passes: 4,
        memory_kib: 1_048_576,
        lanes: 4,
    });
    assert_of(&rt, "derivation", slot.parts.derivation == want);
    let is_salt = slot.parts.salt.as_slice() == [1u8; 32].as_slice();
    assert_of(&rt, "salt", is_salt);
}
