//! Whole runs over images in memory.

use super::fixture::{COLUMNS, PLAIN, assert_of, header1, image2};
use luks_audit::image::Policy;
use luks_audit::weak_row::Severity;
use luks_audit_run::host::{ImageFault, Images};
use luks_audit_run::image::Scope;
use luks_audit_run::run::run;
use luks_test_support::bytes::put;
use luks_test_support::devices::{BrokenSource, FlakySink};
use std::process::Abort;
use std::str;

// Images by name: the bytes, and how many of them are given before reads fail.
#[derive(Drop)]
struct Table<'a> {
    good: &'a [u8],
    weak: &'a [u8],
    disk: &'a [u8],
    failures: u64,
}

impl<'a> Images for Table<'a> {
    ghost use Rattle.luks_audit_run.specs.Host.Stored.{unknown};

    type Image = BrokenSource<'a>;

    ghost stored = { λ _ _. unknown };

    ghost failures = { λ table. table.failures };

    fn open(&mut self, name: &str) -> Result<BrokenSource<'a>, ImageFault> {
        Ok(match name {
            "good" => BrokenSource::new(self.good, 592),
            "weak" => BrokenSource::new(self.weak, 592),
            "broken" => BrokenSource::new(self.good, 591),
            "disk" => BrokenSource::new(self.disk, 10_000_000),
            "broken disk" => BrokenSource::new(self.disk, 5000),
            "none" => BrokenSource::new(b"no header", 1000),
            "heavy" => return Err(ImageFault::Memory),
            _ => return Err(ImageFault::NotOpened),
        })
    }

    fn close(&mut self, image: BrokenSource<'a>) {
        if image.counts.failures > 0 {
            self.failures = self.failures.saturating_add(1);
        }
    }
}

impl<'a> Table<'a> {
    // Images of these bytes, none of which was closed.
    fn new(good: &'a [u8], weak: &'a [u8], disk: &'a [u8]) -> Table<'a> {
        Table {
            good,
            weak,
            disk,
            failures: 0,
        }
    }
}

// The exit status of a run over these images, and what was written. Call `failing` of the sink
// fails, counted from 0.
fn run_of(
    rt: &(impl Abort + AllocGlobal),
    policy: Policy,
    scope: Scope,
    files: &[&str],
    host: &mut Table<'_>,
    failing: u64,
) -> (u8, FlakySink) {
    let mut out = FlakySink::new(rt.alloc(), 100_000, 77, failing).expect(rt, "memory");
    let ending = run(rt.alloc(), policy, scope, files, host, &mut out);
    (ending.status(), out)
}

// The names of images, the exit status, and the lines after the header's own.
static RUNS: [(&[&str], u8, usize); 8] = [
    (&["good"], 0, 1),
    (&["good", "weak"], 1, 2),
    (&["weak", "good"], 1, 2),
    (&["none"], 1, 1),
    (&["broken"], 4, 1),
    (&["weak", "missing", "good"], 4, 3),
    (&["weak", "heavy", "good"], 4, 3),
    (&["missing", "weak", "none", "broken", "good"], 4, 5),
];

fn lines(text: &[u8]) -> usize {
    text.iter().filter(|byte| **byte == b'\n').count()
}

#[test]
fn statuses(rt: HostRuntime) {
    let good = header1(&rt, "xts-plain64", "sha256", &[(212, 600_000)]).leak();
    let weak = header1(&rt, "xts-plain64", "sha256", &[]).leak();
    for (files, status, count) in &RUNS {
        let mut host = Table::new(good, weak, b"");
        let (ended, out) = run_of(&rt, PLAIN, Scope::Start, files, &mut host, u64::MAX);
        let last = files.last().copied().unwrap_or("");
        assert_of(&rt, last, ended == *status);
        assert_of(&rt, last, lines(out.as_slice()) == *count);
    }
}

// A policy by which only what is severe counts.
const SEVERE: Policy = Policy {
    fail_on: Severity::High,
    ..PLAIN
};

// A volume whose hash function is SHA-1, and one with few iterations: which of them is flawed.
#[test]
fn severe(rt: HostRuntime) {
    let low = header1(&rt, "xts-plain64", "sha1", &[(212, 1_300_000)]).leak();
    let high = header1(&rt, "xts-plain64", "sha256", &[]).leak();
    for (policy, low_status) in [(PLAIN, 1), (SEVERE, 0)] {
        let mut host = Table::new(low, high, b"");
        let (ended, _) = run_of(&rt, policy, Scope::Start, &["good"], &mut host, u64::MAX);
        assert_of(&rt, "low", ended == low_status);
        let (ended, _) = run_of(&rt, policy, Scope::Start, &["weak"], &mut host, u64::MAX);
        assert_of(&rt, "high", ended == 1);
    }
}

// The names of the columns, and three lines of errors.
const ERRORS: &[u8] =
    b"file\toffset\terror\tversion\tuuid\tlabel\tsubsystem\theader\tother_header\tcipher\tkey_bytes\tsector_size\tsegment_offset\tsegment_size\trequirements\tslots\tdigests\ttokens\tfindings\tweak\tseqid\theader_size\tchecksum_hash\tsalt\tiv_tweak\tprogram_version\tpolicy\tunsupported\tsegment_type\tsegment_flags\tintegrity\tflags\nnone\t\tno LUKS header\t\t\t\t\t\t\t\t\t\t\t\t\t\t\t\t\t\t\t\t\t\t\t1.3.0\t1\t\t\t\t\t\nmissing\t\tcannot be opened\t\t\t\t\t\t\t\t\t\t\t\t\t\t\t\t\t\t\t\t\t\t\t1.3.0\t1\t\t\t\t\t\nheavy\t\tout of memory\t\t\t\t\t\t\t\t\t\t\t\t\t\t\t\t\t\t\t\t\t\t\t1.3.0\t1\t\t\t\t\t\n";

#[test]
fn columns(rt: HostRuntime) {
    let mut host = Table::new(b"", b"", b"");
    let files = ["none", "missing", "heavy"];
    let (_, out) = run_of(&rt, COLUMNS, Scope::Start, &files, &mut host, u64::MAX);
    assert_of(&rt, "columns", out.as_slice() == ERRORS);
}

// Whether a run of which this call of the sink fails ends with what was written before.
fn is_cut(rt: &(impl Abort + AllocGlobal), host: &mut Table<'_>, call: u64, whole: &[u8]) -> bool {
    let (status, out) = run_of(rt, PLAIN, Scope::Start, &WRITTEN, host, call);
    (status == 6) & whole.starts_with(out.as_slice()) & (out.as_slice().len() < whole.len())
}

// Images whose lines are written.
const WRITTEN: [&str; 3] = ["good", "missing", "weak"];

// A write that fails ends the run with what was written before, whichever write it is.
#[test]
fn failing_writes(rt: HostRuntime) {
    let good = header1(&rt, "xts-plain64", "sha256", &[]).leak();
    let mut host = Table::new(good, good, b"");
    let (_, whole) = run_of(&rt, PLAIN, Scope::Start, &WRITTEN, &mut host, u64::MAX);
    for call in 0..whole.calls() {
        let cut = is_cut(&rt, &mut host, call, whole.as_slice());
        assert_of(&rt, "failing write", cut);
    }
}

// A disk: zeros, a LUKS1 header, a LUKS2 volume, and one whose primary header is wiped.
fn disk(rt: &(impl Abort + AllocGlobal)) -> Vec<u8> {
    let mut bytes = vec![in rt.alloc(); 0; 200_000].expect(rt, "memory");
    let first = header1(rt, "xts-plain64", "sha256", &[]);
    let second = image2(rt, "{\"type\":\"luks2\",\"key_size\":64}", "1000");
    let disk = bytes.as_mut_slice();
    put(disk, 1024, first.as_slice());
    put(disk, 4096, second.as_slice());
    put(disk, 65_536, second.as_slice());
    put(disk, 65_536, &[0; 512]);
    // the magic bytes alone, and a header between two sectors
    put(disk, 512, b"LUKS\xba\xbe\0\x02");
    put(disk, 150_000, first.as_slice());
    bytes
}

// Names of images, the exit status, how many images there are of which a read failed, and the
// offsets and errors that are printed.
static SEARCHES: [(&[&str], u8, u64, &str); 4] = [
    (&["disk"], 1, 0, "1024 4096 65536 "),
    (&["none", "disk"], 1, 0, "no LUKS header 1024 4096 65536 "),
    (
        &["broken disk", "disk"],
        4,
        1,
        "read failed 1024 4096 65536 ",
    ),
    (&["missing"], 4, 0, "cannot be opened "),
];

// The offsets and errors in these columns.
fn offsets_in(rt: &(impl Abort + AllocGlobal), text: &[u8]) -> String {
    let mut found = String::new(rt.alloc());
    for line in str::from_utf8(text).unwrap_or("").lines().skip(1) {
        for column in line.split('\t').skip(1).take(2) {
            if !column.is_empty() {
                push_word(rt, &mut found, column);
            }
        }
    }
    found
}

// Adds a word, and a space after it.
fn push_word(rt: &(impl Abort + AllocGlobal), text: &mut String, word: &str) {
    text.push_str(word).expect(rt, "memory");
    text.push(' ').expect(rt, "memory");
}

#[test]
fn searches(rt: HostRuntime) {
    let good = header1(&rt, "xts-plain64", "sha256", &[]).leak();
    let disk = disk(&rt).leak();
    for (files, status, failures, offsets) in &SEARCHES {
        let mut host = Table::new(good, good, disk);
        let (ended, out) = run_of(&rt, COLUMNS, Scope::Everywhere, files, &mut host, u64::MAX);
        let found = offsets_in(&rt, out.as_slice());
        assert_of(&rt, offsets, ended == *status);
        assert_of(&rt, offsets, host.failures == *failures);
        assert_of(&rt, offsets, found.as_str() == *offsets);
    }
}
