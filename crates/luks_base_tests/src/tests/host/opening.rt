//! Tests of how inputs are opened, over a system that is a table. The numbers of modes are those of
//! Linux's `<linux/stat.h>`.

use super::assert_that;
use luks_host::descriptors::stand_ins;
use luks_host::file_kind::kind_of_mode;
use luks_host::is_output::{is_output, is_output_named};
use luks_host::open_input::{OpenedInput, open_input};
use luks_host::storage::{FileFacts, FileKind};
use luks_host::system::{InputFault, System};
use std::alloc::{AllocError, Global};
use std::os::fd::RawFd;
use std::process::Abort;

#[test]
fn kinds_of_modes(rt: HostRuntime) {
    let rows = [
        (0o140_777, FileKind::Other),
        (0o120_777, FileKind::Other),
        (0o100_000, FileKind::Regular),
        (0o100_644, FileKind::Regular),
        (0o107_777, FileKind::Regular),
        (0o060_000, FileKind::BlockDevice),
        (0o060_660, FileKind::BlockDevice),
        (0o040_000, FileKind::Directory),
        (0o041_777, FileKind::Directory),
        (0o020_620, FileKind::Other),
        (0o010_600, FileKind::Other),
        (0o000_644, FileKind::Other),
        (0o170_000, FileKind::Other),
        (0o300_644, FileKind::Regular),
    ];
    for (mode, kind) in rows {
        assert_that(&rt, "a kind", kind_of_mode(mode) == kind);
    }
}

/// A name in a table: the file there, the descriptor that it gets, and its text.
#[derive(Clone, Copy)]
struct Row {
    name: &'static str,
    facts: FileFacts,
    descriptor: RawFd,
    text: &'static str,
}

/// A system with the files of a table. A file with the descriptor -1 cannot be opened for want of
/// memory.
#[derive(Drop)]
struct Table<'a> {
    rows: &'a [Row],
}

impl Table<'_> {
    fn row(&self, name: &str) -> Option<Row> {
        for row in self.rows {
            if row.name == name {
                return Some(*row);
            }
        }
        None
    }
}

impl System for Table<'_> {
    ghost use Rattle.std.specs.Prelude.{⊤};

    type File = RawFd;

    ghost finds = { λ _ _ _. ⊤ };

    ghost shows = { λ _ _ _. ⊤ };

    ghost opens = { λ _ _ _. ⊤ };

    ghost describes = { λ _ _ _. ⊤ };

    fn facts_at(&self, name: &str) -> Option<FileFacts> {
        Some(self.row(name)?.facts)
    }

    fn text_at(&self, alloc: Global, name: &str) -> Result<Option<String>, AllocError> {
        match self.row(name) {
            Some(row) if row.descriptor < 0 => Err(AllocError),
            Some(row) => Ok(Some(String::from_str(alloc, row.text)?)),
            None => Ok(None),
        }
    }

    fn open(&self, name: &str) -> Result<RawFd, InputFault> {
        match self.row(name) {
            Some(row) if row.descriptor >= 0 => Ok(row.descriptor),
            Some(_) => Err(InputFault::Memory),
            None => Err(InputFault::NotOpened),
        }
    }

    fn facts_of(&self, file: &RawFd) -> Result<FileFacts, InputFault> {
        for row in self.rows {
            if row.descriptor == *file {
                return Ok(row.facts);
            }
        }
        Err(InputFault::NotOpened)
    }
}

/// A row of a table: a file of this kind, whose numbers are both this one.
fn listed(name: &'static str, kind: FileKind, number: u64, descriptor: RawFd) -> Row {
    Row {
        name,
        facts: FileFacts {
            kind,
            device: 1,
            inode: number,
            number,
        },
        descriptor,
        text: "",
    }
}

/// How an input was opened, and its descriptor.
fn shown(opened: Result<OpenedInput<RawFd>, InputFault>) -> (&'static str, RawFd) {
    match opened {
        Ok(OpenedInput::Standard) => ("standard", 0),
        Ok(OpenedInput::Named(file)) => ("named", file),
        Err(InputFault::NotOpened) => ("not opened", 0),
        Err(InputFault::Memory) => ("memory", 0),
    }
}

/// Asserts how each of some names is opened on a system.
fn assert_opened(rt: &(impl Abort + AllocGlobal), rows: &[Row], expected: &[(&str, &str, RawFd)]) {
    let system = Table { rows };
    for (name, how, descriptor) in expected {
        let (opened, file) = shown(open_input(&system, rt.alloc(), name));
        assert_that(rt, name, opened == *how && file == *descriptor);
    }
}

#[test]
fn inputs_are_opened_by_their_kind(rt: HostRuntime) {
    let rows = [
        listed("/proc/self/fd/0", FileKind::Other, 1, 0),
        listed("/proc/self/fd/1", FileKind::Other, 1, 1),
        listed("volume", FileKind::Regular, 10, 5),
        listed("pipe", FileKind::Other, 11, 6),
        listed("disk", FileKind::BlockDevice, 12, 7),
        listed("folder", FileKind::Directory, 13, 8),
        listed("heavy", FileKind::Regular, 14, -1),
    ];
    let expected = [
        ("-", "standard", 0),
        ("volume", "named", 5),
        ("pipe", "named", 6),
        ("disk", "named", 7),
        ("folder", "not opened", 0),
        ("heavy", "memory", 0),
        ("missing", "not opened", 0),
        ("", "not opened", 0),
        ("--", "not opened", 0),
    ];
    assert_opened(&rt, &rows, &expected);
    assert_opened(&rt, &[], &[("-", "standard", 0)]);
    let folder = [listed("/proc/self/fd/0", FileKind::Directory, 1, 0)];
    assert_opened(&rt, &folder, &[("-", "not opened", 0)]);
    let file = [listed("/proc/self/fd/0", FileKind::Regular, 1, 0)];
    assert_opened(&rt, &file, &[("-", "standard", 0)]);
}

/// The entry of a loop device, with this text.
fn entry(name: &'static str, text: &'static str) -> Row {
    let mut entry = listed(name, FileKind::Regular, 0, 90);
    entry.text = text;
    entry
}

/// Asserts that standard output of a system writes to its files of these names, and to no others.
fn assert_outputs(rt: &(impl Abort + AllocGlobal), rows: &[Row], outputs: &[&str]) {
    let system = Table { rows };
    for name in [
        "-", "volume", "other", "loop0", "loop1", "loop2", "loop3", "missing", "",
    ] {
        let is_listed = outputs.contains(&name);
        let answer = is_output_named(&system, rt.alloc(), name).ok();
        assert_that(rt, name, answer == Some(is_listed));
    }
}

#[test]
fn outputs_are_refused(rt: HostRuntime) {
    let rows = [
        listed("/proc/self/fd/0", FileKind::Regular, 10, 0),
        listed("/proc/self/fd/1", FileKind::Regular, 10, 1),
        listed("volume", FileKind::Regular, 10, 5),
        listed("other", FileKind::Regular, 11, 6),
        listed("loop0", FileKind::BlockDevice, 0x700, 7),
        entry("/sys/dev/block/7:0/loop/backing_file", "volume\n"),
        listed("loop1", FileKind::BlockDevice, 0x701, 8),
        entry("/sys/dev/block/7:1/loop/backing_file", "other\n"),
        listed("loop2", FileKind::BlockDevice, 0x702, 9),
        entry("/sys/dev/block/7:2/loop/backing_file", "volume (deleted)\n"),
        listed("loop3", FileKind::BlockDevice, 0x703, 10),
        entry("/sys/dev/block/7:3/loop/backing_file", "volume"),
    ];
    let expected = [
        ("-", "not opened", 0),
        ("volume", "not opened", 0),
        ("other", "named", 6),
        ("loop0", "not opened", 0),
        ("loop1", "named", 8),
        ("loop2", "named", 9),
        ("loop3", "named", 10),
    ];
    assert_opened(&rt, &rows, &expected);
    assert_outputs(&rt, &rows, &["-", "volume", "loop0"]);
    let device = [
        listed("/proc/self/fd/1", FileKind::BlockDevice, 0x700, 1),
        entry("/sys/dev/block/7:0/loop/backing_file", "volume\n"),
        listed("volume", FileKind::Regular, 10, 5),
        listed("loop0", FileKind::BlockDevice, 0x700, 7),
    ];
    let expected = [("volume", "not opened", 0), ("loop0", "not opened", 0)];
    assert_opened(&rt, &device, &expected);
    assert_outputs(&rt, &device, &["volume", "loop0"]);
    assert_outputs(&rt, &[], &[]);
    let unseen = Table { rows: &[] };
    let facts = listed("", FileKind::Regular, 1, 0).facts;
    let answer = is_output(&unseen, rt.alloc(), &facts).ok();
    assert_that(&rt, "unseen", answer == Some(false));
}

/// The entry of a loop device, whose text does not fit into memory.
fn heavy_entry(name: &'static str) -> Row {
    listed(name, FileKind::Regular, 0, -1)
}

#[test]
fn loop_devices_are_not_missed_for_want_of_memory(rt: HostRuntime) {
    let input = [
        listed("/proc/self/fd/1", FileKind::Regular, 10, 1),
        listed("volume", FileKind::Regular, 10, 5),
        listed("other", FileKind::Regular, 11, 6),
        listed("loop0", FileKind::BlockDevice, 0x700, 7),
        heavy_entry("/sys/dev/block/7:0/loop/backing_file"),
    ];
    let expected = [
        ("volume", "not opened", 0),
        ("other", "named", 6),
        ("loop0", "memory", 0),
    ];
    assert_opened(&rt, &input, &expected);
    let output = [
        listed("/proc/self/fd/0", FileKind::Regular, 10, 0),
        listed("/proc/self/fd/1", FileKind::BlockDevice, 0x700, 1),
        listed("volume", FileKind::Regular, 10, 5),
        heavy_entry("/sys/dev/block/7:0/loop/backing_file"),
    ];
    assert_opened(&rt, &output, &[("-", "memory", 0), ("volume", "memory", 0)]);
    let system = Table { rows: &output };
    let answer = is_output_named(&system, rt.alloc(), "volume");
    assert_that(&rt, "an output", answer.is_err());
}

#[test]
fn closed_descriptors_are_taken(rt: HostRuntime) {
    for (descriptor, is_kept) in [(0, true), (1, true), (2, true), (3, false)] {
        let rows = [listed("/dev/null", FileKind::Other, 1, descriptor)];
        let kept = if is_kept { Some(descriptor) } else { None };
        let [a, b, c] = stand_ins(&Table { rows: &rows });
        assert_that(&rt, "kept", a == kept && b == kept && c == kept);
    }
    let [a, b, c] = stand_ins(&Table { rows: &[] });
    let is_none = a.is_none() && b.is_none() && c.is_none();
    assert_that(&rt, "no /dev/null", is_none);
}
