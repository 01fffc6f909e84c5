//! Tests of the program's devices: what no clause states (that calls succeed, how often a writer is
//! called or flushed), and answers known from elsewhere. The numbers of devices are those of
//! Python's `os.makedev`.

ghost use Rattle.std.specs.Prelude.{None, []};

mod opening;

use luks_host::device_number::{DeviceParts, device_parts};
use luks_host::ending::{Ending, end_run};
use luks_host::loop_device::{backing_entry, backing_name};
use luks_host::output::{RawFlush, RetryingWriter};
use luks_host::storage::{FileFacts, FileKind, SeenFile, share_storage};
use luks_io::adapters::WriteSink;
use luks_io::memory::MemSink;
use luks_io::sink::put_all;
use std::cell::Cell;
use std::io::{self, BufWriter, ErrorKind, Write};
use std::process::Abort;
use std::test::Fail;

// Asserts a condition by its name.
fn assert_that(rt: &impl Abort, name: &str, holds: bool) {
    assert!(rt; holds, "{name}");
}

#[test]
fn numbers_of_devices(rt: HostRuntime) -> Result<(), Fail> {
    let rows = [
        (0x10303, 259, 3),
        (0x00ab_c00d_ef41_2356, 0xab_c123, 0xde_f456),
    ];
    for (number, major, minor) in rows {
        let parts = device_parts(number);
        assert_that(&rt, "parts", parts == DeviceParts { major, minor });
    }
    let entry = backing_entry(rt.alloc(), 0x711)?;
    let expected = "/sys/dev/block/7:17/loop/backing_file";
    assert_that(&rt, "entry", entry.as_str() == expected);
    Ok(())
}

#[test]
fn names_keep_their_blanks(rt: HostRuntime) {
    let blank = backing_name("/tmp/a \n");
    assert_that(&rt, "a blank", blank == Some("/tmp/a "));
    let newline = backing_name("/tmp/a\n\n");
    assert_that(&rt, "a newline", newline == Some("/tmp/a\n"));
    assert_that(&rt, "no newline", backing_name("/tmp/a").is_none());
}

fn file(device: u64, inode: u64) -> FileFacts {
    FileFacts {
        kind: FileKind::Regular,
        device,
        inode,
        number: 0,
    }
}

fn loop_device(number: u64, below: FileFacts) -> SeenFile {
    let facts = FileFacts {
        kind: FileKind::BlockDevice,
        device: 5,
        inode: number,
        number,
    };
    SeenFile {
        facts,
        backing: Some(below),
    }
}

#[test]
fn storages_are_distinguished(rt: HostRuntime) {
    let plain = SeenFile {
        facts: file(1, 2),
        backing: None,
    };
    let elsewhere = SeenFile {
        facts: file(3, 2),
        backing: None,
    };
    let (one, two) = (
        loop_device(0x700, file(1, 2)),
        loop_device(0x701, file(1, 2)),
    );
    let other = loop_device(0x702, file(3, 2));
    assert_that(&rt, "a file", share_storage(&plain, &plain));
    assert_that(&rt, "an equal inode", !share_storage(&plain, &elsewhere));
    assert_that(&rt, "its loop device", share_storage(&plain, &one));
    assert_that(&rt, "the other way", share_storage(&two, &plain));
    assert_that(&rt, "two over one file", share_storage(&one, &two));
    assert_that(&rt, "two over two files", !share_storage(&one, &other));
}

/// A writer that is interrupted by each call, and counts the calls.
#[derive(Drop)]
struct Interrupted<'a> {
    calls: &'a Cell<u32>,
}

impl Write for Interrupted<'_> {
    fn write(&mut self, _buf: &[u8]) -> io::Result<usize> {
        self.calls.set(self.calls.get().saturating_add(1));
        Err(io::Error::from(ErrorKind::Interrupted))
    }

    fn flush(&mut self) -> io::Result<()> {
        Ok(())
    }
}

impl RawFlush for Interrupted<'_> {
    ghost flushes = { λ _. None };

    ghost unflushed = { λ _. [] };

    fn flush_once(&mut self) -> bool {
        true
    }
}

/// A writer that accepts each write, and counts its flushes.
#[derive(Drop)]
struct CountsFlushes<'a> {
    count: &'a Cell<u32>,
}

impl Write for CountsFlushes<'_> {
    fn write(&mut self, buf: &[u8]) -> io::Result<usize> {
        Ok(buf.len())
    }

    fn flush(&mut self) -> io::Result<()> {
        self.count.set(self.count.get().saturating_add(1));
        Ok(())
    }
}

impl RawFlush for CountsFlushes<'_> {
    ghost flushes = { λ _. None };

    ghost unflushed = { λ _. [] };

    fn flush_once(&mut self) -> bool {
        self.count.set(self.count.get().saturating_add(1));
        true
    }
}

#[test]
fn a_write_does_not_flush(rt: HostRuntime) -> Result<(), Fail> {
    let count = Cell::new(0);
    let mut writer = RetryingWriter::new(CountsFlushes { count: &count });
    writer.write_all(b"bytes")?;
    writer.write_all(b"more bytes")?;
    assert_that(&rt, "written", count.get() == 0);
    let mut sink = WriteSink::new(CountsFlushes { count: &count });
    let accepted = put_all(&mut sink, b"bytes").is_ok();
    assert_that(&rt, "written by a sink", accepted && count.get() == 0);
    writer.flush()?;
    assert_that(&rt, "flushed", count.get() == 1);
    Ok(())
}

fn ending_of(line: &[u8], status: u8) -> Ending<'_> {
    Ending { line, status }
}

#[test]
fn lost_output_wins(rt: HostRuntime) -> Result<(), Fail> {
    let (report, lost) = (ending_of(b"report\n", 4), ending_of(b"lost\n", 6));
    let mut messages = MemSink::new(rt.alloc(), 100)?;
    let mut whole = BufWriter::new(rt.alloc(), Vec::<u8>::new(rt.alloc()))?;
    whole.write_all(b"bytes")?;
    let status = end_run(&mut whole, report, lost, &mut messages);
    assert_that(
        &rt,
        "status",
        status == 4 && messages.as_slice() == b"report\n".as_slice(),
    );
    let calls = Cell::new(0);
    let writer = RetryingWriter::new(Interrupted { calls: &calls });
    let mut stuck = BufWriter::new(rt.alloc(), writer)?;
    stuck.write_all(b"bytes")?;
    let mut messages = MemSink::new(rt.alloc(), 100)?;
    let status = end_run(&mut stuck, report, lost, &mut messages);
    let printed = messages.as_slice() == b"lost\n".as_slice();
    assert_that(&rt, "lost", status == 6 && printed);
    drop(stuck);
    assert_that(&rt, "calls", calls.get() == 101);
    let mut full = MemSink::new(rt.alloc(), 3)?;
    let status = end_run(&mut whole, report, lost, &mut full);
    assert_that(
        &rt,
        "unprintable",
        status == 4 && full.as_slice() == b"rep".as_slice(),
    );
    Ok(())
}
