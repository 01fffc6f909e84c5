//! Images in files and on devices.

ghost use Rattle.std.specs.Prelude.{None, true};

use crate::tests::shared::assert_of;
use luks_access::file::{FileImage, RawFile};
use luks_access::image::{ReadAt, ReadAtFault};
use std::cell::Cell;
use std::fs::{File, remove_file};
use std::os::unix::fs::FileExt;

/// A file that is removed as soon as it is open.
const NAME: &str = "/tmp/luksrd-sparse-image";

/// The offset of the text in that file: 4 GiB and 100 bytes. The bytes before it take no space.
const FAR: u64 = 4_294_967_396;

fn is_zero(bytes: &[u8]) -> bool {
    bytes.iter().all(|byte| *byte == 0)
}

// Any byte of the first device can be read, though its length is reported as 0; the second device
// has no bytes.
#[test]
fn files_are_read_at_offsets(rt: HostRuntime) {
    let zeros = File::open(&rt, "/dev/zero").expect(&rt, "a device");
    let zeros = FileImage::new(zeros).expect(&rt, "an end");
    let mut bytes = [0xee; 600];
    let is_read = zeros.read_at(512, &mut bytes) == Ok(());
    assert_of(&rt, "zeros", is_read & (zeros.len() == 0) & is_zero(&bytes));
    let none = File::open(&rt, "/dev/null").expect(&rt, "a device");
    let none = FileImage::new(none).expect(&rt, "an end");
    let is_ended = none.read_at(0, &mut bytes) == Err(ReadAtFault::Ended);
    assert_of(&rt, "none", is_ended);
}

// Whether the four bytes from this offset on are these.
fn has_bytes(image: &FileImage<File>, offset: u64, wanted: &[u8; 4]) -> bool {
    let mut bytes = [0xee; 4];
    (image.read_at(offset, &mut bytes) == Ok(())) & (bytes == *wanted)
}

// The length is that of the whole file, and no offset is taken modulo 2^32.
#[test]
fn a_file_of_more_than_4_gib_is_read(rt: HostRuntime) {
    let _ = remove_file(&rt, NAME);
    let file = File::create_new(&rt, NAME).expect(&rt, "a file");
    let _ = remove_file(&rt, NAME);
    file.write_all_at(b"text", FAR).expect(&rt, "a write");
    let image = FileImage::new(file).expect(&rt, "an end");
    assert_of(&rt, "length", image.len() == FAR + 4);
    assert_of(&rt, "far", has_bytes(&image, FAR, b"text"));
    assert_of(&rt, "near", has_bytes(&image, 100, b"\0\0\0\0"));
    assert_of(&rt, "between", has_bytes(&image, FAR - 2, b"\0\0te"));
    let is_ended = image.read_at(FAR + 1, &mut [0; 4]) == Err(ReadAtFault::Ended);
    assert_of(&rt, "end", is_ended);
}

/// A file of zeros with one answer to each read. It keeps the offset and the length of the last
/// one.
#[derive(Drop)]
struct Recorder {
    len: u64,
    answer: Result<(), ReadAtFault>,
    offset: Cell<u64>,
    count: Cell<usize>,
}

impl RawFile for Recorder {
    ghost bytes = { λ _. None };

    ghost fails = { λ _ _. true };

    fn call(&self, offset: u64, buf: &mut [u8]) -> Result<(), ReadAtFault> {
        self.offset.set(offset);
        self.count.set(buf.len());
        buf.fill(0);
        self.answer
    }

    fn reaches(&self, end: u64) -> bool {
        end <= self.len
    }
}

// A file of four bytes from `FAR` on, that has this length now.
fn recorded_image(len: u64, answer: Result<(), ReadAtFault>) -> FileImage<Recorder> {
    let file = Recorder {
        len,
        answer,
        offset: Cell::new(0),
        count: Cell::new(0),
    };
    FileImage { file, len: FAR + 4 }
}

// Whether a read of the four bytes from `FAR` on requests these, and has this result.
fn is_requested(
    len: u64,
    answer: Result<(), ReadAtFault>,
    wanted: Result<(), ReadAtFault>,
) -> bool {
    let image = recorded_image(len, answer);
    (image.read_at(FAR, &mut [0xee; 4]) == wanted)
        & (image.file.offset.get() == FAR)
        & (image.file.count.get() == 4)
}

const ENDED: Result<(), ReadAtFault> = Err(ReadAtFault::Ended);

const FAILED: Result<(), ReadAtFault> = Err(ReadAtFault::Failed);

// The answer of the file is the result, unless the file has lost a byte that was requested.
#[test]
fn a_file_that_shrinks_gives_no_zeros(rt: HostRuntime) {
    assert_of(&rt, "whole", is_requested(FAR + 4, Ok(()), Ok(())));
    assert_of(&rt, "longer", is_requested(FAR + 5, Ok(()), Ok(())));
    assert_of(&rt, "shorter", is_requested(FAR + 3, Ok(()), ENDED));
    assert_of(&rt, "empty", is_requested(0, Ok(()), ENDED));
    assert_of(&rt, "ended", is_requested(FAR + 4, ENDED, ENDED));
    assert_of(&rt, "failed", is_requested(FAR + 4, FAILED, FAILED));
    let image = recorded_image(FAR, FAILED);
    let is_unread = image.read_at(FAR, &mut []) == Ok(());
    assert_of(&rt, "nothing", is_unread & (image.file.offset.get() == 0));
}
