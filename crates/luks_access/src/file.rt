//! Images in files and on block devices.

ghost use Rattle.std.specs.Prelude.{◌≡◌, ◌+◌, ◌^◌, ◌<◌, ◌≤◌, Bool, List, ℕ, Option, Err};
ghost use Rattle.std.specs.Prelude.{IsOk, MatchResult, OnOk, false, length, nat_le, true};
ghost use Rattle.std.specs.Fs.{IsFile, file_type, metadata_len};
ghost use Rattle.std.specs.IoError.{error_kind};
ghost use Rattle.luks_io.specs.Devices.{IfKnown};
ghost use Rattle.luks_access.specs.Sectors.{FailsWithin, IsAt, IsRangeOf};

use crate::image::{ReadAt, ReadAtFault};
use std::fs::{File, Metadata};
use std::io::{self, ErrorKind, Seek, SeekFrom};
use std::os::unix::fs::FileExt;

/// A file that answers one read at an offset. If its bytes are known, clauses say which of them are
/// requested and what is reported. std's file is one, whose bytes are not known.
pub trait RawFile {
    /// Its bytes, if they are known.
    ghost bytes: { Self → Option (List ℕ) };

    /// Whether a read of the byte at this offset may fail.
    ghost fails: { Self → ℕ → Bool };

    /// Fills a buffer of at least one byte with the bytes from this offset on. If the file is
    /// truncated while it is read, the bytes after its end may be any, such as the zeros of its
    /// last page.
    fn call(&self, offset: u64, buf: &mut [u8]) -> Result<(), ReadAtFault>
        requires { 0 < length buf.old }
        ensures bytes { OnOk result (IfKnown (bytes self.now)
            (λ known. offset + length buf.new ≤ length known → IsRangeOf known offset buf.new)) }
        ensures failed { result ≡ Err ReadAtFault.Failed
            → FailsWithin (fails self.now) offset (length buf.new) }
        ensures ended { result ≡ Err ReadAtFault.Ended → IfKnown (bytes self.now)
            (λ known. length known < offset + length buf.new) };

    /// Whether it has this many bytes.
    fn reaches(&self, end: u64) -> bool
        ensures few { IfKnown (bytes self.now) (λ known. length known < 2 ^ 63) }
        ensures value { IfKnown (bytes self.now) (λ known. result ≡ nat_le end (length known)) };
}

/// Converts the answer of std's file: an end is distinguished from other failures.
fn read_outcome(answer: io::Result<()>) -> Result<(), ReadAtFault>
    ensures { MatchResult answer
        (λ _. IsOk result)
        (λ e. (error_kind e ≡ ErrorKind.UnexpectedEof → result ≡ Err ReadAtFault.Ended)
        × ((error_kind e ≡ ErrorKind.UnexpectedEof → ⊥) → result ≡ Err ReadAtFault.Failed)) }
{
    match answer {
        Ok(()) => Ok(()),
        Err(error) => {
            if error.kind() == ErrorKind::UnexpectedEof {
                Err(ReadAtFault::Ended)
            } else {
                Err(ReadAtFault::Failed)
            }
        }
    }
}

/// Whether a file of this metadata has this many bytes. A block device has no length here.
fn has_bytes(found: &io::Result<Metadata>, end: u64) -> bool
    ensures { MatchResult found.now
        (λ m. (IsFile (file_type m) → result ≡ nat_le end (metadata_len m))
        × ((IsFile (file_type m) → ⊥) → result ≡ true))
        (λ _. result ≡ false) }
{
    match found {
        Ok(found) => !found.is_file() || found.len() >= end,
        Err(_) => false,
    }
}

impl RawFile for File {
    ghost use Rattle.std.specs.Prelude.{None, true};

    ghost bytes = { λ _. None };

    ghost fails = { λ _ _. true };

    fn call(&self, offset: u64, buf: &mut [u8]) -> Result<(), ReadAtFault> {
        read_outcome(self.read_exact_at(buf, offset))
    }

    fn reaches(&self, end: u64) -> bool {
        has_bytes(&self.metadata(), end)
    }
}

/// An image in a file or on a block device.
#[derive(Drop)]
pub struct FileImage<F> {
    /// The file that is read.
    pub file: F,
    /// The length that it had when it was opened.
    pub len: u64,
}

impl FileImage<File> {
    /// The image in this file. A file that does not support seeking, such as a pipe, is refused.
    pub fn new(mut file: File) -> io::Result<FileImage<File>> {
        let len = file.seek(SeekFrom::End(0))?;
        Ok(FileImage { file, len })
    }
}

impl<F: RawFile> ReadAt for FileImage<F> {
    ghost use Rattle.luks_access.specs.Sectors.{of_length};

    ghost image = { λ image. of_length image.len (F.bytes image.file) };

    ghost fails = { λ image. F.fails image.file };

    fn len(&self) -> u64 {
        self.len
    }

    /// Fills the buffer with the bytes that the file has at this offset. If it has become shorter,
    /// bytes that it has lost are not read as zeros: the image ends.
    fn read_at(&self, offset: u64, buf: &mut [u8]) -> Result<(), ReadAtFault>
        ensures bytes { OnOk result (IfKnown (F.bytes self.now.file)
            (λ known. IsAt known offset buf.new)) }
        ensures failed { result ≡ Err ReadAtFault.Failed
            → FailsWithin (F.fails self.now.file) offset (length buf.new) }
        ensures ended { result ≡ Err ReadAtFault.Ended → IfKnown (F.bytes self.now.file)
            (λ known. length known < offset + length buf.new) }
    {
        if !buf.is_empty() {
            self.file.call(offset, buf)?;
        }
        if !self.file.reaches(offset.saturating_add(buf.len() as u64)) {
            return Err(ReadAtFault::Ended);
        }
        Ok(())
    }
}
