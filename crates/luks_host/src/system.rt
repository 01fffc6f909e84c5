//! What the programs ask of the system about files: four calls, which decide nothing.

ghost use Rattle.std.specs.Prelude.{◌≡◌, ◌≢◌, List, ℕ, IfOk, Option, Result, option_map};
ghost use Rattle.std.specs.Prelude.{string_bytes};
ghost use Rattle.std.specs.Fs.{metadata_mode};
ghost use Rattle.std.specs.IoError.{error_kind};
ghost use Rattle.luks_host.specs.Modes.{kind_of_mode};

use crate::file_kind::kind_of_mode;
use crate::storage::FileFacts;
use std::alloc::{AllocError, Global};
use std::fs::{self, File, Metadata};
use std::io::{self, ErrorKind};
use std::os::fd::AsRawFd;
use std::os::unix::fs::MetadataExt;

/// Why an input is not opened.
#[derive(Clone, Copy, PartialEq, Eq, Debug)]
pub enum InputFault {
    /// There is no file with this name, or it may not be read, or it is refused.
    NotOpened,
    /// Memory ran out.
    Memory,
}

impl From<AllocError> for InputFault {
    ghost use Rattle.luks_host.specs.declared.system.InputFault.{InputFault};

    ghost from_gives = { λ _ fault. fault ≡ InputFault.Memory };

    fn from(_error: AllocError) -> InputFault {
        InputFault::Memory
    }
}

/// A system with files. Its ghost members say what it may answer, so that a clause can say what was
/// made of its answers. Of the real system nothing is known.
pub trait System {
    ghost use Rattle.luks_host.specs.declared.storage.FileFacts.{FileFacts};
    ghost use Rattle.luks_host.specs.declared.system.InputFault.{InputFault};

    /// An open file.
    type File: AsRawFd + Drop;

    /// Whether these may be the facts of the file with this name, or there may be none.
    ghost finds: { Self → List ℕ → Option FileFacts → Type 0 };

    /// Whether this may be the text of the file with this name, or there may be none.
    ghost shows: { Self → List ℕ → Option (List ℕ) → Type 0 };

    /// Whether the file with this name may be opened as this one, or may not be opened.
    ghost opens: { Self → List ℕ → Result Self.File InputFault → Type 0 };

    /// Whether these may be the facts of this open file, or the call may fail.
    ghost describes: { Self → Self.File → Result FileFacts InputFault → Type 0 };

    /// The facts of the file with this name, if there is one.
    fn facts_at(&self, name: &str) -> Option<FileFacts>
        ensures { finds self.now name.now result };

    /// The text of the file with this name, if there is one that can be read, and it is UTF-8.
    fn text_at(&self, alloc: Global, name: &str) -> Result<Option<String>, AllocError>
        ensures { IfOk result (λ text. shows self.now name.now (option_map string_bytes text)) };

    /// Opens the file with this name for reading.
    fn open(&self, name: &str) -> Result<Self::File, InputFault>
        ensures { opens self.now name.now result };

    /// The facts of an open file.
    fn facts_of(&self, file: &Self::File) -> Result<FileFacts, InputFault>
        ensures { describes self.now file.now result };
}

impl System for HostRuntime {
    ghost use Rattle.std.specs.Prelude.{⊤};

    type File = File;

    ghost finds = { λ _ _ _. ⊤ };

    ghost shows = { λ _ _ _. ⊤ };

    ghost opens = { λ _ _ _. ⊤ };

    ghost describes = { λ _ _ _. ⊤ };

    fn facts_at(&self, name: &str) -> Option<FileFacts> {
        let found = fs::metadata(self, name).ok()?;
        Some(facts_in(&found))
    }

    fn text_at(&self, _alloc: Global, name: &str) -> Result<Option<String>, AllocError> {
        match fs::read_to_string(self, name) {
            Ok(text) => Ok(Some(text)),
            Err(e) if e.kind() == ErrorKind::OutOfMemory => Err(AllocError),
            Err(_) => Ok(None),
        }
    }

    fn open(&self, name: &str) -> Result<File, InputFault> {
        fs::open(self, name).map_err(fault_of)
    }

    fn facts_of(&self, file: &File) -> Result<FileFacts, InputFault> {
        match file.metadata() {
            Ok(found) => Ok(facts_in(&found)),
            Err(e) => Err(fault_of(e)),
        }
    }
}

/// The facts in this metadata.
fn facts_in(file: &Metadata) -> FileFacts
    ensures kind { result.kind ≡ kind_of_mode (metadata_mode file.now) }
{
    FileFacts {
        kind: kind_of_mode(file.mode()),
        device: file.dev(),
        inode: file.ino(),
        number: file.rdev(),
    }
}

/// The fault for an error of opening a file.
fn fault_of(e: io::Error) -> InputFault
    ensures memory { error_kind e ≡ ErrorKind.OutOfMemory → result ≡ InputFault.Memory }
    ensures other { error_kind e ≢ ErrorKind.OutOfMemory → result ≡ InputFault.NotOpened }
{
    if e.kind() == ErrorKind::OutOfMemory {
        InputFault::Memory
    } else {
        InputFault::NotOpened
    }
}
