//! Where the bytes of a file are stored, and whether two files share storage.

ghost use Rattle.std.specs.Prelude.{◌≡◌, ◌↔◌, IsTrue};
ghost use Rattle.luks_host.specs.Storages.{IsSame, SharesStorage, backing_storage, storage_of};

/// The kind of a file.
#[derive(Clone, Copy, Debug, PartialEq, Eq)]
pub enum FileKind {
    Regular,
    Directory,
    BlockDevice,
    /// A terminal, a pipe, `/dev/null` and the like.
    Other,
}

/// The kind and the numbers of a file, as `stat` gives them.
#[derive(Clone, Copy, Debug, PartialEq, Eq)]
pub struct FileFacts {
    pub kind: FileKind,
    /// The number of the file system that the file is in.
    pub device: u64,
    /// The number of the file in its file system.
    pub inode: u64,
    /// The number of the device that the file is, if it is one.
    pub number: u64,
}

/// A file, and the file under it if it is a loop device and the host shows it.
#[derive(Clone, Copy, Debug, PartialEq, Eq)]
pub struct SeenFile {
    pub facts: FileFacts,
    pub backing: Option<FileFacts>,
}

/// A storage: bytes that are written to it can be read back.
#[derive(Clone, Copy, Debug, PartialEq, Eq)]
pub enum Storage {
    /// A regular file, by its file system and its inode.
    File { device: u64, inode: u64 },
    /// A block device, by its number, since it may have several nodes.
    Device { number: u64 },
}

/// The storage that a file is. Bytes written to a directory, a terminal, a pipe or `/dev/null`
/// cannot be read back.
pub fn storage_of(file: &FileFacts) -> Option<Storage>
    ensures { result ≡ storage_of file.now }
{
    match file.kind {
        FileKind::Regular => Some(Storage::File {
            device: file.device,
            inode: file.inode,
        }),
        FileKind::BlockDevice => Some(Storage::Device {
            number: file.number,
        }),
        FileKind::Directory | FileKind::Other => None,
    }
}

/// Whether two files store their bytes in one storage: they are the same, either of them is a loop
/// device over the other, or both are loop devices over one file.
pub fn share_storage(a: &SeenFile, b: &SeenFile) -> bool
    ensures { IsTrue result ↔ SharesStorage a.now b.now }
{
    let (own_a, below_a) = (storage_of(&a.facts), backing_storage(a));
    let (own_b, below_b) = (storage_of(&b.facts), backing_storage(b));
    is_same(own_a, own_b)
        || is_same(own_a, below_b)
        || is_same(below_a, own_b)
        || is_same(below_a, below_b)
}

/// The storage under a loop device.
fn backing_storage(file: &SeenFile) -> Option<Storage>
    ensures { result ≡ backing_storage file.now }
{
    match &file.backing {
        Some(below) => storage_of(below),
        None => None,
    }
}

/// Whether both are storages, and the same one.
fn is_same(a: Option<Storage>, b: Option<Storage>) -> bool
    ensures { IsTrue result ↔ IsSame a b }
{
    match (a, b) {
        (Some(a), Some(b)) => a == b,
        _ => false,
    }
}
