//! The kind of a file, from its mode.

ghost use Rattle.std.specs.Prelude.{◌≡◌};
ghost use Rattle.luks_host.specs.Modes.{kind_of_mode};

use crate::storage::FileKind;

/// The bits of a mode that are the file's type, `S_IFMT` of POSIX's `<sys/stat.h>`. The numbers are
/// those of Linux.
const TYPE: u32 = 0o170_000;
/// `S_IFREG`.
const REGULAR: u32 = 0o100_000;
/// `S_IFDIR`.
const DIRECTORY: u32 = 0o040_000;
/// `S_IFBLK`.
const BLOCK_DEVICE: u32 = 0o060_000;

/// The kind of the file with this mode, the `st_mode` of `stat`.
pub fn kind_of_mode(mode: u32) -> FileKind
    ensures { result ≡ kind_of_mode mode }
{
    match mode & TYPE {
        REGULAR => FileKind::Regular,
        DIRECTORY => FileKind::Directory,
        BLOCK_DEVICE => FileKind::BlockDevice,
        _ => FileKind::Other,
    }
}
