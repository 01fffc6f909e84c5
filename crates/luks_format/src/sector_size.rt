//! The lengths that a sector of the payload may have.

ghost use Rattle.std.specs.Prelude.{◌≡◌};

/// The length of a sector of the payload.
#[derive(Clone, Copy, PartialEq, Eq, Debug)]
pub enum SectorSize {
    /// 512 bytes.
    B512,
    /// 1,024 bytes.
    B1024,
    /// 2,048 bytes.
    B2048,
    /// 4,096 bytes.
    B4096,
}

impl SectorSize {
    ghost use Rattle.luks_format.specs.SectorSize.{bytes_of, sector_size_with};

    /// The sector size of this many bytes, if there is one.
    pub fn with_bytes(bytes: u64) -> Option<SectorSize>
        ensures { result ≡ sector_size_with bytes }
    {
        match bytes {
            512 => Some(SectorSize::B512),
            1024 => Some(SectorSize::B1024),
            2048 => Some(SectorSize::B2048),
            4096 => Some(SectorSize::B4096),
            _ => None,
        }
    }

    /// The length in bytes.
    pub fn bytes(self) -> usize
        ensures { result ≡ bytes_of self }
    {
        match self {
            SectorSize::B512 => 512,
            SectorSize::B1024 => 1024,
            SectorSize::B2048 => 2048,
            SectorSize::B4096 => 4096,
        }
    }
}
