//! An open volume, as C keeps it.

ghost use Rattle.std.specs.Prelude.{◌≡◌, ◌-◌, ◌≤◌, MatchOption, drop, false, length};
ghost use Rattle.std.specs.Prelude.{replicate, take, true};
ghost use Rattle.luks_cipher.specs.Sector.{is_mode_key_length};
ghost use Rattle.luks_format.specs.SectorSize.{sector_size_with};
ghost use Rattle.luks_c.specs.Stored.{FilledBy, IsCleared, key_in, mode_in, mode_number};
ghost use Rattle.luks_c.specs.Stored.{segment_in, size_stored_in};

use luks_cipher::Mode;
use luks_format::sector_size::SectorSize;
use luks_header::segment::Segment;

/// The length of the longest volume key in bytes.
const CAPACITY: usize = 64;

/// An open volume. All of it is plain numbers.
#[repr(C)]
#[derive(Clone, Copy)]
pub struct LuksrdVolume {
    /// The offset of the payload in its image, in bytes.
    pub offset: u64,
    /// The payload's length in bytes if it is fixed, otherwise 0.
    pub size: u64,
    /// The data unit number of the first sector.
    pub iv_tweak: u64,
    /// 1 if the payload's length is fixed, otherwise 0.
    pub has_size: u32,
    /// The length of a sector in bytes.
    pub sector_size: u32,
    /// The number of the cipher's mode, as in `enum luksrd_mode`.
    pub mode: u32,
    /// The length of the volume key in bytes.
    pub key_size: u32,
    /// The number of the key slot that opened.
    pub key_slot: u32,
    /// Always 0.
    pub reserved: u32,
    /// The volume key, and zeros after it.
    pub key: [u8; 64],
}

// The number of a mode.
fn number_of_mode(mode: Mode) -> u32
    ensures { result ≡ mode_number mode }
{
    match mode {
        Mode::XtsPlain64 => 1,
        Mode::XtsPlain => 2,
        Mode::CbcEssivSha256 => 3,
        Mode::CbcPlain64 => 4,
    }
}

/// The mode with this number.
fn mode_of_number(number: u32) -> Option<Mode>
    ensures { result ≡ mode_in number }
{
    match number {
        1 => Some(Mode::XtsPlain64),
        2 => Some(Mode::XtsPlain),
        3 => Some(Mode::CbcEssivSha256),
        4 => Some(Mode::CbcPlain64),
        _ => None,
    }
}

/// The sector size of its payload, if the struct has one.
pub(crate) fn sector_size(volume: &LuksrdVolume) -> Option<SectorSize>
    ensures { result ≡ sector_size_with volume.now.sector_size }
{
    SectorSize::with_bytes(u64::from(volume.sector_size))
}

/// The length of its payload, if that is fixed, or `None` if the struct does not say whether it is.
pub(crate) fn size(volume: &LuksrdVolume) -> Option<Option<u64>>
    ensures { result ≡ size_stored_in volume.now }
{
    match volume.has_size {
        0 => Some(None),
        1 => Some(Some(volume.size)),
        _ => None,
    }
}

/// The segment of its payload.
pub(crate) fn segment(volume: &LuksrdVolume) -> Option<Segment>
    ensures { result ≡ segment_in volume.now }
{
    Segment::from_parts(
        Some(volume.offset),
        size(volume),
        Some(volume.iv_tweak),
        sector_size(volume),
        mode_of_number(volume.mode),
    )
}

/// Its key, if this mode has keys of its length.
pub(crate) fn key(volume: &LuksrdVolume, mode: Mode) -> Option<&[u8]>
    ensures { MatchOption result (is_mode_key_length mode volume.now.key_size ≡ false)
        (λ key. (is_mode_key_length mode volume.now.key_size ≡ true)
        × (length key.now ≡ volume.now.key_size) × (key.now ≡ key_in volume.now)) }
{
    let len = volume.key_size as usize;
    if len > CAPACITY || !mode.has_key_length(len) {
        return None;
    }
    Some(&volume.key[..len])
}

// Writes a key, and zeros after it. Returns its length.
fn write_key(buf: &mut [u8], key: &[u8]) -> u32
    requires there { length buf.old ≡ CAPACITY }
    requires fits { length key.now ≤ CAPACITY }
    ensures count { result ≡ length key.now }
    ensures key { take result buf.new ≡ key.now }
    ensures rest { drop result buf.new ≡ replicate (CAPACITY - result) 0 }
{
    let len = key.len();
    buf.fill(0);
    buf[..len].copy_from_slice(key);
    len as u32
}

impl LuksrdVolume {
    /// Stores an open volume: its payload's segment, the number of the key slot that opened, and
    /// the volume key.
    pub(crate) fn store(&mut self, segment: &Segment, slot: u8, key: &[u8])
        requires { length key.now ≤ CAPACITY }
        ensures { FilledBy self.new segment.now slot key.now }
    {
        self.offset = segment.offset;
        self.has_size = u32::from(segment.size.is_some());
        self.size = segment.size.unwrap_or(0);
        self.iv_tweak = segment.iv_tweak;
        self.sector_size = segment.sector_size.bytes() as u32;
        self.mode = number_of_mode(segment.mode);
        self.key_size = write_key(&mut self.key, key);
        self.key_slot = u32::from(slot);
        self.reserved = 0;
    }

    /// Fills the struct with zeros.
    pub(crate) fn clear(&mut self)
        ensures { IsCleared self.new }
    {
        self.offset = 0;
        self.size = 0;
        self.iv_tweak = 0;
        self.has_size = 0;
        self.sector_size = 0;
        self.mode = 0;
        self.key_size = 0;
        self.key_slot = 0;
        self.reserved = 0;
        self.key.fill(0);
    }
}
