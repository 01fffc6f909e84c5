//! Where a header may begin, by its magic bytes.

ghost use Rattle.std.specs.Prelude.{◌≡◌, drop, true};
ghost use Rattle.std.specs.List.{list_any};
ghost use Rattle.luks_format.specs.Header2.{sizes};
ghost use Rattle.luks_audit_run.specs.Magic.{IsQuiet, begins_magic, may_have_header};

/// The length of a sector in bytes.
pub(crate) const SECTOR_LEN: usize = 512;

/// The largest offset of a secondary header.
pub(crate) const MAX_SECONDARY_OFFSET: usize = 4_194_304;

/// The first bytes of a LUKS1 header, and of a primary LUKS2 header.
const PRIMARY_MAGIC: [u8; 6] = [0x4c, 0x55, 0x4b, 0x53, 0xba, 0xbe];

/// The first bytes of a secondary LUKS2 header.
const SECONDARY_MAGIC: [u8; 6] = [0x53, 0x4b, 0x55, 0x4c, 0xba, 0xbe];

/// The offsets at which a secondary header may be.
static OFFSETS: [usize; 9] = [
    16_384, 32_768, 65_536, 131_072, 262_144, 524_288, 1_048_576, 2_097_152, 4_194_304,
];

// Whether the bytes begin with the magic bytes of a header.
#[tactic(auto, unfolding(crate::specs::Magic::begins_magic))]
fn begins_magic(bytes: &[u8]) -> bool
    ensures { result ≡ begins_magic bytes.now }
{
    bytes.starts_with(&PRIMARY_MAGIC) || bytes.starts_with(&SECONDARY_MAGIC)
}

// Whether the bytes from this offset on begin with the magic bytes of a header.
fn begins_magic_at(bytes: &[u8], offset: usize) -> bool
    ensures { result ≡ begins_magic (drop offset bytes.now) }
{
    begins_magic(&bytes[offset.min(bytes.len())..])
}

/// Whether no sector begins with the magic bytes of a header.
pub(crate) fn is_quiet(bytes: &[u8]) -> bool
    ensures { result ≡ true → IsQuiet bytes.now }
{
    for sector in 0..bytes.len().div_ceil(SECTOR_LEN) {
        if begins_magic(&bytes[sector * SECTOR_LEN..]) {
            return false;
        }
    }
    true
}

// Whether the magic bytes of a header are at one of these offsets.
fn begins_magic_at_any(bytes: &[u8], offsets: &[usize]) -> bool
    ensures { result ≡ list_any (λ offset. begins_magic (drop offset bytes.now)) offsets.now }
{
    offsets.iter().any(|offset| begins_magic_at(bytes, *offset))
}

// The offsets at which a secondary header may be.
#[tactic(auto, unfolding(luks_format::specs::Header2::sizes))]
fn offsets() -> &'static [usize]
    ensures { result.now ≡ sizes }
{
    &OFFSETS
}

/// Whether a header may begin here. If not, there is none.
#[tactic(auto, unfolding(crate::specs::Magic::may_have_header))]
pub(crate) fn may_have_header(bytes: &[u8]) -> bool
    ensures { result ≡ may_have_header bytes.now }
{
    begins_magic(bytes) || begins_magic_at_any(bytes, offsets())
}
