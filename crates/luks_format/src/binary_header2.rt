//! The binary header of LUKS2 (LUKS2 On-Disk Format Specification 1.1, section 2.1).

ghost use Rattle.std.specs.Prelude.{◌≡◌, ◌≤◌, ◌*◌, length};
ghost use Rattle.luks_format.specs.Header2.{checksum_hash_in};
ghost use Rattle.luks_format.specs.Header2.{hdr_offset_in, sequence_in, size_in};
ghost use Rattle.luks_format.specs.Text2.{json_text_of};

use crate::field::{number64_at, slice_at, text_at};
use crate::text::{FixedText, text_before_zero};
use luks_kdf::Hash;

/// The length of a binary header in bytes. Its JSON area follows it.
pub const BINARY_LEN: usize = 4096;

/// Which of the two headers of an image.
#[derive(Clone, Copy, PartialEq, Eq, Debug)]
pub enum HeaderRole {
    /// The one at the image's start.
    Primary,
    /// The one after it, at the offset of its own length.
    Secondary,
}

/// What is wrong with the two headers of an image, although it has a valid one.
#[derive(Clone, Copy, PartialEq, Eq, Debug)]
pub enum PairFinding {
    /// The primary header is not valid; the secondary one was found by the search.
    PrimaryNotValid,
    /// The primary header is valid, and the secondary one is not.
    SecondaryNotValid,
    /// Both are valid, and their sequence numbers differ.
    SequencesDiffer,
}

/// The fields of a header, as they are stored. Its role, the finding and whether it is detached are
/// not stored.
#[derive(Drop, Debug)]
pub struct Header2 {
    /// Which of the two headers it is.
    pub role: HeaderRole,
    /// The length of the header and its JSON area in bytes, 16,384 to 4,194,304.
    pub size: u32,
    /// The number that increases with each change of the header.
    pub sequence: u64,
    /// The volume's label.
    pub label: FixedText<48>,
    /// The hash function of the checksum.
    pub hash: Hash,
    /// Bytes that make the two headers differ.
    pub salt: [u8; 64],
    /// The volume's UUID.
    pub uuid: FixedText<40>,
    /// The volume's subsystem, a second label.
    pub subsystem: FixedText<48>,
    /// What is wrong with the two headers, if anything.
    pub finding: Option<PairFinding>,
    /// Whether the header is detached. No header stores this: it is read as an attached one.
    pub detached: bool,
}

/// The hash function of a header's checksum, if its name is known.
#[tactic(auto, unfolding(crate::specs::Header2::checksum_hash_in))]
pub(crate) fn checksum_hash_in(binary: &[u8]) -> Option<Hash>
    requires { 4096 ≤ length binary.now }
    ensures { result ≡ checksum_hash_in binary.now }
{
    Hash::from_bytes(text_at::<32>(binary, 72).as_bytes())
}

/// The length that a header gives for itself and its JSON area.
#[tactic(auto, unfolding(crate::specs::Header2::size_in))]
pub(crate) fn size_in(binary: &[u8]) -> u64
    requires { 4096 ≤ length binary.now }
    ensures { result ≡ size_in binary.now }
{
    number64_at(binary, 8)
}

/// The sequence number of a header.
#[tactic(auto, unfolding(crate::specs::Header2::sequence_in))]
pub(crate) fn sequence_in(binary: &[u8]) -> u64
    requires { 4096 ≤ length binary.now }
    ensures { result ≡ sequence_in binary.now }
{
    number64_at(binary, 16)
}

/// The offset that a header gives for itself.
#[tactic(auto, unfolding(crate::specs::Header2::hdr_offset_in))]
pub(crate) fn hdr_offset_in(binary: &[u8]) -> u64
    requires { 4096 ≤ length binary.now }
    ensures { result ≡ hdr_offset_in binary.now }
{
    number64_at(binary, 256)
}

impl Header2 {
    /// The offset of the first byte after both headers of the image.
    pub fn end(&self) -> u64
        ensures { result ≡ 2 * self.now.size }
    {
        2 * u64::from(self.size)
    }

    /// The text of its JSON area within the loaded bytes, not a copy: it ends before the first zero
    /// byte or with the area (LUKS2 On-Disk Format Specification 1.1, section 3). `image` is the
    /// start of the image that was read for the header.
    #[tactic(auto, unfolding(crate::specs::Text2::json_text_of))]
    pub fn json_text<'a>(&self, image: &'a [u8]) -> &'a [u8]
        ensures { result.now ≡ json_text_of image.now self.now }
    {
        let size = self.size as usize;
        let start = match self.role {
            HeaderRole::Primary => 0,
            HeaderRole::Secondary => size,
        };
        text_before_zero(slice_at(image, start + BINARY_LEN, size.saturating_sub(BINARY_LEN)))
    }
}
