//! The header of LUKS1 (LUKS1 On-Disk Format Specification 1.2.3).

ghost use Rattle.std.specs.Prelude.{◌≡◌, length};
ghost use Rattle.luks_format.specs.Header1.{header1_of, is_luks1, key_slot_of, key_slots_of};
ghost use Rattle.luks_format.specs.Header1.{slot_state};

use crate::field::{bytes_at, number_at, text_at};
use crate::text::FixedText;

/// The first bytes of a LUKS1 image: the magic bytes and the version 1.
const MAGIC_AND_VERSION: [u8; 8] = [0x4c, 0x55, 0x4b, 0x53, 0xba, 0xbe, 0x00, 0x01];

/// The length of a header in bytes.
pub const HEADER1_LEN: usize = 592;

/// The fields of a header, as they are stored, and whether it is detached.
#[derive(Drop, Debug)]
pub struct Header1 {
    /// The cipher, such as `aes`.
    pub cipher_name: FixedText<32>,
    /// How the cipher is used on sectors, such as `xts-plain64`.
    pub cipher_mode: FixedText<32>,
    /// The hash function of the key slots, the stripes and the digest.
    pub hash_spec: FixedText<32>,
    /// Where the payload starts, in sectors of 512 bytes.
    pub payload_offset: u32,
    /// The length of the volume key in bytes.
    pub key_bytes: u32,
    /// The digest that identifies the volume key.
    pub digest: [u8; 20],
    /// The salt of the digest.
    pub digest_salt: [u8; 32],
    /// The iterations of the digest.
    pub digest_iterations: u32,
    /// The volume's UUID.
    pub uuid: FixedText<40>,
    /// The key slots.
    pub slots: [StoredSlot; 8],
    /// Whether the header is detached. This is not stored: every header is read as an attached one
    /// and marked afterwards.
    pub detached: bool,
}

/// A key slot, as it is stored.
#[derive(Clone, Copy, PartialEq, Eq, Debug)]
pub struct StoredSlot {
    /// Whether it is in use.
    pub state: SlotState,
    /// The iterations of PBKDF2, which derives its key from a passphrase.
    pub iterations: u32,
    /// The salt of PBKDF2, which derives its key from a passphrase.
    pub salt: [u8; 32],
    /// Where its key material starts, in sectors of 512 bytes.
    pub offset: u32,
    /// The number of stripes in the key material.
    pub stripes: u32,
}

/// The state of a key slot.
#[derive(Clone, Copy, PartialEq, Eq, Debug)]
pub enum SlotState {
    /// It has key material.
    Enabled,
    /// It has none.
    Disabled,
    /// The stored number is that of neither state.
    Damaged(u32),
}

impl SlotState {
    /// The state that the number encodes.
    pub fn from_number(number: u32) -> SlotState
        ensures { result ≡ slot_state number }
    {
        match number {
            0x00ac71f3 => SlotState::Enabled,
            0x0000dead => SlotState::Disabled,
            _ => SlotState::Damaged(number),
        }
    }
}

/// Whether an image starts as LUKS1, with the magic bytes and the version 1.
#[tactic(auto, unfolding(crate::specs::Header1::is_luks1))]
pub fn is_header1(image: &[u8]) -> bool
    ensures { result ≡ is_luks1 image.now }
{
    image.starts_with(&MAGIC_AND_VERSION)
}

#[tactic(auto, unfolding(crate::specs::Header1::key_slot_of))]
fn key_slot(bytes: &[u8]) -> StoredSlot
    requires { length bytes.now ≡ 48 }
    ensures { result ≡ key_slot_of bytes.now }
{
    StoredSlot {
        state: SlotState::from_number(number_at(bytes, 0)),
        iterations: number_at(bytes, 4),
        salt: bytes_at(bytes, 8),
        offset: number_at(bytes, 40),
        stripes: number_at(bytes, 44),
    }
}

// The eight key slots of a header.
fn key_slots(bytes: &[u8]) -> [StoredSlot; 8]
    requires { length bytes.now ≡ 592 }
    ensures { result ≡ key_slots_of bytes.now }
{
    [
        key_slot(&bytes[208..256]),
        key_slot(&bytes[256..304]),
        key_slot(&bytes[304..352]),
        key_slot(&bytes[352..400]),
        key_slot(&bytes[400..448]),
        key_slot(&bytes[448..496]),
        key_slot(&bytes[496..544]),
        key_slot(&bytes[544..592]),
    ]
}

impl Header1 {
    /// The header that the bytes encode.
    pub fn from_bytes(bytes: &[u8]) -> Header1
        requires { length bytes.now ≡ 592 }
        ensures { result ≡ header1_of bytes.now }
    {
        Header1 {
            cipher_name: text_at(bytes, 8),
            cipher_mode: text_at(bytes, 40),
            hash_spec: text_at(bytes, 72),
            payload_offset: number_at(bytes, 104),
            key_bytes: number_at(bytes, 108),
            digest: bytes_at(bytes, 112),
            digest_salt: bytes_at(bytes, 132),
            digest_iterations: number_at(bytes, 164),
            uuid: text_at(bytes, 168),
            slots: key_slots(bytes),
            detached: false,
        }
    }
}
