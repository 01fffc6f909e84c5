//! Fields at fixed offsets.

ghost use Rattle.std.specs.Prelude.{◌≡◌, ◌+◌, ◌≤◌, length};
ghost use Rattle.luks_format.specs.Fields.{at, be32, be64, text_of};

use crate::text::FixedText;
use byteorder::{BigEndian, ByteOrder};

/// The big-endian number in the four bytes at this offset.
pub fn number_at(bytes: &[u8], offset: usize) -> u32
    requires { offset + 4 ≤ length bytes.now }
    ensures { result ≡ be32 (at offset 4 bytes.now) }
{
    BigEndian::read_u32(&bytes[offset..offset + 4])
}

/// The big-endian number in the eight bytes at this offset.
pub fn number64_at(bytes: &[u8], offset: usize) -> u64
    requires { offset + 8 ≤ length bytes.now }
    ensures { result ≡ be64 (at offset 8 bytes.now) }
{
    BigEndian::read_u64(&bytes[offset..offset + 8])
}

/// The `N` bytes at this offset.
pub fn bytes_at<const N: usize>(bytes: &[u8], offset: usize) -> [u8; N]
    requires { offset + N ≤ length bytes.now }
    ensures { result ≡ at offset N bytes.now }
{
    let mut field = [0; N];
    field.copy_from_slice(&bytes[offset..offset + N]);
    field
}

/// The text in the `N` bytes at this offset.
pub fn text_at<const N: usize>(bytes: &[u8], offset: usize) -> FixedText<N>
    requires { offset + N ≤ length bytes.now }
    ensures { result ≡ text_of (at offset N bytes.now) }
{
    FixedText::new(bytes_at(bytes, offset))
}

/// The `len` bytes from this offset on, or as many of them as there are.
pub fn slice_at(bytes: &[u8], offset: usize, len: usize) -> &[u8]
    ensures { result.now ≡ at offset len bytes.now }
{
    let rest = &bytes[offset.min(bytes.len())..];
    &rest[..len.min(rest.len())]
}
