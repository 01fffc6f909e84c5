//! Plain bytes, pieces of an image, and changes of them.

ghost use Rattle.std.specs.Prelude.{◌≡◌, IfOk, drop, length, take};

use std::alloc::{AllocError, Global};

/// This many bytes, each one more than the one before, and 0 after 250.
pub fn counted(alloc: Global, len: usize) -> Result<Vec<u8>, AllocError>
    ensures { IfOk result (λ bytes. length bytes.items ≡ len) }
{
    let mut bytes = Vec::new(alloc);
    for i in 0..len {
        bytes.push((i % 251) as u8)?;
    }
    Ok(bytes)
}

/// This many bytes from this offset on, or as many as there are.
pub fn at(image: &[u8], offset: usize, len: usize) -> &[u8]
    ensures { result.now ≡ take len (drop offset image.now) }
{
    let offset = offset.min(image.len());
    let rest = &image[offset..];
    &rest[..len.min(rest.len())]
}

/// Overwrites bytes from an offset on, up to their end.
pub fn put(bytes: &mut [u8], offset: usize, with: &[u8]) {
    let start = offset.min(bytes.len());
    let rest = &mut bytes[start..];
    let count = with.len().min(rest.len());
    rest[..count].copy_from_slice(&with[..count]);
}

/// Overwrites the bytes of an image at each of these offsets.
pub fn put_each(image: &mut [u8], changes: &[(usize, &[u8])]) {
    for (offset, bytes) in changes {
        put(image, *offset, bytes);
    }
}

/// Overwrites the numbers at each of these offsets, in big-endian order.
pub fn put_numbers(bytes: &mut [u8], numbers: &[(usize, u32)]) {
    for (offset, number) in numbers {
        put(bytes, *offset, &number.to_be_bytes());
    }
}

/// This many bytes from an offset on, or as many as there are.
pub fn range_mut(bytes: &mut [u8], offset: usize, len: usize) -> &mut [u8] {
    let start = offset.min(bytes.len());
    let rest = &mut bytes[start..];
    let len = len.min(rest.len());
    &mut rest[..len]
}
