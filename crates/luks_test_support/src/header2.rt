//! Headers of LUKS2 for tests.

use crate::bytes::{put, range_mut};
use luks_kdf::{Hash, digest};
use std::alloc::{AllocError, Global};

/// The length of each header with its JSON area, in bytes. The secondary header is right after the
/// primary one.
pub const SIZE: usize = 16_384;

/// Writes a header with this sequence number and JSON text at an offset of an image. Its checksum
/// is by SHA-256, and written last.
pub fn write_header(image: &mut [u8], offset: usize, sequence: u64, json: &str) {
    let header = range_mut(image, offset, SIZE);
    let magic = if offset == 0 { b"LUKS" } else { b"SKUL" };
    put(header, 0, magic);
    put(header, 4, &[0xba, 0xbe, 0, 2]);
    put(header, 8, &(SIZE as u64).to_be_bytes());
    put(header, 16, &sequence.to_be_bytes());
    put(header, 24, b"a\\label\xc3\n~");
    put(header, 72, b"SHA256");
    put(header, 168, b"11111111-2222-3333-4444-555555555555");
    put(header, 256, &(offset as u64).to_be_bytes());
    put(header, 4096, json.as_bytes());
    let mut checksum = [0; 32];
    digest(Hash::Sha256, header, b"", b"", &mut checksum);
    put(header, 448, &checksum);
}

/// An image of zeros with space for both headers.
pub fn empty_image(alloc: Global) -> Result<Vec<u8>, AllocError> {
    vec![in alloc; 0; 2 * SIZE]
}

/// An image with two headers of these sequence numbers.
pub fn image_of(alloc: Global, first: u64, second: u64, json: &str) -> Result<Vec<u8>, AllocError> {
    let mut image = empty_image(alloc)?;
    write_header(image.as_mut_slice(), 0, first, json);
    write_header(image.as_mut_slice(), SIZE, second, json);
    Ok(image)
}
