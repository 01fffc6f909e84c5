//! Images with headers of LUKS2, and what is read from them.
//!
//! If a call must succeed, an error ends the test at once: what is not returned need not be dropped
//! on the way.

use luks_format::area::HeaderArea;
use luks_format::binary_header2::Header2;
use luks_format::fault::HeaderFault;
use luks_header::header::{Header, read_header};
use luks_io::source::Source;
use luks_kdf::{Hash, digest};
use luks_test_support::bytes::{put, range_mut};
use std::alloc::Global;
use std::process::Abort;

/// The JSON text of every header.
pub const JSON: &[u8] =
    b"{\"keyslots\":{},\"tokens\":{},\"segments\":{},\"digests\":{},\"config\":{}}";

/// A header to be written.
#[derive(Clone, Copy)]
pub struct Sketch<'a> {
    pub magic: &'a str,
    pub offset: usize,
    pub size: usize,
    pub sequence: u64,
    pub hash: Hash,
    pub name: &'a str,
}

/// A header of 16,384 bytes with SHA-256 and the sequence number 7, at the image's start.
pub const PRIMARY: Sketch<'static> = Sketch {
    magic: "LUKS",
    offset: 0,
    size: 16_384,
    sequence: 7,
    hash: Hash::Sha256,
    name: "sha256",
};

/// The secondary header after it.
pub const SECONDARY: Sketch<'static> = Sketch {
    magic: "SKUL",
    offset: 16_384,
    ..PRIMARY
};

/// Flips these bits of one byte.
pub fn flip(bytes: &mut [u8], offset: usize, bits: u8) {
    if offset < bytes.len() {
        bytes[offset] ^= bits;
    }
}

// Writes a header into an image, its checksum last.
fn write_header(image: &mut [u8], sketch: Sketch<'_>) {
    let header = range_mut(image, sketch.offset, sketch.size);
    put(header, 0, sketch.magic.as_bytes());
    put(header, 4, &[0xba, 0xbe, 0, 2]);
    put(header, 8, &(sketch.size as u64).to_be_bytes());
    put(header, 16, &sketch.sequence.to_be_bytes());
    put(header, 24, b"label");
    put(header, 72, sketch.name.as_bytes());
    for i in 0..64 {
        put(header, 104 + i as usize, &[i]);
    }
    put(header, 168, b"11111111-2222-3333-4444-555555555555");
    put(header, 208, b"sub");
    put(header, 256, &(sketch.offset as u64).to_be_bytes());
    put(header, 4096, JSON);
    seal(header, sketch.hash);
}

/// Writes the checksum of a header.
pub fn seal(header: &mut [u8], hash: Hash) {
    put(header, 448, &[0; 64]);
    let mut checksum = [0; 64];
    let checksum = &mut checksum[..hash.size()];
    digest(hash, header, b"", b"", checksum);
    put(header, 448, checksum);
}

/// An image of this length with these headers.
pub fn image_of(rt: &(impl Abort + AllocGlobal), len: usize, headers: &[Sketch<'_>]) -> Vec<u8> {
    let mut image = vec![in rt.alloc(); 0; len.max(100_000)].expect(rt, "memory");
    for header in headers {
        write_header(image.as_mut_slice(), *header);
    }
    image.truncate(len);
    image
}

/// The LUKS2 header that is read from a source, and the bytes that were read for it.
pub fn read_from<S: Source>(
    alloc: Global,
    source: &mut S,
) -> Result<(Header2, HeaderArea), HeaderFault> {
    let (header, area) = read_header(alloc, source)?;
    match header {
        Header::V1(_header) => Err(HeaderFault::NotLuks),
        Header::V2(header, _metadata) => Ok((header, area)),
    }
}

/// Why a source cannot be read, if it cannot.
pub fn fault_of<S: Source>(alloc: Global, source: &mut S) -> Option<HeaderFault> {
    read_from(alloc, source).err()
}
