//! A header of LUKS1, images of LUKS2, and what is read from them.
//!
//! If a call must succeed, an error ends the test at once: what is not returned need not be dropped
//! on the way. What is returned stays to the end of the test, so that no function drops it.

use crate::tests::shared::{assert_in, kept};
use luks_header::fault::HeaderFault;
use luks_header::header::{Header, read_header};
use luks_header::header_slots::{Verdict, slots};
use luks_io::memory::MemSource;
use luks_io::source::Source;
use luks_test_support::bytes::{put, put_each, put_numbers};
use luks_test_support::header2::image_of;
use std::process::Abort;

// Written by Python's struct module: struct.pack('>6sH32s32s32sII20s32sI40s', ..) and eight times
// struct.pack('>II32sII', ..), with the values that the tests name.
const ROWS: [&str; 37] = [
    "4c554b53babe00016165730000000000",
    "00000000000000000000000000000000",
    "00000000000000007874732d706c6169",
    "6e363400000000000000000000000000",
    "00000000000000007368613235360061",
    "66746572000000000000000000000000",
    "00000000000000000001200300000040",
    "000102030405060708090a0b0c0d0e0f",
    "10111213202122232425262728292a2b",
    "2c2d2e2f303132333435363738393a3b",
    "3c3d3e3f010203043031323334353637",
    "38396162636465666768696a6b6c6d6e",
    "6f707172737475767778797a41424344",
    "00ac71f3000f42414041424344454647",
    "48494a4b4c4d4e4f5051525354555657",
    "58595a5b5c5d5e5f0000000800000fa0",
    "0000dead000000000000000000000000",
    "00000000000000000000000000000000",
    "00000000000000000000020000000fa0",
    "00000001000000020101010101010101",
    "01010101010101010101010101010101",
    "01010101010101010000000300000004",
    "00ac71f2000000000000000000000000",
    "00000000000000000000000000000000",
    "00000000000000000000000000000000",
    "0000adde000000000000000000000000",
    "00000000000000000000000000000000",
    "00000000000000000000000000000000",
    "f371ac00000000000000000000000000",
    "00000000000000000000000000000000",
    "00000000000000000000000000000000",
    "00000000000000000000000000000000",
    "00000000000000000000000000000000",
    "00000000000000000000000000000000",
    "00ac71f37fffffff8081828384858687",
    "88898a8b8c8d8e8f9091929394959697",
    "98999a9b9c9d9e9ffffffffeffffffff",
];

/// The header.
pub fn header_bytes() -> [u8; 592] {
    let mut bytes = [0; 592];
    for (i, row) in ROWS.iter().enumerate() {
        write_row(row, &mut bytes[16 * i..16 * i + 16]);
    }
    bytes
}

// Writes the bytes whose hexadecimal digits are in a row.
fn write_row(row: &str, bytes: &mut [u8]) {
    let _ = hex::decode_to_slice(row, bytes);
}

/// A header whose slot 0 alone is in use: 1000 iterations, 4000 stripes of 64 bytes from sector 8
/// on, a digest with 1000 iterations, the payload from sector 4096 on.
pub fn volume_header() -> [u8; 592] {
    let mut bytes = header_bytes();
    put(&mut bytes, 104, &4096u32.to_be_bytes());
    put(&mut bytes, 164, &1000u32.to_be_bytes());
    put(&mut bytes, 212, &1000u32.to_be_bytes());
    for slot in 1..8 {
        put(&mut bytes, 208 + 48 * slot, &[0, 0, 0xde, 0xad]);
    }
    bytes
}

/// That header with these numbers and texts at these offsets.
pub fn changed(numbers: &[(usize, u32)], texts: &[(usize, &[u8])]) -> [u8; 592] {
    let mut bytes = volume_header();
    put_numbers(&mut bytes, numbers);
    put_each(&mut bytes, texts);
    bytes
}

/// The header that a source gives, and the bytes of its area.
pub fn read_from<S: Source>(
    rt: &(impl Abort + AllocGlobal),
    source: &mut S,
) -> (&'static Header, &'static [u8]) {
    let (header, area) = read_header(rt.alloc(), source).expect(rt, "a header");
    (kept(rt, header), kept(rt, area).as_slice())
}

/// The header of an image.
pub fn read(rt: &(impl Abort + AllocGlobal), image: &[u8]) -> Header {
    let read = read_header(rt.alloc(), &mut MemSource::new(image));
    let (header, _area) = read.expect(rt, "a header");
    header
}

/// The header of an image, which stays to the end of the test.
pub fn parse(rt: &(impl Abort + AllocGlobal), image: &[u8]) -> &'static Header {
    kept(rt, read(rt, image))
}

/// The verdicts on the slots of a header.
pub fn verdicts(
    rt: &(impl Abort + AllocGlobal),
    header: &Header,
    limit: Option<u32>,
) -> &'static [(u8, Verdict)] {
    let verdicts = slots(rt.alloc(), header, limit).expect(rt, "verdicts");
    verdicts.leak()
}

/// The header of LUKS1 with these numbers and texts at these offsets.
pub fn first(
    rt: &(impl Abort + AllocGlobal),
    numbers: &[(usize, u32)],
    texts: &[(usize, &[u8])],
) -> &'static Header {
    parse(rt, &changed(numbers, texts))
}

/// The image of LUKS2 whose text has these parts.
pub fn image2(rt: &(impl Abort + AllocGlobal), parts: &[&str]) -> &'static [u8] {
    let json = parts.concat(rt.alloc()).expect(rt, "a text");
    let image = image_of(rt.alloc(), 1, 1, json.as_str()).expect(rt, "an image");
    image.leak()
}

/// Asserts that reading an image has this fault, and leaves this many of its bytes unread.
pub fn check_fault(rt: &(impl Abort + AllocGlobal), image: &[u8], fault: HeaderFault, left: usize) {
    let mut source = MemSource::new(image);
    let answer = read_header(rt.alloc(), &mut source).err();
    let is_so = (answer == Some(fault)) & (source.left().len() == left);
    assert_in(rt, image.len(), is_so);
}
