//! Reading headers, and areas that grow.

use super::fixture::{check_fault, header_bytes, read_from};
use crate::tests::shared::{assert_in, assert_of};
use luks_header::area::HeaderArea;
use luks_header::fault::HeaderFault;
use luks_header::header::{Header, Header1, SlotState, StoredSlot, read_header};
use luks_io::memory::MemSource;
use luks_io::source::Source;
use luks_test_support::bytes::put;
use luks_test_support::devices::FlakySource;
use std::process::Abort;

/// A key slot: its state, its iterations, offset and stripes, and the first byte of its salt and
/// the last one.
type ExpectedSlot = (SlotState, [u32; 3], [u8; 2]);

static SLOTS: [ExpectedSlot; 8] = [
    (SlotState::Enabled, [1_000_001, 8, 4000], [0x40, 0x5f]),
    (SlotState::Disabled, [0, 512, 4000], [0, 0]),
    (SlotState::Damaged(1), [2, 3, 4], [1, 1]),
    (SlotState::Damaged(0x00ac_71f2), [0, 0, 0], [0, 0]),
    (SlotState::Damaged(0xadde), [0, 0, 0], [0, 0]),
    (SlotState::Damaged(0xf371_ac00), [0, 0, 0], [0, 0]),
    (SlotState::Damaged(0), [0, 0, 0], [0, 0]),
    (
        SlotState::Enabled,
        [0x7fff_ffff, 0xffff_fffe, 0xffff_ffff],
        [0x80, 0x9f],
    ),
];

// The salts of slots 1 and 2 are the same in each byte.
static SALTS: [[u8; 32]; 2] = [[0; 32], [1; 32]];

fn has_slots(slots: &[StoredSlot; 8]) -> bool {
    let mut has = [slots[1].salt, slots[2].salt] == SALTS;
    for (i, (state, numbers, ends)) in SLOTS.iter().enumerate() {
        let slot = slots[i];
        has &= (slot.state == *state)
            & ([slot.iterations, slot.offset, slot.stripes] == *numbers)
            & ([slot.salt[0], slot.salt[31]] == *ends);
    }
    has
}

static TEXTS: [&[u8]; 4] = [
    b"aes",
    b"xts-plain64",
    b"sha256",
    b"0123456789abcdefghijklmnopqrstuvwxyzABCD",
];

// Whether the header has these texts; the payload's offset, the length of the key and the
// iterations of the digest; and the first byte and the last one of the digest and of its salt.
fn has_fields(header: &Header1) -> bool {
    let texts = [
        header.cipher_name.as_bytes(),
        header.cipher_mode.as_bytes(),
        header.hash_spec.as_bytes(),
        header.uuid.as_bytes(),
    ];
    let numbers = [
        header.payload_offset,
        header.key_bytes,
        header.digest_iterations,
    ];
    let ends = [
        header.digest[0],
        header.digest[19],
        header.digest_salt[0],
        header.digest_salt[31],
    ];
    (texts == TEXTS) & (numbers == [0x0001_2003, 64, 0x0102_0304]) & (ends == [0, 19, 0x20, 0x3f])
}

fn is_the_header(header: &Header) -> bool {
    match header {
        Header::V1(first) => has_fields(first) & has_slots(&first.slots),
        Header::V2(_, _) => false,
    }
}

// Checks that the header is read from such a source, and that the area has its bytes.
fn check_reading<S: Source>(rt: &(impl Abort + AllocGlobal), source: &mut S, bytes: &[u8; 592]) {
    let (header, area) = read_from(rt, source);
    assert_of(rt, "header", is_the_header(header));
    assert_of(rt, "area", area == bytes.as_slice());
}

fn check_pieces(rt: &(impl Abort + AllocGlobal), bytes: &[u8; 592]) {
    for piece in [1, 591, 5000] {
        check_reading(rt, &mut FlakySource::new(bytes, piece, u64::MAX), bytes);
    }
}

#[test]
fn a_header_is_read_to_its_end(rt: HostRuntime) {
    let bytes = header_bytes();
    let mut longer = [7; 593];
    longer[..592].copy_from_slice(&bytes);
    let mut source = MemSource::new(&longer);
    check_reading(&rt, &mut source, &bytes);
    assert_of(&rt, "left", source.left() == [7].as_slice());
    check_reading(&rt, &mut MemSource::new(&bytes), &bytes);
    check_pieces(&rt, &bytes);
}

/// A byte at an offset of the header, how many bytes of the header there are, and the fault.
type Row = (Option<(usize, u8)>, usize, HeaderFault);

// Version 2 and version 257, and the magic of a secondary header.
static FAULTS: [Row; 8] = [
    (None, 0, HeaderFault::NotLuks),
    (None, 7, HeaderFault::NotLuks),
    (None, 8, HeaderFault::Cut),
    (None, 20, HeaderFault::Cut),
    (None, 591, HeaderFault::Cut),
    (Some((7, 2)), 592, HeaderFault::NotLuks),
    (Some((6, 1)), 592, HeaderFault::NotLuks),
    (Some((0, 0x53)), 592, HeaderFault::NotLuks),
];

// Checks that the whole image is read before its fault is reported.
fn check_row(rt: &(impl Abort + AllocGlobal), (change, len, fault): &Row) {
    let mut image = header_bytes();
    if let Some((offset, byte)) = change {
        put(&mut image, *offset, &[*byte]);
    }
    check_fault(rt, &image[..*len.min(&592)], *fault, 0);
}

fn check_rows(rt: &(impl Abort + AllocGlobal), rows: &[Row]) {
    for row in rows {
        check_row(rt, row);
    }
}

#[test]
fn other_images_are_truncated_or_not_luks(rt: HostRuntime) {
    check_rows(&rt, &FAULTS);
    // A short image is read to its end before it is reported to have no header.
    for len in [592, 600] {
        check_fault(&rt, &[0; 600][..len], HeaderFault::NotLuks, 0);
    }
}

const START: &[u8] = b"LUKS\xba\xbe\x00\x01aes";

// Checks that reading reports this fault if this call of the source fails.
fn check_failed(
    rt: &(impl Abort + AllocGlobal),
    (bytes, piece, call): (&[u8], usize, u64),
    fault: HeaderFault,
) {
    let mut source = FlakySource::new(bytes, piece, call);
    let answer = read_header(rt.alloc(), &mut source).err();
    assert_in(rt, call as usize, answer == Some(fault));
}

// The end of the image is no failed read.
#[test]
fn a_failed_read_is_reported(rt: HostRuntime) {
    let bytes = header_bytes();
    for call in [0, 1, 7, 591] {
        check_failed(&rt, (&bytes, 1, call), HeaderFault::Read);
    }
    check_failed(&rt, (START, 100, 2), HeaderFault::Cut);
}

const DIGITS: &[u8] = b"0123456789";

type Request = (usize, bool, usize);

// How many bytes are requested, whether they are there, and how many are loaded afterwards. One
// request is for fewer bytes than are loaded, and one for as many.
static LACKING: [Request; 8] = [
    (0, true, 0),
    (4, true, 4),
    (3, true, 4),
    (4, true, 4),
    (9, true, 9),
    (10, true, 10),
    (11, false, 10),
    (HeaderArea::MAX_LEN, false, 10),
];

// Whether the area has the first bytes afterwards, and the others remain in the source.
fn loads(area: &mut HeaderArea, source: &mut MemSource<'_>, (end, there, len): &Request) -> bool {
    let whole = area.extend_to(source, *end.min(&HeaderArea::MAX_LEN));
    let (prefix, rest) = DIGITS.split_at(*len.min(&10));
    (whole == Ok(*there)) & ([area.as_slice(), source.left()] == [prefix, rest])
}

fn check_lacking(rt: &(impl Abort + AllocGlobal), rows: &[Request]) {
    let mut source = MemSource::new(DIGITS);
    let mut area = HeaderArea::new(rt.alloc());
    assert_of(rt, "none", area.as_slice().is_empty());
    for (row, request) in rows.iter().enumerate() {
        assert_in(rt, row, loads(&mut area, &mut source, request));
    }
}

#[test]
fn an_area_loads_what_it_lacks(rt: HostRuntime) {
    check_lacking(&rt, &LACKING);
}

#[test]
fn an_area_keeps_what_came_before_a_failed_read(rt: HostRuntime) {
    let mut source = FlakySource::new(DIGITS, 2, 3);
    let mut area = HeaderArea::new(rt.alloc());
    let answers = [
        area.extend_to(&mut source, 3),
        area.extend_to(&mut source, 10),
    ];
    assert_of(
        &rt,
        "answers",
        answers == [Ok(true), Err(HeaderFault::Read)],
    );
    assert_of(&rt, "area", area.as_slice() == b"01234".as_slice());
}
