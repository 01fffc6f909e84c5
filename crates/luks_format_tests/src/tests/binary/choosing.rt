//! Which header is chosen, and how many bytes are read for that.

use super::fixture::{JSON, PRIMARY, SECONDARY, Sketch, flip, image_of, read_from};
use crate::tests::shared::assert_in;
use luks_format::binary_header2::{Header2, HeaderRole, PairFinding};
use luks_format::fault::HeaderFault;
use luks_io::memory::MemSource;
use luks_kdf::Hash;
use std::process::Abort;

// Which header is chosen, its length, and its finding; or why there is none.
type Summary = Result<(HeaderRole, u32, Option<PairFinding>), HeaderFault>;

const NONE: Summary = Err(HeaderFault::NotLuks);

// The secondary header is damaged.
const FIRST: Summary = Ok((
    HeaderRole::Primary,
    16_384,
    Some(PairFinding::SecondaryNotValid),
));

// The primary header is damaged.
const SECOND: Summary = Ok((
    HeaderRole::Secondary,
    16_384,
    Some(PairFinding::PrimaryNotValid),
));

const NEXT: Summary = Ok((
    HeaderRole::Secondary,
    32_768,
    Some(PairFinding::PrimaryNotValid),
));

// Checks the answer for an image, and how many bytes are consumed.
fn check(
    rt: &(impl Abort + AllocGlobal),
    case: usize,
    image: &[u8],
    want: Summary,
    consumed: usize,
) {
    let mut source = MemSource::new(image);
    let summary = match read_from(rt.alloc(), &mut source) {
        Ok((header, _area)) => Ok((header.role, header.size, header.finding)),
        Err(fault) => Err(fault),
    };
    assert_in(rt, case, summary == want);
    let left = source.left().len();
    assert_in(rt, case, left == image.len().saturating_sub(consumed));
}

// Checks the fields of the header, and the text in its area.
fn check_header(rt: &impl Abort, header: &Header2, area: &[u8]) {
    let chosen = (header.role, header.size, header.finding);
    assert_in(rt, 8, chosen == (HeaderRole::Primary, 16_384, None));
    assert_in(rt, 16, header.sequence == 7);
    assert_in(rt, 24, header.label.as_bytes() == b"label".as_slice());
    assert_in(rt, 72, header.hash == Hash::Sha256);
    assert_in(rt, 104, [header.salt[0], header.salt[63]] == [0, 63]);
    let uuid = b"11111111-2222-3333-4444-555555555555";
    assert_in(rt, 168, header.uuid.as_bytes() == uuid.as_slice());
    assert_in(rt, 208, header.subsystem.as_bytes() == b"sub".as_slice());
    assert_in(rt, 4096, header.json_text(area) == JSON);
    assert_in(rt, 32_768, area.len() == 32_768);
}

#[test]
fn the_primary_of_two_equal_ones_is_chosen(rt: HostRuntime) {
    let image = image_of(&rt, 40_000, &[PRIMARY, SECONDARY]);
    let mut source = MemSource::new(&image);
    let (header, area) = read_from(rt.alloc(), &mut source).expect(&rt, "a header");
    assert_in(&rt, 0, source.left().len() == 40_000 - 32_768);
    check_header(&rt, &header, area.as_slice());
}

// The secondary header's sequence number, if the primary one's is 7.
static LATER: [(u64, HeaderRole); 5] = [
    (6, HeaderRole::Primary),
    (8, HeaderRole::Secondary),
    (0x0700, HeaderRole::Secondary),
    (u64::MAX, HeaderRole::Secondary),
    (0, HeaderRole::Primary),
];

#[test]
fn the_later_of_two_is_chosen(rt: HostRuntime) {
    for (i, (sequence, role)) in LATER.iter().enumerate() {
        let later = Sketch {
            sequence: *sequence,
            ..SECONDARY
        };
        let image = image_of(&rt, 32_768, &[PRIMARY, later]);
        let want = Ok((*role, 16_384, Some(PairFinding::SequencesDiffer)));
        check(&rt, i, &image, want, 32_768);
    }
}

const BOTH: &[Sketch<'static>] = &[PRIMARY, SECONDARY];

const NEWER: &[Sketch<'static>] = &[
    PRIMARY,
    Sketch {
        sequence: 8,
        ..SECONDARY
    },
];

// The secondary header is at another offset than the primary one's length.
const ELSEWHERE: &[Sketch<'static>] = &[
    PRIMARY,
    Sketch {
        offset: 32_768,
        size: 32_768,
        ..SECONDARY
    },
];

// Two secondary headers, each at its own length.
const TWO: &[Sketch<'static>] = &[
    SECONDARY,
    Sketch {
        offset: 32_768,
        size: 32_768,
        sequence: 9,
        ..SECONDARY
    },
];

// A secondary header that is longer than its offset allows.
const LONG: &[Sketch<'static>] = &[Sketch {
    size: 32_768,
    ..SECONDARY
}];

// A secondary header with the magic of a primary one.
const MAGIC: &[Sketch<'static>] = &[Sketch {
    magic: "LUKS",
    ..SECONDARY
}];

// Changes the length that the primary header has from 16,384 to 1,048,576 bytes.
const LENGTH: &[(usize, u8)] = &[(13, 0x10), (14, 0x40)];

// The headers of an image, the bits that are changed in it, its length, the answer, and how many
// bytes are read for that. The search ends at the first valid header; one that fits but is not
// valid is read to its end, or to the end of the image.
static ROWS: [(&[Sketch<'static>], &[(usize, u8)], usize, Summary, usize); 18] = [
    (NEWER, &[(21_384, 1)], 1_000_000, FIRST, 32_768),
    (NEWER, &[], 20_000, FIRST, 20_000),
    (NEWER, &[], 32_767, FIRST, 32_767),
    (NEWER, &[], 16_384, FIRST, 16_384),
    (ELSEWHERE, &[], 65_536, FIRST, 32_768),
    (BOTH, &[(5_000, 1), (21_384, 1)], 32_768, NONE, 32_768),
    (BOTH, LENGTH, 2_000_000, SECOND, 1_048_576),
    (BOTH, LENGTH, 100_000, SECOND, 100_000),
    (TWO, &[], 100_000, SECOND, 32_768),
    (TWO, &[(32_767, 1)], 100_000, NEXT, 65_536),
    (LONG, &[], 49_152, NONE, 49_152),
    (MAGIC, &[], 32_768, NONE, 32_768),
    (&[], &[], 10_000_000, NONE, 4_198_400),
    (&[], &[], 4_198_400, NONE, 4_198_400),
    (&[], &[], 4_198_399, NONE, 4_198_399),
    (&[], &[], 4096, NONE, 4096),
    (&[], &[], 4095, NONE, 4095),
    (&[], &[], 592, NONE, 592),
];

// An image with these headers and changed bits.
fn image_with(
    rt: &(impl Abort + AllocGlobal),
    len: usize,
    headers: &[Sketch<'_>],
    changes: &[(usize, u8)],
) -> Vec<u8> {
    let mut image = image_of(rt, len, headers);
    for (offset, bits) in changes {
        flip(image.as_mut_slice(), *offset, *bits);
    }
    image
}

#[test]
fn damaged_and_missing_headers(rt: HostRuntime) {
    for (i, (headers, changes, len, want, consumed)) in ROWS.iter().enumerate() {
        let image = image_with(&rt, *len, headers, changes);
        check(&rt, i, &image, *want, *consumed);
    }
}

#[test]
fn the_secondary_of_a_damaged_primary_is_chosen(rt: HostRuntime) {
    // Each of these bytes is hashed or checked.
    for offset in [
        0, 7, 8, 15, 16, 72, 104, 256, 263, 447, 448, 479, 512, 4095, 5_000, 16_383,
    ] {
        let image = image_with(&rt, 32_768, BOTH, &[(offset, 1)]);
        check(&rt, offset, &image, SECOND, 32_768);
    }
}

#[test]
fn lengths_are_the_nine_alone(rt: HostRuntime) {
    for size in [4096, 8192, 20_480, 49_152] {
        let image = image_of(&rt, 100_000, &[Sketch { size, ..PRIMARY }]);
        check(&rt, size, &image, NONE, 100_000);
    }
}

const LENGTHS: [u32; 9] = [
    16_384, 32_768, 65_536, 131_072, 262_144, 524_288, 1_048_576, 2_097_152, 4_194_304,
];

// A secondary header of this length alone, whole and without its last byte; and one with a primary
// header before it.
fn check_length(rt: &(impl Abort + AllocGlobal), length: u32) {
    let size = length as usize;
    let end = size.saturating_mul(2);
    let secondary = Sketch {
        offset: size,
        size,
        ..SECONDARY
    };
    let mut image = image_of(rt, end.saturating_add(1), &[secondary]);
    let found = Ok((
        HeaderRole::Secondary,
        length,
        Some(PairFinding::PrimaryNotValid),
    ));
    check(rt, size, &image, found, end);
    let short = end.saturating_sub(1);
    image.truncate(short);
    check(rt, size, &image, NONE, short);
    let image = image_of(rt, end, &[Sketch { size, ..PRIMARY }, secondary]);
    check(
        rt,
        size,
        &image,
        Ok((HeaderRole::Primary, length, None)),
        end,
    );
}

#[test]
fn each_length_is_found_at_its_offset(rt: HostRuntime) {
    for length in LENGTHS {
        check_length(&rt, length);
    }
}
