//! Checksums that another program computed, sources that give little or fail, and running out of
//! memory.

use super::fixture::{JSON, PRIMARY, SECONDARY, Sketch, fault_of, flip, image_of, read_from, seal};
use crate::tests::shared::{assert_in, assert_of};
use luks_format::binary_header2::{Header2, HeaderRole, PairFinding};
use luks_format::fault::HeaderFault;
use luks_format::header2_search::{Search, header2};
use luks_io::memory::MemSource;
use luks_kdf::Hash;
use luks_test_support::bytes::{put, range_mut};
use luks_test_support::devices::{BrokenSource, FlakySource};
use luks_test_support::scarce::Scarcity;
use std::alloc::Global;
use std::process::Abort;

// Computed by Python's hashlib over headers that were packed by its struct module: a primary header
// of 16,384 bytes with the sequence number 7.
static CHECKSUMS: [(Hash, &str, &str); 5] = [
    (
        Hash::Sha1,
        "sha1",
        "e8b36ca2b46e0183cc1abb7ed76ca87138c078aa",
    ),
    (
        Hash::Sha224,
        "sha224",
        "b26ae497fc6d3c7fe6e6fd0e0eae4c58f31ffe7c963b14a5833948d3",
    ),
    (
        Hash::Sha256,
        "sha256",
        "008ff92b1b6141d889416af465e2efd0504b86791463427d613a51df176421b4",
    ),
    (
        Hash::Sha384,
        "sha384",
        "f7ce1ab83e41f8327a07d0b4b0b17140a426e14e4881b3a6\
         8ff380f09f4901c37bda7bea87bb4a8f67cc2b68e3a7430c",
    ),
    (
        Hash::Sha512,
        "sha512",
        "f3dedd7e86abe1f182aa5578f70c65264b212da68203852821da29c0745baf28\
         170244c072173a4998a955412cfe34508ba5a3f82e62dc089043aee059f46bcb",
    ),
];

// An image with a primary header whose checksum has this name.
fn image_named(rt: &(impl Abort + AllocGlobal), hash: Hash, name: &str) -> Vec<u8> {
    let primary = Sketch {
        hash,
        name,
        ..PRIMARY
    };
    image_of(rt, 16_384, &[primary])
}

fn check_is_read(rt: &(impl Abort + AllocGlobal), image: &[u8], name: &str, read: bool) {
    let fault = fault_of(rt.alloc(), &mut MemSource::new(image));
    assert_of(rt, name, fault.is_none() == read);
}

// Replaces a header's checksum by the one that the hexadecimal digits represent.
fn put_checksum(header: &mut [u8], hash: Hash, digits: &str) {
    let mut checksum = [0; 64];
    let _ = hex::decode_to_slice(digits, &mut checksum[..hash.size()]);
    put(header, 448, &checksum);
}

// Checks that a whole header is read.
fn check_whole(rt: &(impl Abort + AllocGlobal), image: &[u8], name: &str, hash: Hash) {
    let mut source = MemSource::new(image);
    let (header, _area) = read_from(rt.alloc(), &mut source).expect(rt, "a header");
    assert_of(rt, name, header.hash == hash);
    assert_of(rt, name, image.len() == 16_384 && source.left().len() == 0);
}

// Checks that the bytes after the checksum do not matter, and that its last one does.
fn check_extent(rt: &(impl Abort + AllocGlobal), image: &mut [u8], name: &str, hash: Hash) {
    let size = hash.size();
    if size < 64 {
        put(image, 448 + size, b"x");
        put(image, 511, b"y");
        check_is_read(rt, image, name, true);
    }
    flip(image, 447 + size, 1);
    check_is_read(rt, image, name, false);
}

#[test]
fn checksums_of_another_program_agree(rt: HostRuntime) {
    for (hash, name, digits) in &CHECKSUMS {
        let mut image = image_named(&rt, *hash, name);
        put_checksum(image.as_mut_slice(), *hash, digits);
        check_whole(&rt, &image, name, *hash);
        check_extent(&rt, image.as_mut_slice(), name, *hash);
    }
}

static NAMES: [(&str, bool); 4] = [
    ("SHA256", true),
    ("Sha256", true),
    ("sha-256", false),
    ("", false),
];

#[test]
fn names_of_hashes_are_case_insensitive(rt: HostRuntime) {
    for (name, known) in &NAMES {
        check_is_read(&rt, &image_named(&rt, Hash::Sha256, name), name, *known);
    }
}

fn check_text(rt: &impl Abort, header: &Header2, area: &[u8]) {
    let text = header.json_text(area);
    assert_in(rt, 12_288, text.len() == 12_288);
    assert_in(rt, 0, text.first().copied() == Some(b'j'));
    let short = header.json_text(&area[..area.len().min(16_384)]);
    assert_in(rt, 16_384, short.len() == 0);
}

// A secondary header alone whose JSON area has a letter in each byte.
#[test]
fn a_json_area_without_a_zero_byte_is_text_to_its_end(rt: HostRuntime) {
    let mut image = image_of(&rt, 32_768, &[SECONDARY]);
    let header = range_mut(image.as_mut_slice(), 16_384, 16_384);
    range_mut(header, 4096, 12_288).fill(b'j');
    seal(header, Hash::Sha256);
    let header = header2(&image, Search::new()).expect(&rt, "a header");
    check_text(&rt, &header, &image);
}

// Checks which header is chosen and its finding, in an image with one byte more than is read.
fn check_piece(
    rt: &(impl Abort + AllocGlobal),
    image: &[u8],
    piece: usize,
    want: (HeaderRole, Option<PairFinding>),
) {
    let mut source = FlakySource::new(image, piece, u64::MAX);
    let (header, area) = read_from(rt.alloc(), &mut source).expect(rt, "a header");
    assert_in(rt, piece, source.left() == 1);
    assert_in(rt, piece, (header.role, header.finding) == want);
    assert_in(rt, piece, header.json_text(area.as_slice()) == JSON);
}

#[test]
fn pieces_of_any_length_serve(rt: HostRuntime) {
    let both = image_of(&rt, 32_769, &[PRIMARY, SECONDARY]);
    let alone = image_of(&rt, 32_769, &[SECONDARY]);
    let found = (HeaderRole::Secondary, Some(PairFinding::PrimaryNotValid));
    for piece in [1, 4095, 0] {
        check_piece(&rt, &both, piece, (HeaderRole::Primary, None));
        check_piece(&rt, &alone, piece, found);
    }
}

// A source of 40,000 bytes fails after this many; at most 32,768 are requested.
fn check_failed(rt: &(impl Abort + AllocGlobal), bytes: &[u8], given: usize) {
    let mut source = BrokenSource::new(bytes, given);
    let fault = fault_of(rt.alloc(), &mut source);
    let (want, failures) = if given < 32_768 {
        (Some(HeaderFault::Read), 1)
    } else {
        (None, 0)
    };
    assert_in(rt, given, fault == want);
    assert_in(rt, given, source.counts.failures == failures);
    assert_in(
        rt,
        given,
        source.left() == 40_000usize.saturating_sub(given),
    );
}

#[test]
fn each_failed_read_is_reported(rt: HostRuntime) {
    let both = image_of(&rt, 40_000, &[PRIMARY, SECONDARY]);
    let alone = image_of(&rt, 40_000, &[SECONDARY]);
    for given in [
        0, 591, 592, 4095, 4096, 16_383, 16_384, 20_480, 32_767, 32_768,
    ] {
        check_failed(&rt, &both, given);
        check_failed(&rt, &alone, given);
    }
}

// Reads the header until a run does not run out of memory, and returns how many runs did.
fn failed_runs(alloc: Global, image: &[u8], scarcity: &mut Scarcity, max_runs: u32) -> Option<u32> {
    for refused in 0..max_runs {
        match fault_of(alloc, &mut MemSource::new(image)) {
            None => return Some(refused),
            Some(HeaderFault::Memory) => scarcity.relent(),
            Some(_) => return None,
        }
    }
    None
}

fn scarce_runs(rt: &(impl Abort + AllocGlobal), image: &[u8]) -> Option<u32> {
    let mut scarcity = Scarcity::new(rt.alloc(), 40, 4096).expect(rt, "memory");
    failed_runs(rt.alloc(), image, &mut scarcity, 41)
}

#[test]
fn out_of_memory_is_reported(rt: HostRuntime) {
    let runs = scarce_runs(&rt, &image_of(&rt, 32_768, &[SECONDARY]));
    // This fails if there was a fault other than running out of memory, too little memory was given
    // back, or no run ran out of memory.
    assert!(rt; runs.unwrap_or(0) > 0, "{runs:?}");
}
