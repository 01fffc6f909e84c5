//! Which slots can be tried and where the payload is, each bound from both sides.

use super::fixture::{first, verdicts};
use crate::tests::shared::{assert_in, assert_of};
use luks_cipher::Mode;
use luks_header::derivation::{Derivation, Limits};
use luks_header::header::Header;
use luks_header::header_digests::{KeyDigest, digest_for};
use luks_header::header_segment::segment;
use luks_header::header_slots::{Slot, Verdict, VerdictKind, slot, verdict_kind};
use luks_header::refusal::{SegmentFault, SkipReason};
use luks_header::sector_size::SectorSize;
use luks_kdf::Hash;
use std::process::Abort;

pub(super) const STATE: usize = 208;

pub(super) const ITERATIONS: usize = 212;

pub(super) const SLOT_OFFSET: usize = 248;

pub(super) const STRIPES: usize = 252;

pub(super) const PAYLOAD_OFFSET: usize = 104;

pub(super) const KEY_BYTES: usize = 108;

pub(super) const DIGEST_ITERATIONS: usize = 164;

// Whether there is what is needed to open a slot.
pub(super) fn is_there(rt: &(impl Abort + AllocGlobal), header: &Header, number: u8) -> bool {
    slot(rt.alloc(), header, Limits::without_argon2(None), number)
        .expect(rt, "memory")
        .is_some()
}

// Whether a slot has a digest.
pub(super) fn has_digest(rt: &(impl Abort + AllocGlobal), header: &Header, number: u8) -> bool {
    digest_for(rt.alloc(), header, number)
        .expect(rt, "memory")
        .is_some()
}

fn word(verdict: &Verdict) -> &'static str {
    match verdict {
        Verdict::Usable(_) => "usable",
        Verdict::Disabled => "disabled",
        Verdict::Skipped(reason) => reason.text(),
    }
}

/// Numbers at offsets of the header.
pub(super) type Numbers = &'static [(usize, u32)];

const FAR: (usize, u32) = (PAYLOAD_OFFSET, 100_000);

// If several reasons hold, the first in the format's table counts.
const NO_DIGEST: (usize, u32) = (DIGEST_ITERATIONS, 0);

const NO_AREA: (usize, u32) = (SLOT_OFFSET, 1);

const NO_ITERATIONS: (usize, u32) = (ITERATIONS, 0);

const NO_STRIPES: (usize, u32) = (STRIPES, 0);

/// Numbers, the limit of iterations, and the verdict on slot 0.
type SlotVerdict = (Numbers, Option<u32>, &'static str);

static SLOTS: [SlotVerdict; 36] = [
    (&[], None, "usable"),
    (&[(STATE, 1)], None, "state"),
    (&[(STATE, 0xdead)], None, "disabled"),
    (&[(STRIPES, 0)], None, "stripes"),
    (&[(STRIPES, 1)], None, "usable"),
    (&[(STRIPES, 4000)], None, "usable"),
    (&[(STRIPES, 4001)], None, "stripes"),
    (&[(STRIPES, 0xffff_ffff)], None, "stripes"),
    (&[(ITERATIONS, 0)], None, "iterations"),
    (&[(ITERATIONS, 1)], None, "usable"),
    (&[(ITERATIONS, 0xffff_ffff)], None, "usable"),
    (&[(DIGEST_ITERATIONS, 0)], None, "digest"),
    (&[(DIGEST_ITERATIONS, 1)], None, "usable"),
    // A limit bounds the slot and the digest.
    (&[], Some(1000), "usable"),
    (&[], Some(999), "iterations"),
    (&[(ITERATIONS, 1001)], Some(1000), "iterations"),
    (&[(ITERATIONS, 999)], Some(999), "digest"),
    (&[(DIGEST_ITERATIONS, 1001)], Some(1000), "digest"),
    (&[(DIGEST_ITERATIONS, 0)], Some(1000), "digest"),
    (&[(SLOT_OFFSET, 1)], None, "area"),
    (&[(SLOT_OFFSET, 2)], None, "usable"),
    (&[(SLOT_OFFSET, 3596)], None, "usable"),
    (&[(SLOT_OFFSET, 3597)], None, "area"),
    (&[(SLOT_OFFSET, 0xffff_ffff)], None, "area"),
    (&[(PAYLOAD_OFFSET, 1)], None, "area"),
    (&[(PAYLOAD_OFFSET, 2)], None, "area"),
    (&[(PAYLOAD_OFFSET, 507)], None, "area"),
    (&[(PAYLOAD_OFFSET, 508)], None, "usable"),
    (&[(KEY_BYTES, 0xffff_ffff)], None, "area"),
    (&[FAR, (SLOT_OFFSET, 65_036)], None, "usable"),
    (&[FAR, (SLOT_OFFSET, 65_037)], None, "area"),
    (&[NO_DIGEST, NO_AREA], None, "area"),
    (&[NO_DIGEST, NO_AREA, NO_ITERATIONS], None, "iterations"),
    (
        &[NO_DIGEST, NO_AREA, NO_ITERATIONS, NO_STRIPES],
        None,
        "stripes",
    ),
    (
        &[NO_DIGEST, NO_AREA, NO_ITERATIONS, NO_STRIPES, (STATE, 2)],
        None,
        "state",
    ),
    (
        &[
            NO_DIGEST,
            NO_AREA,
            NO_ITERATIONS,
            NO_STRIPES,
            (STATE, 0xdead),
        ],
        None,
        "disabled",
    ),
];

// The verdicts on the slots of a header with these numbers and texts.
fn verdicts_on(
    rt: &(impl Abort + AllocGlobal),
    numbers: Numbers,
    texts: &[(usize, &[u8])],
    limit: Option<u32>,
) -> &'static [(u8, Verdict)] {
    verdicts(rt, first(rt, numbers, texts), limit)
}

// Whether slot 0 has this verdict, and the others are disabled.
fn are_slots(verdicts: &[(u8, Verdict)], want: &str) -> bool {
    let mut are = verdicts.len() == 8;
    let mut expected = want;
    for (i, (number, verdict)) in verdicts.iter().enumerate() {
        are &= (usize::from(*number) == i) & (word(verdict) == expected);
        expected = "disabled";
    }
    are
}

fn check_slots(rt: &(impl Abort + AllocGlobal), rows: &[SlotVerdict]) {
    for (row, (numbers, limit, want)) in rows.iter().enumerate() {
        let verdicts = verdicts_on(rt, numbers, &[], *limit);
        assert_in(rt, row, are_slots(verdicts, want));
    }
}

#[test]
fn each_bound_of_a_slot(rt: HostRuntime) {
    check_slots(&rt, &SLOTS);
}

// Whether a slot has all parts of the usable slot 0, with this many stripes and this hash function,
// and the header's digest. 3999 stripes of 64 bytes are 499 sectors and seven eighths of one, and
// areas are whole sectors.
fn has_parts(slot: &Slot, stripes: u32, hash: Option<Hash>) -> bool {
    let parts = &slot.parts;
    let numbers = [parts.stripes, parts.key_bytes, parts.area_key_bytes];
    let sizes = [slot.key_material_len(), parts.area_size, parts.area_offset];
    let (salt, value) = (parts.salt.as_slice(), slot.digest.parts.value.as_slice());
    (parts.derivation == Derivation::Pbkdf2(hash, 1000))
        & (numbers == [stripes, 64, 64])
        & (parts.priority == 1)
        & (parts.af_hash == hash)
        & (sizes == [256_000, 256_000, 4096])
        & (parts.area_mode == Some(Mode::XtsPlain64))
        & (salt.len() == 32)
        & (salt.first() == Some(&0x40))
        & (value.last() == Some(&0x13))
}

/// Numbers, the name of the hash, and the stripes and the hash of slot 0.
type Parts = (Numbers, &'static [u8], u32, Option<Hash>);

static USABLE: [Parts; 3] = [
    (&[], b"sha256\0", 4000, Some(Hash::Sha256)),
    (&[(STRIPES, 3999)], b"sha256\0", 3999, Some(Hash::Sha256)),
    (&[], b"whirlpool\0", 4000, None),
];

// Whether the first slot is slot 0, with all those parts.
fn is_usable(verdicts: &[(u8, Verdict)], stripes: u32, hash: Option<Hash>) -> bool {
    match verdicts.first() {
        Some((0, Verdict::Usable(slot))) => has_parts(slot, stripes, hash),
        _ => false,
    }
}

fn check_usable(rt: &(impl Abort + AllocGlobal), rows: &[Parts]) {
    for (row, (numbers, name, stripes, hash)) in rows.iter().enumerate() {
        let verdicts = verdicts_on(rt, numbers, &[(HASH, *name)], None);
        assert_in(rt, row, is_usable(verdicts, *stripes, *hash));
    }
}

// A slot without a known hash gets a verdict all the same.
#[test]
fn a_usable_slot_has_its_numbers(rt: HostRuntime) {
    check_usable(&rt, &USABLE);
}

const NAME: usize = 8;

const MODE: usize = 40;

const HASH: usize = 72;

/// Texts at offsets of the header.
type Texts = &'static [(usize, &'static [u8])];

/// Numbers and texts, and the fault of the segment.
type Fault = (Numbers, Texts, &'static str);

static SEGMENTS: [Fault; 20] = [
    (&[], &[(HASH, b"SHA512\0")], "none"),
    (&[], &[(NAME, b"AES\0")], "encryption"),
    (&[], &[(MODE, b"xts-plain\0")], "none"),
    (&[], &[(MODE, b"cbc-plain64\0")], "key bytes"),
    (&[], &[(MODE, b"cbc-plain\0")], "encryption"),
    (&[], &[(MODE, b"xts-plain64\xff\0")], "encryption"),
    (&[], &[(MODE, b"xts-plain64x\0")], "encryption"),
    (&[], &[(HASH, b"ripemd160\0")], "hash"),
    (&[], &[(HASH, b"sha256\xff\0")], "hash"),
    (&[], &[(HASH, b"\0")], "hash"),
    (
        &[],
        &[(NAME, b"serpent\0"), (HASH, b"ripemd160\0")],
        "encryption",
    ),
    (&[(KEY_BYTES, 32)], &[], "none"),
    (&[(KEY_BYTES, 48)], &[], "key bytes"),
    (&[(KEY_BYTES, 0)], &[], "key bytes"),
    (&[(KEY_BYTES, 0x4000_0000)], &[], "key bytes"),
    (&[(PAYLOAD_OFFSET, 0)], &[], "offset"),
    (&[(PAYLOAD_OFFSET, 1)], &[], "offset"),
    (&[(PAYLOAD_OFFSET, 2)], &[], "none"),
    (&[(KEY_BYTES, 48), (PAYLOAD_OFFSET, 1)], &[], "key bytes"),
    (
        &[(KEY_BYTES, 48), (PAYLOAD_OFFSET, 1)],
        &[(HASH, b"md5\0")],
        "hash",
    ),
];

// The fault of a header's segment.
pub(super) fn fault_of(header: &Header) -> &'static str {
    match segment(header) {
        Ok(_) => "none",
        Err(fault) => fault.text(),
    }
}

fn check_segments(rt: &(impl Abort + AllocGlobal), rows: &[Fault]) {
    for (row, (numbers, texts, want)) in rows.iter().enumerate() {
        let fault = fault_of(first(rt, numbers, texts));
        assert_in(rt, row, fault == *want);
    }
}

#[test]
fn each_bound_of_a_segment(rt: HostRuntime) {
    check_segments(&rt, &SEGMENTS);
}

// The payload's sector, and its byte.
static OFFSETS: [(u32, u64); 2] = [(4096, 2_097_152), (0xffff_ffff, 2_199_023_255_040)];

// Whether a header has a segment from this byte to the image's end.
fn goes_to_the_end(header: &Header, offset: u64) -> bool {
    match segment(header) {
        Ok(segment) => {
            ([segment.offset, segment.iv_tweak] == [offset, 0])
                & segment.size.is_none()
                & (segment.mode == Mode::XtsPlain64)
                & (segment.sector_size == SectorSize::B512)
        }
        Err(_) => false,
    }
}

#[test]
fn a_segment_goes_to_the_images_end(rt: HostRuntime) {
    for (sector, offset) in &OFFSETS {
        let header = first(&rt, &[(PAYLOAD_OFFSET, *sector)], &[]);
        assert_of(&rt, "a segment", goes_to_the_end(header, *offset));
    }
}

#[test]
fn refusals_have_their_texts(rt: HostRuntime) {
    let skips = [SkipReason::Kind.text(), SkipReason::KeySize.text()];
    assert_of(&rt, "skips", skips == ["type", "key size"]);
    let faults = [SegmentFault::Kind.text(), SegmentFault::SectorSize.text()];
    assert_of(&rt, "faults", faults == ["type", "sector size"]);
}

const SKIPPED: VerdictKind = VerdictKind::Skipped(SkipReason::Iterations);

type VerdictRow = (Option<u32>, u8, Option<VerdictKind>);

// The limit of iterations, a slot's number, and the verdict on it without its contents. A number
// that is no slot of the format has nothing to open.
static VERDICTS: [VerdictRow; 7] = [
    (None, 0, Some(VerdictKind::Usable(1))),
    (Some(999), 0, Some(SKIPPED)),
    (None, 7, Some(VerdictKind::Disabled)),
    (None, 8, None),
    (None, 31, None),
    (None, 32, None),
    (None, 255, None),
];

fn check_verdict_kinds(rt: &(impl Abort + AllocGlobal), header: &Header, rows: &[VerdictRow]) {
    for (limit, number, want) in rows {
        let is_so = verdict_kind(header, Limits::without_argon2(*limit), *number) == *want;
        let there = is_there(rt, header, *number);
        assert_in(rt, usize::from(*number), is_so & ((*number < 8) | !there));
    }
}

#[test]
fn a_slot_has_its_verdict_by_number(rt: HostRuntime) {
    let header = first(&rt, &[], &[]);
    check_verdict_kinds(&rt, header, &VERDICTS);
}

fn has_numbers(digest: &KeyDigest) -> bool {
    let parts = &digest.parts;
    let (salt, value) = (parts.salt.as_slice(), parts.value.as_slice());
    (parts.hash == Some(Hash::Sha256))
        & (parts.iterations == 1000)
        & ([salt.len(), value.len()] == [32, 20])
        & (salt.first() == Some(&0x20))
        & (value.last() == Some(&0x13))
}

fn check_numbers(rt: &(impl Abort + AllocGlobal), header: &Header) {
    let digest = digest_for(rt.alloc(), header, 0).expect(rt, "memory");
    let digest = digest.expect(rt, "a digest");
    assert_of(rt, "numbers", has_numbers(&digest));
}

#[test]
fn a_digest_has_its_numbers(rt: HostRuntime) {
    check_numbers(&rt, first(&rt, &[], &[]));
    let none = first(&rt, &[(DIGEST_ITERATIONS, 0)], &[]);
    assert_of(&rt, "no digest", !has_digest(&rt, none, 0));
    assert_of(&rt, "no slot", !is_there(&rt, none, 0));
}
