//! The digests of a header, and members of key slots whose names are out of range.

use super::fixture::{first, image2, parse};
use crate::tests::shared::{assert_in, assert_of};
use luks_header::header::Header;
use luks_header::header_digests::{Digest, KeyDigest, digests};
use luks_header::header_slots::has_name_out_of_range;
use luks_kdf::Hash;
use std::process::Abort;

// A salt of 8 bytes 01, and a digest of 20 bytes 02, by Python's base64.b64encode.
const USABLE: &str = "{\"type\":\"pbkdf2\",\"keyslots\":[\"7\",\"0\",\"x\"],\
    \"segments\":[\"0\"],\"hash\":\"sha256\",\"iterations\":1000,\
    \"salt\":\"AQEBAQEBAQE=\",\"digest\":\"AgICAgICAgICAgICAgICAgICAgI=\"}";

// The LUKS2 header with these members of `keyslots` and of `digests`.
fn header_of(rt: &(impl Abort + AllocGlobal), keyslots: &str, digests: &[&str]) -> &'static Header {
    let digests = digests.concat(rt.alloc()).expect(rt, "a text");
    let parts = [
        "{\"segments\":{},\"keyslots\":{",
        keyslots,
        "},\"digests\":{",
        digests.as_str(),
        "}}",
    ];
    parse(rt, image2(rt, &parts))
}

type Digests = &'static [(u8, Option<Digest>)];

fn listed(rt: &(impl Abort + AllocGlobal), header: &Header) -> Digests {
    digests(rt.alloc(), header).expect(rt, "memory").leak()
}

// The digests of the LUKS2 header with these members of `digests`.
fn digests_of(rt: &(impl Abort + AllocGlobal), members: &[&str]) -> Digests {
    listed(rt, header_of(rt, "", members))
}

// The iterations of a digest, or 0 if it is not usable.
fn iterations(digest: &Option<Digest>) -> u32 {
    match digest {
        Some(digest) => digest.key.parts.iterations,
        None => 0,
    }
}

// Whether the digests are those of these numbers and iterations.
fn are_all(all: &[(u8, Option<Digest>)], want: &[(u8, u32)]) -> bool {
    let mut are = all.len() == want.len();
    for (i, (number, digest)) in all.iter().enumerate() {
        are &= want.get(i).copied() == Some((*number, iterations(digest)));
    }
    are
}

type Numbered = (&'static [&'static str], &'static [(u8, u32)]);

// Members of `digests`, and the number of each digest with its iterations, or 0 if it is not
// usable.
static DIGESTS: [Numbered; 7] = [
    (&[""], &[]),
    (&["\"0\":", USABLE], &[(0, 1000)]),
    (&["\"31\":", USABLE, ",\"0\":null"], &[(0, 0), (31, 1000)]),
    (
        &["\"10\":", USABLE, ",\"9\":", USABLE, ",\"2\":{}"],
        &[(2, 0), (9, 1000), (10, 1000)],
    ),
    (&["\"32\":", USABLE], &[]),
    (&["\"00\":", USABLE, ",\"+1\":", USABLE], &[]),
    (&["\"3\":", USABLE, ",\"\\u0033\":[]"], &[(3, 0)]),
];

fn check_digests(rt: &(impl Abort + AllocGlobal), rows: &[Numbered]) {
    for (row, (members, want)) in rows.iter().enumerate() {
        assert_in(rt, row, are_all(digests_of(rt, members), want));
    }
}

// Digests are listed by ascending number, whatever their order. Names that are no number below 32
// are ignored.
#[test]
fn digests_by_ascending_number(rt: HostRuntime) {
    check_digests(&rt, &DIGESTS);
}

// The members under the numbers from 0 to 33.
const NUMBERED: &str = "\"0\":0,\"1\":0,\"2\":0,\"3\":0,\"4\":0,\"5\":0,\"6\":0,\"7\":0,\
    \"8\":0,\"9\":0,\"10\":0,\"11\":0,\"12\":0,\"13\":0,\"14\":0,\"15\":0,\"16\":0,\"17\":0,\
    \"18\":0,\"19\":0,\"20\":0,\"21\":0,\"22\":0,\"23\":0,\"24\":0,\"25\":0,\"26\":0,\"27\":0,\
    \"28\":0,\"29\":0,\"30\":0,\"31\":0,\"32\":0,\"33\":0";

// Whether the digests are those from 0 to 31, none of which is usable.
fn are_numbered(all: &[(u8, Option<Digest>)]) -> bool {
    let mut are = all.len() == 32;
    for (i, (number, digest)) in all.iter().enumerate() {
        are &= (usize::from(*number) == i) & digest.is_none();
    }
    are
}

#[test]
fn digests_are_no_more_than_32(rt: HostRuntime) {
    let all = digests_of(&rt, &[NUMBERED]);
    assert_of(&rt, "digests", are_numbered(all));
}

// Whether a digest lists these key slots and segment 0.
fn has_names(digest: &Digest) -> bool {
    match (digest.keyslots.as_slice(), digest.segments.as_slice()) {
        ([first, second, third], [segment]) => {
            [first.as_str(), second.as_str(), third.as_str()] == ["7", "0", "x"]
                && segment.as_str() == "0"
        }
        _ => false,
    }
}

fn has_parts(key: &KeyDigest) -> bool {
    let parts = &key.parts;
    (parts.hash == Some(Hash::Sha256))
        & (parts.iterations == 1000)
        & (parts.salt.as_slice() == [1u8; 8].as_slice())
        & (parts.value.as_slice() == [2u8; 20].as_slice())
}

#[test]
fn a_digest_has_its_parts_and_names(rt: HostRuntime) {
    let all = digests_of(&rt, &["\"5\":", USABLE]);
    let Some((5, Some(digest))) = all.first() else {
        panic!(rt; "no digest 5");
    };
    assert_of(&rt, "parts", has_parts(&digest.key));
    assert_of(&rt, "names", has_names(digest));
}

#[test]
fn luks1_numbers_no_digest(rt: HostRuntime) {
    let header = first(&rt, &[], &[]);
    assert_of(&rt, "digests", listed(&rt, header).is_empty());
    assert_of(&rt, "names", !has_name_out_of_range(header));
}

// Members of `keyslots`, and whether one is ignored.
static KEYSLOTS: [(&str, bool); 10] = [
    ("", false),
    ("\"0\":null", false),
    ("\"31\":{},\"9\":0", false),
    ("\"\\u0037\":{}", false),
    ("\"32\":{}", true),
    ("\"00\":{}", true),
    ("\"+1\":{}", true),
    ("\"\":{}", true),
    ("\"0\":{},\"31\":{},\"x\":{}", true),
    ("\"255\":{},\"0\":{}", true),
];

// Checks whether a name in `keyslots` is out of range. Members of `digests` do not count.
fn check_names(rt: &(impl Abort + AllocGlobal), rows: &[(&str, bool)], digest: &str) {
    for (members, want) in rows {
        let header = header_of(rt, members, &[digest]);
        assert_of(rt, members, has_name_out_of_range(header) == *want);
    }
}

#[test]
fn names_of_key_slots_out_of_range(rt: HostRuntime) {
    for digest in ["\"0\":{}", "\"32\":{}"] {
        check_names(&rt, &KEYSLOTS, digest);
    }
}
