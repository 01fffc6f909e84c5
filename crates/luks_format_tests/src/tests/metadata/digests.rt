//! Which digests are usable, and which one a slot is opened against.

use super::fixture::{ATTACHED, joined, metadata};
use super::tables::{Subject, check_rows};
use crate::tests::shared::assert_of;
use luks_format::derivation::Limits;
use luks_format::digest::KeyDigest;
use luks_format::refusal::SkipReason;
use luks_format::slot::VerdictKind;
use luks_kdf::Hash;
use luks2_json::tree::Metadata;
use luks2_metadata::bounds::Bounds;
use luks2_metadata::luks2_digest::{Digest, digest_for, digests};
use luks2_metadata::luks2_slot::verdict_kind;
use std::process::Abort;

const NO_USABLE_DIGEST: VerdictKind = VerdictKind::Skipped(SkipReason::Digest);

// The iterations of the digest of a slot, if it has one.
fn iterations(rt: &(impl Abort + AllocGlobal), metadata: &Metadata, slot: u8) -> Option<u32> {
    match digest_for(rt.alloc(), metadata, slot).expect(rt, "memory") {
        Some(key) => Some(key.parts.iterations),
        None => None,
    }
}

fn listed(rt: &(impl Abort + AllocGlobal), metadata: &Metadata) -> &'static [(u8, Option<Digest>)] {
    digests(rt.alloc(), metadata).expect(rt, "memory").leak()
}

// Whether the first digest is listed as usable, if there is one.
fn first_usable(rt: &(impl Abort + AllocGlobal), metadata: &Metadata) -> Option<bool> {
    match listed(rt, metadata).first() {
        Some((_, listed)) => Some(listed.is_some()),
        None => None,
    }
}

/// Whether the first digest is usable, and how many iterations the digest of slot 2 has. The
/// verdict on the slot agrees with that.
pub(super) fn verdict(
    rt: &(impl Abort + AllocGlobal),
    metadata: &Metadata,
    bounds: Bounds,
) -> &'static str {
    let found = iterations(rt, metadata, 2);
    let kind = if found.is_some() {
        VerdictKind::Usable(1)
    } else {
        NO_USABLE_DIGEST
    };
    let agrees = verdict_kind(metadata, bounds, Limits::without_argon2(None), 2) == Some(kind);
    assert_of(rt, "the slot's verdict", agrees);
    match (first_usable(rt, metadata), found) {
        (Some(true), Some(1)) => "1",
        (Some(true), Some(7)) => "7",
        (Some(true), Some(1000)) => "1000",
        (Some(true), Some(4_294_967_295)) => "4294967295",
        (Some(true), None) => "of others",
        (Some(false), Some(1000)) => "refused, then 1000",
        (Some(false), None) => "refused",
        _ => "another",
    }
}

// "02" is not slot 2, and a digest that lists no segment 0 is not one of the slot. Lengths are by
// Python's base64.b64encode(b'\x02' * n).
const ROWS: &str = "\
    refused: 'type':'pbkdf2' -> 'type':'sha256'\n\
    refused: 'type':'pbkdf2' -> 'type':null\n\
    refused: 'digests':{'0':{'type':'pbkdf2' -> 'digests':{'0':{'x':'pbkdf2'\n\
    refused: 'digests':{'0':{'type':'pbkdf2' -> 'digests':{'0':null,'x':{'type':'pbkdf2'\n\
    refused: 'digests':{'0':{'type':'pbkdf2' -> 'digests':{'0':[],'x':{'type':'pbkdf2'\n\
    1000: 'keyslots':['0','2'] -> 'keyslots':['2','x','99']\n\
    refused: 'keyslots':['0','2'] -> 'keyslots':['2',2]\n\
    refused: 'keyslots':['0','2'] -> 'keyslots':'2'\n\
    refused: 'keyslots':['0','2'] -> 'keyslots':null\n\
    refused: 'keyslots':['0', -> 'x':[\n\
    1000: 'segments':['0'] -> 'segments':['1','0']\n\
    refused: 'segments':['0'] -> 'segments':['0',null]\n\
    refused: 'segments':['0'] -> 'segments':{'0':'0'}\n\
    refused: 'segments': -> 'x':\n\
    1000: 'hash':'sha256' -> 'hash':'Sha512'\n\
    refused: 'hash':'sha256' -> 'hash':'md5'\n\
    refused: 'hash':'sha256' -> 'hash':null\n\
    refused: ['0'],'hash':'sha256' -> ['0']\n\
    1: ['0'],'hash':'sha256','iterations':1000 -> ['0'],'hash':'sha256','iterations':1\n\
    4294967295: ['0'],'hash':'sha256','iterations':1000 \
     -> ['0'],'hash':'sha256','iterations':4294967295\n\
    refused: ['0'],'hash':'sha256','iterations':1000 \
     -> ['0'],'hash':'sha256','iterations':4294967296\n\
    refused: ['0'],'hash':'sha256','iterations':1000 -> ['0'],'hash':'sha256','iterations':0\n\
    refused: ['0'],'hash':'sha256','iterations':1000 -> ['0'],'hash':'sha256','iterations':1e3\n\
    refused: ['0'],'hash':'sha256','iterations':1000 -> ['0'],'hash':'sha256','iterations':'1000'\n\
    refused: 'hash':'sha256','iterations':1000 -> 'hash':'sha256'\n\
    refused: 'digest':'AgICAgICAgICAgICAgICAgICAgICAgICAgICAgICAgI=' -> 'digest':''\n\
    refused: 'digest':'AgICAgICAgICAgICAgICAgICAgICAgICAgICAgICAgI=' \
     -> 'digest':'AgICAgICAgICAgICAgICAgICAg=='\n\
    1000: 'digest':'AgICAgICAgICAgICAgICAgICAgICAgICAgICAgICAgI=' \
     -> 'digest':'AgICAgICAgICAgICAgICAgICAgI='\n\
    refused: 'digest':'AgICAgICAgICAgICAgICAgICAgICAgICAgICAgICAgI=' \
     -> 'digest':'AgICAgICAgICAgICAgICAgICAgI'\n\
    1000: 'digest':'AgICAgICAgICAgICAgICAgICAgICAgICAgICAgICAgI=' \
     -> 'digest':'AgICAgICAgICAgICAgICAgICAgICAgICAgICAgICAgICAgICAgICAgICAgICAgICAgICAgICAgICAgIC\
     AgICAg=='\n\
    refused: 'digest':'AgICAgICAgICAgICAgICAgICAgICAgICAgICAgICAgI=' \
     -> 'digest':'AgICAgICAgICAgICAgICAgICAgICAgICAgICAgICAgICAgICAgICAgICAgICAgICAgICAgICAgICAgIC\
     AgICAgI='\n\
    refused: 'digest':'AgICAgICAgICAgICAgICAgICAgICAgICAgICAgICAgI=' -> 'digest':null\n\
    refused: 'digest':'AgICAgICAgICAgICAgICAgICAgICAgICAgICAgICAgI=' -> 'x':1\n\
    of others: 'keyslots':['0','2'] -> 'keyslots':['0','02']\n\
    of others: 'keyslots':['0','2'] -> 'keyslots':[]\n\
    1000: 'keyslots':['0','2'] -> 'keyslots':['\\u0032']\n\
    of others: 'segments':['0'] -> 'segments':['1']\n\
    of others: 'segments':['0'] -> 'segments':[]\n\
    of others: 'segments':['0'] -> 'segments':['00']";

// A second digest of slot 2: its name and that of the first are A and B, until a row changes them.
const SECOND: &str = "'digests':{'0':{ \
    -> 'digests':{'A':{'type':'pbkdf2','keyslots':['2'],'segments':['0'],'hash':'sha1',\
    'salt':'','digest':'AgICAgICAgICAgICAgICAgICAgI=','iterations':7},'B':{; ";

// The digest of a slot is the lowest-numbered usable one that lists the slot and the segment.
static NAMES: [(&str, &str); 7] = [
    ("1000: ", "'A':{ -> '10':{; 'B':{ -> '9':{"),
    ("7: ", "'A':{ -> '9':{; 'B':{ -> '10':{"),
    ("7: ", "'A':{ -> '0':{; 'B':{ -> '31':{"),
    ("1000: ", "'A':{ -> '32':{; 'B':{ -> '31':{"),
    ("1000: ", "'A':{ -> '00':{; 'B':{ -> '31':{"),
    (
        "refused, then 1000: ",
        "'A':{ -> '0':{; 'iterations':7 -> 'iterations':0; 'B':{ -> '31':{",
    ),
    ("7: ", "'A':{ -> '0':{'salt':1,; 'B':{ -> '31':{"),
];

#[test]
fn which_digest_a_slot_has(rt: HostRuntime) {
    check_rows(&rt, Subject::Digest, ROWS);
    for (want, names) in &NAMES {
        let row = joined(&rt, &[want, SECOND, names]);
        check_rows(&rt, Subject::Digest, row);
    }
}

fn has_parts(key: &KeyDigest) -> bool {
    let parts = &key.parts;
    (parts.hash == Some(Hash::Sha256))
        & (parts.iterations == 1000)
        & (parts.salt.as_slice() == [1u8; 32].as_slice())
        & (parts.value.as_slice() == [2u8; 32].as_slice())
}

// Whether a digest lists slots 0 and 2 and segment 0.
fn has_names(digest: &Digest) -> bool {
    match (digest.keyslots.as_slice(), digest.segments.as_slice()) {
        ([first, second], [segment]) => {
            let names = [first.as_str(), second.as_str(), segment.as_str()];
            names == ["0", "2", "0"]
        }
        _ => false,
    }
}

// Whether the digest of the text is the only one listed, as number 0.
fn is_listed(all: &[(u8, Option<Digest>)]) -> bool {
    match all {
        [(number, Some(digest))] => { (*number == 0) & has_parts(&digest.key) & has_names(digest) }
        _ => false,
    }
}

#[test]
fn the_digests_as_they_are(rt: HostRuntime) {
    let metadata = metadata(&rt, "");
    let key = digest_for(rt.alloc(), metadata, 2).expect(&rt, "memory");
    assert_of(&rt, "slot 2", has_parts(&key.expect(&rt, "a digest")));
    assert_of(&rt, "slot 0", iterations(&rt, metadata, 0) == Some(1000));
    assert_of(&rt, "slot 1", iterations(&rt, metadata, 1).is_none());
    assert_of(&rt, "listed", is_listed(listed(&rt, metadata)));
}

// The limit bounds the iterations of the digest too.
#[test]
fn limits_on_digests(rt: HostRuntime) {
    let more = metadata(&rt, "'iterations':1000 -> 'iterations':2000");
    let below = verdict_kind(more, ATTACHED, Limits::without_argon2(Some(1999)), 2);
    assert_of(&rt, "1999", below == Some(NO_USABLE_DIGEST));
    let enough = verdict_kind(more, ATTACHED, Limits::without_argon2(Some(2000)), 2);
    assert_of(&rt, "2000", enough == Some(VerdictKind::Usable(1)));
}
