//! The reasons to skip a slot, each bound from both sides, attached and detached.

use super::assert_answer;
use super::fixture::{ATTACHED, changed, metadata, read, text_with};
use super::tables::{Subject, check_rows, check_verdicts};
use crate::tests::shared::assert_of;
use luks_cipher::Mode;
use luks_format::derivation::{Derivation, Limits};
use luks_format::slot::{Slot, VerdictKind};
use luks_kdf::Hash;
use luks2_json::tree::Metadata;
use luks2_metadata::bounds::Bounds;
use luks2_metadata::luks2_slot::{slot, verdict_kind};
use std::process::Abort;

/// A verdict in a word.
pub(super) fn word(kind: Option<VerdictKind>) -> &'static str {
    match kind {
        Some(VerdictKind::Usable(0)) => "usable 0",
        Some(VerdictKind::Usable(1)) => "usable 1",
        Some(VerdictKind::Usable(2)) => "usable 2",
        Some(VerdictKind::Usable(_)) => "usable",
        Some(VerdictKind::Disabled) => "disabled",
        Some(VerdictKind::Skipped(reason)) => reason.text(),
        None => "not there",
    }
}

/// The verdict on slot 2. If the slot is skipped for a reason other than a limit, there is nothing
/// to open.
pub(super) fn verdict(
    rt: &(impl Abort + AllocGlobal),
    metadata: &Metadata,
    bounds: Bounds,
) -> &'static str {
    let word = word(verdict_kind(metadata, bounds, Limits::without_argon2(None), 2));
    let slot = slot(
        rt.alloc(),
        metadata,
        bounds,
        Limits::without_argon2(None),
        2,
    )
    .expect(rt, "memory");
    assert_of(rt, word, slot.is_some() == word.starts_with("usable"));
    word
}

// Whether a slot has what is needed to open slot 2 of the text.
fn has_values(slot: &Slot) -> bool {
    let parts = &slot.parts;
    let numbers = [parts.stripes, parts.key_bytes, parts.area_key_bytes];
    let area = [parts.area_offset, parts.area_size, slot.key_material_len()];
    (parts.derivation == Derivation::Pbkdf2(Some(Hash::Sha256), 1000))
        & (parts.af_hash == Some(Hash::Sha512))
        & (numbers == [4000, 64, 64])
        & (parts.priority == 1)
        & (parts.salt.as_slice() == [1u8; 32].as_slice())
        & (area == [32_768, 258_048, 256_000])
        & (parts.area_mode == Some(Mode::XtsPlain64))
        & (slot.digest.parts.value.as_slice() == [2u8; 32].as_slice())
}

// The number of a slot of the text, a limit on iterations, and the verdict on the slot.
static VERDICTS: [(u8, Option<u32>, &str); 9] = [
    (0, None, "argon2id"),
    (1, None, "not there"),
    (2, None, "usable 1"),
    (32, None, "not there"),
    (2, Some(4_294_967_295), "usable 1"),
    (2, Some(1000), "usable 1"),
    (2, Some(999), "iterations"),
    (2, Some(0), "iterations"),
    (0, Some(1), "argon2id"),
];

#[test]
fn the_slots_as_they_are(rt: HostRuntime) {
    let metadata = metadata(&rt, "");
    for (number, limit, want) in &VERDICTS {
        let limits = Limits::without_argon2(*limit);
        let word = word(verdict_kind(metadata, ATTACHED, limits, *number));
        assert_answer(&rt, want, word, want);
    }
    let slot = slot(
        rt.alloc(),
        metadata,
        ATTACHED,
        Limits::without_argon2(None),
        2,
    )
    .expect(&rt, "memory");
    assert_of(&rt, "values", has_values(&slot.expect(&rt, "slot 2")));
}

// The volume key's length is checked against the segment's mode, whatever the area's mode is. If
// the segment is refused, its mode and the payload's start are not known, and key areas end within
// 32 MiB, as they do with a detached header. An area has 256,000 bytes of key material.
const ROWS: &str = "\
    member: 'type':'luks2','key_size' -> 'type':'luks2','x'\n\
    type: 'type':'luks2' -> 'type':'luks1'\n\
    type: 'type':'luks2' -> 'type':null\n\
    type: '2':{'type': -> '2':{'kind':\n\
    type: '2':{'type' -> '2':null,'3':{'type'\n\
    type: '2':{'type' -> '2':'luks2','3':{'type'\n\
    not there: '2':{'type' -> '02':{'type'\n\
    usable 1: '2':{'type' -> '\\u0032':{'type'\n\
    usable 0: 'type':'luks2' -> 'type':'luks2','priority':0\n\
    usable 1: 'type':'luks2' -> 'type':'luks2','priority':1\n\
    usable 2: 'type':'luks2' -> 'type':'luks2','priority':2\n\
    member: 'type':'luks2' -> 'type':'luks2','priority':3\n\
    member: 'type':'luks2' -> 'type':'luks2','priority':-0\n\
    member: 'type':'luks2' -> 'type':'luks2','priority':1.0\n\
    member: 'type':'luks2' -> 'type':'luks2','priority':'1'\n\
    member: 'type':'luks2' -> 'type':'luks2','priority':null\n\
    member: 'type':'luks2' -> 'type':'luks2','priority':18446744073709551616\n\
    usable 1: 'hash':'sha512' -> 'hash':'SHA1'\n\
    usable 1: 'stripes':4000 -> 'stripes':1\n\
    stripes: 'stripes':4000 -> 'stripes':0\n\
    stripes: 'stripes':4000 -> 'stripes':4001\n\
    stripes: 'stripes':4000,'hash':'sha512' -> 'stripes':18446744073709551615,'hash':'sha1'\n\
    stripes: 'stripes':4000 -> 'stripes':4294967297\n\
    hash: 'hash':'sha512' -> 'hash':'ripemd160'\n\
    hash: 'hash':'sha512' -> 'hash':''\n\
    member: 'type':'luks1' -> 'type':'luks2'\n\
    member: 'af':{'type':'luks1', -> 'af':{\n\
    member: 'type':'luks1','stripes':4000 -> 'type':'luks1'\n\
    member: 'stripes':4000 -> 'stripes':'4000'\n\
    member: 'stripes':4000 -> 'stripes':4e3\n\
    member: 'stripes':4000,'hash':'sha512' -> 'stripes':4000\n\
    member: 'hash':'sha512' -> 'hash':null\n\
    member: 'af':{'type':'luks1','stripes':4000,'hash':'sha512'} -> 'af':null\n\
    member: 'af':{'type':'luks1','stripes':4000,'hash':'sha512'} -> 'af':[]\n\
    member: 'af':{'type':'luks1','stripes':4000,'hash':'sha512'} -> 'x':1\n\
    argon2i: 'type':'pbkdf2','hash':'sha256','iterations':1000,'salt':'AQEB \
     -> 'type':'argon2i','x':'\n\
    argon2id: 'type':'pbkdf2','hash':'sha256','iterations':1000,'salt':'AQEB \
     -> 'type':'argon2id','x':'\n\
    kdf: 'type':'pbkdf2','hash':'sha256','iterations':1000,'salt':'AQEB -> 'type':'argon2d','x':'\n\
    kdf: 'type':'pbkdf2','hash':'sha256','iterations':1000,'salt':'AQEB -> 'type':'PBKDF2','x':'\n\
    member: 'type':'pbkdf2','hash':'sha256','iterations':1000,'salt':'AQEB -> 'type':2,'x':'\n\
    member: 'type':'pbkdf2','hash':'sha256','iterations':1000,'salt':'AQEB -> 'type':null,'x':'\n\
    member: 'type':'pbkdf2','hash':'sha256','iterations':1000,'salt':'AQEB -> 'x':'\n\
    member: 'kdf':{'type':'pbkdf2','hash':'sha256','iterations':1000,'salt':'AQEB \
     -> 'kdf':null,'x':{'y':'\n\
    member: 'type':'pbkdf2','hash':'sha256','iterations':1000 \
     -> 'type':'pbkdf2','iterations':1000\n\
    member: 'type':'pbkdf2','hash':'sha256','iterations':1000 \
     -> 'type':'pbkdf2','hash':1,'iterations':1000\n\
    hash: 'type':'pbkdf2','hash':'sha256','iterations':1000 \
     -> 'type':'pbkdf2','hash':'md5','iterations':1000\n\
    usable 1: 'type':'pbkdf2','hash':'sha256','iterations':1000 \
     -> 'type':'pbkdf2','hash':'SHA256','iterations':1\n\
    member: 'type':'pbkdf2','hash':'sha256','iterations':1000 -> 'type':'pbkdf2','hash':'sha1'\n\
    member: 'type':'pbkdf2','hash':'sha256','iterations':1000 \
     -> 'type':'pbkdf2','hash':'sha1','iterations':'5'\n\
    iterations: 'type':'pbkdf2','hash':'sha256','iterations':1000 \
     -> 'type':'pbkdf2','hash':'sha1','iterations':0\n\
    usable 1: 'type':'pbkdf2','hash':'sha256','iterations':1000 \
     -> 'type':'pbkdf2','hash':'sha1','iterations':4294967295\n\
    iterations: 'type':'pbkdf2','hash':'sha256','iterations':1000 \
     -> 'type':'pbkdf2','hash':'sha1','iterations':4294967296\n\
    member: 'type':'pbkdf2','hash':'sha256','iterations':1000,'salt':'AQEB \
     -> 'type':'pbkdf2','hash':'sha1','iterations':9,'x':'AQEB\n\
    member: 'type':'pbkdf2','hash':'sha256','iterations':1000,'salt':'AQEB \
     -> 'type':'pbkdf2','hash':'sha1','iterations':9,'salt':'AQE\n\
    usable 1: 'offset':'32768' -> 'offset':'000032768'\n\
    member: 'offset':'32768' -> 'offset':32768\n\
    member: 'offset':'32768' -> 'off':'32768'\n\
    member: 'type':'raw' -> 'type':'none'\n\
    member: 'area':{'type':'raw', -> 'area':{\n\
    member: 'area': -> 'area':null,'x':\n\
    member: 'area': -> 'x':\n\
    member: 'size':'258048' -> 'size':258048\n\
    member: 'size':'258048' -> 'siz':'258048'\n\
    member: 'size':'258048' -> 'size':''\n\
    member: 'size':'258048' -> 'size':null\n\
    usable 1: 'size':'258048' -> 'size':'256000'\n\
    area: 'size':'258048' -> 'size':'255999'\n\
    area: 'size':'258048' -> 'size':'0'\n\
    usable 1: 'size':'258048' -> 'size':'18446744073709551615'\n\
    area: 'offset':'32768' -> 'offset':'32767'\n\
    usable 1: 'offset':'32768' -> 'offset':'32769'\n\
    area: 'offset':'32768' -> 'offset':'0'\n\
    usable 1: 'offset':'32768' -> 'offset':'16521216'\n\
    area / usable 1: 'offset':'32768' -> 'offset':'16521217'\n\
    area: 'offset':'32768' -> 'offset':'18446744073709551615'\n\
    usable 1: 'encryption':'aes-xts-plain64','key_size':64 \
     -> 'encryption':'aes-xts-plain','key_size':32\n\
    usable 1: 'encryption':'aes-xts-plain64','key_size':64 \
     -> 'encryption':'aes-cbc-plain64','key_size':16\n\
    usable 1: 'encryption':'aes-xts-plain64','key_size':64 \
     -> 'encryption':'aes-cbc-plain64','key_size':32\n\
    key size: 'encryption':'aes-xts-plain64','key_size':64 \
     -> 'encryption':'aes-cbc-plain64','key_size':64\n\
    key size: 'key_size':64 -> 'key_size':16\n\
    key size: 'key_size':64 -> 'key_size':0\n\
    member: 'key_size':64 -> 'key_size':64.0\n\
    member: 'encryption':'aes-xts-plain64','key_size':64 -> 'encryption':'aes-xts-plain64'\n\
    encryption: 'encryption':'aes-xts-plain64','key_size':64 \
     -> 'encryption':'aes-xts-essiv','key_size':64\n\
    encryption: 'encryption':'aes-xts-plain64','key_size':64 -> 'encryption':'','key_size':48\n\
    member: 'encryption':'aes-xts-plain64','key_size':64 -> 'encryption':null,'key_size':64\n\
    member: 'encryption':'aes-xts-plain64','key_size':64 -> 'key_size':64\n\
    key size: 'type':'luks2','key_size':64 -> 'type':'luks2','key_size':16\n\
    usable 1: 'type':'luks2','key_size':64 -> 'type':'luks2','key_size':16; \
     aes-xts-plain64','sector -> aes-cbc-plain64','sector\n\
    usable 1: 'type':'luks2','key_size':64 -> 'type':'luks2','key_size':16; \
     'type':'crypt' -> 'type':'linear'\n\
    usable 1: 'type':'luks2','key_size':64 -> 'type':'luks2','key_size':32\n\
    usable 1: 'type':'luks2','key_size':64 -> 'type':'luks2','key_size':32; \
     aes-xts-plain64','sector -> aes-cbc-plain64','sector\n\
    usable 1: 'type':'luks2','key_size':64 -> 'type':'luks2','key_size':32; \
     'type':'crypt' -> 'type':'linear'\n\
    usable 1: 'type':'luks2','key_size':64 -> 'type':'luks2','key_size':64\n\
    key size: 'type':'luks2','key_size':64 -> 'type':'luks2','key_size':64; \
     aes-xts-plain64','sector -> aes-cbc-plain64','sector\n\
    usable 1: 'type':'luks2','key_size':64 -> 'type':'luks2','key_size':64; \
     'type':'crypt' -> 'type':'linear'\n\
    key size: 'type':'luks2','key_size':64 -> 'type':'luks2','key_size':48\n\
    key size: 'type':'luks2','key_size':64 -> 'type':'luks2','key_size':48; \
     aes-xts-plain64','sector -> aes-cbc-plain64','sector\n\
    key size: 'type':'luks2','key_size':64 -> 'type':'luks2','key_size':48; \
     'type':'crypt' -> 'type':'linear'\n\
    key size: 'type':'luks2','key_size':64 -> 'type':'luks2','key_size':4294967328\n\
    key size: 'type':'luks2','key_size':64 -> 'type':'luks2','key_size':4294967328; \
     aes-xts-plain64','sector -> aes-cbc-plain64','sector\n\
    key size: 'type':'luks2','key_size':64 -> 'type':'luks2','key_size':4294967328; \
     'type':'crypt' -> 'type':'linear'\n\
    usable 1: 'offset':'32768' -> 'offset':'33298432'; 'type':'crypt' -> 'type':'linear'\n\
    usable 1: 'offset':'32768' -> 'offset':'33298432'; '16777216' -> '67108864'\n\
    area: 'offset':'32768' -> 'offset':'33298433'; 'type':'crypt' -> 'type':'linear'\n\
    area: 'offset':'32768' -> 'offset':'33298433'; '16777216' -> '67108864'\n\
    area / usable 1: '16777216' -> '65536'\n\
    area / usable 1: 'offset':'32768' -> 'offset':'65536'; '16777216' -> '65536'\n\
    area / usable 1: 'offset':'32768' -> 'offset':'33298432'; '16777216' -> '65536'\n\
    area: 'offset':'32768' -> 'offset':'33298433'; '16777216' -> '65536'\n\
    area: 'offset':'32768' -> 'offset':'32767'; '16777216' -> '65536'\n\
    area: 'size':'258048' -> 'size':'255999'; '16777216' -> '65536'\n\
    usable 1 / key size: 'type':'luks2','key_size':64 -> 'type':'luks2','key_size':16; \
     '16777216' -> '0'";

#[test]
fn each_reason_to_skip_a_slot(rt: HostRuntime) {
    check_rows(&rt, Subject::Slot, ROWS);
}

// Each row adds a reason that comes before those of the rows above.
const FIRST: &str = "\
    digest: 'segments':['0'] -> 'segments':[]\n\
    area: 'offset':'32768','size':'258048' -> 'offset':'1','size':'258048'\n\
    iterations: 'hash':'sha256','iterations':1000,'salt':'AQEBAQEBAQEBAQEBAQEBAQEBAQEBAQEBAQEBAQE\
     BAQE='}}}, \
     -> 'hash':'sha256','iterations':0,'salt':''}}},\n\
    stripes: 'stripes':4000 -> 'stripes':0\n\
    key size: '2':{'type':'luks2','key_size':64 -> '2':{'type':'luks2','key_size':0\n\
    encryption: aes-xts-plain64','key_size' -> x','key_size'\n\
    hash: 'hash':'sha512' -> 'hash':'x'\n\
    kdf: 'kdf':{'type':'pbkdf2' -> 'kdf':{'type':'scrypt'\n\
    argon2i: 'kdf':{'type':'scrypt' -> 'kdf':{'type':'argon2i'\n\
    member: '2':{'type':'luks2','key_size':0 -> '2':{'type':'luks2','x':0\n\
    type: '2':{'type':'luks2' -> '2':{'type':'x'";

// If several reasons hold, the first in the format's table counts.
#[test]
fn the_first_reason_counts(rt: HostRuntime) {
    let mut text = text_with(&rt, "");
    for row in FIRST.lines() {
        let (want, change) = row.split_once(": ").ok_or(row).expect(&rt, "a row");
        text = changed(&rt, text.as_str(), change);
        check_verdicts(&rt, Subject::Slot, row, read(&rt, text.as_str()), want);
    }
}
