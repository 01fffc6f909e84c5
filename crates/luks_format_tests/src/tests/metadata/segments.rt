//! The faults of a segment, each bound from both sides, attached and detached.

use super::fixture::{ATTACHED, metadata};
use super::tables::{Subject, check_rows};
use crate::tests::shared::assert_of;
use luks_cipher::Mode;
use luks_format::sector_size::SectorSize;
use luks_format::segment::Segment;
use luks2_json::tree::Metadata;
use luks2_metadata::bounds::Bounds;
use luks2_metadata::luks2_segment::segment;
use std::process::Abort;

/// The verdict on the segment.
pub(super) fn verdict(metadata: &Metadata, bounds: Bounds) -> &'static str {
    match segment(metadata, bounds) {
        Ok(_) => "fine",
        Err(fault) => fault.text(),
    }
}

fn as_it_is() -> Option<Segment> {
    Segment::from_parts(
        Some(16_777_216),
        Some(None),
        Some(0),
        Some(SectorSize::B512),
        Some(Mode::XtsPlain64),
    )
}

const OTHER_VALUES: &str = "'16777216' -> '32768'; \
    'dynamic' -> '0008192'; \
    'iv_tweak':'0' -> 'iv_tweak':'18446744073709551615'; \
    aes-xts-plain64','sector_size':512 \
    -> aes-cbc-essiv:sha256','sector_size':4096";

fn others() -> Option<Segment> {
    Segment::from_parts(
        Some(32_768),
        Some(Some(8192)),
        Some(18_446_744_073_709_551_615),
        Some(SectorSize::B4096),
        Some(Mode::CbcEssivSha256),
    )
}

fn has_values(segment: &Segment, want: &Segment) -> bool {
    (segment.offset == want.offset)
        & (segment.iv_tweak == want.iv_tweak)
        & (segment.size == want.size)
        & (segment.sector_size == want.sector_size)
        & (segment.mode == want.mode)
}

fn check_values(rt: &(impl Abort + AllocGlobal), changes: &str, want: Option<Segment>) {
    let found = segment(metadata(rt, changes), ATTACHED).expect(rt, "a segment");
    let want = want.expect(rt, "the segment that is wanted");
    assert_of(rt, changes, has_values(&found, &want));
}

#[test]
fn the_values_of_a_segment(rt: HostRuntime) {
    check_values(&rt, "", as_it_is());
    check_values(&rt, OTHER_VALUES, others());
}

// With a detached header, any start that is a multiple of 512 bytes is fine.
const ROWS: &str = "\
    fine: 'config':{ -> 'config':{'requirements':[],\n\
    fine: 'config':{ -> 'config':{'requirements':{},\n\
    fine: 'config':{ -> 'config':{'requirements':{'mandatory':[]},\n\
    fine: 'config':{ -> 'config':{'requirements':{'mandatory':[],'optional':['x']},\n\
    requirement: 'config':{ -> 'config':{'requirements':{'mandatory':['x']},\n\
    requirement: 'config':{ -> 'config':{'requirements':{'mandatory':[null]},\n\
    requirement: 'config':{ -> 'config':{'requirements':{'mandatory':null},\n\
    requirement: 'config':{ -> 'config':{'requirements':{'mandatory':{}},\n\
    requirement: 'config':{ -> 'config':{'requirements':{'mandatory':''},\n\
    requirement: 'config':{ -> 'config':{'requirements':['x'],\n\
    requirement: 'config':{ -> 'config':{'requirements':[[]],\n\
    requirement: 'config':{ -> 'config':{'requirements':null,\n\
    requirement: 'config':{ -> 'config':{'requirements':false,\n\
    requirement: 'config':{ -> 'config':{'requirements':0,\n\
    requirement: 'config':{ -> 'config':{'requirements':'',\n\
    fine: 'config':{ -> 'config':{'Requirements':['x'],\n\
    fine: 'config': -> 'requirements':['x'],'config':\n\
    fine: 'config': -> 'configuration':\n\
    fine: 'config': -> 'config':null,'other':\n\
    fine: 'config': -> 'config':[{'requirements':1}],'other':\n\
    segments: 'segments':{ -> 'segments':{'1':{},\n\
    fine: 'segments':{ -> 'segments':{'0':{},\n\
    segments: 'segments':{'0': -> 'segments':{'1':\n\
    segments: 'segments':{'0': -> 'segments':{'00':\n\
    fine: 'segments':{'0': -> 'segments':{'\\u0030':\n\
    segments: 'segments':{ -> 'segments':{},'other':{\n\
    member: 'type':'crypt' -> 'type':5\n\
    member: 'type':'crypt' -> 'type':null\n\
    member: 'type':'crypt' -> 'kind':'crypt'\n\
    type: 'type':'crypt' -> 'type':'linear'\n\
    type: 'type':'crypt' -> 'type':'Crypt'\n\
    type: 'type':'crypt' -> 'type':'linear','integrity':{}\n\
    type: 'type':'crypt','offset':'16777216' -> 'type':'linear'\n\
    integrity: 'type':'crypt' -> 'type':'crypt','integrity':{}\n\
    integrity: 'type':'crypt' -> 'type':'crypt','integrity':null\n\
    member: 'offset' -> 'integrity':1,'o'\n\
    member: 'offset': -> 'off':\n\
    member: 'offset':'16777216' -> 'offset':16777216\n\
    member: 'offset':'16777216' -> 'offset':null\n\
    member: 'size': -> 'siz':\n\
    member: 'size':'dynamic' -> 'size':'Dynamic'\n\
    member: 'size':'dynamic' -> 'size':null\n\
    member: 'size':'dynamic' -> 'size':512\n\
    member: 'iv_tweak': -> 'iv':\n\
    member: 'iv_tweak':'0' -> 'iv_tweak':0\n\
    member: 'iv_tweak':'0' -> 'iv_tweak':'18446744073709551616'\n\
    encryption: 'aes-xts-plain64','sector -> 'serpent-xts-plain64','sector\n\
    member: 'aes-xts-plain64','sector -> null,'sector\n\
    member: 'aes-xts-plain64','sector -> 64,'sector\n\
    member: 'sector_size': -> 'sector':\n\
    member: 'sector_size':512 -> 'sector_size':'512'\n\
    member: 'sector_size':512 -> 'sector_size':512.0\n\
    member: 'segments':{ -> 'segments':{'0':null},'other':{\n\
    fine: 'sector_size':512 -> 'sector_size':1024\n\
    fine: 'sector_size':512 -> 'sector_size':2048\n\
    fine: 'sector_size':512 -> 'sector_size':4096\n\
    sector size: 'sector_size':512 -> 'sector_size':0\n\
    sector size: 'sector_size':512 -> 'sector_size':256\n\
    sector size: 'sector_size':512 -> 'sector_size':1000\n\
    sector size: 'sector_size':512 -> 'sector_size':8192\n\
    sector size: 'sector_size':512 -> 'sector_size':18446744073709551615\n\
    offset: '16777216' -> '32767'\n\
    offset / fine: '16777216' -> '32256'\n\
    fine: '16777216' -> '32768'\n\
    offset: '16777216' -> '32769'\n\
    fine: '16777216' -> '33280'\n\
    offset / fine: '16777216' -> '0'\n\
    fine: '16777216' -> '18446744073709551104'\n\
    offset: '16777216' -> '18446744073709551615'\n\
    fine: 'dynamic' -> '0'\n\
    fine: 'dynamic' -> '512'\n\
    size: 'dynamic' -> '4097'\n\
    size: 'dynamic' -> '511'\n\
    fine: 'dynamic' -> '18446744073709551104'\n\
    size: 'dynamic' -> '18446744073709551615'\n\
    offset: '16777216' -> '1'\n\
    offset: '16777216' -> '511'\n\
    offset / fine: '16777216' -> '512'\n\
    offset: '16777216' -> '18446744073709551105'\n\
    member: '16777216' -> 0\n\
    type: 'type':'crypt' -> 'type':'linear'; '16777216' -> '0'\n\
    offset / size: 'dynamic' -> '511'; '16777216' -> '0'\n\
    sector size: 'sector_size':512 -> 'sector_size':513; '16777216' -> '0'\n\
    fine: 512} -> 4096}; 'dynamic' -> '12288'\n\
    size: 512} -> 4096}; 'dynamic' -> '12800'";

#[test]
fn each_fault_of_a_segment(rt: HostRuntime) {
    check_rows(&rt, Subject::Segment, ROWS);
}
