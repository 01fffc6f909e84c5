//! JSON areas, and how they are changed. They are written with ' in place of ".
//!
//! If a call must succeed, an error ends the test at once: what is not returned need not be dropped
//! on the way. A value that is returned by reference stays to the end of the test, so that no
//! function drops it.

use crate::tests::shared::kept;
use luks2_json::tree::Metadata;
use luks2_metadata::bounds::Bounds;
use std::process::Abort;

/// The bounds of an attached header of twice 16,384 bytes.
pub const ATTACHED: Bounds = Bounds {
    end: 32_768,
    detached: false,
};

/// Those of the same header, detached.
pub const DETACHED: Bounds = Bounds {
    end: 32_768,
    detached: true,
};

// A salt of 32 bytes 01, and a digest of 32 bytes 02, by Python's base64.b64encode.
const SLOT_0: &str = "'0':{'type':'luks2','key_size':64,\
    'af':{'type':'luks1','stripes':4000,'hash':'sha256'},\
    'area':{'type':'raw','offset':'290816','size':'258048',\
    'encryption':'aes-xts-plain64','key_size':64},";

const SLOT_0_KDF: &str = "'kdf':{'type':'argon2id','time':4,'memory':1048576,\
    'cpus':4,'salt':'AQEBAQEBAQEBAQEBAQEBAQEBAQEBAQEBAQEBAQEBAQE='}}";

const SLOT_2: &str = "'2':{'type':'luks2','key_size':64,\
    'af':{'type':'luks1','stripes':4000,'hash':'sha512'},\
    'area':{'type':'raw','offset':'32768','size':'258048',\
    'encryption':'aes-xts-plain64','key_size':64},";

const SLOT_2_KDF: &str = "'kdf':{'type':'pbkdf2','hash':'sha256',\
    'iterations':1000,'salt':'AQEBAQEBAQEBAQEBAQEBAQEBAQEBAQEBAQEBAQEBAQE='}}";

const SEGMENTS: &str = "'0':{'type':'crypt','offset':'16777216',\
    'size':'dynamic','iv_tweak':'0','encryption':'aes-xts-plain64',\
    'sector_size':512}";

const DIGESTS: &str = "'0':{'type':'pbkdf2','keyslots':['0','2'],\
    'segments':['0'],'hash':'sha256','iterations':1000,\
    'salt':'AQEBAQEBAQEBAQEBAQEBAQEBAQEBAQEBAQEBAQEBAQE=',\
    'digest':'AgICAgICAgICAgICAgICAgICAgICAgICAgICAgICAgI='}";

const CONFIG: &str = "'json_size':'12288','keyslots_size':'16744448'";

// The text: slot 0 by argon2id, slot 2 by PBKDF2, a segment and a digest.
static PARTS: [&str; 13] = [
    "{'keyslots':{",
    SLOT_0,
    SLOT_0_KDF,
    ",",
    SLOT_2,
    SLOT_2_KDF,
    "},'tokens':{},'segments':{",
    SEGMENTS,
    "},'digests':{",
    DIGESTS,
    "},'config':{",
    CONFIG,
    "}}",
];

/// The parts, concatenated.
pub fn joined(rt: &(impl Abort + AllocGlobal), parts: &[&str]) -> &'static str {
    let text = parts.concat(rt.alloc()).expect(rt, "memory");
    kept(rt, text).as_str()
}

/// The text as JSON writes it.
pub fn quoted(rt: &(impl Abort + AllocGlobal), text: &str) -> &'static str {
    let text = text.replace(rt.alloc(), '\'', "\"");
    kept(rt, text.expect(rt, "memory")).as_str()
}

/// The metadata of a text.
pub fn read(rt: &(impl Abort + AllocGlobal), text: &str) -> &'static Metadata {
    let metadata = Metadata::read(rt.alloc(), quoted(rt, text).as_bytes());
    kept(rt, metadata.expect(rt, "metadata"))
}

/// The text with a change `PART -> OTHER` where the part occurs last, if the text has the part.
pub fn changed(rt: &(impl Abort + AllocGlobal), text: &str, change: &str) -> String {
    let change = change.split_once(" -> ").ok_or(change);
    let (part, other) = change.expect(rt, "a change");
    let split = text.rsplit_once(part).ok_or(part);
    let (before, after) = split.expect(rt, "a part of the text");
    [before, other, after]
        .concat(rt.alloc())
        .expect(rt, "memory")
}

/// The text with these changes, one after the other, if there are some.
pub fn text_with(rt: &(impl Abort + AllocGlobal), changes: &str) -> String {
    let mut text = PARTS.concat(rt.alloc()).expect(rt, "memory");
    for change in changes.split_terminator("; ") {
        text = changed(rt, text.as_str(), change);
    }
    text
}

/// The metadata of the text with these changes.
pub fn metadata(rt: &(impl Abort + AllocGlobal), changes: &str) -> &'static Metadata {
    read(rt, text_with(rt, changes).as_str())
}

/// A text with the three required objects, and the start of a further member `x`.
pub const BEFORE_X: &str = "{'keyslots':{},'segments':{},'digests':{},'x':";

/// The metadata of a text with this further member `x`.
pub fn with_member(rt: &(impl Abort + AllocGlobal), value: &str) -> &'static Metadata {
    read(rt, joined(rt, &[BEFORE_X, value, "}"]))
}
