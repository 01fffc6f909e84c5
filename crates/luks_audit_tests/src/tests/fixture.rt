//! Images and lines for tests.
//!
//! If a call must succeed, an error ends the test at once: what is not returned need not be dropped
//! on the way.

use luks_audit::image::{Policy, audit_image};
use luks_audit::line::Format;
use luks_audit::weak_row::Severity;
use luks_io::memory::MemSource;
use luks_test_support::bytes::{put, put_numbers};
use luks_test_support::header1::USUAL_NUMBERS;
use luks_test_support::header2::image_of;
use serde_json::Value;
use std::process::Abort;

/// JSON lines, judged by OWASP's figures.
pub const PLAIN: Policy = Policy {
    minimum: None,
    fail_on: Severity::Low,
    format: Format::Json,
};

/// Columns, judged by OWASP's figures.
pub const COLUMNS: Policy = Policy {
    minimum: None,
    fail_on: Severity::Low,
    format: Format::Tsv,
};

/// Asserts what holds in this case.
pub fn assert_of(rt: &impl Abort, case: &str, holds: bool) {
    assert!(rt; holds, "{case}");
}

/// The numbers of a LUKS1 header beside the usual ones: slot 0 is in use, and slot 7 has stripes.
const FURTHER_NUMBERS: [(usize, u32); 2] = [(208, 0x00ac_71f3), (588, 4000)];

/// A LUKS1 header with this mode and hash function, and with these other numbers.
pub fn header1(
    rt: &(impl Abort + AllocGlobal),
    mode: &str,
    hash: &str,
    numbers: &[(usize, u32)],
) -> Vec<u8> {
    let mut bytes = vec![in rt.alloc(); 0; 592].expect(rt, "memory");
    let header = bytes.as_mut_slice();
    put(header, 0, b"LUKS\xba\xbe\0\x01aes");
    put(header, 40, mode.as_bytes());
    put(header, 72, hash.as_bytes());
    put_numbers(header, &USUAL_NUMBERS);
    put_numbers(header, &FURTHER_NUMBERS);
    put_numbers(header, numbers);
    bytes
}

// What a JSON area has before its key slot.
const BEFORE_SLOT: &str = "{\"keyslots\":{\"7\":";

// What it has between the slot and the iterations of its digest.
const AFTER_SLOT: &str =
    "},\"tokens\":{\"3\":{\"type\":\"a\\t\\\"b\",\"keyslots\":[\"7\"],\"n\":-7},\
    \"4\":{\"type\":\"f\",\"x\":[{\"y\":1.5}]}},\"segments\":{\"0\":{\"type\":\"crypt\",\
    \"offset\":\"32768\",\"size\":\"dynamic\",\"iv_tweak\":\"8\",\"sector_size\":512,\
    \"encryption\":\"aes-xts-plain64\"}},\
    \"digests\":{\"0\":{\"type\":\"pbkdf2\",\"hash\":\"sha256\",\"iterations\":";

// What it has after them.
const AFTER_ITERATIONS: &str =
    ",\"salt\":\"Zm9v\",\"digest\":\"Zm9vYmE=\",\"keyslots\":[\"7\"],\"segments\":[\"0\"]}}}";

/// The text of these pieces, one after the other.
pub fn text_of(rt: &(impl Abort + AllocGlobal), pieces: &[&str]) -> String {
    let mut text = String::new(rt.alloc());
    for piece in pieces {
        text.push_str(piece).expect(rt, "memory");
    }
    text
}

/// A LUKS2 image with this key slot as number 7, and a digest with these iterations.
pub fn image2(rt: &(impl Abort + AllocGlobal), slot: &str, iterations: &str) -> Vec<u8> {
    let json = text_of(
        rt,
        &[BEFORE_SLOT, slot, AFTER_SLOT, iterations, AFTER_ITERATIONS],
    );
    image_of(rt.alloc(), 3, 3, json.as_str()).expect(rt, "memory")
}

// The line of an image.
fn line_of(rt: &(impl Abort + AllocGlobal), policy: Policy, image: &[u8]) -> Vec<u8> {
    let mut source = MemSource::new(image);
    let made = audit_image(rt.alloc(), policy, "a", &mut source).expect(rt, "memory");
    made.line
}

// Whether this is the text of a member.
fn is_text(rt: &(impl Abort + AllocGlobal), member: &Value, text: &str) -> bool {
    let found = member.to_string(rt.alloc()).expect(rt, "memory");
    found.as_str() == text
}

// Whether the member of this name has this text.
fn has_member(rt: &(impl Abort + AllocGlobal), tree: &Value, name: &str, text: &str) -> bool {
    match tree.get(name) {
        Some(member) => is_text(rt, member, text),
        None => false,
    }
}

/// Asserts that the member of this name in the object of an image is this, as JSON.
pub fn assert_member(
    rt: &(impl Abort + AllocGlobal),
    policy: Policy,
    image: &[u8],
    name: &str,
    text: &str,
) {
    let line = line_of(rt, policy, image);
    let Ok(tree) = Value::from_slice(rt.alloc(), line.as_slice()) else {
        return assert_of(rt, name, false);
    };
    assert_of(rt, text, has_member(rt, &tree, name, text));
}
