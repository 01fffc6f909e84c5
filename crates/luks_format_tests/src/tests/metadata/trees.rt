//! Which texts are read, and what is found in them.

use super::assert_answer;
use super::fixture::{BEFORE_X, joined, quoted, read, with_member};
use crate::tests::shared::{assert_of, kept};
use luks_format::fault::HeaderFault;
use luks2_json::list::{array_contains, strings_at};
use luks2_json::member::{integer_member, string_member};
use luks2_json::numbered::{has_key_out_of_range, object_numbered};
use luks2_json::tree::Metadata;
use std::process::Abort;

// Checks how reading the JSON area ends.
fn check_ending(rt: &(impl Abort + AllocGlobal), case: &str, area: &[u8], want: &str) {
    let answer = match Metadata::read(rt.alloc(), area) {
        Ok(_) => "read",
        Err(HeaderFault::Json) => "json",
        Err(HeaderFault::Memory) => "memory",
        Err(_) => "another",
    };
    assert_answer(rt, case, answer, want);
}

// Each row is a text in two parts, and how reading ends. The three objects are required, and values
// that nothing looks at count too: Python's json.loads accepts the same ones, and also numbers that
// are too large and lone surrogates.
static TEXTS: [(&str, &str, &str); 27] = [
    ("", "{'keyslots':{},'segments':{},'digests':{}}", "read"),
    ("", " {'digests':{},'segments':{},'keyslots':{}}\n", "read"),
    ("", "{'segments':{},'digests':{}}", "json"),
    ("", "{'keyslots':{},'digests':{}}", "json"),
    ("", "{'keyslots':{},'segments':{}}", "json"),
    ("", "{'keyslots':null,'segments':{},'digests':{}}", "json"),
    ("", "{'keyslots':{},'segments':[],'digests':{}}", "json"),
    ("", "{'keyslots':{},'segments':{},'digests':'{}'}", "json"),
    ("", "[{'keyslots':{},'segments':{},'digests':{}}]", "json"),
    ("", "null", "json"),
    ("", "", "json"),
    (BEFORE_X, "null}", "read"),
    (BEFORE_X, "1.0}", "read"),
    (BEFORE_X, "1e308}", "read"),
    (BEFORE_X, "1e309}", "json"),
    (BEFORE_X, "-1e309}", "json"),
    (BEFORE_X, "18446744073709551616}", "read"),
    (BEFORE_X, "01}", "json"),
    (BEFORE_X, "+1}", "json"),
    (BEFORE_X, "'\\ud83d\\ude00'}", "read"),
    (BEFORE_X, "'\\ud83d'}", "json"),
    (BEFORE_X, "'\\ude00\\ud83d'}", "json"),
    (BEFORE_X, "'a\nb'}", "json"),
    (BEFORE_X, "[1,]}", "json"),
    (BEFORE_X, "{'a':1,}}", "json"),
    (BEFORE_X, "1} {}", "json"),
    (BEFORE_X, "}", "json"),
];

#[test]
fn texts_are_read_or_refused(rt: HostRuntime) {
    for (before, after, want) in &TEXTS {
        let text = joined(&rt, &[before, after]);
        check_ending(&rt, after, quoted(&rt, text).as_bytes(), want);
    }
}

// Each row is a byte, a text with it, and how reading ends: bytes that are not UTF-8 are not read.
static BYTES: [(&str, &[u8], &str); 3] = [
    (
        "0x7f",
        b"{\"keyslots\":{},\"segments\":{},\"digests\":{},\"x\":\"\x7f\"}",
        "read",
    ),
    (
        "0x80",
        b"{\"keyslots\":{},\"segments\":{},\"digests\":{},\"x\":\"\x80\"}",
        "json",
    ),
    (
        "0xff",
        b"{\"keyslots\":{},\"segments\":{},\"digests\":{},\"x\":\"\xff\"}",
        "json",
    ),
];

#[test]
fn text_that_is_not_utf8(rt: HostRuntime) {
    for (byte, text, want) in &BYTES {
        check_ending(&rt, byte, text, want);
    }
}

// This many nested arrays; the object around them is one more level.
static DEPTHS: [(usize, &str); 4] = [(125, "read"), (126, "read"), (127, "json"), (500, "json")];

fn repeated(rt: &(impl Abort + AllocGlobal), text: &str, count: usize) -> &'static str {
    let text = text.repeat(rt.alloc(), count).expect(rt, "memory");
    kept(rt, text).as_str()
}

#[test]
fn nests_up_to_127(rt: HostRuntime) {
    for (depth, want) in &DEPTHS {
        let open = repeated(&rt, "[", *depth);
        let close = repeated(&rt, "]", *depth);
        let area = joined(&rt, &[BEFORE_X, open, close, "}"]);
        check_ending(&rt, close, quoted(&rt, area).as_bytes(), want);
    }
}

// The last of equal names counts, and names are compared after unescaping.
static MEMBERS: [(&str, Option<u64>); 6] = [
    ("{'a':1}", Some(1)),
    ("{'a':1,'a':2}", Some(2)),
    ("{'a':1,'\\u0061':2}", Some(2)),
    ("{'\\u0061':1,'a':null}", None),
    ("{'A':1}", None),
    ("{'b':0,'a':3,'c':1}", Some(3)),
];

#[test]
fn names_of_members(rt: HostRuntime) {
    for (members, want) in &MEMBERS {
        let metadata = with_member(&rt, members);
        let object = metadata.tree().get("x").expect(&rt, "an object");
        assert_of(&rt, members, integer_member(object, "a") == *want);
    }
}

static NAMES: [(&str, Option<u8>); 11] = [
    ("0", Some(0)),
    ("9", Some(9)),
    ("10", Some(10)),
    ("31", Some(31)),
    ("32", None),
    ("00", None),
    ("01", None),
    ("+1", None),
    ("1 ", None),
    ("", None),
    ("\\u0033", Some(3)),
];

// Checks that a single key slot with this name is found by this number alone, or is ignored if its
// name is no number below 32.
fn check_name(rt: &(impl Abort + AllocGlobal), name: &str, number: Option<u8>) {
    let before = "{'segments':{},'digests':{},'keyslots':{'";
    let text = joined(rt, &[before, name, "':'here'}}"]);
    let metadata = read(rt, text);
    assert_of(rt, name, has_key_out_of_range(metadata) == number.is_none());
    for i in 0..=255 {
        let found = object_numbered(metadata.tree(), "keyslots", i).is_some();
        assert_of(rt, name, found == (number == Some(i)));
    }
}

#[test]
fn names_that_are_numbers(rt: HostRuntime) {
    for (name, number) in &NAMES {
        check_name(&rt, name, *number);
    }
    assert_of(
        &rt,
        "no slots",
        !has_key_out_of_range(with_member(&rt, "0")),
    );
}

// Checks that the member is an array of these strings.
fn check_strings(rt: &(impl Abort + AllocGlobal), metadata: &Metadata, name: &str, wants: &[&str]) {
    let texts = strings_at(rt.alloc(), metadata.tree(), name).expect(rt, "memory");
    assert_of(rt, name, texts.as_slice().len() == wants.len());
    for (i, text) in texts.as_slice().iter().enumerate() {
        assert_of(rt, name, wants.get(i).copied() == Some(text.as_str()));
        assert_of(rt, name, array_contains(metadata.tree(), name, text));
    }
}

#[test]
fn arrays_of_strings(rt: HostRuntime) {
    let metadata = with_member(&rt, "['0',7,'','1\\u0030','\\u00e9']");
    check_strings(&rt, metadata, "x", &["0", "", "10", "é"]);
    check_strings(&rt, metadata, "y", &[]);
    let tree = metadata.tree();
    let has_other = array_contains(tree, "x", "7") | array_contains(tree, "y", "0");
    assert_of(&rt, "7 and 0", !has_other);
    assert_of(&rt, "x", string_member(tree, "x").is_none());
}
