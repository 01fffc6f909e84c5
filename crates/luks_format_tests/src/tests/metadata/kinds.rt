//! Which values are of which type.

use super::fixture::with_member;
use crate::tests::shared::assert_of;
use luks_cipher::Mode;
use luks2_json::encryption::{encryption_mode, is_length_for};
use luks2_json::list::has_strings;
use luks2_json::member::{
    base64_len, base64_member, decimal_member, integer_member, is_type, string_is, string_member,
};
use std::process::Abort;

// Each row is a value, and what it is as an integer and as a decimal string.
static NUMBERS: [(&str, Option<u64>, Option<u64>); 33] = [
    ("0", Some(0), None),
    ("64", Some(64), None),
    (
        "18446744073709551615",
        Some(18_446_744_073_709_551_615),
        None,
    ),
    ("18446744073709551616", None, None),
    ("1.0", None, None),
    ("1e3", None, None),
    ("-0", None, None),
    ("-1", None, None),
    ("0.5", None, None),
    ("'1'", None, Some(1)),
    ("null", None, None),
    ("true", None, None),
    ("[1]", None, None),
    ("{}", None, None),
    ("5", Some(5), None),
    ("'0'", None, Some(0)),
    ("'32768'", None, Some(32_768)),
    ("'007'", None, Some(7)),
    ("'00000000000000000007'", None, Some(7)),
    ("'000000000000000000007'", None, None),
    (
        "'18446744073709551615'",
        None,
        Some(18_446_744_073_709_551_615),
    ),
    ("'18446744073709551616'", None, None),
    ("'99999999999999999999'", None, None),
    ("''", None, None),
    ("'+1'", None, None),
    ("'-1'", None, None),
    ("' 1'", None, None),
    ("'1 '", None, None),
    ("'1.0'", None, None),
    ("'0x10'", None, None),
    ("'\\u0661'", None, None),
    ("'\\u0031'", None, Some(1)),
    ("7", Some(7), None),
];

// An integer is no string.
fn check_number(
    rt: &(impl Abort + AllocGlobal),
    value: &str,
    integer: Option<u64>,
    decimal: Option<u64>,
) {
    let tree = with_member(rt, value).tree();
    let is_so = (integer_member(tree, "x") == integer) & (decimal_member(tree, "x") == decimal);
    let is_string = string_member(tree, "x").is_some();
    assert_of(rt, value, is_so & (integer.is_none() | !is_string));
}

#[test]
fn integers_and_decimal_strings(rt: HostRuntime) {
    for (value, integer, decimal) in &NUMBERS {
        check_number(&rt, value, *integer, *decimal);
    }
}

#[test]
fn strings_are_compared_exactly(rt: HostRuntime) {
    let tree = with_member(&rt, "'raw'").tree();
    assert_of(&rt, "x", string_member(tree, "x").unwrap_or("") == "raw");
    assert_of(&rt, "y", string_member(tree, "y").is_none());
    let named = [
        string_is(tree, "x", "raw"),
        string_is(tree, "x", "Raw"),
        string_is(tree, "x", "ra"),
        is_type(tree, "raw"),
    ];
    assert_of(&rt, "named", named == [true, false, false, false]);
}

// RFC 4648, section 10, and strings that Python's base64.b64decode(.., validate=True) refuses, or
// that are not the encoding of what it gives.
static BASE64_STRINGS: [(&str, Option<&str>); 25] = [
    ("''", Some("")),
    ("'Zg=='", Some("f")),
    ("'Zm8='", Some("fo")),
    ("'Zm9v'", Some("foo")),
    ("'Zm9vYg=='", Some("foob")),
    ("'Zm9vYmE='", Some("fooba")),
    ("'Zm9vYmFy'", Some("foobar")),
    ("'Pz8/Pj4+'", Some("???>>>")),
    ("'Zg'", None),
    ("'Zg='", None),
    ("'Zg==='", None),
    ("'Zh=='", None),
    ("'Zm9='", None),
    ("'Z'", None),
    ("'='", None),
    ("'===='", None),
    ("'Zg==Zg=='", None),
    ("'Zm9vZg'", None),
    ("'Zm9vY'", None),
    ("'Zm9v\\n'", None),
    ("'Zm9 v'", None),
    ("'Pz8_Pj4-'", None),
    ("'Zm\\u00e9v'", None),
    ("null", None),
    ("5", None),
];

// Whether the bytes and their length are the expected ones.
fn is_encoding(bytes: &Option<Vec<u8>>, len: Option<usize>, want: Option<&str>) -> bool {
    match (bytes, want) {
        (Some(bytes), Some(want)) => {
            (bytes.as_slice() == want.as_bytes()) & (len == Some(want.len()))
        }
        (None, None) => len.is_none(),
        _ => false,
    }
}

fn check_base64(rt: &(impl Abort + AllocGlobal), value: &str, want: Option<&str>) {
    let tree = with_member(rt, value).tree();
    let bytes = base64_member(rt.alloc(), tree, "x").expect(rt, "memory");
    let is_so = is_encoding(&bytes, base64_len(tree, "x"), want);
    assert_of(rt, value, is_so);
}

#[test]
fn base64_strings(rt: HostRuntime) {
    for (value, want) in &BASE64_STRINGS {
        check_base64(&rt, value, *want);
    }
}

static ARRAYS: [(&str, bool); 9] = [
    ("[]", true),
    ("['0']", true),
    ("['0','0','x']", true),
    ("[0]", false),
    ("['0',null]", false),
    ("[['0']]", false),
    ("'0'", false),
    ("{'0':'0'}", false),
    ("null", false),
];

#[test]
fn arrays_that_are_strings_alone(rt: HostRuntime) {
    for (value, want) in &ARRAYS {
        let tree = with_member(&rt, value).tree();
        let is_so = (has_strings(tree, "x") == *want) & !has_strings(tree, "y");
        assert_of(&rt, value, is_so);
    }
}

static ENCRYPTIONS: [(&str, Option<Mode>); 13] = [
    ("aes-xts-plain64", Some(Mode::XtsPlain64)),
    ("aes-xts-plain", Some(Mode::XtsPlain)),
    ("aes-cbc-essiv:sha256", Some(Mode::CbcEssivSha256)),
    ("aes-cbc-plain64", Some(Mode::CbcPlain64)),
    ("AES-xts-plain64", None),
    ("aes-XTS-plain64", None),
    ("aes-xts-plain64 ", None),
    ("aes-cbc-plain", None),
    ("aes-", None),
    ("aes", None),
    ("xts-plain64", None),
    ("serpent-xts-plain64", None),
    ("cipher_null-ecb", None),
];

// Checks the lengths of keys of a mode.
fn check_lengths(rt: &impl Abort, case: &str, mode: Option<Mode>, lengths: &[u64]) {
    for bytes in 0..130u64 {
        let holds = is_length_for(mode, bytes) == lengths.contains(&bytes);
        assert_of(rt, case, holds);
    }
}

#[test]
fn encryptions_and_their_keys(rt: HostRuntime) {
    for (name, want) in &ENCRYPTIONS {
        assert_of(&rt, name, encryption_mode(name) == *want);
    }
    check_lengths(&rt, "xts", Some(Mode::XtsPlain64), &[32, 64]);
    check_lengths(&rt, "cbc", Some(Mode::CbcPlain64), &[16, 32]);
    check_lengths(&rt, "any", None, &[16, 32, 64]);
}
