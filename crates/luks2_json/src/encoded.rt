//! Bytes in base64: whether a text encodes bytes, and which bytes.

ghost use Rattle.std.specs.Prelude.{◌≡◌, ◌≤◌, IfOk, IfSome, length, option_map};
ghost use Rattle.luks2_json.specs.Member.{begins_with_group, encoded_len, is_in_alphabet};
ghost use Rattle.luks2_json.specs.Member.{is_symbol};
ghost use Rattle.base64.specs.Engines.{standard};
ghost use Rattle.base64.specs.GeneralPurpose.{decoded_of};

use base64::DecodeAllocError;
use base64::engine::general_purpose::STANDARD;
use std::alloc::{AllocError, Global};

// The byte is a letter, a digit, a plus sign or a slash.
fn is_in_alphabet(byte: u8) -> bool
    ensures { result ≡ is_in_alphabet byte }
{
    byte.is_ascii_alphanumeric() || byte == b'+' || byte == b'/'
}

// The byte has a value in the standard alphabet.
#[tactic(auto, using(crate::proofs::EncodedLemmas::in_alphabet))]
fn is_symbol(byte: u8) -> bool
    ensures { result ≡ is_symbol byte }
{
    is_in_alphabet(byte)
}

// Each of the first four bytes has a value in the standard alphabet.
fn begins_with_group(text: &[u8]) -> bool
    requires { 4 ≤ length text.now }
    ensures { result ≡ begins_with_group text.now }
{
    is_symbol(text[0]) && is_symbol(text[1]) && is_symbol(text[2]) && is_symbol(text[3])
}

// The number of bytes that a last group encodes, if it is valid base64. The group may have padding,
// or be empty.
fn last_len(text: &[u8]) -> Option<usize>
    requires { length text.now ≤ 4 }
    ensures value { result ≡ encoded_len text.now }
    ensures few { IfSome result (λ len. len ≤ 3) }
{
    let mut bytes = [0; 3];
    match STANDARD.decode_slice_unchecked(text, &mut bytes) {
        Ok(len) => Some(len),
        Err(_) => None,
    }
}

/// The number of bytes that the text encodes, if it is valid base64. This allocates nothing.
pub(crate) fn encoded_len(text: &str) -> Option<usize>
    ensures { result ≡ encoded_len text.now }
{
    let mut rest = text.as_bytes();
    let mut before = 0;
    'groups: while 4 < rest.len() {
        if !begins_with_group(rest) {
            return None;
        }
        rest = &rest[4..];
        before += 3;
    }
    Some(before + last_len(rest)?)
}

/// The bytes that the text encodes, if it is valid base64.
pub(crate) fn decoded(alloc: Global, text: &str) -> Result<Option<Vec<u8>>, AllocError>
    ensures { IfOk result (λ bytes.
        option_map (λ b. b.items) bytes ≡ decoded_of standard text.now) }
{
    match STANDARD.decode(alloc, text.as_bytes()) {
        Ok(bytes) => Ok(Some(bytes)),
        Err(DecodeAllocError::OutOfMemory) => Err(AllocError),
        Err(DecodeAllocError::DecodeError(_)) => Ok(None),
    }
}
