//! The tokens of a key slot.

ghost use Rattle.std.specs.Prelude.{◌≡◌, ◌++◌, IfOk, OnOk, decimal, flat_map, map, string_bytes};
ghost use Rattle.luks_audit.specs.Token.{has_random_key, is_among, is_for, is_named};
ghost use Rattle.luks_audit.specs.Token.{is_of_random_key, named_token, slot_tokens, token_name};

use crate::rows::TokenRow;
use crate::text::Text;
use crate::tree::{Array, Object, Tree};
use itoa::Buffer;
use std::alloc::{AllocError, Global};

// Whether the text is one of the names.
#[tactic(auto, unfolding(crate::specs::Token::is_among))]
fn is_among(text: &str, names: &[String]) -> bool
    ensures { result ≡ is_among text.now (map string_bytes names.now) }
{
    for index in 0..names.len() {
        if text == names[index].as_str() {
            return true;
        }
    }
    false
}

// Whether the token is for the key slot of this number.
fn is_for(slot: u8, token: &TokenRow) -> bool
    ensures { result ≡ is_for slot token.now }
{
    let mut name = Buffer::new();
    is_among(name.format(slot), token.keyslots.as_slice())
}

/// Whether the text is there, and is the expected one.
pub(crate) fn is_named(text: &Option<Text>, expected: &str) -> bool
    ensures { result ≡ is_named expected.now text.now }
{
    match text {
        Some(text) => expected.as_bytes() == text.as_bytes(),
        None => false,
    }
}

// Whether the type of a token says that the slot's passphrase is a random key.
fn is_of_random_key(token: &TokenRow) -> bool
    ensures { result ≡ is_of_random_key token.now }
{
    is_named(&token.kind, "systemd-tpm2")
        || is_named(&token.kind, "systemd-fido2")
        || is_named(&token.kind, "systemd-pkcs11")
        || is_named(&token.kind, "systemd-recovery")
        || is_named(&token.kind, "clevis")
}

/// Whether a token for the key slot of this number says that its passphrase is a random key.
#[tactic(auto, unfolding(crate::specs::Token::has_random_key))]
pub(crate) fn has_random_key(slot: u8, tokens: &[TokenRow]) -> bool
    ensures { result ≡ has_random_key slot tokens.now }
{
    for index in 0..tokens.len() {
        if is_for(slot, &tokens[index]) && is_of_random_key(&tokens[index]) {
            return true;
        }
    }
    false
}

// The number and the type of a token.
#[tactic(auto, unfolding(crate::specs::Token::token_name))]
fn name_tree(alloc: Global, token: &TokenRow) -> Result<Tree, AllocError>
    ensures { IfOk result (λ tree. tree ≡ token_name token.now) }
{
    let mut fields = Object::new(alloc);
    fields.push_number(alloc, "number", u64::from(token.number))?;
    fields.push_optional_text(alloc, "type", &token.kind)?;
    Ok(fields.into_tree())
}

// Adds a token, if it is for the key slot of this number.
#[tactic(auto, unfolding(crate::specs::Token::named_token))]
fn push_named(
    alloc: Global,
    named: &mut Array,
    slot: u8,
    token: &TokenRow,
) -> Result<(), AllocError>
    ensures { OnOk result (named.new ≡ named.old ++ named_token slot token.now) }
{
    if is_for(slot, token) {
        named.push(name_tree(alloc, token)?)?;
    }
    Ok(())
}

/// The tokens for the key slot of this number.
pub(crate) fn slot_tokens(alloc: Global, slot: u8, tokens: &[TokenRow]) -> Result<Array, AllocError>
    ensures { IfOk result (λ named. named ≡ slot_tokens slot tokens.now) }
{
    let mut named = Array::new(alloc);
    for token in tokens {
        push_named(alloc, &mut named, slot, token)?;
    }
    Ok(named)
}
