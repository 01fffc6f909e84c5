//! CBC (NIST SP 800-38A, 6.2) over data units of whole blocks.

ghost use Rattle.std.specs.Prelude.{◌≡◌, ◌+◌, ◌*◌, ◌/◌, ◌%◌, ◌≤◌, ◌++◌, List, ℕ, length};
ghost use Rattle.std.specs.Prelude.{take, drop};
ghost use Rattle.std.specs.Prelude.{slice_index};
ghost use Rattle.luks_aes.specs.Aes.{encrypted, decrypted};
ghost use Rattle.luks_aes.specs.Bytes.{IsBytes};
ghost use Rattle.luks_aes.specs.RoundKeys.{IsBatchKey};
ghost use Rattle.luks_cipher.specs.Xts.{block_xor, block_at};
ghost use Rattle.luks_cipher.specs.Cbc.{block_before, cbc_encrypted, cbc_decrypted};

use crate::block::{batch_size, block_of, block_xor};
use luks_aes::{AesKey, BatchKey, RoundKeys};
use std::simd::prelude::*;

// The elements of a key are bytes, as `AesKey::rounds` ensures.
#[inline(always)]
fn holds_bytes(key: &AesKey)
    ensures { IsBytes key.now }
{
    let _rounds = key.rounds();
}

// Encrypts one block of a chain, and returns it for the next one.
fn encrypt_link(key: &AesKey, before: [u8; 16], piece: &mut [u8]) -> [u8; 16]
    requires { length piece.old ≡ 16 }
    ensures value { piece.new ≡ encrypted key.now (block_xor piece.old before) }
    ensures next { result ≡ piece.new }
{
    let mut block = block_xor(block_of(piece), before);
    key.encrypt_block(&mut block);
    piece.copy_from_slice(&block);
    block
}

// Decrypts one block of a chain, and returns its cipher block for the next one.
fn decrypt_link(key: &AesKey, before: [u8; 16], piece: &mut [u8]) -> [u8; 16]
    requires { length piece.old ≡ 16 }
    ensures value { piece.new ≡ block_xor (decrypted key.now piece.old) before }
    ensures next { result ≡ piece.old }
{
    let block = block_of(piece);
    let mut plain = block;
    key.decrypt_block(&mut plain);
    piece.copy_from_slice(&block_xor(plain, before));
    block
}

// Writes the block before the first of a batch, and after it the batch.
fn put_chain(before: [u8; 16], batch: &[u8], chain: &mut [u8])
    requires whole { length batch.now % 16 ≡ 0 }
    requires capacity { length chain.old ≡ length batch.now + 16 }
    ensures { (n : ℕ) → 16 * n ≤ length batch.now
        → block_at chain.new n ≡ block_before before batch.now n }
{
    chain[..16].copy_from_slice(&before);
    chain[16..].copy_from_slice(batch);
}

// Decrypts a batch as `decrypt_batch` below does, with a mask of zeros and a buffer for the chain.
fn decrypt_by(
    keys: &RoundKeys,
    before: [u8; 16],
    zeros: &[u8],
    chain: &mut [u8],
    batch: &mut [u8],
) -> [u8; 16]
    requires whole { length batch.old % 512 ≡ 0 }
    requires least { 512 ≤ length batch.old }
    requires most { length batch.old ≤ 1024 }
    requires zeros { (i : ℕ) → slice_index zeros.now i ≡ 0 }
    requires size { length zeros.now ≡ length batch.old }
    requires capacity { length chain.old ≡ length batch.old + 16 }
    ensures value { (key : List ℕ) → IsBatchKey key keys.now
        → batch.new ≡ cbc_decrypted key before batch.old }
    ensures next { result ≡ block_before before batch.old (length batch.old / 16) }
{
    let len = batch.len();
    put_chain(before, batch, chain);
    keys.decrypt_batch(batch, zeros, &chain[..len]);
    block_of(&chain[len..len + 16])
}

// Decrypts a batch of 32 or 64 blocks of a chain, and returns the last cipher block for the next
// batch.
fn decrypt_batch(keys: &RoundKeys, before: [u8; 16], batch: &mut [u8]) -> [u8; 16]
    requires whole { length batch.old % 512 ≡ 0 }
    requires least { 512 ≤ length batch.old }
    requires most { length batch.old ≤ 1024 }
    ensures value { (key : List ℕ) → IsBatchKey key keys.now
        → batch.new ≡ cbc_decrypted key before batch.old }
    ensures next { result ≡ block_before before batch.old (length batch.old / 16) }
{
    let len = batch.len();
    let zeros = [0; 1024];
    let mut chain = [0; 1040];
    decrypt_by(keys, before, &zeros[..len], &mut chain[..len + 16], batch)
}

/// Decrypts a data unit of whole batches in place by CBC (NIST SP 800-38A, 6.2) under the IV and
/// the key whose round keys these are, if they are. Returns the last cipher block, or the IV of an
/// empty data unit.
pub(crate) fn decrypt_batches(keys: &RoundKeys, iv: [u8; 16], unit: &mut [u8]) -> [u8; 16]
    requires { length unit.old % 512 ≡ 0 }
    ensures value { (key : List ℕ) → IsBatchKey key keys.now
        → unit.new ≡ cbc_decrypted key iv unit.old }
    ensures next { result ≡ block_before iv unit.old (length unit.old / 16) }
{
    let mut before = iv;
    let blocks = unit.len() / 16;
    let mut done = 0;
    'batches: while blocks - done >= 32 {
        let count = batch_size(blocks - done);
        let next = decrypt_batch(keys, before, &mut unit[16 * done..16 * done + 16 * count]);
        before = next;
        done += count;
    }
    before
}

/// Encrypts the data unit, whole blocks of 16 bytes, in place by CBC under the key and the IV (NIST
/// SP 800-38A, 6.2).
pub fn encrypt_chain(key: &AesKey, iv: [u8; 16], unit: &mut [u8])
    requires { length unit.old % 16 ≡ 0 }
    ensures value { unit.new ≡ cbc_encrypted key.now iv unit.old }
    ensures undone { cbc_decrypted key.now iv unit.new ≡ unit.old }
{
    holds_bytes(key);
    let mut before = iv;
    for j in 0..unit.len() / 16 {
        let next = encrypt_link(key, before, &mut unit[16 * j..16 * j + 16]);
        before = next;
    }
}

/// Decrypts the data unit, whole blocks of 16 bytes, in place by CBC under the key and the IV (NIST
/// SP 800-38A, 6.2).
pub fn decrypt_chain(key: &BatchKey, iv: [u8; 16], unit: &mut [u8])
    requires { length unit.old % 16 ≡ 0 }
    ensures value { unit.new ≡ cbc_decrypted key.now iv unit.old }

    // Decrypting an encrypted data unit gives the plain one.
    ensures undoes { (plain : List ℕ) → IsBytes plain → length plain ≡ length unit.old
        → unit.old ≡ cbc_encrypted key.now iv plain → unit.new ≡ plain }
    ensures undone { cbc_encrypted key.now iv unit.new ≡ unit.old }
{
    let block_key = key.key();
    holds_bytes(block_key);
    let blocks = unit.len() / 16;
    let whole = blocks / 32 * 32;
    let mut before = decrypt_batches(key.round_keys(), iv, &mut unit[..16 * whole]);
    'rest: for j in whole..blocks {
        let next = decrypt_link(block_key, before, &mut unit[16 * j..16 * j + 16]);
        before = next;
    }
}

// Decrypts two data units as `decrypt_pair` below does, with a mask of zeros and a buffer for the
// blocks before theirs and one block more.
fn decrypt_pair_by(
    keys: &RoundKeys,
    iv: [u8; 16],
    next_iv: [u8; 16],
    zeros: &[u8],
    chains: &mut [u8],
    pair: &mut [u8],
)
    requires pair { length pair.old ≡ 1024 }
    requires zeros { (i : ℕ) → slice_index zeros.now i ≡ 0 }
    requires size { length zeros.now ≡ 1024 }
    requires capacity { length chains.old ≡ 1040 }
    ensures { (key : List ℕ) → IsBatchKey key keys.now
        → pair.new
        ≡ cbc_decrypted key iv (take 512 pair.old)
        ++ cbc_decrypted key next_iv (drop 512 pair.old) }
{
    put_chain(iv, &pair[..512], &mut chains[..528]);
    put_chain(next_iv, &pair[512..1024], &mut chains[512..1040]);
    keys.decrypt_batch(pair, zeros, &chains[..1024]);
}

/// Decrypts two data units of 512 bytes in place, each a chain with its own IV, under the key whose
/// round keys these are, if they are.
pub(crate) fn decrypt_both(keys: &RoundKeys, iv: [u8; 16], next_iv: [u8; 16], pair: &mut [u8])
    requires { length pair.old ≡ 1024 }
    ensures { (key : List ℕ) → IsBatchKey key keys.now
        → pair.new
        ≡ cbc_decrypted key iv (take 512 pair.old)
        ++ cbc_decrypted key next_iv (drop 512 pair.old) }
{
    let zeros = [0; 1024];
    let mut chains = [0; 1040];
    decrypt_pair_by(keys, iv, next_iv, &zeros, &mut chains, pair);
}

/// Decrypts two data units of 512 bytes in place, each a chain with its own IV.
pub fn decrypt_pair(key: &BatchKey, iv: [u8; 16], next_iv: [u8; 16], pair: &mut [u8])
    requires { length pair.old ≡ 1024 }
    ensures { pair.new
        ≡ cbc_decrypted key.now iv (take 512 pair.old)
        ++ cbc_decrypted key.now next_iv (drop 512 pair.old) }
{
    decrypt_both(key.round_keys(), iv, next_iv, pair);
}
