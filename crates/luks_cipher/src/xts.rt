//! XTS-AES (IEEE 1619) over data units of whole blocks.

ghost use Rattle.std.specs.Prelude.{◌≡◌, ◌+◌, ◌*◌, ◌/◌, ◌%◌, ◌<◌, ◌≤◌, List, ℕ, ◌++◌, length};
ghost use Rattle.std.specs.Prelude.{take, drop, Some, None, if◌then◌else◌, true};
ghost use Rattle.luks_aes.specs.RoundKeys.{IsBatchKey};
ghost use Rattle.luks_cipher.specs.Expanded.{AreXtsKeys};
ghost use Rattle.luks_cipher.specs.Xts.{data_key, doubled, tweak_of, block_at};
ghost use Rattle.luks_kdf.specs.Bytes.{joined};
ghost use Rattle.luks_cipher.specs.Xts.{block_encrypted, block_decrypted, xts_encrypted};
ghost use Rattle.luks_cipher.specs.Xts.{xts_decrypted, is_xts_key_length, tweak_after, IsKeyPair};
ghost use Rattle.luks_aes.specs.Bytes.{IsBytes};

use crate::block::{batch_size, block_of, xor_vector};
use crate::mode::Mode;
use crate::units::UnitKeys;
use luks_aes::{AesKey, BatchKey, RoundKeys};
use std::marker::Model;
use std::simd::prelude::*;

// The tweak times the primitive element (5.2): both halves are doubled, the carry of the low half
// goes into the high one, and the carry of the high half reduces to 0x87 in the low one. The
// carries are the top bits of words 1 and 3, which processors get sooner than those of halves.
#[inline(always)]
fn doubled(tweak: u8x16) -> u8x16
    ensures { result ≡ doubled tweak }
{
    let carries = (u32x4::from_le_bytes(tweak) >> 31) * u32x4::from_array([0, 1, 0, 0x87]);
    let carried = u64x2::from_le_bytes(carries.shuffle(carries, [3, 0, 1, 2]).to_le_bytes());
    ((u64x2::from_le_bytes(tweak) << 1) ^ carried).to_le_bytes()
}

// Writes the tweaks of the blocks of a batch, the first of which is `tweak`, and returns the one
// after them.
fn put_tweaks(tweak: u8x16, tweaks: &mut [u8]) -> u8x16
    requires { length tweaks.old % 16 ≡ 0 }
    ensures value { (n : ℕ) → n < length tweaks.old / 16
        → block_at tweaks.new n ≡ tweak_after tweak n }
    ensures next { result ≡ tweak_after tweak (length tweaks.old / 16) }
{
    let mut last = tweak;
    for n in 0..tweaks.len() / 16 {
        last.copy_to_slice(&mut tweaks[16 * n..16 * n + 16]);
        let next = doubled(last);
        last = next;
    }
    last
}

// Decrypts each block of a batch of 32 or 64 under its tweak. The round keys are those for the
// data.
fn decrypt_under(keys: &RoundKeys, tweaks: &[u8], batch: &mut [u8])
    requires whole { length batch.old % 512 ≡ 0 }
    requires least { 512 ≤ length batch.old }
    requires most { length batch.old ≤ 1024 }
    requires tweaks { length tweaks.now ≡ length batch.old }
    ensures { (key : List ℕ) (n : ℕ) → IsBatchKey (data_key key) keys.now
        → 16 * n < length batch.old
        → block_at batch.new n
        ≡ block_decrypted key (block_at tweaks.now n) (block_at batch.old n) }
{
    keys.decrypt_batch(batch, tweaks, tweaks);
}

// Decrypts a batch of 32 or 64 blocks, the first of them under `tweak`, and returns the tweak of
// the block after them. The buffer for their tweaks is as long as the batch.
fn decrypt_batch(keys: &RoundKeys, tweak: u8x16, tweaks: &mut [u8], batch: &mut [u8]) -> u8x16
    requires whole { length batch.old % 512 ≡ 0 }
    requires least { 512 ≤ length batch.old }
    requires most { length batch.old ≤ 1024 }
    requires capacity { length tweaks.old ≡ length batch.old }
    ensures value { (key : List ℕ) → IsBatchKey (data_key key) keys.now
        → batch.new
        ≡ joined (λ n. block_decrypted key (tweak_after tweak n) (block_at batch.old n))
        (length batch.old / 16) }
    ensures next { result ≡ tweak_after tweak (length batch.old / 16) }
{
    let next = put_tweaks(tweak, tweaks);
    decrypt_under(keys, tweaks, batch);
    next
}

/// Decrypts the blocks of whole batches in place, the first of them under `first_tweak`, and
/// returns the tweak of the block after them. The round keys are those for the data.
pub(crate) fn decrypt_batches(keys: &RoundKeys, first_tweak: u8x16, batches: &mut [u8]) -> u8x16
    requires { length batches.old % 512 ≡ 0 }
    ensures value { (key : List ℕ) → IsBatchKey (data_key key) keys.now
        → batches.new
        ≡ joined (λ n. block_decrypted key (tweak_after first_tweak n) (block_at batches.old n))
        (length batches.old / 16) }
    ensures next { result ≡ tweak_after first_tweak (length batches.old / 16) }
{
    let mut tweak = first_tweak;
    let blocks = batches.len() / 16;
    let mut tweaks = [0; 1024];
    let mut done = 0;
    'batches: while blocks - done >= 32 {
        let count = batch_size(blocks - done);
        let batch = &mut batches[16 * done..16 * done + 16 * count];
        let next = decrypt_batch(keys, tweak, &mut tweaks[..16 * count], batch);
        tweak = next;
        done += count;
    }
    tweak
}

/// Decrypts two data units of 512 bytes in place, with the tweak of the first block of each, under
/// the key whose round keys for the data these are, if they are.
pub(crate) fn decrypt_both(keys: &RoundKeys, first: u8x16, second: u8x16, units: &mut [u8])
    requires { length units.old ≡ 1024 }
    ensures { (key : List ℕ) (m n : ℕ) → IsBatchKey (data_key key) keys.now
        → first ≡ tweak_of key m 0 → second ≡ tweak_of key n 0
        → units.new
        ≡ xts_decrypted key m (take 512 units.old) ++ xts_decrypted key n (drop 512 units.old) }
{
    let mut tweaks = [0; 1024];
    let (low, high) = tweaks.split_at_mut(512);
    put_tweaks(first, low);
    put_tweaks(second, high);
    decrypt_under(keys, &tweaks, units);
}

// Whether a key can have this number of bytes.
fn has_length(len: usize) -> bool
    ensures { result ≡ is_xts_key_length len }
{
    len == 32 || len == 64
}

/// A key of XTS-AES-128 or XTS-AES-256 (IEEE 1619). Contracts see it as its bytes: the first half
/// is the key for the data, and the second half is the key for the tweaks.
#[derive(Drop)]
pub struct XtsKey {
    data_key: BatchKey,
    tweak_key: AesKey,
}

impl Model for XtsKey {
    ghost Value = { List ℕ };

    ghost view = { λ k. k.data_key ++ k.tweak_key };

    ghost invariant = { λ k. IsKeyPair k.data_key k.tweak_key };
}

impl XtsKey {
    /// The key of 32 or 64 bytes; `None` for any other length.
    pub fn new(key: &[u8]) -> Option<XtsKey>
        ensures { result ≡ (if is_xts_key_length (length key.now) then Some key.now else None) }
    {
        if has_length(key.len()) {
            Some(XtsKey::expanded(key))
        } else {
            None
        }
    }

    /// The key with these 32 or 64 bytes. (It is inlined for the same reason as a batch key's.)
    #[inline(always)]
    pub fn expanded(key: &[u8]) -> XtsKey
        requires { is_xts_key_length (length key.now) ≡ true }
        ensures { result ≡ key.now }
    {
        let (data_key, tweak_key) = key.split_at(key.len() / 2);
        XtsKey {
            data_key: BatchKey::expanded(data_key),
            tweak_key: AesKey::expanded(tweak_key),
        }
    }

    // The tweak of the first block of a data unit (5.3.1).
    fn first_tweak(&self, number: u64) -> u8x16
        ensures value { result ≡ tweak_of self.now number 0 }
        ensures key_bytes { IsBytes self.now }
    {
        let mut tweak = u128::from(number).to_le_bytes();
        self.tweak_key.encrypt_block(&mut tweak);
        u8x16::from_array(tweak)
    }

    // Encrypts one block under its tweak (5.3.1).
    fn encrypt_piece(&self, tweak: u8x16, piece: &mut [u8])
        requires { length piece.old ≡ 16 }
        ensures { piece.new ≡ block_encrypted self.now tweak piece.old }
    {
        xor_vector(tweak, piece);
        let mut block = block_of(piece);
        self.data_key.key().encrypt_block(&mut block);
        piece.copy_from_slice(&block);
        xor_vector(tweak, piece);
    }

    // Decrypts one block under its tweak (5.4.1).
    fn decrypt_piece(&self, tweak: u8x16, piece: &mut [u8])
        requires { length piece.old ≡ 16 }
        ensures { piece.new ≡ block_decrypted self.now tweak piece.old }
    {
        xor_vector(tweak, piece);
        let mut block = block_of(piece);
        self.data_key.key().decrypt_block(&mut block);
        piece.copy_from_slice(&block);
        xor_vector(tweak, piece);
    }

    /// Encrypts the data unit of this number in place (IEEE 1619, 5.3.2). Its length is a multiple
    /// of 16 bytes, from 16 to 4096.
    pub fn encrypt_unit(&self, number: u64, unit: &mut [u8])
        requires whole_blocks { length unit.old % 16 ≡ 0 }
        requires shortest { 16 ≤ length unit.old }
        requires longest { length unit.old ≤ 4096 }
        ensures value { unit.new ≡ xts_encrypted self.now number unit.old }
        ensures undone { xts_decrypted self.now number unit.new ≡ unit.old }
    {
        let mut tweak = self.first_tweak(number);
        for j in 0..unit.len() / 16 {
            self.encrypt_piece(tweak, &mut unit[16 * j..16 * j + 16]);
            let next = doubled(tweak);
            tweak = next;
        }
    }

    /// Decrypts the data unit of this number in place (IEEE 1619, 5.4.2). Its length is a multiple
    /// of 16 bytes, from 16 to 4096.
    pub fn decrypt_unit(&self, number: u64, unit: &mut [u8])
        requires whole_blocks { length unit.old % 16 ≡ 0 }
        requires shortest { 16 ≤ length unit.old }
        requires longest { length unit.old ≤ 4096 }
        ensures value { unit.new ≡ xts_decrypted self.now number unit.old }

        // Decrypting an encrypted data unit gives the plain one.
        ensures undoes { (plain : List ℕ) → IsBytes plain → length plain ≡ length unit.old
            → unit.old ≡ xts_encrypted self.now number plain → unit.new ≡ plain }
        ensures undone { xts_encrypted self.now number unit.new ≡ unit.old }
    {
        let first_tweak = self.first_tweak(number);
        let blocks = unit.len() / 16;
        let whole = blocks / 32 * 32;
        let batches = &mut unit[..16 * whole];
        let mut tweak = decrypt_batches(self.data_key.round_keys(), first_tweak, batches);
        'rest: for j in whole..blocks {
            self.decrypt_piece(tweak, &mut unit[16 * j..16 * j + 16]);
            let next = doubled(tweak);
            tweak = next;
        }
    }

    /// The same keys as they are used for whole batches, in one of the modes of XTS.
    pub(crate) fn unit_keys(&self, mode: Mode) -> UnitKeys<'_>
        ensures mode { result.mode ≡ mode }
        ensures keys { AreXtsKeys self.now result.round_keys.now result.iv_or_tweak.now }
    {
        UnitKeys {
            mode,
            round_keys: self.data_key.round_keys(),
            iv_or_tweak: self.tweak_key.schedule(),
        }
    }

    /// Decrypts two data units of 512 bytes in place, each under its own number.
    pub fn decrypt_pair(&self, first: u64, second: u64, units: &mut [u8])
        requires { length units.old ≡ 1024 }
        ensures { units.new
            ≡ xts_decrypted self.now first (take 512 units.old)
            ++ xts_decrypted self.now second (drop 512 units.old) }
    {
        let first_tweak = self.first_tweak(first);
        let second_tweak = self.first_tweak(second);
        decrypt_both(self.data_key.round_keys(), first_tweak, second_tweak, units);
    }
}
