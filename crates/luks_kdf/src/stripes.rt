//! Anti-forensic stripes (LUKS1 On-Disk Format 1.2.3, "AF splitting").

ghost use Rattle.std.specs.Prelude.{◌≡◌, ◌+◌, ◌*◌, ◌≤◌, ◌++◌, length, replicate, take};
ghost use Rattle.std.specs.Int.{to_be_bytes, w32};
ghost use Rattle.luks_kdf.specs.Bytes.{xor};
ghost use Rattle.luks_kdf.specs.Hash.{hash_of, digest_len};
ghost use Rattle.luks_kdf.specs.Stripes.{AreStripes, AfSplitterModel, IsSplit, splitter_after};
ghost use Rattle.luks_kdf.specs.Stripes.{diffused, splitter_with, merged};

use crate::Hash;
use crate::bytes::xor_into;
use crate::mac::digest;
use std::marker::Model;

const MAX_DIGEST: usize = 64;

const MAX_KEY: usize = 512;

/// Splits or merges a key one stripe at a time.
///
/// Contracts see its hash function and its block d, which is zeros at first and has the length of
/// the key throughout.
#[derive(Drop)]
pub struct AfSplitter {
    hash: Hash,
    len: usize,
    block: [u8; MAX_KEY],
}

impl Model for AfSplitter {
    ghost Value = { AfSplitterModel };

    ghost view = { λ s. record { hash = s.hash; block = take s.len s.block } };

    ghost invariant = { λ s. s.len ≤ 512 };
}

impl AfSplitter {
    /// A splitter of a key of `len` bytes, before its first stripe.
    pub fn new(hash: Hash, len: usize) -> AfSplitter
        requires some { 1 ≤ len }
        requires capacity { len ≤ 512 }
        ensures start { result ≡ record { hash = hash; block = replicate len 0 } }
        ensures len { length result.block ≡ len }
    {
        AfSplitter {
            hash,
            len,
            block: [0; MAX_KEY],
        }
    }

    /// Absorbs the next stripe, which is not the last.
    pub fn stripe(&mut self, stripe: &[u8])
        requires { length stripe.now ≡ length self.old.block }
        ensures next { self.new ≡ splitter_with self.old stripe.now }
        ensures len { length self.new.block ≡ length self.old.block }
    {
        let hash = self.hash;
        let len = self.len;
        let block = &mut self.block[..len];
        xor_into(block, stripe);
        diffuse(hash, block);
    }

    /// Writes the last stripe if `block` is the key, and the key if `block` is the last stripe.
    pub fn last(self, block: &[u8], out: &mut [u8])
        requires block { length block.now ≡ length self.block }
        requires out { length out.old ≡ length self.block }
        ensures { out.new ≡ xor self.block block.now }
    {
        out.copy_from_slice(&self.block[..self.len]);
        xor_into(out, block);
    }
}

// Applies Diffuse to the block.
fn diffuse(hash: Hash, block: &mut [u8])
    requires { length block.old ≤ 512 }
    ensures { block.new ≡ diffused hash block.old }
{
    let size = hash.size();
    let count = block.len().div_ceil(size);
    'pieces: for j in 0..count {
        let start = j * size;
        let end = (start + size).min(block.len());
        diffuse_piece(hash, j as u32, &mut block[start..end]);
    }
}

// Diffuses the piece with this number.
fn diffuse_piece(hash: Hash, number: u32, piece: &mut [u8])
    requires { length piece.old ≤ digest_len hash }
    ensures { piece.new
        ≡ take (length piece.old) (hash_of hash (to_be_bytes w32 number ++ piece.old)) }
{
    let mut buffer = [0; MAX_DIGEST];
    let whole = &mut buffer[..hash.size()];
    digest(hash, &number.to_be_bytes(), piece, &[], whole);
    piece.copy_from_slice(&whole[..piece.len()]);
}

// The splitter after the first `count` stripes.
fn splitter_after(hash: Hash, len: usize, stripes: &[u8], count: usize) -> AfSplitter
    requires some { 1 ≤ len }
    requires capacity { len ≤ 512 }
    requires there { count * len ≤ length stripes.now }
    ensures start { result ≡ splitter_after hash len stripes.now count }
    ensures len { length result.block ≡ len }
{
    let mut splitter = AfSplitter::new(hash, len);
    'stripes: for i in 0..count {
        splitter.stripe(&stripes[i * len..i * len + len]);
    }
    splitter
}

/// Splits `key` into as many stripes as fit into `out`: the random ones, which come first, and one
/// more that makes them merge to the key.
pub fn af_split(hash: Hash, key: &[u8], random: &[u8], out: &mut [u8])
    requires some { 1 ≤ length key.now }
    requires capacity { length key.now ≤ 512 }
    requires out { AreStripes (length key.now) out.old }
    requires random { length random.now + length key.now ≡ length out.old }
    ensures split { IsSplit hash random.now key.now out.new }
    ensures merges { merged hash (length key.now) out.new ≡ key.now }
{
    let count = random.len() / key.len();
    let splitter = splitter_after(hash, key.len(), random, count);
    let (prefix, last) = out.split_at_mut(random.len());
    prefix.copy_from_slice(random);
    splitter.last(key, last);
}

/// Writes the key that the stripes merge to. Each stripe is as long as `out`.
pub fn af_merge(hash: Hash, stripes: &[u8], out: &mut [u8])
    requires some { 1 ≤ length out.old }
    requires capacity { length out.old ≤ 512 }
    requires stripes { AreStripes (length out.old) stripes.now }
    ensures { out.new ≡ merged hash (length out.old) stripes.now }
{
    let len = out.len();
    let before = stripes.len() / len - 1;
    let splitter = splitter_after(hash, len, stripes, before);
    splitter.last(&stripes[before * len..], out);
}
