//! H_0, and the first two blocks of each lane, which are made of it (RFC 9106, section 3.2, steps
//! 1, 3 and 4).

ghost use Rattle.std.specs.Prelude.{◌≡◌, ℕ, ◌+◌, ◌*◌, ◌++◌, ◌^◌, ◌≤◌, ◌<◌, List, length};
ghost use Rattle.luks_argon2.specs.Argon2.{block_of_bytes, first_block, first_digest};
ghost use Rattle.luks_argon2.specs.Argon2.{with_first_blocks};
ghost use Rattle.luks_argon2.specs.Hashing.{hasher_after};
ghost use Rattle.luks_argon2.specs.Words.{le32};

use crate::block::Block;
use crate::hashing::Hasher;
use crate::parameters::Parameters;
use crate::variable_length::variable_length_hash;
use crate::variant::{Variant, variant_number};
use crate::words::load_words;

const VERSION: u32 = 0x13;

// Absorbs the length, as LE32, and the bytes.
fn update_with_length(hasher: &mut Hasher, bytes: &[u8])
    requires { length bytes.now < 2 ^ 32 }
    ensures { (n : ℕ) → (m : List ℕ) → hasher.old ≡ hasher_after n m
        → length m + 2 ^ 33 < 2 ^ 64
        → hasher.new ≡ hasher_after n (m ++ le32 (length bytes.now) ++ bytes.now) }
{
    hasher.update_le32(bytes.len() as u32);
    hasher.update(bytes);
}

/// H_0, for a tag of `tag_len` bytes (step 1). The password goes from the caller's memory into the
/// hasher, block by block. The last two lengths are those of the secret value and the associated
/// data.
pub(crate) fn first_digest(
    variant: Variant,
    parameters: Parameters,
    password: &[u8],
    salt: &[u8],
    tag_len: u32,
) -> [u8; 64]
    requires password { length password.now < 2 ^ 32 }
    requires salt { length salt.now < 2 ^ 32 }
    ensures { result ≡ first_digest variant password.now salt.now parameters.passes
        parameters.memory_kib parameters.lanes tag_len }
{
    let mut hasher = Hasher::new(64);
    hasher.update_le32(parameters.lanes);
    hasher.update_le32(tag_len);
    hasher.update_le32(parameters.memory_kib);
    hasher.update_le32(parameters.passes);
    hasher.update_le32(VERSION);
    hasher.update_le32(variant_number(variant));
    update_with_length(&mut hasher, password);
    update_with_length(&mut hasher, salt);
    hasher.update_le32(0);
    hasher.update_le32(0);
    let mut digest = [0; 64];
    hasher.finish(&mut digest);
    digest
}

// The block with these bytes.
#[tactic(auto, unfolding(crate::specs::Argon2::block_of_bytes, crate::specs::Block::block_of))]
fn block_of_bytes(bytes: &[u8; 1024]) -> Block
    ensures { result ≡ block_of_bytes bytes.now }
{
    [
        load_words(bytes, 0),
        load_words(bytes, 128),
        load_words(bytes, 256),
        load_words(bytes, 384),
        load_words(bytes, 512),
        load_words(bytes, 640),
        load_words(bytes, 768),
        load_words(bytes, 896),
    ]
}

// Two numbers, each as LE32.
fn le32_pair(x: u32, y: u32) -> [u8; 8]
    ensures { result ≡ le32 x ++ le32 y }
{
    let [a, b, c, d] = x.to_le_bytes();
    let [e, f, g, h] = y.to_le_bytes();
    [a, b, c, d, e, f, g, h]
}

// What the block at column `column`, 0 or 1, of a lane is made of.
#[tactic(auto, using(crate::proofs::WordLemmas::joined_after, std::proofs::Common::append_assoc))]
fn block_input(h0: &[u8; 64], column: u32, lane: u32) -> [u8; 72]
    ensures { result ≡ h0.now ++ le32 column ++ le32 lane }
{
    let mut input = [0; 72];
    input[..64].copy_from_slice(h0);
    input[64..72].copy_from_slice(&le32_pair(column, lane));
    input
}

// The block at column `column`, 0 or 1, of a lane.
#[tactic(auto, unfolding(crate::specs::Argon2::first_block))]
fn first_block(h0: &[u8; 64], column: u32, lane: u32) -> Block
    ensures { result ≡ first_block h0.now column lane }
{
    let mut bytes = [0; 1024];
    variable_length_hash(&block_input(h0, column, lane), &mut bytes);
    block_of_bytes(&bytes)
}

/// Writes the first two blocks of each lane (steps 3 and 4).
#[tactic(auto, unfolding(crate::specs::Argon2::with_first_blocks))]
pub(crate) fn write_first_blocks(h0: &[u8; 64], lanes: u32, lane_len: usize, memory: &mut [Block])
    requires lane_len { 2 ≤ lane_len }
    requires size { length memory.old ≡ lanes * lane_len }
    ensures { memory.new ≡ with_first_blocks h0.now lane_len memory.old lanes }
{
    'lanes: for lane in 0..lanes {
        let first = lane as usize * lane_len;
        memory[first] = first_block(h0, 0, lane);
        memory[first + 1] = first_block(h0, 1, lane);
    }
}
