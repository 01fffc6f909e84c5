//! Blocks: eight rows of 16 words (RFC 9106, section 3.5).

ghost use Rattle.std.specs.Prelude.{◌≡◌};
ghost use Rattle.luks_argon2.specs.Block.{xor_blocks, xor_rows};

/// A block of 1024 bytes.
pub(crate) type Block = [[u64; 16]; 8];

/// ZERO.
pub(crate) const ZERO_BLOCK: Block = [[0; 16]; 8];

/// The XOR of two rows.
#[inline(always)]
#[tactic(auto, unfolding(crate::specs::Block::xor_rows))]
pub(crate) fn xor_rows(x: [u64; 16], y: [u64; 16]) -> [u64; 16]
    ensures { result ≡ xor_rows x y }
{
    [
        x[0] ^ y[0],
        x[1] ^ y[1],
        x[2] ^ y[2],
        x[3] ^ y[3],
        x[4] ^ y[4],
        x[5] ^ y[5],
        x[6] ^ y[6],
        x[7] ^ y[7],
        x[8] ^ y[8],
        x[9] ^ y[9],
        x[10] ^ y[10],
        x[11] ^ y[11],
        x[12] ^ y[12],
        x[13] ^ y[13],
        x[14] ^ y[14],
        x[15] ^ y[15],
    ]
}

/// Replaces a block by its XOR with another one.
pub(crate) fn xor_into(x: &mut Block, y: &Block)
    ensures { x.new ≡ xor_blocks x.old y.now }
{
    'rows: for i in 0..8 {
        x[i] = xor_rows(x[i], y[i]);
    }
}
