//! The memory that a derivation fills, which several derivations can share.

ghost use Rattle.std.specs.Prelude.{◌≡◌, ◌≤◌, ℕ, IfOk, length, replicate};
ghost use Rattle.luks_argon2.specs.Block.{zero_block};
ghost use Rattle.luks_argon2.specs.Parameters.{memory_blocks};

use crate::block::{Block, ZERO_BLOCK};
use crate::parameters::Parameters;
use std::alloc::{AllocError, Global};
use std::marker::Model;

/// Blocks of 1 KiB, in one allocation. They are zeros but during a derivation.
///
/// Contracts see the number of blocks.
#[derive(Drop)]
pub struct Memory {
    pub(crate) blocks: Vec<Block>,
}

impl Model for Memory {
    ghost Value = { ℕ };

    ghost view = { λ m. length m.blocks.items };

    ghost invariant = { λ m. (1 ≤ length m.blocks.items)
        × (m.blocks.items ≡ replicate (length m.blocks.items) zero_block) };
}

impl Memory {
    /// The memory that derivations with these parameters fill.
    ///
    /// # Errors
    ///
    /// The allocation is refused.
    pub fn new(alloc: Global, parameters: Parameters) -> Result<Memory, AllocError>
        ensures { IfOk result (λ memory. memory
            ≡ memory_blocks parameters.memory_kib parameters.lanes) }
    {
        let count = parameters.memory_blocks();
        let mut blocks = Vec::new(alloc);
        blocks.try_reserve_exact(count)?;
        blocks.resize(count, ZERO_BLOCK)?;
        Ok(Memory { blocks })
    }
}

/// Writes zeros over all blocks.
pub(crate) fn clear(blocks: &mut [Block])
    ensures { blocks.new ≡ replicate (length blocks.old) zero_block }
{
    'zeros: for i in 0..blocks.len() {
        blocks[i] = ZERO_BLOCK;
    }
}
