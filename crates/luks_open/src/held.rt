//! The memory that was last asked for.

ghost use Rattle.std.specs.Prelude.{◌≡◌, IfOk};
ghost use Rattle.luks_argon2.specs.Parameters.{memory_blocks};

use luks_argon2::{Memory, Parameters};
use std::alloc::{AllocError, Global};

/// Memory for Argon2, with its size.
#[derive(Drop)]
pub(crate) struct HeldMemory {
    /// The memory.
    pub(crate) memory: Memory,
    /// The number of its blocks.
    pub(crate) blocks: usize,
    ghost counted: { memory ≡ blocks },
}

/// Memory for these parameters: what is held if it has their size, or else new memory, after the
/// old was freed.
///
/// # Errors
///
/// The allocation is refused.
pub(crate) fn memory_for(
    alloc: Global,
    held: Option<HeldMemory>,
    parameters: Parameters,
) -> Result<HeldMemory, AllocError>
    ensures { IfOk result (λ held. held.blocks
        ≡ memory_blocks parameters.memory_kib parameters.lanes) }
{
    let blocks = parameters.memory_blocks();
    if let Some(old) = held {
        if old.blocks == blocks {
            return Ok(old);
        }
    }
    let memory = Memory::new(alloc, parameters)?;
    Ok(HeldMemory { memory, blocks })
}
