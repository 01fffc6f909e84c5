//! Scarce memory, for tests of what is reported when memory runs out.
//!
//! The allocator is the system's and cannot be made to fail. A test therefore allocates the whole
//! address space and frees it in small pieces: with each piece a run gets a little further, until
//! one does not run out of memory. Nothing else can be allocated meanwhile: make what a test needs
//! before, and assert after. Under `rt try`, which has another allocator, memory does not run out.

use std::alloc::{AllocError, Global};

// Block sizes go from more than the address space has down to the smallest block.
const LARGEST: usize = 1 << 47;

const HALVINGS: u32 = 44;

// Enough entries for the blocks that fill the address space.
const BLOCKS: usize = 1 << 18;

/// Memory that is used up, so that no other allocation succeeds.
#[derive(Drop)]
pub struct Scarcity {
    pieces: Vec<Vec<u8>>,
    blocks: Vec<Vec<u8>>,
}

impl Scarcity {
    /// Allocates all memory, with `count` pieces of `size` bytes in it that can be freed one by
    /// one. Pieces of less than 129 bytes serve only requests of their own size, and so do the
    /// first seven of less than 1,033.
    pub fn new(alloc: Global, count: usize, size: usize) -> Result<Scarcity, AllocError> {
        let mut pieces = Vec::with_capacity(alloc, count)?;
        let mut blocks = Vec::with_capacity(alloc, BLOCKS)?;
        for _ in 0..count {
            pieces.push(Vec::with_capacity(alloc, size)?)?;
        }
        let mut block_size = LARGEST;
        for _ in 0..HALVINGS {
            allocate(alloc, &mut blocks, block_size);
            block_size /= 2;
        }
        Ok(Scarcity { pieces, blocks })
    }

    /// Frees a piece.
    pub fn relent(&mut self) {
        self.pieces.pop();
    }
}

// Allocates blocks of this size until one allocation fails.
fn allocate(alloc: Global, blocks: &mut Vec<Vec<u8>>, size: usize) {
    for _ in 0..BLOCKS {
        if blocks.len() == blocks.capacity() {
            return;
        }
        let Ok(block) = Vec::with_capacity(alloc, size) else {
            return;
        };
        let _ = blocks.push(block);
    }
}
