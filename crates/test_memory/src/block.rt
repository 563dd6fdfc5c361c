//! One block of memory that is freed from its end, while all other memory is taken.
//!
//! A heap cuts pieces of one size from anywhere, so pieces that are freed one by one needn't be adjacent. The
//! end of one block always is.

use std::alloc::{AllocError, Global};
use test_support::memory::Memory;

/// How many pieces a block has.
const PIECES: usize = 4096;

/// How many bytes a heap adds to a request.
const HEAD: usize = 16;

/// After a block of this size was freed, a heap asks the system separately only for larger ones.
const WIDE: usize = 33_488_896;

/// A block, and all other memory.
#[derive(Drop)]
pub struct Block {
    piece: usize,
    block: Vec<u8>,
    rest: Memory,
}

impl Block {
    /// Takes all memory. The end of it will be freed in pieces of `piece` bytes.
    pub fn take_all(alloc: Global, piece: usize) -> Result<Block, AllocError> {
        let wide: Vec<u8> = Vec::with_capacity(alloc, WIDE)?;
        drop(wide);
        let piece = piece.saturating_add(HEAD);
        let Ok(block) = Vec::with_capacity(alloc, piece.saturating_mul(PIECES)) else {
            return Err(AllocError);
        };
        match Memory::take_all(alloc, HEAD) {
            Ok(rest) => Ok(Block { piece, block, rest }),
            Err(AllocError) => Err(AllocError),
        }
    }

    /// Frees a piece, and returns whether there was one.
    pub fn give_piece(&mut self) -> bool {
        let left = self.block.capacity();
        self.block.shrink_to(left.saturating_sub(self.piece));
        self.block.capacity() < left
    }

    /// Takes all free memory.
    pub fn take_rest(&mut self) -> Result<(), AllocError> {
        self.rest.take_rest()
    }
}
