//! All memory of the heap, for tests in which allocations fail.
//!
//! A test takes the whole heap first, so each further allocation of a core, a history or a table really
//! fails. Untouched memory costs next to nothing.

ghost use Rattle.std.specs.Prelude.{◌≡◌, ◌+◌, ◌-◌, ◌<◌, ◌≤◌, ◌↔◌, All, IfOk, IsTrue, if◌then◌else◌, vec_capacity};

use std::alloc::{AllocError, Global};
use std::marker::Model;

/// The most blocks that are taken.
const MOST: usize = 65_536;

/// Blocks of each size up to this are taken, since a heap may keep small blocks for requests of exactly their
/// size.
const FINE: usize = 2048;

/// The smallest block of a heap.
const LEAST: usize = 16;

/// How many adjacent pieces are taken, to be freed one after another.
const PIECES: usize = 4096;

/// Takes all memory that the heap gives, the largest blocks first, down to blocks of `least` bytes.
pub fn all_memory(alloc: Global, least: usize) -> Result<Vec<Vec<u8>>, AllocError>
    ensures { IfOk result (λ blocks. All (λ block. least ≤ vec_capacity block) blocks.items) }
{
    let mut blocks = Vec::with_capacity(alloc, MOST)?;
    take(alloc, &mut blocks, least, least)?;
    Ok(blocks)
}

/// Takes all free memory, down to blocks of `least` bytes. Each time that an allocation fails it halves the
/// size, or subtracts 16 bytes if the size is at most `fine`.
fn take(
    alloc: Global,
    blocks: &mut Vec<Vec<u8>>,
    fine: usize,
    least: usize,
) -> Result<(), AllocError>
    ensures { All (λ block. least ≤ vec_capacity block) blocks.old.items
        → All (λ block. least ≤ vec_capacity block) blocks.new.items }
{
    let mut size = least.max(1 << 46);
    for _ in 0..MOST {
        match Vec::with_capacity(alloc, size) {
            Ok(block) => blocks.push(block)?,
            Err(_) if fine < size => size = (size / 2).max(least),
            Err(_) if least < size => size = size.saturating_sub(16).max(least),
            Err(_) => break,
        }
    }
    Ok(())
}

/// All memory, a part of it in small pieces. Contracts see the number of pieces that are left.
#[derive(Drop)]
pub struct Memory {
    alloc: Global,
    piece: usize,
    pieces: Vec<Vec<u8>>,
    rest: Vec<Vec<u8>>,
}

impl Model for Memory {
    ghost use Rattle.std.specs.Prelude.{ℕ, vec_len};

    ghost Value = { ℕ };

    ghost view = { λ memory. vec_len memory.pieces };
}

impl Memory {
    /// Takes all memory, first in pieces of `piece` bytes and then in blocks of each size.
    pub fn take_all(alloc: Global, piece: usize) -> Result<Memory, AllocError>
        ensures { IfOk result (λ pieces. pieces ≡ 4096) }
    {
        let rest = Vec::with_capacity(alloc, MOST)?;
        let mut pieces = Vec::with_capacity(alloc, PIECES)?;
        for _ in 0..PIECES {
            pieces.push(Vec::with_capacity(alloc, piece)?)?;
        }
        let mut memory = Memory {
            alloc,
            piece,
            pieces,
            rest,
        };
        memory.take_rest()?;
        Ok(memory)
    }

    /// Takes all free memory, the largest blocks first.
    pub fn take_rest(&mut self) -> Result<(), AllocError>
        ensures { self.new ≡ self.old }
    {
        take(self.alloc, &mut self.rest, FINE, LEAST)
    }

    /// Frees a piece, and returns whether there was one.
    pub fn give_piece(&mut self) -> bool
        ensures was { IsTrue result ↔ 0 < self.old }
        ensures left { self.new ≡ self.old - 1 }
    {
        self.pieces.pop().is_some()
    }

    /// Takes one more piece, and returns whether there was memory for it.
    pub fn take_piece(&mut self) -> bool
        ensures { self.new ≡ (if result then self.old + 1 else self.old) }
    {
        match Vec::with_capacity(self.alloc, self.piece) {
            Ok(piece) => self.pieces.push(piece).is_ok(),
            Err(_) => false,
        }
    }

    /// Takes all pieces that there is memory for, and returns how many.
    pub fn take_pieces(&mut self) -> usize
        ensures { self.new ≡ self.old + result }
    {
        for taken in 0..PIECES {
            if !self.take_piece() {
                return taken;
            }
        }
        PIECES
    }

    /// Frees `count` pieces.
    pub fn give_pieces(&mut self, count: usize)
        ensures { self.new ≡ self.old - count }
    {
        for _ in 0..count {
            let _was_left = self.give_piece();
        }
    }

    /// Returns how many pieces there is memory for. They are taken and freed again.
    pub fn free_pieces(&mut self) -> usize
        ensures { self.new ≡ self.old }
    {
        let free = self.take_pieces();
        self.give_pieces(free);
        free
    }
}

#[cfg(test)]
mod tests;
