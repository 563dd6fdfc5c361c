//! A writer that measures how much memory is free while something is written to it.

use crate::memory::Memory;
use std::alloc::{AllocError, Global};
use std::io;

/// The size of a piece of memory.
const PIECE: usize = 4096;

/// All memory but some pieces. At each write it counts how many of these are free.
///
/// A small block that was taken and freed between two writes is missed too: a heap keeps it for requests of
/// its size, and so one piece less has room.
#[derive(Drop)]
pub struct Watch {
    memory: Memory,
    /// How many pieces were free when it was opened.
    opening: usize,
    /// The fewest that were free at a write.
    fewest: usize,
    written: usize,
}

impl Watch {
    /// Takes all memory, and frees `pieces` pieces of it.
    pub fn open(alloc: Global, pieces: usize) -> Result<Watch, AllocError> {
        let mut memory = Memory::take_all(alloc, PIECE)?;
        memory.give_pieces(pieces);
        let opening = memory.free_pieces();
        Ok(Watch {
            memory,
            opening,
            fewest: opening,
            written: 0,
        })
    }

    /// Returns how many bytes were written.
    pub fn written(&self) -> usize {
        self.written
    }

    /// Returns how many pieces were missed at some write, of those that were free at the opening.
    pub fn missed(&self) -> usize {
        self.opening.saturating_sub(self.fewest)
    }
}

impl io::Write for Watch {
    fn write(&mut self, buf: &[u8]) -> io::Result<usize> {
        self.fewest = self.memory.free_pieces().min(self.fewest);
        self.written = self.written.saturating_add(buf.len());
        Ok(buf.len())
    }

    fn flush(&mut self) -> io::Result<()> {
        Ok(())
    }
}
