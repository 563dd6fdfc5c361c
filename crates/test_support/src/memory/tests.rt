//! The heap refuses what was taken, and returns what was freed.

use super::*;
use std::test::Fail;

/// A leak of one byte takes part of a piece, so the whole piece is missed.
#[test]
fn a_piece_of_which_a_byte_is_taken_is_not_free(rt: HostRuntime) -> Result<(), Fail> {
    let mut memory = Memory::take_all(rt.alloc(), 4096)?;
    assert_eq!(rt; memory.free_pieces(), 0);
    memory.give_pieces(3);
    assert_eq!(rt; memory.free_pieces(), 3);
    let byte: Vec<u8> = Vec::with_capacity(rt.alloc(), 1)?;
    assert_eq!(rt; memory.free_pieces(), 2);
    assert!(rt; memory.take_piece());
    drop(byte);
    Ok(())
}
