//! The hooks of a counting semaphore and of a count-down latch.
#![tactic(auto)]

pub mod latch;
pub mod semaphore;
