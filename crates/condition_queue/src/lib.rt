//! The waiters of a lock's conditions, until a signal, a timeout or an interrupt.
//!
//! Contracts see a list of seats for each condition, the longest waiting first, and for each waiter the holds
//! that it gave up. A signal moves waiters to the end of the wait queue, in order. All places are reserved at
//! the opening, so neither a wait nor a signal allocates. [`move_waiters`](following::move_waiters) updates
//! the wait queue and the conditions for an entry.
#![tactic(auto)]

pub mod following;
pub mod sleeper;
pub mod waiters;
