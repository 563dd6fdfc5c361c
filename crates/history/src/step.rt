//! The steps of a seat, and their answers.

use crate::entry::{Entry, Mode};

/// What a thread asks of an object in one critical section.
#[derive(Clone, Copy, Debug, PartialEq, Eq)]
pub enum Step {
    /// Acquires, or joins the queue.
    Acquire(Mode, u32),
    /// Acquires or fails at once. An untimed try barges past the queue, except in a strict object.
    Try(Mode, u32),
    /// Acquires or fails at once, as an acquire with a timeout of zero. It doesn't barge in a fair or strict
    /// object.
    TryFair(Mode, u32),
    /// Fails, because an interrupt was pending when an acquire or await began.
    EntryInterrupt(Mode, u32),
    /// Releases a hold or permits, or lowers a latch's count.
    Give(Mode, u32),
    /// A waiter retries.
    Look,
    /// The timeout of a waiter has passed.
    Expire,
    /// A waiter was interrupted.
    Interrupt,
    /// The owner releases all its holds and waits on a condition.
    Await(u8),
    /// Moves the longest waiter of a condition to the queue.
    Signal(u8),
    /// Moves all waiters of a condition to the queue.
    SignalAll(u8),
    /// Takes all free permits.
    Drain,
}

/// What a step returns, unless it returns an unrecorded fault.
#[derive(Clone, Copy, Debug, PartialEq, Eq)]
pub enum Answer {
    /// The entry that was recorded, and the seat that it names: a waiter that can go now and couldn't before.
    Recorded(Entry, Option<u16>),
    /// Nothing was recorded, and the seat keeps waiting.
    Sleep,
}
