//! What is told of a seat.

use crate::tally::Wait;

/// What is told of a seat.
#[derive(Clone, Copy, Debug, Drop, PartialEq, Eq)]
pub struct Row {
    pub seat: u16,
    /// The calls that ended.
    pub calls: u64,
    /// The acquires that took at once.
    pub took: u64,
    /// The acquires that waited in the queue.
    pub queued: u64,
    /// The longest wait, and of those the oldest.
    pub longest: Option<Wait>,
    /// How often an acquire of another seat took at once while this one waited.
    pub passed: u64,
    pub timeouts: u64,
    pub interrupts: u64,
    /// The exclusive holds after the last entry.
    pub exclusive: u128,
    /// The shared holds, or permits, after the last entry.
    pub shared: u128,
}
