//! What a seat can be doing for a while.

/// What a bar shows of a seat.
#[derive(Clone, Copy, Debug, PartialEq, Eq)]
pub enum Kind {
    /// It has exclusive holds.
    Exclusive,
    /// It has shared holds or permits.
    Shared,
    /// It waits in the queue.
    InLine,
    /// It waits on this condition.
    Asleep(u8),
}
