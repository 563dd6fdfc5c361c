//! One entry of a history.

use crate::fault::Fault;

/// How an object is asked for and held. A lock and the write side of a read-write lock are held exclusively
/// (X). The read side, the permits of a semaphore and a latch's gate are shared (S).
#[derive(Clone, Copy, Debug, PartialEq, Eq)]
pub enum Mode {
    X,
    S,
}

/// How a wait ended. An entry that ends no wait has `None`.
#[derive(Clone, Copy, Debug, PartialEq, Eq)]
pub enum End {
    None,
    Timeout,
    Interrupt,
    Signalled,
}

/// The kind of an entry.
#[derive(Clone, Copy, Debug, PartialEq, Eq)]
pub enum Word {
    /// A new acquire, timed or untimed, succeeded at once.
    Got,
    /// An untimed try succeeded at once.
    TryGot,
    /// A new acquire joined the queue.
    Queued,
    /// An acquire that waited in the queue succeeded.
    Granted,
    /// A try, or an acquire with a timeout of zero, failed.
    Missed,
    /// An acquire that waited in the queue gave up, by a timeout or an interrupt.
    Left,
    /// A hold, or `n` permits, were released.
    Gave,
    /// A call was refused, and no holding changed.
    Refused(Fault),
    /// All exclusive holds, `n` of them, were released, and the seat waits on a condition.
    Await,
    /// A wait on a condition ended by a timeout or an interrupt, and the waiter joined the queue.
    Lapse,
    /// The longest waiter of a condition moved to the queue; `n` is 0 if nobody waited there.
    Signal,
    /// All `n` waiters of a condition moved to the queue.
    SignalAll,
    /// An await ended, and its `n` holds are held again.
    Back,
    /// A latch's count was lowered, or stayed at 0.
    Counted,
    /// All free permits, `n` of them, were taken.
    Drained,
}

/// One event of a history: what a seat did, and how it ended.
#[derive(Clone, Copy, Debug, PartialEq, Eq)]
pub struct Entry {
    /// The number of permits, holds or waiters, by the word. For an acquire or a release of a lock it is 1.
    pub n: u32,
    /// The thread, as a number from 0.
    pub seat: u16,
    pub word: Word,
    pub mode: Mode,
    /// The condition, for the five words that concern one; 0 for all others.
    pub at: u8,
    pub end: End,
}
