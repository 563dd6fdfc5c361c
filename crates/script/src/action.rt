//! What a worker asks of an object.

use history::entry::Mode;
use monitor::How;

/// A call of a monitor, for the seat of the calling thread.
///
/// The object may lack the mode, the amount or the condition. The monitor then refuses the call.
#[derive(Clone, Copy, Debug, PartialEq, Eq)]
pub enum Action {
    /// Acquires an amount in a mode, and waits in this way.
    Acquire(Mode, u32, How),
    /// Acquires an amount in a mode, or fails at once.
    TryAcquire(Mode, u32),
    /// Releases an amount in a mode. On a latch it counts down.
    Release(Mode, u32),
    /// Releases all holds, and waits on a condition in this way.
    AwaitOn(u8, How),
    /// Moves the longest waiter of a condition to the wait queue.
    Signal(u8),
    /// Moves all waiters of a condition to the wait queue.
    SignalAll(u8),
    /// Takes all free permits.
    Drain,
    /// Folds the entries of the history into its base. No entry records it.
    Trim,
}
