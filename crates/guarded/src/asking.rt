//! What the calls of a pool ask of its monitor.
use monitor::How;

/// A call of a pool.
#[derive(Clone, Copy)]
pub(crate) enum PoolCall {
    /// Waits in the queue for this many items.
    Acquire(u32, How),
    /// Acquires this many items if the pool has them, past the waiters unless it is strict.
    Try(u32),
    /// Releases this many items.
    Release(u32),
}
