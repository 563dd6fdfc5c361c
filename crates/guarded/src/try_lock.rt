//! Why a try has not acquired the lock.
use history::fault::Fault;

/// Why a call that may give up has not acquired the lock.
#[derive(Clone, Copy, Debug, PartialEq, Eq)]
pub enum TryLockFault {
    /// Another thread holds it, or waits for it and may not be overtaken, or the time was up.
    Missed,
    /// The call returned this fault: an interrupt ended it, or there was no room or no memory for its entry.
    Failed(Fault),
}
