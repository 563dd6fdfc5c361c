//! Answers that no history records.

use history::fault::Fault;
use script::Call;

/// The answer to a call that no history records.
#[derive(Clone, Copy, Debug, PartialEq, Eq)]
pub struct Unrecorded {
    /// The thread that made the call, counted from 0.
    pub thread: u16,
    /// The number of the call, counted from 0 over all rounds of the thread.
    pub number: u64,
    pub call: Call,
    pub fault: Fault,
}

/// What a report says of the answers that no history records.
#[derive(Clone, Copy, Debug, PartialEq, Eq)]
pub enum Keep {
    /// How many there are.
    Count,
    /// Also which: those of worker 0 in the order of its calls, then those of worker 1, and so on.
    Each,
}
