//! The wait queue of a synchroniser: the threads that wait to acquire, the longest waiting first.
//!
//! Contracts see a queue as a list of arrivals, at most one for each seat, and as the nodes that hold them,
//! with the cancelled nodes of seats that left. All places are reserved when the queue is opened, so nothing
//! later allocates.
#![tactic(auto)]

pub mod queue;
