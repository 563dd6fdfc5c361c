//! Judges a history: whether each entry is the one that a step of its seat makes, and what the totals are.
//!
//! - [`judge`](verdict::judge) returns the totals of a legal history, or the first illegal entry.
//! - [`Auditor`](auditor::Auditor) judges entries as they come, and keeps none of them.
//! - [`check`](verdict::check) returns only the verdict, and [`totals`](totals::totals) only the totals.
//! - [`Ledger`](ledger::Ledger) is the state after the entries so far.
//!
//! The audit uses `deciding`, `history` and the queues, but no core. It has its own counts, queue and
//! waiters, and updates them entry by entry. For each entry it checks whether some step of its seat makes it.
//! So it judges histories of any source. A history is read once, in order, and the cost of an entry doesn't
//! grow with the number of seats.
//!
//! All memory is reserved at the opening: tables with a place for each seat, the queue and the waiters. The
//! only fault is [`OutOfMemory`](history::fault::Fault::OutOfMemory), if an allocation fails.
#![tactic(auto)]

mod admit;
mod at_once;
pub mod auditor;
mod candidates;
mod holds;
pub mod ledger;
mod situation;
pub mod sums;
pub mod totals;
pub mod verdict;
mod waiting;
mod waiting_base;
