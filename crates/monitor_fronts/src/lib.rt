//! Locks, semaphores and latches over a monitor, with the names and results that a programmer of
//! `java.util.concurrent` knows.
//!
//! *When the history is full.* Each call records its entries in the history of its monitor, which has
//! places for `cap` entries. A front made by `of` trims ([`WhenFull::Trim`]): a call that finds no room
//! folds all entries into the base of the history, and is made anew. So it runs on forever in the memory of
//! `cap` entries. Holds, waiters, permits and the number of calls stay. With threads that fill the history
//! meanwhile a call may trim more than once. Two faults remain. `HistoryFull` comes only if a history
//! without entries has no room. By the table of room in `docs/SPECIFICATION.md`, with at most one hold for
//! each thread 3 places for each thread and one more suffice. `TrimFull` comes only if more than
//! 1,000,000,000,000,000 entries would be folded.
//!
//! A front made by `of_when_full` may refuse instead ([`WhenFull::Refuse`]). A call that finds no room then
//! returns `Err(HistoryFull)` and records nothing, and the history keeps every entry. An unlock by an owner
//! always has room.
//!
//! *What a call costs.* One turn of the monitor's lock and one entry of 8 bytes. A call that waits costs one
//! more turn for each time that it is woken, and one more entry. A fold takes time for each entry that it
//! folds, so on average a call that trims pays for as many entries as it makes.
#![tactic(auto)]

mod front;
mod latch;
mod lock;
mod openings;
mod passes;
mod read_write_lock;
mod returned;
mod room;
mod semaphore;
mod until;

pub use front::Front;
pub use latch::Latch;
pub use lock::ReentrantLock;
pub use openings::{open_latch, open_lock, open_read_write_lock, open_semaphore};
pub use passes::{three_passes, two_passes};
pub use read_write_lock::ReadWriteLock;
pub use returned::{done, number, whether};
pub use room::{WhenFull, call_in_room, enter_in_room, signal_in_room};
pub use semaphore::Semaphore;
pub use until::milliseconds_left;
