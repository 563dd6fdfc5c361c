//! Synchronisers that threads share.
//!
//! A [`Monitor`] is a lock, a read-write lock, a semaphore or a latch, which many threads step in turns. In
//! it the sequential core of `frame` lies under the lock of `word_lock`: each step is one critical section.
//! The monitor adds what threads need: it parks the thread that has to wait, and unparks the thread that a
//! step names.
//!
//! Each thread steps by a [`Pass`], the right of one seat. `open` returns one for each seat. No two threads
//! have the pass of one seat, since a call takes it by `&mut`. A pass may be dropped: its seat then makes no
//! more steps.
//!
//! A contract sees three things of a pass:
//! - `seen`, the history that it saw at its last call: a base, and entries after it. It is legal, and comes
//!   after what was seen before.
//! - `mine`, all entries of its own seat, the newest first. Each call adds its own entries and no others.
//! - `share`, how many calls those entries ended.
//!
//! What every call asks and leaves stands once, in `specs/Calling.antt`. `CanCall`: the pass is one of this
//! monitor's, and there is a place to park for each seat. `Called`: it is a pass of the same monitor and seat,
//! what it has seen comes after what it had seen, is sound, and has just these entries of its seat, and whoever
//! sleeps at the object's word was woken after that was put back. A call whose name ends with `quietly` wakes
//! nobody. What else a contract says is special of its call.
//!
//! Two passes may have seen histories of different length, and `meet` makes these the same. Everything that
//! the passes saw belongs to one history, which `close` returns.
//!
//! `trim` folds the entries so far into the base, so that an object runs on past its cap. What a pass had
//! seen before stays true: the fold says the same about all that comes after.
//!
//! No other call folds: one that finds no room returns `HistoryFull`, and its caller may `trim` and call again.
//! Other threads may fill the history in between.
//!
//! The calls that wait are `acquire` and `await_on`. Both wait in the same loop: park, step, and return at
//! the entry that ends the wait. [`How`] says what else ends it. A permit leads to the step Look, by which a
//! waiter acquires if it can; the end of its time leads to Expire; an interrupt leads to Interrupt. The reply
//! is the entry that ended the call.
//!
//! Proved of each call that returns: what the pass has seen afterwards is legal and comes after what it had
//! seen; `mine` grew by the entries that the call's contract lists, each the one entry of the named step at
//! its own place; the reply is the last entry seen; a fault is the answer of the definitions, or
//! `OutOfMemory`, and nothing was recorded. `step_now` waits for nobody, and its Busy leaves the pass as it
//! was.
//!
//! Proved too of each call that has a parking, by the deeds that the parking's methods leave:
//! - The seat that a step of the call named was unparked after that step.
//! - The deadline of a timed call is counted from a moment that the clock showed before its first step.
//! - A call that heeds interrupts asked for a pending one first. It is refused only if it took one, which is
//!   set again if the refusal couldn't be recorded.
//! - The entry that ended a wait is that of the step to which a park of its seat led, and the seat was parked
//!   as the call says. The exceptions: an await with a time of 0 expires before it parks, and a sleeper looks
//!   after its own lapse.
//! - An interrupt that a park returned is reported by the reply, or set again. The compiler refuses a body
//!   that forgets it, since the value that stands for it can't be dropped. No contract rules out a further
//!   park whose interrupt is thrown away.
//!
//! Not promised: that a waiter wakes, that a waiting call returns, or in which order threads are served
//! between two steps. A parking promises only that a park without a deadline returns no `Deadline`, and that
//! a park which may not be interrupted returns no `Interrupted`.
//!
//! The design is that of Doug Lea's "The java.util.concurrent Synchronizer Framework" (2005).
#![tactic(auto)]

mod acquire;
mod at_once;
mod at_once_quietly;
mod await_on;
mod calls;
mod closing;
mod how;
mod interrupts;
mod load;
mod machine;
mod monitor;
mod observing;
mod pass;
mod quiet;
mod section;
mod step;
mod trimming;
mod under_lock;
mod waiting;

pub use closing::{CloseFault, Closed};
pub use how::{How, moment_after};
pub use load::{Empty, Holds, Load};
pub use machine::{Next, Request, Turn, Waiting};
pub use monitor::Monitor;
pub use pass::Pass;
pub use quiet::Contention;
pub use step::Now;
pub use waiting::Limits;
