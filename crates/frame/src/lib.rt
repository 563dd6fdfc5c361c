//! The core of a synchroniser. It does for this library what AbstractQueuedSynchronizer does for
//! `java.util.concurrent`: the core keeps the wait queue, the conditions, the holds and a history; hooks say
//! what can be acquired.
//!
//! # An object
//!
//! An object is a lock, a read-write lock, a semaphore or a latch. Its state at any moment is determined by
//! its history: the list of entries of all that happened to it. Who holds it, who waits and in which order,
//! how many permits are free, and which entry comes next are definitions over that list (`history/specs`).
//! They count and filter the list. None of them uses a field of this crate.
//!
//! # A step
//!
//! A step is what one thread asks for in one critical section: acquire, try, release, await, signal, or, for
//! a thread that waits, retry, time out, be interrupted. A thread is a number, its seat. A step makes at most
//! one entry, and [`Core::step`](machine::Core::step) does three things:
//!
//! 1. decide: which entry do the definitions give for this step now?
//! 2. record: make room for the entry in the history, update hooks, queue, conditions and holds, and add it.
//! 3. name: return the waiter that the entry lets go. That is the head of the queue, if it could acquire now
//!    and couldn't before, and if the entry isn't its own. A caller that runs threads has one thread to wake,
//!    or none. The waiter's seat is marked as told ([`Core::is_told`](machine::Core::is_told)) until it
//!    retries in vain or leaves the queue. So a head of the queue that could acquire is always marked.
//!
//! Nearly all steps need less. An acquire or try that succeeds, and a release, by an idle thread while the
//! queue is empty, are done at once (`machine/at_once.rt`): they move nobody and name nobody. This is a fast
//! path, as in parking_lot.
//!
//! A step never blocks. For a thread that has to wait it returns `Queued` or `Sleep`. The thread steps again
//! with `Look` when it is woken, with `Expire` at its timeout, or with `Interrupt`. So timeouts and
//! interrupts are steps like any other. What is proved of every list of steps holds for every interleaving of
//! critical sections.
//!
//! # Why nothing looks back
//!
//! The history grows, so no step may search it. The core keeps what a step needs: the hooks' state, the
//! queue, the waiters of each condition and a record for each seat. One invariant says that these are what
//! the definitions compute from the history (`specs/Core.antt`, `Stands`). Every entry goes through one of
//! two functions, which restore that invariant: `enter` while nobody waits, and `write` otherwise. One lemma
//! proves it for both.
//!
//! [`Core::trim`](machine::Core::trim) folds all entries into the history's base, which keeps all that the
//! definitions ask of them. Their places become free. The rest of the core depends on base and list together,
//! so a trim doesn't change it. Nor does a trim look at the entries: the rest of the core says what they come
//! to, and the base is written from that (`snapshot.rt`).
//!
//! Room is kept in the same way. A hold of a lock owes the entry of its release. A waiter owes the entries
//! that end its wait and release what it acquires. As many places of the history stay reserved. So a release
//! of a lock or read-write lock, the end of a wait and a signal that moves a waiter never fail for lack of
//! memory or room. A semaphore's release can fail: any thread may release, any number of times.
//!
//! # What is asked of hooks
//!
//! [`Hooks`](hooks::Hooks) is the trait of what differs between objects, as `tryAcquire` and `tryRelease` do
//! in Java. Could this thread acquire now? Is it at its limit? Does the queue hold a new call back? The other
//! functions are the changes of an acquire, of a release, and of releasing or restoring all holds around an
//! await. Hooks see no queue and no history. Their contracts use `Counts`, the numbers that a history adds up
//! to. Besides their exact results they owe a few laws to the core's callers. After an exclusive acquire
//! nobody else can acquire. No acquire lets anybody acquire who couldn't before. A release that returns
//! `Kept` lets nobody else acquire who couldn't before.
//!
//! The framework is that of Doug Lea, *The java.util.concurrent Synchronizer Framework* (2005).
#![tactic(auto)]

pub mod acts;
mod effects;
pub mod hooks;
pub mod machine;
pub mod run;
pub mod seat;
mod snapshot;

pub use deciding::balance::Balance;
pub use history::step::{Answer, Step};
