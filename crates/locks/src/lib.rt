//! # Locks for threads
//!
//! The locks of `java.util.concurrent` in Java SE 8, proved: mutexes and read-write locks that own the value
//! which they guard, pools that own the items which they hand out, and reentrant locks with conditions,
//! read-write locks, semaphores and latches that guard no value.
//!
//! A program names only this crate in `crates.txt`, as `mine: locks`. `docs/FIRST_HOUR.md` goes step by step
//! from a fresh clone to a program of your own. The types are described in `CALLING.md` of the crates that
//! define them: `guarded`, `monitor_fronts`, `monitor`, `permit` and `history`.
//!
//! ## What a caller's contract says
//!
//! `CanLock` says what `Mutex::lock` asks of a caller: the pass is one of this lock's, it does not hold the
//! lock, and the parking has a place for each thread. It is a word of `Rattle.locks.specs.Calling`, with the
//! others that a caller's contracts mostly need. `specs/Lib.antt` lists the other words that are passed on:
//! what the page of a crate names `Rattle.guarded.specs.Asking` is `Rattle.locks.specs.Asking`. A program
//! whose contracts use only these words lists no other crate.
//!
//! ## Which type for which need
//!
//! | need | here | Java SE 8 | Rust's std | POSIX |
//! |---|---|---|---|---|
//! | a value for one thread at a time | `Mutex`, `Guard` | `ReentrantLock` | `Mutex` | `pthread_mutex_t` |
//! | to wait until the value has changed | `Guard::wait`, `signal` | `Condition` | `Condvar` | `pthread_cond_t` |
//! | a value that many read, few change | `RwMutex` | `ReentrantReadWriteLock` | `RwLock` | `pthread_rwlock_t` |
//! | a few items that many threads use | `Pool` | `Semaphore`, and a list | none | `sem_t`, and a list |
//! | a lock that guards no value | `ReentrantLock` | `ReentrantLock` | none | `pthread_mutex_t` |
//! | readers and writers of no value | `ReadWriteLock` | `ReentrantReadWriteLock` | none | `pthread_rwlock_t` |
//! | a limit on threads at once | `Semaphore` | `Semaphore` | none | `sem_t` |
//! | to wait for a number of events | `Latch` | `CountDownLatch` | none | none |
//! | a place to wait, and interrupts | `ThreadParking` | `LockSupport` | `thread::park` | none |
//! | the right of one thread to call | `Pass` | the current thread | the current thread | the current thread |
//!
//! `Policy` chooses who goes first. With `Fair` a new acquire waits if others wait. With `NonFair` it may
//! overtake them. With `Strict`, which Java lacks, not even an untimed try overtakes.
//!
//! `WhenFull` chooses what a lock or a pool does when its history is full. `Refuse` is for a program that wants
//! every entry: the call returns `HistoryFull`. `Trim` is for a program that goes on: the entries are folded, and
//! the call is made anew. The types without a value are made by `of`, and then they trim, or by `of_when_full`.
//!
//! ## What is promised
//!
//! Each contract is proved. For each call that returns:
//!
//! - *Exclusion.* The value is with one guard, or in the lock. Nobody writes while another thread reads. As
//!   many items lie in a pool as permits are free. Each other item is with the one thread that owns it.
//! - *The value's invariant*, of its type's `impl Model` or ghost field, holds each time a thread gets the value. So
//!   does an invariant of the lock, as `Balanced` of a `Mutex<Accounts, Balanced>`. A thread may break that one while
//!   it has the value, and must prove it again before it waits or unlocks.
//! - *Order.* No queued acquire is granted before an earlier one that still waits.
//! - *Unlocking cannot fail.* It lacks neither memory nor room in the history, and a guard unlocks at each
//!   way out. Releasing a semaphore can fail, since a thread may release permits that it did not acquire.
//!   Releasing items into a pool can fail, and then returns them.
//! - *The history.* Each call adds exactly the entries that its contract lists to one legal history, which
//!   `close` returns.
//! - *Errors.* After an `Err` the pass holds what it held before. The contract says what was recorded:
//!   nothing, a refusal, or that the thread stopped waiting.
//!
//! Not promised: that a call which waits returns, that a woken thread runs soon, and that threads do
//! not deadlock. `docs/PROMISES.md` has all promises, and lists what is only tested and what nothing
//! shows.
//!
//! ## What it costs
//!
//! - *Time.* On four processors some 17 million pairs of lock and unlock a second with one thread. A non-fair
//!   lock makes 0.2 to 0.5 times as many as Java's `ReentrantLock` that keeps a history too, by the medians
//!   (`docs/PERFORMANCE.md`).
//! - *Moving the value.* A `Mutex` moves its value out and in at each pair. Put a large value into a
//!   `Box`.
//! - *Memory.* 8 bytes an entry, in pages of 1,024 entries. A pair that waits for nobody takes two entries,
//!   one that waits takes three. A lock never keeps more than `cap` entries.
//!
//! ## What can go wrong
//!
//! Each call that can fail returns a `Fault`, and these are all of them:
//!
//! | fault | when | what to do |
//! |---|---|---|
//! | `HistoryFull` | the history has no room for the call | `WhenFull::Trim`, or `trim`, or a larger `cap` |
//! | `OutOfMemory` | an allocation failed | call again when there is memory; nothing has changed |
//! | `Interrupted` | the thread was interrupted, in a call that heeds it | stop, or call again |
//! | `NotOwner` | an unlock, wait or signal without the lock | mend the caller; a `Guard` rules it out |
//! | `TooManyHolds` | 2147483647 holds of a lock, 65535 of a read-write lock | unlock as often as you lock |
//! | `TooManyPermits` | a release past 2147483647 permits | release what was acquired |
//! | `HoldsRead` | a wait on a condition by a writer that reads too | end the read first |
//! | `NoSuchCondition` | a condition that the lock lacks | they count from 0; open the lock with more |
//! | `BadAmount` | more than 2147483647 permits at once | ask for less |
//! | `OutOfPhase` | a pass whose last call of the monitor has not ended | end that call first |
//! | `WrongMode` | a step that the object does not have; no call of these types makes one | |
//! | `TrimFull` | 1000000000000000 entries were folded | close the lock, and open a new one |
//!
//! With `WhenFull::Trim`, `HistoryFull` comes only if a history without entries has no room.
//!
//! A try that did not get the lock returns `TryLockFault::Missed`, or `false`. A lock that is closed without
//! all of its passes returns `CloseFault::MissingPass`, and everything with it.
//!
//! Some errors return no fault: a thread waits for a signal which nobody sends, two threads wait for each
//! other, or a thread ends without releasing its permits. Give such a wait a timeout: `try_lock_for`,
//! `wait_for`.
#![tactic(auto)]

pub use guarded::{
    Any, Guard, ItemFault, Keeps, Mutex, Options, Pool, ReadGuard, RwMutex, Shared, Sharing,
    TryLockFault, View,
};
pub use history::entries::History;
pub use history::fault::Fault;
pub use history::header::{Header, Object, Policy};
pub use monitor::{CloseFault, Closed, How, Monitor, Pass};
pub use monitor_fronts::{
    Latch, ReadWriteLock, ReentrantLock, Semaphore, WhenFull, open_latch, open_lock,
    open_read_write_lock, open_semaphore, three_passes, two_passes,
};
pub use permit::{Parking, ThreadParking};
