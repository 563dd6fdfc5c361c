//! Locks and pools that own data. The thread that holds the lock has the value. The thread that acquired
//! items has them. No other thread has either.
//!
//! A [`Mutex`] is a reentrant lock with conditions, over a monitor with a load ([`Slot`]). While no thread
//! holds the lock, the value is in the monitor. While a thread holds it, that thread has the value. The
//! value moves in the turn of the lock that records the first hold or releases the last one. So it is
//! always in exactly one place.
//!
//! An [`RwMutex`] is a read-write lock of the same kind. A writer has the value. While no thread writes, the
//! value is in the lock, and each reader has a share of it, in a [`ReadGuard`]: many look at it at the same time.
//!
//! A [`Pool`] is a semaphore with an item for each permit ([`Shelf`]). It has as many items as permits are
//! free. An acquire returns items, which move in the turn that takes the permits. A release puts items
//! back. The thread that acquired an item owns it, and may give it to another thread.
//!
//! A [`Guard`] has the value from `lock` until the end of its scope, where it unlocks. It borrows its pass,
//! so a pass that holds the lock makes no other call.
//!
//! ## Invariants
//!
//! There are two kinds of invariant of a value. A thread that has the value may rely on both.
//!
//! - One of its type, in an `impl Model` or a ghost field. It holds at every moment: a thread that changes the value
//!   proves it again at once.
//! - One of its lock or pool, which a type `I` stands for ([`Keeps`]), as in `Mutex<Accounts, Balanced>`. It holds
//!   whenever no thread has the value. A thread that has the value may break it, and proves it again before a wait and
//!   before the guard is dropped, also where a `?` drops it. `signal`, [`again`](Guard::again),
//!   [`leave`](Guard::leave) and [`read`](Guard::read) don't ask for it: the guard keeps the value. `Any`, the default,
//!   asks for nothing.
//!
//! A guard that is forgotten keeps the lock for ever, so no thread finds a value that breaks the invariant.
//!
//! ## A full history
//!
//! Each call records its steps in the history of the lock or pool, which has room for `cap` entries, owed
//! ones included. [`WhenFull`] says what a call does if its first step finds no room:
//!
//! - [`WhenFull::Refuse`]: it returns `HistoryFull`. Nothing is recorded.
//! - [`WhenFull::Trim`]: it folds all entries, and is made anew. With threads that fill the history meanwhile it
//!   may do so more than once. It returns `HistoryFull` only if a history without entries has no room, and
//!   `TrimFull` only if more than 1000000000000000 entries would be folded.
//!
//! An `unlock` always has room and memory: both were reserved when the hold was recorded. The same holds for the end of
//! a reader's guard and for [`downgrade`](Guard::downgrade). A `release` of items may lack them, and then returns the
//! items with the fault. That is why a pool has no guards that release items when they are dropped.
#![tactic(auto)]

mod acquiring;
mod asking;
mod guard;
mod items;
mod keeps;
mod locking;
mod mutex;
mod options;
mod pool;
mod read_guard;
mod reading;
mod rw_mutex;
mod shared;
mod shelf;
mod signalling;
mod slot;
mod try_lock;
mod view;

pub use guard::Guard;
pub use items::ItemFault;
pub use keeps::{Any, Keeps};
pub use monitor_fronts::WhenFull;
pub use mutex::Mutex;
pub use options::Options;
pub use pool::Pool;
pub use read_guard::ReadGuard;
pub use rw_mutex::RwMutex;
pub use shared::{Shared, Sharing};
pub use shelf::Shelf;
pub use slot::Slot;
pub use try_lock::TryLockFault;
pub use view::View;
