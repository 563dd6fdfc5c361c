//! A lock over one word and one slot. Its tokens know a history that only grows or is folded into a base.
//!
//! The value rests in the slot. A token takes it out, adds entries of its own seat, and puts it back. Only
//! the holder of the value knows its current history, since other threads may change it at any time. But
//! every token knows what it has *seen*: the history as it was when the token last had the value, or last
//! looked. The lock promises that the current history comes after what was seen: entries were added, or all
//! were folded into the base. So what a thread has seen is never taken back. What it has added is there once,
//! and none of it is missing. Two tokens that meet have seen the same. All threads work on one history.
//!
//! A token takes up one flag and no other byte. What it knows is a *view*, which exists only in proofs: the
//! log of each of its seats (the entries that the token has added for it), what it has seen, and whether it
//! holds. All views of a lock are in one table, with the word and the slot. A *rule* states what holds of the
//! three between any two steps:
//!
//! | word | slot | views |
//! |---|---|---|
//! | 0, free | the value, whose fact holds | none holds |
//! | 1, taken | empty: the value is out | exactly one holds, and has seen what it took |
//!
//! The current history (`now` in the specs) is the one in the slot while the word is 0, and the one that was
//! taken while it is 1. Invariant: the current history extends what each view has seen; each log equals that
//! seat's entries in the current history; each seat has at most one log. If entries were folded, only the
//! newest entries of the log are there, and the base has the number of calls that the others ended. The
//! header never changes, since it is part of what has been seen.
//!
//! Threads act by atomic steps on the word. Each step changes only the view of its own token:
//!
//! | step | what happens | why the rule still holds |
//! |---|---|---|
//! | exchange of 0 for 1 succeeds | the value leaves the slot; the view has seen it | nobody held before |
//! | exchange fails | nothing | nothing changes |
//! | store of 0 | the value is put back; the view has seen it; its log grows | see below |
//! | split | two views share the logs of one, and have seen the same | each log is in one view |
//! | join | one view has both views' logs, and remembers what the other saw | the other has no log left |
//! | look | the view has seen the current history, and forgets what it remembered | the history stays |
//!
//! Only the store changes the current history. The one view that holds has seen exactly what it took. So what
//! it puts back is that history with more entries, or its fold with more entries. What any other view has seen
//! comes before the old history, and so before the new one. The added entries are all of the holder's seat: its
//! log gains them, and the entries of all other seats are as before. A join is followed at once by a look, since
//! two views alone don't show which of them has seen more. The first view has a log for each seat, and `open`
//! splits one token after another from it.
//!
//! The rule uses only the value's point, its fact and the order of points (`Chronicle`). So it is proved
//! once, for any value in the slot.
//!
//! Nothing is claimed about how long a lock waits, nor that it ends.
#![tactic(auto)]

mod chronicle;
mod dealing;
mod held;
mod lock;
mod sleepers;
mod steps;
mod token;
mod view;

pub use chronicle::Chronicle;
pub use held::Held;
pub use lock::WordLock;
pub use token::Token;
pub use view::SeatLog;
