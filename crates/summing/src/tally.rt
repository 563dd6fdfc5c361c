//! What is counted for a seat, and for a condition.

ghost use Rattle.std.specs.Prelude.{◌≡◌, ◌<◌, ◌≤◌, ◌^◌, IfSome};
ghost use Rattle.summing.specs.Counting.{more};
ghost use Rattle.summing.specs.Tallies.{condition_after, longest_with, no_tally, tally_after};
ghost use Rattle.summing.specs.Waits.{longer, wait_from};
ghost use Rattle.summing.specs.inner.Tables.{IsFewCondition, IsFewTally};

use crate::words::{
    ends_call, is_await, is_broken_off, is_queued, is_signal, is_take, moves_nobody, times_out,
};
use history::entry::Entry;

/// A wait of a seat in the queue.
#[derive(Clone, Copy, Debug, Drop, PartialEq, Eq)]
pub struct Wait {
    /// The number of the entry by which the seat queued.
    pub place: u64,
    /// After how many entries, from that one on, the seat waited.
    pub entries: u64,
}

/// What is counted for a seat.
#[derive(Clone, Copy, Debug, Drop, PartialEq, Eq)]
pub struct SeatTally {
    pub entries: u64,
    /// The calls that ended.
    pub calls: u64,
    /// The acquires that took at once.
    pub took: u64,
    /// The acquires that waited in the queue.
    pub queued: u64,
    pub timeouts: u64,
    pub interrupts: u64,
    /// The number of the entry by which the seat began the wait that it is in.
    pub begun: Option<u64>,
    /// The longest wait that has ended, and of those the oldest.
    pub longest: Option<Wait>,
}

/// What is counted for a condition.
#[derive(Clone, Copy, Debug, Drop, PartialEq, Eq)]
pub struct ConditionTally {
    pub awaits: u64,
    /// The signals, of one waiter or of all.
    pub signals: u64,
    /// The signals that moved nobody.
    pub empty: u64,
}

/// Returns one more, if there is one more.
pub(crate) fn more(number: u64, is_one: bool) -> u64
    requires { number < 2 ^ 32 }
    ensures { result ≡ more number is_one }
{
    if is_one { number + 1 } else { number }
}

/// Returns a wait from the entry of a number on.
fn wait_from(begun: Option<u64>, number: u64) -> Option<Wait>
    requires { IfSome begun (λ place. place ≤ number) }
    ensures { result ≡ wait_from begun number }
{
    match begun {
        None => None,
        Some(place) => Some(Wait {
            place,
            entries: number - place,
        }),
    }
}

/// Returns the wait, if it is longer than an older one, or else the older one.
fn longer(wait: Wait, older: Option<Wait>) -> Option<Wait>
    ensures { result ≡ longer wait older }
{
    match older {
        None => Some(wait),
        Some(old) => if old.entries < wait.entries {
            Some(wait)
        } else {
            Some(old)
        },
    }
}

/// Returns the longer of a wait and an older one.
pub(crate) fn longest_with(wait: Option<Wait>, older: Option<Wait>) -> Option<Wait>
    ensures { result ≡ longest_with wait older }
{
    match wait {
        None => older,
        Some(wait) => longer(wait, older),
    }
}

/// Returns the longest wait of a seat after this many entries, with the one that it is in.
pub(crate) fn longest_at(tally: &SeatTally, number: u64) -> Option<Wait>
    requires { IfSome tally.now.begun (λ place. place ≤ number) }
    ensures { result ≡ longest_with (wait_from tally.now.begun number) tally.now.longest }
{
    longest_with(wait_from(tally.begun, number), tally.longest)
}

/// Returns the tally of a seat that made no entry.
pub(crate) fn no_tally(begun: Option<u64>) -> SeatTally
    ensures { result ≡ no_tally begun }
{
    SeatTally {
        entries: 0,
        calls: 0,
        took: 0,
        queued: 0,
        timeouts: 0,
        interrupts: 0,
        begun,
        longest: None,
    }
}

/// Returns the tally of a seat after one more entry of it.
pub(crate) fn tally_after(entry: Entry, number: u64, was: &SeatTally) -> SeatTally
    requires { IsFewTally number was.now }
    ensures { result ≡ tally_after entry number was.now }
{
    let longest = longest_at(was, number);
    SeatTally {
        entries: was.entries + 1,
        calls: more(was.calls, ends_call(entry.word)),
        took: more(was.took, is_take(entry.word)),
        queued: more(was.queued, is_queued(entry.word)),
        timeouts: more(was.timeouts, times_out(entry)),
        interrupts: more(was.interrupts, is_broken_off(entry)),
        begun: if is_queued(entry.word) {
            Some(number)
        } else {
            None
        },
        longest,
    }
}

/// Returns the tally of a condition after one more entry on it.
pub(crate) fn condition_after(entry: Entry, was: ConditionTally) -> ConditionTally
    requires { IsFewCondition was }
    ensures { result ≡ condition_after entry was }
{
    ConditionTally {
        awaits: more(was.awaits, is_await(entry.word)),
        signals: more(was.signals, is_signal(entry.word)),
        empty: more(was.empty, moves_nobody(entry)),
    }
}
