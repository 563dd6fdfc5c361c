//! How often a seat was passed by a thread that barged.

ghost use Rattle.std.specs.Prelude.{◌≡◌, ◌+◌, ◌-◌, ◌<◌, ◌≤◌, ◌^◌, ℕ, List, true, IfOk, length, slice_index_or};
ghost use Rattle.history.specs.Start.{Start};
ghost use Rattle.history.specs.declared.entry.Entry.{Entry};
ghost use Rattle.audit.specs.Ledger.{HasSeat, LedgerStand};
ghost use Rattle.summing.specs.Passing.{takes_again, takes_anew};
ghost use Rattle.summing.specs.Summing.{IsPassing, no_passing};

use crate::words::is_take;
use audit::ledger::Ledger;
use deciding::checks::is_lock;
use deciding::situation::ObjectState;
use history::entry::{Entry, Mode};
use std::alloc::{AllocError, Global};

/// How often a seat was passed.
#[derive(Clone, Copy, Debug, Drop, PartialEq, Eq)]
pub struct Passing {
    /// How often it was passed in the waits that have ended.
    pub(crate) passed: u64,
    /// How many acquires had taken at once when the wait began that it is in.
    pub(crate) mark: u64,
}

/// Returns what is noted of this many seats before the first entry.
pub(crate) fn no_passings(alloc: Global, count: u16) -> Result<Vec<Passing>, AllocError>
    ensures long { IfOk result (λ passings. length passings.items ≡ count) }
    ensures none { IfOk result (λ passings. (i : ℕ) →
        slice_index_or passings.items i no_passing ≡ no_passing) }
{
    let none = Passing { passed: 0, mark: 0 };
    vec![in alloc; none; count as usize]
}

/// Returns whether the seat of an acquire holds the lock already.
fn takes_again(ledger: &Ledger, entry: Entry) -> bool
    requires { HasSeat ledger.now entry.seat }
    ensures { (s : Start) (h : List Entry) → LedgerStand s h ledger.now → result ≡ takes_again s entry h }
{
    is_lock(ledger.header().object)
        && (ledger.held(entry.seat, Mode::X) > 0 || ledger.held(entry.seat, entry.mode) > 0)
}

/// Returns whether an entry acquires at once, and not again.
pub fn takes_anew(ledger: &Ledger, entry: Entry) -> bool
    requires { HasSeat ledger.now entry.seat }
    ensures { (s : Start) (h : List Entry) → LedgerStand s h ledger.now → result ≡ takes_anew s entry h }
{
    is_take(entry.word) && !takes_again(ledger, entry)
}

/// Returns how often a seat was passed, if this many acquires have taken at once.
pub(crate) fn passed_at(was: Passing, waits: bool, taken: u64) -> u64
    requires within { waits ≡ true → was.mark ≤ taken }
    requires few { (was.passed < 2 ^ 32) × (taken < 2 ^ 33) }
    ensures { (passed : ℕ) → IsPassing waits taken passed was → result ≡ passed }
{
    if waits {
        was.passed + (taken - was.mark)
    } else {
        was.passed
    }
}
