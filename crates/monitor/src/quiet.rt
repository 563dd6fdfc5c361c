//! Reading and folding the history for a monitor in which nobody sleeps, as in a static library.
//!
//! A static library may neither sleep nor wake. Its steps are `step_quietly`, `begin_quietly` and
//! `go_on_quietly`, and these calls beside them. Each waits for nobody, and wakes nobody who waits for the
//! object.
ghost use Rattle.std.specs.Prelude.{◌≡◌, ◌+◌, length, is_some, IfNone, IfSome, MatchOption};
ghost use Rattle.std.specs.Fn.{FnOnceReturnsAt};
ghost use Rattle.deciding.specs.Balance.{all_asleep, available};
ghost use Rattle.frame.specs.Core.{counts_of, start_of};
ghost use Rattle.history.specs.Counts.{count, counts, owner};
ghost use Rattle.history.specs.Entries.{HistoryView};
ghost use Rattle.history.specs.Line.{line};
ghost use Rattle.monitor.specs.Calling.{CalledQuietly};
ghost use Rattle.monitor.specs.Lawful.{start_at};
ghost use Rattle.monitor.specs.Observing.{IsHistoryOf, IsQuietLook};
ghost use Rattle.monitor.specs.Stepping.{IsTrim};

use crate::load::Load;
use crate::monitor::Monitor;
use crate::pass::Pass;
use frame::hooks::Hooks;
use frame::machine::Core;
use history::entries::History;
use history::fault::Fault;

/// Whether an object is owned, and how many seats wait for it.
#[derive(Clone, Copy, Debug, PartialEq, Eq)]
pub struct Contention {
    /// Whether some seat has exclusive holds.
    pub is_held: bool,
    /// How many seats are in the wait queue.
    pub queue_length: u16,
    /// How many seats wait in all: those in the queue, and those that wait on conditions.
    pub waiting: u64,
}

impl<H: Hooks + Drop, L: Load> Monitor<H, L> {
    /// Shows the history to `read`. None, and no change, if somebody has the object. Nobody steps meanwhile.
    pub fn read_quietly<A, F: FnOnce(&History) -> A>(&self, pass: &mut Pass, read: F) -> Option<A>
        requires is_of { pass.old.lock ≡ self.now }
        requires callable { F.IsAlwaysCallable read }
        ensures busy { IfNone result (pass.new ≡ pass.old) }
        ensures looked { IfSome result (λ _. IsQuietLook pass.old pass.new) }
        ensures saw { IfSome result (λ answer. (history : HistoryView) × IsHistoryOf pass.new.seen history
            × FnOnceReturnsAt F.FnOnce read history answer) }
    {
        let Some(held) = self.lock.lock_now(&mut pass.token) else {
            return None;
        };
        let answer = read(held.value.core().history());
        self.lock.unlock_quietly(&mut pass.token, held);
        Some(answer)
    }

    /// Folds all entries into the base as [`trim`](Monitor::trim) does, unless another call has its turn: then
    /// None, and nothing has changed.
    pub fn trim_quietly(&self, pass: &mut Pass) -> Option<Result<u64, Fault>>
        requires is_of { pass.old.lock ≡ self.now }
        ensures called { CalledQuietly pass.old pass.new }
        ensures trimmed { MatchOption result (pass.new ≡ pass.old) (λ count. IsTrim pass.old count pass.new) }
    {
        let Some(mut held) = self.lock.lock_now(&mut pass.token) else {
            return None;
        };
        let count = held.value.trim();
        self.lock.unlock_quietly(&mut pass.token, held);
        Some(count)
    }

    /// The free permits of a semaphore, as [`available`](Monitor::available) returns them, unless another call
    /// has its turn: then None, and nothing has changed.
    pub fn available_quietly(&self, pass: &mut Pass) -> Option<i64>
        requires is_of { pass.old.lock ≡ self.now }
        ensures busy { IfNone result (pass.new ≡ pass.old) }
        ensures looked { IfSome result (λ _. IsQuietLook pass.old pass.new) }
        ensures value { IfSome result (λ permits.
            permits ≡ available (start_at pass.new.seen) pass.new.seen.entries) }
    {
        let Some(held) = self.lock.lock_now(&mut pass.token) else {
            return None;
        };
        let available = held.value.core().available();
        self.lock.unlock_quietly(&mut pass.token, held);
        Some(available)
    }

    /// The count of a latch, as [`count`](Monitor::count) returns it, unless another call has its turn: then
    /// None, and nothing has changed.
    pub fn count_quietly(&self, pass: &mut Pass) -> Option<u32>
        requires is_of { pass.old.lock ≡ self.now }
        ensures busy { IfNone result (pass.new ≡ pass.old) }
        ensures looked { IfSome result (λ _. IsQuietLook pass.old pass.new) }
        ensures value { IfSome result (λ left.
            left ≡ count (start_at pass.new.seen) pass.new.seen.entries) }
    {
        let Some(held) = self.lock.lock_now(&mut pass.token) else {
            return None;
        };
        let count = held.value.core().count();
        self.lock.unlock_quietly(&mut pass.token, held);
        Some(count)
    }

    /// Whether the object is owned, as [`is_held`](Monitor::is_held) returns it, and how many seats wait for
    /// it, unless another call has its turn: then None, and nothing has changed. It visits each seat and each
    /// condition.
    pub fn contention_quietly(&self, pass: &mut Pass) -> Option<Contention>
        requires is_of { pass.old.lock ≡ self.now }
        ensures busy { IfNone result (pass.new ≡ pass.old) }
        ensures looked { IfSome result (λ _. IsQuietLook pass.old pass.new) }
        ensures held { IfSome result (λ found.
            found.is_held ≡ is_some (owner (counts (start_at pass.new.seen) pass.new.seen.entries))) }
        ensures queue { IfSome result (λ found.
            found.queue_length ≡ length (line (start_at pass.new.seen) pass.new.seen.entries)) }
        ensures waiting { IfSome result (λ found. found.waiting
            ≡ length (line (start_at pass.new.seen) pass.new.seen.entries)
            + all_asleep (start_at pass.new.seen) pass.new.seen.entries) }
    {
        let Some(held) = self.lock.lock_now(&mut pass.token) else {
            return None;
        };
        let contention = contention_of(held.value.core());
        self.lock.unlock_quietly(&mut pass.token, held);
        Some(contention)
    }
}

// Whether an object is owned, and how many seats wait for it.
fn contention_of<H: Hooks + Drop>(core: &Core<H>) -> Contention
    ensures held { result.is_held ≡ is_some (owner (counts_of core.now)) }
    ensures queue { result.queue_length ≡ length (line (start_of core.now) core.now.entries) }
    ensures waiting { result.waiting ≡ length (line (start_of core.now) core.now.entries)
        + all_asleep (start_of core.now) core.now.entries }
{
    let balance = core.balance();
    Contention {
        is_held: core.is_held(),
        queue_length: balance.line,
        waiting: u64::from(balance.line) + u64::from(balance.sleepers),
    }
}
