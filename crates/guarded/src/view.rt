//! What a lock or a pool shows of itself.
ghost use Rattle.std.specs.Prelude.{◌≡◌, ◌<◌, true, length, is_some, Some};
ghost use Rattle.guarded.specs.Below.{available, counts, held, owner, line, place_of, is_placed, ready, sleepers, Called, CalledQuietly, start_at, IsLook, IsTrim};

use frame::hooks::Hooks;
use history::entry::Mode;
use history::fault::Fault;
use monitor::{Load, Monitor, Pass};
use std::sync::Wait;

/// What a lock or a pool shows of itself: who holds it, and who waits. It shows neither the value nor an item, and
/// no call of it acquires, releases or signals.
///
/// What each call returns is true of the history that its pass has then seen. Other threads may have stepped before
/// the caller reads it.
#[derive(Drop)]
pub struct View<'m, H: Hooks + Drop, L: Load> {
    pub(crate) monitor: &'m Monitor<H, L>,
}

impl<'m, H: Hooks + Drop, L: Load> View<'m, H, L> {
    pub(crate) fn of(monitor: &'m Monitor<H, L>) -> Self
        ensures { result.monitor.now ≡ monitor.now }
    {
        View { monitor }
    }
}

impl<H: Hooks + Drop, L: Load> View<'_, H, L> {
    /// The holds of a thread in a mode.
    pub fn holds<R: Wait>(&self, rt: &R, pass: &mut Pass, seat: u16, mode: Mode) -> u128
        requires is_of { pass.old.lock ≡ self.now.monitor.now }
        requires seat { seat < self.now.monitor.now.header.seats }
        ensures looked { IsLook pass.old pass.new }
        ensures value { result ≡ held (start_at pass.new.seen) pass.new.seen.entries seat mode }
    {
        self.monitor.holds(rt, pass, seat, mode)
    }

    /// Whether some thread holds the lock, and so has the value.
    pub fn is_held<R: Wait>(&self, rt: &R, pass: &mut Pass) -> bool
        requires is_of { pass.old.lock ≡ self.now.monitor.now }
        ensures looked { IsLook pass.old pass.new }
        ensures value { result ≡ is_some (owner (counts (start_at pass.new.seen) pass.new.seen.entries)) }
    {
        self.monitor.is_held(rt, pass)
    }

    /// Whether a waiter was told that it could acquire, or lapsed, and has not looked in vain since. It is true of
    /// the head of the queue if that could acquire.
    pub fn is_told<R: Wait>(&self, rt: &R, pass: &mut Pass, seat: u16) -> bool
        requires is_of { pass.old.lock ≡ self.now.monitor.now }
        requires seat { seat < self.now.monitor.now.header.seats }
        ensures looked { IsLook pass.old pass.new }
        ensures told { ready (start_at pass.new.seen) pass.new.seen.entries ≡ Some seat → result ≡ true }
        ensures stand { result ≡ true
            → is_placed (place_of seat (line (start_at pass.new.seen) pass.new.seen.entries)) ≡ true }
    {
        self.monitor.is_told(rt, pass, seat)
    }

    /// How many threads are in the wait queue.
    pub fn queue_length<R: Wait>(&self, rt: &R, pass: &mut Pass) -> u16
        requires is_of { pass.old.lock ≡ self.now.monitor.now }
        ensures looked { IsLook pass.old pass.new }
        ensures value { result ≡ length (line (start_at pass.new.seen) pass.new.seen.entries) }
    {
        self.monitor.queue_length(rt, pass)
    }

    /// How many threads wait on a condition.
    pub fn waiters<R: Wait>(&self, rt: &R, pass: &mut Pass, condition: u8) -> u16
        requires is_of { pass.old.lock ≡ self.now.monitor.now }
        ensures looked { IsLook pass.old pass.new }
        ensures value { result ≡ length (sleepers (start_at pass.new.seen) pass.new.seen.entries condition) }
    {
        self.monitor.waiters(rt, pass, condition)
    }

    /// How many items a pool has. Locks have 0.
    pub fn available<R: Wait>(&self, rt: &R, pass: &mut Pass) -> i64
        requires is_of { pass.old.lock ≡ self.now.monitor.now }
        ensures looked { IsLook pass.old pass.new }
        ensures value { result ≡ available (start_at pass.new.seen) pass.new.seen.entries }
    {
        self.monitor.available(rt, pass)
    }

    /// Folds all entries of the history, and returns how many. Their room is free again. It waits for its turn, and
    /// allocates nothing.
    ///
    /// `TrimFull`: more entries would be folded than the limit allows. Then nothing has changed.
    pub fn trim<R: Wait>(&self, rt: &R, pass: &mut Pass) -> Result<u64, Fault>
        requires is_of { pass.old.lock ≡ self.now.monitor.now }
        ensures called { Called pass.old pass.new }
        ensures trimmed { IsTrim pass.old result pass.new }
    {
        self.monitor.trim(rt, pass)
    }

    /// Lets two passes see the same history. It allocates nothing and waits for nobody.
    pub fn meet(&self, one: Pass, two: Pass) -> (Pass, Pass)
        requires is_of { (one.lock ≡ self.now.monitor.now) × (two.lock ≡ self.now.monitor.now) }
        ensures called { CalledQuietly one result.0 × CalledQuietly two result.1 }
        ensures seen { result.0.seen ≡ result.1.seen }
        ensures mine { (result.0.mine ≡ one.mine) × (result.1.mine ≡ two.mine) }
        ensures share { (result.0.share ≡ one.share) × (result.1.share ≡ two.share) }
    {
        self.monitor.meet(one, two)
    }
}
