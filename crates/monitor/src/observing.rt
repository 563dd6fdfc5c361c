//! What a monitor shows of its object.
ghost use Rattle.std.specs.Prelude.{◌≡◌, ◌<◌, true, length, is_some, Some};
ghost use Rattle.std.specs.Fn.{FnOnceReturnsAt};
ghost use Rattle.deciding.specs.Balance.{available};
ghost use Rattle.history.specs.Counts.{count, counts, held, owner};
ghost use Rattle.history.specs.Line.{line, place_of};
ghost use Rattle.history.specs.Marks.{is_placed};
ghost use Rattle.history.specs.Naming.{ready};
ghost use Rattle.history.specs.Sleepers.{sleepers};
ghost use Rattle.monitor.specs.Lawful.{start_at};
ghost use Rattle.monitor.specs.Observing.{IsLook};

use crate::load::Load;
use crate::monitor::Monitor;
use crate::pass::Pass;
use frame::hooks::Hooks;
use history::entry::Mode;
use std::sync::Wait;

/// What each observer returns is true of the history that its pass has then seen. Other threads may have
/// stepped before the caller reads it.
impl<H: Hooks + Drop, L: Load> Monitor<H, L> {
    /// The holds of a seat in a mode.
    pub fn holds<R: Wait>(&self, rt: &R, pass: &mut Pass, seat: u16, mode: Mode) -> u128
        requires is_of { pass.old.lock ≡ self.now }
        requires seat { seat < self.now.header.seats }
        ensures looked { IsLook pass.old pass.new }
        ensures value { result ≡ held (start_at pass.new.seen) pass.new.seen.entries seat mode }
    {
        let held = self.lock.lock(rt, &mut pass.token);
        let holds = held.value.core().holds(seat, mode);
        self.lock.unlock(&mut pass.token, held);
        holds
    }

    /// Whether some seat has exclusive holds.
    pub fn is_held<R: Wait>(&self, rt: &R, pass: &mut Pass) -> bool
        requires is_of { pass.old.lock ≡ self.now }
        ensures looked { IsLook pass.old pass.new }
        ensures value { result ≡ is_some (owner (counts (start_at pass.new.seen) pass.new.seen.entries)) }
    {
        let held = self.lock.lock(rt, &mut pass.token);
        let is_held = held.value.core().is_held();
        self.lock.unlock(&mut pass.token, held);
        is_held
    }

    /// Whether a seat in the wait queue is marked as told: an entry named it, or it lapsed. Since then it has
    /// neither left the queue nor been answered `Sleep`.
    ///
    /// If the head of the queue could go, it is marked as told. That says nothing of its thread, which may
    /// still have to wake and to look.
    pub fn is_told<R: Wait>(&self, rt: &R, pass: &mut Pass, seat: u16) -> bool
        requires is_of { pass.old.lock ≡ self.now }
        requires seat { seat < self.now.header.seats }
        ensures looked { IsLook pass.old pass.new }
        ensures told { ready (start_at pass.new.seen) pass.new.seen.entries ≡ Some seat → result ≡ true }
        ensures stand { result ≡ true
            → is_placed (place_of seat (line (start_at pass.new.seen) pass.new.seen.entries)) ≡ true }
    {
        let held = self.lock.lock(rt, &mut pass.token);
        let is_told = held.value.core().is_told(seat);
        self.lock.unlock(&mut pass.token, held);
        is_told
    }

    /// How many seats are in the wait queue.
    pub fn queue_length<R: Wait>(&self, rt: &R, pass: &mut Pass) -> u16
        requires is_of { pass.old.lock ≡ self.now }
        ensures looked { IsLook pass.old pass.new }
        ensures value { result ≡ length (line (start_at pass.new.seen) pass.new.seen.entries) }
    {
        let held = self.lock.lock(rt, &mut pass.token);
        let queue_length = held.value.core().queue_length();
        self.lock.unlock(&mut pass.token, held);
        queue_length
    }

    /// How many seats wait on a condition.
    pub fn waiters<R: Wait>(&self, rt: &R, pass: &mut Pass, condition: u8) -> u16
        requires is_of { pass.old.lock ≡ self.now }
        ensures looked { IsLook pass.old pass.new }
        ensures value { result ≡ length (sleepers (start_at pass.new.seen) pass.new.seen.entries condition) }
    {
        let held = self.lock.lock(rt, &mut pass.token);
        let waiters = held.value.core().waiters(condition);
        self.lock.unlock(&mut pass.token, held);
        waiters
    }

    /// The free permits of a semaphore, which may be below 0. Other objects have 0.
    pub fn available<R: Wait>(&self, rt: &R, pass: &mut Pass) -> i64
        requires is_of { pass.old.lock ≡ self.now }
        ensures looked { IsLook pass.old pass.new }
        ensures value { result ≡ available (start_at pass.new.seen) pass.new.seen.entries }
    {
        let held = self.lock.lock(rt, &mut pass.token);
        let available = held.value.core().available();
        self.lock.unlock(&mut pass.token, held);
        available
    }

    /// The count of a latch, down from its opening number. Other objects have 0.
    pub fn count<R: Wait>(&self, rt: &R, pass: &mut Pass) -> u32
        requires is_of { pass.old.lock ≡ self.now }
        ensures looked { IsLook pass.old pass.new }
        ensures value { result ≡ count (start_at pass.new.seen) pass.new.seen.entries }
    {
        let held = self.lock.lock(rt, &mut pass.token);
        let count = held.value.core().count();
        self.lock.unlock(&mut pass.token, held);
        count
    }

    /// Shows the load that lies under the lock to `look`, within one turn: nobody steps meanwhile, so it
    /// should be short.
    pub fn look_with<R: Wait, A, F: FnOnce(&L) -> A>(&self, rt: &R, pass: &mut Pass, look: F) -> A
        requires is_of { pass.old.lock ≡ self.now }
        requires callable { F.IsAlwaysCallable look }
        ensures looked { IsLook pass.old pass.new }
        ensures saw { (load : L) × L.rests load (counts (start_at pass.new.seen) pass.new.seen.entries)
            × FnOnceReturnsAt F.FnOnce look load result }
    {
        let held = self.lock.lock(rt, &mut pass.token);
        let seen = look(held.value.load());
        self.lock.unlock(&mut pass.token, held);
        seen
    }
}
