//! The fast path: an acquire or a try that succeeds, and a release, of an idle seat while the queue is empty.
//!
//! Nearly all steps are of this kind. They move nobody and name nobody, so they need no more of the queue and
//! the conditions. All other steps take the general path.
//!
//! A caller may ask for the fast path alone, by [`step_at_once`](Core::step_at_once). It returns no more than
//! the waiter that the step names. There an acquire that succeeds past those who wait is done at once too, and
//! so is a release while somebody waits.

ghost use Rattle.std.specs.Prelude.{◌≡◌, ◌<◌, [], true, false, not, is_none, int_lt, pos, ◌+ℤ◌, Ok, IfSome, IfNone, IsTrue};
ghost use Rattle.frame.specs.Below.{available, refused_as, could, limit, max_amount, line, gave, Gave, Recorded};
ghost use Rattle.frame.specs.AtOnce.{Gives, IsAtOnce, entry_at_once};
ghost use Rattle.frame.specs.inner.AtOnce.{IsAlone, MakesAtOnce, Takes, moves_nobody};
ghost use Rattle.frame.specs.Core.{counts_of, start_of, IsAdded, IsNext, IsStepped};

use super::Core;
use crate::effects::change;
use crate::hooks::Hooks;
use crate::seat::update;
use deciding::checks::refused_as;
use deciding::entries::plain;
use deciding::room::owed_behind;
use history::entry::{Entry, Mode, Word};
use history::header::{Header, Object};
use history::limits::MOST_PERMITS;
use history::step::Step;

impl<H: Hooks + Drop> Core<H> {
    /// Performs a step if it can be done at once: an acquire or a try that succeeds, or a release, of an idle
    /// seat. It returns the waiter that the step names, and [`entry_at_once`] says which entry was made.
    ///
    /// `None` changes nothing: the step takes the general path, [`step_by_kind`](Core::step_by_kind).
    #[inline(always)]
    pub fn step_at_once(&mut self, seat: u16, step: Step) -> Option<Option<u16>>
        requires { seat < self.old.header.seats }
        ensures done { IfSome result (λ name.
            IsStepped self.old seat step (Ok (Recorded (entry_at_once seat step) name)) self.new) }
        ensures none { IfNone result (self.new ≡ self.old) }
    {
        if !self.queue.is_empty() {
            return self.step_past(seat, step);
        }
        match self.step_alone(seat, step) {
            Some(_entry) => Some(None),
            None => None,
        }
    }

    /// The same past those who wait: an acquire that the queue doesn't hold back, and a release.
    #[inline(never)]
    fn step_past(&mut self, seat: u16, step: Step) -> Option<Option<u16>>
        requires { seat < self.old.header.seats }
        ensures done { IfSome result (λ name.
            IsStepped self.old seat step (Ok (Recorded (entry_at_once seat step) name)) self.new) }
        ensures none { IfNone result (self.new ≡ self.old) }
    {
        if !self.goes_past(seat, step) {
            return None;
        }
        self.record_at_once(seat, step, entry_at_once(seat, step))
    }

    /// Returns whether the step of an idle seat is done at once past those who wait.
    #[inline(always)]
    fn goes_past(&self, seat: u16, step: Step) -> bool
        requires { seat < self.now.header.seats }
        ensures { IsTrue result → MakesAtOnce self.now seat step }
    {
        match step {
            Step::Acquire(mode, n) => {
                self.is_idle(seat)
                    && self.takes(seat, step, mode, n)
                    && !self.queues(seat, step, mode, n)
            }
            Step::Give(mode, n) => self.is_idle(seat) && self.gives(seat, step, mode, n),
            _ => false,
        }
    }

    /// Returns the entry of a step that was done at once while the queue is empty. `None` changes nothing.
    // Whether the object has the step is asked once, and in each arm the entry is known.
    #[inline(always)]
    pub(super) fn step_alone(&mut self, seat: u16, step: Step) -> Option<Entry>
        requires { seat < self.old.header.seats }
        ensures done { IfSome result (λ entry. IsAtOnce self.old seat step entry self.new) }
        ensures none { IfNone result (self.new ≡ self.old) }
    {
        if !self.is_alone(seat) {
            return None;
        }
        if !self.admits(step) {
            return None;
        }
        match step {
            Step::Acquire(mode, n) | Step::TryFair(mode, n) if self.may_take(seat, mode, n) => {
                self.enter(plain(seat, Word::Got, mode, n))
            }
            Step::Try(mode, n) if self.may_take(seat, mode, n) => {
                self.enter(plain(seat, Word::TryGot, mode, n))
            }
            Step::Give(mode, n) if self.may_give(seat, mode, n) => {
                self.enter(plain(seat, Word::Gave, mode, n))
            }
            _ => None,
        }
    }

    /// Adds an entry that moves nobody, while the queue is empty. `None` changes nothing: no place could be
    /// reserved.
    #[inline(always)]
    fn enter(&mut self, entry: Entry) -> Option<Entry>
        requires next { IsNext self.old entry }
        requires nobody { moves_nobody entry.word ≡ true }
        requires empty { line (start_of self.old) self.old.entries ≡ [] }
        ensures added { IfSome result (λ it. (it ≡ entry) × IsAdded self.old entry (Ok None) self.new) }
        ensures none { IfNone result (self.new ≡ self.old) }
    {
        let object = self.object();
        let was_owed = self.history.owed();
        let owed = owed_behind(object, entry, was_owed);
        let needed = (owed + 1).saturating_sub(was_owed);
        let Ok(()) = self.history.make_room(needed) else {
            return None;
        };
        change(&mut self.hooks, entry);
        update(&mut self.seats, object, entry);
        self.history.add(entry, owed);
        Some(entry)
    }

    /// Returns whether the queue is empty and the seat waits on no condition, and so is idle.
    #[inline(always)]
    fn is_alone(&self, seat: u16) -> bool
        ensures { IsTrue result → IsAlone self.now seat }
    {
        self.queue.is_empty() && self.waiters.sleeper_of(seat).is_none()
    }

    /// Returns whether the object has such a step, and the seat could acquire.
    #[inline(always)]
    pub(super) fn takes(&self, seat: u16, step: Step, mode: Mode, n: u32) -> bool
        ensures { IsTrue result → Takes self.now seat step mode n }
    {
        self.admits(step) && self.may_take(seat, mode, n)
    }

    /// Returns whether the seat could acquire. Whether the object has such a step isn't asked here.
    #[inline(always)]
    fn may_take(&self, seat: u16, mode: Mode, n: u32) -> bool
        ensures below { IsTrue result → limit (counts_of self.now) seat mode ≡ false }
        ensures could { IsTrue result → could (counts_of self.now) seat mode n ≡ true }
    {
        !self.hooks.at_limit(seat, mode) && self.hooks.could(seat, mode, n)
    }

    /// Returns whether the object has such a step, and a hold or permits are released.
    #[inline(always)]
    pub(super) fn gives(&self, seat: u16, step: Step, mode: Mode, n: u32) -> bool
        requires { seat < self.now.header.seats }
        ensures { IsTrue result → Gives self.now seat step mode n }
    {
        self.admits(step) && self.may_give(seat, mode, n)
    }

    /// Returns whether a hold or permits are released. Whether the object has such a step isn't asked here. A
    /// latch is counted down on the general path.
    #[inline(always)]
    fn may_give(&self, seat: u16, mode: Mode, n: u32) -> bool
        requires { seat < self.now.header.seats }
        ensures { IsTrue result → gave self.now.header.object (counts_of self.now) seat mode n ≡ Gave }
    {
        let _header = &self.header;
        match self.object() {
            Object::Lock(_) | Object::ReadWrite(_) => self.holds(seat, mode) > 0,
            Object::Semaphore(_, _) => self.may_free(n),
            Object::Latch(_) => false,
        }
    }

    /// Returns whether `more` permits more may be free.
    #[inline(always)]
    fn may_free(&self, more: u32) -> bool
        ensures { result
            ≡ not (int_lt (pos max_amount) (available (start_of self.now) self.now.entries +ℤ pos more)) }
    {
        self.available() + i64::from(more) <= MOST_PERMITS
    }

    /// Returns whether the object has such a step, with its mode and its amount.
    #[inline(always)]
    pub(super) fn admits(&self, step: Step) -> bool
        ensures { result ≡ is_none (refused_as self.now.header step) }
    {
        let header = Header {
            object: self.object(),
            ..self.header
        };
        refused_as(&header, step).is_none()
    }

    /// Returns the object, as its hooks know it. The hooks of a lock know at compile time that it is one.
    #[inline(always)]
    pub(super) fn object(&self) -> Object
        ensures { result ≡ self.now.header.object }
    {
        self.hooks.object()
    }
}

/// Returns the entry of a step that is done at once: `Got`, `TryGot` or `Gave`. No other steps are.
#[inline(always)]
pub fn entry_at_once(seat: u16, step: Step) -> Entry
    ensures { result ≡ entry_at_once seat step }
{
    match step {
        Step::Acquire(mode, n) => plain(seat, Word::Got, mode, n),
        Step::TryFair(mode, n) => plain(seat, Word::Got, mode, n),
        Step::Try(mode, n) => plain(seat, Word::TryGot, mode, n),
        Step::Give(mode, n) => plain(seat, Word::Gave, mode, n),
        _ => plain(seat, Word::Got, Mode::X, 0),
    }
}
