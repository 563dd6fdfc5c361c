//! The most frequent steps that are not done at once: an acquire, a release and a retry. In each of them the
//! entry is known. A caller that knows its step calls its function, which is compiled into the caller.

ghost use Rattle.std.specs.Prelude.{◌≡◌, ◌<◌, IfNone, IfSome, IsTrue, Ok, Some};
ghost use Rattle.frame.specs.Below.{Acquire, Give, Look, could, held_back, is_seat, first_of, line};
ghost use Rattle.frame.specs.inner.AtOnce.{IsIdle, may_acquire, queues};
ghost use Rattle.frame.specs.Core.{counts_of, start_of, IsStepped};
ghost use Rattle.frame.specs.inner.Core.{first_mode_of, ready_of};

use super::Core;
use crate::hooks::Hooks;
use deciding::entries::{ended, plain};
use history::arrival::Arrival;
use history::entry::{End, Mode, Word};
use history::step::{Answer, Step};

impl<H: Hooks + Drop> Core<H> {
    /// Performs an acquire, a release or a retry on a path of its own, on which the entry is known. `None`
    /// changes nothing: the step takes the general path, `step_in_full`.
    #[inline(always)]
    pub(super) fn step_of_kind(&mut self, seat: u16, step: Step) -> Option<Answer>
        requires { seat < self.old.header.seats }
        ensures done { IfSome result (λ answer. IsStepped self.old seat step (Ok answer) self.new) }
        ensures none { IfNone result (self.new ≡ self.old) }
    {
        match step {
            Step::Look => self.look(seat),
            Step::Acquire(mode, n) => self.acquire(seat, mode, n),
            Step::Give(mode, n) => self.give(seat, mode, n),
            _ => None,
        }
    }

    /// Performs an acquire: it joins the queue, or succeeds past those who wait. `None` changes nothing, and
    /// the caller goes on by [`step`](Core::step): the seat is not idle or at its limit, the object has no
    /// such step, or the history has no room or no memory.
    #[inline(always)]
    pub fn acquire(&mut self, seat: u16, mode: Mode, n: u32) -> Option<Answer>
        requires { seat < self.old.header.seats }
        ensures done { IfSome result (λ answer.
            IsStepped self.old seat (Acquire mode n) (Ok answer) self.new) }
        ensures none { IfNone result (self.new ≡ self.old) }
    {
        let step = Step::Acquire(mode, n);
        if !self.is_idle(seat) {
            None
        } else if self.queues(seat, step, mode, n) {
            self.answer(seat, step, plain(seat, Word::Queued, mode, n))
        } else if self.takes(seat, step, mode, n) {
            self.answer(seat, step, plain(seat, Word::Got, mode, n))
        } else {
            None
        }
    }

    /// Performs a release, which names the head of the queue if that could go now. `None` changes nothing,
    /// and the caller goes on by [`step`](Core::step): the seat is not idle or has nothing to release, the
    /// object has no such step, or the history has no room or no memory.
    #[inline(always)]
    pub fn give(&mut self, seat: u16, mode: Mode, n: u32) -> Option<Answer>
        requires { seat < self.old.header.seats }
        ensures done { IfSome result (λ answer. IsStepped self.old seat (Give mode n) (Ok answer) self.new) }
        ensures none { IfNone result (self.new ≡ self.old) }
    {
        let step = Step::Give(mode, n);
        if self.is_idle(seat) && self.gives(seat, step, mode, n) {
            self.answer(seat, step, plain(seat, Word::Gave, mode, n))
        } else {
            None
        }
    }

    /// Performs a waiter's retry: it acquires if it is the head of the queue and could, and otherwise keeps
    /// waiting. `None` changes nothing, and the caller goes on by [`step`](Core::step): the seat is not in
    /// the queue, or comes back from a condition now.
    #[inline(always)]
    pub fn look(&mut self, seat: u16) -> Option<Answer>
        requires { seat < self.old.header.seats }
        ensures done { IfSome result (λ answer. IsStepped self.old seat Look (Ok answer) self.new) }
        ensures none { IfNone result (self.new ≡ self.old) }
    {
        if self.queue.place_of(seat).is_none() {
            return None;
        }
        let Some(first) = self.queue.first() else {
            return None;
        };
        if !self.is_ready(seat, first) {
            self.sleep(seat);
            Some(Answer::Sleep)
        } else if first.back {
            None
        } else {
            let granted = ended(seat, Word::Granted, first, End::None);
            self.answer(seat, Step::Look, granted)
        }
    }

    /// Returns whether the seat waits neither in the queue nor on a condition.
    #[inline(always)]
    pub(super) fn is_idle(&self, seat: u16) -> bool
        ensures { IsTrue result → IsIdle self.now seat }
    {
        self.queue.place_of(seat).is_none() && self.waiters.sleeper_of(seat).is_none()
    }

    /// Returns whether the seat is the head of the queue and could acquire what it asks for.
    #[inline(always)]
    fn is_ready(&self, seat: u16, first: Arrival) -> bool
        requires { first_of (line (start_of self.now) self.now.entries) ≡ Some first }
        ensures { result ≡ is_seat (ready_of self.now) seat }
    {
        first.seat == seat && self.hooks.could(seat, first.mode, first.n)
    }

    /// Returns whether the object has such a step, and an acquire of the seat joins the queue: it is held
    /// back, or could not succeed.
    #[inline(always)]
    pub(super) fn queues(&self, seat: u16, step: Step, mode: Mode, n: u32) -> bool
        ensures { result ≡ queues self.now seat step mode n }
    {
        self.may_acquire(seat, step, mode)
            && (self.holds_back(seat, mode) || !self.could(seat, mode, n))
    }

    /// Returns whether the object has such a step, and the seat is below its limit.
    #[inline(always)]
    fn may_acquire(&self, seat: u16, step: Step, mode: Mode) -> bool
        ensures { result ≡ may_acquire self.now seat step mode }
    {
        self.admits(step) && !self.hooks.at_limit(seat, mode)
    }

    /// Returns whether the queue holds a new call of the seat back.
    #[inline(always)]
    fn holds_back(&self, seat: u16, mode: Mode) -> bool
        ensures { result ≡ held_back (counts_of self.now) (first_mode_of self.now) seat mode }
    {
        self.hooks.holds_back(seat, mode, self.line())
    }

    /// Returns whether the seat could acquire now.
    #[inline(always)]
    fn could(&self, seat: u16, mode: Mode, n: u32) -> bool
        ensures { result ≡ could (counts_of self.now) seat mode n }
    {
        self.hooks.could(seat, mode, n)
    }
}
