//! Deciding which entry a step makes, from the core's state.

ghost use Rattle.std.specs.Prelude.{◌≡◌, ◌<◌, IfOk, IfSome};
ghost use Rattle.history.specs.Steps.{entry_for};
ghost use Rattle.frame.specs.Core.{start_of, IsNext};
ghost use Rattle.frame.specs.inner.Core.{first_mode_of, ready_of};
ghost use Rattle.frame.specs.Hooks.{line_mode};

use super::Core;
use crate::effects::first_ready;
use crate::hooks::{Hooks, Line};
use deciding::decide;
use deciding::situation::ObjectState;
use deciding::sleep::LastSleep;
use history::arrival::Arrival;
use history::entry::{Entry, Mode};
use history::fault::Fault;
use history::header::Header;
use history::step::Step;

impl<H: Hooks + Drop> Core<H> {
    /// Returns whether somebody is in the queue, and which mode its head asks for.
    pub(super) fn line(&self) -> Line
        ensures { line_mode result ≡ first_mode_of self.now }
    {
        match self.queue.first() {
            None => Line::Empty,
            Some(first) => match first.mode {
                Mode::X => Line::FirstX,
                Mode::S => Line::FirstS,
            },
        }
    }

    /// Returns the seat of the head of the queue, if it could acquire what it asks for.
    pub(super) fn ready(&self) -> Option<u16>
        ensures { result ≡ ready_of self.now }
    {
        first_ready(&self.hooks, &self.queue)
    }

    /// Returns the one entry that a step makes, or `None` for sleep, or a fault that isn't recorded.
    #[inline(always)]
    pub(super) fn decide(&self, seat: u16, step: Step) -> Result<Option<Entry>, Fault>
        requires { seat < self.now.header.seats }
        ensures made { result ≡ entry_for (start_of self.now) self.now.entries seat step }
        ensures next { IfOk result (λ made. IfSome made (λ entry. IsNext self.now entry)) }
    {
        let _header = &self.header;
        decide::entry_for(self, seat, step)
    }
}

impl<H: Hooks + Drop> ObjectState for Core<H> {
    ghost use Rattle.frame.specs.Core.{StandsFor};

    ghost stands = { StandsFor };

    ghost is_history = { λ s h core st. st.past };

    fn header(&self) -> &Header {
        &self.header
    }

    fn is_strict(&self) -> bool {
        self.hooks.strict()
    }

    fn holds_back(&self, seat: u16, mode: Mode) -> bool {
        self.hooks.holds_back(seat, mode, self.line())
    }

    fn at_limit(&self, seat: u16, mode: Mode) -> bool {
        self.hooks.at_limit(seat, mode)
    }

    fn could(&self, seat: u16, mode: Mode, n: u32) -> bool {
        self.hooks.could(seat, mode, n)
    }

    fn held(&self, seat: u16, mode: Mode) -> u128 {
        self.holds(seat, mode)
    }

    fn free(&self) -> i64 {
        self.available()
    }

    fn latch_count(&self) -> u32 {
        self.count()
    }

    fn queue_length(&self) -> u16 {
        self.queue_length()
    }

    fn first(&self) -> Option<Arrival> {
        self.queue.first()
    }

    fn place_of(&self, seat: u16) -> Option<Arrival> {
        self.queue.place_of(seat)
    }

    fn sleeps(&self, seat: u16) -> bool {
        self.waiters.sleeper_of(seat).is_some()
    }

    fn waiters(&self, condition: u8) -> u16 {
        self.waiters(condition)
    }

    fn last_sleep(&self, seat: u16) -> LastSleep {
        self.seat(seat).sleep
    }
}
