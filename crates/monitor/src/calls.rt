//! Calls that record one entry and never join the wait queue.
ghost use Rattle.history.specs.declared.entry.Mode.TheVariants.{S};
ghost use Rattle.history.specs.declared.step.Step.TheVariants.{Try, Give, Signal, SignalAll, Drain};
ghost use Rattle.monitor.specs.Calling.{CanCall, Called};
ghost use Rattle.monitor.specs.Stepping.{IsEntered};

use crate::load::{Empty, Load};
use crate::monitor::Monitor;
use crate::pass::Pass;
use frame::hooks::Hooks;
use history::entry::{Entry, Mode};
use history::fault::Fault;
use history::step::Step;
use permit::Parking;
use std::sync::Wait;
use std::time::Clock;

/// Each of these records one entry and returns it, and unparks the seat that its step names. After an `Err`
/// nothing was recorded, and the pass may call again.
impl<H: Hooks + Drop> Monitor<H> {
    /// Acquires what is free, past everybody in the wait queue unless the object is strict: `TryGot`, or
    /// `Missed`. `Refused` if the seat has too many holds.
    pub fn try_acquire<P: Parking, R: Wait + Clock>(
        &self,
        rt: &R,
        parking: &P,
        pass: &mut Pass,
        mode: Mode,
        n: u32,
    ) -> Result<Entry, Fault>
        requires can { CanCall self.now (P.seats parking.now) pass.old }
        ensures called { Called pass.old pass.new }
        ensures tried { IsEntered (P.did parking.now) pass.old (Try mode n) result pass.new }
    {
        pass.is_true();
        let step = Step::Try(mode, n);
        self.enter(rt, parking, pass, &mut Empty {}, step)
    }

    /// Releases a hold or permits: `Gave`. `Refused` if the seat doesn't own what it releases.
    #[inline(always)]
    pub fn release<P: Parking, R: Wait + Clock>(
        &self,
        rt: &R,
        parking: &P,
        pass: &mut Pass,
        mode: Mode,
        n: u32,
    ) -> Result<Entry, Fault>
        requires can { CanCall self.now (P.seats parking.now) pass.old }
        ensures called { Called pass.old pass.new }
        ensures given { IsEntered (P.did parking.now) pass.old (Give mode n) result pass.new }
    {
        pass.is_true();
        let step = Step::Give(mode, n);
        self.enter(rt, parking, pass, &mut Empty {}, step)
    }

    /// Counts a latch down by one: `Counted`.
    pub fn count_down<P: Parking, R: Wait + Clock>(
        &self,
        rt: &R,
        parking: &P,
        pass: &mut Pass,
    ) -> Result<Entry, Fault>
        requires can { CanCall self.now (P.seats parking.now) pass.old }
        ensures called { Called pass.old pass.new }
        ensures counted { IsEntered (P.did parking.now) pass.old (Give S 1) result pass.new }
    {
        pass.is_true();
        let step = Step::Give(Mode::S, 1);
        self.enter(rt, parking, pass, &mut Empty {}, step)
    }

    /// Takes all free permits of a semaphore: `Drained`, with their number.
    pub fn drain<P: Parking, R: Wait + Clock>(
        &self,
        rt: &R,
        parking: &P,
        pass: &mut Pass,
    ) -> Result<Entry, Fault>
        requires can { CanCall self.now (P.seats parking.now) pass.old }
        ensures called { Called pass.old pass.new }
        ensures drained { IsEntered (P.did parking.now) pass.old (Drain) result pass.new }
    {
        pass.is_true();
        let step = Step::Drain;
        self.enter(rt, parking, pass, &mut Empty {}, step)
    }
}

/// A signal changes nobody's holds, so a load stays where it is.
impl<H: Hooks + Drop, L: Load> Monitor<H, L> {
    /// Moves the longest waiter of a condition into the wait queue. `Refused` if the seat isn't the owner.
    pub fn signal<P: Parking, R: Wait + Clock>(
        &self,
        rt: &R,
        parking: &P,
        pass: &mut Pass,
        condition: u8,
    ) -> Result<Entry, Fault>
        requires can { CanCall self.now (P.seats parking.now) pass.old }
        ensures called { Called pass.old pass.new }
        ensures signalled { IsEntered (P.did parking.now) pass.old (Signal condition) result pass.new }
    {
        pass.is_true();
        self.tell(rt, parking, pass, Step::Signal(condition))
    }

    /// Moves all waiters of a condition into the wait queue, in order. `Refused` if the seat isn't the owner.
    pub fn signal_all<P: Parking, R: Wait + Clock>(
        &self,
        rt: &R,
        parking: &P,
        pass: &mut Pass,
        condition: u8,
    ) -> Result<Entry, Fault>
        requires can { CanCall self.now (P.seats parking.now) pass.old }
        ensures called { Called pass.old pass.new }
        ensures signalled { IsEntered (P.did parking.now) pass.old (SignalAll condition) result pass.new }
    {
        pass.is_true();
        self.tell(rt, parking, pass, Step::SignalAll(condition))
    }
}
