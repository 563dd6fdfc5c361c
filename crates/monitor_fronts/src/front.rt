//! What the calls of all front types have in common.
ghost use Rattle.std.specs.Prelude.{◌≡◌, false, true};
ghost use Rattle.history.specs.Phase.{waits};
ghost use Rattle.history.specs.declared.step.Step.TheVariants.{Try};
ghost use Rattle.monitor.specs.Calling.{CanCall, Called};
ghost use Rattle.monitor.specs.inner.Load.{is_signal};
ghost use Rattle.monitor_fronts.specs.declared.room.WhenFull.TheVariants.{Trim};
ghost use Rattle.monitor_fronts.specs.FrontCalls.{Acquires, Awaits, Steps};
ghost use Rattle.monitor_fronts.specs.Holding.{AddsIn, holds};
ghost use Rattle.monitor_fronts.specs.Returned.{whether_of};

use crate::room::{WhenFull, call_in_room, enter_in_room};
use frame::hooks::Hooks;
use history::entry::{Entry, Mode};
use history::fault::Fault;
use history::step::Step;
use monitor::{Empty, How, Monitor, Pass, Request};
use permit::Parking;
use std::sync::Wait;
use std::time::Clock;

/// A class of `java.util.concurrent` over a monitor, which it borrows: a [`ReentrantLock`](crate::ReentrantLock), a
/// [`ReadWriteLock`](crate::ReadWriteLock), a [`Semaphore`](crate::Semaphore) or a [`Latch`](crate::Latch). The thread
/// is the pass, conditions have numbers, and a call returns an `Err` where Java throws.
///
/// A call that finds the history full folds it and goes on, or returns `Err(HistoryFull)` if `when_full` says
/// [`WhenFull::Refuse`]. An unlock by an owner never lacks room. At a front that refuses, a release of permits and a
/// count down may lack room. A call costs one entry, and one that waits costs two.
#[derive(Clone, Copy)]
pub struct Front<'m, H: Hooks + Drop> {
    pub monitor: &'m Monitor<H>,
    /// What a call does if it finds the history full.
    pub when_full: WhenFull,
}

impl<'m, H: Hooks + Drop> Front<'m, H> {
    /// Returns a front over this monitor, which it borrows. A call that finds the history full folds it and
    /// goes on ([`WhenFull::Trim`]).
    pub fn of(monitor: &'m Monitor<H>) -> Self
        ensures monitor { result.monitor.now ≡ monitor.now }
        ensures when_full { result.when_full ≡ Trim }
    {
        Front::of_when_full(monitor, WhenFull::Trim)
    }

    /// The same. `when_full` says what a call does if it finds the history full.
    pub fn of_when_full(monitor: &'m Monitor<H>, when_full: WhenFull) -> Self
        ensures monitor { result.monitor.now ≡ monitor.now }
        ensures when_full { result.when_full ≡ when_full }
    {
        Front { monitor, when_full }
    }

    // An acquire, which makes room if this front trims.
    pub(crate) fn acquire_as<P: Parking, R: Wait + Clock>(
        &self,
        rt: &R,
        parking: &P,
        pass: &mut Pass,
        mode: Mode,
        n: u32,
        how: How,
    ) -> Result<Entry, Fault>
        requires can { CanCall self.now.monitor.now (P.seats parking.now) pass.old }
        ensures called { Called pass.old pass.new }
        ensures acquired { Acquires self.now.when_full (P.did parking.now) mode n how pass.old pass.new
            result }
        ensures gains { n ≡ 1 → AddsIn mode pass.old (whether_of result) pass.new }
    {
        let request = Request::Acquire(mode, n);
        let when_full = self.when_full;
        call_in_room(
            self.monitor,
            rt,
            parking,
            pass,
            &mut Empty {},
            request,
            how,
            when_full,
        )
    }

    // An await, which makes room if this front trims.
    pub(crate) fn wait_as<P: Parking, R: Wait + Clock>(
        &self,
        rt: &R,
        parking: &P,
        pass: &mut Pass,
        condition: u8,
        how: How,
    ) -> Result<Entry, Fault>
        requires can { CanCall self.now.monitor.now (P.seats parking.now) pass.old }
        ensures called { Called pass.old pass.new }
        ensures awaited { Awaits self.now.when_full (P.did parking.now) condition how pass.old pass.new
            result }
        ensures keeps { holds pass.new ≡ holds pass.old }
    {
        let request = Request::AwaitOn(condition);
        let when_full = self.when_full;
        call_in_room(
            self.monitor,
            rt,
            parking,
            pass,
            &mut Empty {},
            request,
            how,
            when_full,
        )
    }

    // A step that doesn't wait, which makes room if this front trims.
    pub(crate) fn enter<P: Parking, R: Wait + Clock>(
        &self,
        rt: &R,
        parking: &P,
        pass: &mut Pass,
        step: Step,
    ) -> Result<Entry, Fault>
        requires can { CanCall self.now.monitor.now (P.seats parking.now) pass.old }
        requires idle { waits step ≡ false }
        ensures called { Called pass.old pass.new }
        ensures entered { Steps self.now.when_full (P.did parking.now) step pass.old pass.new result }
        ensures gains { (m : Mode) → step ≡ Try m 1 → AddsIn m pass.old (whether_of result) pass.new }
        ensures keeps { is_signal step ≡ true → holds pass.new ≡ holds pass.old }
    {
        enter_in_room(
            self.monitor,
            rt,
            parking,
            pass,
            &mut Empty {},
            step,
            self.when_full,
        )
    }
}
