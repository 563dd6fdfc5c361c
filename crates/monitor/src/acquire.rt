//! An acquire, which may join the wait queue.
ghost use Rattle.std.specs.Prelude.{◌≡◌, true};
ghost use Rattle.monitor.specs.Calling.{CanCall, Called};
ghost use Rattle.monitor.specs.Load.{Brings, Moves, free_of, holds_of, was_refused};
ghost use Rattle.monitor.specs.Machine.{AsksAwait, IsCall};
ghost use Rattle.monitor.specs.Settled.{IsSettled};
ghost use Rattle.monitor.specs.Acquire.{IsAcquire, WasInterrupted, first_step};

use crate::at_once::NOT_ASKED;
use crate::how::{How, moment};
use crate::interrupts::Interrupts;
use crate::load::{Empty, Load};
use crate::machine::{Next, Request, first_turn};
use crate::monitor::Monitor;
use crate::pass::Pass;
use frame::hooks::Hooks;
use frame::machine::entry_at_once;
use history::entry::{Entry, Mode};
use history::fault::Fault;
use history::step::Step;
use permit::Parking;
use std::sync::Wait;
use std::time::Clock;

// A call with a time of 0 doesn't join the wait queue.
pub(crate) fn first_step(how: How, mode: Mode, n: u32) -> Step
    ensures { result ≡ first_step how mode n }
{
    match how {
        How::Timed(ms) => {
            if ms == 0 {
                Step::TryFair(mode, n)
            } else {
                Step::Acquire(mode, n)
            }
        }
        How::Plain => Step::Acquire(mode, n),
        How::Interruptible => Step::Acquire(mode, n),
    }
}

impl<H: Hooks + Drop> Monitor<H> {
    /// Acquires `n` in a mode, and waits in the queue as long as `how` says.
    ///
    /// Returns the entry that ended the call, the last one that the pass has seen:
    /// - `Got`, or `Granted` after `Queued`: the seat has what it asked for.
    /// - `Refused`: the seat has as many holds as it may, or an interrupt was pending.
    /// - `Left` after `Queued`: the time was up, or an interrupt came.
    /// - `Missed`: the call had no time, and had to wait.
    ///
    /// A fault is the answer to the first step, and nothing was recorded. After `Queued` there is none. A
    /// pending interrupt is taken and ends the call. If that couldn't be recorded, it is pending again. This
    /// is the acquire of Java SE 8's AbstractQueuedSynchronizer, with its interruptible and timed kinds.
    #[inline(always)]
    pub fn acquire<P: Parking, R: Wait + Clock>(
        &self,
        rt: &R,
        parking: &P,
        pass: &mut Pass,
        mode: Mode,
        n: u32,
        how: How,
    ) -> Result<Entry, Fault>
        requires can { CanCall self.now (P.seats parking.now) pass.old }
        ensures called { Called pass.old pass.new }
        ensures acquired { IsAcquire (P.did parking.now) pass.old mode n how result pass.new }
    {
        let request = Request::Acquire(mode, n);
        let load = &mut Empty {};
        self.call(rt, parking, pass, load, request, how)
    }
}

impl<H: Hooks + Drop, L: Load> Monitor<H, L> {
    /// A call that may wait, as [`acquire`](Monitor::acquire) and [`await_on`](Monitor::await_on), with a load: before
    /// and after, the caller carries what belongs to the holds of its pass.
    #[inline(always)]
    pub fn call<P: Parking, R: Wait + Clock>(
        &self,
        rt: &R,
        parking: &P,
        pass: &mut Pass,
        load: &mut L,
        request: Request,
        how: How,
    ) -> Result<Entry, Fault>
        requires can { CanCall self.now (P.seats parking.now) pass.old }
        requires carries { L.carries load.old (holds_of pass.old) }
        requires brings { Brings L.is_counted (L.amount load.old) 0 }
        requires fit { AsksAwait request → L.fit load.old }
        ensures called { Called pass.old pass.new }
        ensures made { IsCall (P.did parking.now) pass.old request how result pass.new }
        ensures carries { L.carries load.new (holds_of pass.new) }
        ensures moves { Moves L.fit L.is_counted L.amount load.old (free_of pass.old) load.new
            (free_of pass.new) }
        ensures stays { was_refused result ≡ true → load.new ≡ load.old }
    {
        if let Some(interrupts) = Interrupts::at_entry(parking, pass, how) {
            return self.refuse(rt, parking, pass, load, request, how, interrupts);
        }
        let moment = moment(rt, parking, pass, how);
        let step = request.step(how, false);
        let mut answer = NOT_ASKED;
        match self.step_into(rt, pass, load, step, &mut answer) {
            Some(named) => {
                pass.unpark(parking, named);
                Ok(entry_at_once(pass.seat(), step))
            }
            None => {
                let turn = first_turn(request, how, moment, false, answer);
                pass.unpark(parking, turn.named);
                match turn.next {
                    Next::Ends { reply, again: _ } => reply,
                    Next::Waits(waiting) => self.wait(rt, parking, pass, load, waiting),
                }
            }
        }
    }

    // A call that an interrupt ended before it began.
    fn refuse<P: Parking, R: Wait + Clock>(
        &self,
        rt: &R,
        parking: &P,
        pass: &mut Pass,
        load: &mut L,
        request: Request,
        how: How,
        interrupts: Interrupts,
    ) -> Result<Entry, Fault>
        requires can { CanCall self.now (P.seats parking.now) pass.old }
        requires interrupted { WasInterrupted (P.did parking.now) pass.old.seat how }
        requires taken { (interrupts.seat ≡ pass.old.seat) × (interrupts.taken ≡ true) }
        requires carries { L.carries load.old (holds_of pass.old) }
        requires brings { Brings L.is_counted (L.amount load.old) 0 }
        requires fit { AsksAwait request → L.fit load.old }
        ensures called { Called pass.old pass.new }
        ensures made { IsCall (P.did parking.now) pass.old request how result pass.new }
        ensures settled { IsSettled result }
        ensures carries { L.carries load.new (holds_of pass.new) }
        ensures moves { Moves L.fit L.is_counted L.amount load.old (free_of pass.old) load.new
            (free_of pass.new) }
        ensures stays { was_refused result ≡ true → load.new ≡ load.old }
    {
        pass.is_true();
        let refusal = self.begin(rt, pass, load, request, how, 0, true);
        pass.unpark(parking, refusal.named);
        match refusal.next {
            Next::Ends { reply, again: _ } => {
                interrupts.settle(parking, reply);
                reply
            }
            Next::Waits(_) => unreachable!(),
        }
    }
}
