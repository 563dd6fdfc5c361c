//! One step of a seat.
ghost use Rattle.std.specs.Prelude.{◌≡◌, ◌≢◌, ◌<◌, false, true, Ok, IfSome};
ghost use Rattle.history.specs.declared.step.Answer.TheVariants.{Sleep};
ghost use Rattle.history.specs.Phase.{waits};
ghost use Rattle.monitor.specs.Calling.{CanCall, Called, CalledQuietly};
ghost use Rattle.monitor.specs.Load.{Brings, LetsGo, Moves, Trades, free_of, given_by, holds_of, was_refused};
ghost use Rattle.monitor.specs.inner.Load.{is_signal};
ghost use Rattle.monitor.specs.Stepping.{IsEntered, IsStep, IsStepNow, IsUnparked};
ghost use Rattle.monitor.specs.inner.Stepping.{entry_in, named_in, now_of};

use crate::at_once::{NOT_ASKED, reply_of};
use crate::load::{Empty, Load};
use crate::monitor::Monitor;
use crate::pass::Pass;
use crate::section::{signal_taken, step_taken};
use frame::hooks::Hooks;
use frame::machine::entry_at_once;
use history::entry::Entry;
use history::fault::Fault;
use history::step::{Answer, Step};
use permit::Parking;
use std::sync::Wait;
use std::time::Clock;

/// What `step_now` returns.
#[derive(Clone, Copy, Debug, PartialEq, Eq)]
pub enum Now {
    /// The step is done, with this answer.
    Done(Answer),
    /// Another call had the object: nothing was done.
    Busy,
}

impl<H: Hooks + Drop> Monitor<H> {
    /// One step of the pass's seat. It waits for the object.
    pub fn step<R: Wait>(&self, rt: &R, pass: &mut Pass, step: Step) -> Result<Answer, Fault>
        requires is_of { pass.old.lock ≡ self.now }
        ensures called { Called pass.old pass.new }
        ensures stepped { IsStep pass.old step result pass.new }
    {
        self.step_with(rt, pass, &mut Empty {}, step)
    }

    /// One step of the pass's seat, unless another call has its turn. It waits for nobody.
    pub fn step_now(&self, pass: &mut Pass, step: Step) -> Result<Now, Fault>
        requires is_of { pass.old.lock ≡ self.now }
        ensures called { Called pass.old pass.new }
        ensures stepped { IsStepNow pass.old step result pass.new }
    {
        self.step_now_with(pass, &mut Empty {}, step)
    }
}

/// The same with a load. The caller carries what belongs to the holds of its pass, before and after.
impl<H: Hooks + Drop, L: Load> Monitor<H, L> {
    /// One step of the pass's seat. It waits for the object.
    #[inline(never)]
    pub fn step_with<R: Wait>(
        &self,
        rt: &R,
        pass: &mut Pass,
        load: &mut L,
        step: Step,
    ) -> Result<Answer, Fault>
        requires is_of { pass.old.lock ≡ self.now }
        requires carries { L.carries load.old (holds_of pass.old) }
        requires brings { Brings L.is_counted (L.amount load.old) (given_by step) }
        requires fit { LetsGo step (holds_of pass.old) → L.fit load.old }
        ensures called { Called pass.old pass.new }
        ensures stepped { IsStep pass.old step result pass.new }
        ensures carries { L.carries load.new (holds_of pass.new) }
        ensures trades { Trades L.fit L.is_counted L.amount load.old pass.old load.new pass.new }
    {
        let mut answer = NOT_ASKED;
        let held = self.lock.lock(rt, &mut pass.token);
        let named = step_taken(
            &self.lock,
            &mut pass.token,
            pass.seat,
            &mut pass.share,
            load,
            held,
            step,
            &mut answer,
        );
        self.wake(pass);
        reply_of(pass.seat, step, named, answer)
    }

    // A signal of the pass's seat. It needs no load.
    pub(crate) fn signal_step<R: Wait>(
        &self,
        rt: &R,
        pass: &mut Pass,
        step: Step,
    ) -> Result<Answer, Fault>
        requires is_of { pass.old.lock ≡ self.now }
        requires signals { is_signal step ≡ true }
        ensures called { Called pass.old pass.new }
        ensures stepped { IsStep pass.old step result pass.new }
    {
        let held = self.lock.lock(rt, &mut pass.token);
        let answer = signal_taken(
            &self.lock,
            &mut pass.token,
            pass.seat,
            &mut pass.share,
            held,
            step,
        );
        self.wake(pass);
        answer
    }

    /// One step of the pass's seat, unless another call has its turn. It waits for nobody. If it is `Busy` the
    /// pass is as it was, and so is the load.
    pub fn step_now_with(&self, pass: &mut Pass, load: &mut L, step: Step) -> Result<Now, Fault>
        requires is_of { pass.old.lock ≡ self.now }
        requires carries { L.carries load.old (holds_of pass.old) }
        requires brings { Brings L.is_counted (L.amount load.old) (given_by step) }
        requires fit { LetsGo step (holds_of pass.old) → L.fit load.old }
        ensures called { Called pass.old pass.new }
        ensures stepped { IsStepNow pass.old step result pass.new }
        ensures carries { L.carries load.new (holds_of pass.new) }
        ensures trades { Trades L.fit L.is_counted L.amount load.old pass.old load.new pass.new }
    {
        let answer = self.step_quietly(pass, load, step);
        self.wake(pass);
        answer
    }

    /// The same, but it wakes nobody who waits for the object: for a static library, in which nobody waits. A
    /// thread that waits in another call, as `step`, may sleep on after it.
    pub fn step_quietly(&self, pass: &mut Pass, load: &mut L, step: Step) -> Result<Now, Fault>
        requires is_of { pass.old.lock ≡ self.now }
        requires carries { L.carries load.old (holds_of pass.old) }
        requires brings { Brings L.is_counted (L.amount load.old) (given_by step) }
        requires fit { LetsGo step (holds_of pass.old) → L.fit load.old }
        ensures called { CalledQuietly pass.old pass.new }
        ensures stepped { IsStepNow pass.old step result pass.new }
        ensures carries { L.carries load.new (holds_of pass.new) }
        ensures trades { Trades L.fit L.is_counted L.amount load.old pass.old load.new pass.new }
    {
        let Some(held) = self.lock.lock_now(&mut pass.token) else {
            return Ok(Now::Busy);
        };
        let mut answer = NOT_ASKED;
        let named = step_taken(
            &self.lock,
            &mut pass.token,
            pass.seat,
            &mut pass.share,
            load,
            held,
            step,
            &mut answer,
        );
        done(reply_of(pass.seat, step, named, answer))
    }

    /// A step of an idle seat. Returns its entry or a fault, and unparks the seat that the step names.
    #[inline(always)]
    pub fn enter<P: Parking, R: Wait + Clock>(
        &self,
        rt: &R,
        parking: &P,
        pass: &mut Pass,
        load: &mut L,
        step: Step,
    ) -> Result<Entry, Fault>
        requires can { CanCall self.now (P.seats parking.now) pass.old }
        requires idle { waits step ≡ false }
        requires carries { L.carries load.old (holds_of pass.old) }
        requires brings { Brings L.is_counted (L.amount load.old) (given_by step) }
        requires fit { LetsGo step (holds_of pass.old) → L.fit load.old }
        ensures called { Called pass.old pass.new }
        ensures entered { IsEntered (P.did parking.now) pass.old step result pass.new }
        ensures carries { L.carries load.new (holds_of pass.new) }
        ensures moves { Moves L.fit L.is_counted L.amount load.old (free_of pass.old) load.new
            (free_of pass.new) }
        ensures stays { was_refused result ≡ true → load.new ≡ load.old }
    {
        let mut answer = NOT_ASKED;
        match self.step_into(rt, pass, load, step, &mut answer) {
            Some(named) => {
                pass.unpark(parking, named);
                Ok(entry_at_once(pass.seat(), step))
            }
            None => entered(parking, pass, answer),
        }
    }

    // A signal, and an unpark of the seat that it names.
    fn signal_call<P: Parking, R: Wait + Clock>(
        &self,
        rt: &R,
        parking: &P,
        pass: &mut Pass,
        step: Step,
    ) -> Result<Answer, Fault>
        requires can { CanCall self.now (P.seats parking.now) pass.old }
        requires signals { is_signal step ≡ true }
        ensures called { Called pass.old pass.new }
        ensures stepped { IsStep pass.old step result pass.new }
        ensures unparked { IsUnparked (P.did parking.now) pass.new.lock (named_in result) pass.new.seen }
    {
        let told = self.signal_step(rt, pass, step);
        pass.unpark(parking, named_in(told));
        told
    }

    // A signal of an idle seat. Returns its entry or a fault.
    pub(crate) fn tell<P: Parking, R: Wait + Clock>(
        &self,
        rt: &R,
        parking: &P,
        pass: &mut Pass,
        step: Step,
    ) -> Result<Entry, Fault>
        requires can { CanCall self.now (P.seats parking.now) pass.old }
        requires signals { is_signal step ≡ true }
        ensures called { Called pass.old pass.new }
        ensures entered { IsEntered (P.did parking.now) pass.old step result pass.new }
    {
        match self.signal_call(rt, parking, pass, step) {
            Ok(Answer::Recorded(entry, _)) => Ok(entry),
            Ok(Answer::Sleep) => unreachable!(),
            Err(fault) => Err(fault),
        }
    }
}

// The entry of a step of an idle seat, or a fault. It unparks the seat that the step named.
#[cold]
#[inline(never)]
fn entered<P: Parking>(
    parking: &P,
    pass: &Pass,
    answer: Result<Answer, Fault>,
) -> Result<Entry, Fault>
    requires places { IfSome (named_in answer) (λ j. j < P.seats parking.now) }
    requires awake { answer ≢ Ok Sleep }
    ensures entry { result ≡ entry_in answer }
    ensures unparked { IsUnparked (P.did parking.now) pass.now.lock (named_in answer) pass.now.seen }
{
    pass.unpark(parking, named_in(answer));
    match answer {
        Ok(Answer::Recorded(entry, _)) => Ok(entry),
        Ok(Answer::Sleep) => unreachable!(),
        Err(fault) => Err(fault),
    }
}

// The seat that an answer names.
fn named_in(answer: Result<Answer, Fault>) -> Option<u16>
    ensures { result ≡ named_in answer }
{
    match answer {
        Ok(Answer::Recorded(_, named)) => named,
        Ok(Answer::Sleep) => None,
        Err(_) => None,
    }
}

fn done(answer: Result<Answer, Fault>) -> Result<Now, Fault>
    ensures { result ≡ now_of answer }
{
    match answer {
        Ok(answer) => Ok(Now::Done(answer)),
        Err(fault) => Err(fault),
    }
}
