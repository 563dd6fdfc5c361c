//! The calls that may wait, turn by turn.
//!
//! A call is made of turns. Each is one critical section, and between them the seat may have to park. Here
//! are the turns alone: the caller reads the clock, takes interrupts, parks and unparks. `acquire` and
//! `await_on` do so by a [`Parking`](permit::Parking). A program that has none, such as a static library,
//! makes the same calls by its own means.
//!
//! A call begins by [`begin`](Monitor::begin). Each turn returns the seat that its step named: unpark it. It
//! also returns whether the call has ended or waits. A call that waits goes on by [`go_on`](Monitor::go_on),
//! once its seat was parked as [`Waiting`] says, or at once.
ghost use Rattle.std.specs.Prelude.{◌≡◌, ◌≢◌, IfNone, IfSome, IsOk};
ghost use Rattle.history.specs.declared.step.Answer.TheVariants.{Sleep};
ghost use Rattle.monitor.specs.Calling.{Called, CalledQuietly};
ghost use Rattle.monitor.specs.Load.{Brings, Trades, holds_of};
ghost use Rattle.monitor.specs.Machine.{
  AsksAwait,
  IsBegun,
  IsGoneOn,
  LeavesWaiting,
  at_stage,
  begins_wait,
  begun,
  first_turn,
  is_interrupt,
  later_turn,
  limits_at,
  next_behind,
  stage_for,
  step_by,
  step_of_waiting,
  step_within,
};
ghost use Rattle.monitor.specs.Stepping.{answer_of};
ghost use Rattle.monitor.specs.Waits.{Waits, is_lapse};

use crate::acquire::first_step;
use crate::await_on::first_stage;
use crate::how::{How, limits_from};
use crate::interrupts::tells_interrupt;
use crate::load::Load;
use crate::monitor::Monitor;
use crate::pass::Pass;
use crate::step::Now;
use crate::waiting::{Limits, Stage, stage_asleep};
use frame::hooks::Hooks;
use history::entry::{Entry, Mode, Word};
use history::fault::Fault;
use history::step::{Answer, Step};
use permit::Woke;
use std::sync::Wait;

/// What a call that may wait asks for.
#[derive(Clone, Copy, Debug, PartialEq, Eq)]
pub enum Request {
    /// An amount in a mode.
    Acquire(Mode, u32),
    /// A signal to this condition.
    AwaitOn(u8),
}

/// A call that waits, between two of its turns.
#[derive(Clone, Copy)]
pub struct Waiting {
    pub(crate) limits: Limits,
    pub(crate) stage: Stage,
    pub(crate) interrupted: bool,
}

/// What comes of a turn.
#[derive(Clone, Copy)]
pub enum Next {
    /// The call ended with this reply. With `again`, an interrupt was taken that the reply doesn't report,
    /// and must be set again.
    Ends {
        reply: Result<Entry, Fault>,
        again: bool,
    },
    /// The call waits.
    Waits(Waiting),
}

/// One turn of a call.
#[derive(Clone, Copy)]
pub struct Turn {
    /// The seat that its step named: it must be unparked.
    pub named: Option<u16>,
    pub next: Next,
}

impl Request {
    pub(crate) fn step(self, how: How, interrupted: bool) -> Step
        ensures { result ≡ step_by self how interrupted }
    {
        match self {
            Request::Acquire(mode, n) => {
                if interrupted {
                    Step::EntryInterrupt(mode, n)
                } else {
                    first_step(how, mode, n)
                }
            }
            Request::AwaitOn(condition) => {
                if interrupted {
                    Step::EntryInterrupt(Mode::X, 1)
                } else {
                    Step::Await(condition)
                }
            }
        }
    }

    fn begins_wait(self, word: Word) -> bool
        ensures { result ≡ begins_wait self word }
    {
        match (self, word) {
            (Request::Acquire(_, _), Word::Queued) => true,
            (Request::AwaitOn(_), Word::Await) => true,
            _ => false,
        }
    }

    fn stage(self, how: How) -> Stage
        ensures { result ≡ stage_for self how }
    {
        match self {
            Request::Acquire(_, _) => Stage::Parks,
            Request::AwaitOn(_) => first_stage(how),
        }
    }
}

impl Waiting {
    fn begin(request: Request, how: How, moment: u64) -> Waiting
        ensures { result ≡ begun request how moment }
    {
        Waiting {
            limits: limits_from(moment, how),
            stage: request.stage(how),
            interrupted: false,
        }
    }

    /// How its seat parks before the next turn. None if the next turn is due at once.
    pub fn limits(&self) -> Option<Limits>
        ensures { result ≡ limits_at self.now.stage self.now.limits }
    {
        match self.stage {
            Stage::Expires => None,
            Stage::Parks => Some(self.limits),
            Stage::Looks => None,
            Stage::GivenUp => Some(Limits {
                until: None,
                interruptible: false,
            }),
        }
    }

    fn step(self, woke: Woke) -> Step
        ensures { result ≡ step_of_waiting self woke }
    {
        match self.stage {
            Stage::Expires => Step::Expire,
            Stage::Parks => step_within(self.limits, woke),
            Stage::Looks => Step::Look,
            Stage::GivenUp => Step::Look,
        }
    }

    fn at_stage(self, step: Step, stage: Stage) -> Waiting
        ensures { result ≡ at_stage self step stage }
    {
        Waiting {
            limits: self.limits,
            stage,
            interrupted: self.interrupted || is_interrupt(step),
        }
    }

    #[inline(always)]
    fn turn(self, step: Step, answer: Result<Answer, Fault>) -> Turn
        requires { IsOk answer }
        ensures { result ≡ later_turn self step answer }
    {
        match answer {
            Ok(Answer::Recorded(entry, named)) => Turn {
                named,
                next: self.next(step, entry),
            },
            Ok(Answer::Sleep) => Turn {
                named: None,
                next: Next::Waits(self.at_stage(step, stage_asleep(self.stage, step))),
            },
            Err(_) => unreachable!(),
        }
    }

    // After its lapse it waits on. Any other entry ends the call.
    fn next(self, step: Step, entry: Entry) -> Next
        ensures { result ≡ next_behind (is_lapse entry.word) self step entry }
    {
        match entry.word {
            Word::Lapse => Next::Waits(self.at_stage(step, Stage::Looks)),
            _ => {
                let reply = Ok(entry);
                let taken = self.interrupted || is_interrupt(step);
                let again = taken && !tells_interrupt(reply);
                Next::Ends { reply, again }
            }
        }
    }
}

// The step that a park leads to, if these limits allow it.
fn step_within(limits: Limits, woke: Woke) -> Step
    ensures { result ≡ step_within limits woke }
{
    match woke {
        Woke::Permit => Step::Look,
        Woke::Deadline => {
            if limits.until.is_some() {
                Step::Expire
            } else {
                Step::Look
            }
        }
        Woke::Interrupted => {
            if limits.interruptible {
                Step::Interrupt
            } else {
                Step::Look
            }
        }
    }
}

fn is_interrupt(step: Step) -> bool
    ensures { result ≡ is_interrupt step }
{
    match step {
        Step::Interrupt => true,
        _ => false,
    }
}

// What a step returned, unless the object was busy.
fn answer_of(reply: Result<Now, Fault>) -> Option<Result<Answer, Fault>>
    ensures { result ≡ answer_of reply }
{
    match reply {
        Ok(Now::Done(answer)) => Some(Ok(answer)),
        Ok(Now::Busy) => None,
        Err(fault) => Some(Err(fault)),
    }
}

#[inline(always)]
pub(crate) fn first_turn(
    request: Request,
    how: How,
    moment: u64,
    interrupted: bool,
    answer: Result<Answer, Fault>,
) -> Turn
    requires { answer ≢ Ok Sleep }
    ensures { result ≡ first_turn request how moment interrupted answer }
{
    match answer {
        Ok(Answer::Recorded(entry, named)) => {
            let next = if request.begins_wait(entry.word) {
                Next::Waits(Waiting::begin(request, how, moment))
            } else {
                let reply = Ok(entry);
                let again = false;
                Next::Ends { reply, again }
            };
            Turn { named, next }
        }
        Ok(Answer::Sleep) => unreachable!(),
        Err(fault) => {
            let named = None;
            let reply = Err(fault);
            let again = interrupted;
            let next = Next::Ends { reply, again };
            Turn { named, next }
        }
    }
}

/// A caller that parks has three duties after each turn, in this order: it unparks the seat that was named,
/// by [`Pass::unpark`]; if the call has ended with `again`, it sets the interrupt of its own seat; if the
/// call waits, it parks its own seat as [`Waiting::limits`] says, if it says so, and goes on.
impl<H: Hooks + Drop, L: Load> Monitor<H, L> {
    /// The first turn of a call. `interrupted` says that the call heeds interrupts and that one was pending:
    /// it was taken. `moment` is what the clock shows. A timed call counts from it, and other calls ignore
    /// it.
    #[inline(always)]
    pub fn begin<R: Wait>(
        &self,
        rt: &R,
        pass: &mut Pass,
        load: &mut L,
        request: Request,
        how: How,
        moment: u64,
        interrupted: bool,
    ) -> Turn
        requires is_of { pass.old.lock ≡ self.now }
        requires carries { L.carries load.old (holds_of pass.old) }
        requires brings { Brings L.is_counted (L.amount load.old) 0 }
        requires fit { AsksAwait request → L.fit load.old }
        ensures called { Called pass.old pass.new }
        ensures begun { IsBegun pass.old request how moment interrupted result pass.new }
        ensures waits { LeavesWaiting result.next pass.new }
        ensures carries { L.carries load.new (holds_of pass.new) }
        ensures trades { Trades L.fit L.is_counted L.amount load.old pass.old load.new pass.new }
    {
        let step = request.step(how, interrupted);
        let answer = self.step_with(rt, pass, load, step);
        first_turn(request, how, moment, interrupted, answer)
    }

    /// The first turn, unless another call has its turn: then None, and nothing has changed. It waits for
    /// nobody and wakes nobody who waits for the object, as a static library must.
    pub fn begin_quietly(
        &self,
        pass: &mut Pass,
        load: &mut L,
        request: Request,
        how: How,
        moment: u64,
        interrupted: bool,
    ) -> Option<Turn>
        requires is_of { pass.old.lock ≡ self.now }
        requires carries { L.carries load.old (holds_of pass.old) }
        requires brings { Brings L.is_counted (L.amount load.old) 0 }
        requires fit { AsksAwait request → L.fit load.old }
        ensures called { CalledQuietly pass.old pass.new }
        ensures busy { IfNone result (pass.new ≡ pass.old) }
        ensures begun { IfSome result (λ turn.
            IsBegun pass.old request how moment interrupted turn pass.new) }
        ensures waits { IfSome result (λ turn. LeavesWaiting turn.next pass.new) }
        ensures carries { L.carries load.new (holds_of pass.new) }
        ensures trades { Trades L.fit L.is_counted L.amount load.old pass.old load.new pass.new }
    {
        let step = request.step(how, interrupted);
        let Some(answer) = answer_of(self.step_quietly(pass, load, step)) else {
            return None;
        };
        Some(first_turn(request, how, moment, interrupted, answer))
    }

    /// The next turn of a call that waits. `woke` says how its park ended; it doesn't matter if none was due.
    pub fn go_on<R: Wait>(
        &self,
        rt: &R,
        pass: &mut Pass,
        load: &mut L,
        waiting: Waiting,
        woke: Woke,
    ) -> Turn
        requires is_of { pass.old.lock ≡ self.now }
        requires waits { Waits pass.old.seen pass.old.seat }
        requires carries { L.carries load.old (holds_of pass.old) }
        requires brings { Brings L.is_counted (L.amount load.old) 0 }
        ensures called { Called pass.old pass.new }
        ensures gone_on { IsGoneOn pass.old waiting woke result pass.new }
        ensures waits { LeavesWaiting result.next pass.new }
        ensures carries { L.carries load.new (holds_of pass.new) }
        ensures trades { Trades L.fit L.is_counted L.amount load.old pass.old load.new pass.new }
    {
        pass.is_true();
        let step = waiting.step(woke);
        let answer = self.step_with(rt, pass, load, step);
        waiting.turn(step, answer)
    }

    /// The next turn, unless another call has its turn: then None, and nothing has changed.
    pub fn go_on_quietly(
        &self,
        pass: &mut Pass,
        load: &mut L,
        waiting: Waiting,
        woke: Woke,
    ) -> Option<Turn>
        requires is_of { pass.old.lock ≡ self.now }
        requires waits { Waits pass.old.seen pass.old.seat }
        requires carries { L.carries load.old (holds_of pass.old) }
        requires brings { Brings L.is_counted (L.amount load.old) 0 }
        ensures called { CalledQuietly pass.old pass.new }
        ensures busy { IfNone result (pass.new ≡ pass.old) }
        ensures gone_on { IfSome result (λ turn. IsGoneOn pass.old waiting woke turn pass.new) }
        ensures waits { IfSome result (λ turn. LeavesWaiting turn.next pass.new) }
        ensures carries { L.carries load.new (holds_of pass.new) }
        ensures trades { Trades L.fit L.is_counted L.amount load.old pass.old load.new pass.new }
    {
        pass.is_true();
        let step = waiting.step(woke);
        let Some(answer) = answer_of(self.step_quietly(pass, load, step)) else {
            return None;
        };
        Some(waiting.turn(step, answer))
    }
}
