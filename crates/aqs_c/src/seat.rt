//! A seat: a pass with its monitor, and the call in which it waits.
ghost use Rattle.std.specs.Prelude.{◌≡◌, Some, None, IfNone, IfSome, IfOk};
ghost use Rattle.std.specs.Arc.{arc_value};
ghost use Rattle.monitor.specs.Waits.{Waits};
ghost use Rattle.aqs_c.specs.Calls.{IsCallBegun, IsCallGoneOn, IsSeatBegun, IsSeatEntry, IsSeatGoneOn, IsSeatLook, IsSeatStep, IsSeatStepAtOnce, IsSeatTrim, IsStepped, contention_seen, count_seen, permits_seen, text_seen};
ghost use Rattle.aqs_c.specs.Codes.{IsCodeOf};
ghost use Rattle.aqs_c.specs.Seated.{seated, waiting_in};
ghost use Rattle.aqs_c.specs.declared.steps.AqsStep.{AqsStep};
ghost use Rattle.aqs_c.specs.Standing.{StandsBy};

use crate::answers::{
    AqsAnswer, AqsContention, BUSY, IN_CALL, IN_NO_CALL, NO_CODE, NO_ENTRY, NOT_DONE, answer_of,
    contention_answer, done_number, entry_answer, nothing, turn_answer,
};
use crate::calls::{AqsCall, call_of, woke_of};
use crate::steps::{AqsStep, step_of};
use crate::text::text_of;
use any_object::AnyHooks;
use history::entries::History;
use history::entry::Mode;
use history::fault::Fault;
use history::step::Step;
use monitor::{Empty, Monitor, Next, Pass, Waiting};
use std::alloc::Global;
use std::marker::Model;
use std::sync::Arc;

/// The right of one seat, with its share of the monitor: the monitor lasts as long as the last of its seats.
#[derive(Drop)]
pub(crate) struct Seat {
    monitor: Arc<Monitor<AnyHooks>, Global>,
    pass: Pass,
    waiting: Option<Waiting>,
}

impl Model for Seat {
    ghost use Rattle.aqs_c.specs.Seated.{Seated};
    ghost use Rattle.std.specs.Arc.{arc_value};
    ghost use Rattle.aqs_c.specs.Standing.{IsSeat};

    ghost Value = { Seated };

    ghost view = { λ s. record { pass = s.pass; waiting = s.waiting } };

    ghost invariant = { λ s. IsSeat (arc_value s.monitor) s.pass s.waiting };
}

impl Seat {
    pub(crate) fn of(monitor: Arc<Monitor<AnyHooks>, Global>, pass: Pass) -> Seat
        requires { pass.lock ≡ arc_value monitor }
        ensures { result ≡ seated pass None }
    {
        let waiting = None;
        Seat {
            monitor,
            pass,
            waiting,
        }
    }

    /// One step, if the seat is in no call.
    pub(crate) fn step(&mut self, step: AqsStep) -> AqsAnswer
        ensures { IsSeatStep self.old step result self.new }
    {
        match self.waiting {
            Some(_) => nothing(IN_CALL, 0),
            None => step_idle(&self.monitor, &mut self.pass, step),
        }
    }

    /// One step, if the seat is in no call and the step is done at once.
    pub(crate) fn step_at_once(&mut self, step: AqsStep) -> u32
        ensures { IsSeatStepAtOnce self.old step result self.new }
    {
        self.pass.is_true();
        match self.waiting {
            Some(_) => NOT_DONE,
            None => step_idle_at_once(&self.monitor, &mut self.pass, step),
        }
    }

    /// The first turn of a call, if the seat is in no other.
    pub(crate) fn begin(&mut self, call: AqsCall) -> AqsAnswer
        ensures { IsSeatBegun self.old call result self.new }
    {
        match self.waiting {
            Some(_) => nothing(IN_CALL, 0),
            None => begin_idle(&self.monitor, &mut self.pass, &mut self.waiting, call),
        }
    }

    /// The next turn of the call in which the seat waits.
    pub(crate) fn go_on(&mut self, woke: u8) -> AqsAnswer
        ensures { IsSeatGoneOn self.old woke result self.new }
    {
        match self.waiting {
            None => nothing(IN_NO_CALL, 0),
            Some(was) => go_on_waiting(&self.monitor, &mut self.pass, &mut self.waiting, was, woke),
        }
    }

    /// The entry of a number since the last trim.
    pub(crate) fn entry(&mut self, number: u64) -> AqsAnswer
        ensures { IsSeatEntry self.old number result self.new }
    {
        self.pass.is_true();
        let found = self
            .monitor
            .read_quietly(&mut self.pass, |history: &History| history.get(number));
        match found {
            None => nothing(BUSY, 0),
            Some(None) => nothing(NO_ENTRY, 0),
            Some(Some(entry)) => entry_answer(entry, None, false),
        }
    }

    /// The text of the history since the last trim, unless another call has the object.
    pub(crate) fn text(&mut self, alloc: Global) -> Option<Result<Vec<u8>, Fault>>
        ensures busy { IfNone result (self.new ≡ self.old) }
        ensures looked { IfSome result (λ _. IsSeatLook self.old self.new) }
        ensures text { IfSome result (λ found. IfOk found (λ text. text.items ≡ text_seen self.new.pass)) }
    {
        self.pass.is_true();
        self.monitor.read_quietly(&mut self.pass, |history: &History| text_of(alloc, history))
    }

    /// Folds all entries, unless another call has the object.
    pub(crate) fn trim(&mut self) -> Option<Result<u64, Fault>>
        ensures busy { IfNone result (self.new ≡ self.old) }
        ensures trimmed { IfSome result (λ folded. IsSeatTrim self.old folded self.new) }
    {
        self.pass.is_true();
        self.monitor.trim_quietly(&mut self.pass)
    }

    /// Returns the free permits of a semaphore, unless another call has its turn.
    pub(crate) fn available(&mut self) -> Option<i64>
        ensures busy { IfNone result (self.new ≡ self.old) }
        ensures looked { IfSome result (λ _. IsSeatLook self.old self.new) }
        ensures value { IfSome result (λ permits. permits ≡ permits_seen self.new.pass) }
    {
        self.pass.is_true();
        self.monitor.available_quietly(&mut self.pass)
    }

    /// Returns the count of a latch, unless another call has its turn.
    pub(crate) fn count(&mut self) -> Option<u32>
        ensures busy { IfNone result (self.new ≡ self.old) }
        ensures looked { IfSome result (λ _. IsSeatLook self.old self.new) }
        ensures value { IfSome result (λ left. left ≡ count_seen self.new.pass) }
    {
        self.pass.is_true();
        self.monitor.count_quietly(&mut self.pass)
    }

    /// Returns whether the object is owned, and how many wait for it, unless another call has its turn.
    pub(crate) fn contention(&mut self) -> Option<AqsContention>
        ensures busy { IfNone result (self.new ≡ self.old) }
        ensures looked { IfSome result (λ _. IsSeatLook self.old self.new) }
        ensures value { IfSome result (λ found. found ≡ contention_seen self.new.pass) }
    {
        self.pass.is_true();
        match self.monitor.contention_quietly(&mut self.pass) {
            None => None,
            Some(found) => Some(contention_answer(found)),
        }
    }
}

// One step of a seat that is in no call.
fn step_idle(monitor: &Monitor<AnyHooks>, pass: &mut Pass, step: AqsStep) -> AqsAnswer
    requires of { pass.old.lock ≡ monitor.now }
    ensures of { pass.new.lock ≡ monitor.now }
    ensures stepped { IsStepped (seated pass.old None) step result (seated pass.new None) }
{
    let Some(step) = step_of(step) else {
        return nothing(NO_CODE, 0);
    };
    answer_of(monitor.step_quietly(pass, &mut Empty {}, step))
}

// An acquire or a release of such a seat, if it is done at once. Each has a copy of the code that is made for it.
fn step_idle_at_once(monitor: &Monitor<AnyHooks>, pass: &mut Pass, step: AqsStep) -> u32
    requires of { pass.old.lock ≡ monitor.now }
    ensures of { pass.new.lock ≡ monitor.now }
    ensures stepped { IsSeatStepAtOnce (seated pass.old None) step result (seated pass.new None) }
{
    pass.is_true();
    match (step.code, step.mode) {
        (0, 0) => done_at_once(monitor, pass, Step::Acquire(Mode::X, step.n)),
        (0, 1) => done_at_once(monitor, pass, Step::Acquire(Mode::S, step.n)),
        (4, 0) => done_at_once(monitor, pass, Step::Give(Mode::X, step.n)),
        (4, 1) => done_at_once(monitor, pass, Step::Give(Mode::S, step.n)),
        _ => NOT_DONE,
    }
}

#[inline(always)]
fn done_at_once(monitor: &Monitor<AnyHooks>, pass: &mut Pass, step: Step) -> u32
    requires of { pass.old.lock ≡ monitor.now }
    ensures of { pass.new.lock ≡ monitor.now }
    ensures stepped { (code : AqsStep) → IsCodeOf step code
        → IsSeatStepAtOnce (seated pass.old None) code result (seated pass.new None) }
{
    done_number(monitor.step_at_once_quietly(pass, step))
}

// The first turn of a call of a seat that is in no other.
fn begin_idle(
    monitor: &Monitor<AnyHooks>,
    pass: &mut Pass,
    waiting: &mut Option<Waiting>,
    call: AqsCall,
) -> AqsAnswer
    requires of { pass.old.lock ≡ monitor.now }
    requires idle { waiting.old ≡ None }
    ensures of { pass.new.lock ≡ monitor.now }
    ensures begun { IsCallBegun (seated pass.old None) call result (seated pass.new waiting.new) }
    ensures stands { StandsBy waiting.new pass.new }
{
    let Some(asked) = call_of(call) else {
        return nothing(NO_CODE, 0);
    };
    let turn = monitor.begin_quietly(
        pass,
        &mut Empty {},
        asked.request,
        asked.how,
        call.moment,
        asked.interrupted,
    );
    let Some(turn) = turn else {
        return nothing(BUSY, 0);
    };
    begin_wait(waiting, turn.next);
    turn_answer(turn)
}

// Keeps a call that waits. Most calls end at once, and then nothing is written.
fn begin_wait(waiting: &mut Option<Waiting>, next: Next)
    requires { waiting.old ≡ None }
    ensures { waiting.new ≡ waiting_in next }
{
    if let Next::Waits(call) = next {
        *waiting = Some(call);
    }
}

// The next turn of a call in which a seat waits.
fn go_on_waiting(
    monitor: &Monitor<AnyHooks>,
    pass: &mut Pass,
    waiting: &mut Option<Waiting>,
    was: Waiting,
    woke: u8,
) -> AqsAnswer
    requires of { pass.old.lock ≡ monitor.now }
    requires was { waiting.old ≡ Some was }
    requires stands { Waits pass.old.seen pass.old.seat }
    ensures of { pass.new.lock ≡ monitor.now }
    ensures gone_on { IsCallGoneOn was (seated pass.old (Some was)) woke result
        (seated pass.new waiting.new) }
    ensures stands { StandsBy waiting.new pass.new }
{
    let Some(woke) = woke_of(woke) else {
        return nothing(NO_CODE, 0);
    };
    let Some(turn) = monitor.go_on_quietly(pass, &mut Empty {}, was, woke) else {
        return nothing(BUSY, 0);
    };
    *waiting = waiting_in(turn.next);
    turn_answer(turn)
}

fn waiting_in(next: Next) -> Option<Waiting>
    ensures { result ≡ waiting_in next }
{
    match next {
        Next::Ends { reply: _, again: _ } => None,
        Next::Waits(waiting) => Some(waiting),
    }
}

/// A seat may go to another thread.
pub(crate) fn sent<T: Send>(value: T) -> T
    ensures { result ≡ value }
{
    value
}
