//! The fast way of a call: one turn of the lock, by a function that can't wait.
//!
//! Nearly all calls find the object free, and are done at once by their one step. They take the object by one
//! exchange, step, and put it back. What they return is small: the seat that the step named. A step that
//! isn't done at once takes the general path in the same turn of the lock, and its answer is written to
//! memory. Only a call that finds the object taken calls the function that may wait.
ghost use Rattle.std.specs.Prelude.{◌≡◌};
ghost use Rattle.monitor.specs.Calling.{Called};
ghost use Rattle.monitor.specs.Load.{Brings, LetsGo, Trades, given_by, holds_of};
ghost use Rattle.monitor.specs.Stepping.{IsStep};
ghost use Rattle.monitor.specs.inner.AtOnce.{reply_of};
ghost use Rattle.word_lock.specs.Woken.{WasWoken};

use crate::load::Load;
use crate::monitor::Monitor;
use crate::pass::Pass;
use crate::section::step_taken;
use frame::hooks::Hooks;
use frame::machine::entry_at_once;
use history::fault::Fault;
use history::step::{Answer, Step};
use std::sync::Wait;

// What stands for the answer of a step that was not asked yet.
pub(crate) const NOT_ASKED: Result<Answer, Fault> = Ok(Answer::Sleep);

impl<H: Hooks + Drop, L: Load> Monitor<H, L> {
    /// The first step of a call, which waits for the object only if another call has its turn. It returns the
    /// seat that it named if it was done at once. Otherwise `answer` has its answer.
    #[inline(always)]
    pub(crate) fn step_into<R: Wait>(
        &self,
        rt: &R,
        pass: &mut Pass,
        load: &mut L,
        step: Step,
        answer: &mut Result<Answer, Fault>,
    ) -> Option<Option<u16>>
        requires is_of { pass.old.lock ≡ self.now }
        requires carries { L.carries load.old (holds_of pass.old) }
        requires brings { Brings L.is_counted (L.amount load.old) (given_by step) }
        requires fit { LetsGo step (holds_of pass.old) → L.fit load.old }
        ensures called { Called pass.old pass.new }
        ensures stepped { IsStep pass.old step (reply_of pass.old.seat step result answer.new) pass.new }
        ensures carries { L.carries load.new (holds_of pass.new) }
        ensures trades { Trades L.fit L.is_counted L.amount load.old pass.old load.new pass.new }
    {
        let Some(held) = self.lock.lock_now(&mut pass.token) else {
            *answer = self.step_with(rt, pass, load, step);
            return None;
        };
        let named = step_taken(
            &self.lock,
            &mut pass.token,
            pass.seat,
            &mut pass.share,
            load,
            held,
            step,
            answer,
        );
        self.wake(pass);
        named
    }

    // Wakes one who sleeps at the lock, for a pass that has put the object back.
    #[inline(always)]
    pub(crate) fn wake(&self, pass: &Pass)
        requires { pass.now.lock ≡ self.now }
        ensures { WasWoken pass.now.lock pass.now.seen }
    {
        self.lock.wake(&pass.token);
    }
}

/// What a step answered, by what it returned if it was done at once.
pub(crate) fn reply_of(
    seat: u16,
    step: Step,
    named: Option<Option<u16>>,
    answer: Result<Answer, Fault>,
) -> Result<Answer, Fault>
    ensures { result ≡ reply_of seat step named answer }
{
    match named {
        Some(named) => Ok(Answer::Recorded(entry_at_once(seat, step), named)),
        None => answer,
    }
}
