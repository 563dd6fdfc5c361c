//! One step of a seat.

ghost use Rattle.std.specs.Prelude.{◌≡◌, ◌≢◌, ◌<◌, ◌^◌, ◌++◌, IsOk, IfOk, OnErr, Some};
ghost use Rattle.acquire_queue.specs.Line.{IsTidy};
ghost use Rattle.frame.specs.Core.{unmarked_at, IsStepped};
ghost use Rattle.frame.specs.inner.Core.{ready_of};
ghost use Rattle.frame.specs.Tidied.{WasTidied};

use super::Core;
use crate::hooks::Hooks;
use crate::seat::untell;
use acquire_queue::queue::Queue;
use history::fault::Fault;
use history::step::{Answer, Step};

impl<H: Hooks + Drop> Core<H> {
    /// If the seat is in the queue, frees the cancelled nodes right before it.
    #[inline(always)]
    fn tidy_before(&mut self, seat: u16)
        ensures same { self.new ≡ self.old }
        ensures tidied { WasTidied seat }
    {
        tidy_before(&mut self.queue, seat);
    }

    /// Clears the mark of a seat that can't go now.
    #[inline(always)]
    fn untell(&mut self, seat: u16)
        requires seat { seat < self.old.header.seats }
        requires waits { ready_of self.old ≢ Some seat }
        ensures { self.new ≡ unmarked_at seat self.old }
    {
        untell(&mut self.seats, seat);
    }

    /// Clears the mark of a waiter that keeps waiting, and frees the cancelled nodes right before it.
    #[inline(always)]
    pub(super) fn sleep(&mut self, seat: u16)
        requires seat { seat < self.old.header.seats }
        requires waits { ready_of self.old ≢ Some seat }
        ensures unmarked { self.new ≡ unmarked_at seat self.old }
        ensures tidied { WasTidied seat }
    {
        self.tidy_before(seat);
        self.untell(seat);
    }

    /// Performs one step of a seat.
    ///
    /// - `Recorded`: the one entry that the step makes, and the waiter that it names. The first five faults
    ///   are recorded in this way.
    /// - `Sleep`: nothing is recorded, and the seat keeps waiting. Its mark is cleared, and the cancelled nodes
    ///   right before it in the queue are freed.
    /// - `WrongMode`, `NoSuchCondition`, `BadAmount`, `OutOfPhase`: the seat can't make this step now.
    /// - `HistoryFull`: the entry, with what it would owe, doesn't fit in the history.
    /// - `OutOfMemory`: the history's memory couldn't grow. It is returned only if places are lacking for the
    ///   entry and for what it would owe.
    ///
    /// The history's places grow to the pages that its entries take, with all that is owed, and never shrink.
    /// After a fault nothing has changed. After a sleep only the mark of the seat has. What ends a wait,
    /// releases a hold or moves a waiter always finds room and memory.
    ///
    /// The waiter that an entry names is marked, and so is a seat that lapses. A mark is cleared when its
    /// seat leaves the queue, or when its step returns `Sleep`. [`is_told`](Core::is_told) returns it.
    #[inline(always)]
    pub fn step(&mut self, seat: u16, step: Step) -> Result<Answer, Fault>
        requires { seat < self.old.header.seats }
        ensures { IsStepped self.old seat step result self.new }
    {
        match self.step_alone(seat, step) {
            Some(entry) => Ok(Answer::Recorded(entry, None)),
            None => self.step_by_kind(seat, step),
        }
    }

    /// As [`step`](Core::step), for a step that is not done at once.
    #[inline(never)]
    pub fn step_by_kind(&mut self, seat: u16, step: Step) -> Result<Answer, Fault>
        requires { seat < self.old.header.seats }
        ensures { IsStepped self.old seat step result self.new }
    {
        match self.step_of_kind(seat, step) {
            Some(answer) => Ok(answer),
            None => self.step_in_full(seat, step),
        }
    }

    /// As `step`, on the general path: decide, record, name.
    #[inline(never)]
    pub(super) fn step_in_full(&mut self, seat: u16, step: Step) -> Result<Answer, Fault>
        requires { seat < self.old.header.seats }
        ensures { IsStepped self.old seat step result self.new }
    {
        let _header = &self.header;
        match self.decide(seat, step) {
            Err(fault) => Err(fault),
            Ok(None) => {
                self.sleep(seat);
                Ok(Answer::Sleep)
            }
            Ok(Some(entry)) => self.record(entry),
        }
    }
}

// Frees the cancelled nodes right before a seat's. It searches for the seat only if there are cancelled nodes.
#[tactic(auto, using(crate::specs::Tidied::tidied))]
#[inline(always)]
fn tidy_before(queue: &mut Queue, seat: u16)
    requires few { queue.old.seats < 2 ^ 15 }
    ensures tidied { WasTidied seat }
    ensures tidy { IsTidy seat queue.new.nodes }
    ensures line { queue.new.arrivals ≡ queue.old.arrivals }
    ensures joined { queue.new.joined ≡ queue.old.joined }
    ensures seats { queue.new.seats ≡ queue.old.seats }
{
    if queue.live_len() < queue.standing() {
        queue.tidy_before(seat);
    }
}
