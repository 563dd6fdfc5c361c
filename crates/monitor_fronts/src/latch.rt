//! A count that goes down to 0, and threads that wait for that.
ghost use Rattle.std.specs.Prelude.{◌≡◌, IfOk, Ok, false, true};
ghost use Rattle.history.specs.Object.{is_latch};
ghost use Rattle.history.specs.declared.entry.Mode.TheVariants.{S};
ghost use Rattle.history.specs.declared.step.Step.TheVariants.{Give};
ghost use Rattle.monitor.specs.Calling.{CanCall, Called};
ghost use Rattle.monitor.specs.declared.how.How.TheVariants.{Interruptible, Timed};
ghost use Rattle.monitor_fronts.specs.CountingDown.{CountsDown, FallsBy, IsOpen, WasShut};
ghost use Rattle.monitor_fronts.specs.FrontCalls.{Acquires, LastsUntil, Steps};
ghost use Rattle.monitor_fronts.specs.Holding.{gained, with_yes};
ghost use Rattle.monitor_fronts.specs.Returned.{ReturnedAs, done_of, whether_of};

use crate::front::Front;
use crate::returned::{done, whether};
use crate::until::milliseconds_left;
use counting::latch::LatchHooks;
use history::entry::Mode;
use history::fault::Fault;
use history::step::Step;
use monitor::{How, Pass};
use permit::Parking;
use std::sync::Wait;
use std::time::Clock;

/// `java.util.concurrent.CountDownLatch` of Java SE 8 over a monitor.
///
/// The count never rises. `count_at point` is the count in a history, and `IsOpen pass` says that it is 0 in the history
/// that the pass has seen.
pub type Latch<'m> = Front<'m, LatchHooks>;

impl<'m> Latch<'m> {
    /// `CountDownLatch.await()`: waits until the count is 0. `Err(Interrupted)` where Java throws
    /// `InterruptedException`. After an `Ok` the count is 0 for good, since it never rises.
    pub fn await_zero<P: Parking, R: Wait + Clock>(
        &self,
        rt: &R,
        parking: &P,
        pass: &mut Pass,
    ) -> Result<(), Fault>
        requires can { CanCall self.now.monitor.now (P.seats parking.now) pass.old }
        ensures called { Called pass.old pass.new }
        ensures acquired { ReturnedAs done_of
            (Acquires self.now.when_full (P.did parking.now) S 1 Interruptible pass.old pass.new) result }
        ensures open { IfOk result (λ _. IsOpen pass.new) }
        ensures falls { FallsBy 0 pass.old pass.new }
    {
        done(self.acquire_as(rt, parking, pass, Mode::S, 1, How::Interruptible))
    }

    /// `CountDownLatch.await(timeout, unit)`: whether the count was 0 within `ms` milliseconds. `Ok(false)` says that
    /// it was above 0 at a place of the history after all that the pass had seen.
    pub fn await_zero_for<P: Parking, R: Wait + Clock>(
        &self,
        rt: &R,
        parking: &P,
        pass: &mut Pass,
        ms: u32,
    ) -> Result<bool, Fault>
        requires can { CanCall self.now.monitor.now (P.seats parking.now) pass.old }
        ensures called { Called pass.old pass.new }
        ensures acquired { ReturnedAs whether_of
            (Acquires self.now.when_full (P.did parking.now) S 1 (Timed ms) pass.old pass.new) result }
        ensures open { result ≡ Ok true → IsOpen pass.new }
        ensures shut { is_latch self.now.monitor.now.header.object ≡ true → result ≡ Ok false
            → WasShut pass.old pass.new }
        ensures falls { FallsBy 0 pass.old pass.new }
    {
        whether(self.acquire_as(rt, parking, pass, Mode::S, 1, How::Timed(ms)))
    }

    /// [`await_zero_for`](Latch::await_zero_for) until a moment on the clock of the parking, which
    /// `parking.now(rt)` shows.
    pub fn await_zero_until<P: Parking, R: Wait + Clock>(
        &self,
        rt: &R,
        parking: &P,
        pass: &mut Pass,
        moment: u64,
    ) -> Result<bool, Fault>
        requires can { CanCall self.now.monitor.now (P.seats parking.now) pass.old }
        ensures called { Called pass.old pass.new }
        ensures acquired { LastsUntil (P.did parking.now) moment (λ how. ReturnedAs whether_of
            (Acquires self.now.when_full (P.did parking.now) S 1 how pass.old pass.new) result) }
        ensures open { result ≡ Ok true → IsOpen pass.new }
        ensures shut { is_latch self.now.monitor.now.header.object ≡ true → result ≡ Ok false
            → WasShut pass.old pass.new }
        ensures falls { FallsBy 0 pass.old pass.new }
    {
        let ms = milliseconds_left(rt, parking, moment);
        self.await_zero_for(rt, parking, pass, ms)
    }

    /// `CountDownLatch.countDown()`. At 0 it changes nothing.
    pub fn count_down<P: Parking, R: Wait + Clock>(
        &self,
        rt: &R,
        parking: &P,
        pass: &mut Pass,
    ) -> Result<(), Fault>
        requires can { CanCall self.now.monitor.now (P.seats parking.now) pass.old }
        ensures called { Called pass.old pass.new }
        ensures entered { ReturnedAs done_of
            (Steps self.now.when_full (P.did parking.now) (Give S 1) pass.old pass.new) result }
        ensures counts { CountsDown pass.old (with_yes result) pass.new }
        ensures falls { FallsBy (gained (with_yes result)) pass.old pass.new }
    {
        done(self.enter(rt, parking, pass, Step::Give(Mode::S, 1)))
    }
}
