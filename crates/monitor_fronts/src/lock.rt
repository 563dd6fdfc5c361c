//! A lock whose owner may acquire it again.
ghost use Rattle.std.specs.Prelude.{◌≡◌, ◌+◌, ◌<◌, true, IsOk};
ghost use Rattle.history.specs.Object.{is_lock};
ghost use Rattle.history.specs.Phase.{waits};
ghost use Rattle.history.specs.declared.entry.Mode.TheVariants.{X};
ghost use Rattle.history.specs.declared.step.Step.TheVariants.{Try, Give, Signal, SignalAll};
ghost use Rattle.monitor.specs.Calling.{CanCall, Called};
ghost use Rattle.monitor.specs.Stepping.{IsEntered};
ghost use Rattle.monitor.specs.declared.how.How.TheVariants.{Plain, Interruptible, Timed};
ghost use Rattle.monitor_fronts.specs.Holding.{Gains, holds, with_yes};
ghost use Rattle.monitor_fronts.specs.FrontCalls.{Acquires, Awaits, LastsUntil, Steps};
ghost use Rattle.monitor_fronts.specs.Returned.{ReturnedAs, done_of, whether_of};

use crate::front::Front;
use crate::returned::{done, whether};
use crate::until::milliseconds_left;
use history::entry::Mode;
use history::fault::Fault;
use history::step::Step;
use monitor::{How, Pass};
use permit::Parking;
use reentrant::lock::LockHooks;
use std::sync::Wait;
use std::time::Clock;

/// `java.util.concurrent.locks.ReentrantLock` of Java SE 8 over a monitor.
pub type ReentrantLock<'m> = Front<'m, LockHooks>;

impl<'m> ReentrantLock<'m> {
    /// `ReentrantLock.lock()`: waits until it has the lock. An interrupt doesn't end the wait.
    /// `Err(TooManyHolds)` where Java throws an `Error`.
    pub fn lock<P: Parking, R: Wait + Clock>(
        &self,
        rt: &R,
        parking: &P,
        pass: &mut Pass,
    ) -> Result<(), Fault>
        requires can { CanCall self.now.monitor.now (P.seats parking.now) pass.old }
        ensures called { Called pass.old pass.new }
        ensures acquired { ReturnedAs done_of
            (Acquires self.now.when_full (P.did parking.now) X 1 Plain pass.old pass.new) result }
        ensures gains { Gains pass.old (with_yes result) pass.new }
    {
        done(self.acquire_as(rt, parking, pass, Mode::X, 1, How::Plain))
    }

    /// `ReentrantLock.lockInterruptibly()`: `Err(Interrupted)` where Java throws `InterruptedException`.
    pub fn lock_interruptibly<P: Parking, R: Wait + Clock>(
        &self,
        rt: &R,
        parking: &P,
        pass: &mut Pass,
    ) -> Result<(), Fault>
        requires can { CanCall self.now.monitor.now (P.seats parking.now) pass.old }
        ensures called { Called pass.old pass.new }
        ensures acquired { ReturnedAs done_of
            (Acquires self.now.when_full (P.did parking.now) X 1 Interruptible pass.old pass.new) result }
        ensures gains { Gains pass.old (with_yes result) pass.new }
    {
        done(self.acquire_as(rt, parking, pass, Mode::X, 1, How::Interruptible))
    }

    /// `ReentrantLock.tryLock()`: whether it got the lock. It overtakes waiters, in a fair lock too, but not
    /// in a strict one.
    pub fn try_lock<P: Parking, R: Wait + Clock>(
        &self,
        rt: &R,
        parking: &P,
        pass: &mut Pass,
    ) -> Result<bool, Fault>
        requires can { CanCall self.now.monitor.now (P.seats parking.now) pass.old }
        ensures called { Called pass.old pass.new }
        ensures entered { ReturnedAs whether_of
            (Steps self.now.when_full (P.did parking.now) (Try X 1) pass.old pass.new) result }
        ensures gains { Gains pass.old result pass.new }
    {
        whether(self.enter(rt, parking, pass, Step::Try(Mode::X, 1)))
    }

    /// `ReentrantLock.tryLock(time, unit)`: whether it got the lock within `ms`
    /// milliseconds. With 0 it doesn't wait, and under a fair or strict policy it doesn't
    /// overtake waiters.
    pub fn try_lock_for<P: Parking, R: Wait + Clock>(
        &self,
        rt: &R,
        parking: &P,
        pass: &mut Pass,
        ms: u32,
    ) -> Result<bool, Fault>
        requires can { CanCall self.now.monitor.now (P.seats parking.now) pass.old }
        ensures called { Called pass.old pass.new }
        ensures acquired { ReturnedAs whether_of
            (Acquires self.now.when_full (P.did parking.now) X 1 (Timed ms) pass.old pass.new) result }
        ensures gains { Gains pass.old result pass.new }
    {
        whether(self.acquire_as(rt, parking, pass, Mode::X, 1, How::Timed(ms)))
    }

    /// [`try_lock_for`](ReentrantLock::try_lock_for) until a moment on the clock of the parking, which
    /// `parking.now(rt)` shows. If that moment has come, the call doesn't wait.
    pub fn try_lock_until<P: Parking, R: Wait + Clock>(
        &self,
        rt: &R,
        parking: &P,
        pass: &mut Pass,
        moment: u64,
    ) -> Result<bool, Fault>
        requires can { CanCall self.now.monitor.now (P.seats parking.now) pass.old }
        ensures called { Called pass.old pass.new }
        ensures acquired { LastsUntil (P.did parking.now) moment (λ how. ReturnedAs whether_of
            (Acquires self.now.when_full (P.did parking.now) X 1 how pass.old pass.new) result) }
        ensures gains { Gains pass.old result pass.new }
    {
        let ms = milliseconds_left(rt, parking, moment);
        self.try_lock_for(rt, parking, pass, ms)
    }

    /// `ReentrantLock.unlock()`: `Err(NotOwner)` where Java throws `IllegalMonitorStateException`. It can't
    /// fail if the pass holds: room and memory for it were reserved when the hold was recorded.
    pub fn unlock<P: Parking, R: Wait + Clock>(
        &self,
        rt: &R,
        parking: &P,
        pass: &mut Pass,
    ) -> Result<(), Fault>
        requires can { CanCall self.now.monitor.now (P.seats parking.now) pass.old }
        ensures called { Called pass.old pass.new }
        ensures entered { ReturnedAs done_of
            (λ reply. IsEntered (P.did parking.now) pass.old (Give X 1) reply pass.new) result }
        ensures owner { is_lock self.now.monitor.now.header.object ≡ true → 0 < holds pass.old → IsOk result }
        ensures loses { is_lock self.now.monitor.now.header.object ≡ true → 0 < holds pass.old
            → holds pass.new + 1 ≡ holds pass.old }
    {
        pass.is_true();
        done(self.monitor.release(rt, parking, pass, Mode::X, 1))
    }

    /// `Condition.await()` of the condition of this number. It holds the lock again before it returns,
    /// also after `Err(Interrupted)`, where Java throws `InterruptedException`.
    /// There are no spurious wakeups.
    pub fn wait<P: Parking, R: Wait + Clock>(
        &self,
        rt: &R,
        parking: &P,
        pass: &mut Pass,
        condition: u8,
    ) -> Result<(), Fault>
        requires can { CanCall self.now.monitor.now (P.seats parking.now) pass.old }
        ensures called { Called pass.old pass.new }
        ensures awaited { ReturnedAs done_of
            (Awaits self.now.when_full (P.did parking.now) condition Interruptible pass.old pass.new) result }
        ensures keeps { holds pass.new ≡ holds pass.old }
    {
        done(self.wait_as(rt, parking, pass, condition, How::Interruptible))
    }

    /// `Condition.awaitUninterruptibly()` of the condition of this number.
    pub fn wait_uninterruptibly<P: Parking, R: Wait + Clock>(
        &self,
        rt: &R,
        parking: &P,
        pass: &mut Pass,
        condition: u8,
    ) -> Result<(), Fault>
        requires can { CanCall self.now.monitor.now (P.seats parking.now) pass.old }
        ensures called { Called pass.old pass.new }
        ensures awaited { ReturnedAs done_of
            (Awaits self.now.when_full (P.did parking.now) condition Plain pass.old pass.new) result }
        ensures keeps { holds pass.new ≡ holds pass.old }
    {
        done(self.wait_as(rt, parking, pass, condition, How::Plain))
    }

    /// `Condition.await(time, unit)` of the condition of this number: whether it was signalled within `ms`
    /// milliseconds. It holds the lock again either way.
    pub fn wait_for<P: Parking, R: Wait + Clock>(
        &self,
        rt: &R,
        parking: &P,
        pass: &mut Pass,
        condition: u8,
        ms: u32,
    ) -> Result<bool, Fault>
        requires can { CanCall self.now.monitor.now (P.seats parking.now) pass.old }
        ensures called { Called pass.old pass.new }
        ensures awaited { ReturnedAs whether_of
            (Awaits self.now.when_full (P.did parking.now) condition (Timed ms) pass.old pass.new) result }
        ensures keeps { holds pass.new ≡ holds pass.old }
    {
        whether(self.wait_as(rt, parking, pass, condition, How::Timed(ms)))
    }

    /// [`wait_for`](ReentrantLock::wait_for) until a moment on the clock of the parking, which
    /// `parking.now(rt)` shows. Java's `Condition.awaitUntil` takes a date instead.
    pub fn wait_until<P: Parking, R: Wait + Clock>(
        &self,
        rt: &R,
        parking: &P,
        pass: &mut Pass,
        condition: u8,
        moment: u64,
    ) -> Result<bool, Fault>
        requires can { CanCall self.now.monitor.now (P.seats parking.now) pass.old }
        ensures called { Called pass.old pass.new }
        ensures awaited { LastsUntil (P.did parking.now) moment (λ how. ReturnedAs whether_of
            (Awaits self.now.when_full (P.did parking.now) condition how pass.old pass.new) result) }
        ensures keeps { holds pass.new ≡ holds pass.old }
    {
        let ms = milliseconds_left(rt, parking, moment);
        self.wait_for(rt, parking, pass, condition, ms)
    }

    /// `Condition.signal()` of the condition of this number.
    pub fn signal<P: Parking, R: Wait + Clock>(
        &self,
        rt: &R,
        parking: &P,
        pass: &mut Pass,
        condition: u8,
    ) -> Result<(), Fault>
        requires can { CanCall self.now.monitor.now (P.seats parking.now) pass.old }
        ensures called { Called pass.old pass.new }
        ensures entered { ReturnedAs done_of
            (Steps self.now.when_full (P.did parking.now) (Signal condition) pass.old pass.new) result }
        ensures keeps { holds pass.new ≡ holds pass.old }
    {
        done(self.enter(rt, parking, pass, Step::Signal(condition)))
    }

    /// `Condition.signalAll()` of the condition of this number.
    pub fn signal_all<P: Parking, R: Wait + Clock>(
        &self,
        rt: &R,
        parking: &P,
        pass: &mut Pass,
        condition: u8,
    ) -> Result<(), Fault>
        requires can { CanCall self.now.monitor.now (P.seats parking.now) pass.old }
        ensures called { Called pass.old pass.new }
        ensures entered { ReturnedAs done_of
            (Steps self.now.when_full (P.did parking.now) (SignalAll condition) pass.old pass.new) result }
        ensures keeps { holds pass.new ≡ holds pass.old }
    {
        done(self.enter(rt, parking, pass, Step::SignalAll(condition)))
    }
}
