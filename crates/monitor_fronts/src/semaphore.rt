//! Permits to acquire and release.
ghost use Rattle.history.specs.Phase.{waits};
ghost use Rattle.history.specs.declared.entry.Mode.TheVariants.{S};
ghost use Rattle.history.specs.declared.step.Step.TheVariants.{Try, Give, Drain};
ghost use Rattle.monitor.specs.Calling.{CanCall, Called};
ghost use Rattle.monitor.specs.declared.how.How.TheVariants.{Plain, Interruptible, Timed};
ghost use Rattle.monitor_fronts.specs.FrontCalls.{Acquires, LastsUntil, Steps};
ghost use Rattle.monitor_fronts.specs.Holding.{with_yes};
ghost use Rattle.monitor_fronts.specs.Permits.{DrainsFree, DrainsPermits, GivesFree, GivesPermits};
ghost use Rattle.monitor_fronts.specs.Permits.{TakesFree, TakesPermits};
ghost use Rattle.monitor_fronts.specs.Returned.{ReturnedAs, done_of, number_of, whether_of};

use crate::front::Front;
use crate::returned::{done, number, whether};
use crate::until::milliseconds_left;
use counting::semaphore::SemaphoreHooks;
use history::entry::Mode;
use history::fault::Fault;
use history::step::Step;
use monitor::{How, Pass};
use permit::Parking;
use std::sync::Wait;
use std::time::Clock;

/// `java.util.concurrent.Semaphore` of Java SE 8 over a monitor. It may be opened with fewer than 0 permits,
/// as Java's.
///
/// A contract speaks of two numbers: `permits pass` is what the pass took less what it gave back, and `free_at point`
/// is how many permits are free in a history.
pub type Semaphore<'m> = Front<'m, SemaphoreHooks>;

impl<'m> Semaphore<'m> {
    /// `Semaphore.acquire(permits)`: waits until `n` permits are free. `Err(Interrupted)` where Java throws
    /// `InterruptedException`.
    pub fn acquire<P: Parking, R: Wait + Clock>(
        &self,
        rt: &R,
        parking: &P,
        pass: &mut Pass,
        n: u32,
    ) -> Result<(), Fault>
        requires can { CanCall self.now.monitor.now (P.seats parking.now) pass.old }
        ensures called { Called pass.old pass.new }
        ensures acquired { ReturnedAs done_of
            (Acquires self.now.when_full (P.did parking.now) S n Interruptible pass.old pass.new) result }
        ensures takes { TakesPermits n pass.old (with_yes result) pass.new }
        ensures free { TakesFree n pass.old (with_yes result) pass.new }
    {
        done(self.acquire_as(rt, parking, pass, Mode::S, n, How::Interruptible))
    }

    /// `Semaphore.acquireUninterruptibly(permits)`.
    pub fn acquire_uninterruptibly<P: Parking, R: Wait + Clock>(
        &self,
        rt: &R,
        parking: &P,
        pass: &mut Pass,
        n: u32,
    ) -> Result<(), Fault>
        requires can { CanCall self.now.monitor.now (P.seats parking.now) pass.old }
        ensures called { Called pass.old pass.new }
        ensures acquired { ReturnedAs done_of
            (Acquires self.now.when_full (P.did parking.now) S n Plain pass.old pass.new) result }
        ensures takes { TakesPermits n pass.old (with_yes result) pass.new }
        ensures free { TakesFree n pass.old (with_yes result) pass.new }
    {
        done(self.acquire_as(rt, parking, pass, Mode::S, n, How::Plain))
    }

    /// `Semaphore.tryAcquire(permits)`: whether `n` permits were free. It overtakes waiters, in a fair
    /// semaphore too, but not in a strict one.
    pub fn try_acquire<P: Parking, R: Wait + Clock>(
        &self,
        rt: &R,
        parking: &P,
        pass: &mut Pass,
        n: u32,
    ) -> Result<bool, Fault>
        requires can { CanCall self.now.monitor.now (P.seats parking.now) pass.old }
        ensures called { Called pass.old pass.new }
        ensures entered { ReturnedAs whether_of
            (Steps self.now.when_full (P.did parking.now) (Try S n) pass.old pass.new) result }
        ensures takes { TakesPermits n pass.old result pass.new }
        ensures free { TakesFree n pass.old result pass.new }
    {
        whether(self.enter(rt, parking, pass, Step::Try(Mode::S, n)))
    }

    /// `Semaphore.tryAcquire(permits, timeout, unit)`: whether `n` permits were free within
    /// `ms` milliseconds.
    pub fn try_acquire_for<P: Parking, R: Wait + Clock>(
        &self,
        rt: &R,
        parking: &P,
        pass: &mut Pass,
        n: u32,
        ms: u32,
    ) -> Result<bool, Fault>
        requires can { CanCall self.now.monitor.now (P.seats parking.now) pass.old }
        ensures called { Called pass.old pass.new }
        ensures acquired { ReturnedAs whether_of
            (Acquires self.now.when_full (P.did parking.now) S n (Timed ms) pass.old pass.new) result }
        ensures takes { TakesPermits n pass.old result pass.new }
        ensures free { TakesFree n pass.old result pass.new }
    {
        whether(self.acquire_as(rt, parking, pass, Mode::S, n, How::Timed(ms)))
    }

    /// [`try_acquire_for`](Semaphore::try_acquire_for) until a moment on the clock of the parking, which
    /// `parking.now(rt)` shows. If that moment has come, the call doesn't wait.
    pub fn try_acquire_until<P: Parking, R: Wait + Clock>(
        &self,
        rt: &R,
        parking: &P,
        pass: &mut Pass,
        n: u32,
        moment: u64,
    ) -> Result<bool, Fault>
        requires can { CanCall self.now.monitor.now (P.seats parking.now) pass.old }
        ensures called { Called pass.old pass.new }
        ensures acquired { LastsUntil (P.did parking.now) moment (λ how. ReturnedAs whether_of
            (Acquires self.now.when_full (P.did parking.now) S n how pass.old pass.new) result) }
        ensures takes { TakesPermits n pass.old result pass.new }
        ensures free { TakesFree n pass.old result pass.new }
    {
        let ms = milliseconds_left(rt, parking, moment);
        self.try_acquire_for(rt, parking, pass, n, ms)
    }

    /// `Semaphore.release(permits)`: any pass may release permits, also more than it acquired.
    pub fn release<P: Parking, R: Wait + Clock>(
        &self,
        rt: &R,
        parking: &P,
        pass: &mut Pass,
        n: u32,
    ) -> Result<(), Fault>
        requires can { CanCall self.now.monitor.now (P.seats parking.now) pass.old }
        ensures called { Called pass.old pass.new }
        ensures entered { ReturnedAs done_of
            (Steps self.now.when_full (P.did parking.now) (Give S n) pass.old pass.new) result }
        ensures gives { GivesPermits n pass.old (with_yes result) pass.new }
        ensures free { GivesFree n pass.old (with_yes result) pass.new }
    {
        done(self.enter(rt, parking, pass, Step::Give(Mode::S, n)))
    }

    /// `Semaphore.drainPermits()`: takes all free permits, and returns how many these were. If fewer than 0
    /// are free, it takes none; Java's then makes them 0.
    pub fn drain_permits<P: Parking, R: Wait + Clock>(
        &self,
        rt: &R,
        parking: &P,
        pass: &mut Pass,
    ) -> Result<u32, Fault>
        requires can { CanCall self.now.monitor.now (P.seats parking.now) pass.old }
        ensures called { Called pass.old pass.new }
        ensures entered { ReturnedAs number_of
            (Steps self.now.when_full (P.did parking.now) Drain pass.old pass.new) result }
        ensures takes { DrainsPermits pass.old result pass.new }
        ensures free { DrainsFree pass.old result pass.new }
    {
        number(self.enter(rt, parking, pass, Step::Drain))
    }
}
