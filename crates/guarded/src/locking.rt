//! How a pass comes to hold a lock that guards a value.
ghost use Rattle.std.specs.Prelude.{IfOk};
ghost use Rattle.std.specs.Borrow.{sem, RestsIfErr};
ghost use Rattle.guarded.specs.Below.{X, the_row, Plain, Interruptible, Timed, LastsUntil, with_yes};
ghost use Rattle.guarded.specs.Asking.{acquires, tries};
ghost use Rattle.guarded.specs.Guarding.{CanLock, HasLocked, NotLocked, yes_unless_missed};

use crate::{Guard, Keeps, Mutex, TryLockFault};
use frame::hooks::Hooks;
use history::fault::Fault;
use monitor::{How, Pass};
use monitor_fronts::milliseconds_left;
use permit::Parking;
use std::sync::Wait;
use std::time::Clock;

/// Each of these is called by a pass that doesn't hold the lock, and returns a guard, which has the value.
/// After an `Err` the pass doesn't hold the lock. `HistoryFull` and `TrimFull` come as `WhenFull`
/// says, `OutOfMemory` if memory for the history is refused, and `Interrupted` from methods that say so.
///
/// The pass is the first argument, as in `Mutex::lock(pass, &lock, rt, parking)`, since the guard borrows it.
impl<T: Drop, I: Keeps<T>, H: Hooks + Drop> Mutex<T, I, H> {
    /// Waits until it has the lock. An interrupt doesn't end the wait, and stays pending. This is
    /// `ReentrantLock.lock()` of Java SE 8.
    pub fn lock<'a, P: Parking, R: Wait + Clock>(
        pass: &'a mut Pass,
        lock: &'a Mutex<T, I, H>,
        rt: &'a R,
        parking: &'a P,
    ) -> Result<Guard<'a, T, P, R, I, H>, Fault>
        requires can { CanLock lock.now (P.seats parking.now) pass.old }
        ensures* not_locked { sem 𝓛 (RestsIfErr the_row pass.entry (λ guard. guard.pass.ghost_name) result
            (NotLocked lock.now.when_full (acquires (P.did parking.now) X Plain)
            pass.old (with_yes result))) }
        ensures locked { IfOk result (HasLocked P.seats I.invariant lock.now.when_full
            (acquires (P.did parking.now) X Plain) pass.entry) }
    {
        let slot = lock.take(rt, parking, pass, How::Plain)?;
        Ok(Guard {
            pass,
            slot,
            lock,
            rt,
            parking,
        })
    }

    /// Waits until it has the lock, or is interrupted: `Err(Interrupted)`, also if an interrupt was pending. The
    /// interrupt is taken. This is `ReentrantLock.lockInterruptibly()`.
    pub fn lock_interruptibly<'a, P: Parking, R: Wait + Clock>(
        pass: &'a mut Pass,
        lock: &'a Mutex<T, I, H>,
        rt: &'a R,
        parking: &'a P,
    ) -> Result<Guard<'a, T, P, R, I, H>, Fault>
        requires can { CanLock lock.now (P.seats parking.now) pass.old }
        ensures* not_locked { sem 𝓛 (RestsIfErr the_row pass.entry (λ guard. guard.pass.ghost_name) result
            (NotLocked lock.now.when_full (acquires (P.did parking.now) X Interruptible)
            pass.old (with_yes result))) }
        ensures locked { IfOk result (HasLocked P.seats I.invariant lock.now.when_full
            (acquires (P.did parking.now) X Interruptible) pass.entry) }
    {
        let slot = lock.take(rt, parking, pass, How::Interruptible)?;
        Ok(Guard {
            pass,
            slot,
            lock,
            rt,
            parking,
        })
    }

    /// Acquires the lock if no thread holds it now. It overtakes waiters, under a fair policy too, but not under a
    /// strict one. This is `ReentrantLock.tryLock()`.
    pub fn try_lock<'a, P: Parking, R: Wait + Clock>(
        pass: &'a mut Pass,
        lock: &'a Mutex<T, I, H>,
        rt: &'a R,
        parking: &'a P,
    ) -> Result<Guard<'a, T, P, R, I, H>, TryLockFault>
        requires can { CanLock lock.now (P.seats parking.now) pass.old }
        ensures* not_locked { sem 𝓛 (RestsIfErr the_row pass.entry (λ guard. guard.pass.ghost_name) result
            (NotLocked lock.now.when_full (tries (P.did parking.now) X)
            pass.old (yes_unless_missed result))) }
        ensures locked { IfOk result (HasLocked P.seats I.invariant lock.now.when_full
            (tries (P.did parking.now) X) pass.entry) }
    {
        let slot = lock.try_take(rt, parking, pass, None)?;
        Ok(Guard {
            pass,
            slot,
            lock,
            rt,
            parking,
        })
    }

    /// Waits for the lock, for `ms` milliseconds at most, or until it is interrupted:
    /// `Err(Failed(Interrupted))`. With 0 it doesn't wait, and under a fair or strict policy it doesn't
    /// overtake waiters. This is `ReentrantLock.tryLock(time, unit)`.
    pub fn try_lock_for<'a, P: Parking, R: Wait + Clock>(
        pass: &'a mut Pass,
        lock: &'a Mutex<T, I, H>,
        rt: &'a R,
        parking: &'a P,
        ms: u32,
    ) -> Result<Guard<'a, T, P, R, I, H>, TryLockFault>
        requires can { CanLock lock.now (P.seats parking.now) pass.old }
        ensures* not_locked { sem 𝓛 (RestsIfErr the_row pass.entry (λ guard. guard.pass.ghost_name) result
            (NotLocked lock.now.when_full (acquires (P.did parking.now) X (Timed ms))
            pass.old (yes_unless_missed result))) }
        ensures locked { IfOk result (HasLocked P.seats I.invariant lock.now.when_full
            (acquires (P.did parking.now) X (Timed ms)) pass.entry) }
    {
        let slot = lock.try_take(rt, parking, pass, Some(How::Timed(ms)))?;
        Ok(Guard {
            pass,
            slot,
            lock,
            rt,
            parking,
        })
    }

    /// [`try_lock_for`](Mutex::try_lock_for) until a moment on the clock of the parking, which
    /// `parking.now(rt)` shows. If that moment has come, the call doesn't wait.
    pub fn try_lock_until<'a, P: Parking, R: Wait + Clock>(
        pass: &'a mut Pass,
        lock: &'a Mutex<T, I, H>,
        rt: &'a R,
        parking: &'a P,
        moment: u64,
    ) -> Result<Guard<'a, T, P, R, I, H>, TryLockFault>
        requires can { CanLock lock.now (P.seats parking.now) pass.old }
        ensures* not_locked { sem 𝓛 (RestsIfErr the_row pass.entry (λ guard. guard.pass.ghost_name)
            result (λ last. LastsUntil (P.did parking.now) moment (λ how. NotLocked lock.now.when_full
            (acquires (P.did parking.now) X how) pass.old (yes_unless_missed result) last))) }
        ensures locked { IfOk result (λ guard. LastsUntil (P.did parking.now) moment (λ how. HasLocked P.seats
            I.invariant lock.now.when_full (acquires (P.did parking.now) X how) pass.entry guard)) }
    {
        let ms = milliseconds_left(rt, parking, moment);
        Mutex::try_lock_for(pass, lock, rt, parking, ms)
    }
}
