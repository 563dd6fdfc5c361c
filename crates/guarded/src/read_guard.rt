//! How a pass comes to read a value that a read-write lock guards, and a reader's side of it.
ghost use Rattle.std.specs.Prelude.{◌≡◌, ◌<◌, IfOk};
ghost use Rattle.std.specs.Borrow.{sem, RestsIfErr};
ghost use Rattle.guarded.specs.Below.{S, the_row, Plain, Interruptible, Timed, IsLook, LastsUntil, with_yes};
ghost use Rattle.guarded.specs.Asking.{acquires, tries};
ghost use Rattle.guarded.specs.Guarding.{CanLock, yes_unless_missed};
ghost use Rattle.guarded.specs.Reading.{AsksToRead, EndsReading, HasRead, Reads, Saw, StillReads, reads};

use crate::{Any, Keeps, RwMutex, Shared, TryLockFault};
use history::fault::Fault;
use monitor::{How, Pass};
use monitor_fronts::milliseconds_left;
use permit::Parking;
use std::ops::Deref;
use std::sync::Wait;
use std::time::Clock;

/// The value of a read-write lock, with one of its readers. Others may read at the same time, and nobody writes.
/// `&*guard` may be lent to other threads.
///
/// Dropping it gives a read hold back. If that is refused, a drop doesn't tell it: [`unread`](ReadGuard::unread) does.
///
/// It borrows its pass, so the pass makes no other call while the guard lives, but [`again`](ReadGuard::again) and
/// [`leave`](ReadGuard::leave). `S` is the share of the value, which is dropped before the hold is given back.
pub struct ReadGuard<
    'a,
    T: Drop,
    P: Parking,
    R: Wait + Clock,
    I: Keeps<T> = Any,
    S: Drop = Shared<T>,
> {
    pub(crate) pass: &'a mut Pass,
    pub(crate) share: S,
    pub(crate) lock: &'a RwMutex<T, I>,
    pub(crate) rt: &'a R,
    pub(crate) parking: &'a P,
}

impl<'a, T: Drop, P: Parking, R: Wait + Clock, I: Keeps<T>> ReadGuard<'a, T, P, R, I> {
    /// The guard of a read hold that the pass has already, as that of a writer that read too.
    pub fn of(
        pass: &'a mut Pass,
        lock: &'a RwMutex<T, I>,
        rt: &'a R,
        parking: &'a P,
    ) -> ReadGuard<'a, T, P, R, I>
        requires can { CanLock lock.now (P.seats parking.now) pass.old }
        requires some { 0 < reads pass.old }
        ensures same_reference { result.pass.ghost_name ≡ pass.entry.ghost_name }
        ensures looked { IsLook pass.old result.pass.now }
        ensures reads { Reads (P.seats result.parking.now) result }
        ensures saw { Saw I.invariant result.pass.now result.share }
    {
        let share = lock.mutex.look(rt, pass);
        ReadGuard {
            pass,
            share,
            lock,
            rt,
            parking,
        }
    }

    /// Returns the value. It is the same at each look.
    pub fn value(&self) -> &T
        ensures { result.now ≡ self.now.share }
    {
        self.share.value()
    }

    /// Reads once more: the pass has one more read hold. This is `ReadLock.lock()` by a reader.
    pub fn again(&mut self) -> Result<(), Fault>
        requires reads { Reads (P.seats self.old.parking.now) self.old }
        ensures stays { StillReads (P.seats self.new.parking.now) self.old self.new }
        ensures asked { AsksToRead self.old.lock.now.when_full (acquires (P.did self.old.parking.now) S Plain)
            self.old.pass.now (with_yes result) self.new.pass.now }
    {
        let lock = self.lock;
        let pass = &mut *self.pass;
        lock.mutex.read_by(self.rt, self.parking, pass, How::Plain)
    }

    /// Gives one of several read holds back, or returns why not.
    pub fn leave(&mut self) -> Result<(), Fault>
        requires reads { Reads (P.seats self.old.parking.now) self.old }
        requires several { 1 < reads self.old.pass.now }
        ensures stays { StillReads (P.seats self.new.parking.now) self.old self.new }
        ensures ends { EndsReading (P.did self.old.parking.now) self.old.pass.now result self.new.pass.now }
    {
        let lock = self.lock;
        let pass = &mut *self.pass;
        lock.mutex.end_reading(self.rt, self.parking, pass)
    }

    /// Gives a read hold back now. It never lacks room or memory. `Err(OutOfPhase)` if the pass is in the middle of
    /// another call. No call of this crate leaves it there, but no contract says so. This is `ReadLock.unlock()`.
    pub fn unread(self) -> Result<(), Fault>
        requires reads { Reads (P.seats self.parking.now) self }
        ensures ends { EndsReading (P.did self.entry.parking.now) self.entry.pass.now result self.exit.0.now }
    {
        let ReadGuard {
            pass,
            share: seen,
            lock,
            rt,
            parking,
        } = self;
        drop(seen);
        lock.mutex.end_reading(rt, parking, pass)
    }
}

impl<'a, T: Drop, P: Parking, R: Wait + Clock, I: Keeps<T>> Deref for ReadGuard<'a, T, P, R, I> {
    type Target = T;

    ghost deref_gives = { λ guard value. value ≡ guard.share };

    fn deref(&self) -> &T {
        self.value()
    }
}

impl<T: Drop, P: Parking, R: Wait + Clock, I: Keeps<T>, S: Drop> Drop
    for ReadGuard<'_, T, P, R, I, S> {
    fn drop(self)
        requires reads { Reads (P.seats self.parking.now) self }
        ensures ends { (told : _) × EndsReading (P.did self.entry.parking.now) self.entry.pass.now told
            self.exit.0.now }
    {
        let ReadGuard {
            pass,
            share,
            lock,
            rt,
            parking,
        } = self;
        drop(share);
        let _told = lock.mutex.end_reading(rt, parking, pass);
    }
}

/// Each of these is called by a pass that doesn't write, and returns a guard, which lends the value. After an `Err` the
/// pass has as many read holds as before. All passes together may have 65535 read holds; a call for more returns
/// `Err(TooManyHolds)`; the other faults are those of [`Mutex`](crate::Mutex).
///
/// The pass is the first argument, as in `RwMutex::read(pass, &lock, rt, parking)`, since the guard borrows it.
impl<T: Drop, I: Keeps<T>> RwMutex<T, I> {
    /// Waits until nobody writes. An interrupt doesn't end the wait, and stays pending. This is `ReadLock.lock()` of
    /// Java SE 8.
    pub fn read<'a, P: Parking, R: Wait + Clock>(
        pass: &'a mut Pass,
        lock: &'a RwMutex<T, I>,
        rt: &'a R,
        parking: &'a P,
    ) -> Result<ReadGuard<'a, T, P, R, I>, Fault>
        requires can { CanLock lock.now (P.seats parking.now) pass.old }
        ensures* not_read { sem 𝓛 (RestsIfErr the_row pass.entry (λ guard. guard.pass.ghost_name) result
            (AsksToRead lock.now.when_full (acquires (P.did parking.now) S Plain)
            pass.old (with_yes result))) }
        ensures read { IfOk result (HasRead P.seats I.invariant lock.now.when_full
            (acquires (P.did parking.now) S Plain) pass.entry) }
    {
        lock.mutex.read_by(rt, parking, pass, How::Plain)?;
        Ok(ReadGuard::of(pass, lock, rt, parking))
    }

    /// Waits until it reads, or is interrupted: `Err(Interrupted)`, also if an interrupt was pending. The interrupt
    /// is taken. This is `ReadLock.lockInterruptibly()`.
    pub fn read_interruptibly<'a, P: Parking, R: Wait + Clock>(
        pass: &'a mut Pass,
        lock: &'a RwMutex<T, I>,
        rt: &'a R,
        parking: &'a P,
    ) -> Result<ReadGuard<'a, T, P, R, I>, Fault>
        requires can { CanLock lock.now (P.seats parking.now) pass.old }
        ensures* not_read { sem 𝓛 (RestsIfErr the_row pass.entry (λ guard. guard.pass.ghost_name) result
            (AsksToRead lock.now.when_full (acquires (P.did parking.now) S Interruptible)
            pass.old (with_yes result))) }
        ensures read { IfOk result (HasRead P.seats I.invariant lock.now.when_full
            (acquires (P.did parking.now) S Interruptible) pass.entry) }
    {
        let how = How::Interruptible;
        lock.mutex.read_by(rt, parking, pass, how)?;
        Ok(ReadGuard::of(pass, lock, rt, parking))
    }

    /// Reads if no thread writes now. It overtakes waiters, under a fair policy too, but not under a strict one. This
    /// is `ReadLock.tryLock()`.
    pub fn try_read<'a, P: Parking, R: Wait + Clock>(
        pass: &'a mut Pass,
        lock: &'a RwMutex<T, I>,
        rt: &'a R,
        parking: &'a P,
    ) -> Result<ReadGuard<'a, T, P, R, I>, TryLockFault>
        requires can { CanLock lock.now (P.seats parking.now) pass.old }
        ensures* not_read { sem 𝓛 (RestsIfErr the_row pass.entry (λ guard. guard.pass.ghost_name) result
            (AsksToRead lock.now.when_full (tries (P.did parking.now) S)
            pass.old (yes_unless_missed result))) }
        ensures read { IfOk result (HasRead P.seats I.invariant lock.now.when_full
            (tries (P.did parking.now) S) pass.entry) }
    {
        lock.mutex.try_read_by(rt, parking, pass, None)?;
        Ok(ReadGuard::of(pass, lock, rt, parking))
    }

    /// Waits for a read hold, for `ms` milliseconds at most, or until it is interrupted: `Err(Failed(Interrupted))`.
    /// With 0 it doesn't wait, and under a fair or strict policy it doesn't overtake waiters. This is
    /// `ReadLock.tryLock(time, unit)`.
    pub fn try_read_for<'a, P: Parking, R: Wait + Clock>(
        pass: &'a mut Pass,
        lock: &'a RwMutex<T, I>,
        rt: &'a R,
        parking: &'a P,
        ms: u32,
    ) -> Result<ReadGuard<'a, T, P, R, I>, TryLockFault>
        requires can { CanLock lock.now (P.seats parking.now) pass.old }
        ensures* not_read { sem 𝓛 (RestsIfErr the_row pass.entry (λ guard. guard.pass.ghost_name) result
            (AsksToRead lock.now.when_full (acquires (P.did parking.now) S (Timed ms))
            pass.old (yes_unless_missed result))) }
        ensures read { IfOk result (HasRead P.seats I.invariant lock.now.when_full
            (acquires (P.did parking.now) S (Timed ms)) pass.entry) }
    {
        let how = Some(How::Timed(ms));
        lock.mutex.try_read_by(rt, parking, pass, how)?;
        Ok(ReadGuard::of(pass, lock, rt, parking))
    }

    /// [`try_read_for`](RwMutex::try_read_for) until a moment on the clock of the parking, which
    /// `parking.now(rt)` shows. If that moment has come, the call doesn't wait.
    pub fn try_read_until<'a, P: Parking, R: Wait + Clock>(
        pass: &'a mut Pass,
        lock: &'a RwMutex<T, I>,
        rt: &'a R,
        parking: &'a P,
        moment: u64,
    ) -> Result<ReadGuard<'a, T, P, R, I>, TryLockFault>
        requires can { CanLock lock.now (P.seats parking.now) pass.old }
        ensures* not_read { sem 𝓛 (RestsIfErr the_row pass.entry (λ guard. guard.pass.ghost_name) result
            (λ last. LastsUntil (P.did parking.now) moment (λ how. AsksToRead lock.now.when_full
            (acquires (P.did parking.now) S how) pass.old (yes_unless_missed result) last))) }
        ensures read { IfOk result (λ guard. LastsUntil (P.did parking.now) moment (λ how. HasRead P.seats
            I.invariant lock.now.when_full (acquires (P.did parking.now) S how) pass.entry guard)) }
    {
        let ms = milliseconds_left(rt, parking, moment);
        RwMutex::try_read_for(pass, lock, rt, parking, ms)
    }
}
