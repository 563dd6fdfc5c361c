//! The owner's side of a lock that guards a value.
ghost use Rattle.std.specs.Prelude.{◌≡◌, ◌≢◌, ◌+◌, ◌<◌, IfErr, IfOk, Ok, true, false, not};
ghost use Rattle.std.specs.Borrow.{sem};
ghost use Rattle.std.specs.Fn.{FnReturnsAt};
ghost use Rattle.guarded.specs.Below.{X, Interrupted, Give, moment_after, Plain, Interruptible, Timed, LastsUntil, Adds, holds, showed};
ghost use Rattle.guarded.specs.Asking.{IsRecorded, CallReturns, acquires, awaits, signals};
ghost use Rattle.guarded.specs.Guarding.{GuardReturns, GuardReturnsDone, HasUnlocked, HasWaited, Owns, StillOwns};
ghost use Rattle.guarded.specs.Reading.{Sees};
ghost use Rattle.guarded.specs.Stowed.{IsFull, Kept};
ghost use Rattle.guarded.specs.Waiting.{AwaitsUntil, HasCome, TimeWasUp, WaitFailed, Waited, WaitsWhile, owner};
ghost use Rattle.guarded.specs.declared.slot.Slot.TheVariants.{Full};

use crate::{Any, Keeps, Mutex, Slot};
use frame::hooks::Hooks;
use history::entry::Mode;
use history::fault::Fault;
use monitor::{How, Pass, moment_after};
use monitor_fronts::{done, milliseconds_left};
use permit::Parking;
use reentrant::lock::LockHooks;
use std::sync::Wait;
use std::time::Clock;

/// The value of a lock, with its owner. Dropping it unlocks the lock, so a `?` may leave a section. That can't
/// fail: room and memory for the entry were reserved when the hold was recorded.
///
/// It borrows its pass, so the pass makes no other call while the guard lives. The guard must have exactly one
/// hold when it is dropped: call [`leave`](Guard::leave) once for each [`again`](Guard::again). The value must then
/// meet the invariant that the lock keeps.
///
/// After an `Err` the pass has as many holds as before, and the guard has the value. If it is not `Interrupted`, a wait
/// without a predicate has left the value as it was. `HistoryFull` and `TrimFull` come as `WhenFull` says,
/// `OutOfMemory` if memory for the history is refused, and `NoSuchCondition` if the lock lacks the condition: after
/// these nothing was recorded. `HoldsRead` is the answer to a wait by a writer that reads too.
pub struct Guard<
    'a,
    T: Drop,
    P: Parking,
    R: Wait + Clock,
    I: Keeps<T> = Any,
    H: Hooks + Drop = LockHooks,
> {
    pub(crate) pass: &'a mut Pass,
    pub(crate) slot: Slot<T, I>,
    pub(crate) lock: &'a Mutex<T, I, H>,
    pub(crate) rt: &'a R,
    pub(crate) parking: &'a P,
}

impl<T: Drop, P: Parking, R: Wait + Clock, I: Keeps<T>> Guard<'_, T, P, R, I> {
    ghost use Rattle.guarded.specs.GuardLending.{LendsOwned};

    /// Returns the value.
    pub fn value(&self) -> &T
        requires there { IsFull self.now.slot }
        ensures value { Full result.now ≡ self.now.slot }
    {
        self.slot.value()
    }

    /// Returns the value, to change it.
    pub fn value_mut(&mut self) -> &mut T
        requires there { IsFull self.old.slot }
        ensures* lends { sem 𝓛 (LendsOwned T.row P.row R.row I.row I.Keeps self.entry result) }
        ensures value { Full result.now ≡ self.old.slot }
    {
        self.slot.value_mut()
    }
}

impl<T: Drop, P: Parking, R: Wait + Clock, I: Keeps<T>, H: Hooks + Drop> Guard<'_, T, P, R, I, H> {
    /// Waits on the condition until it is signalled, or interrupted: `Err(Interrupted)`, and the interrupt is taken.
    /// It releases the lock and the value while it waits, and has both again when it returns, whatever ended the
    /// wait. So the value must meet the lock's invariant, and meets it afterwards. Another thread may have changed it,
    /// so test again what was waited for. `Ok(true)`, or a fault: only a timed wait returns `Ok(false)`. This is
    /// `Condition.await()` of Java SE 8.
    pub fn wait(&mut self, condition: u8) -> Result<bool, Fault>
        requires guards { Owns (P.seats self.old.parking.now) self.old }
        requires kept { Kept I.invariant self.old.slot }
        ensures stays { HasWaited (P.seats self.new.parking.now) I.invariant self.old self.new }
        ensures value { IfErr result (λ fault. fault ≢ Interrupted → self.new.slot ≡ self.old.slot) }
        ensures awaited { GuardReturns (awaits (P.did self.old.parking.now) condition Interruptible)
            self.old self.new result }
    {
        let pass = &mut *self.pass;
        let how = How::Interruptible;
        self.lock.sleep(self.rt, self.parking, pass, &mut self.slot, condition, how)
    }

    /// [`wait`](Guard::wait), for `ms` milliseconds at most. Returns whether it was signalled. This is
    /// `Condition.await(time, unit)`.
    pub fn wait_for(&mut self, condition: u8, ms: u32) -> Result<bool, Fault>
        requires guards { Owns (P.seats self.old.parking.now) self.old }
        requires kept { Kept I.invariant self.old.slot }
        ensures stays { HasWaited (P.seats self.new.parking.now) I.invariant self.old self.new }
        ensures value { IfErr result (λ fault. fault ≢ Interrupted → self.new.slot ≡ self.old.slot) }
        ensures awaited { GuardReturns (awaits (P.did self.old.parking.now) condition (Timed ms))
            self.old self.new result }
    {
        let pass = &mut *self.pass;
        let how = How::Timed(ms);
        self.lock.sleep(self.rt, self.parking, pass, &mut self.slot, condition, how)
    }

    /// [`wait_for`](Guard::wait_for) until a moment on the clock of the parking, which `parking.now(rt)`
    /// shows. Java's `Condition.awaitUntil` takes a date instead.
    pub fn wait_until(&mut self, condition: u8, moment: u64) -> Result<bool, Fault>
        requires guards { Owns (P.seats self.old.parking.now) self.old }
        requires kept { Kept I.invariant self.old.slot }
        ensures stays { HasWaited (P.seats self.new.parking.now) I.invariant self.old self.new }
        ensures value { IfErr result (λ fault. fault ≢ Interrupted → self.new.slot ≡ self.old.slot) }
        ensures awaited { LastsUntil (P.did self.old.parking.now) moment (λ how.
            CallReturns self.old.lock.now.when_full (awaits (P.did self.old.parking.now) condition how)
            self.old.pass.now self.new.pass.now result) }
    {
        let ms = milliseconds_left(self.rt, self.parking, moment);
        self.wait_for(condition, ms)
    }

    /// [`wait`](Guard::wait), but an interrupt doesn't end it, and stays pending. `Ok(true)`, or a fault. This is
    /// `Condition.awaitUninterruptibly()`.
    pub fn wait_uninterruptibly(&mut self, condition: u8) -> Result<bool, Fault>
        requires guards { Owns (P.seats self.old.parking.now) self.old }
        requires kept { Kept I.invariant self.old.slot }
        ensures stays { HasWaited (P.seats self.new.parking.now) I.invariant self.old self.new }
        ensures value { IfErr result (λ fault. fault ≢ Interrupted → self.new.slot ≡ self.old.slot) }
        ensures awaited { GuardReturns (awaits (P.did self.old.parking.now) condition Plain)
            self.old self.new result }
    {
        let pass = &mut *self.pass;
        let how = How::Plain;
        self.lock.sleep(self.rt, self.parking, pass, &mut self.slot, condition, how)
    }

    /// Waits on the condition as long as the predicate is true of the value, and doesn't wait at all if it is false.
    /// When it returns `Ok`, it is false. Each wait is a [`wait`](Guard::wait), and ends it with its fault.
    pub fn wait_while<F: Fn(&T) -> bool>(
        &mut self,
        condition: u8,
        predicate: F,
    ) -> Result<(), Fault>
        requires guards { Owns (P.seats self.old.parking.now) self.old }
        requires kept { Kept I.invariant self.old.slot }
        requires callable { F.IsAlwaysCallable predicate }
        ensures stays { HasWaited (P.seats self.new.parking.now) I.invariant self.old self.new }
        ensures over { IfOk result (λ _. Sees (FnReturnsAt F.Fn predicate) self.new.slot false) }
        ensures waited { IfOk result (λ _. Waited (WaitsWhile (FnReturnsAt F.Fn predicate) (CallReturns
            self.old.lock.now.when_full (awaits (P.did self.old.parking.now) condition Interruptible)))
            (owner self.old.pass.now self.old.slot) (owner self.new.pass.now self.new.slot)) }
        ensures failed { IfErr result (λ fault. WaitFailed
            (WaitsWhile (FnReturnsAt F.Fn predicate) (CallReturns self.old.lock.now.when_full
            (awaits (P.did self.old.parking.now) condition Interruptible)))
            (owner self.old.pass.now self.old.slot) (owner self.new.pass.now self.new.slot) fault) }
    {
        for _ in self.rt.forever() {
            if !predicate(self.slot.value()) {
                return Ok(());
            }
            self.wait(condition)?;
        }
        unreachable!()
    }

    /// [`wait_while`](Guard::wait_while), for `ms` milliseconds at most, all waits together. Returns whether the
    /// predicate is false of the value. It tests once more after the time is up.
    pub fn wait_while_for<F: Fn(&T) -> bool>(
        &mut self,
        condition: u8,
        ms: u32,
        predicate: F,
    ) -> Result<bool, Fault>
        requires guards { Owns (P.seats self.old.parking.now) self.old }
        requires kept { Kept I.invariant self.old.slot }
        requires callable { F.IsAlwaysCallable predicate }
        ensures stays { HasWaited (P.seats self.new.parking.now) I.invariant self.old self.new }
        ensures over { IfOk result (λ is_over. Sees (FnReturnsAt F.Fn predicate) self.new.slot (not is_over)) }
        ensures in_time { result ≡ Ok false → TimeWasUp (P.did self.old.parking.now) ms }
        ensures waited { IfOk result (λ _. (begun : _) × P.did self.old.parking.now (showed begun) × Waited
            (WaitsWhile (FnReturnsAt F.Fn predicate) (AwaitsUntil (P.did self.old.parking.now)
            self.old.lock.now.when_full condition (moment_after begun ms)))
            (owner self.old.pass.now self.old.slot) (owner self.new.pass.now self.new.slot)) }
        ensures failed { IfErr result (λ fault. (begun : _) × P.did self.old.parking.now
            (showed begun) × WaitFailed (WaitsWhile (FnReturnsAt F.Fn predicate) (AwaitsUntil
            (P.did self.old.parking.now) self.old.lock.now.when_full condition (moment_after begun ms)))
            (owner self.old.pass.now self.old.slot) (owner self.new.pass.now self.new.slot) fault) }
    {
        let begun = self.parking.now(self.rt);
        self.wait_while_until(condition, moment_after(begun, ms), predicate)
    }

    /// [`wait_while_for`](Guard::wait_while_for) until a moment on the clock of the parking, which
    /// `parking.now(rt)` shows.
    pub fn wait_while_until<F: Fn(&T) -> bool>(
        &mut self,
        condition: u8,
        moment: u64,
        predicate: F,
    ) -> Result<bool, Fault>
        requires guards { Owns (P.seats self.old.parking.now) self.old }
        requires kept { Kept I.invariant self.old.slot }
        requires callable { F.IsAlwaysCallable predicate }
        ensures stays { HasWaited (P.seats self.new.parking.now) I.invariant self.old self.new }
        ensures over { IfOk result (λ is_over. Sees (FnReturnsAt F.Fn predicate) self.new.slot (not is_over)) }
        ensures in_time { result ≡ Ok false → HasCome (P.did self.old.parking.now) moment }
        ensures waited { IfOk result (λ _. Waited (WaitsWhile (FnReturnsAt F.Fn predicate)
            (AwaitsUntil (P.did self.old.parking.now) self.old.lock.now.when_full condition moment))
            (owner self.old.pass.now self.old.slot) (owner self.new.pass.now self.new.slot)) }
        ensures failed { IfErr result (λ fault. WaitFailed (WaitsWhile (FnReturnsAt F.Fn predicate)
            (AwaitsUntil (P.did self.old.parking.now) self.old.lock.now.when_full condition moment))
            (owner self.old.pass.now self.old.slot) (owner self.new.pass.now self.new.slot) fault) }
    {
        for _ in self.rt.forever() {
            if !predicate(self.slot.value()) {
                return Ok(true);
            }
            let left = milliseconds_left(self.rt, self.parking, moment);
            if left == 0 {
                return Ok(false);
            }
            self.wait_for(condition, left)?;
        }
        unreachable!()
    }

    /// Moves the first waiter of the condition into the wait queue of the lock, if there is one. The guard keeps the
    /// value. This is `Condition.signal()`.
    pub fn signal(&mut self, condition: u8) -> Result<(), Fault>
        requires guards { Owns (P.seats self.old.parking.now) self.old }
        ensures stays { StillOwns (P.seats self.new.parking.now) self.old self.new }
        ensures keeps { holds self.new.pass.now ≡ holds self.old.pass.now }
        ensures signalled { GuardReturnsDone (signals (P.did self.old.parking.now) false condition) self.old
            self.new result }
        ensures value { self.new.slot ≡ self.old.slot }
    {
        let pass = &mut *self.pass;
        let lock = self.lock;
        done(lock.tell(self.rt, self.parking, pass, condition, false))
    }

    /// Moves all waiters of the condition into the wait queue of the lock, in order. The guard keeps the value. This
    /// is `Condition.signalAll()`.
    pub fn signal_all(&mut self, condition: u8) -> Result<(), Fault>
        requires guards { Owns (P.seats self.old.parking.now) self.old }
        ensures stays { StillOwns (P.seats self.new.parking.now) self.old self.new }
        ensures keeps { holds self.new.pass.now ≡ holds self.old.pass.now }
        ensures signalled { GuardReturnsDone (signals (P.did self.old.parking.now) true condition) self.old
            self.new result }
        ensures value { self.new.slot ≡ self.old.slot }
    {
        let pass = &mut *self.pass;
        done(self.lock.tell(self.rt, self.parking, pass, condition, true))
    }

    /// Acquires the lock once more: `Ok(true)`, or a fault. `Err(TooManyHolds)` with 2147483647 holds. This is
    /// `ReentrantLock.lock()` by its owner.
    pub fn again(&mut self) -> Result<bool, Fault>
        requires guards { Owns (P.seats self.old.parking.now) self.old }
        ensures stays { StillOwns (P.seats self.new.parking.now) self.old self.new }
        ensures adds { Adds X self.old.pass.now result self.new.pass.now }
        ensures acquired { GuardReturns (acquires (P.did self.old.parking.now) X Plain) self.old self.new
            result }
        ensures value { self.new.slot ≡ self.old.slot }
    {
        let pass = &mut *self.pass;
        self.lock.again(self.rt, self.parking, pass, Mode::X)
    }

    /// Releases one of several holds. It can't fail.
    pub fn leave(&mut self)
        requires guards { Owns (P.seats self.old.parking.now) self.old }
        requires several { 1 < holds self.old.pass.now }
        ensures stays { StillOwns (P.seats self.new.parking.now) self.old self.new }
        ensures loses { holds self.new.pass.now + 1 ≡ holds self.old.pass.now }
        ensures recorded { IsRecorded (P.did self.old.parking.now) self.old.pass.now (Give X 1)
            self.new.pass.now }
        ensures value { self.new.slot ≡ self.old.slot }
    {
        let pass = &mut *self.pass;
        self.lock.leave(self.rt, self.parking, pass);
    }

    /// Unlocks now. It can't fail. This is `ReentrantLock.unlock()`.
    pub fn unlock(self)
        requires guards { Owns (P.seats self.parking.now) self }
        requires last { holds self.pass.now ≡ 1 }
        requires kept { Kept I.invariant self.slot }
        ensures unlocks { HasUnlocked (P.did self.entry.parking.now) self.entry.pass.now self.exit.0.now }
    {}
}

impl<T: Drop, P: Parking, R: Wait + Clock, I: Keeps<T>, H: Hooks + Drop> Drop
    for Guard<'_, T, P, R, I, H> {
    fn drop(self)
        requires guards { Owns (P.seats self.parking.now) self }
        requires last { holds self.pass.now ≡ 1 }
        requires kept { Kept I.invariant self.slot }
        ensures unlocks { HasUnlocked (P.did self.entry.parking.now) self.entry.pass.now self.exit.0.now }
    {
        let Guard {
            pass,
            slot,
            lock,
            rt,
            parking,
        } = self;
        lock.put_back(rt, parking, pass, slot);
    }
}
