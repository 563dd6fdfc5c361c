//! A reentrant read-write lock that guards a value.
ghost use Rattle.std.specs.Prelude.{◌≡◌, ◌≤◌, All, IfOk, IfErr, IfSome, IsSome};
ghost use Rattle.std.specs.Borrow.{sem, RestsIfErr};
ghost use Rattle.guarded.specs.Below.{header_of, counts, start_on, IsInRange, OutOfMemory, X, S, ReadWrite, NonFair, the_row, Plain, Interruptible, Timed, Closes, IsMissing, MissingPass, Trim, LastsUntil, Adds, holds, with_yes};
ghost use Rattle.guarded.specs.Asking.{Opened, acquires, tries};
ghost use Rattle.guarded.specs.Guarding.{CanLock, GuardReturns, HasLocked, HasUnlocked, NotLocked, Owns, StillOwns, yes_unless_missed};
ghost use Rattle.guarded.specs.Reading.{reads};
ghost use Rattle.guarded.specs.Stowed.{IsFull, Kept, Rests};
ghost use Rattle.guarded.specs.declared.slot.Slot.TheVariants.{Full};

use crate::shared::unshared;
use crate::{Any, Guard, Keeps, Mutex, Options, Shared, Sharing, Slot, TryLockFault, View};
use history::entry::Mode;
use history::fault::Fault;
use history::header::Policy;
use monitor::{CloseFault, Closed, Monitor, Pass};
use monitor_fronts::WhenFull;
use permit::Parking;
use read_write::hooks::RwHooks;
use std::alloc::Global;
use std::marker::Model;
use std::sync::Wait;
use std::time::Clock;

/// A lock that guards a value: as a lock, `java.util.concurrent.locks.ReentrantReadWriteLock` of Java SE 8
/// with the conditions of its write lock; as a guard of a value, `std::sync::RwLock` of Rust. A pass stands
/// for a thread.
///
/// A writer has the value, in a [`Guard`]. Readers hold the lock together, and each has a
/// [`ReadGuard`](crate::ReadGuard), which lends the value: many threads look at it at the same time.
///
/// `I` is the invariant that the lock keeps of its value, or [`Any`] for none.
///
/// A writer that acquires a read hold and then unlocks becomes a reader, and no other writer comes in
/// between. A reader can't become a writer: `write` would wait for its own read hold for ever, and the other
/// kinds until an interrupt or their time.
#[derive(Drop)]
pub struct RwMutex<T: Drop, I: Keeps<T> = Any> {
    pub(crate) mutex: Mutex<Shared<T>, Sharing<I>, RwHooks>,
}

impl<T: Drop, I: Keeps<T>> Model for RwMutex<T, I> {
    ghost use Rattle.guarded.specs.Stowed.{MutexView};

    ghost Value = { MutexView };

    ghost view = { λ m. m.mutex };
}

impl<T: Drop> RwMutex<T> {
    /// Opens a lock that guards the value, for this many threads. Returns a pass for each thread too, in order, as in
    /// `let (table, passes) = RwMutex::new(alloc, value, 2)?;`. The other choices are those of
    /// [`Mutex::new`], and [`open_for`](RwMutex::open_for) takes others.
    pub fn new(alloc: Global, value: T, seats: u16) -> Result<(RwMutex<T>, Vec<Pass>), Fault>
        requires some { 1 ≤ seats }
        requires few { seats ≤ 256 }
        ensures opened { IfOk result (λ r. Opened (ReadWrite NonFair) Trim seats 16 4096 r.0 r.1.items) }
        ensures err { IfErr result (λ fault. fault ≡ OutOfMemory) }
    {
        RwMutex::new_keeping(alloc, value, seats)
    }

    /// [`new`](RwMutex::new) with these choices.
    pub fn open_for(
        alloc: Global,
        value: T,
        seats: u16,
        options: Options,
    ) -> Result<(RwMutex<T>, Vec<Pass>), Fault>
        requires { IsInRange (header_of (ReadWrite options.policy) seats options.conditions options.cap) }
        ensures opened { IfOk result (λ r. Opened (ReadWrite options.policy) options.when_full seats
            options.conditions options.cap r.0 r.1.items) }
        ensures err { IfErr result (λ fault. fault ≡ OutOfMemory) }
    {
        RwMutex::open_or_drop(alloc, value, seats, options)
    }

    /// Opens a lock that guards the value, and whose write lock has conditions 0 to `conditions - 1`. Returns a
    /// pass for each seat too, in order. `cap` is the greatest number of entries of its history, owed ones
    /// included. [`Shared::new`] takes memory for the value first. If memory is refused, it returns the share, of which
    /// [`Shared::into_value`] is the value.
    pub fn open(
        alloc: Global,
        shared: Shared<T>,
        policy: Policy,
        when_full: WhenFull,
        seats: u16,
        conditions: u8,
        cap: u32,
    ) -> Result<(RwMutex<T>, Vec<Pass>), (Shared<T>, Fault)>
        requires { IsInRange (header_of (ReadWrite policy) seats conditions cap) }
        ensures opened { IfOk result
            (λ r. Opened (ReadWrite policy) when_full seats conditions cap r.0 r.1.items) }
        ensures back { IfErr result (λ e. (e.0 ≡ shared) × (e.1 ≡ OutOfMemory)) }
    {
        RwMutex::open_keeping(alloc, shared, policy, when_full, seats, conditions, cap)
    }
}

/// A lock that keeps an invariant of its value.
impl<T: Drop, I: Keeps<T>> RwMutex<T, I> {
    /// [`new`](RwMutex::new) of a lock that keeps an invariant, which the value meets.
    pub fn new_keeping(
        alloc: Global,
        value: T,
        seats: u16,
    ) -> Result<(RwMutex<T, I>, Vec<Pass>), Fault>
        requires some { 1 ≤ seats }
        requires few { seats ≤ 256 }
        requires kept { I.invariant value }
        ensures opened { IfOk result (λ r. Opened (ReadWrite NonFair) Trim seats 16 4096 r.0 r.1.items) }
        ensures err { IfErr result (λ fault. fault ≡ OutOfMemory) }
    {
        RwMutex::open_or_drop(alloc, value, seats, Options::new())
    }

    /// [`open`](RwMutex::open) of a lock that keeps an invariant, which the value meets.
    pub fn open_keeping(
        alloc: Global,
        shared: Shared<T>,
        policy: Policy,
        when_full: WhenFull,
        seats: u16,
        conditions: u8,
        cap: u32,
    ) -> Result<(RwMutex<T, I>, Vec<Pass>), (Shared<T>, Fault)>
        requires range { IsInRange (header_of (ReadWrite policy) seats conditions cap) }
        requires kept { I.invariant shared }
        ensures opened { IfOk result
            (λ r. Opened (ReadWrite policy) when_full seats conditions cap r.0 r.1.items) }
        ensures back { IfErr result (λ e. (e.0 ≡ shared) × (e.1 ≡ OutOfMemory)) }
    {
        let Ok(hooks) = RwHooks::open(alloc, policy, seats) else {
            return Err((shared, Fault::OutOfMemory));
        };
        let slot = Slot::Full(shared);
        match Monitor::open_with(alloc, hooks, slot, seats, conditions, cap) {
            Ok((monitor, passes)) => {
                let mutex = Mutex { monitor, when_full };
                Ok((RwMutex { mutex }, passes))
            }
            Err((slot, fault)) => match slot {
                Slot::Full(shared) => Err((shared, fault)),
                Slot::Empty => unreachable!(),
                Slot::Lent(_) => unreachable!(),
            },
        }
    }

    // Drops the value if memory is refused.
    fn open_or_drop(
        alloc: Global,
        value: T,
        seats: u16,
        options: Options,
    ) -> Result<(RwMutex<T, I>, Vec<Pass>), Fault>
        requires fit { IsInRange (header_of (ReadWrite options.policy) seats options.conditions options.cap) }
        requires kept { I.invariant value }
        ensures opened { IfOk result (λ r. Opened (ReadWrite options.policy) options.when_full seats
            options.conditions options.cap r.0 r.1.items) }
        ensures err { IfErr result (λ fault. fault ≡ OutOfMemory) }
    {
        let Ok(shared) = Shared::new(alloc, value) else {
            return Err(Fault::OutOfMemory);
        };
        let Options {
            policy,
            when_full,
            conditions,
            cap,
        } = options;
        match RwMutex::open_keeping(alloc, shared, policy, when_full, seats, conditions, cap) {
            Ok((lock, passes)) => Ok((lock, passes)),
            Err((_shared, fault)) => Err(fault),
        }
    }
}

impl<T: Drop, I: Keeps<T>> RwMutex<T, I> {
    /// Ends the lock, after the calls that are under way. Returns the history, and the value unless a seat still
    /// writes and so has the value. The value meets the lock's invariant.
    ///
    /// The passes of all seats are needed, in any order. If one is missing, it returns the lock and the passes as
    /// they were.
    pub fn close<R: Wait>(
        self,
        rt: &R,
        passes: Vec<Pass>,
    ) -> Result<(Closed, Option<T>), (RwMutex<T, I>, Vec<Pass>, CloseFault)>
        requires is_of { All (λ p. p.lock ≡ self.lock) passes.items }
        ensures value { IfOk result (λ r.
            Rests r.1 (counts (start_on self.lock.header r.0.history) r.0.history.entries)) }
        ensures kept { IfOk result (λ r. IfSome r.1 (λ value. I.invariant value)) }
        ensures free { IfOk result (λ r. All (λ p. holds p ≡ 0) passes.items → IsSome r.1) }
        ensures closes { IfOk result (λ r. Closes self.lock passes.items r.0) }
        ensures missing { IfErr result (λ r.
            (r.2 ≡ MissingPass) × IsMissing self.lock.header.seats passes.items) }
        ensures back { IfErr result (λ r. (r.0 ≡ self) × (r.1 ≡ passes)) }
    {
        match self.mutex.close(rt, passes) {
            Ok((closed, share)) => Ok((closed, unshared(rt, share))),
            Err((mutex, passes, fault)) => Err((RwMutex { mutex }, passes, fault)),
        }
    }

    /// Returns a view of the lock, which shows who holds it and who waits, and which trims its history.
    pub fn view(&self) -> View<'_, RwHooks, Slot<Shared<T>, Sharing<I>>>
        ensures { result.monitor.now ≡ self.now.lock }
    {
        self.mutex.view()
    }
}

/// Each of these is called by a pass that doesn't write, and returns a guard, which has the value. After an `Err` the
/// pass doesn't write. The faults are those of [`Mutex`].
///
/// A pass that reads would wait for its own read hold: it gives that back first.
///
/// The pass is the first argument, as in `RwMutex::write(pass, &lock, rt, parking)`, since the guard borrows it.
impl<T: Drop, I: Keeps<T>> RwMutex<T, I> {
    /// Waits until nobody else writes or reads. An interrupt doesn't end the wait, and stays pending. This is
    /// `WriteLock.lock()` of Java SE 8.
    pub fn write<'a, P: Parking, R: Wait + Clock>(
        pass: &'a mut Pass,
        lock: &'a RwMutex<T, I>,
        rt: &'a R,
        parking: &'a P,
    ) -> Result<Guard<'a, Shared<T>, P, R, Sharing<I>, RwHooks>, Fault>
        requires can { CanLock lock.now (P.seats parking.now) pass.old }
        ensures* not_locked { sem 𝓛 (RestsIfErr the_row pass.entry (λ guard. guard.pass.ghost_name) result
            (NotLocked lock.now.when_full (acquires (P.did parking.now) X Plain)
            pass.old (with_yes result))) }
        ensures locked { IfOk result (HasLocked P.seats I.invariant lock.now.when_full
            (acquires (P.did parking.now) X Plain) pass.entry) }
    {
        Mutex::lock(pass, &lock.mutex, rt, parking)
    }

    /// Waits until it has the lock, or is interrupted: `Err(Interrupted)`, also if an interrupt was pending. The
    /// interrupt is taken. This is `WriteLock.lockInterruptibly()`.
    pub fn write_interruptibly<'a, P: Parking, R: Wait + Clock>(
        pass: &'a mut Pass,
        lock: &'a RwMutex<T, I>,
        rt: &'a R,
        parking: &'a P,
    ) -> Result<Guard<'a, Shared<T>, P, R, Sharing<I>, RwHooks>, Fault>
        requires can { CanLock lock.now (P.seats parking.now) pass.old }
        ensures* not_locked { sem 𝓛 (RestsIfErr the_row pass.entry (λ guard. guard.pass.ghost_name) result
            (NotLocked lock.now.when_full (acquires (P.did parking.now) X Interruptible)
            pass.old (with_yes result))) }
        ensures locked { IfOk result (HasLocked P.seats I.invariant lock.now.when_full
            (acquires (P.did parking.now) X Interruptible) pass.entry) }
    {
        Mutex::lock_interruptibly(pass, &lock.mutex, rt, parking)
    }

    /// Acquires the lock if no thread writes or reads now. It overtakes waiters, under a fair policy too, but not
    /// under a strict one. This is `WriteLock.tryLock()`.
    pub fn try_write<'a, P: Parking, R: Wait + Clock>(
        pass: &'a mut Pass,
        lock: &'a RwMutex<T, I>,
        rt: &'a R,
        parking: &'a P,
    ) -> Result<Guard<'a, Shared<T>, P, R, Sharing<I>, RwHooks>, TryLockFault>
        requires can { CanLock lock.now (P.seats parking.now) pass.old }
        ensures* not_locked { sem 𝓛 (RestsIfErr the_row pass.entry (λ guard. guard.pass.ghost_name) result
            (NotLocked lock.now.when_full (tries (P.did parking.now) X)
            pass.old (yes_unless_missed result))) }
        ensures locked { IfOk result (HasLocked P.seats I.invariant lock.now.when_full
            (tries (P.did parking.now) X) pass.entry) }
    {
        Mutex::try_lock(pass, &lock.mutex, rt, parking)
    }

    /// Waits for the lock, for `ms` milliseconds at most, or until it is interrupted: `Err(Failed(Interrupted))`.
    /// With 0 it doesn't wait, and under a fair or strict policy it doesn't overtake waiters. This is
    /// `WriteLock.tryLock(time, unit)`.
    pub fn try_write_for<'a, P: Parking, R: Wait + Clock>(
        pass: &'a mut Pass,
        lock: &'a RwMutex<T, I>,
        rt: &'a R,
        parking: &'a P,
        ms: u32,
    ) -> Result<Guard<'a, Shared<T>, P, R, Sharing<I>, RwHooks>, TryLockFault>
        requires can { CanLock lock.now (P.seats parking.now) pass.old }
        ensures* not_locked { sem 𝓛 (RestsIfErr the_row pass.entry (λ guard. guard.pass.ghost_name) result
            (NotLocked lock.now.when_full (acquires (P.did parking.now) X (Timed ms))
            pass.old (yes_unless_missed result))) }
        ensures locked { IfOk result (HasLocked P.seats I.invariant lock.now.when_full
            (acquires (P.did parking.now) X (Timed ms)) pass.entry) }
    {
        Mutex::try_lock_for(pass, &lock.mutex, rt, parking, ms)
    }

    /// [`try_write_for`](RwMutex::try_write_for) until a moment on the clock of the parking, which
    /// `parking.now(rt)` shows. If that moment has come, the call doesn't wait.
    pub fn try_write_until<'a, P: Parking, R: Wait + Clock>(
        pass: &'a mut Pass,
        lock: &'a RwMutex<T, I>,
        rt: &'a R,
        parking: &'a P,
        moment: u64,
    ) -> Result<Guard<'a, Shared<T>, P, R, Sharing<I>, RwHooks>, TryLockFault>
        requires can { CanLock lock.now (P.seats parking.now) pass.old }
        ensures* not_locked { sem 𝓛 (RestsIfErr the_row pass.entry (λ guard. guard.pass.ghost_name)
            result (λ last. LastsUntil (P.did parking.now) moment (λ how. NotLocked lock.now.when_full
            (acquires (P.did parking.now) X how) pass.old (yes_unless_missed result) last))) }
        ensures locked { IfOk result (λ guard. LastsUntil (P.did parking.now) moment (λ how. HasLocked P.seats
            I.invariant lock.now.when_full (acquires (P.did parking.now) X how) pass.entry guard)) }
    {
        Mutex::try_lock_until(pass, &lock.mutex, rt, parking, moment)
    }
}

/// A writer, which may read too, and so become a reader.
impl<'a, T: Drop, P: Parking, R: Wait + Clock, I: Keeps<T>> Guard<
    'a,
    Shared<T>,
    P,
    R,
    Sharing<I>,
    RwHooks,
> {
    ghost use Rattle.guarded.specs.GuardLending.{LendsWritten};

    /// Returns the value.
    pub fn value(&self) -> &T
        requires there { IsFull self.now.slot }
        ensures value { Full result.now ≡ self.now.slot }
    {
        self.slot.value().value()
    }

    /// Returns the value, to change it.
    pub fn value_mut(&mut self) -> &mut T
        requires there { IsFull self.old.slot }
        ensures* lends { sem 𝓛 (LendsWritten T.row P.row R.row I.row I.Keeps self.entry result) }
        ensures value { Full result.now ≡ self.old.slot }
    {
        let rt = self.rt;
        let shared = self.slot.value_mut();
        shared.value_mut(rt)
    }

    /// Acquires a read hold beside the write hold: `Ok(true)`, or a fault. This is `ReadLock.lock()` by the owner
    /// of the write lock.
    pub fn read(&mut self) -> Result<bool, Fault>
        requires guards { Owns (P.seats self.old.parking.now) self.old }
        ensures stays { StillOwns (P.seats self.new.parking.now) self.old self.new }
        ensures returned { GuardReturns (acquires (P.did self.old.parking.now) S Plain)
            self.old self.new result }
        ensures adds { Adds S self.old.pass.now result self.new.pass.now }
        ensures value { self.new.slot ≡ self.old.slot }
    {
        let pass = &mut *self.pass;
        self.lock.again(self.rt, self.parking, pass, Mode::S)
    }

    /// Unlocks now, and keeps the read holds: a writer becomes a reader, and no other writer comes in
    /// between. It can't fail. This is `WriteLock.unlock()` by an owner that reads too.
    /// [`ReadGuard::of`](crate::ReadGuard::of) makes the reader's guard.
    pub fn downgrade(self)
        requires guards { Owns (P.seats self.parking.now) self }
        requires last { holds self.pass.now ≡ 1 }
        requires kept { Kept I.invariant self.slot }
        ensures unlocks { HasUnlocked (P.did self.entry.parking.now) self.entry.pass.now self.exit.0.now }
        ensures reads { reads self.exit.0.now ≡ reads self.entry.pass.now }
    {}
}
