//! A reentrant lock that guards a value.
ghost use Rattle.std.specs.Prelude.{◌≡◌, ◌≢◌, ◌<◌, ◌≤◌, ◌+◌, All, IfOk, IfErr, IfSome, IsSome, Err};
ghost use Rattle.guarded.specs.Below.{header_of, counts, start_on, IsInRange, X, Interrupted, OutOfMemory, Lock, NonFair, Give, CanCall, Called, is_timed, Plain, Closes, IsMissing, MissingPass, IsSame, Trim, Adds, holds, whether_of};
ghost use Rattle.guarded.specs.Asking.{IsRecorded, CallReturns, Opened, acquires, awaits};
ghost use Rattle.guarded.specs.inner.Asking.{asks};
ghost use Rattle.guarded.specs.inner.Stowed.{Carries, MayLie};
ghost use Rattle.guarded.specs.Guarding.{CanLock, Guards, HasUnlocked, Locked, NotLocked, missed_as_no};
ghost use Rattle.guarded.specs.Stowed.{Kept, Rests};

use crate::options::{CAP, CONDITIONS};
use crate::{Any, Keeps, Options, Slot, TryLockFault, View};
use frame::hooks::Hooks;
use history::entry::{Entry, Mode};
use history::fault::Fault;
use history::header::Policy;
use history::step::Step;
use monitor::{CloseFault, Closed, How, Monitor, Pass, Request};
use monitor_fronts::{WhenFull, call_in_room, enter_in_room, whether};
use permit::Parking;
use reentrant::lock::LockHooks;
use std::alloc::Global;
use std::marker::{Model, PhantomData};
use std::sync::Wait;
use std::time::Clock;

/// A lock that guards a value: as a lock, `java.util.concurrent.locks.ReentrantLock` of Java SE 8 with its
/// conditions; as a guard of a value, `std::sync::Mutex` of Rust. A pass stands for a thread. A contract sees
/// which lock it is, with its header, and what it does if its history is full.
///
/// `I` is the invariant that the lock keeps of its value ([`Keeps`]), or [`Any`] for none.
#[derive(Drop)]
pub struct Mutex<T: Drop, I: Keeps<T> = Any, H: Hooks + Drop = LockHooks> {
    pub(crate) monitor: Monitor<H, Slot<T, I>>,
    pub(crate) when_full: WhenFull,
}

impl<T: Drop, I: Keeps<T>, H: Hooks + Drop> Model for Mutex<T, I, H> {
    ghost use Rattle.guarded.specs.Stowed.{IsOfLock, MutexView, mutex_view};

    ghost Value = { MutexView };

    ghost view = { λ m. mutex_view m.monitor m.when_full };

    ghost invariant = { λ m. IsOfLock m.monitor };
}

impl<T: Drop> Mutex<T> {
    /// Opens a lock that guards the value, for this many threads. Returns a pass for each thread too, in order, as in
    /// `let (number, passes) = Mutex::new(alloc, 0u64, 2)?;`.
    ///
    /// The lock isn't fair, and has conditions 0 to 15. It keeps at most 4096 entries, and folds them if it finds no
    /// room: with at most one hold for each thread, no call returns `HistoryFull`. [`open_for`](Mutex::open_for)
    /// takes other choices. If memory is refused, the value is dropped; [`open`](Mutex::open) returns it.
    pub fn new(alloc: Global, value: T, seats: u16) -> Result<(Mutex<T>, Vec<Pass>), Fault>
        requires some { 1 ≤ seats }
        requires few { seats ≤ 256 }
        ensures opened { IfOk result (λ r. Opened (Lock NonFair) Trim seats 16 4096 r.0 r.1.items) }
        ensures err { IfErr result (λ fault. fault ≡ OutOfMemory) }
    {
        Mutex::open_for(alloc, value, seats, Options::new())
    }

    /// [`new`](Mutex::new) with these choices, as in
    /// `Mutex::open_for(alloc, 0u64, 2, Options::new().policy(Policy::Fair))?`.
    pub fn open_for(
        alloc: Global,
        value: T,
        seats: u16,
        options: Options,
    ) -> Result<(Mutex<T>, Vec<Pass>), Fault>
        requires { IsInRange (header_of (Lock options.policy) seats options.conditions options.cap) }
        ensures opened { IfOk result (λ r. Opened (Lock options.policy) options.when_full seats
            options.conditions options.cap r.0 r.1.items) }
        ensures err { IfErr result (λ fault. fault ≡ OutOfMemory) }
    {
        let Options {
            policy,
            when_full,
            conditions,
            cap,
        } = options;
        match Mutex::open(alloc, value, policy, when_full, seats, conditions, cap) {
            Ok((lock, passes)) => Ok((lock, passes)),
            Err((_value, fault)) => Err(fault),
        }
    }

    /// Opens a lock with conditions 0 to `conditions - 1` that guards the value. Returns a pass for each seat too, in
    /// order. `cap` is the greatest number of entries of its history, owed ones included. If memory is refused,
    /// it returns the value.
    pub fn open(
        alloc: Global,
        value: T,
        policy: Policy,
        when_full: WhenFull,
        seats: u16,
        conditions: u8,
        cap: u32,
    ) -> Result<(Mutex<T>, Vec<Pass>), (T, Fault)>
        requires { IsInRange (header_of (Lock policy) seats conditions cap) }
        ensures opened { IfOk result (λ r. Opened (Lock policy) when_full seats
            conditions cap r.0 r.1.items) }
        ensures back { IfErr result (λ e. (e.0 ≡ value) × (e.1 ≡ OutOfMemory)) }
    {
        Mutex::open_keeping(alloc, value, policy, when_full, seats, conditions, cap)
    }
}

/// A lock that keeps an invariant of its value.
impl<T: Drop, I: Keeps<T>> Mutex<T, I> {
    /// [`new`](Mutex::new) of a lock that keeps an invariant, which the value meets, as in
    /// `let (accounts, passes) = Mutex::<Accounts, Balanced>::new_keeping(alloc, accounts, 2)?;`.
    pub fn new_keeping(
        alloc: Global,
        value: T,
        seats: u16,
    ) -> Result<(Mutex<T, I>, Vec<Pass>), Fault>
        requires some { 1 ≤ seats }
        requires few { seats ≤ 256 }
        requires kept { I.invariant value }
        ensures opened { IfOk result (λ r. Opened (Lock NonFair) Trim seats 16 4096 r.0 r.1.items) }
        ensures err { IfErr result (λ fault. fault ≡ OutOfMemory) }
    {
        let (policy, when_full) = (Policy::NonFair, WhenFull::Trim);
        match Mutex::open_keeping(alloc, value, policy, when_full, seats, CONDITIONS, CAP) {
            Ok((lock, passes)) => Ok((lock, passes)),
            Err((_value, fault)) => Err(fault),
        }
    }

    /// [`open`](Mutex::open) of a lock that keeps an invariant, which the value meets.
    pub fn open_keeping(
        alloc: Global,
        value: T,
        policy: Policy,
        when_full: WhenFull,
        seats: u16,
        conditions: u8,
        cap: u32,
    ) -> Result<(Mutex<T, I>, Vec<Pass>), (T, Fault)>
        requires range { IsInRange (header_of (Lock policy) seats conditions cap) }
        requires kept { I.invariant value }
        ensures opened { IfOk result (λ r. Opened (Lock policy) when_full seats
            conditions cap r.0 r.1.items) }
        ensures back { IfErr result (λ e. (e.0 ≡ value) × (e.1 ≡ OutOfMemory)) }
    {
        let hooks = LockHooks::open(policy);
        let slot = Slot::Full(value);
        match Monitor::open_with(alloc, hooks, slot, seats, conditions, cap) {
            Ok((monitor, passes)) => Ok((Mutex { monitor, when_full }, passes)),
            Err((slot, fault)) => match slot {
                Slot::Full(value) => Err((value, fault)),
                Slot::Empty => unreachable!(),
                Slot::Lent(_) => unreachable!(),
            },
        }
    }
}

impl<T: Drop, I: Keeps<T>, H: Hooks + Drop> Mutex<T, I, H> {
    /// Ends the lock, after the calls that are under way. Returns the history, and the value unless a seat still
    /// holds the lock and so has the value. The value meets the lock's invariant.
    ///
    /// The passes of all seats are needed, in any order. If one is missing, it returns the lock and the passes as
    /// they were.
    pub fn close<R: Wait>(
        self,
        rt: &R,
        passes: Vec<Pass>,
    ) -> Result<(Closed, Option<T>), (Mutex<T, I, H>, Vec<Pass>, CloseFault)>
        requires is_of { All (λ p. p.lock ≡ self.lock) passes.items }
        ensures value { IfOk result (λ r.
            Rests r.1 (counts (start_on self.lock.header r.0.history) r.0.history.entries)) }
        ensures kept { IfOk result (λ r. IfSome r.1 (λ value. I.invariant value)) }
        ensures free { IfOk result (λ r. All (λ p. holds p ≡ 0) passes.items → IsSome r.1) }
        ensures closes { IfOk result (λ r. Closes self.lock passes.items r.0) }
        ensures missing { IfErr result (λ r.
            (r.2 ≡ MissingPass) × IsMissing self.lock.header.seats passes.items) }
        ensures back { IfErr result (λ r. (r.0 ≡ self) × (r.1 ≡ passes)) }
    {
        let Mutex { monitor, when_full } = self;
        match monitor.close_with(rt, passes) {
            Ok((closed, slot)) => Ok((closed, slot.into_value())),
            Err((monitor, passes, fault)) => Err((Mutex { monitor, when_full }, passes, fault)),
        }
    }

    /// Returns a view of the lock, which shows who holds it and who waits, and which trims its history.
    pub fn view(&self) -> View<'_, H, Slot<T, I>>
        ensures { result.monitor.now ≡ self.now.lock }
    {
        View::of(&self.monitor)
    }
}

/// The parts of all calls.
impl<T: Drop, I: Keeps<T>, H: Hooks + Drop> Mutex<T, I, H> {
    // A call for a hold in a mode: an acquire that waits so, or a try. The slot has the value, or stands for it, exactly
    // if the pass holds the lock.
    pub(crate) fn call<P: Parking, R: Wait + Clock>(
        &self,
        rt: &R,
        parking: &P,
        pass: &mut Pass,
        slot: &mut Slot<T, I>,
        mode: Mode,
        how: Option<How>,
    ) -> Result<Entry, Fault>
        requires can { CanCall self.now.lock (P.seats parking.now) pass.old }
        requires carries { Carries (holds pass.old) slot.old }
        ensures called { Called pass.old pass.new }
        ensures made { asks (P.did parking.now) mode how self.now.when_full pass.old result pass.new }
        ensures adds { Adds mode pass.old (whether_of result) pass.new }
        ensures carries { Carries (holds pass.new) slot.new }
        ensures fit { MayLie I.invariant slot.old → MayLie I.invariant slot.new }
    {
        let monitor = &self.monitor;
        let when_full = self.when_full;
        match how {
            Some(how) => {
                let request = Request::Acquire(mode, 1);
                call_in_room(monitor, rt, parking, pass, slot, request, how, when_full)
            }
            None => {
                let step = Step::Try(mode, 1);
                enter_in_room(monitor, rt, parking, pass, slot, step, when_full)
            }
        }
    }

    // A call by a pass that doesn't hold the lock. Returns a slot with the value if it acquired the lock.
    pub(crate) fn try_take<P: Parking, R: Wait + Clock>(
        &self,
        rt: &R,
        parking: &P,
        pass: &mut Pass,
        how: Option<How>,
    ) -> Result<Slot<T, I>, TryLockFault>
        requires can { CanLock self.now (P.seats parking.now) pass.old }
        ensures locked { IfOk result (λ slot.
            Locked self.now.when_full (asks (P.did parking.now) X how) pass.old slot pass.new) }
        ensures kept { IfOk result (λ slot. Kept I.invariant slot) }
        ensures not_locked { IfErr result (λ fault. NotLocked
            self.now.when_full (asks (P.did parking.now) X how) pass.old (missed_as_no fault) pass.new) }
    {
        let mut slot = Slot::Empty;
        let reply = self.call(rt, parking, pass, &mut slot, Mode::X, how);
        match whether(reply) {
            Ok(true) => Ok(slot),
            Ok(false) => Err(TryLockFault::Missed),
            Err(fault) => Err(TryLockFault::Failed(fault)),
        }
    }

    // An acquire without a timeout.
    pub(crate) fn take<P: Parking, R: Wait + Clock>(
        &self,
        rt: &R,
        parking: &P,
        pass: &mut Pass,
        how: How,
    ) -> Result<Slot<T, I>, Fault>
        requires can { CanLock self.now (P.seats parking.now) pass.old }
        requires untimed { is_timed how → ⊥ }
        ensures locked { IfOk result (λ slot.
            Locked self.now.when_full (acquires (P.did parking.now) X how) pass.old slot pass.new) }
        ensures kept { IfOk result (λ slot. Kept I.invariant slot) }
        ensures not_locked { IfErr result (λ fault.
            NotLocked self.now.when_full (acquires (P.did parking.now) X how) pass.old (Err fault) pass.new) }
    {
        match self.try_take(rt, parking, pass, Some(how)) {
            Ok(slot) => Ok(slot),
            Err(TryLockFault::Failed(fault)) => Err(fault),
            Err(TryLockFault::Missed) => unreachable!(),
        }
    }

    // Releases a hold. With the last hold the value goes back into the lock.
    pub(crate) fn give<P: Parking, R: Wait + Clock>(
        &self,
        rt: &R,
        parking: &P,
        pass: &mut Pass,
        slot: &mut Slot<T, I>,
    )
        requires can { CanCall self.now.lock (P.seats parking.now) pass.old }
        requires has { 0 < holds pass.old }
        requires carries { Carries (holds pass.old) slot.old }
        requires fit { holds pass.old ≤ 1 → MayLie I.invariant slot.old }
        ensures called { Called pass.old pass.new }
        ensures recorded { IsRecorded (P.did parking.now) pass.old (Give X 1) pass.new }
        ensures loses { holds pass.new + 1 ≡ holds pass.old }
    {
        pass.is_true();
        let step = Step::Give(Mode::X, 1);
        match self.monitor.enter(rt, parking, pass, slot, step) {
            Ok(_) => {}
            Err(_) => unreachable!(),
        }
    }

    // Releases the last hold, and puts the value back.
    pub(crate) fn put_back<P: Parking, R: Wait + Clock>(
        &self,
        rt: &R,
        parking: &P,
        pass: &mut Pass,
        slot: Slot<T, I>,
    )
        requires guards { Guards self.now (P.seats parking.now) pass.old slot }
        requires last { holds pass.old ≡ 1 }
        requires kept { Kept I.invariant slot }
        ensures unlocks { HasUnlocked (P.did parking.now) pass.old pass.new }
    {
        let mut slot = slot;
        self.give(rt, parking, pass, &mut slot);
    }

    // A wait on a condition. The slot has the value again when it returns.
    pub(crate) fn sleep<P: Parking, R: Wait + Clock>(
        &self,
        rt: &R,
        parking: &P,
        pass: &mut Pass,
        slot: &mut Slot<T, I>,
        condition: u8,
        how: How,
    ) -> Result<bool, Fault>
        requires guards { Guards self.now (P.seats parking.now) pass.old slot.old }
        requires kept { Kept I.invariant slot.old }
        ensures same { IsSame pass.old pass.new }
        ensures guards { Guards self.now (P.seats parking.now) pass.new slot.new }
        ensures kept { Kept I.invariant slot.new }
        ensures awaited { CallReturns self.now.when_full (awaits (P.did parking.now) condition how) pass.old
            pass.new result }
        ensures keeps { holds pass.new ≡ holds pass.old }
        ensures stays { IfErr result (λ fault. fault ≢ Interrupted → slot.new ≡ slot.old) }
    {
        let (request, when_full) = (Request::AwaitOn(condition), self.when_full);
        whether(call_in_room(
            &self.monitor,
            rt,
            parking,
            pass,
            slot,
            request,
            how,
            when_full,
        ))
    }

    // One more hold in a mode, for the owner. The value stays in the guard.
    pub(crate) fn again<P: Parking, R: Wait + Clock>(
        &self,
        rt: &R,
        parking: &P,
        pass: &mut Pass,
        mode: Mode,
    ) -> Result<bool, Fault>
        requires can { CanCall self.now.lock (P.seats parking.now) pass.old }
        requires has { 0 < holds pass.old }
        ensures same { IsSame pass.old pass.new }
        ensures acquired { CallReturns self.now.when_full (acquires (P.did parking.now) mode Plain) pass.old
            pass.new result }
        ensures adds { Adds mode pass.old result pass.new }
    {
        let mut lent = Slot::Lent(PhantomData);
        let how = Some(How::Plain);
        whether(self.call(rt, parking, pass, &mut lent, mode, how))
    }

    // Releases one of several holds. The value stays in the guard.
    pub(crate) fn leave<P: Parking, R: Wait + Clock>(&self, rt: &R, parking: &P, pass: &mut Pass)
        requires can { CanCall self.now.lock (P.seats parking.now) pass.old }
        requires several { 1 < holds pass.old }
        ensures same { IsSame pass.old pass.new }
        ensures recorded { IsRecorded (P.did parking.now) pass.old (Give X 1) pass.new }
        ensures loses { holds pass.new + 1 ≡ holds pass.old }
    {
        let mut lent = Slot::Lent(PhantomData);
        self.give(rt, parking, pass, &mut lent);
    }
}
