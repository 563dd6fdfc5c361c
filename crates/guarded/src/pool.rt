//! A semaphore that has an item for each free permit.
ghost use Rattle.std.specs.Prelude.{◌≡◌, ◌<◌, ◌≤◌, ◌^◌, All, IfErr, IfOk, IfSome, ℕ, length, pos};
ghost use Rattle.guarded.specs.Below.{IsOpened, semaphore_of, header_of, counts, start_on, IsInRange, OutOfMemory, Semaphore, NonFair, CanCall, Called, is_timed, Closes, IsMissing, MissingPass, Trim, whether_of, with_yes};
ghost use Rattle.guarded.specs.Asking.{CallReturns, Opened, yes_if_some};
ghost use Rattle.guarded.specs.Pooling.{Answers, fetches};
ghost use Rattle.guarded.specs.inner.Pooling.{Ends, asked_by, brought_by, pool_call};
ghost use Rattle.guarded.specs.Shelved.{Lies};

use crate::asking::PoolCall;
use crate::options::CAP;
use crate::{Any, Keeps, Shelf, View};
use counting::semaphore::SemaphoreHooks;
use history::entry::{Entry, Mode};
use history::fault::Fault;
use history::header::Policy;
use history::step::Step;
use monitor::{CloseFault, Closed, How, Monitor, Pass, Request};
use monitor_fronts::{WhenFull, call_in_room, enter_in_room, whether};
use permit::Parking;
use std::alloc::Global;
use std::collections::LinkedList;
use std::marker::{Model, PhantomData};
use std::sync::Wait;
use std::time::Clock;

/// Items that threads share: `java.util.concurrent.Semaphore` of Java SE 8 with an item for each permit. The thread
/// that acquired an item owns it. A pass stands for a thread. A contract sees which semaphore it is, with its
/// header, and what it does if its history is full.
///
/// The pool always has as many items as permits are free. An item that was acquired may be given to another thread,
/// and any pass may release it. An item that is dropped is gone from the pool.
///
/// `I` is the invariant that the pool keeps of each item ([`Keeps`]), or [`Any`] for none.
///
/// The item that was released last is acquired first. Items come and go as a `LinkedList`, which moves
/// without memory. An acquire takes time for each item, a release doesn't.
#[derive(Drop)]
pub struct Pool<T: Drop, I: Keeps<T> = Any> {
    pub(crate) monitor: Monitor<SemaphoreHooks, Shelf<T, I>>,
    pub(crate) when_full: WhenFull,
    pub(crate) alloc: Global,
}

impl<T: Drop, I: Keeps<T>> Model for Pool<T, I> {
    ghost use Rattle.guarded.specs.Shelved.{IsOfSemaphore};
    ghost use Rattle.guarded.specs.Stowed.{MutexView, mutex_view};

    ghost Value = { MutexView };

    ghost view = { λ m. mutex_view m.monitor m.when_full };

    ghost invariant = { λ m. IsOfSemaphore m.monitor };
}

impl<T: Drop> Pool<T> {
    /// Opens a pool of these items, for this many threads. Returns a pass for each thread too, in order, as in
    /// `let (pool, passes) = Pool::new(alloc, items, 2)?;`.
    ///
    /// The pool isn't fair. It keeps at most 4096 entries, and folds them if it finds no room. [`open`](Pool::open)
    /// takes other choices. If memory is refused, the items are dropped; `open` returns them.
    pub fn new(
        alloc: Global,
        items: LinkedList<T>,
        seats: u16,
    ) -> Result<(Pool<T>, Vec<Pass>), Fault>
        requires some { 1 ≤ seats }
        requires few { seats ≤ 256 }
        requires items { length items < 2 ^ 31 }
        ensures opened { IfOk result (λ r. Opened (Semaphore NonFair (pos (length items))) Trim seats
            0 4096 r.0 r.1.items) }
        ensures err { IfErr result (λ fault. fault ≡ OutOfMemory) }
    {
        match Pool::open(alloc, items, Policy::NonFair, WhenFull::Trim, seats, CAP) {
            Ok((pool, passes)) => Ok((pool, passes)),
            Err((_items, fault)) => Err(fault),
        }
    }

    /// Opens a pool of these items, with a permit for each. Returns a pass for each seat too, in order. `cap` is the
    /// greatest number of entries of its history, owed ones included. If memory is refused, it returns the items.
    pub fn open(
        alloc: Global,
        items: LinkedList<T>,
        policy: Policy,
        when_full: WhenFull,
        seats: u16,
        cap: u32,
    ) -> Result<(Pool<T>, Vec<Pass>), (LinkedList<T>, Fault)>
        requires { IsInRange (header_of (Semaphore policy (pos (length items))) seats 0 cap) }
        ensures opened { IfOk result (λ r. Opened (Semaphore policy (pos (length items))) when_full seats
            0 cap r.0 r.1.items) }
        ensures back { IfErr result (λ e. (e.0 ≡ items) × (e.1 ≡ OutOfMemory)) }
    {
        Pool::open_keeping(alloc, items, policy, when_full, seats, cap)
    }
}

/// A pool that keeps an invariant of each item.
impl<T: Drop, I: Keeps<T>> Pool<T, I> {
    /// [`new`](Pool::new) of a pool that keeps an invariant, which each item meets.
    pub fn new_keeping(
        alloc: Global,
        items: LinkedList<T>,
        seats: u16,
    ) -> Result<(Pool<T, I>, Vec<Pass>), Fault>
        requires some { 1 ≤ seats }
        requires few { seats ≤ 256 }
        requires items { length items < 2 ^ 31 }
        requires kept { All I.invariant items }
        ensures opened { IfOk result (λ r. Opened (Semaphore NonFair (pos (length items))) Trim seats
            0 4096 r.0 r.1.items) }
        ensures err { IfErr result (λ fault. fault ≡ OutOfMemory) }
    {
        match Pool::open_keeping(alloc, items, Policy::NonFair, WhenFull::Trim, seats, CAP) {
            Ok((pool, passes)) => Ok((pool, passes)),
            Err((_items, fault)) => Err(fault),
        }
    }

    /// [`open`](Pool::open) of a pool that keeps an invariant, which each item meets.
    pub fn open_keeping(
        alloc: Global,
        items: LinkedList<T>,
        policy: Policy,
        when_full: WhenFull,
        seats: u16,
        cap: u32,
    ) -> Result<(Pool<T, I>, Vec<Pass>), (LinkedList<T>, Fault)>
        requires range { IsInRange (header_of (Semaphore policy (pos (length items))) seats 0 cap) }
        requires kept { All I.invariant items }
        ensures opened { IfOk result (λ r. Opened (Semaphore policy (pos (length items))) when_full seats
            0 cap r.0 r.1.items) }
        ensures back { IfErr result (λ e. (e.0 ≡ items) × (e.1 ≡ OutOfMemory)) }
    {
        let hooks = hooks_for(policy, &items);
        let shelf = Shelf {
            items,
            keeps: PhantomData,
        };
        match Monitor::open_with(alloc, hooks, shelf, seats, 0, cap) {
            Ok((monitor, passes)) => Ok((
                Pool {
                    monitor,
                    when_full,
                    alloc,
                },
                passes,
            )),
            Err((shelf, fault)) => {
                let Shelf { items, keeps: _ } = shelf;
                Err((items, fault))
            }
        }
    }
}

impl<T: Drop, I: Keeps<T>> Pool<T, I> {
    /// Ends the pool, after the calls that are under way. Returns the history, and the items of the pool: one for
    /// each free permit. Each meets the pool's invariant. The other items are with the threads that acquired them.
    ///
    /// The passes of all seats are needed, in any order. If one is missing, it returns the pool and the passes as
    /// they were.
    pub fn close<R: Wait>(
        self,
        rt: &R,
        passes: Vec<Pass>,
    ) -> Result<(Closed, LinkedList<T>), (Pool<T, I>, Vec<Pass>, CloseFault)>
        requires is_of { All (λ p. p.lock ≡ self.lock) passes.items }
        ensures items { IfOk result (λ r.
            Lies r.1 (counts (start_on self.lock.header r.0.history) r.0.history.entries)) }
        ensures each { IfOk result (λ r. pos (length r.1) ≡ r.0.balance.available) }
        ensures kept { IfOk result (λ r. All I.invariant r.1) }
        ensures closes { IfOk result (λ r. Closes self.lock passes.items r.0) }
        ensures missing { IfErr result (λ r.
            (r.2 ≡ MissingPass) × IsMissing self.lock.header.seats passes.items) }
        ensures back { IfErr result (λ r. (r.0 ≡ self) × (r.1 ≡ passes)) }
    {
        let Pool {
            monitor,
            when_full,
            alloc,
        } = self;
        match monitor.close_with(rt, passes) {
            Ok((closed, shelf)) => {
                let Shelf { items, keeps: _ } = shelf;
                Ok((closed, items))
            }
            Err((monitor, passes, fault)) => Err((
                Pool {
                    monitor,
                    when_full,
                    alloc,
                },
                passes,
                fault,
            )),
        }
    }

    /// Returns a view of the pool, which shows how many items it has and who waits, and which trims its history.
    pub fn view(&self) -> View<'_, SemaphoreHooks, Shelf<T, I>>
        ensures { result.monitor.now ≡ self.now.lock }
    {
        View::of(&self.monitor)
    }
}

/// The parts of all calls.
impl<T: Drop, I: Keeps<T>> Pool<T, I> {
    // A call. The shelf has as many items as the call releases.
    pub(crate) fn call<P: Parking, R: Wait + Clock>(
        &self,
        rt: &R,
        parking: &P,
        pass: &mut Pass,
        shelf: &mut Shelf<T, I>,
        asked: PoolCall,
    ) -> Result<Entry, Fault>
        requires can { CanCall self.now.lock (P.seats parking.now) pass.old }
        requires brings { length shelf.old.items ≡ brought_by asked }
        requires kept { All I.invariant shelf.old.items }
        ensures called { Called pass.old pass.new }
        ensures made { pool_call (P.did parking.now) asked self.now.when_full pass.old result pass.new }
        ensures ends { Ends asked (whether_of result) shelf.old shelf.new }
        ensures kept { All I.invariant shelf.new.items }
    {
        let monitor = &self.monitor;
        let when_full = self.when_full;
        match asked {
            PoolCall::Acquire(n, how) => {
                let request = Request::Acquire(Mode::S, n);
                call_in_room(monitor, rt, parking, pass, shelf, request, how, when_full)
            }
            PoolCall::Try(n) => {
                let step = Step::Try(Mode::S, n);
                enter_in_room(&self.monitor, rt, parking, pass, shelf, step, when_full)
            }
            PoolCall::Release(n) => {
                let step = Step::Give(Mode::S, n);
                enter_in_room(&self.monitor, rt, parking, pass, shelf, step, when_full)
            }
        }
    }

    // An acquire or a try. Returns the items, or None if too few were free in time.
    pub(crate) fn take<P: Parking, R: Wait + Clock>(
        &self,
        rt: &R,
        parking: &P,
        pass: &mut Pass,
        asked: PoolCall,
    ) -> Result<Option<LinkedList<T>>, Fault>
        requires can { CanCall self.now.lock (P.seats parking.now) pass.old }
        requires brings { brought_by asked ≡ 0 }
        ensures called { Called pass.old pass.new }
        ensures items { IfOk result (λ got. IfSome got (λ items. length items ≡ asked_by asked)) }
        ensures kept { IfOk result (λ got. IfSome got (λ items. All I.invariant items)) }
        ensures returned { CallReturns
            self.now.when_full (pool_call (P.did parking.now) asked) pass.old pass.new (yes_if_some result) }
        ensures answers { Answers asked (yes_if_some result) }
    {
        let mut shelf = Shelf {
            items: LinkedList::new(self.alloc),
            keeps: PhantomData,
        };
        let reply = self.call(rt, parking, pass, &mut shelf, asked);
        match whether(reply) {
            Ok(true) => {
                let Shelf { items, keeps: _ } = shelf;
                Ok(Some(items))
            }
            Ok(false) => {
                shelf.put_away();
                Ok(None)
            }
            Err(fault) => {
                shelf.put_away();
                Err(fault)
            }
        }
    }

    // An acquire without a timeout.
    pub(crate) fn fetch<P: Parking, R: Wait + Clock>(
        &self,
        rt: &R,
        parking: &P,
        pass: &mut Pass,
        n: u32,
        how: How,
    ) -> Result<LinkedList<T>, Fault>
        requires can { CanCall self.now.lock (P.seats parking.now) pass.old }
        requires untimed { is_timed how → ⊥ }
        ensures called { Called pass.old pass.new }
        ensures items { IfOk result (λ items. length items ≡ n) }
        ensures kept { IfOk result (λ items. All I.invariant items) }
        ensures returned { CallReturns
            self.now.when_full (fetches (P.did parking.now) n how) pass.old pass.new (with_yes result) }
    {
        match self.take(rt, parking, pass, PoolCall::Acquire(n, how)) {
            Ok(Some(items)) => Ok(items),
            Ok(None) => unreachable!(),
            Err(fault) => Err(fault),
        }
    }
}

// The hooks of a semaphore with a permit for each item.
fn hooks_for<T>(policy: Policy, items: &LinkedList<T>) -> SemaphoreHooks
    requires { length items.now < 2 ^ 31 }
    ensures object { semaphore_of result ≡ Semaphore policy (pos (length items.now)) }
    ensures opened { (seats : ℕ) → IsOpened result seats }
{
    SemaphoreHooks::open(policy, items.len() as i32)
}
