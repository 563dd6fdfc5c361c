//! How items are acquired from a pool, and released into it.
ghost use Rattle.std.specs.Prelude.{◌⊎◌, ◌≡◌, ◌<◌, ◌^◌, ◌∷◌, [], All, IfErr, IfOk, IfSome, length};
ghost use Rattle.guarded.specs.Below.{CanCall, Called, Interruptible, Plain, Timed, LastsUntil, with_yes, DrainsFree};
ghost use Rattle.guarded.specs.Asking.{CallReturns, yes_if_some};
ghost use Rattle.guarded.specs.Pooling.{DrainReturns, IsReleased, drains, fetches, gives_back, how_many};
ghost use Rattle.guarded.specs.Pooling.{tries_fetch, without_items};

use crate::asking::PoolCall;
use crate::{Keeps, Pool, Shelf};
use history::fault::Fault;
use history::step::Step;
use monitor::{How, Pass};
use monitor_fronts::{enter_in_room, milliseconds_left, number, whether};
use permit::Parking;
use std::alloc::Global;
use std::collections::LinkedList;
use std::marker::PhantomData;
use std::sync::Wait;
use std::time::Clock;

/// Each acquire returns as many items as were asked for. After an `Err` or a `None` the pool has all items
/// that it had. `HistoryFull` and `TrimFull` come as `WhenFull` says, `OutOfMemory` if memory for
/// the history is refused, `BadAmount` above 2147483647, and `Interrupted` from methods that say so.
impl<T: Drop, I: Keeps<T>> Pool<T, I> {
    /// Waits until the pool has `n` items, or is interrupted: `Err(Interrupted)`, also if an interrupt was
    /// pending. The interrupt is taken. This is `Semaphore.acquire(permits)`.
    pub fn acquire<P: Parking, R: Wait + Clock>(
        &self,
        rt: &R,
        parking: &P,
        pass: &mut Pass,
        n: u32,
    ) -> Result<LinkedList<T>, Fault>
        requires can { CanCall self.now.lock (P.seats parking.now) pass.old }
        ensures called { Called pass.old pass.new }
        ensures items { IfOk result (λ items. length items ≡ n) }
        ensures kept { IfOk result (λ items. All I.invariant items) }
        ensures returned { CallReturns self.now.when_full (fetches (P.did parking.now) n Interruptible)
            pass.old pass.new (with_yes result) }
    {
        self.fetch(rt, parking, pass, n, How::Interruptible)
    }

    /// The same, but an interrupt doesn't end the wait, and stays pending. This is
    /// `Semaphore.acquireUninterruptibly(permits)`.
    pub fn acquire_uninterruptibly<P: Parking, R: Wait + Clock>(
        &self,
        rt: &R,
        parking: &P,
        pass: &mut Pass,
        n: u32,
    ) -> Result<LinkedList<T>, Fault>
        requires can { CanCall self.now.lock (P.seats parking.now) pass.old }
        ensures called { Called pass.old pass.new }
        ensures items { IfOk result (λ items. length items ≡ n) }
        ensures kept { IfOk result (λ items. All I.invariant items) }
        ensures returned { CallReturns
            self.now.when_full (fetches (P.did parking.now) n Plain) pass.old pass.new (with_yes result) }
    {
        self.fetch(rt, parking, pass, n, How::Plain)
    }

    /// Acquires `n` items if the pool has them now. It overtakes waiters, under a fair policy too, but not
    /// under a strict one. This is `Semaphore.tryAcquire(permits)`.
    pub fn try_acquire<P: Parking, R: Wait + Clock>(
        &self,
        rt: &R,
        parking: &P,
        pass: &mut Pass,
        n: u32,
    ) -> Result<Option<LinkedList<T>>, Fault>
        requires can { CanCall self.now.lock (P.seats parking.now) pass.old }
        ensures called { Called pass.old pass.new }
        ensures items { IfOk result (λ got. IfSome got (λ items. length items ≡ n)) }
        ensures kept { IfOk result (λ got. IfSome got (λ items. All I.invariant items)) }
        ensures returned { CallReturns
            self.now.when_full (tries_fetch (P.did parking.now) n) pass.old pass.new (yes_if_some result) }
    {
        self.take(rt, parking, pass, PoolCall::Try(n))
    }

    /// Waits for `n` items, for `ms` milliseconds at most, or until it is interrupted. With 0 it doesn't wait,
    /// and under a fair or strict policy it doesn't overtake waiters. This is
    /// `Semaphore.tryAcquire(permits, timeout, unit)`.
    pub fn try_acquire_for<P: Parking, R: Wait + Clock>(
        &self,
        rt: &R,
        parking: &P,
        pass: &mut Pass,
        n: u32,
        ms: u32,
    ) -> Result<Option<LinkedList<T>>, Fault>
        requires can { CanCall self.now.lock (P.seats parking.now) pass.old }
        ensures called { Called pass.old pass.new }
        ensures items { IfOk result (λ got. IfSome got (λ items. length items ≡ n)) }
        ensures kept { IfOk result (λ got. IfSome got (λ items. All I.invariant items)) }
        ensures returned { CallReturns self.now.when_full
            (fetches (P.did parking.now) n (Timed ms)) pass.old pass.new (yes_if_some result) }
    {
        self.take(rt, parking, pass, PoolCall::Acquire(n, How::Timed(ms)))
    }

    /// [`try_acquire_for`](Pool::try_acquire_for) until a moment on the clock of the parking, which
    /// `parking.now(rt)` shows. If that moment has come, the call doesn't wait.
    pub fn try_acquire_until<P: Parking, R: Wait + Clock>(
        &self,
        rt: &R,
        parking: &P,
        pass: &mut Pass,
        n: u32,
        moment: u64,
    ) -> Result<Option<LinkedList<T>>, Fault>
        requires can { CanCall self.now.lock (P.seats parking.now) pass.old }
        ensures called { Called pass.old pass.new }
        ensures items { IfOk result (λ got. IfSome got (λ items. length items ≡ n)) }
        ensures kept { IfOk result (λ got. IfSome got (λ items. All I.invariant items)) }
        ensures returned { LastsUntil (P.did parking.now) moment (λ how. CallReturns self.now.when_full
            (fetches (P.did parking.now) n how) pass.old pass.new (yes_if_some result)) }
    {
        let ms = milliseconds_left(rt, parking, moment);
        self.try_acquire_for(rt, parking, pass, n, ms)
    }

    /// Takes all items that the pool has now, perhaps none. It overtakes waiters, under each policy. This is
    /// `Semaphore.drainPermits()`.
    pub fn drain<P: Parking, R: Wait + Clock>(
        &self,
        rt: &R,
        parking: &P,
        pass: &mut Pass,
    ) -> Result<LinkedList<T>, Fault>
        requires can { CanCall self.now.lock (P.seats parking.now) pass.old }
        ensures called { Called pass.old pass.new }
        ensures returned { DrainReturns self.now.when_full (drains (P.did parking.now)) pass.old pass.new
            (how_many result) }
        ensures all { DrainsFree pass.old (how_many result) pass.new }
        ensures kept { IfOk result (λ items. All I.invariant items) }
    {
        let mut shelf = Shelf {
            items: LinkedList::new(self.alloc),
            keeps: PhantomData,
        };
        let reply = enter_in_room(
            &self.monitor,
            rt,
            parking,
            pass,
            &mut shelf,
            Step::Drain,
            self.when_full,
        );
        match number(reply) {
            Ok(_) => {
                let Shelf { items, keeps: _ } = shelf;
                Ok(items)
            }
            Err(fault) => {
                shelf.put_away();
                Err(fault)
            }
        }
    }

    /// Puts the items into the pool. If it fails, it returns them with the fault: `HistoryFull`, `TrimFull` and
    /// `OutOfMemory` as above, `TooManyPermits` if more than 2147483647 permits would be free, and `BadAmount`
    /// for more than that at once. This is `Semaphore.release(permits)`.
    pub fn release<P: Parking, R: Wait + Clock>(
        &self,
        rt: &R,
        parking: &P,
        pass: &mut Pass,
        items: LinkedList<T>,
    ) -> Result<(), (LinkedList<T>, Fault)>
        requires can { CanCall self.now.lock (P.seats parking.now) pass.old }
        requires few { length items < 2 ^ 32 }
        requires kept { All I.invariant items }
        ensures called { Called pass.old pass.new }
        ensures back { IfErr result (λ e. e.0 ≡ items) }
        ensures returned { CallReturns self.now.when_full (gives_back (P.did parking.now) (length items))
            pass.old pass.new (without_items result) }
    {
        let n = items.len() as u32;
        let mut shelf = Shelf {
            items,
            keeps: PhantomData,
        };
        let reply = self.call(rt, parking, pass, &mut shelf, PoolCall::Release(n));
        match whether(reply) {
            Ok(true) => {
                shelf.put_away();
                Ok(())
            }
            Ok(false) => unreachable!(),
            Err(fault) => {
                let Shelf { items, keeps: _ } = shelf;
                Err((items, fault))
            }
        }
    }
}

/// The same with one item.
impl<T: Drop, I: Keeps<T>> Pool<T, I> {
    /// [`acquire`](Pool::acquire) of one item.
    pub fn acquire_one<P: Parking, R: Wait + Clock>(
        &self,
        rt: &R,
        parking: &P,
        pass: &mut Pass,
    ) -> Result<T, Fault>
        requires can { CanCall self.now.lock (P.seats parking.now) pass.old }
        ensures called { Called pass.old pass.new }
        ensures kept { IfOk result (λ item. I.invariant item) }
        ensures returned { CallReturns self.now.when_full (fetches (P.did parking.now) 1 Interruptible)
            pass.old pass.new (with_yes result) }
    {
        match self.acquire(rt, parking, pass, 1) {
            Ok(items) => Ok(only::<T, I>(items)),
            Err(fault) => Err(fault),
        }
    }

    /// [`try_acquire`](Pool::try_acquire) of one item.
    pub fn try_acquire_one<P: Parking, R: Wait + Clock>(
        &self,
        rt: &R,
        parking: &P,
        pass: &mut Pass,
    ) -> Result<Option<T>, Fault>
        requires can { CanCall self.now.lock (P.seats parking.now) pass.old }
        ensures called { Called pass.old pass.new }
        ensures kept { IfOk result (λ got. IfSome got (λ item. I.invariant item)) }
        ensures returned { CallReturns
            self.now.when_full (tries_fetch (P.did parking.now) 1) pass.old pass.new (yes_if_some result) }
    {
        match self.try_acquire(rt, parking, pass, 1) {
            Ok(Some(items)) => Ok(Some(only::<T, I>(items))),
            Ok(None) => Ok(None),
            Err(fault) => Err(fault),
        }
    }

    /// [`try_acquire_for`](Pool::try_acquire_for) of one item.
    pub fn try_acquire_one_for<P: Parking, R: Wait + Clock>(
        &self,
        rt: &R,
        parking: &P,
        pass: &mut Pass,
        ms: u32,
    ) -> Result<Option<T>, Fault>
        requires can { CanCall self.now.lock (P.seats parking.now) pass.old }
        ensures called { Called pass.old pass.new }
        ensures kept { IfOk result (λ got. IfSome got (λ item. I.invariant item)) }
        ensures returned { CallReturns self.now.when_full
            (fetches (P.did parking.now) 1 (Timed ms)) pass.old pass.new (yes_if_some result) }
    {
        match self.try_acquire_for(rt, parking, pass, 1, ms) {
            Ok(Some(items)) => Ok(Some(only::<T, I>(items))),
            Ok(None) => Ok(None),
            Err(fault) => Err(fault),
        }
    }

    /// [`try_acquire_until`](Pool::try_acquire_until) of one item.
    pub fn try_acquire_one_until<P: Parking, R: Wait + Clock>(
        &self,
        rt: &R,
        parking: &P,
        pass: &mut Pass,
        moment: u64,
    ) -> Result<Option<T>, Fault>
        requires can { CanCall self.now.lock (P.seats parking.now) pass.old }
        ensures called { Called pass.old pass.new }
        ensures kept { IfOk result (λ got. IfSome got (λ item. I.invariant item)) }
        ensures returned { LastsUntil (P.did parking.now) moment (λ how. CallReturns self.now.when_full
            (fetches (P.did parking.now) 1 how) pass.old pass.new (yes_if_some result)) }
    {
        let ms = milliseconds_left(rt, parking, moment);
        self.try_acquire_one_for(rt, parking, pass, ms)
    }

    /// [`release`](Pool::release) of one item. It takes memory for the item's node first: `OutOfMemory` if
    /// that is refused, and then nothing was recorded.
    pub fn release_one<P: Parking, R: Wait + Clock>(
        &self,
        rt: &R,
        parking: &P,
        pass: &mut Pass,
        item: T,
    ) -> Result<(), (T, Fault)>
        requires can { CanCall self.now.lock (P.seats parking.now) pass.old }
        requires kept { I.invariant item }
        ensures called { Called pass.old pass.new ⊎ (pass.new ≡ pass.old) }
        ensures back { IfErr result (λ e. e.0 ≡ item) }
        ensures returned { IsReleased self.now.when_full (gives_back (P.did parking.now) 1) pass.old
            pass.new result }
    {
        let items = match list_of(self.alloc, item) {
            Ok(items) => items,
            Err(item) => return Err((item, Fault::OutOfMemory)),
        };
        match self.release(rt, parking, pass, items) {
            Ok(()) => Ok(()),
            Err((items, fault)) => Err((only::<T, I>(items), fault)),
        }
    }
}

// A list of one item. If memory for its node is refused, it returns the item.
fn list_of<T>(alloc: Global, item: T) -> Result<LinkedList<T>, T>
    ensures ok { IfOk result (λ items. items ≡ item ∷ []) }
    ensures err { IfErr result (λ back. back ≡ item) }
{
    let mut items = LinkedList::new(alloc);
    match items.push_back(item) {
        Ok(()) => Ok(items),
        Err(refused) => {
            items.destroy_empty();
            Err(refused.value)
        }
    }
}

// The one item of a list.
fn only<T: Drop, I: Keeps<T>>(items: LinkedList<T>) -> T
    requires one { length items ≡ 1 }
    requires kept { All I.invariant items }
    ensures is { items ≡ result ∷ [] }
    ensures kept { I.invariant result }
{
    let mut items = items;
    let Some(item) = items.pop_front() else {
        unreachable!()
    };
    items.destroy_empty();
    item
}
