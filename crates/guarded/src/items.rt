//! A pool lends an item to a closure.
ghost use Rattle.std.specs.Fn.{FnOnceReturnsAtMut};
ghost use Rattle.monitor.specs.Calling.{CanCall, Called};
ghost use Rattle.guarded.specs.LentItems.{IsLent};

use crate::{Keeps, Pool};
use history::fault::Fault;
use monitor::Pass;
use permit::Parking;
use std::sync::Wait;
use std::time::Clock;

/// Why [`Pool::with_item`] failed.
#[derive(Debug, Drop)]
pub enum ItemFault<T, A> {
    /// No item was acquired, and the closure wasn't called.
    NotAcquired(Fault),
    /// The closure returned this answer, and then the item couldn't be released. The item is as the closure left it.
    NotReleased { answer: A, item: T, fault: Fault },
}

impl<T: Drop, I: Keeps<T>> Pool<T, I> {
    /// Acquires an item as [`acquire_one`](Pool::acquire_one) does, lends it to `work`, and releases it as
    /// [`release_one`](Pool::release_one) does. Returns what `work` returned.
    ///
    /// `work` gets an item that meets the pool's invariant, and must leave one that does.
    ///
    /// The release may lack room or memory. Then [`ItemFault::NotReleased`] has the item, which isn't in the pool.
    pub fn with_item<P: Parking, R: Wait + Clock, A, F: FnOnce(&mut T) -> A>(
        &self,
        rt: &R,
        parking: &P,
        pass: &mut Pass,
        work: F,
    ) -> Result<A, ItemFault<T, A>>
        requires can { CanCall self.now.lock (P.seats parking.now) pass.old }
        requires callable { F.IsAlwaysCallable work }
        requires kept { (before : T) (answer : A) (after : T) → I.invariant before
            → FnOnceReturnsAtMut F.FnOnce work before answer after → I.invariant after }
        ensures called { Called pass.old pass.new }
        ensures lent { IsLent self.now.when_full (P.did parking.now)
            (λ before answer after. I.invariant before × FnOnceReturnsAtMut F.FnOnce work before answer after)
            pass.old pass.new result }
    {
        let mut item = match self.acquire_one(rt, parking, pass) {
            Ok(item) => item,
            Err(fault) => return Err(ItemFault::NotAcquired(fault)),
        };
        let answer = work(&mut item);
        match self.release_one(rt, parking, pass, item) {
            Ok(()) => Ok(answer),
            Err((item, fault)) => Err(ItemFault::NotReleased {
                answer,
                item,
                fault,
            }),
        }
    }
}
