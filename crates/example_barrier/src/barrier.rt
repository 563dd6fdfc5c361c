//! A barrier: a synchroniser of one's own, made of a lock that guards a value, and of one condition.
ghost use Rattle.std.specs.Prelude.{◌≡◌, ◌≤◌, ◌<◌, ◌==◌, false, All, IfOk};
ghost use Rattle.locks.specs.Calling.{CanLock, holds};
ghost use Rattle.locks.specs.Lawful.{blank};
ghost use Rattle.locks.specs.Shown.{opening_passes};

use crate::gathering::Gathering;
use locks::{Fault, Mutex, Parking, Pass, Policy, WhenFull};
use std::alloc::Global;
use std::sync::Wait;
use std::time::Clock;

/// The condition on which threads wait until the last one has arrived.
const GATHERED: u8 = 0;

/// The most entries of the history, which is folded when it is full.
const CAP: u32 = 1024;

/// The number of the gathering at which a thread arrived, and that of the one which was going when the thread went on.
/// They differ: no thread goes on before its gathering has ended.
#[derive(Drop)]
pub struct Passage {
    arrived: u64,
    left: u64,
    was_last: bool,
    ghost ended: { (arrived == left) ≡ false },
}

impl Passage {
    /// Whether this thread was the last to arrive.
    pub fn was_last(&self) -> bool
        ensures { result ≡ self.now.was_last }
    {
        self.was_last
    }
}

/// Where threads wait for one another, again and again. Unlike `CyclicBarrier` of Java it does not break: a thread
/// that gives up has not arrived, and the others wait for one more.
#[derive(Drop)]
pub struct Barrier {
    lock: Mutex<Gathering>,
}

impl Barrier {
    /// Opens a barrier for this many threads, and a pass for each.
    pub fn open(alloc: Global, parties: u16) -> Result<(Barrier, Vec<Pass>), Fault>
        requires { (0 < parties) × (parties ≤ 256) }
        ensures parties { IfOk result (λ r. r.0.lock.lock.header.seats ≡ parties) }
        ensures passes { IfOk result (λ r.
            r.1.items ≡ opening_passes r.0.lock.lock (blank r.0.lock.lock.header) 0 parties) }
        ensures own { IfOk result (λ r. All (λ p. p.lock ≡ r.0.lock.lock) r.1.items) }
        ensures free { IfOk result (λ r. All (λ p. holds p ≡ 0) r.1.items) }
    {
        let gathering = Gathering::new(parties);
        match Mutex::open(
            alloc,
            gathering,
            Policy::Fair,
            WhenFull::Trim,
            parties,
            1,
            CAP,
        ) {
            Ok((lock, passes)) => Ok((Barrier { lock }, passes)),
            Err((_, fault)) => Err(fault),
        }
    }

    /// Waits until as many threads have arrived as the barrier is for. Returns None if that takes longer than `ms`
    /// milliseconds. After None and after a fault, as `Interrupted`, the thread has not arrived, unless the last one
    /// came at that moment.
    pub fn wait_for<P: Parking, R: Wait + Clock>(
        &self,
        rt: &R,
        parking: &P,
        pass: &mut Pass,
        ms: u32,
    ) -> Result<Option<Passage>, Fault>
        requires { CanLock self.now.lock (P.seats parking.now) pass.old }
        ensures { CanLock self.now.lock (P.seats parking.now) pass.new }
    {
        let mut guard = Mutex::lock(pass, &self.lock, rt, parking)?;
        if guard.value().lacks_one() {
            guard.signal_all(GATHERED)?;
            let (arrived, left) = guard.value_mut().end();
            return Ok(Some(Passage {
                arrived,
                left,
                was_last: true,
            }));
        }
        let arrived = guard.value_mut().arrive();
        for _ in rt.forever() {
            let left = guard.value().number();
            if arrived != left {
                return Ok(Some(Passage {
                    arrived,
                    left,
                    was_last: false,
                }));
            }
            match guard.wait_for(GATHERED, ms) {
                Ok(true) => {}
                Ok(false) => {
                    if guard.value_mut().leave(arrived) {
                        return Ok(None);
                    }
                }
                Err(fault) => {
                    guard.value_mut().leave(arrived);
                    return Err(fault);
                }
            }
        }
        unreachable!()
    }
}
