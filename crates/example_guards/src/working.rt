//! The two threads at the buffer.
ghost use Rattle.std.specs.Prelude.{◌≡◌, ◌≤◌, IfOk};
ghost use Rattle.monitor.specs.Stepping.{IsSame};
ghost use Rattle.monitor_fronts.specs.Holding.{holds};

use crate::bounded::Bounded;
use guarded::Mutex;
use history::fault::Fault;
use monitor::Pass;
use permit::Parking;
use std::sync::Wait;
use std::sync::atomic::{AtomicBool, Ordering};
use std::time::Clock;

/// The condition on which threads wait for a free place.
const NOT_FULL: u8 = 0;

/// The condition on which threads wait for an item.
const NOT_EMPTY: u8 = 1;

/// The most milliseconds that a wait lasts before it checks whether the other thread has stopped.
const MOMENT: u32 = 100;

/// Waits for a free place, puts an item there, and returns true. Returns false if the other thread has
/// stopped.
fn put<P: Parking, R: Wait + Clock>(
    rt: &R,
    parking: &P,
    lock: &Mutex<Bounded>,
    stop: &AtomicBool,
    pass: &mut Pass,
    item: u64,
) -> Result<bool, Fault>
    requires is_of { pass.old.lock ≡ lock.now.lock }
    requires places { lock.now.lock.header.seats ≤ P.seats parking.now }
    requires free { holds pass.old ≡ 0 }
    ensures same { IsSame pass.old pass.new }
    ensures free { holds pass.new ≡ 0 }
{
    let mut guard = Mutex::lock(pass, lock, rt, parking)?;
    for _ in rt.forever() {
        if !guard.value().is_full() {
            guard.value_mut().push(item)?;
            guard.signal(NOT_EMPTY)?;
            return Ok(true);
        }
        if stop.load(Ordering::SeqCst) {
            return Ok(false);
        }
        guard.wait_for(NOT_FULL, MOMENT)?;
    }
    unreachable!()
}

/// Waits for an item, and takes it. Returns None if the other thread has stopped.
fn take<P: Parking, R: Wait + Clock>(
    rt: &R,
    parking: &P,
    lock: &Mutex<Bounded>,
    stop: &AtomicBool,
    pass: &mut Pass,
) -> Result<Option<u64>, Fault>
    requires is_of { pass.old.lock ≡ lock.now.lock }
    requires places { lock.now.lock.header.seats ≤ P.seats parking.now }
    requires free { holds pass.old ≡ 0 }
    ensures same { IsSame pass.old pass.new }
    ensures free { holds pass.new ≡ 0 }
{
    let mut guard = Mutex::lock(pass, lock, rt, parking)?;
    for _ in rt.forever() {
        if let Some(item) = guard.value_mut().pop() {
            guard.signal(NOT_FULL)?;
            return Ok(Some(item));
        }
        if stop.load(Ordering::SeqCst) {
            return Ok(None);
        }
        guard.wait_for(NOT_EMPTY, MOMENT)?;
    }
    unreachable!()
}

/// Puts the numbers from 1 to `items`. A fault stops the other thread.
pub fn produce<P: Parking, R: Wait + Clock>(
    rt: &R,
    parking: &P,
    lock: &Mutex<Bounded>,
    stop: &AtomicBool,
    pass: Pass,
    items: u64,
) -> Result<Pass, Fault>
    requires is_of { pass.lock ≡ lock.now.lock }
    requires places { lock.now.lock.header.seats ≤ P.seats parking.now }
    requires free { holds pass ≡ 0 }
    ensures { IfOk result (IsSame pass) }
{
    let mut pass = pass;
    for item in 1..=items {
        match put(rt, parking, lock, stop, &mut pass, item) {
            Ok(true) => {}
            Ok(false) => return Ok(pass),
            Err(fault) => {
                stop.store(true, Ordering::SeqCst);
                return Err(fault);
            }
        }
    }
    Ok(pass)
}

/// Takes `items` numbers, and adds them up. A fault stops the other thread.
pub fn consume<P: Parking, R: Wait + Clock>(
    rt: &R,
    parking: &P,
    lock: &Mutex<Bounded>,
    stop: &AtomicBool,
    pass: Pass,
    items: u64,
) -> Result<(Pass, u64), Fault>
    requires is_of { pass.lock ≡ lock.now.lock }
    requires places { lock.now.lock.header.seats ≤ P.seats parking.now }
    requires free { holds pass ≡ 0 }
    ensures { IfOk result (λ r. IsSame pass r.0) }
{
    let mut pass = pass;
    let mut sum = 0u64;
    for _ in 0..items {
        match take(rt, parking, lock, stop, &mut pass) {
            Ok(Some(item)) => sum = sum.saturating_add(item),
            Ok(None) => return Ok((pass, sum)),
            Err(fault) => {
                stop.store(true, Ordering::SeqCst);
                return Err(fault);
            }
        }
    }
    Ok((pass, sum))
}
