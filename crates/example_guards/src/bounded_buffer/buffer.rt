//! The buffer, and the two threads at it.
ghost use Rattle.std.specs.Prelude.{◌≡◌, ◌<◌, true, IfOk};
ghost use Rattle.history.specs.Object.{is_lock};
ghost use Rattle.monitor.specs.Calling.{CanCall};
ghost use Rattle.monitor.specs.Stepping.{IsSame};
ghost use Rattle.monitor_fronts.specs.Holding.{holds};

use history::fault::Fault;
use monitor::Pass;
use monitor_fronts::ReentrantLock;
use permit::Parking;
use std::sync::Wait;
use std::sync::atomic::{AtomicBool, AtomicU64, Ordering};
use std::time::Clock;

/// The condition on which threads wait for a free place.
const NOT_FULL: u8 = 0;

/// The condition on which threads wait for an item.
const NOT_EMPTY: u8 = 1;

/// The most milliseconds that a thread waits before it looks whether the other one has stopped.
const MOMENT: u32 = 100;

const PLACES: u64 = 2;

/// Items in the order in which they were put. Only the owner of the lock reads and writes them. No contract
/// says so: the module `buffer` has a lock that guards its buffer.
#[derive(Drop)]
pub struct Buffer {
    places: [AtomicU64; 2],
    put: AtomicU64,
    taken: AtomicU64,
    stopped: AtomicBool,
}

impl Buffer {
    pub fn new() -> Self {
        Buffer {
            places: [AtomicU64::new(0), AtomicU64::new(0)],
            put: AtomicU64::new(0),
            taken: AtomicU64::new(0),
            stopped: AtomicBool::new(false),
        }
    }

    /// Says that a thread has stopped, so that the other one doesn't wait for it.
    fn stop(&self) {
        self.stopped.store(true, Ordering::SeqCst);
    }

    fn has_stopped(&self) -> bool {
        self.stopped.load(Ordering::SeqCst)
    }

    fn len(&self) -> u64 {
        let taken = self.taken.load(Ordering::SeqCst);
        self.put.load(Ordering::SeqCst).wrapping_sub(taken)
    }

    fn push(&self, item: u64) {
        let place = self.put.fetch_add(1, Ordering::SeqCst) % PLACES;
        self.places[place as usize].store(item, Ordering::SeqCst);
    }

    fn pop(&self) -> u64 {
        let place = self.taken.fetch_add(1, Ordering::SeqCst) % PLACES;
        self.places[place as usize].load(Ordering::SeqCst)
    }
}

/// Waits for a free place, and puts an item there, as the owner of the lock. Returns false if the other
/// thread has stopped.
fn put_alone<P: Parking, R: Wait + Clock>(
    rt: &R,
    parking: &P,
    lock: &ReentrantLock,
    buffer: &Buffer,
    pass: &mut Pass,
    item: u64,
) -> Result<bool, Fault>
    requires can { CanCall lock.now.monitor.now (P.seats parking.now) pass.old }
    ensures same { IsSame pass.old pass.new }
    ensures keeps { holds pass.new ≡ holds pass.old }
{
    for _ in rt.forever() {
        if buffer.len() < PLACES {
            buffer.push(item);
            lock.signal(rt, parking, pass, NOT_EMPTY)?;
            return Ok(true);
        }
        if buffer.has_stopped() {
            return Ok(false);
        }
        lock.wait_for(rt, parking, pass, NOT_FULL, MOMENT)?;
    }
    unreachable!()
}

/// Waits for an item, and takes it, as the owner of the lock. Returns None if the other thread has stopped.
fn take_alone<P: Parking, R: Wait + Clock>(
    rt: &R,
    parking: &P,
    lock: &ReentrantLock,
    buffer: &Buffer,
    pass: &mut Pass,
) -> Result<Option<u64>, Fault>
    requires can { CanCall lock.now.monitor.now (P.seats parking.now) pass.old }
    ensures same { IsSame pass.old pass.new }
    ensures keeps { holds pass.new ≡ holds pass.old }
{
    for _ in rt.forever() {
        if buffer.len() > 0 {
            let item = buffer.pop();
            lock.signal(rt, parking, pass, NOT_FULL)?;
            return Ok(Some(item));
        }
        if buffer.has_stopped() {
            return Ok(None);
        }
        lock.wait_for(rt, parking, pass, NOT_EMPTY, MOMENT)?;
    }
    unreachable!()
}

/// Puts an item under the lock, unless the other thread has stopped. It unlocks also after a fault.
fn put<P: Parking, R: Wait + Clock>(
    rt: &R,
    parking: &P,
    lock: &ReentrantLock,
    buffer: &Buffer,
    pass: &mut Pass,
    item: u64,
) -> Result<bool, Fault>
    requires can { CanCall lock.now.monitor.now (P.seats parking.now) pass.old }
    requires lock { is_lock lock.now.monitor.now.header.object ≡ true }
    ensures same { IsSame pass.old pass.new }
    ensures keeps { holds pass.new ≡ holds pass.old }
{
    lock.lock(rt, parking, pass)?;
    let outcome = put_alone(rt, parking, lock, buffer, pass, item);
    match lock.unlock(rt, parking, pass) {
        Ok(()) => outcome,
        Err(_) => unreachable!(),
    }
}

/// Takes an item under the lock, unless the other thread has stopped. It unlocks also after a fault.
fn take<P: Parking, R: Wait + Clock>(
    rt: &R,
    parking: &P,
    lock: &ReentrantLock,
    buffer: &Buffer,
    pass: &mut Pass,
) -> Result<Option<u64>, Fault>
    requires can { CanCall lock.now.monitor.now (P.seats parking.now) pass.old }
    requires lock { is_lock lock.now.monitor.now.header.object ≡ true }
    ensures same { IsSame pass.old pass.new }
    ensures keeps { holds pass.new ≡ holds pass.old }
{
    lock.lock(rt, parking, pass)?;
    let outcome = take_alone(rt, parking, lock, buffer, pass);
    match lock.unlock(rt, parking, pass) {
        Ok(()) => outcome,
        Err(_) => unreachable!(),
    }
}

/// Puts the numbers from 1 to `items`. A fault ends it, and then the other thread stops too.
pub fn produce<P: Parking, R: Wait + Clock>(
    rt: &R,
    parking: &P,
    lock: &ReentrantLock,
    buffer: &Buffer,
    pass: Pass,
    items: u64,
) -> Result<Pass, Fault>
    requires can { CanCall lock.now.monitor.now (P.seats parking.now) pass }
    requires lock { is_lock lock.now.monitor.now.header.object ≡ true }
    ensures { IfOk result (IsSame pass) }
{
    let mut pass = pass;
    for item in 1..=items {
        match put(rt, parking, lock, buffer, &mut pass, item) {
            Ok(true) => {}
            Ok(false) => return Ok(pass),
            Err(fault) => {
                buffer.stop();
                return Err(fault);
            }
        }
    }
    Ok(pass)
}

/// Takes `items` numbers, and adds them up. A fault ends it, and then the other thread stops too.
pub fn consume<P: Parking, R: Wait + Clock>(
    rt: &R,
    parking: &P,
    lock: &ReentrantLock,
    buffer: &Buffer,
    pass: Pass,
    items: u64,
) -> Result<(Pass, u64), Fault>
    requires can { CanCall lock.now.monitor.now (P.seats parking.now) pass }
    requires lock { is_lock lock.now.monitor.now.header.object ≡ true }
    ensures { IfOk result (λ r. IsSame pass r.0) }
{
    let mut pass = pass;
    let mut sum = 0u64;
    for _ in 0..items {
        match take(rt, parking, lock, buffer, &mut pass) {
            Ok(Some(item)) => sum = sum.saturating_add(item),
            Ok(None) => return Ok((pass, sum)),
            Err(fault) => {
                buffer.stop();
                return Err(fault);
            }
        }
    }
    Ok((pass, sum))
}
