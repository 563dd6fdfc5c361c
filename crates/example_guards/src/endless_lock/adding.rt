//! The number, and the threads that add to it.
ghost use Rattle.std.specs.Prelude.{◌≡◌, true};
ghost use Rattle.history.specs.Object.{is_lock};
ghost use Rattle.monitor.specs.Calling.{CanCall};
ghost use Rattle.monitor.specs.Stepping.{IsSame};
ghost use Rattle.monitor_fronts.specs.Holding.{holds};

use history::fault::Fault;
use monitor::Pass;
use monitor_fronts::ReentrantLock;
use permit::ThreadParking;
use std::sync::Wait;
use std::sync::atomic::{AtomicU64, Ordering};
use std::time::Clock;

/// A number that only the owner of the lock changes, and the turns that ended with a fault.
#[derive(Drop)]
pub struct Sum {
    number: AtomicU64,
    faults: AtomicU64,
}

impl Sum {
    pub fn new() -> Self {
        Sum {
            number: AtomicU64::new(0),
            faults: AtomicU64::new(0),
        }
    }

    /// Adds one by a read and a write. Two threads that do so at once lose one of the two.
    fn add_one(&self) {
        let number = self.number.load(Ordering::SeqCst);
        self.number.store(number.wrapping_add(1), Ordering::SeqCst);
    }

    fn count_fault(&self) {
        self.faults.fetch_add(1, Ordering::SeqCst);
    }

    pub fn number(&self) -> u64 {
        self.number.load(Ordering::SeqCst)
    }

    pub fn faults(&self) -> u64 {
        self.faults.load(Ordering::SeqCst)
    }
}

/// Adds one under the lock. If it isn't acquired, nothing is added. Nothing more is held afterwards.
fn turn<R: Wait + Clock>(
    rt: &R,
    parking: &ThreadParking,
    lock: &ReentrantLock,
    sum: &Sum,
    pass: &mut Pass,
) -> Result<(), Fault>
    requires can { CanCall lock.now.monitor.now parking.now pass.old }
    requires lock { is_lock lock.now.monitor.now.header.object ≡ true }
    ensures same { IsSame pass.old pass.new }
    ensures keeps { holds pass.new ≡ holds pass.old }
{
    lock.lock(rt, parking, pass)?;
    sum.add_one();
    match lock.unlock(rt, parking, pass) {
        Ok(()) => Ok(()),
        Err(_) => unreachable!(),
    }
}

/// Takes all turns of one thread. One that ends with a fault is counted, and is the last.
pub fn work<R: Wait + Clock>(
    rt: &R,
    parking: &ThreadParking,
    lock: &ReentrantLock,
    sum: &Sum,
    pass: Pass,
    turns: u64,
) -> Pass
    requires can { CanCall lock.now.monitor.now parking.now pass }
    requires lock { is_lock lock.now.monitor.now.header.object ≡ true }
    ensures same { IsSame pass result }
    ensures keeps { holds result ≡ holds pass }
{
    let mut worker = pass;
    for _ in 0..turns {
        if turn(rt, parking, lock, sum, &mut worker).is_err() {
            sum.count_fault();
            break;
        }
    }
    worker
}
