//! A first program: a fair lock, and an acquire that gives up after 50 milliseconds.
//!
//! With one thread nobody else holds the lock, so the acquire succeeds at once.

ghost use Rattle.std.specs.Prelude.{◌≡◌, ◌≤◌};

use history::fault::Fault;
use history::header::Policy;
use monitor::Pass;
use monitor_fronts::{ReentrantLock, open_lock};
use permit::{Parking, ThreadParking};
use std::alloc::Global;
use std::io;
use std::sync::Wait;
use std::time::Clock;

/// Enters and leaves, if the lock is free within 50 milliseconds.
fn enter<P: Parking, R: Wait + Clock>(
    rt: &R,
    parking: &P,
    lock: &ReentrantLock,
    pass: &mut Pass,
) -> Result<bool, Fault>
    requires own { pass.old.lock ≡ lock.now.monitor.now }
    requires places { lock.now.monitor.now.header.seats ≤ P.seats parking.now }
{
    let entered = lock.try_lock_for(rt, parking, pass, 50)?;
    if entered {
        lock.unlock(rt, parking, pass)?;
    }
    Ok(entered)
}

fn play<R: Wait + Clock>(rt: &R, alloc: Global) -> Result<bool, Fault> {
    let parking = ThreadParking::open(rt, alloc, 1)?;
    let (monitor, mut passes) = open_lock(alloc, Policy::Fair, 1, 0, 64)?;
    let Some(mut pass) = passes.pop() else {
        unreachable!()
    };
    enter(rt, &parking, &ReentrantLock::of(&monitor), &mut pass)
}

/// Runs the example, and prints whether the lock was acquired.
pub fn run<R: Print + AllocGlobal + Wait + Clock>(rt: &R) -> io::Result<()> {
    match play(rt, rt.alloc()) {
        Ok(entered) => println!(rt; "entered: {entered}"),
        Err(fault) => println!(rt; "not entered: {fault}"),
    }
}
