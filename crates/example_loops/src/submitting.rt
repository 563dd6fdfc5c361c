//! What the submitter does.
ghost use Rattle.std.specs.Prelude.{◌≤◌};
ghost use Rattle.locks.specs.Calling.{CanLock};

use crate::jobs::Jobs;
use crate::working::{JOB, PLACE};
use locks::{Fault, Mutex, Parking, Pass, ThreadParking};
use std::sync::Wait;
use std::time::Clock;

/// The most milliseconds that the submitter waits for a place.
const PATIENCE: u32 = 10_000;

/// The seats of the workers.
const WORKERS: u16 = 2;

/// How the submitter ends the work.
#[derive(Clone, Copy)]
pub enum Ending {
    /// It closes the queue.
    Closes,
    /// It interrupts the workers.
    Interrupts,
}

/// Waits for a place, for ten seconds at most, and puts a job there. Returns whether there was a place. A worker that
/// waits is signalled first: it cannot look before this thread has unlocked.
fn submit<R: Wait + Clock>(
    rt: &R,
    parking: &ThreadParking,
    queue: &Mutex<Jobs>,
    pass: &mut Pass,
    job: u64,
) -> Result<bool, Fault>
    requires { CanLock queue.now parking.now pass.old }
    ensures { CanLock queue.now parking.now pass.new }
{
    let mut guard = Mutex::lock(pass, queue, rt, parking)?;
    if guard.value().is_full() {
        guard.wait_for(PLACE, PATIENCE)?;
    }
    if guard.value().is_full() {
        return Ok(false);
    }
    guard.signal(JOB)?;
    guard.value_mut().put(job)?;
    Ok(true)
}

/// Closes the queue, and wakes each worker that waits for a job.
fn close<R: Wait + Clock>(
    rt: &R,
    parking: &ThreadParking,
    queue: &Mutex<Jobs>,
    pass: &mut Pass,
) -> Result<(), Fault>
    requires { CanLock queue.now parking.now pass.old }
    ensures { CanLock queue.now parking.now pass.new }
{
    let mut guard = Mutex::lock(pass, queue, rt, parking)?;
    guard.value_mut().close();
    guard.signal_all(JOB)
}

/// Submits the jobs from 1 to `jobs`, until one finds no place. Returns how many found one.
fn submit_each<R: Wait + Clock>(
    rt: &R,
    parking: &ThreadParking,
    queue: &Mutex<Jobs>,
    pass: &mut Pass,
    jobs: u64,
) -> Result<u64, Fault>
    requires { CanLock queue.now parking.now pass.old }
    ensures { CanLock queue.now parking.now pass.new }
{
    let mut submitted = 0u64;
    for job in 1..=jobs {
        if !submit(rt, parking, queue, pass, job)? {
            return Ok(submitted);
        }
        submitted = submitted.saturating_add(1);
    }
    Ok(submitted)
}

/// Submits the jobs from 1 to `jobs` until one finds no place, and then ends the work, after a fault too. Returns how
/// many found a place.
pub fn submit_all<R: Wait + Clock>(
    rt: &R,
    parking: &ThreadParking,
    queue: &Mutex<Jobs>,
    pass: &mut Pass,
    jobs: u64,
    ending: Ending,
) -> Result<u64, Fault>
    requires lock { CanLock queue.now parking.now pass.old }
    requires workers { WORKERS ≤ parking.now }
    ensures { CanLock queue.now parking.now pass.new }
{
    let submitted = submit_each(rt, parking, queue, pass, jobs);
    let is_closed = match ending {
        Ending::Closes => close(rt, parking, queue, pass).is_ok(),
        Ending::Interrupts => false,
    };
    if !is_closed {
        for worker in 0..WORKERS {
            parking.interrupt(worker);
        }
    }
    submitted
}
