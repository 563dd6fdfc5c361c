//! What a worker does.
ghost use Rattle.locks.specs.Calling.{CanLock};

use crate::jobs::Jobs;
use locks::{Fault, Mutex, Pass, ThreadParking};
use std::sync::Wait;
use std::time::Clock;

/// The condition on which a worker waits for a job, or for the end.
pub const JOB: u8 = 0;

/// The condition on which the submitter waits for a place.
pub const PLACE: u8 = 1;

/// How many jobs were done, and their sum.
#[derive(Clone, Copy)]
pub struct Done {
    pub jobs: u64,
    pub sum: u64,
}

impl Done {
    const NONE: Done = Done { jobs: 0, sum: 0 };

    /// Both together.
    pub fn and(self, other: Done) -> Done {
        Done {
            jobs: self.jobs.saturating_add(other.jobs),
            sum: self.sum.saturating_add(other.sum),
        }
    }
}

/// Waits for a job, and takes it. Returns None if the queue is closed and empty, and `Err(Interrupted)` if it is empty
/// and the thread is interrupted. A fault leaves each job where it was.
fn take<R: Wait + Clock>(
    rt: &R,
    parking: &ThreadParking,
    queue: &Mutex<Jobs>,
    pass: &mut Pass,
) -> Result<Option<u64>, Fault>
    requires { CanLock queue.now parking.now pass.old }
    ensures { CanLock queue.now parking.now pass.new }
{
    let mut guard = Mutex::lock(pass, queue, rt, parking)?;
    for _ in rt.forever() {
        if !guard.value().is_empty() {
            guard.signal(PLACE)?;
            return Ok(Some(guard.value_mut().take()));
        }
        if guard.value().is_closed() {
            return Ok(None);
        }
        guard.wait(JOB)?;
    }
    unreachable!()
}

/// Does jobs until the queue is closed and empty, or until the thread is interrupted. Returns what it did.
pub fn work<R: Wait + Clock>(
    rt: &R,
    parking: &ThreadParking,
    queue: &Mutex<Jobs>,
    pass: &mut Pass,
) -> Result<Done, Fault>
    requires { CanLock queue.now parking.now pass.old }
    ensures { CanLock queue.now parking.now pass.new }
{
    let mut done = Done::NONE;
    for _ in rt.forever() {
        match take(rt, parking, queue, pass) {
            Ok(Some(job)) => done = done.and(Done { jobs: 1, sum: job }),
            Ok(None) | Err(Fault::Interrupted) => return Ok(done),
            Err(fault) => return Err(fault),
        }
    }
    unreachable!()
}
