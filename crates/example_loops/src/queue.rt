//! A queue of jobs with a place for four of them: one thread submits, and two threads work.
//!
//! The submitter waits for a place, for ten seconds at most. It ends the work in one of two ways: it closes the queue,
//! and then the workers finish what waits there; or it interrupts the workers. Proved: the queue loses no job. Each
//! job that was put into it was taken out of it, or waits there.
ghost use Rattle.locks.specs.Calling.{CanLock};

use crate::jobs::Jobs;
use crate::submitting::{Ending, submit_all};
use crate::working::{Done, work};
use locks::{Fault, Mutex, Pass, Policy, ThreadParking, WhenFull, three_passes};
use std::alloc::Global;
use std::sync::Wait;
use std::thread::Threads;
use std::time::Clock;
use std::{io, thread};

const JOBS: u64 = 100;

/// Both workers work, each in a thread of its own. Returns what they did.
fn work_both<R: Threads + Wait + Clock + Sync>(
    rt: &R,
    parking: &ThreadParking,
    queue: &Mutex<Jobs>,
    one: &mut Pass,
    two: &mut Pass,
) -> Result<Done, Fault>
    requires one { CanLock queue.now parking.now one.old }
    requires two { CanLock queue.now parking.now two.old }
    ensures one { CanLock queue.now parking.now one.new }
    ensures two { CanLock queue.now parking.now two.new }
{
    let (first, second) = thread::join_mut(
        rt,
        &mut || work(rt, parking, queue, one),
        &mut || work(rt, parking, queue, two),
    );
    Ok(first?.and(second?))
}

/// What was submitted, done, and left in the queue.
#[derive(Clone, Copy)]
struct Summary {
    submitted: u64,
    done: Done,
    left: u64,
}

/// Opens a queue, lets three threads use it, and looks at what they left.
fn run<R: Threads + Wait + Clock + Sync>(
    rt: &R,
    alloc: Global,
    ending: Ending,
) -> Result<Summary, Fault> {
    let parking = ThreadParking::open(rt, alloc, 3)?;
    let opened = Mutex::open(
        alloc,
        Jobs::new(alloc),
        Policy::Fair,
        WhenFull::Trim,
        3,
        2,
        64,
    );
    let Ok((queue, passes)) = opened else {
        return Err(Fault::OutOfMemory);
    };
    let (mut one, mut two, mut submitter) = three_passes(passes);
    let (done, submitted) = thread::join_mut(
        rt,
        &mut ||
            requires { CanLock queue parking one × CanLock queue parking two }
        { work_both(rt, &parking, &queue, &mut one, &mut two) },
        &mut || submit_all(rt, &parking, &queue, &mut submitter, JOBS, ending),
    );
    let done = done?;
    let submitted = submitted?;
    let guard = Mutex::lock(&mut submitter, &queue, rt, &parking)?;
    let left = guard.value().waiting();
    Ok(Summary {
        submitted,
        done,
        left,
    })
}

/// Runs the threads, and prints what they did.
fn show<R: Print + AllocGlobal + Threads + Wait + Clock + Sync>(
    rt: &R,
    name: &str,
    ending: Ending,
) -> io::Result<()> {
    match run(rt, rt.alloc(), ending) {
        Ok(
            Summary {
                submitted,
                done: Done { jobs, sum },
                left,
            },
        ) => println!(rt;
            "{name}: {submitted} submitted, {jobs} done, {left} left, and their sum is {sum}"
        ),
        Err(fault) => println!(rt; "{name}: {fault}"),
    }
}

/// Runs the threads twice: the work ends when the queue is closed, and by interrupts.
pub fn show_both<R: Print + AllocGlobal + Threads + Wait + Clock + Sync>(rt: &R) -> io::Result<()> {
    show(rt, "closed", Ending::Closes)?;
    show(rt, "interrupted", Ending::Interrupts)
}
