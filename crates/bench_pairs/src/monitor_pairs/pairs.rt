//! Threads that make pairs at one monitor.
ghost use Rattle.std.specs.Prelude.{◌≡◌, ◌≤◌, All, IfOk};
ghost use Rattle.frame.specs.Core.{header_of};
ghost use Rattle.history.specs.Header.{IsInRange};
ghost use Rattle.monitor.specs.Stepping.{IsSame};

use crate::monitor_pairs::race::{Limit, Race};
use frame::hooks::Hooks;
use history::entry::Mode;
use history::fault::Fault;
use monitor::{How, Monitor, Pass};
use permit::{Parking, ThreadParking};
use std::alloc::{AllocError, Global};
use std::sync::Wait;
use std::thread;
use std::thread::{Threads, join};
use std::time::{Clock, Duration};

/// The most entries that a history may have.
const CAP: u32 = 4_294_967_295;

/// How many pairs were made, how many calls the history has, and how long the threads worked.
#[derive(Clone, Copy)]
pub struct Counted {
    pub pairs: u64,
    pub calls: u64,
    pub time: Duration,
}

/// Makes an acquire and a release.
#[inline]
fn make_pair<H: Hooks + Drop, P: Parking, R: Wait + Clock>(
    rt: &R,
    parking: &P,
    monitor: &Monitor<H>,
    pass: &mut Pass,
    mode: Mode,
) -> Result<(), Fault>
    requires own { pass.old.lock ≡ monitor.now }
    requires places { monitor.now.header.seats ≤ P.seats parking.now }
    ensures { IsSame pass.old pass.new }
{
    monitor.acquire(rt, parking, pass, mode, 1, How::Plain)?;
    monitor.release(rt, parking, pass, mode, 1)?;
    Ok(())
}

/// Makes pairs in one thread, until its limit or a fault.
fn make_pairs<H: Hooks + Drop, P: Parking, R: Wait + Clock>(
    rt: &R,
    parking: &P,
    monitor: &Monitor<H>,
    race: &Race,
    pass: Pass,
    mode: Mode,
) -> Pass
    requires own { pass.lock ≡ monitor.now }
    requires places { monitor.now.header.seats ≤ P.seats parking.now }
    ensures { IsSame pass result }
{
    race.wait_for_start();
    let mut own = pass;
    let mut pairs = 0u64;
    for _ in 0..race.most_pairs() {
        if race.is_over() || make_pair(rt, parking, monitor, &mut own, mode).is_err() {
            break;
        }
        pairs = pairs.wrapping_add(1);
        race.work();
    }
    race.add(pairs);
    own
}

/// Makes pairs in each thread, with its own pass.
fn make_all<H: Hooks + Drop + Send, R: Threads + Wait + Clock + Sync>(
    rt: &R,
    parking: &ThreadParking,
    monitor: &Monitor<H>,
    race: &Race,
    passes: Vec<Pass>,
    mode: Mode,
) -> Result<Vec<Pass>, AllocError>
    requires own { All (λ p. p.lock ≡ monitor.now) passes.items }
    requires places { monitor.now.header.seats ≤ parking.now }
    ensures { IfOk result (λ v. All (λ p. p.lock ≡ monitor.now) v.items) }
{
    thread::map_vec(
        rt,
        passes,
        &|pass: Pass| -> Pass
            requires { (pass.lock ≡ monitor.now) × (monitor.now.header.seats ≤ parking.now) }
            ensures { result.lock ≡ monitor.entry.now }
        { make_pairs(rt, parking, monitor, race, pass, mode) },
    )
}

/// Runs all threads, and measures their time.
fn make_in_time<H: Hooks + Drop + Send, R: Threads + Wait + Clock + Sync>(
    rt: &R,
    parking: &ThreadParking,
    monitor: &Monitor<H>,
    race: &Race,
    passes: Vec<Pass>,
    mode: Mode,
) -> (Result<Vec<Pass>, AllocError>, Duration)
    requires own { All (λ p. p.lock ≡ monitor.now) passes.items }
    requires places { monitor.now.header.seats ≤ parking.now }
    ensures { IfOk result.0 (λ v. All (λ p. p.lock ≡ monitor.now) v.items) }
{
    join(
        rt,
        move || -> Result<Vec<Pass>, AllocError>
            requires { All (λ p. p.lock ≡ monitor.now) passes.items ×
                (monitor.now.header.seats ≤ parking.now) }
            ensures { IfOk result (λ v. All (λ p. p.lock ≡ monitor.entry.now) v.items) }
        { make_all(rt, parking, monitor, race, passes, mode) },
        || race.keep_time(rt),
    )
}

/// Closes a monitor, and returns how many calls its history has.
fn close<H: Hooks + Drop, R: Wait>(
    rt: &R,
    monitor: Monitor<H>,
    passes: Vec<Pass>,
) -> Result<u64, Fault>
    requires own { All (λ p. p.lock ≡ monitor) passes.items }
{
    match monitor.close(rt, passes) {
        Ok(closed) => Ok(closed.history.calls()),
        Err(_) => Err(Fault::OutOfPhase),
    }
}

/// Returns the pairs of `threads` threads at a new monitor with these hooks.
pub fn count<H: Hooks + Drop + Send, R: Threads + Wait + Clock + Sync>(
    rt: &R,
    alloc: Global,
    hooks: H,
    mode: Mode,
    threads: u16,
    limit: Limit,
) -> Result<Counted, Fault>
    requires opened { H.is_opened hooks threads }
    requires range { IsInRange (header_of (H.object_of hooks) threads 0 4294967295) }
{
    let parking = ThreadParking::open(rt, alloc, threads)?;
    let (monitor, passes) = Monitor::open(alloc, hooks, threads, 0, CAP)?;
    let race = Race::new(threads, limit);
    let (passes, time) = make_in_time(rt, &parking, &monitor, &race, passes, mode);
    let pairs = race.pairs();
    let calls = close(rt, monitor, passes?)?;
    Ok(Counted { pairs, calls, time })
}
