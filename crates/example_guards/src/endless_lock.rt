//! A lock that runs on past the cap of its history.
//!
//! Four threads share a lock whose history has room for 64 entries. Each thread locks, adds one to a number,
//! and unlocks, over and over. A call that finds the history full folds all entries into the base and goes
//! on, as a front made by `ReentrantLock::of` does. So any number of calls is made in the memory of 64
//! entries.
//!
//! `example_guards endless_lock` makes 8,000 calls. `example_guards endless_lock 10000000` makes 10,000,000.
//! Prints how many calls were made, what the number is, and what the lock was left with. `close` promises
//! that the history is legal, from its last fold on, and has each call.

ghost use Rattle.std.specs.Prelude.{◌≡◌, ◌≤◌, true, All, IfOk};
ghost use Rattle.history.specs.Object.{is_lock};

mod adding;

use crate::endless_lock::adding::{Sum, work};
use frame::Balance;
use history::fault::Fault;
use history::header::{Header, Object, Policy};
use monitor::{Monitor, Pass};
use monitor_fronts::{ReentrantLock, open_lock};
use permit::ThreadParking;
use reentrant::lock::LockHooks;
use std::alloc::{AllocError, Global};
use std::sync::Wait;
use std::thread::Threads;
use std::time::Clock;
use std::{io, thread};

/// The calls in all, if the command line names no number.
const FEW: u64 = 8_000;

/// A turn of a thread is two calls.
const CALLS_IN_A_TURN: u64 = 2;

const THREADS: u16 = 4;

const HEADER: Header = Header {
    object: Object::Lock(Policy::NonFair),
    seats: THREADS,
    conditions: 0,
    cap: 64,
};

/// Reads how many calls are asked for. It is the word after the name of the example.
fn asked(words: &[String]) -> u64 {
    let calls = words
        .get(1)
        .and_then(|word| word.as_str().parse::<u64>().ok());
    match calls {
        Some(calls) => calls,
        None => FEW,
    }
}

/// Each thread works with its own pass. Returns the passes.
fn work_in_threads<R: Threads + Wait + Clock + Sync>(
    rt: &R,
    parking: &ThreadParking,
    lock: &ReentrantLock,
    sum: &Sum,
    passes: Vec<Pass>,
    turns: u64,
) -> Result<Vec<Pass>, AllocError>
    requires places { lock.now.monitor.now.header.seats ≤ parking.now }
    requires lock { is_lock lock.now.monitor.now.header.object ≡ true }
    requires own { All (λ p. p.lock ≡ lock.now.monitor.now) passes.items }
    ensures { IfOk result (λ v. All (λ p. p.lock ≡ lock.now.monitor.now) v.items) }
{
    thread::map_vec(
        rt,
        passes,
        &|pass: Pass| -> Pass
            requires { (pass.lock ≡ lock.now.monitor.now)
                × (lock.now.monitor.now.header.seats ≤ parking.now)
                × (is_lock lock.now.monitor.now.header.object ≡ true) }
            ensures { result.lock ≡ lock.entry.now.monitor.now }
        { work(rt, parking, lock, sum, pass, turns) },
    )
}

/// What the threads did, and what the lock was left with.
#[derive(Clone, Copy)]
struct Summary {
    faults: u64,
    number: u64,
    calls: u64,
    balance: Balance,
}

/// Closes the lock.
fn close<R: Wait>(
    rt: &R,
    monitor: Monitor<LockHooks>,
    passes: Vec<Pass>,
    sum: &Sum,
) -> Result<Summary, Fault>
    requires { All (λ p. p.lock ≡ monitor) passes.items }
{
    match monitor.close(rt, passes) {
        Ok(closed) => Ok(Summary {
            faults: sum.faults(),
            number: sum.number(),
            calls: closed.share,
            balance: closed.balance,
        }),
        Err(_) => Err(Fault::OutOfPhase),
    }
}

/// Runs all threads with a new lock, and closes it.
fn play_with<R: Threads + Wait + Clock + Sync>(
    rt: &R,
    alloc: Global,
    parking: &ThreadParking,
    turns: u64,
) -> Result<Summary, Fault>
    requires places { THREADS ≤ parking.now }
{
    let (monitor, passes) = open_lock(
        alloc,
        Policy::NonFair,
        HEADER.seats,
        HEADER.conditions,
        HEADER.cap,
    )?;
    let lock = ReentrantLock::of(&monitor);
    let sum = Sum::new();
    let passes = work_in_threads(rt, parking, &lock, &sum, passes, turns)?;
    close(rt, monitor, passes, &sum)
}

/// Opens the place where the threads park, and runs the example.
fn play<R: Threads + Wait + Clock + Sync>(
    rt: &R,
    alloc: Global,
    turns: u64,
) -> Result<Summary, Fault> {
    let parking = ThreadParking::open(rt, alloc, HEADER.seats)?;
    play_with(rt, alloc, &parking, turns)
}

/// Prints what the threads did, and what the lock was left with.
fn print<R: Print>(rt: &R, turns: u64, summary: &Summary) -> io::Result<()> {
    let Summary {
        faults,
        number,
        calls,
        balance,
    } = *summary;
    println!(rt;
        "{THREADS} threads, {turns} turns each, faults {faults}\n\
         calls {calls}, number {number}, room for {} entries\n\
         holds {}, in the queue {}",
        HEADER.cap, balance.exclusive, balance.line
    )
}

/// Runs all threads, and prints the results. The first word is the name of the example.
pub fn run<R: Print + AllocGlobal + Threads + Wait + Clock + Sync>(
    rt: &R,
    words: &[String],
) -> io::Result<()> {
    let turns = asked(words) / CALLS_IN_A_TURN / u64::from(THREADS);
    match play(rt, rt.alloc(), turns) {
        Ok(summary) => print(rt, turns, &summary),
        Err(fault) => println!(rt; "endless_lock: {fault}"),
    }
}
