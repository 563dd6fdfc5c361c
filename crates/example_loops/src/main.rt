//! The three loops that programs with locks mostly have. The file that states what holds before each round of a
//! loop is `proofs/MODULE/FUNCTION/Invariants.antt`: copy it with the loop.
//!
//! - `rounds`: a number of rounds, and the lock in each of them.
//! - `changed`: until the value has changed. The loop keeps the guard, and waits on a condition.
//! - `told`: until another thread says that it is over, and the lock in each round.
//!
//! The module `queue` has all of them: a queue of jobs, at which one thread submits and two threads work.
#![tactic(auto)]

mod changed;
mod jobs;
mod queue;
mod rounds;
mod submitting;
mod told;
mod working;

use locks::{Fault, Mutex, Policy, ThreadParking, WhenFull, two_passes};
use std::alloc::Global;
use std::sync::Wait;
use std::thread::Threads;
use std::time::Clock;
use std::{io, thread};

/// One thread adds 1 twenty times, and another takes 7 and then 13. Returns what is left.
fn exchange<R: Threads + Wait + Clock + Sync>(rt: &R, alloc: Global) -> Result<u64, Fault> {
    let parking = ThreadParking::open(rt, alloc, 2)?;
    let opened = Mutex::open(alloc, 0u64, Policy::Fair, WhenFull::Trim, 2, 1, 64);
    let Ok((number, passes)) = opened else {
        return Err(Fault::OutOfMemory);
    };
    let (mut taker, mut giver) = two_passes(passes);
    let (taken, given) = thread::join_mut(
        rt,
        &mut || changed::take_twice(rt, &parking, &number, &mut taker, 7, 13),
        &mut || rounds::add_often(rt, &parking, &number, &mut giver, 20),
    );
    taken?;
    given?;
    let guard = Mutex::lock(&mut taker, &number, rt, &parking)?;
    Ok(*guard.value())
}

/// One thread works until the other says that it is over. Returns whether each round of work was seen by both.
fn work<R: Threads + Wait + Clock + Sync>(rt: &R, alloc: Global) -> Result<bool, Fault> {
    let parking = ThreadParking::open(rt, alloc, 2)?;
    let desk = told::Desk::new();
    let opened = Mutex::open(alloc, desk, Policy::Fair, WhenFull::Trim, 2, 0, 64);
    let Ok((desk, passes)) = opened else {
        return Err(Fault::OutOfMemory);
    };
    let (mut worker, mut boss) = two_passes(passes);
    let (worked, told) = thread::join_mut(
        rt,
        &mut || told::work(rt, &parking, &desk, &mut worker),
        &mut || told::end(rt, &parking, &desk, &mut boss),
    );
    told?;
    let worked = worked?;
    let guard = Mutex::lock(&mut boss, &desk, rt, &parking)?;
    Ok(guard.value().rounds() == worked)
}

fn main(rt: HostRuntime) -> io::Result<()> {
    match exchange(&rt, rt.alloc()) {
        Ok(left) => println!(rt; "left: {left}")?,
        Err(fault) => println!(rt; "not exchanged: {fault}")?,
    }
    match work(&rt, rt.alloc()) {
        Ok(agree) => println!(rt; "each round of work was seen: {agree}")?,
        Err(fault) => println!(rt; "not worked: {fault}")?,
    }
    queue::show_both(&rt)
}
