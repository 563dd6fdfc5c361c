//! Two threads add to one number that a lock guards.
#![tactic(auto)]

ghost use Rattle.locks.specs.Calling.{CanLock};

mod number;
mod proved;

use locks::{Fault, Mutex, Pass, ThreadParking, two_passes};
use std::alloc::Global;
use std::sync::Wait;
use std::thread::Threads;
use std::time::Clock;
use std::{io, thread};

/// Adds to the number, and returns what it is then. At the end of its scope the guard unlocks.
fn add<R: Wait + Clock>(
    rt: &R,
    parking: &ThreadParking,
    number: &Mutex<u64>,
    pass: &mut Pass,
    more: u64,
) -> Result<u64, Fault>
    requires { CanLock number.now parking.now pass.old }
    ensures { CanLock number.now parking.now pass.new }
{
    let mut guard = Mutex::lock(pass, number, rt, parking)?;
    let value = guard.value_mut();
    *value = value.saturating_add(more);
    Ok(*value)
}

/// Opens a lock that guards 0, lets two threads add, and locks again to read the sum.
fn sum<R: Threads + Wait + Clock + Sync>(rt: &R, alloc: Global) -> Result<u64, Fault> {
    let parking = ThreadParking::open(rt, alloc, 2)?;
    let (number, passes) = Mutex::new(alloc, 0u64, 2)?;
    let (mut one, mut two) = two_passes(passes);
    let (a, b) = thread::join_mut(
        rt,
        &mut || add(rt, &parking, &number, &mut one, 40),
        &mut || add(rt, &parking, &number, &mut two, 2),
    );
    a?;
    b?;
    let guard = Mutex::lock(&mut one, &number, rt, &parking)?;
    Ok(*guard.value())
}

fn main(rt: HostRuntime) -> io::Result<()> {
    match (sum(&rt, rt.alloc()), proved::sum(&rt, rt.alloc())) {
        (Ok(sum), Ok(proved)) => println!(rt; "{sum}\n{proved}"),
        (Err(fault), _) | (_, Err(fault)) => println!(rt; "no sum: {fault}"),
    }
}
