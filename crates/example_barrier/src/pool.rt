//! A pool: three threads share two counters. Each thread takes a counter, counts on, and puts it back.
ghost use Rattle.std.specs.Prelude.{◌≡◌, IfOk, length};
ghost use Rattle.locks.specs.Calling.{CanCall};

use locks::{Fault, ItemFault, Pass, Pool, ThreadParking, three_passes};
use std::alloc::Global;
use std::collections::LinkedList;
use std::sync::Wait;
use std::thread::Threads;
use std::time::Clock;
use std::{io, thread};

/// How often each thread counts.
const ROUNDS: u64 = 1000;

/// Counts on in each of the rounds, with any counter of the pool.
fn count<R: Wait + Clock>(
    rt: &R,
    parking: &ThreadParking,
    pool: &Pool<u64>,
    pass: &mut Pass,
    rounds: u64,
) -> Result<(), Fault>
    requires { CanCall pool.now.lock parking.now pass.old }
    ensures { CanCall pool.now.lock parking.now pass.new }
{
    for _ in 0..rounds {
        let counted = pool.with_item(rt, parking, pass, |counter: &mut u64| {
            *counter = counter.saturating_add(1)
        });
        match counted {
            Ok(()) => {}
            Err(ItemFault::NotAcquired(fault)) => return Err(fault),
            Err(ItemFault::NotReleased { fault, .. }) => return Err(fault),
        }
    }
    Ok(())
}

/// Two threads count.
fn two_count<R: Threads + Wait + Clock + Sync>(
    rt: &R,
    parking: &ThreadParking,
    pool: &Pool<u64>,
    one: &mut Pass,
    two: &mut Pass,
) -> Result<(), Fault>
    requires one { CanCall pool.now.lock parking.now one.old }
    requires two { CanCall pool.now.lock parking.now two.old }
    ensures one { CanCall pool.now.lock parking.now one.new }
    ensures two { CanCall pool.now.lock parking.now two.new }
{
    let (first, second) = thread::join_mut(
        rt,
        &mut || count(rt, parking, pool, one, ROUNDS),
        &mut || count(rt, parking, pool, two, ROUNDS),
    );
    first?;
    second
}

/// Returns two counters.
fn counters(alloc: Global) -> Result<LinkedList<u64>, Fault>
    ensures { IfOk result (λ counters. length counters ≡ 2) }
{
    let mut counters = LinkedList::new(alloc);
    if counters.push_back(0u64).is_err() || counters.push_back(0u64).is_err() {
        return Err(Fault::OutOfMemory);
    }
    Ok(counters)
}

/// Returns the sum of all counters.
fn sum_of(counters: LinkedList<u64>) -> u64 {
    let mut sum = 0u64;
    for counter in counters {
        sum = sum.saturating_add(counter);
    }
    sum
}

/// Opens the pool, lets three threads count, and takes all counters out to read their sum.
fn share<R: Threads + Wait + Clock + Sync>(rt: &R, alloc: Global) -> Result<u64, Fault> {
    let parking = ThreadParking::open(rt, alloc, 3)?;
    let (pool, passes) = Pool::new(alloc, counters(alloc)?, 3)?;
    let (mut one, mut two, mut three) = three_passes(passes);
    let (both, third) = thread::join_mut(
        rt,
        &mut ||
            requires { CanCall pool.lock parking one × CanCall pool.lock parking two }
        { two_count(rt, &parking, &pool, &mut one, &mut two) },
        &mut || count(rt, &parking, &pool, &mut three, ROUNDS),
    );
    both?;
    third?;
    Ok(sum_of(pool.drain(rt, &parking, &mut one)?))
}

/// Prints the sum.
pub fn show<R: Print + AllocGlobal + Threads + Wait + Clock + Sync>(rt: &R) -> io::Result<()> {
    match share(rt, rt.alloc()) {
        Ok(sum) => println!(rt; "{sum} counted with the pool"),
        Err(fault) => println!(rt; "no sum: {fault}"),
    }
}
