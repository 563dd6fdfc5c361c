//! A bounded buffer guarded by a fair lock: one thread puts, another takes. The owner of the lock has the
//! buffer.
//!
//! The history of the lock has few places, and is folded whenever it is full. Proved: the buffer never has
//! more items than places.

ghost use Rattle.std.specs.Prelude.{◌≡◌, ◌≤◌, All, IfOk, IfSome, length};
ghost use Rattle.monitor.specs.Stepping.{IsSame};
ghost use Rattle.monitor_fronts.specs.Holding.{holds};

use crate::Failure;
use crate::bounded::Bounded;
use crate::working::{consume, produce};
use guarded::{Mutex, WhenFull};
use history::fault::Fault;
use history::header::Policy;
use monitor::Pass;
use permit::ThreadParking;
use std::alloc::Global;
use std::snapshot::Snapshot;
use std::sync::Wait;
use std::sync::atomic::AtomicBool;
use std::thread::{Promise, Threads};
use std::time::Clock;
use std::{io, thread};

const ITEMS: u64 = 100;

/// The most entries of the history.
const CAP: u32 = 16;

/// The promise that the producer returns its pass.
#[derive(Drop)]
struct ComesBack {
    producer: Snapshot<Pass>,
}

impl Promise<Result<Pass, Fault>> for ComesBack {
    ghost use Rattle.std.specs.Prelude.{IfOk};
    ghost use Rattle.monitor.specs.Stepping.{IsSame};

    ghost kept_by = { λ p back. IfOk back (IsSame p.producer.value) };
}

/// The results of the producer and the consumer.
type Exchanged = (Result<Pass, Fault>, Result<(Pass, u64), Fault>);

/// Runs both threads. Returns None if the system refuses the producer's thread: then nobody waits for items.
fn exchange<R: Threads + Wait + Clock + Sync>(
    rt: &R,
    parking: &ThreadParking,
    lock: &Mutex<Bounded>,
    producer: Pass,
    consumer: Pass,
) -> Option<Exchanged>
    requires own { (producer.lock ≡ lock.now.lock) × (consumer.lock ≡ lock.now.lock) }
    requires free { (holds producer ≡ 0) × (holds consumer ≡ 0) }
    requires places { lock.now.lock.header.seats ≤ parking.now }
    ensures put { IfSome result (λ r. IfOk r.0 (IsSame producer)) }
    ensures taken { IfSome result (λ r. IfOk r.1 (λ t. IsSame consumer t.0)) }
{
    let stop = AtomicBool::new(false);
    let stop = &stop;
    thread::scope(
        thread::scope_env(),
        rt,
        |scope| -> Option<Exchanged>
            requires { (producer.lock ≡ lock.now.lock) × (consumer.lock ≡ lock.now.lock)
                × (lock.now.lock.header.seats ≤ parking.now) × (holds producer ≡ 0) × (holds consumer ≡ 0) }
            ensures put { IfSome result (λ r. IfOk r.0 (IsSame producer)) }
            ensures taken { IfSome result (λ r. IfOk r.1 (λ t. IsSame consumer t.0)) }
        {
            let promise = ComesBack {
                producer: Snapshot::of(&producer),
            };
            let started = scope.spawn_with(
                promise,
                move || -> Result<Pass, Fault>
                    requires { (producer.lock ≡ lock.now.lock) × (lock.now.lock.header.seats ≤ parking.now)
                        × (holds producer ≡ 0) }
                    ensures { IfOk result (IsSame producer) }
                { produce(rt, parking, lock, stop, producer, ITEMS) },
            );
            let Ok(handle) = started else {
                return None;
            };
            let taken = consume(rt, parking, lock, stop, consumer, ITEMS);
            Some((handle.join(rt), taken))
        },
    )
}

/// Runs both threads with the passes of a new lock. Returns the passes, and the sum of what was taken.
fn exchange_all<R: Threads + Wait + Clock + Sync>(
    rt: &R,
    parking: &ThreadParking,
    lock: &Mutex<Bounded>,
    passes: Vec<Pass>,
) -> Result<(Vec<Pass>, u64), Failure>
    requires all { length passes.items ≡ 2 }
    requires own { All (λ p. p.lock ≡ lock.now.lock) passes.items }
    requires free { All (λ p. holds p ≡ 0) passes.items }
    requires places { lock.now.lock.header.seats ≤ parking.now }
    ensures { IfOk result (λ r. All (λ p. p.lock ≡ lock.now.lock) r.0.items) }
{
    let mut passes = passes;
    let Some(consumer) = passes.pop() else {
        unreachable!()
    };
    let Some(producer) = passes.pop() else {
        unreachable!()
    };
    let Some((put, taken)) = exchange(rt, parking, lock, producer, consumer) else {
        return Err(Failure::NotStarted);
    };
    let producer = put?;
    let (consumer, sum) = taken?;
    if passes.push(producer).is_err() || passes.push(consumer).is_err() {
        return Err(Failure::Call(Fault::OutOfMemory));
    }
    Ok((passes, sum))
}

/// The sum of what was taken, and what happened to the history.
#[derive(Clone, Copy)]
struct Summary {
    sum: u64,
    all_calls: bool,
    folded: bool,
    is_empty: bool,
}

/// Closes the lock.
fn close<R: Wait>(
    rt: &R,
    lock: Mutex<Bounded>,
    passes: Vec<Pass>,
    sum: u64,
) -> Result<Summary, Failure>
    requires own { All (λ p. p.lock ≡ lock.lock) passes.items }
{
    match lock.close(rt, passes) {
        Ok((closed, buffer)) => Ok(Summary {
            sum,
            all_calls: closed.history.calls() == closed.share,
            folded: closed.history.base().is_some(),
            is_empty: buffer.is_some_and(|buffer| buffer.is_empty()),
        }),
        Err(_) => Err(Failure::NotClosed),
    }
}

/// Runs the example with a new lock, and closes it.
fn play<R: Threads + Wait + Clock + Sync>(rt: &R, alloc: Global) -> Result<Summary, Failure> {
    let parking = ThreadParking::open(rt, alloc, 2)?;
    let opened = Mutex::open(
        alloc,
        Bounded::new(alloc),
        Policy::Fair,
        WhenFull::Trim,
        2,
        2,
        CAP,
    );
    match opened {
        Ok((lock, passes)) => {
            let (passes, sum) = exchange_all(rt, &parking, &lock, passes)?;
            close(rt, lock, passes, sum)
        }
        Err((_, fault)) => Err(Failure::Call(fault)),
    }
}

/// Prints the sum of what was taken, and what happened to the history.
fn print<R: Print>(rt: &R, summary: &Summary) -> io::Result<()> {
    let Summary {
        sum,
        is_empty,
        all_calls,
        folded,
    } = *summary;
    println!(rt;
        "taken {sum}\n\
         the buffer is empty: {is_empty}\n\
         every call is in the history: {all_calls}\n\
         its entries were folded: {folded}"
    )
}

/// Runs both threads, and prints the outcome.
pub fn run<R: Print + AllocGlobal + Threads + Wait + Clock + Sync>(rt: &R) -> io::Result<()> {
    match play(rt, rt.alloc()) {
        Ok(summary) => print(rt, &summary),
        Err(failure) => println!(rt; "{failure}: the buffer was given up"),
    }
}
