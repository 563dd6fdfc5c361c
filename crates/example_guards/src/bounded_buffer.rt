//! A bounded buffer: one thread puts, another takes, under a fair lock with two conditions.
//!
//! Prints the sum of what was taken, and the audit's verdict on the history of the lock.

ghost use Rattle.std.specs.Prelude.{◌≡◌, ◌≤◌, true, All, IfOk, IfSome, length};
ghost use Rattle.frame.specs.Core.{header_of};
ghost use Rattle.history.specs.Object.{is_lock};
ghost use Rattle.history.specs.declared.header.Object.TheVariants.{Lock};
ghost use Rattle.history.specs.declared.header.Policy.TheVariants.{Fair};
ghost use Rattle.example_guards.specs.declared.bounded_buffer.Failure.TheVariants.{Call};
ghost use Rattle.monitor.specs.Stepping.{IsSame};

mod buffer;

use crate::bounded_buffer::buffer::{Buffer, consume, produce};
use audit::verdict::{Verdict, check};
use history::fault::Fault;
use history::header::{Header, Object, Policy};
use monitor::{Monitor, Pass};
use monitor_fronts::{ReentrantLock, open_lock};
use permit::ThreadParking;
use reentrant::lock::LockHooks;
use std::alloc::Global;
use std::snapshot::Snapshot;
use std::sync::Wait;
use std::thread::{Promise, Threads};
use std::time::Clock;
use std::{io, thread};
use thiserror::Error;

const ITEMS: u64 = 100;

const HEADER: Header = Header {
    object: Object::Lock(Policy::Fair),
    seats: 2,
    conditions: 2,
    cap: 10_000,
};

/// Why the example has no result.
#[derive(Clone, Copy, Debug, PartialEq, Eq, Error)]
enum Failure {
    /// A call returned this fault, or an allocation failed.
    #[error("{0}")]
    Call(Fault),
    /// The system refused the producer's thread. Nobody put or took.
    #[error("producer not started")]
    NotStarted,
}

impl From<Fault> for Failure {
    ghost from_gives = { λ fault e. e ≡ Call fault };

    fn from(fault: Fault) -> Failure {
        Failure::Call(fault)
    }
}

/// The promise that the producer returns its pass.
#[derive(Drop)]
struct ComesBack {
    producer: Snapshot<Pass>,
}

impl Promise<Result<Pass, Fault>> for ComesBack {
    ghost use Rattle.std.specs.Prelude.{IfOk};
    ghost use Rattle.monitor.specs.Stepping.{IsSame};

    ghost kept_by = { λ p back. IfOk back (IsSame p.producer.value) };
}

/// The results of the producer and the consumer.
type Exchanged = (Result<Pass, Fault>, Result<(Pass, u64), Fault>);

/// Runs both threads. Returns None if the system refuses the producer's thread: then nobody waits for items.
fn exchange<R: Threads + Wait + Clock + Sync>(
    rt: &R,
    parking: &ThreadParking,
    monitor: &Monitor<LockHooks>,
    producer: Pass,
    consumer: Pass,
) -> Option<Exchanged>
    requires own { (producer.lock ≡ monitor.now) × (consumer.lock ≡ monitor.now) }
    requires lock { is_lock monitor.now.header.object ≡ true }
    requires places { monitor.now.header.seats ≤ parking.now }
    ensures put { IfSome result (λ r. IfOk r.0 (IsSame producer)) }
    ensures taken { IfSome result (λ r. IfOk r.1 (λ t. IsSame consumer t.0)) }
{
    let buffer = Buffer::new();
    let shared = &buffer;
    thread::scope(
        thread::scope_env(),
        rt,
        |scope| -> Option<Exchanged>
            requires { (producer.lock ≡ monitor.now) × (consumer.lock ≡ monitor.now)
                × (monitor.now.header.seats ≤ parking.now)
                × (is_lock monitor.now.header.object ≡ true) }
            ensures put { IfSome result (λ r. IfOk r.0 (IsSame producer)) }
            ensures taken { IfSome result (λ r. IfOk r.1 (λ t. IsSame consumer t.0)) }
        {
            let promise = ComesBack {
                producer: Snapshot::of(&producer),
            };
            let started = scope.spawn_with(
                promise,
                move || -> Result<Pass, Fault>
                    requires { (producer.lock ≡ monitor.now)
                        × (monitor.now.header.seats ≤ parking.now)
                        × (is_lock monitor.now.header.object ≡ true) }
                    ensures { IfOk result (IsSame producer) }
                {
                    produce(
                        rt,
                        parking,
                        &ReentrantLock::of(monitor),
                        shared,
                        producer,
                        ITEMS,
                    )
                },
            );
            let Ok(handle) = started else {
                return None;
            };
            let taken = consume(
                rt,
                parking,
                &ReentrantLock::of(monitor),
                shared,
                consumer,
                ITEMS,
            );
            Some((handle.join(rt), taken))
        },
    )
}

/// Runs both threads with the passes of a new lock. Returns the passes, and the sum of what was taken.
fn exchange_all<R: Threads + Wait + Clock + Sync>(
    rt: &R,
    parking: &ThreadParking,
    monitor: &Monitor<LockHooks>,
    passes: Vec<Pass>,
) -> Result<(Vec<Pass>, u64), Failure>
    requires all { length passes.items ≡ 2 }
    requires own { All (λ p. p.lock ≡ monitor.now) passes.items }
    requires lock { is_lock monitor.now.header.object ≡ true }
    requires places { monitor.now.header.seats ≤ parking.now }
    ensures { IfOk result (λ r. All (λ p. p.lock ≡ monitor.now) r.0.items) }
{
    let mut passes = passes;
    let Some(consumer) = passes.pop() else {
        unreachable!()
    };
    let Some(producer) = passes.pop() else {
        unreachable!()
    };
    let Some((put, taken)) = exchange(rt, parking, monitor, producer, consumer) else {
        return Err(Failure::NotStarted);
    };
    let (consumer, sum) = taken?;
    let producer = put?;
    if passes.push(producer).is_err() || passes.push(consumer).is_err() {
        return Err(Failure::Call(Fault::OutOfMemory));
    }
    Ok((passes, sum))
}

/// The sum of what was taken, and what the audit finds in the history.
#[derive(Clone, Copy)]
struct Summary {
    sum: u64,
    all_calls: bool,
    verdict: Verdict,
}

/// Closes the lock and judges its history.
fn close<R: Wait>(
    rt: &R,
    alloc: Global,
    monitor: Monitor<LockHooks>,
    passes: Vec<Pass>,
    sum: u64,
) -> Result<Summary, Fault>
    requires own { All (λ p. p.lock ≡ monitor) passes.items }
    requires header { monitor.header ≡ header_of (Lock Fair) 2 2 10000 }
{
    let Ok(closed) = monitor.close(rt, passes) else {
        return Err(Fault::OutOfPhase);
    };
    match check(alloc, &HEADER, &closed.history) {
        Ok(verdict) => Ok(Summary {
            sum,
            all_calls: closed.history.calls() == closed.share,
            verdict,
        }),
        Err(fault) => Err(fault),
    }
}

/// Runs the example with a new lock, closes it and judges its history.
fn play<R: Threads + Wait + Clock + Sync>(rt: &R, alloc: Global) -> Result<Summary, Failure> {
    let parking = ThreadParking::open(rt, alloc, HEADER.seats)?;
    let (monitor, passes) = open_lock(
        alloc,
        Policy::Fair,
        HEADER.seats,
        HEADER.conditions,
        HEADER.cap,
    )?;
    let (passes, sum) = exchange_all(rt, &parking, &monitor, passes)?;
    Ok(close(rt, alloc, monitor, passes, sum)?)
}

/// Prints the sum of what was taken, and what the audit finds.
fn print<R: Print>(rt: &R, summary: &Summary) -> io::Result<()> {
    println!(rt;
        "taken {}\nevery call is in the history: {}",
        summary.sum, summary.all_calls
    )?;
    match summary.verdict {
        Verdict::Legal => println!(rt; "the history is legal"),
        Verdict::NotLegal(number) => println!(rt; "not legal at {number}"),
    }
}

/// Runs both threads, and prints the results.
pub fn run<R: Print + AllocGlobal + Threads + Wait + Clock + Sync>(rt: &R) -> io::Result<()> {
    match play(rt, rt.alloc()) {
        Ok(summary) => print(rt, &summary),
        Err(failure) => println!(rt; "{failure}"),
    }
}
