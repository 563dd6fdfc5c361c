//! A barrier at which three threads wait for one another five times, and a pool of two counters that three
//! threads share.
//!
//! Proved: a thread goes on from the barrier only after the gathering at which it arrived has ended.
#![tactic(auto)]

ghost use Rattle.locks.specs.Calling.{CanLock};

mod barrier;
mod gathering;
mod pool;

use barrier::Barrier;
use locks::{Fault, Pass, ThreadParking, three_passes};
use std::alloc::Global;
use std::sync::Wait;
use std::thread::Threads;
use std::time::Clock;
use std::{io, thread};

const ROUNDS: u32 = 5;

/// The most milliseconds that a thread waits for the others.
const PATIENCE: u32 = 10_000;

/// How often threads went on, how often as the last to arrive, and how often they gave up.
#[derive(Clone, Copy)]
struct Visits {
    passed: u32,
    last: u32,
    gave_up: u32,
}

impl Visits {
    const NONE: Visits = Visits {
        passed: 0,
        last: 0,
        gave_up: 0,
    };

    fn and(self, other: Visits) -> Visits {
        Visits {
            passed: self.passed.saturating_add(other.passed),
            last: self.last.saturating_add(other.last),
            gave_up: self.gave_up.saturating_add(other.gave_up),
        }
    }
}

/// Waits at the barrier once.
fn visit<R: Wait + Clock>(
    rt: &R,
    parking: &ThreadParking,
    barrier: &Barrier,
    pass: &mut Pass,
) -> Result<Visits, Fault>
    requires { CanLock barrier.now.lock parking.now pass.old }
    ensures { CanLock barrier.now.lock parking.now pass.new }
{
    let passage = barrier.wait_for(rt, parking, pass, PATIENCE)?;
    Ok(match passage {
        Some(passage) => Visits {
            passed: 1,
            last: u32::from(passage.was_last()),
            gave_up: 0,
        },
        None => Visits {
            gave_up: 1,
            ..Visits::NONE
        },
    })
}

/// Waits at the barrier in each round.
fn visit_often<R: Wait + Clock>(
    rt: &R,
    parking: &ThreadParking,
    barrier: &Barrier,
    pass: &mut Pass,
) -> Result<Visits, Fault>
    requires { CanLock barrier.now.lock parking.now pass.old }
    ensures { CanLock barrier.now.lock parking.now pass.new }
{
    let mut visits = Visits::NONE;
    for _ in 0..ROUNDS {
        visits = visits.and(visit(rt, parking, barrier, pass)?);
    }
    Ok(visits)
}

/// Two threads wait at the barrier in each round.
fn two_visit<R: Threads + Wait + Clock + Sync>(
    rt: &R,
    parking: &ThreadParking,
    barrier: &Barrier,
    one: &mut Pass,
    two: &mut Pass,
) -> Result<Visits, Fault>
    requires one { CanLock barrier.now.lock parking.now one.old }
    requires two { CanLock barrier.now.lock parking.now two.old }
    ensures one { CanLock barrier.now.lock parking.now one.new }
    ensures two { CanLock barrier.now.lock parking.now two.new }
{
    let (first, second) = thread::join_mut(
        rt,
        &mut || visit_often(rt, parking, barrier, one),
        &mut || visit_often(rt, parking, barrier, two),
    );
    Ok(first?.and(second?))
}

/// Three threads wait at a barrier in each round.
fn gather<R: Threads + Wait + Clock + Sync>(rt: &R, alloc: Global) -> Result<Visits, Fault> {
    let parking = ThreadParking::open(rt, alloc, 3)?;
    let (barrier, passes) = Barrier::open(alloc, 3)?;
    let (mut one, mut two, mut three) = three_passes(passes);
    let (both, third) = thread::join_mut(
        rt,
        &mut ||
            requires { CanLock barrier.lock parking one × CanLock barrier.lock parking two }
        { two_visit(rt, &parking, &barrier, &mut one, &mut two) },
        &mut || visit_often(rt, &parking, &barrier, &mut three),
    );
    Ok(both?.and(third?))
}

fn main(rt: HostRuntime) -> io::Result<()> {
    match gather(&rt, rt.alloc()) {
        Ok(
            Visits {
                passed,
                last,
                gave_up,
            },
        ) => println!(rt; "{passed} went on, {last} of them as the last, and {gave_up} gave up")?,
        Err(fault) => println!(rt; "not gathered: {fault}")?,
    }
    pool::show(&rt)
}
