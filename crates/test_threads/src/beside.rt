//! A thread that steps by itself, and unparks whom its steps name, beside one that makes calls.
ghost use Rattle.std.specs.Prelude.{◌<◌};
ghost use Rattle.monitor.specs.Calling.{CanCall};

use crate::asks::{Ask, DONE, NAMES, Reply, YES, perform};
use crate::storms::{LOOKS, rest, wait_for};
use history::entry::Mode;
use history::header::Policy;
use history::step::Step;
use monitor::{Monitor, Pass};
use monitor_fronts::open_lock;
use permit::{Parking, ThreadParking};
use reentrant::lock::LockHooks;
use std::sync::Wait;
use std::sync::atomic::{AtomicU64, Ordering};
use std::thread;
use std::time::Clock;

/// Releases the lock once seat 0 waits for it, and returns whether that one is served then. If it isn't, an
/// interrupt ends its wait.
fn step_twice<R: Wait + Clock>(
    rt: &R,
    parking: &ThreadParking,
    monitor: &Monitor<LockHooks>,
    pass: &mut Pass,
    turns: &AtomicU64,
) -> bool
    requires can { CanCall monitor.now parking.now pass.old }
    requires two { 0 < parking.now }
{
    let acquire = Ask::Step(Step::Acquire(Mode::X, 1));
    let took = perform(rt, monitor, parking, pass, acquire);
    turns.fetch_add(1, Ordering::SeqCst);
    for _ in 0..LOOKS {
        if monitor.queue_length(rt, pass) == 1 {
            break;
        }
        rest(rt);
    }
    let release = Ask::Step(Step::Give(Mode::X, 1));
    let gave = perform(rt, monitor, parking, pass, release);
    let is_served = wait_for(rt, turns, 2);
    parking.interrupt(0);
    took == YES && gave == Ok(NAMES) && is_served
}

fn call_once<R: Wait + Clock>(
    rt: &R,
    parking: &ThreadParking,
    monitor: &Monitor<LockHooks>,
    pass: &mut Pass,
    turns: &AtomicU64,
) -> Reply
    requires { CanCall monitor.now parking.now pass.old }
{
    let _came = wait_for(rt, turns, 1);
    let reply = perform(rt, monitor, parking, pass, Ask::LockInterruptibly);
    turns.fetch_add(1, Ordering::SeqCst);
    reply
}

#[test]
fn one_that_waits_in_a_call_is_served_by_the_steps_of_another(rt: HostRuntime) {
    let parking = ThreadParking::open(&rt, rt.alloc(), 2).expect(&rt, "memory");
    let opened = open_lock(rt.alloc(), Policy::Fair, 2, 0, 16);
    let (monitor, mut passes) = opened.expect(&rt, "memory");
    let mut one = passes.pop().expect(&rt, "a pass");
    let mut other = passes.pop().expect(&rt, "a pass");
    let turns = AtomicU64::new(0);
    let served = thread::join_mut(
        &rt,
        &mut || step_twice(&rt, &parking, &monitor, &mut one, &turns),
        &mut || call_once(&rt, &parking, &monitor, &mut other, &turns),
    );
    assert_eq!(rt; served, (true, DONE));
}
