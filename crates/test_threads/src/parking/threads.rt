//! Threads that sleep at their seats, and are woken.
ghost use Rattle.std.specs.Prelude.{◌≡◌, ◌<◌};

use crate::parking::lone_token;
use permit::{Parking, ThreadParking, Woke};
use std::alloc::AllocGlobal;
use std::process::Abort;
use std::sync::Wait;
use std::thread;
use std::thread::{Threads, join};
use std::time::{Clock, CpuClock, Duration};

/// After this number of milliseconds a thread wakes another, which sleeps by then.
const LATER: u64 = 30;

fn send_later<R: Abort + Clock + AllocGlobal>(rt: &R, parking: &ThreadParking, is_interrupt: bool)
    requires { 0 < parking.now }
{
    thread::sleep(rt, Duration::from_millis(LATER));
    if is_interrupt {
        parking.interrupt(0);
    } else {
        parking.unpark(0, &lone_token(rt));
    }
}

/// Returns the result of a park at seat 0 that another thread unparks or interrupts.
fn woken<R: Abort + Threads + Wait + Clock + Sync + AllocGlobal>(
    rt: &R,
    parking: &ThreadParking,
    is_interrupt: bool,
    until: Option<u64>,
) -> Woke
    requires { 0 < parking.now }
{
    let (woke, ()) = join(
        rt,
        || -> Woke
            requires { 0 < parking.now }
        { parking.park(rt, 0, until, true) },
        ||
            requires { 0 < parking.now }
        { send_later(rt, parking, is_interrupt) },
    );
    woke
}

#[test]
fn one_who_sleeps_is_woken_by_an_unpark_and_by_an_interrupt(rt: HostRuntime) {
    let parking = ThreadParking::open(&rt, rt.alloc(), 1).expect(&rt, "memory");
    let far = Some(parking.now(&rt).saturating_add(50_000));
    for until in [None, far, Some(u64::MAX)] {
        assert_eq!(rt; woken(&rt, &parking, false, until), Woke::Permit);
        assert_eq!(rt; woken(&rt, &parking, true, until), Woke::Interrupted);
    }
    assert_eq!(rt; parking.park(&rt, 0, Some(0), true), Woke::Deadline);
}

/// Returns the results of two parks at seat 0. The first takes no interrupt, and sleeps until the second has
/// ended: by its deadline, or else by an interrupt.
fn woken_beside<R: Abort + Threads + Wait + Clock + Sync + AllocGlobal>(
    rt: &R,
    parking: &ThreadParking,
    until: Option<u64>,
) -> (Woke, Woke)
    requires { 0 < parking.now }
{
    join(
        rt,
        || -> Woke
            requires { 0 < parking.now }
        { parking.park(rt, 0, None, false) },
        || -> Woke
            requires { 0 < parking.now }
        {
            thread::sleep(rt, Duration::from_millis(LATER));
            let woke = match until {
                Some(_) => parking.park(rt, 0, until, true),
                None => woken(rt, parking, true, None),
            };
            parking.unpark(0, &lone_token(rt));
            woke
        },
    )
}

#[test]
fn two_who_sleep_at_a_seat_are_woken_each_by_its_own(rt: HostRuntime) {
    let parking = ThreadParking::open(&rt, rt.alloc(), 1).expect(&rt, "memory");
    let soon = Some(parking.now(&rt).saturating_add(2 * LATER));
    assert_eq!(rt;
        woken_beside(&rt, &parking, soon),
        (Woke::Permit, Woke::Deadline)
    );
    assert_eq!(rt;
        woken_beside(&rt, &parking, None),
        (Woke::Permit, Woke::Interrupted)
    );
}

/// How often a seat is interrupted to measure the time.
const ROUNDS: u32 = 100_000;

/// Returns the processor time in which a seat is interrupted many times, and each interrupt taken.
fn time_of<R: Abort + CpuClock>(rt: &R, parking: &ThreadParking, seat: u16) -> Duration
    requires { seat < parking.now }
{
    let before = rt.process_cpu_time().expect(rt, "a clock");
    for _ in 0..ROUNDS {
        parking.interrupt(seat);
        let _was_set = parking.take_interrupt(seat);
    }
    rt.process_cpu_time()
        .expect(rt, "a clock")
        .saturating_sub(before)
}

// A signal makes a system call only while a thread sleeps. The call takes many times as long as the rest.
#[test]
fn a_signal_costs_no_more_after_a_thread_has_slept(rt: HostRuntime) {
    let parking = ThreadParking::open(&rt, rt.alloc(), 2).expect(&rt, "memory");
    let soon = Some(parking.now(&rt).saturating_add(LATER));
    assert_eq!(rt; parking.park(&rt, 0, soon, true), Woke::Deadline);
    let mut fresh = time_of(&rt, &parking, 1);
    let mut slept = time_of(&rt, &parking, 0);
    for _ in 0..4 {
        fresh = fresh.min(time_of(&rt, &parking, 1));
        slept = slept.min(time_of(&rt, &parking, 0));
    }
    assert!(rt; slept < fresh.saturating_mul(4), "{slept:?}, {fresh:?}");
}
