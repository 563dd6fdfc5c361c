//! Workers that wait for the start. Each begins, also one that goes to sleep as the start comes.

use super::*;
use std::hint::spin_loop;
use std::process::Abort;
use std::sync::atomic::AtomicU32;
use std::thread::{Threads, join, sleep};
use std::time::{Clock, CpuClock, Duration};

/// The last round that has begun, and how often a worker was let go.
#[derive(Drop)]
struct Rounds {
    begun: AtomicU32,
    ended: AtomicU32,
}

/// How many rounds are played, if that takes no longer than so many milliseconds.
const ROUNDS: u32 = 50_000;

const LONGEST: u64 = 2_000;

/// The number of a round that is not played.
const OVER: u32 = u32::MAX;

/// The start comes after at most so many turns. By then the workers have gone to sleep, or they are about to.
const LATEST: u32 = 1_024;

/// How many turns a thread waits for the others, before it looks only once a millisecond, so many times.
const TURNS: u32 = 20_000;

const CHECKS: u32 = 5_000;

/// Returns whether a number is reached within some seconds.
fn is_reached<R: Clock>(rt: &R, number: &AtomicU32, least: u32) -> bool {
    for _ in 0..TURNS {
        if least <= number.load(Ordering::SeqCst) {
            return true;
        }
        spin_loop();
    }
    for _ in 0..CHECKS {
        if least <= number.load(Ordering::SeqCst) {
            return true;
        }
        sleep(rt, Duration::from_millis(1));
    }
    false
}

/// Waits for the start of each round.
fn wait_in_each<R: Wait + Clock>(rt: &R, start: &Start, rounds: &Rounds, worker: u16) {
    for number in 1..OVER {
        let is_begun = is_reached(rt, &rounds.begun, number);
        if !is_begun || rounds.begun.load(Ordering::SeqCst) == OVER {
            break;
        }
        let _may_begin = start.wait(rt, worker);
        rounds.ended.fetch_add(1, Ordering::SeqCst);
    }
}

/// Starts a round as the two workers go to sleep. Returns whether it let both go.
fn start_one<R: Clock>(rt: &R, start: &Start, rounds: &Rounds, number: u32) -> bool {
    start.word.store(STARTING, Ordering::SeqCst);
    rounds.begun.store(number, Ordering::SeqCst);
    for _ in 0..number % LATEST {
        spin_loop();
    }
    start.go();
    is_reached(rt, &rounds.ended, number.saturating_mul(2))
}

/// Starts round after round. Returns whether each let both workers go.
fn start_each<R: Clock>(rt: &R, start: &Start, rounds: &Rounds) -> bool {
    let begun = rt.monotonic().unwrap_or(Duration::ZERO);
    let mut let_go = true;
    for number in 1..ROUNDS {
        let_go = start_one(rt, start, rounds, number);
        let passed = rt
            .monotonic()
            .unwrap_or(Duration::ZERO)
            .saturating_sub(begun);
        if !let_go || Duration::from_millis(LONGEST) <= passed {
            break;
        }
    }
    rounds.begun.store(OVER, Ordering::SeqCst);
    start.word.wake_all();
    let_go
}

fn play<R: Threads + Wait + Clock + Sync>(rt: &R, start: &Start) -> bool {
    let rounds = &Rounds {
        begun: AtomicU32::new(0),
        ended: AtomicU32::new(0),
    };
    let ((), ((), let_go)) = join(
        rt,
        || { wait_in_each(rt, start, rounds, 0) },
        || -> ((), bool) {
            join(
                rt,
                || { wait_in_each(rt, start, rounds, 1) },
                || -> bool { start_each(rt, start, rounds) },
            )
        },
    );
    let_go
}

#[test]
fn workers_that_go_to_sleep_as_the_start_comes_are_woken(rt: HostRuntime) {
    assert!(rt; play(&rt, &Start::new()));
}

/// How long two workers wait, and the most processor time that they may use meanwhile, in milliseconds.
const LATE: u64 = 400;

const USED: u64 = 60;

/// How often they are woken in that time, though nothing is set.
const WAKES: u64 = 8;

/// Sets the word of the start after a while. Returns what it tells two workers.
fn start_late<R: Threads + Wait + Clock + Sync>(
    rt: &R,
    start: &Start,
    word: u64,
) -> (Result<(), RunFault>, Result<(), RunFault>) {
    let (first, (second, ())) = join(
        rt,
        || -> Result<(), RunFault> { start.wait(rt, 0) },
        || -> (Result<(), RunFault>, ()) {
            join(
                rt,
                || -> Result<(), RunFault> { start.wait(rt, 1) },
                || {
                    for _ in 0..WAKES {
                        sleep(rt, Duration::from_millis(LATE / WAKES));
                        start.word.wake_all();
                    }
                    tell(&start.word, word);
                },
            )
        },
    );
    (first, second)
}

fn used_so_far<R: Abort + CpuClock>(rt: &R) -> Duration {
    rt.process_cpu_time().expect(rt, "a clock")
}

#[test]
fn workers_that_wait_for_the_start_sleep(rt: HostRuntime) {
    let before = used_so_far(&rt);
    let begin = start_late(&rt, &Start::new(), GO);
    let end = start_late(&rt, &Start::new(), CALLED_OFF);
    let used = used_so_far(&rt).saturating_sub(before);
    assert!(rt; used < Duration::from_millis(USED), "{used:?}");
    assert!(rt; matches!(begin, (Ok(()), Ok(()))));
    assert!(rt;
        matches!(
            end,
            (Err(RunFault::NotStarted(0)), Err(RunFault::NotStarted(1)))
        )
    );
}
