//! A thread that goes to sleep at a lock that is free by then, or is freed meanwhile.
ghost use Rattle.word_lock.specs.Ready.{IsReady};

use super::*;
use crate::sleepers::tests::{is_awake_soon, wake_all};
use std::hint::spin_loop;
use std::sync::atomic::{AtomicBool, AtomicU32, Ordering};
use std::thread::{Threads, join, sleep};
use std::time::{Clock, Duration};

/// A value without entries.
#[derive(Drop)]
struct Blank;

impl Chronicle for Blank {
    ghost use Rattle.word_lock.specs.Point.{blank_point};

    ghost point = { λ _. blank_point };

    ghost fact = { λ _. Unit {0} };

    ghost sound = { λ _. Unit {0} };

    ghost is_sound = { λ _ _. tt };
}

/// Goes to sleep at a lock, and returns whether it was awake by itself.
fn sleep_at<R: Threads + Wait + Clock + Sync>(rt: &R, lock: &WordLock<Blank>) -> bool {
    let is_awake = &AtomicBool::new(false);
    let ((), is_soon) = join(
        rt,
        || {
            let enlisted = lock.sleep(rt, None);
            lock.sleepers.arrive(enlisted);
            is_awake.store(true, Ordering::SeqCst);
        },
        || -> bool { is_awake_soon(rt, &lock.sleepers, is_awake) },
    );
    is_soon
}

#[test]
fn nobody_sleeps_at_a_lock_that_is_free(rt: HostRuntime) {
    let Ok((lock, _tokens)) = WordLock::open(rt.alloc(), Blank, 1) else {
        panic!(rt; "memory")
    };
    assert!(rt; !lock.stays_taken() && sleep_at(&rt, &lock));
}

/// The last round that has begun, and the last one in which the other thread woke up.
#[derive(Drop)]
struct Rounds {
    begun: AtomicU32,
    ended: AtomicU32,
}

/// How many rounds are played, if that takes no longer than so many milliseconds.
const ROUNDS: u32 = 100_000;

const LONGEST: u64 = 2_000;

/// The number of a round that is not played.
const OVER: u32 = u32::MAX;

/// The lock is freed after at most so many pauses. By then the other thread has read whether it is free.
const PAUSES: u32 = 64;

/// How many turns a thread waits for the other one, before it looks only once a millisecond, so many times.
const SPINS: u32 = 10_000;

const CHECKS: u32 = 5_000;

/// Returns whether a number is reached within some seconds.
fn is_reached<R: Clock>(rt: &R, number: &AtomicU32, least: u32) -> bool {
    for _ in 0..SPINS {
        if least <= number.load(Ordering::SeqCst) {
            return true;
        }
        spin_loop();
    }
    for _ in 0..CHECKS {
        if least <= number.load(Ordering::SeqCst) {
            return true;
        }
        sleep(rt, Duration::from_millis(1));
    }
    false
}

/// Goes to sleep at the lock once in each round.
fn sleep_in_each<R: Wait + Clock>(rt: &R, lock: &WordLock<Blank>, rounds: &Rounds) {
    for number in 1..OVER {
        let is_begun = is_reached(rt, &rounds.begun, number);
        if !is_begun || rounds.begun.load(Ordering::SeqCst) == OVER {
            break;
        }
        let enlisted = lock.sleep(rt, None);
        lock.sleepers.arrive(enlisted);
        rounds.ended.store(number, Ordering::SeqCst);
    }
}

/// Has the lock as the other thread goes to sleep at it, and frees it. Returns whether that one woke up.
fn free_in_one<R: Wait + Clock>(
    rt: &R,
    lock: &WordLock<Blank>,
    token: &mut Token,
    rounds: &Rounds,
    number: u32,
) -> bool
    requires { IsReady lock.now 0 token.old }
    ensures { IsReady lock.now 0 token.new }
{
    let held = lock.lock(rt, token);
    rounds.begun.store(number, Ordering::SeqCst);
    pause(number % PAUSES);
    lock.unlock(token, held);
    is_reached(rt, &rounds.ended, number)
}

/// Frees the lock once in each round. Returns whether the other thread woke up each time.
fn free_in_each<R: Wait + Clock>(
    rt: &R,
    lock: &WordLock<Blank>,
    token: Token,
    rounds: &Rounds,
) -> bool
    requires { IsReady lock.now 0 token }
{
    let begun = rt.monotonic().unwrap_or(Duration::ZERO);
    let mut token = token;
    let mut is_awake = true;
    for number in 1..ROUNDS {
        is_awake = free_in_one(rt, lock, &mut token, rounds, number);
        let passed = rt
            .monotonic()
            .unwrap_or(Duration::ZERO)
            .saturating_sub(begun);
        if !is_awake || Duration::from_millis(LONGEST) <= passed {
            break;
        }
    }
    rounds.begun.store(OVER, Ordering::SeqCst);
    wake_all(&lock.sleepers);
    is_awake
}

fn sleep_and_free<R: Threads + Wait + Clock + Sync>(
    rt: &R,
    lock: &WordLock<Blank>,
    token: Token,
) -> bool
    requires { IsReady lock.now 0 token }
{
    let rounds = &Rounds {
        begun: AtomicU32::new(0),
        ended: AtomicU32::new(0),
    };
    let ((), is_awake) = join(
        rt,
        || { sleep_in_each(rt, lock, rounds) },
        || -> bool { free_in_each(rt, lock, token, rounds) },
    );
    is_awake
}

// A thread that read whether the lock is free before it is enlisted could sleep at a free lock: if the lock is freed in
// between, nobody is seen to be enlisted, and nobody is woken.
#[test]
fn a_lock_that_is_freed_as_a_thread_goes_to_sleep_wakes_it(rt: HostRuntime) {
    let Ok((lock, mut tokens)) = WordLock::open(rt.alloc(), Blank, 1) else {
        panic!(rt; "memory")
    };
    let Some(token) = tokens.pop() else {
        panic!(rt; "no token")
    };
    assert!(rt; sleep_and_free(&rt, &lock, token));
}
