//! The word of the sleepers after each step, and as a thread is enlisted while another sends a wake.

use super::*;
use std::hint::spin_loop;
use std::sync::atomic::AtomicBool;
use std::thread::{Threads, join, sleep};
use std::time::{Clock, Duration};

fn word_of(sleepers: &Sleepers) -> u64 {
    sleepers.word.load(Ordering::SeqCst)
}

#[test]
fn each_step_leaves_its_word(rt: HostRuntime) {
    let sleepers = Sleepers::new();
    sleepers.wake_one();
    assert!(rt; !sleepers.are_some() && word_of(&sleepers) == 0);
    let one = sleepers.enlist(None);
    let two = sleepers.enlist(None);
    assert!(rt; one.wakes == 0 && two.wakes == 0 && word_of(&sleepers) == 2 * ENLISTED);
    sleepers.wake_one();
    assert!(rt; sleepers.are_some() && word_of(&sleepers) == ENLISTED + ON_THE_WAY + 1);
    sleepers.wake_one();
    assert_eq!(rt; word_of(&sleepers), ENLISTED + ON_THE_WAY + 1);
    sleepers.arrive(one);
    assert_eq!(rt; word_of(&sleepers), ENLISTED + 1);
    sleepers.wake_one();
    assert!(rt; !sleepers.are_some() && word_of(&sleepers) == ON_THE_WAY + 2);
    let two = sleepers.enlist(Some(two));
    assert!(rt; two.wakes == 2 && word_of(&sleepers) == ENLISTED + 2);
    sleepers.arrive(two);
    assert_eq!(rt; word_of(&sleepers), ENLISTED + 2);
}

/// How often a thread looks whether another one is awake, once a millisecond.
const CHECKS: u32 = 5_000;

/// Wakes all who sleep, so that a test ends.
pub(crate) fn wake_all(sleepers: &Sleepers) {
    sleepers.word.wake_all();
}

/// Returns whether a flag is set within some seconds. Then all who sleep are woken, so that the test ends.
pub(crate) fn is_awake_soon<R: Clock>(rt: &R, sleepers: &Sleepers, flag: &AtomicBool) -> bool {
    for _ in 0..CHECKS {
        if flag.load(Ordering::SeqCst) {
            return true;
        }
        sleep(rt, Duration::from_millis(1));
    }
    wake_all(sleepers);
    false
}

/// Goes to sleep after its wake was sent, and returns whether it was awake by itself.
fn sleep_after_wake<R: Threads + Wait + Clock + Sync>(rt: &R, sleepers: &Sleepers) -> bool {
    let is_awake = &AtomicBool::new(false);
    let ((), is_soon) = join(
        rt,
        || {
            let enlisted = sleepers.enlist(None);
            sleepers.wake_one();
            sleepers.sleep(rt, &enlisted);
            sleepers.arrive(enlisted);
            is_awake.store(true, Ordering::SeqCst);
        },
        || -> bool { is_awake_soon(rt, sleepers, is_awake) },
    );
    is_soon
}

#[test]
fn a_thread_whose_wake_was_sent_does_not_sleep(rt: HostRuntime) {
    assert!(rt; sleep_after_wake(&rt, &Sleepers::new()));
}

/// How often a thread is enlisted while another sends wakes, if that takes no longer than so many milliseconds.
const TURNS: u32 = 50_000;

const LONGEST: u64 = 2_000;

/// How many turns a thread waits for a wake to be sent. Then it sleeps for so many microseconds, so many times.
const SPINS: u32 = 1_000;

const PAUSE: u64 = 50;

const PAUSES: u32 = 100_000;

/// Returns whether the wake of the only thread that is enlisted is sent within some seconds.
fn is_sent<R: Clock>(rt: &R, sleepers: &Sleepers) -> bool {
    for _ in 0..SPINS {
        if !sleepers.are_some() {
            return true;
        }
        spin_loop();
    }
    for _ in 0..PAUSES {
        if !sleepers.are_some() {
            return true;
        }
        sleep(rt, Duration::from_micros(PAUSE));
    }
    false
}

/// Is enlisted, and returns whether it knows after that that its wake was sent.
fn knows_its_wake<R: Clock>(rt: &R, sleepers: &Sleepers) -> bool {
    let enlisted = sleepers.enlist(None);
    let is_sent = is_sent(rt, sleepers);
    let has_changed = word_of(sleepers) % ON_THE_WAY != u64::from(enlisted.wakes);
    sleepers.arrive(enlisted);
    is_sent && has_changed
}

/// Is enlisted many times, and returns whether it knew its wake each time.
fn knows_all_wakes<R: Clock>(rt: &R, sleepers: &Sleepers, is_over: &AtomicBool) -> bool {
    let begun = rt.monotonic().unwrap_or(Duration::ZERO);
    let mut knows_all = true;
    for _ in 0..TURNS {
        knows_all = knows_its_wake(rt, sleepers);
        let passed = rt
            .monotonic()
            .unwrap_or(Duration::ZERO)
            .saturating_sub(begun);
        if !knows_all || Duration::from_millis(LONGEST) <= passed {
            break;
        }
    }
    is_over.store(true, Ordering::SeqCst);
    knows_all
}

/// Sends a wake whenever a thread is enlisted.
fn send_wakes<R: Wait>(rt: &R, sleepers: &Sleepers, is_over: &AtomicBool) {
    for _ in rt.forever() {
        if is_over.load(Ordering::SeqCst) {
            break;
        }
        if sleepers.are_some() {
            sleepers.wake_one();
        }
    }
}

fn enlist_and_wake<R: Threads + Wait + Clock + Sync>(rt: &R, sleepers: &Sleepers) -> bool {
    let is_over = &AtomicBool::new(false);
    let (knows_all, ()) = join(
        rt,
        || -> bool { knows_all_wakes(rt, sleepers, is_over) },
        || { send_wakes(rt, sleepers, is_over) },
    );
    knows_all
}

// If the number of wakes were read after the thread is enlisted, it could have its own wake in it. The thread would
// sleep, and no unlock would wake it.
#[test]
fn a_wake_that_is_sent_as_a_thread_is_enlisted_is_known_to_it(rt: HostRuntime) {
    assert!(rt; enlist_and_wake(&rt, &Sleepers::new()));
}

/// Returns whether any wake was sent since a thread was enlisted.
fn is_wake_sent(sleepers: &Sleepers, enlisted: &Enlisted) -> bool {
    word_of(sleepers) % ON_THE_WAY != u64::from(enlisted.wakes)
}

/// Returns whether a wake is sent within some seconds after a thread was enlisted.
fn is_woken<R: Clock>(rt: &R, sleepers: &Sleepers, enlisted: &Enlisted) -> bool {
    for _ in 0..SPINS {
        if is_wake_sent(sleepers, enlisted) {
            return true;
        }
        spin_loop();
    }
    for _ in 0..PAUSES {
        if is_wake_sent(sleepers, enlisted) {
            return true;
        }
        sleep(rt, Duration::from_micros(PAUSE));
    }
    false
}

/// Is enlisted beside a thread that was, and that has the lock by now without a wake. Returns whether it is woken.
fn is_woken_beside_another<R: Clock>(rt: &R, sleepers: &Sleepers) -> bool {
    let other = sleepers.enlist(None);
    sleepers.arrive(other);
    let enlisted = sleepers.enlist(None);
    let is_woken = is_woken(rt, sleepers, &enlisted);
    sleepers.arrive(enlisted);
    is_woken
}

fn is_woken_each_time<R: Clock>(rt: &R, sleepers: &Sleepers, is_over: &AtomicBool) -> bool {
    let begun = rt.monotonic().unwrap_or(Duration::ZERO);
    let mut is_woken = true;
    for _ in 0..TURNS {
        is_woken = is_woken_beside_another(rt, sleepers);
        let passed = rt
            .monotonic()
            .unwrap_or(Duration::ZERO)
            .saturating_sub(begun);
        if !is_woken || Duration::from_millis(LONGEST) <= passed {
            break;
        }
    }
    is_over.store(true, Ordering::SeqCst);
    is_woken
}

fn enlist_beside_another<R: Threads + Wait + Clock + Sync>(rt: &R, sleepers: &Sleepers) -> bool {
    let is_over = &AtomicBool::new(false);
    let (is_woken, ()) = join(
        rt,
        || -> bool { is_woken_each_time(rt, sleepers, is_over) },
        || { send_wakes(rt, sleepers, is_over) },
    );
    is_woken
}

// If the mark of the woken thread were cleared before the thread is enlisted, the wake of another one could set it in
// between. Then no unlock would wake the thread, since one seems to be on its way.
#[test]
fn a_wake_that_is_sent_as_a_thread_is_enlisted_does_not_keep_its_own_back(rt: HostRuntime) {
    assert!(rt; enlist_beside_another(&rt, &Sleepers::new()));
}

fn enlist_often(sleepers: &Sleepers) {
    for _ in 0..TURNS {
        let enlisted = sleepers.enlist(None);
        sleepers.arrive(enlisted);
    }
}

/// Two threads are enlisted many times while a third one sends wakes.
fn enlist_two_and_wake<R: Threads + Wait + Sync>(rt: &R, sleepers: &Sleepers) {
    let is_over = &AtomicBool::new(false);
    let ((), ()) = join(
        rt,
        || {
            let ((), ()) = join(
                rt,
                || { enlist_often(sleepers) },
                || { enlist_often(sleepers) },
            );
            is_over.store(true, Ordering::SeqCst);
        },
        || { send_wakes(rt, sleepers, is_over) },
    );
}

#[test]
fn whoever_was_enlisted_is_counted_until_a_wake_is_sent_for_it(rt: HostRuntime) {
    let sleepers = Sleepers::new();
    enlist_two_and_wake(&rt, &sleepers);
    let word = word_of(&sleepers);
    let (left, sent) = (word / ENLISTED, word % ON_THE_WAY);
    assert_eq!(rt; left.saturating_add(sent), 2 * u64::from(TURNS));
}
