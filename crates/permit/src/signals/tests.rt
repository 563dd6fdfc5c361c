//! The word of a seat after each step, as two threads change it at the same time, and as one sleeps at it.

use super::*;
use std::hint::spin_loop;
use std::sync::atomic::AtomicBool;
use std::thread::{Threads, join, sleep};
use std::time::Clock;

#[test]
fn a_signal_is_set_until_it_is_taken(rt: HostRuntime) {
    let signals = Signals::new();
    signals.send(Signal::Permit);
    signals.send(Signal::Permit);
    assert_eq!(rt; signals.read(), 1);
    signals.send(Signal::Interrupt);
    assert_eq!(rt; signals.read(), 3);
    assert!(rt; signals.take(Signal::Permit) && !signals.take(Signal::Permit));
    assert_eq!(rt; signals.read(), 2);
    assert!(rt; signals.take(Signal::Interrupt) && !signals.take(Signal::Interrupt));
    assert_eq!(rt; signals.read(), 0);
}

/// As if another thread had sent a signal, or taken one, since the word was read.
#[test]
fn a_signal_that_was_read_is_taken_only_if_the_word_is_the_same(rt: HostRuntime) {
    let signals = Signals::new();
    signals.send(Signal::Permit);
    signals.send(Signal::Interrupt);
    assert!(rt; !signals.take_unchanged(1, Signal::Permit));
    assert_eq!(rt; signals.read(), 3);
    assert!(rt; signals.take_unchanged(3, Signal::Permit));
    assert!(rt; !signals.take_unchanged(3, Signal::Interrupt));
    assert_eq!(rt; signals.read(), 2);
}

#[test]
fn a_thread_reads_the_word_after_it_is_counted(rt: HostRuntime) {
    let signals = Signals::new();
    let one = signals.count_in();
    let two = signals.count_in();
    assert!(rt; one.read == SLEEPER && two.read == 2 * SLEEPER);
    signals.strike_off(one);
    assert_eq!(rt; signals.read(), SLEEPER);
    signals.strike_off(two);
    assert_eq!(rt; signals.read(), 0);
}

#[test]
fn a_signal_comes_soon_only_to_a_park_that_takes_it(rt: HostRuntime) {
    let signals = Signals::new();
    signals.send(Signal::Interrupt);
    assert!(rt; signals.comes_soon(true) && !signals.comes_soon(false));
    signals.send(Signal::Permit);
    assert!(rt; signals.comes_soon(false));
}

/// How often a thread does what it does beside another.
const TURNS: u32 = 100_000;

/// Sends a signal, counts a thread in and strikes it off, and takes the signal, many times. Returns how often the
/// signal was there.
fn send_and_take(signals: &Signals, signal: Signal) -> u32 {
    let mut taken = 0u32;
    for _ in 0..TURNS {
        signals.send(signal);
        let sleeper = signals.count_in();
        let is_read = signal.is_set(sleeper.read);
        signals.strike_off(sleeper);
        if signals.take(signal) && is_read {
            taken = taken.saturating_add(1);
        }
    }
    taken
}

fn send_and_take_both<R: Threads + Sync>(rt: &R, signals: &Signals) -> (u32, u32) {
    join(
        rt,
        || -> u32 { send_and_take(signals, Signal::Permit) },
        || -> u32 { send_and_take(signals, Signal::Interrupt) },
    )
}

#[test]
fn steps_of_two_threads_lose_nothing(rt: HostRuntime) {
    let signals = Signals::new();
    let taken = send_and_take_both(&rt, &signals);
    assert_eq!(rt; taken, (TURNS, TURNS));
    assert_eq!(rt; signals.read(), 0);
}

/// How long signals are sent to threads that take them, in milliseconds.
const LONGEST: u64 = 1_000;

/// Sends an interrupt whenever none is set, and returns how often it did.
fn send_often<R: Clock>(rt: &R, signals: &Signals, is_over: &AtomicBool) -> u32 {
    let begun = rt.monotonic().unwrap_or(Duration::ZERO);
    let mut sent = 0u32;
    for _ in 0..u32::MAX {
        if !Signal::Interrupt.is_set(signals.read()) {
            signals.send(Signal::Interrupt);
            sent = sent.saturating_add(1);
        }
        let passed = rt
            .monotonic()
            .unwrap_or(Duration::ZERO)
            .saturating_sub(begun);
        if Duration::from_millis(LONGEST) <= passed {
            break;
        }
    }
    is_over.store(true, Ordering::SeqCst);
    sent
}

/// Takes each interrupt that it finds, and returns how many it took.
fn take_often<R: Wait>(rt: &R, signals: &Signals, is_over: &AtomicBool) -> u32 {
    let mut taken = 0u32;
    for _ in rt.forever() {
        if signals.take(Signal::Interrupt) {
            taken = taken.saturating_add(1);
        } else if is_over.load(Ordering::SeqCst) {
            break;
        }
    }
    taken
}

/// Returns how many interrupts were sent, and how many two threads took.
fn send_to_two<R: Threads + Wait + Clock + Sync>(rt: &R, signals: &Signals) -> (u32, (u32, u32)) {
    let is_over = &AtomicBool::new(false);
    join(
        rt,
        || -> u32 { send_often(rt, signals, is_over) },
        || -> (u32, u32) {
            join(
                rt,
                || -> u32 { take_often(rt, signals, is_over) },
                || -> u32 { take_often(rt, signals, is_over) },
            )
        },
    )
}

#[test]
fn one_of_two_threads_takes_a_signal(rt: HostRuntime) {
    let signals = Signals::new();
    let (sent, (first, second)) = send_to_two(&rt, &signals);
    let left = u32::from(signals.take(Signal::Interrupt));
    let taken = first.saturating_add(second).saturating_add(left);
    assert_eq!(rt; taken, sent);
}

/// How often a thread looks at what another one does, once a millisecond.
const CHECKS: u32 = 10_000;

/// A thread that was counted sleeps after fewer milliseconds.
const ASLEEP: u64 = 20;

/// How many turns the first thread waits for the other, before it looks only once a millisecond.
const SPINS: u32 = 20_000;

/// Returns whether at least this many permits were taken within some seconds.
fn are_taken<R: Clock>(rt: &R, taken: &AtomicU64, least: u64) -> bool {
    for _ in 0..SPINS {
        if least <= taken.load(Ordering::SeqCst) {
            return true;
        }
        spin_loop();
    }
    for _ in 0..CHECKS {
        if least <= taken.load(Ordering::SeqCst) {
            return true;
        }
        sleep(rt, Duration::from_millis(1));
    }
    false
}

/// Sends one permit after another, and returns whether each is taken.
fn send_each<R: Clock>(rt: &R, signals: &Signals, taken: &AtomicU64) -> bool {
    let begun = rt.monotonic().unwrap_or(Duration::ZERO);
    let mut are_all_taken = true;
    for number in 1..u64::MAX {
        signals.send(Signal::Permit);
        are_all_taken = are_taken(rt, taken, number);
        let passed = rt
            .monotonic()
            .unwrap_or(Duration::ZERO)
            .saturating_sub(begun);
        if !are_all_taken || Duration::from_millis(LONGEST) <= passed {
            break;
        }
    }
    are_all_taken
}

/// Goes to sleep without a look, and takes the permit that wakes it, again and again.
fn sleep_each<R: Wait>(rt: &R, signals: &Signals, taken: &AtomicU64, is_over: &AtomicBool) {
    for _ in rt.forever() {
        if is_over.load(Ordering::SeqCst) {
            break;
        }
        signals.sleep_at_once(rt, false, None);
        if signals.take(Signal::Permit) {
            taken.fetch_add(1, Ordering::SeqCst);
        }
    }
}

/// Returns whether each permit wakes a thread that goes to sleep as it is sent.
fn send_to_a_sleeper<R: Threads + Wait + Clock + Sync>(rt: &R, signals: &Signals) -> bool {
    let taken = &AtomicU64::new(0);
    let is_over = &AtomicBool::new(false);
    let (are_all_taken, ()) = join(
        rt,
        || -> bool {
            let are_all_taken = send_each(rt, signals, taken);
            is_over.store(true, Ordering::SeqCst);
            signals.send(Signal::Permit);
            signals.word.wake_all();
            are_all_taken
        },
        || { sleep_each(rt, signals, taken, is_over) },
    );
    are_all_taken
}

// If the sender knew who sleeps from its first look, a thread that goes to sleep between the look and the step that sets
// the signal would sleep on. The sender is seldom held up just there.
#[test]
fn a_permit_wakes_a_thread_that_goes_to_sleep_as_it_is_sent(rt: HostRuntime) {
    assert!(rt; send_to_a_sleeper(&rt, &Signals::new()));
}

/// Returns whether so many threads are counted within some seconds.
fn are_counted<R: Clock>(rt: &R, signals: &Signals, count: u64) -> bool {
    for _ in 0..CHECKS {
        if signals.read() / SLEEPER == count {
            return true;
        }
        sleep(rt, Duration::from_millis(1));
    }
    false
}

/// Returns whether a flag is set within some seconds.
fn is_set_soon<R: Clock>(rt: &R, flag: &AtomicBool) -> bool {
    for _ in 0..CHECKS {
        if flag.load(Ordering::SeqCst) {
            return true;
        }
        sleep(rt, Duration::from_millis(1));
    }
    false
}

/// Sleeps until a signal is set that it takes.
fn sleep_until_set<R: Wait>(rt: &R, signals: &Signals, interruptible: bool) {
    for _ in rt.forever() {
        if awaited(signals.read(), interruptible).is_some() {
            break;
        }
        signals.sleep(rt, interruptible, None);
    }
}

/// Two threads sleep, and the first takes no interrupt. Returns whether an interrupt wakes the second, and then a
/// permit the first, though the interrupt is still set.
fn wake_both<R: Clock>(rt: &R, signals: &Signals, is_second_awake: &AtomicBool) -> bool {
    if !are_counted(rt, signals, 2) {
        return false;
    }
    sleep(rt, Duration::from_millis(ASLEEP));
    signals.send(Signal::Interrupt);
    if !is_set_soon(rt, is_second_awake) || !are_counted(rt, signals, 1) {
        return false;
    }
    sleep(rt, Duration::from_millis(ASLEEP));
    signals.send(Signal::Permit);
    are_counted(rt, signals, 0)
}

/// The same, and at its end both are awake, whatever was found.
fn wake_both_at_last<R: Clock>(rt: &R, signals: &Signals, is_second_awake: &AtomicBool) -> bool {
    let are_woken = wake_both(rt, signals, is_second_awake);
    signals.send(Signal::Interrupt);
    signals.send(Signal::Permit);
    signals.word.wake_all();
    are_woken
}

fn two_sleep<R: Threads + Wait + Clock + Sync>(
    rt: &R,
    signals: &Signals,
    is_second_awake: &AtomicBool,
) {
    let ((), ()) = join(
        rt,
        || { sleep_until_set(rt, signals, false) },
        || {
            let _is_first_asleep = are_counted(rt, signals, 1);
            sleep_until_set(rt, signals, true);
            is_second_awake.store(true, Ordering::SeqCst);
        },
    );
}

fn two_are_woken<R: Threads + Wait + Clock + Sync>(rt: &R, signals: &Signals) -> bool {
    let is_second_awake = &AtomicBool::new(false);
    let (are_woken, ()) = join(
        rt,
        || -> bool { wake_both_at_last(rt, signals, is_second_awake) },
        || { two_sleep(rt, signals, is_second_awake) },
    );
    are_woken
}

#[test]
fn a_signal_wakes_all_who_sleep_whatever_else_is_set(rt: HostRuntime) {
    assert!(rt; two_are_woken(&rt, &Signals::new()), "a thread slept on");
}
