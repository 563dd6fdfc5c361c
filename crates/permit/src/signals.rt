//! The word of a seat: its permit, its interrupt flag, and how many threads sleep at it.
//!
//! | bits | meaning |
//! |---|---|
//! | 0 | the permit is available |
//! | 1 | the interrupt flag is set |
//! | 2 and up | the number of threads that sleep at the seat, or are about to |
//!
//! **No wake is lost.** A thread counts itself before it reads the word for the last time. It sleeps only if
//! what it waits for isn't in what it read. As it puts the thread to sleep, the system compares the word with
//! what was read. A signal is set in one atomic step, which returns the count at that time. If the step comes
//! before the last read, the thread sees the signal. If it comes between the read and the comparison, the
//! word has changed and the thread doesn't sleep. If it comes later, the count isn't 0, and the sender wakes
//! all who sleep. A sender that finds its signal set already does nothing more. The thread that set it has
//! woken, or is about to wake, all who slept then, and any thread that comes later sees the signal.
//!
//! **A thread looks before it sleeps.** To sleep and to be woken takes two system calls, and each of them longer
//! than most holders keep a lock. Between looks the thread lets others run, since the thread that is to send
//! the signal may have no processor.
ghost use Rattle.std.specs.Prelude.{◌≡◌, ◌+◌, ◌-◌, ◌^◌, ◌↔◌, true};
ghost use Rattle.permit.specs.inner.Signal.{IsAwaited, IsSet, bit_of, woke_by};

use crate::parking::Woke;
use std::sync::Wait;
use std::sync::atomic::{AtomicU64, Ordering};
use std::thread::yield_now;
use std::time::Duration;

/// What a seat is sent, and what a park takes.
#[derive(Clone, Copy)]
pub(crate) enum Signal {
    Permit,
    Interrupt,
}

const SLEEPER: u64 = 4;

// How many times a thread looks for a signal before it lets other threads run.
const LOOKS: u32 = 50;

// How many times it lets others run before it sleeps.
const YIELDS: u32 = 100;

// The bits that the system compares.
const LOW: u64 = 0xffff_ffff;

impl Signal {
    #[inline(always)]
    fn bit(self) -> u64
        ensures { result ≡ bit_of self }
    {
        match self {
            Signal::Permit => 1,
            Signal::Interrupt => 2,
        }
    }

    // All bits except its own.
    #[inline(always)]
    fn others(self) -> u64
        ensures { result + bit_of self ≡ 2 ^ 64 - 1 }
    {
        u64::MAX - self.bit()
    }

    #[inline(always)]
    fn is_set(self, word: u64) -> bool
        ensures { result ≡ true ↔ IsSet self word }
    {
        match self {
            Signal::Permit => word % 2 == 1,
            Signal::Interrupt => word / 2 % 2 == 1,
        }
    }

    /// Why a park that takes it ends.
    #[inline(always)]
    pub(crate) fn woke(self) -> Woke
        ensures { result ≡ woke_by self }
    {
        match self {
            Signal::Permit => Woke::Permit,
            Signal::Interrupt => Woke::Interrupted,
        }
    }
}

/// Returns the signal of the word that a park takes, if there is one.
#[inline(always)]
pub(crate) fn awaited(word: u64, interruptible: bool) -> Option<Signal>
    ensures { IsAwaited word interruptible result }
{
    if interruptible && Signal::Interrupt.is_set(word) {
        Some(Signal::Interrupt)
    } else if Signal::Permit.is_set(word) {
        Some(Signal::Permit)
    } else {
        None
    }
}

/// A thread that is counted as one that sleeps, until it was struck off. Only `strike_off` takes this, and it
/// can't be dropped.
struct Sleeper {
    // the word as it was read after the thread was counted
    read: u64,
}

#[derive(Drop)]
pub(crate) struct Signals {
    word: AtomicU64,
}

impl Signals {
    pub(crate) fn new() -> Signals {
        Signals {
            word: AtomicU64::new(0),
        }
    }

    pub(crate) fn read(&self) -> u64 {
        self.word.load(Ordering::SeqCst)
    }

    /// Sets a signal and wakes all threads that sleep here. It costs one read if the signal is set already,
    /// and no system call if nobody sleeps.
    pub(crate) fn send(&self, signal: Signal) {
        if signal.is_set(self.read()) {
            return;
        }
        let was = self.word.fetch_or(signal.bit(), Ordering::SeqCst);
        if SLEEPER <= was {
            self.word.wake_all();
        }
    }

    /// Returns whether the signal was set, and clears it.
    pub(crate) fn take(&self, signal: Signal) -> bool {
        signal.is_set(self.read())
            && signal.is_set(self.word.fetch_and(signal.others(), Ordering::SeqCst))
    }

    /// Clears a signal that was read and returns whether it did: not if the word has changed since.
    pub(crate) fn take_unchanged(&self, read: u64, signal: Signal) -> bool
        requires { IsSet signal read }
    {
        let rest = without(read, signal);
        self.word
            .compare_exchange(read, rest, Ordering::SeqCst, Ordering::SeqCst)
            .is_ok()
    }

    /// Sleeps until a signal that the park takes is set, or until the time `left` is over, if there is one.
    /// It may return early.
    #[cold]
    pub(crate) fn sleep<R: Wait>(&self, rt: &R, interruptible: bool, left: Option<Duration>) {
        if !self.comes_soon(interruptible) {
            self.sleep_at_once(rt, interruptible, left);
        }
    }

    // The same without the looks before.
    fn sleep_at_once<R: Wait>(&self, rt: &R, interruptible: bool, left: Option<Duration>) {
        let sleeper = self.count_in();
        if awaited(sleeper.read, interruptible).is_none() {
            let low = (sleeper.read & LOW) as u32;
            match left {
                Some(left) => self.word.park_timeout(rt, low, left),
                None => self.word.park(rt, low),
            }
        }
        self.strike_off(sleeper);
    }

    // Looks a few times, lets others run, and so on, and returns whether a signal that the park takes is set.
    fn comes_soon(&self, interruptible: bool) -> bool {
        for _ in 0..YIELDS {
            for _ in 0..LOOKS {
                if awaited(self.read(), interruptible).is_some() {
                    return true;
                }
            }
            yield_now();
        }
        false
    }

    // Counts the thread as one that sleeps, and reads the word.
    fn count_in(&self) -> Sleeper {
        self.word.fetch_add(SLEEPER, Ordering::SeqCst);
        Sleeper { read: self.read() }
    }

    fn strike_off(&self, sleeper: Sleeper) {
        let Sleeper { read: _ } = sleeper;
        self.word.fetch_sub(SLEEPER, Ordering::SeqCst);
    }
}

// The word after a signal was taken.
#[inline(always)]
fn without(word: u64, signal: Signal) -> u64
    requires { IsSet signal word }
    ensures { result + bit_of signal ≡ word }
{
    word - signal.bit()
}

#[cfg(test)]
mod tests;
