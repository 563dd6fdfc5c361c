//! The threads that sleep until a lock is free, and which of them to wake.
//!
//! | bits | meaning |
//! |---|---|
//! | 0 to 31 | how many wakes were sent, which the system compares as it puts a thread to sleep |
//! | 32 | a woken thread is on its way |
//! | 33 and up | how many threads are enlisted for which no wake was sent |
//!
//! **No wake is lost.** A thread enlists, reads the lock once more, and then sleeps unless a wake was sent
//! since it enlisted. So there are never more threads asleep than enlisted. A thread that unlocks removes one
//! from the count of enlisted ones and sends a wake, unless that count is 0 or a woken thread is on its way.
//! The woken thread clears its bit when it takes the lock, and so does each thread that enlists. If the bit
//! was set while somebody slept, one of them is now awake and will clear it. If it was set while nobody
//! slept, any thread that slept later has cleared it. So while a thread sleeps, either the next unlock sends
//! a wake, or a thread that is awake will take the lock and unlock it.
//!
//! **Few are awake.** A wake is a system call, and the woken thread takes the lock from the running ones.
//! Since only one is on its way at a time, the others sleep, and a running thread takes the lock many times
//! in between.

ghost use Rattle.std.specs.Prelude.{◌≡◌, ◌↔◌, ◌+◌, ◌%◌, ◌^◌, IfSome, IsNone};
ghost use Rattle.word_lock.specs.Sleeping.{wakes};
ghost use Rattle.word_lock.specs.inner.Sleeping.{IsDue, enlisted, on_the_way};

use std::sync::Wait;
use std::sync::atomic::{AtomicU64, Ordering};

const WAKE: u64 = 1;

const ON_THE_WAY: u64 = 1 << 32;

const ENLISTED: u64 = 1 << 33;

/// An enlisted thread. When it takes the lock, it must clear the bit of the woken thread. So only `arrive`
/// takes this value, and it can't be dropped.
pub(crate) struct Enlisted {
    // how many wakes were sent as it enlisted
    wakes: u32,
}

impl Enlisted {
    // What the step that enlisted a thread found in the word. The thread may have been enlisted before.
    fn at(found: u64, before: Option<Enlisted>) -> Enlisted
        ensures { result.wakes ≡ wakes found }
    {
        if let Some(Enlisted { wakes: _ }) = before {}
        let wakes = (found % ON_THE_WAY) as u32;
        Enlisted { wakes }
    }
}

#[derive(Drop)]
pub(crate) struct Sleepers {
    word: AtomicU64,
}

impl Sleepers {
    pub(crate) fn new() -> Sleepers {
        Sleepers {
            word: AtomicU64::new(0),
        }
    }

    /// Returns whether any thread is enlisted.
    pub(crate) fn are_some(&self) -> bool {
        ENLISTED <= self.word.load(Ordering::SeqCst)
    }

    /// Enlists a thread. It may have been enlisted before.
    pub(crate) fn enlist(&self, before: Option<Enlisted>) -> Enlisted {
        let enlisted = Enlisted::at(self.word.fetch_add(ENLISTED, Ordering::SeqCst), before);
        self.clear();
        enlisted
    }

    /// Sleeps until the number of wakes has changed. It may return early.
    pub(crate) fn sleep<R: Wait>(&self, rt: &R, enlisted: &Enlisted) {
        self.word.park(rt, enlisted.wakes);
    }

    /// Notes that an enlisted thread took the lock.
    pub(crate) fn arrive(&self, enlisted: Enlisted) {
        let Enlisted { wakes: _ } = enlisted;
        self.clear();
    }

    // Clears the bit of the woken thread.
    fn clear(&self) {
        self.word.fetch_and(!ON_THE_WAY, Ordering::SeqCst);
    }

    /// Wakes one thread, unless nobody is enlisted or a woken thread is on its way.
    #[cold]
    pub(crate) fn wake_one(&self) {
        let claimed = self
            .word
            .fetch_update(Ordering::SeqCst, Ordering::SeqCst, |word| with_wake(word));
        if claimed.is_ok() {
            self.word.wake_one();
        }
    }
}

/// Returns the word after a wake, if one is due.
fn with_wake(word: u64) -> Option<u64>
    ensures none { IsNone result ↔ (IsDue word → ⊥) }
    ensures enlisted { IfSome result (λ after. enlisted after + 1 ≡ enlisted word) }
    ensures on_the_way { IfSome result (λ after. on_the_way after ≡ 1) }
    ensures wakes { IfSome result (λ after. wakes after ≡ (wakes word + 1) % 2 ^ 32) }
{
    if word < ENLISTED || word / ON_THE_WAY % 2 == 1 {
        return None;
    }
    let rest = word / ENLISTED - 1;
    let wakes = (word % ON_THE_WAY + WAKE) % ON_THE_WAY;
    Some(rest * ENLISTED + ON_THE_WAY + wakes)
}

/// Lets some time pass, some 7 ns for each of `n`, in which the thread touches no memory that others use.
/// A step on an atomic number of its own takes that long, and no compiler leaves it out.
pub(crate) fn pause(n: u32) {
    let own = AtomicU64::new(0);
    for _ in 0..n {
        own.fetch_add(1, Ordering::SeqCst);
    }
}

#[cfg(test)]
pub(crate) mod tests;
