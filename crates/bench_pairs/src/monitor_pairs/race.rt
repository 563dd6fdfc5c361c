//! When the threads start and stop.

use std::sync::atomic::{AtomicBool, AtomicU64, Ordering};
use std::thread;
use std::time::{Clock, Duration, Instant};

/// How often a thread checks whether the others have started. After that it goes on without them, so no
/// thread waits forever if the system makes too few.
const LOOKS: u32 = 1_000_000;

/// What ends the pairs of each thread.
#[derive(Clone, Copy)]
pub enum Limit {
    Pairs(u64),
    /// After each pair a thread works for so many steps without the lock.
    Time(Duration, u64),
}

/// What the threads at one monitor share besides it.
#[derive(Drop)]
pub struct Race {
    threads: u64,
    limit: Limit,
    ready: AtomicU64,
    is_on: AtomicBool,
    is_over: AtomicBool,
    pairs: AtomicU64,
}

impl Race {
    pub fn new(threads: u16, limit: Limit) -> Self {
        Race {
            threads: u64::from(threads),
            limit,
            ready: AtomicU64::new(0),
            is_on: AtomicBool::new(false),
            is_over: AtomicBool::new(false),
            pairs: AtomicU64::new(0),
        }
    }

    /// Returns the most pairs that a thread makes.
    pub fn most_pairs(&self) -> u64 {
        match self.limit {
            Limit::Pairs(pairs) => pairs,
            Limit::Time(_, _) => u64::MAX,
        }
    }

    /// Works after a pair, without the lock. A step takes some 7 nanoseconds.
    #[inline]
    pub fn work(&self) {
        let Limit::Time(_, steps) = self.limit else {
            return;
        };
        let own = AtomicU64::new(0);
        for _ in 0..steps {
            own.fetch_add(1, Ordering::SeqCst);
        }
    }

    /// Starts the threads together, and stops them if their time is limited. Returns how long they worked.
    pub fn keep_time<R: Clock>(&self, rt: &R) -> Duration {
        for _ in 0..LOOKS {
            if self.threads <= self.ready.load(Ordering::SeqCst) {
                break;
            }
            thread::yield_now();
        }
        let start = Instant::now(rt).ok();
        self.is_on.store(true, Ordering::SeqCst);
        let Limit::Time(time, _) = self.limit else {
            return Duration::ZERO;
        };
        thread::sleep(rt, time);
        self.is_over.store(true, Ordering::SeqCst);
        start
            .and_then(|start| start.elapsed(rt).ok())
            .unwrap_or(time)
    }

    /// Waits until the threads start together.
    pub fn wait_for_start(&self) {
        self.ready.fetch_add(1, Ordering::SeqCst);
        for _ in 0..LOOKS {
            if self.is_on.load(Ordering::SeqCst) {
                break;
            }
            thread::yield_now();
        }
    }

    pub fn is_over(&self) -> bool {
        self.is_over.load(Ordering::SeqCst)
    }

    /// Adds the pairs of a thread.
    pub fn add(&self, pairs: u64) {
        self.pairs.fetch_add(pairs, Ordering::SeqCst);
    }

    /// Returns the pairs of all threads.
    pub fn pairs(&self) -> u64 {
        self.pairs.load(Ordering::SeqCst)
    }
}
