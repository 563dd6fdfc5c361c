//! Gates that let workers wait for each other, that refuse a call, or that count calls.
ghost use Rattle.std.specs.Prelude.{◌≡◌, true};

use std::sync::Wait;
use std::sync::atomic::{AtomicBool, AtomicU64, Ordering};
use std::thread;
use std::time::{Clock, Duration};
use workers::Gate;

/// How often a worker checks, once a millisecond. After that the gate is shut: workers that run one after
/// another fail, and don't hang.
const TURNS: u32 = 10_000;

/// Lets two workers make two calls each, if they run at the same time. Worker 1 waits with its first call
/// until worker 0 has asked for one, and worker 0 until worker 1 has made both. Worker 1 waits once more until
/// worker 0 asks for its second one. So a worker that notifies the gate before its call makes it too late.
#[derive(Drop)]
pub struct Crossing {
    has_asked: AtomicBool,
    has_ended: AtomicBool,
    has_asked_again: AtomicBool,
}

impl Crossing {
    pub fn new() -> Crossing {
        Crossing {
            has_asked: AtomicBool::new(false),
            has_ended: AtomicBool::new(false),
            has_asked_again: AtomicBool::new(false),
        }
    }
}

/// Returns whether a flag is set in time.
fn is_set<R: Clock>(rt: &R, flag: &AtomicBool) -> bool {
    is_set_in(rt, flag, TURNS)
}

/// Returns whether a flag is set in this many milliseconds.
fn is_set_in<R: Clock>(rt: &R, flag: &AtomicBool, turns: u32) -> bool {
    for _ in 0..turns {
        if flag.load(Ordering::SeqCst) {
            return true;
        }
        thread::sleep(rt, Duration::from_millis(1));
    }
    false
}

impl Gate for Crossing {
    ghost answers = { λ _ _ _ _. Unit {0} };

    fn before<R: Wait + Clock>(&self, rt: &R, worker: u16, call: u64) -> bool {
        match (worker, call) {
            (0, 0) => {
                self.has_asked.store(true, Ordering::SeqCst);
                is_set(rt, &self.has_ended)
            }
            (1, 0) => is_set(rt, &self.has_asked),
            (0, 1) => {
                self.has_asked_again.store(true, Ordering::SeqCst);
                true
            }
            _ => true,
        }
    }

    fn after<R: Wait + Clock>(&self, rt: &R, worker: u16, call: u64) {
        if worker == 1 && call == 1 {
            self.has_ended.store(true, Ordering::SeqCst);
            let _has_come = is_set(rt, &self.has_asked_again);
        }
    }
}

/// How long worker 1 is watched.
const MOMENT: u32 = 100;

/// Refuses the calls of worker 0, and lets that of worker 2 go when it has watched worker 1 for a moment. So
/// what worker 1 waits for comes from worker 2, unless worker 0 makes a call all the same.
#[derive(Drop)]
pub struct Refusing {
    has_refused: AtomicBool,
    has_ended: AtomicBool,
    has_ended_early: AtomicBool,
}

impl Refusing {
    pub fn new() -> Refusing {
        Refusing {
            has_refused: AtomicBool::new(false),
            has_ended: AtomicBool::new(false),
            has_ended_early: AtomicBool::new(false),
        }
    }

    /// Returns whether the call of worker 1 ended before that of worker 2 was let go.
    pub fn has_ended_early(&self) -> bool {
        self.has_ended_early.load(Ordering::SeqCst)
    }
}

impl Gate for Refusing {
    ghost answers = { λ _ _ _ _. Unit {0} };

    fn before<R: Wait + Clock>(&self, rt: &R, worker: u16, _call: u64) -> bool {
        match worker {
            0 => {
                self.has_refused.store(true, Ordering::SeqCst);
                false
            }
            2 => {
                let _is_refused = is_set(rt, &self.has_refused);
                if is_set_in(rt, &self.has_ended, MOMENT) {
                    self.has_ended_early.store(true, Ordering::SeqCst);
                }
                true
            }
            _ => true,
        }
    }

    fn after<R: Wait + Clock>(&self, _rt: &R, worker: u16, _call: u64) {
        if worker == 1 {
            self.has_ended.store(true, Ordering::SeqCst);
        }
    }
}

/// What one worker asked the gate and notified it of. The worker may make `limit` calls.
#[derive(Drop)]
struct Count {
    limit: u64,
    asked: AtomicU64,
    answered: AtomicU64,
}

impl Count {
    fn new(limit: u64) -> Count {
        Count {
            limit,
            asked: AtomicU64::new(0),
            answered: AtomicU64::new(0),
        }
    }
}

/// Lets each of the first four workers make a limited number of calls, and all others any number. It counts
/// what it is asked and notified of. Calls whose numbers aren't the next from 0 on are astray.
#[derive(Drop)]
pub struct Tally {
    counts: [Count; 4],
    gone: AtomicU64,
    astray: AtomicU64,
}

impl Tally {
    pub fn new(limits: [u64; 4]) -> Tally {
        Tally {
            counts: limits.map(|limit| Count::new(limit)),
            gone: AtomicU64::new(0),
            astray: AtomicU64::new(0),
        }
    }

    /// Returns whether the four workers asked for these numbers of calls, of which these numbers have
    /// returned, and gave the next number each time.
    pub fn has_counted(&self, asked: [u64; 4], answered: [u64; 4]) -> bool {
        let [a, b, c, d] = &self.counts;
        let are_asked = [a, b, c, d].map(|count| count.asked.load(Ordering::SeqCst)) == asked;
        let are_answered = [a, b, c, d].map(|count| count.answered.load(Ordering::SeqCst))
            == answered;
        are_asked && are_answered && self.astray.load(Ordering::SeqCst) == 0
    }

    /// Returns how many calls it let go.
    pub fn gone(&self) -> u64 {
        self.gone.load(Ordering::SeqCst)
    }

    /// Counts a call of this number.
    fn note(&self, count: &AtomicU64, call: u64) {
        if count.fetch_add(1, Ordering::SeqCst) != call {
            self.astray.fetch_add(1, Ordering::SeqCst);
        }
    }
}

impl Gate for Tally {
    ghost answers = { λ _ _ _ _. Unit {0} };

    fn before<R: Wait + Clock>(&self, _rt: &R, worker: u16, call: u64) -> bool {
        let goes = match self.counts.get(worker as usize) {
            Some(count) => {
                self.note(&count.asked, call);
                call < count.limit
            }
            None => true,
        };
        if goes {
            self.gone.fetch_add(1, Ordering::SeqCst);
        }
        goes
    }

    fn after<R: Wait + Clock>(&self, _rt: &R, worker: u16, call: u64) {
        match self.counts.get(worker as usize) {
            Some(count) => self.note(&count.answered, call),
            None => {}
        }
    }
}
