//! A parking that records what a monitor asks of it, and whose parks end when the test lets them.
ghost use Rattle.std.specs.Prelude.{◌≡◌, ◌<◌};

use crate::storms::wait_for;
use history::fault::Fault;
use permit::{Call, Parking, ScriptedParking, Woke};
use std::alloc::{AllocError, Global};
use std::sync::Wait;
use std::sync::atomic::{AtomicBool, AtomicU64, Ordering};
use std::time::Clock;
use word_lock::Token;

/// How many calls are recorded.
const PLACES: u32 = 16;

/// How often an unpark that is kept checks whether it may return.
const SPINS: u32 = 500_000_000;

/// Returns park results from a list, and `Permit` after that. A park ends when the test allows it, or after
/// some 10 seconds.
#[derive(Drop)]
pub struct NotedParking {
    notes: ScriptedParking,
    parks: AtomicU64,
    /// How many parks may end.
    ends: AtomicU64,
    clock: AtomicU64,
    /// How far the clock goes on each time it is read.
    tick: u64,
    /// Whether the next reading of the clock interrupts seat 1.
    is_late: AtomicBool,
    keeps_unparks: AtomicBool,
}

impl NotedParking {
    /// Opens one whose clock stays at 0.
    pub fn open(alloc: Global, answers: &[Woke]) -> Result<NotedParking, Fault> {
        NotedParking::open_ticking(alloc, answers, 0)
    }

    /// Opens one whose clock starts at 0, and goes on by `tick` milliseconds each time it is read.
    pub fn open_ticking(alloc: Global, answers: &[Woke], tick: u64) -> Result<NotedParking, Fault> {
        let answers = Vec::from_slice(alloc, answers)?;
        Ok(NotedParking {
            notes: ScriptedParking::open(alloc, answers, PLACES)?,
            parks: AtomicU64::new(0),
            ends: AtomicU64::new(0),
            clock: AtomicU64::new(0),
            tick,
            is_late: AtomicBool::new(false),
            keeps_unparks: AtomicBool::new(false),
        })
    }

    /// Waits until this number of parks have begun, and returns whether they have.
    pub fn wait_for_parks<R: Clock>(&self, rt: &R, parks: u64) -> bool {
        wait_for(rt, &self.parks, parks)
    }

    /// Ends a park, waits for the next one, and returns whether it came.
    pub fn next_park<R: Clock>(&self, rt: &R) -> bool {
        let ended = self.ends.fetch_add(1, Ordering::SeqCst);
        self.wait_for_parks(rt, ended.saturating_add(2))
    }

    /// Lets the next reading of the clock interrupt seat 1: a call reads it after it has looked for a pending
    /// interrupt, and before its first step.
    pub fn interrupt_late(&self) {
        self.is_late.store(true, Ordering::SeqCst);
    }

    /// Ends all parks, also later ones.
    pub fn end_all(&self) {
        self.ends.store(u64::MAX, Ordering::SeqCst);
    }

    /// Keeps an unpark, which ends all parks, until `keep_unparks(false)`. If late, it interrupts seat 0.
    pub fn keep_unparks(&self, keeps: bool) {
        self.keeps_unparks.store(keeps, Ordering::SeqCst);
    }

    /// Returns the calls of park, unpark and interrupt, in order.
    pub fn calls(&self, alloc: Global) -> Result<Vec<Call>, AllocError> {
        self.notes.calls(alloc)
    }
}

impl Parking for NotedParking {
    ghost use Rattle.test_threads.specs.Noted.{Did};

    ghost seats = { λ _. 256 };

    ghost did = { λ place deed. Did place.notes deed };

    fn now<R: Clock>(&self, _rt: &R) -> u64 {
        if self.is_late.swap(false, Ordering::SeqCst) {
            self.notes.interrupt(1);
        }
        self.clock.fetch_add(self.tick, Ordering::SeqCst)
    }

    fn park<R: Wait + Clock>(
        &self,
        rt: &R,
        seat: u16,
        until: Option<u64>,
        interruptible: bool,
    ) -> Woke {
        let answer = self.notes.park(rt, seat, until, interruptible);
        let number = self.parks.fetch_add(1, Ordering::SeqCst);
        let _ended = wait_for(rt, &self.ends, number.saturating_add(1));
        answer
    }

    fn unpark(&self, seat: u16, by: &Token) {
        self.notes.unpark(seat, by);
        for _ in 0..SPINS {
            if !self.keeps_unparks.load(Ordering::SeqCst) {
                return;
            }
            self.end_all();
        }
        self.notes.interrupt(0);
    }

    fn interrupt(&self, seat: u16) {
        self.notes.interrupt(seat);
    }

    fn take_interrupt(&self, seat: u16) -> bool {
        self.notes.take_interrupt(seat)
    }
}
