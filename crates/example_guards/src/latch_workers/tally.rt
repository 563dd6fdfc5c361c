//! The work, and its outcome.

use std::sync::atomic::{AtomicBool, AtomicU64, Ordering};

/// The work is to add up the squares of the numbers up to this.
pub const NUMBERS: u64 = 100;

/// What the workers and the foreman did and saw.
#[derive(Drop)]
pub struct Tally {
    is_laid_out: AtomicBool,
    taken: AtomicU64,
    sum: AtomicU64,
    early: AtomicU64,
    sum_at_end: AtomicU64,
    faults: AtomicU64,
}

/// The outcome of the work.
#[derive(Clone, Copy)]
pub struct Outcome {
    /// The sum that the foreman saw.
    pub sum_at_end: u64,
    /// How many workers began before the work was laid out.
    pub early: u64,
    /// How many workers, the foreman among them, could not work.
    pub faults: u64,
}

impl Tally {
    pub fn new() -> Self {
        Tally {
            is_laid_out: AtomicBool::new(false),
            taken: AtomicU64::new(0),
            sum: AtomicU64::new(0),
            early: AtomicU64::new(0),
            sum_at_end: AtomicU64::new(0),
            faults: AtomicU64::new(0),
        }
    }

    /// Lays the work out.
    pub fn lay_out(&self) {
        self.is_laid_out.store(true, Ordering::SeqCst);
    }

    /// Takes numbers until none is left.
    pub fn work(&self) {
        if !self.is_laid_out.load(Ordering::SeqCst) {
            self.early.fetch_add(1, Ordering::SeqCst);
        }
        for _ in 0..NUMBERS {
            let number = self.taken.fetch_add(1, Ordering::SeqCst).wrapping_add(1);
            if NUMBERS < number {
                break;
            }
            self.sum
                .fetch_add(number.wrapping_mul(number), Ordering::SeqCst);
        }
    }

    /// Notes what the workers have made so far.
    pub fn look(&self) {
        self.sum_at_end
            .store(self.sum.load(Ordering::SeqCst), Ordering::SeqCst);
    }

    /// Notes a fault of a call.
    pub fn fail(&self) {
        self.faults.fetch_add(1, Ordering::SeqCst);
    }

    /// The outcome so far.
    pub fn outcome(&self) -> Outcome {
        Outcome {
            sum_at_end: self.sum_at_end.load(Ordering::SeqCst),
            early: self.early.load(Ordering::SeqCst),
            faults: self.faults.load(Ordering::SeqCst),
        }
    }
}
