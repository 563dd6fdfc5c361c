//! Pseudo-random steps, which are the same for the same seed.
ghost use Rattle.std.specs.Prelude.{◌≡◌, ◌<◌};

use history::entry::Mode;
use history::header::Object;
use history::step::Step;
use rand_core::utils::NextWord;
use rand_pcg::Pcg32;
use std::thread;
use std::time::{Clock, Duration};

const SEED: u64 = 20_040_930;

/// Numbers that are the same for the same seat, or for the list of all seats.
#[derive(Drop)]
pub struct Chance {
    words: Pcg32,
}

impl Chance {
    pub fn of_seat(seat: u16) -> Chance {
        Chance {
            words: Pcg32::new(SEED, u64::from(seat)),
        }
    }

    /// Numbers of the list that all seats share.
    pub fn of_list() -> Chance {
        Chance {
            words: Pcg32::new(SEED, 1000),
        }
    }

    /// Returns the next step of the list, of one of four seats at a lock, whatever that seat does.
    pub fn listed_step(&mut self) -> (u16, Step) {
        let seat = (self.below(4) % 4) as u16;
        let step = match self.below(8) {
            0..=1 => Step::Acquire(Mode::X, 1),
            2..=3 => Step::Give(Mode::X, 1),
            4 => Step::Expire,
            5 => Step::Interrupt,
            _ => Step::Look,
        };
        (seat, step)
    }

    /// Returns a number below `end`.
    fn below(&mut self, end: u32) -> u32
        requires { 0 < end }
        ensures { result < end }
    {
        self.words.next_word() % end
    }

    /// Sometimes sleeps for a moment, with all that the thread holds.
    pub fn pause<R: Clock>(&mut self, rt: &R) {
        if self.below(8) == 0 {
            thread::sleep(rt, Duration::from_micros(20));
        }
    }

    /// Returns a step that mostly suits whether the seat waits.
    pub fn step(&mut self, object: Object, waits: bool) -> Step {
        if (self.below(16) > 0) == waits {
            match self.below(32) {
                0 => Step::Expire,
                1 => Step::Interrupt,
                _ => Step::Look,
            }
        } else {
            self.idle_step(object)
        }
    }

    fn idle_step(&mut self, object: Object) -> Step {
        let (mode, n) = match object {
            Object::Lock(_) => (Mode::X, 1),
            Object::ReadWrite(_) if self.below(2) == 0 => (Mode::X, 1),
            Object::Semaphore(_, _) => (Mode::S, 1 + self.below(3)),
            _ => (Mode::S, 1),
        };
        match self.below(16) {
            0..=2 => Step::Acquire(mode, n),
            3 => Step::Try(mode, n),
            4 => Step::TryFair(mode, n),
            5 => Step::EntryInterrupt(mode, n),
            6..=11 => Step::Give(mode, n),
            12 => Step::Await(0),
            13 => Step::Signal(0),
            14 => Step::SignalAll(0),
            _ => Step::Drain,
        }
    }
}
