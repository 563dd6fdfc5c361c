//! Two latches, and what the workers and their foreman do there.
ghost use Rattle.std.specs.Prelude.{◌≡◌, ◌≤◌};
ghost use Rattle.example_guards.specs.Worker.{IsAt};

use crate::latch_workers::tally::Tally;
use crate::latch_workers::worker::Worker;
use counting::latch::LatchHooks;
use history::fault::Fault;
use monitor::Monitor;
use monitor_fronts::Latch;
use permit::{Parking, ThreadParking};
use std::sync::Wait;
use std::time::Clock;

/// How many workers there are. Their seats have the numbers below this.
const WORKERS: u16 = 4;

/// The seat of the foreman, after those of the workers.
const FOREMAN: u16 = 4;

/// A seat for each worker and for the foreman.
pub const SEATS: u16 = 5;

/// Two latches. The foreman counts the first one down, and the workers the second one.
#[derive(Drop)]
pub struct Shift {
    pub parking: ThreadParking,
    pub start: Monitor<LatchHooks>,
    pub end: Monitor<LatchHooks>,
    pub tally: Tally,
    ghost seats: { parking ≡ 5 },
    ghost start_places: { start.header.seats ≤ parking },
    ghost end_places: { end.header.seats ≤ parking },
}

impl Shift {
    /// Waits for the start, works, and counts the end down.
    fn work<R: Wait + Clock>(&self, rt: &R, worker: &mut Worker) -> Result<(), Fault>
        requires { IsAt self.now.start self.now.end worker.old }
        ensures { IsAt self.now.start self.now.end worker.new }
    {
        Latch::of(&self.start).await_zero(rt, &self.parking, &mut worker.start)?;
        self.tally.work();
        Latch::of(&self.end).count_down(rt, &self.parking, &mut worker.end)
    }

    /// What a worker does. A worker that cannot work interrupts the foreman, who would wait for its count.
    pub fn take_part<R: Wait + Clock>(&self, rt: &R, worker: Worker) -> Worker
        requires { IsAt self.now.start self.now.end worker }
        ensures { IsAt self.now.start self.now.end result }
    {
        let mut worker = worker;
        if self.work(rt, &mut worker).is_err() {
            self.tally.fail();
            self.parking.interrupt(FOREMAN);
        }
        worker
    }

    /// Lays the work out, opens the start, waits for the end, and looks at what was made.
    fn oversee<R: Wait + Clock>(&self, rt: &R, foreman: &mut Worker) -> Result<(), Fault>
        requires { IsAt self.now.start self.now.end foreman.old }
        ensures { IsAt self.now.start self.now.end foreman.new }
    {
        self.tally.lay_out();
        Latch::of(&self.start).count_down(rt, &self.parking, &mut foreman.start)?;
        Latch::of(&self.end).await_zero(rt, &self.parking, &mut foreman.end)?;
        self.tally.look();
        Ok(())
    }

    /// What the foreman does when all workers have been started.
    pub fn lead<R: Wait + Clock>(&self, rt: &R, foreman: Worker) -> Worker
        requires { IsAt self.now.start self.now.end foreman }
        ensures { IsAt self.now.start self.now.end result }
    {
        let mut foreman = foreman;
        if self.oversee(rt, &mut foreman).is_err() {
            self.tally.fail();
            self.call_off();
        }
        foreman
    }

    /// Interrupts each worker. A worker that waits for the start, or comes to it, does not work.
    pub fn call_off(&self) {
        for worker in 0..WORKERS {
            self.parking.interrupt(worker);
        }
    }
}
