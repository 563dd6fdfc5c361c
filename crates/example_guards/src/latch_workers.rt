//! Workers that start together at one latch. The foreman waits for them at another.
//!
//! The foreman lays the work out, counts the first latch down, and waits until each worker has counted the
//! second one down. Each worker has a thread of its own. If the system refuses a thread, the other workers
//! are interrupted, and nobody works. Prints what the workers made, and what both latches were left with.
//! `close` promises that their histories are legal and have each call.

ghost use Rattle.std.specs.Prelude.{◌≡◌, All, IfOk};
ghost use Rattle.example_guards.specs.Opened.{IsOpened};
ghost use Rattle.monitor.specs.Closing.{shares};
ghost use Rattle.monitor.specs.Lawful.{blank};
ghost use Rattle.monitor.specs.Shown.{opening_passes};

mod fault;
mod shift;
mod tally;
mod threads;
mod worker;

use crate::latch_workers::fault::ShiftFault;
use crate::latch_workers::shift::{SEATS, Shift};
use crate::latch_workers::tally::{NUMBERS, Outcome, Tally};
use crate::latch_workers::threads::work_in_threads;
use crate::latch_workers::worker::{Worker, pair_up, part};
use counting::latch::LatchHooks;
use history::fault::Fault;
use history::header::{Header, Object};
use monitor::{Monitor, Pass};
use monitor_fronts::open_latch;
use permit::ThreadParking;
use std::alloc::Global;
use std::io;
use std::sync::Wait;
use std::thread::Threads;
use std::time::Clock;

/// The latch that the foreman counts down.
const START: Header = Header {
    object: Object::Latch(1),
    seats: SEATS,
    conditions: 0,
    cap: 100,
};

/// The latch that each worker counts down.
const END: Header = Header {
    object: Object::Latch(4),
    seats: SEATS,
    conditions: 0,
    cap: 100,
};

/// The pass of the foreman, and those of the workers.
fn apart(monitor: &Monitor<LatchHooks>, passes: Vec<Pass>) -> (Pass, Vec<Pass>)
    requires all { passes.items ≡ opening_passes monitor.now (blank monitor.now.header) 0 5 }
    requires own { All (λ p. p.lock ≡ monitor.now) passes.items }
    ensures last { result.0.lock ≡ monitor.now }
    ensures others { All (λ p. p.lock ≡ monitor.now) result.1.items }
{
    let mut passes = passes;
    let Some(last) = passes.pop() else {
        unreachable!()
    };
    (last, passes)
}

/// Opens both latches, with the passes of each.
fn open_shift<R: Wait + Clock>(
    rt: &R,
    alloc: Global,
) -> Result<(Shift, Vec<Pass>, Vec<Pass>), Fault>
    ensures start { IfOk result (λ r. IsOpened 1 r.0.start r.1.items) }
    ensures end { IfOk result (λ r. IsOpened 4 r.0.end r.2.items) }
{
    let parking = ThreadParking::open(rt, alloc, SEATS)?;
    let (start, starts) = open_latch(alloc, 1, SEATS, START.cap)?;
    let (end, ends) = open_latch(alloc, 4, SEATS, END.cap)?;
    let tally = Tally::new();
    let shift = Shift {
        parking,
        start,
        end,
        tally,
    };
    Ok((shift, starts, ends))
}

/// All threads work with these passes. Returns the passes.
fn work<R: Threads + Wait + Clock + Sync>(
    rt: &R,
    alloc: Global,
    shift: &Shift,
    starts: Vec<Pass>,
    ends: Vec<Pass>,
) -> Result<(Vec<Pass>, Vec<Pass>), ShiftFault>
    requires start { IsOpened 1 shift.now.start starts.items }
    requires end { IsOpened 4 shift.now.end ends.items }
    ensures starts { IfOk result (λ r. All (λ p. p.lock ≡ shift.now.start) r.0.items) }
    ensures ends { IfOk result (λ r. All (λ p. p.lock ≡ shift.now.end) r.1.items) }
{
    let (last_start, starts) = apart(&shift.start, starts);
    let (last_end, ends) = apart(&shift.end, ends);
    let foreman = Worker {
        start: last_start,
        end: last_end,
    };
    let workers = pair_up(alloc, shift, starts, ends)?;
    let workers = work_in_threads(rt, alloc, shift, workers, foreman)?;
    Ok(part(alloc, shift, workers)?)
}

/// What a latch was left with.
#[derive(Clone, Copy)]
struct Left {
    calls: u64,
    count: u32,
}

/// Closes a latch with its passes.
fn close<R: Wait>(rt: &R, latch: Monitor<LatchHooks>, passes: Vec<Pass>) -> Result<Left, Fault>
    requires { All (λ p. p.lock ≡ latch) passes.items }
    ensures { IfOk result (λ left. left.calls ≡ shares passes.items) }
{
    match latch.close(rt, passes) {
        Ok(closed) => Ok(Left {
            calls: closed.share,
            count: closed.balance.count,
        }),
        Err(_) => Err(Fault::OutOfPhase),
    }
}

/// The outcome of the work, and what both latches were left with.
#[derive(Clone, Copy)]
struct Summary {
    outcome: Outcome,
    start: Left,
    end: Left,
}

/// Closes both latches with their passes.
fn close_both<R: Wait>(
    rt: &R,
    shift: Shift,
    starts: Vec<Pass>,
    ends: Vec<Pass>,
) -> Result<Summary, Fault>
    requires starts { All (λ p. p.lock ≡ shift.start) starts.items }
    requires ends { All (λ p. p.lock ≡ shift.end) ends.items }
{
    let outcome = shift.tally.outcome();
    let Shift { start, end, .. } = shift;
    let start = close(rt, start, starts);
    let end = close(rt, end, ends);
    Ok(Summary {
        outcome,
        start: start?,
        end: end?,
    })
}

/// Works a shift, and closes both latches.
fn play<R: Threads + Wait + Clock + Sync>(rt: &R, alloc: Global) -> Result<Summary, ShiftFault> {
    let (shift, starts, ends) = open_shift(rt, alloc)?;
    let (starts, ends) = work(rt, alloc, &shift, starts, ends)?;
    Ok(close_both(rt, shift, starts, ends)?)
}

/// Prints the outcome of the work, and what both latches were left with.
fn print<R: Print>(rt: &R, summary: &Summary) -> io::Result<()> {
    let Summary {
        outcome,
        start,
        end,
    } = *summary;
    println!(rt;
        "sum of {NUMBERS} squares at the end {}\n\
         began before the start {}, faults {}\n\
         start: calls {}, count {}\n\
         end: calls {}, count {}",
        outcome.sum_at_end,
        outcome.early,
        outcome.faults,
        start.calls,
        start.count,
        end.calls,
        end.count
    )
}

/// Runs the shift, and prints its outcome.
pub fn run<R: Print + AllocGlobal + Threads + Wait + Clock + Sync>(rt: &R) -> io::Result<()> {
    match play(rt, rt.alloc()) {
        Ok(summary) => print(rt, &summary),
        Err(fault) => println!(rt; "{fault}"),
    }
}
