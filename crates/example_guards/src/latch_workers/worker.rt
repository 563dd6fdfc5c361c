//! Workers and their foreman.
ghost use Rattle.std.specs.Prelude.{◌≡◌, All, IfOk, length};
ghost use Rattle.example_guards.specs.Worker.{IsAt};

use crate::latch_workers::shift::Shift;
use monitor::Pass;
use std::alloc::{AllocError, Global};

/// A pass for each latch.
#[derive(Drop)]
pub struct Worker {
    pub start: Pass,
    pub end: Pass,
}

/// A worker for each seat.
pub fn pair_up(
    alloc: Global,
    shift: &Shift,
    starts: Vec<Pass>,
    ends: Vec<Pass>,
) -> Result<Vec<Worker>, AllocError>
    requires starts { All (λ p. p.lock ≡ shift.now.start) starts.items }
    requires ends { All (λ p. p.lock ≡ shift.now.end) ends.items }
    ensures { IfOk result (λ v. All (IsAt shift.now.start shift.now.end) v.items) }
{
    let mut starts = starts.into_iter();
    let mut workers = Vec::new(alloc);
    for end in ends {
        let Some(start) = starts.next() else {
            break;
        };
        workers.push(Worker { start, end })?;
    }
    Ok(workers)
}

/// The passes of all workers, for the start and for the end.
pub fn part(
    alloc: Global,
    shift: &Shift,
    workers: Vec<Worker>,
) -> Result<(Vec<Pass>, Vec<Pass>), AllocError>
    requires { All (IsAt shift.now.start shift.now.end) workers.items }
    ensures starts { IfOk result (λ r. All (λ p. p.lock ≡ shift.now.start) r.0.items) }
    ensures ends { IfOk result (λ r. All (λ p. p.lock ≡ shift.now.end) r.1.items) }
    ensures all { IfOk result (λ r. (length r.0.items ≡ length workers.items)
        × (length r.1.items ≡ length workers.items)) }
{
    let mut starts = Vec::new(alloc);
    let mut ends = Vec::new(alloc);
    for worker in workers {
        let Worker { start, end } = worker;
        starts.push(start)?;
        ends.push(end)?;
    }
    Ok((starts, ends))
}
