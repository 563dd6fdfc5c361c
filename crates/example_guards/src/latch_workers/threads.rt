//! The threads of the workers.
ghost use Rattle.std.specs.Prelude.{◌≡◌, All, IfOk};
ghost use Rattle.example_guards.specs.Worker.{IsAt};

use crate::latch_workers::fault::ShiftFault;
use crate::latch_workers::shift::Shift;
use crate::latch_workers::worker::Worker;
use std::alloc::{AllocError, Global};
use std::sync::Wait;
use std::thread;
use std::thread::{Promise, PromisedHandle, Scope, Threads};
use std::time::Clock;

/// The promise that a worker returns with passes of the latches of this shift.
#[derive(Clone, Copy, Drop)]
struct ComesBack<'s> {
    shift: &'s Shift,
}

impl<'s> Promise<Worker> for ComesBack<'s> {
    ghost use Rattle.example_guards.specs.Worker.{IsAt};

    ghost kept_by = { λ p worker. IsAt p.shift.now.start p.shift.now.end worker };
}

/// Starts a thread for each worker. If the system refuses one, the earlier ones have been started.
fn start_all<'s, E: 's, R: Threads + Wait + Clock + Sync>(
    rt: &'s R,
    alloc: Global,
    scope: &Scope<'s, E>,
    shift: &'s Shift,
    workers: Vec<Worker>,
) -> Result<Vec<PromisedHandle<Worker, ComesBack<'s>>>, ShiftFault>
    requires { All (IsAt shift.now.start shift.now.end) workers.items }
    ensures { IfOk result (λ handles. All (λ h. h.promise.shift.now ≡ shift.now) handles.items) }
{
    let mut handles = Vec::with_capacity(alloc, workers.len())?;
    for worker in workers {
        let seat = worker.start.seat();
        let child = scope.spawn_with(
            ComesBack { shift },
            move || -> Worker
                requires { IsAt shift.now.start shift.now.end worker }
                ensures { IsAt shift.entry.now.start shift.entry.now.end result }
            { shift.take_part(rt, worker) },
        );
        let Ok(handle) = child else {
            return Err(ShiftFault::NotStarted(seat));
        };
        handles.push(handle)?;
    }
    Ok(handles)
}

/// Joins all threads. Returns the workers, and the foreman as the last.
fn join_all<'s, R: Threads>(
    rt: &R,
    alloc: Global,
    shift: &'s Shift,
    handles: Vec<PromisedHandle<Worker, ComesBack<'s>>>,
    foreman: Worker,
) -> Result<Vec<Worker>, AllocError>
    requires handles { All (λ h. h.promise.shift.now ≡ shift.now) handles.items }
    requires foreman { IsAt shift.now.start shift.now.end foreman }
    ensures { IfOk result (λ v. All (IsAt shift.now.start shift.now.end) v.items) }
{
    let mut workers = Vec::new(alloc);
    for handle in handles {
        workers.push(handle.join(rt))?;
    }
    workers.push(foreman)?;
    Ok(workers)
}

/// The workers work, each in a thread of its own, and the foreman in this one. All are returned.
///
/// If the system refuses a thread, nobody works: the workers that were started are interrupted.
pub fn work_in_threads<R: Threads + Wait + Clock + Sync>(
    rt: &R,
    alloc: Global,
    shift: &Shift,
    workers: Vec<Worker>,
    foreman: Worker,
) -> Result<Vec<Worker>, ShiftFault>
    requires workers { All (IsAt shift.now.start shift.now.end) workers.items }
    requires foreman { IsAt shift.now.start shift.now.end foreman }
    ensures { IfOk result (λ v. All (IsAt shift.now.start shift.now.end) v.items) }
{
    thread::scope(
        thread::scope_env(),
        rt,
        |scope| -> Result<Vec<Worker>, ShiftFault>
            requires { All (IsAt shift.now.start shift.now.end) workers.items
                × IsAt shift.now.start shift.now.end foreman }
            ensures { IfOk result (λ v.
                All (IsAt shift.entry.now.start shift.entry.now.end) v.items) }
        {
            match start_all(rt, alloc, scope, shift, workers) {
                Ok(handles) => {
                    let foreman = shift.lead(rt, foreman);
                    Ok(join_all(rt, alloc, shift, handles, foreman)?)
                }
                Err(fault) => {
                    shift.call_off();
                    Err(fault)
                }
            }
        },
    )
}
