//! Running a script in threads of its own, and looking at it meanwhile.
ghost use Rattle.std.specs.Prelude.{◌≡◌, IfErr, IfOk, length, vec_len};
ghost use Rattle.std.specs.Arc.{arc_value};
ghost use Rattle.workers.specs.Gates.{IsFaultOfRun};
ghost use Rattle.workers.specs.Within.{IsEnd, IsReportOf, lets};

use crate::fault::RunFault;
use crate::gate::OpenGate;
use crate::notes::Notes;
use crate::report::Report;
use crate::run::run_noted;
use crate::standing::Standing;
use crate::threads::not_started;
use crate::unrecorded::Keep;
use script::Script;
use std::alloc::{AllocError, Global};
use std::marker::Model;
use std::snapshot::Snapshot;
use std::sync::{Arc, Wait};
use std::thread;
use std::thread::{Promise, PromisedHandle, Threads};
use std::time::Clock;

/// The promise of the thread that runs a script.
#[derive(Drop)]
struct Runs {
    script: Snapshot<Script>,
    keep: Keep,
}

impl Promise<Result<Report, RunFault>> for Runs {
    ghost use Rattle.workers.specs.Within.{IsEnd};

    ghost kept_by = { λ p done. IsEnd p.script.value p.keep done };
}

/// Runs a script with notes, and tells whoever waits that it has ended.
fn run_and_tell<R: Threads + Wait + Clock + Sync>(
    rt: &R,
    alloc: Global,
    script: &Script,
    keep: Keep,
    notes: &Arc<Notes>,
) -> Result<Report, RunFault>
    ensures { IsEnd script.now keep result }
{
    let ended = match Arc::try_clone(notes) {
        Ok(theirs) => run_noted(rt, alloc, script, &OpenGate, keep, Some(theirs)),
        Err(_) => Err(RunFault::Memory),
    };
    notes.tell_end();
    ended
}

/// A run of a script in threads of its own. If it is dropped, its threads go on, or wait, until the program ends.
#[derive(Drop)]
pub struct Running {
    child: PromisedHandle<Result<Report, RunFault>, Runs>,
    notes: Arc<Notes>,
}

impl Model for Running {
    ghost use Rattle.std.specs.Prelude.{◌≡◌, length};
    ghost use Rattle.std.specs.Arc.{arc_value};
    ghost use Rattle.workers.specs.Within.{RunningView};

    ghost Value = { RunningView };

    ghost view = { λ r. record { script = r.child.promise.script.value; keep = r.child.promise.keep } };

    ghost invariant = { λ r. arc_value r.notes ≡ length r.child.promise.script.value.workers };
}

impl Running {
    /// Starts a run as [`run_threads`](crate::run_threads) does.
    ///
    /// # Errors
    ///
    /// [`RunFault::Memory`], and [`RunFault::NotStarted`] of worker 0 if the system refuses the thread that starts the
    /// others.
    pub fn start<R: Threads + Wait + Clock + Sync + Send + Copy + 'static>(
        rt: &R,
        alloc: Global,
        script: &Arc<Script>,
        keep: Keep,
    ) -> Result<Running, RunFault>
        ensures runs { IfOk result (λ run. run ≡ record { script = arc_value script.now; keep = keep }) }
        ensures fault { IfErr result (IsFaultOfRun lets (arc_value script.now).workers) }
    {
        let notes = Arc::new(alloc, Notes::of(alloc, &**script)?)?;
        let theirs = Arc::try_clone(&notes)?;
        let shared = Arc::try_clone(script)?;
        let handle = *rt;
        let promise = Runs {
            script: Snapshot::of(&**script),
            keep,
        };
        let child = thread::spawn_with(
            rt,
            promise,
            move || -> Result<Report, RunFault>
                ensures { IsEnd (arc_value shared) keep result }
            { run_and_tell(&handle, alloc, &*shared, keep, &theirs) },
        );
        match child {
            Ok(child) => Ok(Running { child, notes }),
            Err(refused) => Err(not_started(refused, 0)),
        }
    }

    /// Waits for the end at most this many milliseconds, and returns whether it came.
    pub fn ends_within<R: Wait + Clock>(&self, rt: &R, milliseconds: u32) -> bool {
        self.notes.ends_within(rt, milliseconds)
    }

    /// Returns how each thread stands, in the order of the script. No contract says how.
    pub fn standings(&self, alloc: Global) -> Result<Vec<Standing>, AllocError>
        ensures { IfOk result (λ all. vec_len all ≡ length self.now.script.workers) }
    {
        self.notes.standings(alloc)
    }

    /// Waits for the end, and returns the report or the fault, as of [`run_threads`](crate::run_threads).
    pub fn report<R: Threads>(self, rt: &R) -> Result<Report, RunFault>
        ensures report { IfOk result (IsReportOf self.script self.keep) }
        ensures fault { IfErr result (IsFaultOfRun lets self.script.workers) }
    {
        let Running { child, notes: _ } = self;
        child.join(rt)
    }
}
