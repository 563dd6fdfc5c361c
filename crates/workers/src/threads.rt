//! The threads of a run.
ghost use Rattle.std.specs.Prelude.{◌≡◌, ◌<◌, ◌≤◌, ℕ, All, IfErr, IfOk, Some, length, map, slice_get, slice_index_or, vec_len};
ghost use Rattle.script.specs.Script.{IsWorker};
ghost use Rattle.script.specs.declared.limits.TheConstants.{MOST_THREADS};
ghost use Rattle.workers.specs.declared.fault.RunFault.TheVariants.{NotStarted};
ghost use Rattle.workers.specs.Refused.{WasRefused};
ghost use Rattle.workers.specs.inner.Homes.{lock_of};
ghost use Rattle.workers.specs.inner.Results.{HasWorked, IsRefused, WorksAt};

use crate::fault::RunFault;
use crate::gate::Gate;
use crate::passes::Passes;
use crate::work::{Shared, Worked, work};
use script::Worker;
use std::alloc::Global;
use std::snapshot::Snapshot;
use std::sync::Wait;
use std::thread;
use std::thread::{Promise, PromisedHandle, Scope, SpawnError, Threads};
use std::time::Clock;

/// The promise that the worker at a place makes its calls with the passes that it was started with.
#[derive(Drop)]
struct Works<'s, G> {
    gate: &'s G,
    seat: u16,
    worker: &'s Worker,
    passes: Snapshot<Passes>,
}

impl<'s, G: Gate> Promise<Worked> for Works<'s, G> {
    ghost use Rattle.workers.specs.inner.Results.{HasWorked};

    ghost kept_by = { λ p done. HasWorked (G.answers p.gate.now) p.seat p.worker.now p.passes.value done };
}

/// Returns the fault of a worker whose thread the system refused.
#[tactic(auto, using(crate::specs::Refused::refused))]
pub(crate) fn not_started<F: Drop>(_refused: SpawnError<F>, worker: u16) -> RunFault
    ensures fault { result ≡ NotStarted worker }
    ensures refused { WasRefused worker }
{
    RunFault::NotStarted(worker)
}

/// Starts a thread for each worker. If the system refuses one, the earlier ones are running.
fn start_all<'s, E: 's, G: Gate + Sync, R: Threads + Wait + Clock + Sync>(
    rt: &'s R,
    alloc: Global,
    scope: &Scope<'s, E>,
    shared: &'s Shared,
    gate: &'s G,
    workers: &'s [Worker],
    rows: Vec<Passes>,
) -> Result<Vec<PromisedHandle<Worked, Works<'s, G>>>, RunFault>
    requires own { All (λ row. map lock_of row ≡ shared.now.objects.items) rows.items }
    requires places { All (λ m. m.header.seats ≤ shared.now.parking) shared.now.objects.items }
    requires workers { All (IsWorker (length shared.now.objects.items) shared.now.parking) workers.now }
    requires all { vec_len rows ≡ length workers.now }
    requires few { length workers.now ≤ MOST_THREADS }
    ensures len { IfOk result (λ handles. vec_len handles ≡ length workers.now) }
    ensures gates { IfOk result (λ handles. (i : ℕ) (d : _) → i < length workers.now →
        (slice_index_or handles.items i d).promise.gate.now ≡ gate.now) }
    ensures seats { IfOk result (λ handles. (i : ℕ) (d : _) → i < length workers.now →
        (slice_index_or handles.items i d).promise.seat ≡ i) }
    ensures workers { IfOk result (λ handles. (i : ℕ) (d : _) → i < length workers.now →
        slice_get workers.now i ≡ Some (slice_index_or handles.items i d).promise.worker.now) }
    ensures rows { IfOk result (λ handles. (i : ℕ) (d : _) → i < length workers.now →
        slice_get rows.items i ≡ Some (slice_index_or handles.items i d).promise.passes.value) }
    ensures fault { IfErr result (IsRefused (length workers.now)) }
{
    let mut handles = Vec::with_capacity(alloc, workers.len())?;
    let mut place = 0;
    for passes in rows {
        let seat = place as u16;
        let worker = &workers[place];
        let promise = Works {
            gate,
            seat,
            worker,
            passes: Snapshot::of(&passes),
        };
        let child = scope.spawn_with(
            promise,
            move || -> Worked
                requires { (map lock_of passes ≡ shared.now.objects.items)
                    × All (λ m. m.header.seats ≤ shared.now.parking) shared.now.objects.items
                    × IsWorker (length shared.now.objects.items) shared.now.parking worker.now }
                ensures { HasWorked (G.answers gate.entry.now) seat worker.entry.now passes result }
            { work(rt, shared, gate, passes, seat, worker) },
        );
        let handle = match child {
            Ok(handle) => handle,
            Err(refused) => return Err(not_started(refused, seat)),
        };
        handles.push(handle)?;
        place += 1;
    }
    Ok(handles)
}

/// Runs the workers, each in a thread of its own, and waits until all have ended.
pub(crate) fn run_all<G: Gate + Sync, R: Threads + Wait + Clock + Sync>(
    rt: &R,
    alloc: Global,
    shared: &Shared,
    gate: &G,
    workers: &[Worker],
    rows: Vec<Passes>,
) -> Result<Vec<Worked>, RunFault>
    requires own { All (λ row. map lock_of row ≡ shared.now.objects.items) rows.items }
    requires places { All (λ m. m.header.seats ≤ shared.now.parking) shared.now.objects.items }
    requires workers { All (IsWorker (length shared.now.objects.items) shared.now.parking) workers.now }
    requires all { vec_len rows ≡ length workers.now }
    requires few { length workers.now ≤ MOST_THREADS }
    ensures worked { IfOk result (λ worked. (vec_len worked ≡ length workers.now)
        × ((i : ℕ) (d : _) → i < length workers.now →
        WorksAt (G.answers gate.now) 0 workers.now rows.items i
        (slice_index_or worked.items i d))) }
    ensures fault { IfErr result (IsRefused (length workers.now)) }
{
    thread::scope(
        thread::scope_env(),
        rt,
        |scope| -> Result<Vec<Worked>, RunFault>
            requires { All (λ row. map lock_of row ≡ shared.now.objects.items) rows.items
                × All (λ m. m.header.seats ≤ shared.now.parking) shared.now.objects.items
                × All (IsWorker (length shared.now.objects.items) shared.now.parking) workers.now
                × (vec_len rows ≡ length workers.now) × (length workers.now ≤ MOST_THREADS) }
            ensures worked { IfOk result (λ worked. (vec_len worked ≡ length workers.entry.now)
                × ((i : ℕ) (d : _) → i < length workers.entry.now →
                WorksAt (G.answers gate.entry.now) 0 workers.entry.now rows.items i
                (slice_index_or worked.items i d))) }
            ensures fault { IfErr result (IsRefused (length workers.entry.now)) }
        {
            match start_all(rt, alloc, scope, shared, gate, workers, rows) {
                Ok(handles) => {
                    shared.start.go();
                    Ok(thread::join_promised(rt, handles)?)
                }
                Err(fault) => {
                    shared.start.call_off();
                    Err(fault)
                }
            }
        },
    )
}
