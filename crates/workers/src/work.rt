//! What a worker does.
ghost use Rattle.std.specs.Prelude.{◌≡◌, ◌+◌, ◌<◌, ◌≤◌, ◌^◌, All, IfNone, IfSome, List, length, map, reverse};
ghost use Rattle.script.specs.Script.{IsCall, IsWorker};
ghost use Rattle.workers.specs.Calls.{IsCalled, Made, rounds};
ghost use Rattle.workers.specs.Gates.{LetsBelow, StopsBelow, calls_of};
ghost use Rattle.workers.specs.declared.unrecorded.Unrecorded.{Unrecorded};
ghost use Rattle.workers.specs.inner.Homes.{homes, lock_of};
ghost use Rattle.workers.specs.inner.Keeping.{Adds, IsKept};
ghost use Rattle.workers.specs.inner.Results.{HasWorked, most_calls};

use crate::act::act;
use crate::fault::RunFault;
use crate::gate::Gate;
use crate::kept::Kept;
use crate::opened::Opened;
use crate::passes::Passes;
use crate::post::Post;
use crate::start::Start;
use crate::unrecorded::Keep;
use history::fault::Fault;
use permit::Parking;
use script::{Call, Worker};
use std::alloc::Global;
use std::sync::Wait;
use std::time::Clock;

/// What the workers of a run share.
#[derive(Drop)]
pub(crate) struct Shared {
    pub parking: Post,
    pub objects: Vec<Opened>,
    pub start: Start,
    pub alloc: Global,
    pub keep: Keep,
}

/// The result of a worker: its passes, and its answers that no history records, or why it stopped.
#[derive(Drop)]
pub(crate) struct Worked {
    pub passes: Passes,
    pub ended: Result<Kept, RunFault>,
}

/// Makes a call, and returns what no history records: its fault, if it has one.
fn make_call<R: Wait + Clock>(
    rt: &R,
    shared: &Shared,
    passes: &mut Passes,
    call: Call,
) -> Option<Fault>
    requires own { map lock_of passes.old ≡ shared.now.objects.items }
    requires places { All (λ m. m.header.seats ≤ shared.now.parking) shared.now.objects.items }
    requires call { IsCall (length shared.now.objects.items) shared.now.parking call }
    ensures same { homes passes.new ≡ homes passes.old }
    ensures called { IsCalled call passes.old result passes.new }
{
    match call {
        Call::On(place, action) => {
            let pass = &mut passes.list[place];
            let monitor = shared.objects[place].monitor();
            let reply = act(rt, &shared.parking, monitor, pass, action);
            shared.parking.note_reply(pass.seat(), place, reply);
            reply.fault()
        }
        Call::Interrupt(thread) => {
            shared.parking.interrupt(thread);
            None
        }
    }
}

/// Makes the calls of one round, which are numbered from `first` on. Returns `None` if the gate refused a call.
fn make_round<G: Gate, R: Wait + Clock>(
    rt: &R,
    shared: &Shared,
    gate: &G,
    passes: &mut Passes,
    kept: &mut Kept,
    seat: u16,
    calls: &[Call],
    first: u64,
) -> Option<()>
    requires own { map lock_of passes.old ≡ shared.now.objects.items }
    requires places { All (λ m. m.header.seats ≤ shared.now.parking) shared.now.objects.items }
    requires calls { All (IsCall (length shared.now.objects.items) shared.now.parking) calls.now }
    requires few { first + length calls.now < 2 ^ 63 }
    requires kept { kept.old.count + length calls.now < 2 ^ 63 }
    requires asked { LetsBelow (G.answers gate.now) seat first }
    ensures same { homes passes.new ≡ homes passes.old }
    ensures made { IfSome result (λ _. (answers : List Unrecorded) × Adds kept.old answers kept.new
        × Made seat first (reverse calls.now) passes.old answers passes.new) }
    ensures few { IfSome result (λ _. kept.new.count ≤ kept.old.count + length calls.now) }
    ensures asked { IfSome result (λ _. LetsBelow (G.answers gate.now) seat (first + length calls.now)) }
    ensures shut { IfNone result (StopsBelow (G.answers gate.now) seat (first + length calls.now)) }
{
    let mut number = first;
    for call in calls {
        if !gate.before(rt, seat, number) {
            return None;
        }
        let fault = make_call(rt, shared, passes, *call);
        kept.add(seat, number, *call, fault);
        shared.parking.note_end(seat, number);
        gate.after(rt, seat, number);
        number += 1;
    }
    Some(())
}

/// Makes all calls of a worker, round after round.
fn make_rounds<G: Gate, R: Wait + Clock>(
    rt: &R,
    shared: &Shared,
    gate: &G,
    passes: &mut Passes,
    seat: u16,
    worker: &Worker,
) -> Option<Kept>
    requires own { map lock_of passes.old ≡ shared.now.objects.items }
    requires places { All (λ m. m.header.seats ≤ shared.now.parking) shared.now.objects.items }
    requires worker { IsWorker (length shared.now.objects.items) shared.now.parking worker.now }
    ensures same { homes passes.new ≡ homes passes.old }
    ensures made { IfSome result (λ kept. (answers : List Unrecorded) × IsKept kept answers
        × Made seat 0 (rounds worker.now.repeat worker.now.calls) passes.old answers passes.new) }
    ensures few { IfSome result (λ kept. kept.count ≤ most_calls) }
    ensures asked { IfSome result (λ _. LetsBelow (G.answers gate.now) seat (calls_of worker.now)) }
    ensures shut { IfNone result (StopsBelow (G.answers gate.now) seat (calls_of worker.now)) }
{
    let calls = worker.calls();
    let mut first = 0;
    let mut kept = Kept::new(shared.alloc, shared.keep);
    for _ in 0..worker.repeat() {
        make_round(rt, shared, gate, passes, &mut kept, seat, calls, first)?;
        first += calls.len() as u64;
    }
    Some(kept)
}

/// Waits for the start, and then makes all calls of a worker.
pub(crate) fn work<G: Gate, R: Wait + Clock>(
    rt: &R,
    shared: &Shared,
    gate: &G,
    passes: Passes,
    seat: u16,
    worker: &Worker,
) -> Worked
    requires own { map lock_of passes ≡ shared.now.objects.items }
    requires places { All (λ m. m.header.seats ≤ shared.now.parking) shared.now.objects.items }
    requires worker { IsWorker (length shared.now.objects.items) shared.now.parking worker.now }
    ensures { HasWorked (G.answers gate.now) seat worker.now passes result }
{
    let mut passes = passes;
    if let Err(fault) = shared.start.wait(rt, seat) {
        let ended = Err(fault);
        return Worked { passes, ended };
    }
    let ended = match make_rounds(rt, shared, gate, &mut passes, seat, worker) {
        Some(kept) => Ok(kept),
        None => Err(RunFault::GateShut(seat)),
    };
    Worked { passes, ended }
}
