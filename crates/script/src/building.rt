//! The first fault of objects and workers that make no script.

ghost use Rattle.std.specs.Prelude.{◌≡◌, ◌↔◌, All, IfNone, IfSome, IsTrue, length};
ghost use Rattle.script.specs.Building.{HasRounds, IsFaultOf, IsFaultOfWorker, IsFaultOfWorkers, IsFirstBad};
ghost use Rattle.script.specs.Script.{IsCall, IsObject, IsScript, IsWorker, named};

use crate::call::Call;
use crate::fault::ScriptFault;
use crate::limits::{MOST_CALLS, MOST_OBJECTS, MOST_ROUNDS, MOST_THREADS};
use crate::name::is_name;
use crate::worker::Worker;
use history::header::Header;
use indexmap::IndexMap;

fn is_object(name: &str, header: &Header, threads: usize) -> bool
    ensures { IsTrue result ↔ IsObject threads (name.now, header.now) }
{
    is_name(name) && header.in_range() && usize::from(header.seats) == threads
}

/// Returns the place of the first object that isn't good.
fn bad_object(objects: &IndexMap<String, Header>, threads: usize) -> Option<usize>
    ensures found { IfSome result (IsFirstBad (IsObject threads) (named objects.now.entries)) }
    ensures none { IfNone result (All (IsObject threads) (named objects.now.entries)) }
{
    for place in 0..objects.len() {
        let Some((name, header)) = objects.get_index(place) else {
            unreachable!()
        };
        if !is_object(name, header, threads) {
            return Some(place);
        }
    }
    None
}

fn is_call(call: &Call, objects: usize, threads: usize) -> bool
    ensures { IsTrue result ↔ IsCall objects threads call.now }
{
    match call {
        Call::On(place, _) => *place < objects,
        Call::Interrupt(thread) => usize::from(*thread) < threads,
    }
}

/// Returns the place of the first call that is neither of one of the objects nor an interrupt of one of the
/// threads.
fn bad_call(calls: &[Call], objects: usize, threads: usize) -> Option<usize>
    ensures found { IfSome result (IsFirstBad (IsCall objects threads) calls.now) }
    ensures none { IfNone result (All (IsCall objects threads) calls.now) }
{
    for place in 0..calls.len() {
        if !is_call(&calls[place], objects, threads) {
            return Some(place);
        }
    }
    None
}

fn has_rounds(worker: &Worker) -> bool
    ensures { IsTrue result ↔ HasRounds worker.now }
{
    let repeat = u64::from(worker.repeat());
    1 <= repeat && repeat <= MOST_ROUNDS && worker.calls().len() <= MOST_CALLS
}

/// Returns the fault of the worker of this number.
fn fault_of_worker(
    worker: &Worker,
    thread: usize,
    objects: usize,
    threads: usize,
) -> Option<ScriptFault>
    ensures found { IfSome result (IsFaultOfWorker objects threads thread worker.now) }
    ensures none { IfNone result (IsWorker objects threads worker.now) }
{
    if !has_rounds(worker) {
        return Some(ScriptFault::BadThread(thread));
    }
    match bad_call(worker.calls(), objects, threads) {
        Some(place) => Some(ScriptFault::BadCall(thread, place)),
        None => None,
    }
}

/// Returns the fault of the first worker that has one.
fn fault_of_workers(workers: &[Worker], objects: usize) -> Option<ScriptFault>
    ensures found { IfSome result (IsFaultOfWorkers objects (length workers.now) workers.now) }
    ensures none { IfNone result (All (IsWorker objects (length workers.now)) workers.now) }
{
    for thread in 0..workers.len() {
        let fault = fault_of_worker(&workers[thread], thread, objects, workers.len());
        if fault.is_some() {
            return fault;
        }
    }
    None
}

/// Returns the first fault of these objects and workers.
pub(crate) fn fault_of(
    objects: &IndexMap<String, Header>,
    workers: &[Worker],
) -> Option<ScriptFault>
    ensures found { IfSome result
        (IsFaultOf (record { objects = named objects.now.entries; workers = workers.now })) }
    ensures none { IfNone result
        (IsScript (record { objects = named objects.now.entries; workers = workers.now })) }
{
    let (count, threads) = (objects.len(), workers.len());
    if count < 1 || MOST_OBJECTS < count || threads < 1 || MOST_THREADS < threads {
        return Some(ScriptFault::BadTop);
    }
    match bad_object(objects, threads) {
        Some(place) => Some(ScriptFault::BadObject(place)),
        None => fault_of_workers(workers, count),
    }
}
