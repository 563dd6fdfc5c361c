//! Running a script.
ghost use Rattle.std.specs.Prelude.{◌≡◌, ◌<◌, ◌≤◌, ◌⊎◌, [], List, All, IfErr, IfOk, OnOk, Some, length, map, replicate, slice_get};
ghost use Rattle.history.specs.Header.{IsInRange};
ghost use Rattle.script.specs.declared.limits.TheConstants.{MOST_THREADS};
ghost use Rattle.workers.specs.Gates.{IsFaultOfRun, LetsAll};
ghost use Rattle.workers.specs.Reports.{AreParts, IsListed, IsReport, IsSound, dealt_all, header_of, headers_of, opening_rows};
ghost use Rattle.workers.specs.declared.fault.RunFault.TheVariants.{Memory};
ghost use Rattle.workers.specs.declared.unrecorded.Unrecorded.{Unrecorded};
ghost use Rattle.workers.specs.inner.Homes.{HaveColumns};
ghost use Rattle.workers.specs.inner.Keeping.{HaveKept, IsKept};
ghost use Rattle.workers.specs.inner.Results.{HasStopped, HaveEnded, most_calls, passes_left};

use crate::fault::RunFault;
use crate::gate::Gate;
use crate::kept::Kept;
use crate::notes::Notes;
use crate::opened::Opened;
use crate::passes::{Passes, deal};
use crate::post::Post;
use crate::report::{ObjectReport, Report};
use crate::start::Start;
use crate::threads::run_all;
use crate::unrecorded::Keep;
use crate::work::{Shared, Worked};
use history::header::Header;
use permit::ThreadParking;
use script::Script;
use std::alloc::{AllocError, Global};
use std::sync::{Arc, Wait};
use std::thread::Threads;
use std::time::Clock;

/// Returns `count` rows without passes.
fn empty_rows(alloc: Global, count: usize) -> Result<Vec<Passes>, AllocError>
    ensures { IfOk result (λ rows. rows.items ≡ replicate count []) }
{
    let mut rows = Vec::new(alloc);
    for _ in 0..count {
        rows.push(Passes::new(alloc))?;
    }
    Ok(rows)
}

/// Returns the header of the object at a place.
fn header_at(script: &Script, place: usize) -> Header
    requires { place < length script.now.objects }
    ensures header { slice_get (headers_of script.now) place ≡ Some result }
    ensures range { IsInRange result }
    ensures seats { result.seats ≡ length script.now.workers }
{
    let Some((_, header)) = script.objects().get_index(place) else {
        unreachable!()
    };
    *header
}

/// Opens each object of a script, and gives each worker a pass of it.
fn open_all(alloc: Global, script: &Script) -> Result<(Vec<Opened>, Vec<Passes>), RunFault>
    ensures headers { IfOk result (λ r. map header_of r.0.items ≡ headers_of script.now) }
    ensures rows { IfOk result (λ r.
        r.1.items ≡ opening_rows r.0.items 0 (length script.now.workers)) }
    ensures err { IfErr result (λ fault. fault ≡ Memory) }
{
    let mut rows = empty_rows(alloc, script.workers().len())?;
    let mut objects = Vec::new(alloc);
    for place in 0..script.objects().len() {
        let (object, passes) = Opened::open(alloc, header_at(script, place))?;
        deal(passes, &mut rows)?;
        objects.push(object)?;
    }
    Ok((objects, rows))
}

/// Sorts the passes of the workers into columns, one for each object, and puts what they kept together. If
/// workers stopped, the fault of the first one by number is returned.
fn settle(
    worked: Vec<Worked>,
    columns: &mut Vec<Passes>,
    alloc: Global,
    keep: Keep,
) -> Result<Kept, RunFault>
    requires rows { All (λ done. length done.passes ≤ length columns.old.items) worked.items }
    requires few { All (λ done. IfOk done.ended (λ kept. kept.count ≤ most_calls)) worked.items }
    requires workers { length worked.items ≤ MOST_THREADS }
    ensures ended { IfOk result (λ _. HaveEnded worked.items) }
    ensures kept { IfOk result (λ kept. (answers : List Unrecorded) → HaveKept worked.items answers →
        IsKept kept answers) }
    ensures columns { OnOk result (columns.new.items
        ≡ dealt_all (passes_left worked.items) columns.old.items) }
    ensures fault { IfErr result (λ fault. (fault ≡ Memory) ⊎ HasStopped fault worked.items) }
{
    let mut all = Kept::new(alloc, keep);
    for done in worked {
        let Worked { passes, ended } = done;
        match ended {
            Ok(kept) => all.join(kept),
            Err(fault) => return Err(fault),
        }
        deal(passes, columns)?;
    }
    Ok(all)
}

/// Closes each object with its column of passes.
fn close_all<R: Wait>(
    rt: &R,
    alloc: Global,
    objects: Vec<Opened>,
    columns: Vec<Passes>,
) -> Result<Vec<ObjectReport>, RunFault>
    requires { HaveColumns objects.items columns.items }
    ensures parts { IfOk result (λ parts. AreParts objects.items columns.items parts.items) }
    ensures err { IfErr result (λ fault. fault ≡ Memory) }
{
    let mut parts = Vec::with_capacity(alloc, objects.len())?;
    let mut columns = columns.into_iter();
    for object in objects {
        let Some(passes) = columns.next() else {
            unreachable!()
        };
        parts.push(object.close(rt, passes))?;
    }
    Ok(parts)
}

/// Runs a script as [`run_threads`] does. Its threads make notes, if there are any to make.
pub(crate) fn run_noted<G: Gate + Sync, R: Threads + Wait + Clock + Sync>(
    rt: &R,
    alloc: Global,
    script: &Script,
    gate: &G,
    keep: Keep,
    notes: Option<Arc<Notes>>,
) -> Result<Report, RunFault>
    ensures report { IfOk result (IsReport script.now) }
    ensures listed { IfOk result (λ report. IsListed keep report.listed) }
    ensures sound { IfOk result (λ report. All IsSound report.objects.items) }
    ensures asked { IfOk result (λ _. LetsAll (G.answers gate.now) 0 script.now.workers) }
    ensures fault { IfErr result (IsFaultOfRun (G.answers gate.now) script.now.workers) }
{
    let workers = script.workers();
    let (objects, rows) = open_all(alloc, script)?;
    let mut columns = empty_rows(alloc, objects.len())?;
    let parking = match ThreadParking::open(rt, alloc, workers.len() as u16) {
        Ok(parking) => Post { parking, notes },
        Err(_) => return Err(RunFault::Memory),
    };
    let start = Start::new();
    let shared = Shared {
        parking,
        objects,
        start,
        alloc,
        keep,
    };
    let worked = run_all(rt, alloc, &shared, gate, workers, rows)?;
    let kept = settle(worked, &mut columns, alloc, keep)?;
    let Shared { objects, .. } = shared;
    let objects = close_all(rt, alloc, objects, columns)?;
    let unrecorded = kept.count;
    let listed = kept.into_list(keep)?;
    Ok(Report {
        objects,
        unrecorded,
        listed,
    })
}

/// Runs a script, with a thread for each worker, and returns the report of all objects.
///
/// No worker makes its first call before all threads are started. `gate` is asked before each call, and
/// notified after it. If a call returns a fault that no history records, the worker goes on. `keep` says what the
/// report has of such answers. If workers wait for each other, this may never return.
///
/// # Errors
///
/// - [`RunFault::NotStarted`] if the system refuses a thread: the first such worker by number. No worker made
///   a call.
/// - [`RunFault::GateShut`] if the gate refused a call: the first such worker by number. The others ran to
///   their ends.
/// - [`RunFault::Memory`] if an allocation fails, before the calls or after them. No contract says when. If one
///   for the list of answers fails, the workers make all their calls nevertheless.
pub fn run_threads<G: Gate + Sync, R: Threads + Wait + Clock + Sync>(
    rt: &R,
    alloc: Global,
    script: &Script,
    gate: &G,
    keep: Keep,
) -> Result<Report, RunFault>
    ensures report { IfOk result (IsReport script.now) }
    ensures listed { IfOk result (λ report. IsListed keep report.listed) }
    ensures sound { IfOk result (λ report. All IsSound report.objects.items) }
    ensures asked { IfOk result (λ _. LetsAll (G.answers gate.now) 0 script.now.workers) }
    ensures fault { IfErr result (IsFaultOfRun (G.answers gate.now) script.now.workers) }
{
    run_noted(rt, alloc, script, gate, keep, None)
}
