//! The workers of a script.

ghost use Rattle.std.specs.Prelude.{◌≡◌, ◌≤◌, [], List, ℕ, All, length, map, IfOk, IfErr, IfSome, IfNone};
ghost use Rattle.serde_json.specs.Data.{Data};
ghost use Rattle.serde_json.specs.View.{view};
ghost use Rattle.script.specs.Name.{IsName};
ghost use Rattle.script.specs.inner.ThreadFaults.{IsCallsFault, IsThreadFault};
ghost use Rattle.script.specs.Reading.{IsThreadsFault, HasNoRounds};
ghost use Rattle.script.specs.Saying.{Say, SaysCall, SaysWorker, IsRounds};
ghost use Rattle.script.specs.Script.{named, WorkerView};
ghost use Rattle.script.specs.declared.call.Call.{Call};
ghost use Rattle.script.specs.declared.limits.TheConstants.{MOST_THREADS};

use crate::call::Call;
use crate::call_text::call_of;
use crate::fault::ScriptFault;
use crate::json::{list_of, members_of, number_of, text_of};
use crate::limits::{MOST_CALLS, MOST_ROUNDS};
use crate::worker::Worker;
use history::header::Header;
use indexmap::IndexMap;
use serde_json::Value;
use std::alloc::Global;

/// Reads the number of rounds and the calls of a thread.
fn rounds_of(value: &Value) -> Option<(u32, &[Value])>
    ensures found { IfSome result (λ r. IsRounds (view value.entry.now) r.0 (map view r.1.now)) }
    ensures none { IfNone result (HasNoRounds (view value.entry.now)) }
{
    let (calls, repeat) = members_of(value, "calls", "repeat")?;
    let repeat = number_of(repeat)?;
    let calls = list_of(calls, 0, MOST_CALLS)?;
    if 1 <= repeat && repeat <= MOST_ROUNDS {
        Some((repeat as u32, calls))
    } else {
        None
    }
}

/// Returns the calls of a list, or a fault for the first member that is no call.
fn calls_of(
    alloc: Global,
    values: &[Value],
    objects: &IndexMap<String, Header>,
    threads: usize,
    thread: usize,
) -> Result<Vec<Call>, ScriptFault>
    requires threads { threads ≤ MOST_THREADS }
    requires names { All (λ o. IsName o.0) (named objects.now.entries) }
    ensures ok { IfOk result (λ cs. Say (SaysCall (named objects.now.entries) threads) []
        (map view values.now) cs.items) }
    ensures err { IfErr result (IsCallsFault (named objects.now.entries) threads thread
        (map view values.now)) }
{
    let mut calls = Vec::with_capacity(alloc, values.len())?;
    for (place, value) in values.iter().enumerate() {
        let Some(call) = call_in(value, objects, threads) else {
            return Err(ScriptFault::BadCall(thread, place));
        };
        calls.push(call)?;
    }
    Ok(calls)
}

/// Returns the call that a value spells.
fn call_in(value: &Value, objects: &IndexMap<String, Header>, threads: usize) -> Option<Call>
    requires threads { threads ≤ MOST_THREADS }
    requires names { All (λ o. IsName o.0) (named objects.now.entries) }
    ensures found { IfSome result (λ c. (before : List Call) →
        SaysCall (named objects.now.entries) threads before (view value.now) c) }
    ensures none { IfNone result ((before : List Call) (c : Call) →
        ¬ (SaysCall (named objects.now.entries) threads before (view value.now) c)) }
{
    call_of(text_of(value)?, objects, threads)
}

/// Returns the thread that a value describes, or the value's fault.
fn worker_of(
    alloc: Global,
    value: &Value,
    objects: &IndexMap<String, Header>,
    threads: usize,
    thread: usize,
) -> Result<Worker, ScriptFault>
    requires threads { threads ≤ MOST_THREADS }
    requires names { All (λ o. IsName o.0) (named objects.now.entries) }
    ensures ok { IfOk result (λ w. (before : List WorkerView) → SaysWorker (named objects.now.entries) threads
        before (view value.now) w) }
    ensures err { IfErr result (IsThreadFault (named objects.now.entries) threads thread (view value.now)) }
{
    let Some((repeat, values)) = rounds_of(value) else {
        return Err(ScriptFault::BadThread(thread));
    };
    let calls = calls_of(alloc, values, objects, threads, thread)?;
    Ok(Worker::new(repeat, calls))
}

/// Returns the workers that a list describes, or the fault of the first that is none.
pub(crate) fn workers_of(
    alloc: Global,
    values: &[Value],
    objects: &IndexMap<String, Header>,
) -> Result<Vec<Worker>, ScriptFault>
    requires threads { length values.now ≤ MOST_THREADS }
    requires names { All (λ o. IsName o.0) (named objects.now.entries) }
    ensures ok { IfOk result (λ ws. Say (SaysWorker (named objects.now.entries) (length values.now)) []
        (map view values.now) ws.items) }
    ensures err { IfErr result (IsThreadsFault (named objects.now.entries) (length values.now)
        (map view values.now)) }
{
    let mut workers = Vec::with_capacity(alloc, values.len())?;
    for (thread, value) in values.iter().enumerate() {
        workers.push(worker_of(alloc, value, objects, values.len(), thread)?)?;
    }
    Ok(workers)
}
