//! How each thread stands.

ghost use Rattle.std.specs.Prelude.{◌≡◌, ◌+◌, ◌++◌, ◌^◌, ◌<◌, All, OnOk, length};
ghost use Rattle.script.specs.Script.{named};
ghost use Rattle.run_text.specs.inner.{HasFewCalls};
ghost use Rattle.run_text.specs.Lines.{held_line, held_lines, thread_line, thread_lines, waiting_words};
ghost use Rattle.workers.specs.Gates.{calls_of};

use crate::call_text::{put, put_call, put_name};
use crate::waiting::{has_released, waiting_call};
use history::header::Header;
use indexmap::IndexMap;
use script::{Call, Worker};
use std::alloc::AllocError;
use workers::{Held, Standing};

/// Appends the call in which a thread waits.
fn put_waiting(
    out: &mut Vec<u8>,
    objects: &IndexMap<String, Header>,
    call: Option<Call>,
) -> Result<(), AllocError>
    ensures { OnOk result (out.new.items
        ≡ out.old.items ++ waiting_words (named objects.now.entries) call) }
{
    match call {
        None => Ok(()),
        Some(call) => {
            out.extend_from_slice(b" waits in ")?;
            put_call(out, objects, call)
        }
    }
}

/// Returns how many calls a thread makes.
fn calls_of(worker: &Worker) -> u64
    requires { HasFewCalls worker.now }
    ensures { result ≡ calls_of worker.now }
{
    u64::from(worker.repeat()) * worker.calls().len() as u64
}

/// Appends the line of a thread.
fn put_thread(
    out: &mut Vec<u8>,
    objects: &IndexMap<String, Header>,
    thread: u64,
    worker: &Worker,
    standing: &Standing,
) -> Result<(), AllocError>
    requires { HasFewCalls worker.now }
    ensures { OnOk result (out.new.items
        ≡ out.old.items ++ thread_line (named objects.now.entries) thread worker.now standing.now) }
{
    put(out, b"thread ", thread)?;
    put(out, b" calls ", standing.ended)?;
    put(out, b" of ", calls_of(worker))?;
    put_waiting(out, objects, waiting_call(worker, standing))?;
    out.extend_from_slice(b"\n")
}

/// Appends what a thread holds of an object.
fn put_held(
    out: &mut Vec<u8>,
    objects: &IndexMap<String, Header>,
    thread: u64,
    held: Held,
) -> Result<(), AllocError>
    ensures { OnOk result (out.new.items
        ≡ out.old.items ++ held_line (named objects.now.entries) thread held) }
{
    put(out, b"thread ", thread)?;
    out.extend_from_slice(b" holds ")?;
    put_name(out, objects, held.object)?;
    put(out, b" x ", held.exclusive)?;
    put(out, b" s ", held.shared)?;
    out.extend_from_slice(b"\n")
}

/// Appends what a thread that waits in a call holds of what it held before.
fn put_all_held(
    out: &mut Vec<u8>,
    objects: &IndexMap<String, Header>,
    thread: u64,
    call: Option<Call>,
    held: &[Held],
) -> Result<(), AllocError>
    ensures { OnOk result (out.new.items
        ≡ out.old.items ++ held_lines (named objects.now.entries) thread call held.now) }
{
    let [one, more @ ..] = held else {
        return Ok(());
    };
    if !has_released(call, one.object) {
        put_held(out, objects, thread, *one)?;
    }
    put_all_held(out, objects, thread, call, more)
}

/// Appends the lines of threads, of which the first has this number.
pub(crate) fn put_threads(
    out: &mut Vec<u8>,
    objects: &IndexMap<String, Header>,
    thread: u64,
    workers: &[Worker],
    standings: &[Standing],
) -> Result<(), AllocError>
    requires few { thread + length workers.now < 2 ^ 64 }
    requires calls { All HasFewCalls workers.now }
    ensures { OnOk result (out.new.items
        ≡ out.old.items ++ thread_lines (named objects.now.entries) thread workers.now standings.now) }
{
    let [worker, more @ ..] = workers else {
        return Ok(());
    };
    let [standing, rest @ ..] = standings else {
        return Ok(());
    };
    put_thread(out, objects, thread, worker, standing)?;
    let call = waiting_call(worker, standing);
    put_all_held(out, objects, thread, call, &standing.held)?;
    put_threads(out, objects, thread + 1, more, rest)
}
