//! In which call a thread waits, for which object, and what it holds meanwhile.

ghost use Rattle.std.specs.Prelude.{◌≡◌};
ghost use Rattle.run_text.specs.Waiting.{awaited, call_of, has_released, is_among, is_holder, waiting_call};

use monitor::How;
use script::{Action, Call, Worker};
use workers::{Held, Standing};

/// Returns the call in which a thread waits.
pub(crate) fn waiting_call(worker: &Worker, standing: &Standing) -> Option<Call>
    ensures { result ≡ waiting_call worker.now standing.now }
{
    if !standing.waits {
        return None;
    }
    let calls = worker.calls();
    if calls.is_empty() {
        return None;
    }
    let place = standing.ended % calls.len() as u64;
    calls.get(place as usize).copied()
}

/// Returns the object without which a call does not go on. A timed acquire goes on when its time is over.
fn awaited(call: Option<Call>) -> Option<usize>
    ensures { result ≡ awaited call }
{
    match call {
        Some(Call::On(_, Action::Acquire(_, _, How::Timed(_)))) => None,
        Some(Call::On(place, Action::Acquire(_, _, _))) => Some(place),
        Some(Call::On(place, Action::AwaitOn(_, _))) => Some(place),
        _ => None,
    }
}

/// Returns whether a thread that waits in a call has released what it held of an object.
pub(crate) fn has_released(call: Option<Call>, object: usize) -> bool
    ensures { result ≡ has_released call object }
{
    match call {
        Some(Call::On(place, Action::AwaitOn(_, _))) => place == object,
        _ => false,
    }
}

/// Returns whether something of an object is among what a thread held.
fn is_among(held: &[Held], object: usize) -> bool
    ensures { result ≡ is_among held.now object }
{
    let [one, more @ ..] = held else {
        return false;
    };
    one.object == object || is_among(more, object)
}

/// Returns the call in which the thread of a number waits.
fn call_of(workers: &[Worker], standings: &[Standing], thread: usize) -> Option<Call>
    ensures { result ≡ call_of workers.now standings.now thread }
{
    let Some(worker) = workers.get(thread) else {
        return None;
    };
    let Some(standing) = standings.get(thread) else {
        return None;
    };
    waiting_call(worker, standing)
}

/// Returns the object without which the thread of a number does not go on.
pub(crate) fn object_of(workers: &[Worker], standings: &[Standing], thread: usize) -> Option<usize>
    ensures { result ≡ awaited (call_of workers.now standings.now thread) }
{
    awaited(call_of(workers, standings, thread))
}

/// Returns whether the thread of a number holds something of an object.
pub(crate) fn is_holder(
    workers: &[Worker],
    standings: &[Standing],
    thread: usize,
    object: usize,
) -> bool
    ensures { result ≡ is_holder workers.now standings.now thread object }
{
    if has_released(call_of(workers, standings, thread), object) {
        return false;
    }
    match standings.get(thread) {
        Some(standing) => is_among(&standing.held, object),
        None => false,
    }
}
