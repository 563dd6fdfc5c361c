//! Calls that may wait, as numbers.
ghost use Rattle.std.specs.Prelude.{◌≡◌, IfSome, IfNone};
ghost use Rattle.aqs_c.specs.Below.{How, Request, Woke};
ghost use Rattle.aqs_c.specs.Codes.{IsCallOf, IsHow, IsMinding, IsRequest, IsWoke};

use crate::steps::mode_of;
use monitor::{How, Request};
use permit::Woke;

/// A call that may wait.
///
/// - `kind`: 0 acquires `n` in the mode `mode`, 1 awaits a signal to the condition `mode`.
/// - `how`: 0 plain, 1 interruptible, 2 timed, by `time` milliseconds from `moment` on.
/// - `interrupted`: 1 if the call heeds interrupts and one was pending, which was taken; otherwise 0.
#[repr(C)]
#[derive(Clone, Copy)]
pub struct AqsCall {
    pub moment: u64,
    pub n: u32,
    pub time: u32,
    pub kind: u8,
    pub mode: u8,
    pub how: u8,
    pub interrupted: u8,
}

// What a call asks for, if its numbers say so.
fn request_of(call: AqsCall) -> Option<Request>
    ensures some { IfSome result (λ r. IsRequest r call) }
    ensures none { IfNone result ((r : Request) → IsRequest r call → ⊥) }
{
    match call.kind {
        0 => Some(Request::Acquire(mode_of(call.mode)?, call.n)),
        1 => Some(Request::AwaitOn(call.mode)),
        _ => None,
    }
}

// How long it waits, if its numbers say so.
fn how_of(call: AqsCall) -> Option<How>
    ensures some { IfSome result (λ how. IsHow how call) }
    ensures none { IfNone result ((how : How) → IsHow how call → ⊥) }
{
    match call.how {
        0 => Some(How::Plain),
        1 => Some(How::Interruptible),
        2 => Some(How::Timed(call.time)),
        _ => None,
    }
}

// Whether an interrupt was pending, if its numbers say so. A plain call heeds none.
fn interrupt_of(call: AqsCall) -> Option<bool>
    ensures some { IfSome result (λ was. IsMinding was call) }
    ensures none { IfNone result ((was : _) → IsMinding was call → ⊥) }
{
    match (call.interrupted, call.how) {
        (0, _) => Some(false),
        (1, 1) => Some(true),
        (1, 2) => Some(true),
        _ => None,
    }
}

/// A call as its numbers say.
#[derive(Clone, Copy)]
pub(crate) struct Call {
    pub(crate) request: Request,
    pub(crate) how: How,
    pub(crate) interrupted: bool,
}

/// The call of these numbers, if they are those of one.
pub(crate) fn call_of(call: AqsCall) -> Option<Call>
    ensures some { IfSome result (λ c. IsCallOf c.request c.how c.interrupted call) }
    ensures none { IfNone result ((q : Request) (how : How) (was : _) → IsCallOf q how was call → ⊥) }
{
    let request = request_of(call)?;
    let how = how_of(call)?;
    let interrupted = interrupt_of(call)?;
    Some(Call {
        request,
        how,
        interrupted,
    })
}

/// How a park ended, if it is the number of an end.
pub(crate) fn woke_of(woke: u8) -> Option<Woke>
    ensures some { IfSome result (λ w. IsWoke w woke) }
    ensures none { IfNone result ((w : Woke) → IsWoke w woke → ⊥) }
{
    match woke {
        0 => Some(Woke::Permit),
        1 => Some(Woke::Deadline),
        2 => Some(Woke::Interrupted),
        _ => None,
    }
}
