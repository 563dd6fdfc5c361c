//! A worker's call as a call of a monitor.
ghost use Rattle.monitor.specs.Calling.{CanCall, Called};
ghost use Rattle.workers.specs.Calls.{IsActed};

use crate::post::Post;
use crate::reply::Reply;
use any_object::AnyHooks;
use monitor::{Monitor, Pass};
use script::Action;
use std::sync::Wait;
use std::time::Clock;

/// Makes the call of an object that a script asks for.
pub(crate) fn act<R: Wait + Clock>(
    rt: &R,
    parking: &Post,
    monitor: &Monitor<AnyHooks>,
    pass: &mut Pass,
    action: Action,
) -> Reply
    requires can { CanCall monitor.now parking.now pass.old }
    ensures called { Called pass.old pass.new }
    ensures acted { IsActed parking.now action pass.old result pass.new }
{
    match action {
        Action::Acquire(mode, n, how) => {
            Reply::Entered(monitor.acquire(rt, parking, pass, mode, n, how))
        }
        Action::TryAcquire(mode, n) => Reply::Entered(monitor.try_acquire(
            rt, parking, pass, mode, n,
        )),
        Action::Release(mode, n) => Reply::Entered(monitor.release(rt, parking, pass, mode, n)),
        Action::AwaitOn(condition, how) => {
            Reply::Entered(monitor.await_on(rt, parking, pass, condition, how))
        }
        Action::Signal(condition) => Reply::Entered(monitor.signal(rt, parking, pass, condition)),
        Action::SignalAll(condition) => {
            Reply::Entered(monitor.signal_all(rt, parking, pass, condition))
        }
        Action::Drain => Reply::Entered(monitor.drain(rt, parking, pass)),
        Action::Trim => Reply::Trimmed(monitor.trim(rt, pass)),
    }
}
