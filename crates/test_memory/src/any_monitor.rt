//! A monitor of any object, with the passes of all its seats, in one thread.

ghost use Rattle.std.specs.Prelude.{◌≡◌, ◌<◌, All, IfOk, ⊤};

use crate::any_core::Outcome;
use any_object::AnyHooks;
use frame::acts::{Act, Done};
use history::fault::Fault;
use history::header::Header;
use history::step::Step;
use monitor::{Monitor, Now, Pass};
use std::alloc::Global;
use std::marker::Model;
use std::sync::Wait;

type Inner = Monitor<AnyHooks>;

fn open(alloc: Global, header: &Header) -> Result<(Inner, Vec<Pass>), Fault>
    ensures own { IfOk result (λ r. All (λ p. p.lock ≡ r.0) r.1.items) }
    ensures seats { IfOk result (λ r. r.0.header.seats ≡ header.now.seats) }
{
    if !header.in_range() {
        return Err(Fault::BadAmount);
    }
    let hooks = AnyHooks::open(alloc, header)?;
    Monitor::open(alloc, hooks, header.seats, header.conditions, header.cap)
}

/// Performs a step with the pass of its seat. A busy monitor, which no list has, counts as lack of memory.
fn step_now(monitor: &Inner, passes: &mut Vec<Pass>, seat: u16, step: Step) -> Outcome
    requires { All (λ p. p.lock ≡ monitor.now) passes.old.items }
    ensures { All (λ p. p.lock ≡ monitor.now) passes.new.items }
{
    match passes.get_mut(usize::from(seat)) {
        Some(pass) => match monitor.step_now(pass, step)? {
            Now::Done(answer) => Ok(Done::Answered(answer)),
            Now::Busy => Err(Fault::OutOfMemory),
        },
        None => Err(Fault::OutOfPhase),
    }
}

/// Trims with the pass of the first seat.
fn trim<R: Wait>(rt: &R, monitor: &Inner, passes: &mut Vec<Pass>) -> Outcome
    requires { All (λ p. p.lock ≡ monitor.now) passes.old.items }
    ensures { All (λ p. p.lock ≡ monitor.now) passes.new.items }
{
    match passes.get_mut(0) {
        Some(pass) => Ok(Done::Trimmed(monitor.trim(rt, pass)?)),
        None => Err(Fault::OutOfPhase),
    }
}

/// Returns whether the seat is marked as told.
fn is_told<R: Wait>(rt: &R, monitor: &Inner, passes: &mut Vec<Pass>, seat: u16) -> bool
    requires own { All (λ p. p.lock ≡ monitor.now) passes.old.items }
    requires seat { seat < monitor.now.header.seats }
    ensures { All (λ p. p.lock ≡ monitor.now) passes.new.items }
{
    match passes.get_mut(usize::from(seat)) {
        Some(pass) => monitor.is_told(rt, pass, seat),
        None => false,
    }
}

/// Contracts see nothing of it, as of an `AnyCore`.
#[derive(Drop)]
pub struct AnyMonitor {
    monitor: Inner,
    passes: Vec<Pass>,
    seats: u16,
}

impl Model for AnyMonitor {
    ghost use Rattle.std.specs.Prelude.{◌≡◌, All, ⊤};

    ghost Value = { ⊤ };

    ghost view = { λ _. tt };

    ghost invariant = { λ m. (m.seats ≡ m.monitor.header.seats)
        × All (λ p. p.lock ≡ m.monitor) m.passes.items };
}

impl AnyMonitor {
    /// Opens a monitor of the header. Returns `BadAmount` if no object has such a header.
    pub fn open(alloc: Global, header: &Header) -> Result<AnyMonitor, Fault> {
        match open(alloc, header) {
            Ok((monitor, passes)) => Ok(AnyMonitor {
                monitor,
                passes,
                seats: header.seats,
            }),
            Err(fault) => Err(fault),
        }
    }

    /// Performs a step, by a call that doesn't wait for the critical section, or a trim.
    pub fn act<R: Wait>(&mut self, rt: &R, act: Act) -> Outcome {
        match act {
            Act::Do(seat, step) => step_now(&self.monitor, &mut self.passes, seat, step),
            Act::Trim => trim(rt, &self.monitor, &mut self.passes),
        }
    }

    pub fn is_told<R: Wait>(&mut self, rt: &R, seat: u16) -> bool {
        seat < self.seats && is_told(rt, &self.monitor, &mut self.passes, seat)
    }

    /// Closes it. Returns how many entries and calls its history has, and how many calls its passes counted.
    pub fn close<R: Wait>(self, rt: &R) -> Option<(u64, u64, u64)> {
        let AnyMonitor {
            monitor,
            passes,
            seats: _,
        } = self;
        match monitor.close(rt, passes) {
            Ok(closed) => Some((closed.history.len(), closed.history.calls(), closed.share)),
            Err(_) => None,
        }
    }
}
