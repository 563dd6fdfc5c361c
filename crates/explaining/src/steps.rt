//! The steps that a seat could take.

ghost use Rattle.std.specs.Prelude.{◌≡◌, ◌++◌, IfOk, OnOk};
ghost use Rattle.explaining.specs.Ways.{asked, calls_in, calls_on, calls_below, steps_of, unasked};

use history::entry::Mode;
use history::header::{Header, Object};
use history::step::Step;
use std::alloc::{AllocError, Global};

/// Returns the amount of each request: only a semaphore counts in others than 1.
fn asked(object: Object, n: u32) -> u32
    ensures { result ≡ asked object n }
{
    match object {
        Object::Semaphore(_, _) => n,
        Object::Lock(_) | Object::ReadWrite(_) | Object::Latch(_) => 1,
    }
}

/// Appends the calls that ask for an amount in a mode.
fn put_calls(steps: &mut Vec<Step>, mode: Mode, n: u32) -> Result<(), AllocError>
    ensures { OnOk result (steps.new.items ≡ steps.old.items ++ calls_in mode n) }
{
    steps.extend_from_slice(&[
        Step::Acquire(mode, n),
        Step::Try(mode, n),
        Step::TryFair(mode, n),
        Step::EntryInterrupt(mode, n),
        Step::Give(mode, n),
    ])
}

/// Appends the steps without an amount or a condition.
fn put_unasked(steps: &mut Vec<Step>) -> Result<(), AllocError>
    ensures { OnOk result (steps.new.items ≡ steps.old.items ++ unasked) }
{
    steps.extend_from_slice(&[Step::Look, Step::Expire, Step::Interrupt, Step::Drain])
}

/// Appends the calls on a condition.
fn put_calls_on(steps: &mut Vec<Step>, condition: u8) -> Result<(), AllocError>
    ensures { OnOk result (steps.new.items ≡ steps.old.items ++ calls_on condition) }
{
    steps.extend_from_slice(&[
        Step::Await(condition),
        Step::Signal(condition),
        Step::SignalAll(condition),
    ])
}

/// Appends the calls on all conditions.
fn put_calls_below(steps: &mut Vec<Step>, conditions: u8) -> Result<(), AllocError>
    ensures { OnOk result (steps.new.items ≡ steps.old.items ++ calls_below conditions) }
{
    for condition in 0..conditions {
        put_calls_on(steps, condition)?;
    }
    Ok(())
}

/// Returns the steps of a header's object, with this amount. If any step makes an entry of that amount, one
/// of these does.
pub(crate) fn steps_of(alloc: Global, header: Header, n: u32) -> Result<Vec<Step>, AllocError>
    ensures { IfOk result (λ steps. steps.items ≡ steps_of header n) }
{
    let n = asked(header.object, n);
    let mut steps = Vec::new(alloc);
    put_calls(&mut steps, Mode::X, n)?;
    put_calls(&mut steps, Mode::S, n)?;
    put_unasked(&mut steps)?;
    put_calls_below(&mut steps, header.conditions)?;
    Ok(steps)
}
