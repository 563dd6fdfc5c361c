//! Monitors with almost no free memory: no call except an opening allocates, apart from the pages of a
//! history.

ghost use Rattle.std.specs.Prelude.{◌≡◌, IfOk};

use history::entry::Mode;
use history::fault::Fault;
use history::header::Policy;
use history::step::Step;
use monitor::{Monitor, Pass};
use monitor_fronts::open_lock;
use reentrant::lock::LockHooks;
use std::alloc::{AllocError, Global};
use std::sync::Wait;
use std::test::Fail;
use test_support::memory::Memory;

/// Returns a monitor of one seat, and its pass.
fn of_one(alloc: Global) -> Result<(Monitor<LockHooks>, Pass), Fault>
    ensures own { IfOk result (λ r. r.1.lock ≡ r.0) }
    ensures seats { IfOk result (λ r. r.0.header.seats ≡ 1) }
{
    let (monitor, mut passes) = open_lock(alloc, Policy::Fair, 1, 0, 16)?;
    match passes.pop() {
        Some(pass) => Ok((monitor, pass)),
        None => unreachable!(),
    }
}

/// Makes an acquire, a release and a trim, by steps that wait for the critical section and by one that
/// doesn't, and calls the observers. Returns whether each succeeds.
fn call_each<R: Wait>(rt: &R, monitor: &Monitor<LockHooks>, pass: &mut Pass) -> bool
    requires is_of { pass.old.lock ≡ monitor.now }
    ensures is_of { pass.new.lock ≡ monitor.now }
{
    let got = monitor.step(rt, pass, Step::Acquire(Mode::X, 1)).is_ok();
    let is_held = monitor.is_held(rt, pass) && monitor.queue_length(rt, pass) == 0;
    let gave = monitor.step_now(pass, Step::Give(Mode::X, 1)).is_ok();
    let trimmed = monitor.trim(rt, pass).is_ok();
    got && is_held && gave && trimmed
}

/// Leaves `pieces` pieces free.
fn leave(memory: &mut Memory, pieces: usize) -> Result<(), AllocError> {
    memory.take_pieces();
    memory.take_rest()?;
    memory.give_pieces(pieces);
    Ok(())
}

/// A heap keeps each smaller block for requests of its size, even after it is freed. So whatever is cut from
/// such a piece is missed.
const NARROW: usize = 1040;

/// Makes all calls with this number of free pieces. As many are free afterwards.
fn call_in_need<R: Wait + AllocGlobal>(
    rt: &R,
    monitor: &Monitor<LockHooks>,
    pass: &mut Pass,
    pieces: usize,
) -> Result<bool, AllocError>
    requires is_of { pass.old.lock ≡ monitor.now }
{
    let mut memory = Memory::take_all(rt.alloc(), NARROW)?;
    let left = leave(&mut memory, pieces).is_ok();
    Ok(left && call_each(rt, monitor, pass) && memory.free_pieces() == pieces)
}

#[test]
fn no_call_of_a_monitor_takes_memory(rt: HostRuntime) -> Result<(), Fail> {
    for pieces in [0, 1] {
        let (monitor, mut pass) = of_one(rt.alloc())?;
        let is_first = call_each(&rt, &monitor, &mut pass);
        let is_second = call_in_need(&rt, &monitor, &mut pass, pieces);
        assert!(rt; is_first && is_second == Ok(true), "{pieces}");
    }
    Ok(())
}
