//! Callers of `frame`, with the hooks of a lock.

ghost use Rattle.std.specs.Prelude.{◌≡◌, ◌<◌, ◌≤◌, [], IfOk, IfErr, OnErr};
ghost use Rattle.history.specs.Counts.{held};
ghost use Rattle.history.specs.Order.{IsInOrder, IsFairOrder};
ghost use Rattle.history.specs.declared.entry.Mode.TheVariants.{X};
ghost use Rattle.history.specs.declared.fault.Fault.TheVariants.{OutOfMemory};
ghost use Rattle.history.specs.declared.header.Object.TheVariants.{Lock};
ghost use Rattle.history.specs.declared.header.Policy.TheVariants.{Fair};
ghost use Rattle.frame.specs.Core.{header_of, start_of};

use frame::Step;
use frame::hooks::Hooks;
use frame::machine::Core;
use history::entry::Mode;
use history::fault::Fault;
use history::header::Policy;
use reentrant::lock::LockHooks;
use std::alloc::Global;

/// Returns a fair lock with two conditions, which nobody holds.
pub fn fair_lock(alloc: Global, seats: u16, cap: u32) -> Result<Core<LockHooks>, Fault>
    requires some { 1 ≤ seats }
    requires few { seats ≤ 256 }
    requires cap { 16 ≤ cap }
    ensures header { IfOk result (λ core. core.header ≡ header_of (Lock Fair) seats 2 cap) }
    ensures fresh { IfOk result (λ core. core.entries ≡ []) }
    ensures err { IfErr result (λ fault. fault ≡ OutOfMemory) }
{
    Core::open(alloc, LockHooks::open(Policy::Fair), seats, 2, cap)
}

/// Acquires an object exclusively for a thread, and returns how many exclusive holds the thread has then: 0
/// if it doesn't hold the object.
pub fn acquire<H: Hooks + Drop>(core: &mut Core<H>, seat: u16) -> Result<u128, Fault>
    requires { seat < core.old.header.seats }
    ensures holds { IfOk result (λ holds. holds ≡ held (start_of core.new) core.new.entries seat X) }
    ensures header { core.new.header ≡ core.old.header }
    ensures order { IsInOrder (start_of core.new) core.new.entries }
    ensures fair { IsFairOrder (start_of core.new) core.new.entries }
    ensures err { OnErr result (core.new ≡ core.old) }
{
    let answer = core.step(seat, Step::Acquire(Mode::X, 1));
    core.recall_lawful();
    match answer {
        Ok(_) => Ok(core.holds(seat, Mode::X)),
        Err(fault) => Err(fault),
    }
}
