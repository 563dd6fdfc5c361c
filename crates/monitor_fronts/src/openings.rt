//! How the monitor of each front type is opened: the constructors of `java.util.concurrent`.
//!
//! Each returns the monitor with an empty history, and a pass for each seat, in order. `cap` is the
//! greatest number of entries of the history, owed ones included. An opening says nothing about a full
//! history: the front that is made over the monitor says what its calls then do. The only error is
//! `OutOfMemory`.

ghost use Rattle.std.specs.Prelude.{◌≡◌, [], All, IfOk, IfErr, vec_capacity};
ghost use Rattle.frame.specs.Core.{header_of};
ghost use Rattle.history.specs.Header.{IsInRange};
ghost use Rattle.history.specs.declared.fault.Fault.TheVariants.{OutOfMemory};
ghost use Rattle.history.specs.declared.header.Object.TheVariants.{Latch, Lock, ReadWrite, Semaphore};
ghost use Rattle.monitor.specs.Lawful.{blank};
ghost use Rattle.monitor.specs.Shown.{opening_passes};

use counting::latch::LatchHooks;
use counting::semaphore::SemaphoreHooks;
use history::fault::Fault;
use history::header::Policy;
use monitor::{Monitor, Pass};
use read_write::hooks::RwHooks;
use reentrant::lock::LockHooks;
use std::alloc::Global;

/// A lock with conditions 0 to `conditions - 1`, for a [`ReentrantLock`](crate::ReentrantLock).
pub fn open_lock(
    alloc: Global,
    policy: Policy,
    seats: u16,
    conditions: u8,
    cap: u32,
) -> Result<(Monitor<LockHooks>, Vec<Pass>), Fault>
    requires { IsInRange (header_of (Lock policy) seats conditions cap) }
    ensures header { IfOk result (λ r. r.0.header ≡ header_of (Lock policy) seats conditions cap) }
    ensures passes { IfOk result (λ r. r.1.items ≡ opening_passes r.0 (blank r.0.header) 0 seats) }
    ensures own { IfOk result (λ r. All (λ p. p.lock ≡ r.0) r.1.items) }
    ensures room { IfOk result (λ r. vec_capacity r.1 ≡ seats) }
    ensures err { IfErr result (λ fault. fault ≡ OutOfMemory) }
{
    let hooks = LockHooks::open(policy);
    Monitor::open(alloc, hooks, seats, conditions, cap)
}

/// A read-write lock whose write lock has conditions 0 to `conditions - 1`, for a
/// [`ReadWriteLock`](crate::ReadWriteLock).
pub fn open_read_write_lock(
    alloc: Global,
    policy: Policy,
    seats: u16,
    conditions: u8,
    cap: u32,
) -> Result<(Monitor<RwHooks>, Vec<Pass>), Fault>
    requires { IsInRange (header_of (ReadWrite policy) seats conditions cap) }
    ensures header { IfOk result (λ r. r.0.header ≡ header_of (ReadWrite policy) seats conditions cap) }
    ensures passes { IfOk result (λ r. r.1.items ≡ opening_passes r.0 (blank r.0.header) 0 seats) }
    ensures own { IfOk result (λ r. All (λ p. p.lock ≡ r.0) r.1.items) }
    ensures room { IfOk result (λ r. vec_capacity r.1 ≡ seats) }
    ensures err { IfErr result (λ fault. fault ≡ OutOfMemory) }
{
    let hooks = RwHooks::open(alloc, policy, seats)?;
    Monitor::open(alloc, hooks, seats, conditions, cap)
}

/// A semaphore with `permits` free permits, which may be below 0, for a [`Semaphore`](crate::Semaphore).
pub fn open_semaphore(
    alloc: Global,
    policy: Policy,
    permits: i32,
    seats: u16,
    cap: u32,
) -> Result<(Monitor<SemaphoreHooks>, Vec<Pass>), Fault>
    requires { IsInRange (header_of (Semaphore policy permits) seats 0 cap) }
    ensures header { IfOk result (λ r. r.0.header ≡ header_of (Semaphore policy permits) seats 0 cap) }
    ensures passes { IfOk result (λ r. r.1.items ≡ opening_passes r.0 (blank r.0.header) 0 seats) }
    ensures own { IfOk result (λ r. All (λ p. p.lock ≡ r.0) r.1.items) }
    ensures room { IfOk result (λ r. vec_capacity r.1 ≡ seats) }
    ensures err { IfErr result (λ fault. fault ≡ OutOfMemory) }
{
    let hooks = SemaphoreHooks::open(policy, permits);
    Monitor::open(alloc, hooks, seats, 0, cap)
}

/// A latch that opens when it was counted down `count` times, for a [`Latch`](crate::Latch).
pub fn open_latch(
    alloc: Global,
    count: u32,
    seats: u16,
    cap: u32,
) -> Result<(Monitor<LatchHooks>, Vec<Pass>), Fault>
    requires { IsInRange (header_of (Latch count) seats 0 cap) }
    ensures header { IfOk result (λ r. r.0.header ≡ header_of (Latch count) seats 0 cap) }
    ensures passes { IfOk result (λ r. r.1.items ≡ opening_passes r.0 (blank r.0.header) 0 seats) }
    ensures own { IfOk result (λ r. All (λ p. p.lock ≡ r.0) r.1.items) }
    ensures room { IfOk result (λ r. vec_capacity r.1 ≡ seats) }
    ensures err { IfErr result (λ fault. fault ≡ OutOfMemory) }
{
    let hooks = LatchHooks::open(count);
    Monitor::open(alloc, hooks, seats, 0, cap)
}
