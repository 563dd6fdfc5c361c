//! The kinds of monitor at which pairs are made.
ghost use Rattle.std.specs.Prelude.{◌≤◌, ◌<◌};

use crate::monitor_pairs::pairs::{Counted, count};
use crate::monitor_pairs::race::Limit;
use counting::semaphore::SemaphoreHooks;
use history::entry::Mode;
use history::fault::Fault;
use history::header::Policy;
use read_write::hooks::RwHooks;
use reentrant::lock::LockHooks;
use std::alloc::Global;
use std::sync::Wait;
use std::thread::Threads;
use std::time::Clock;

#[derive(Clone, Copy)]
pub enum Kind {
    NonFairLock,
    FairLock,
    /// With one permit.
    Semaphore,
    WriteLock,
    ReadLock,
}

pub const ALL_KINDS: [Kind; 5] = [
    Kind::NonFairLock,
    Kind::FairLock,
    Kind::Semaphore,
    Kind::WriteLock,
    Kind::ReadLock,
];

impl Kind {
    pub fn name(&self) -> &'static str {
        match self {
            Kind::NonFairLock => "ReentrantLock-nonfair",
            Kind::FairLock => "ReentrantLock-fair",
            Kind::Semaphore => "Semaphore-nonfair",
            Kind::WriteLock => "ReadWriteLock-write",
            Kind::ReadLock => "ReadWriteLock-read",
        }
    }
}

/// Returns the pairs of `threads` threads at a monitor of this kind.
pub fn count_pairs<R: Threads + Wait + Clock + Sync>(
    rt: &R,
    alloc: Global,
    kind: Kind,
    threads: u16,
    limit: Limit,
) -> Result<Counted, Fault>
    requires { (0 < threads) × (threads ≤ 256) }
{
    match kind {
        Kind::NonFairLock => {
            let hooks = LockHooks::open(Policy::NonFair);
            count(rt, alloc, hooks, Mode::X, threads, limit)
        }
        Kind::FairLock => {
            let hooks = LockHooks::open(Policy::Fair);
            count(rt, alloc, hooks, Mode::X, threads, limit)
        }
        Kind::Semaphore => {
            let hooks = SemaphoreHooks::open(Policy::NonFair, 1);
            count(rt, alloc, hooks, Mode::S, threads, limit)
        }
        Kind::WriteLock => {
            let hooks = RwHooks::open(alloc, Policy::NonFair, threads)?;
            count(rt, alloc, hooks, Mode::X, threads, limit)
        }
        Kind::ReadLock => {
            let hooks = RwHooks::open(alloc, Policy::NonFair, threads)?;
            count(rt, alloc, hooks, Mode::S, threads, limit)
        }
    }
}
