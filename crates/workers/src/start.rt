//! The start of all workers.
ghost use Rattle.std.specs.Prelude.{◌≡◌, IfErr};
ghost use Rattle.workers.specs.Refused.{WasRefused};
ghost use Rattle.workers.specs.declared.fault.RunFault.TheVariants.{NotStarted};

use crate::fault::RunFault;
use std::sync::Wait;
use std::sync::atomic::{AtomicU64, Ordering};

/// Some threads aren't started yet.
const STARTING: u64 = 0;

/// All threads are started.
const GO: u64 = 1;

/// Some thread couldn't be started.
const CALLED_OFF: u64 = 2;

/// Sets a word, and then wakes all who wait for that: each looks at the word again, and may go back to sleep.
pub(crate) fn tell(word: &AtomicU64, value: u64) {
    word.store(value, Ordering::SeqCst);
    word.wake_all();
}

/// Where workers wait until all threads were started.
#[derive(Drop)]
pub(crate) struct Start {
    word: AtomicU64,
}

impl Start {
    pub(crate) fn new() -> Start {
        Start {
            word: AtomicU64::new(STARTING),
        }
    }

    /// Lets all workers begin.
    pub(crate) fn go(&self) {
        tell(&self.word, GO);
    }

    /// Lets all workers end without a call.
    pub(crate) fn call_off(&self) {
        tell(&self.word, CALLED_OFF);
    }

    /// Waits until the workers may begin. If they were called off instead, returns `NotStarted` for this one.
    #[tactic(auto, using(crate::specs::Refused::refused))]
    pub(crate) fn wait<R: Wait>(&self, rt: &R, worker: u16) -> Result<(), RunFault>
        ensures { IfErr result (λ fault. (fault ≡ NotStarted worker) × WasRefused worker) }
    {
        for _ in rt.forever() {
            match self.word.load(Ordering::SeqCst) {
                STARTING => self.word.park(rt, STARTING as u32),
                GO => return Ok(()),
                _ => return Err(RunFault::NotStarted(worker)),
            }
        }
        unreachable!()
    }
}

#[cfg(test)]
mod tests;
