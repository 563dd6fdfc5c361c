//! The queue of jobs.
ghost use Rattle.std.specs.Prelude.{◌≡◌, ◌+◌, ◌<◌, ◌^◌, ◌==◌, true, false, IfErr, IfOk};
ghost use Rattle.std.specs.VecDeque.{deque_len};

use locks::Fault;
use std::alloc::Global;
use std::collections::VecDeque;

/// The most jobs that wait.
const PLACES: usize = 4;

/// The jobs that wait, in the order in which they were put, and how many were ever put and taken. The ghost field
/// says that none was lost. It holds whenever a thread gets the queue, so whoever changes the queue has to keep it.
#[derive(Drop)]
pub struct Jobs {
    waiting: VecDeque<u64>,
    put: u64,
    taken: u64,
    is_closed: bool,
    ghost none_lost: { put ≡ taken + deque_len waiting },
}

impl Jobs {
    pub fn new(alloc: Global) -> Jobs
        ensures { result.put ≡ 0 }
    {
        Jobs {
            waiting: VecDeque::new(alloc),
            put: 0,
            taken: 0,
            is_closed: false,
        }
    }

    /// How many jobs wait.
    pub fn waiting(&self) -> u64
        ensures { self.now.put ≡ self.now.taken + result }
    {
        self.put - self.taken
    }

    pub fn is_empty(&self) -> bool
        ensures { result ≡ (self.now.put == self.now.taken) }
    {
        self.put == self.taken
    }

    /// Whether there is no place for a job.
    pub fn is_full(&self) -> bool
        ensures { result ≡ false → self.now.put + 1 < 2 ^ 64 }
    {
        self.waiting.len() >= PLACES || self.put == u64::MAX
    }

    pub fn is_closed(&self) -> bool
        ensures { result ≡ self.now.is_closed }
    {
        self.is_closed
    }

    /// Closes the queue. What waits in it can be taken.
    pub fn close(&mut self)
        ensures closed { self.new.is_closed ≡ true }
        ensures waiting { self.new.waiting ≡ self.old.waiting }
    {
        self.is_closed = true;
    }

    /// Appends a job. After `OutOfMemory` the queue is as it was.
    pub fn put(&mut self, job: u64) -> Result<(), Fault>
        requires place { self.old.put + 1 < 2 ^ 64 }
        ensures put { IfOk result (λ _. self.new.put ≡ self.old.put + 1) }
        ensures taken { self.new.taken ≡ self.old.taken }
        ensures not_put { IfErr result (λ _. self.new.put ≡ self.old.put) }
    {
        match self.waiting.push_back(job) {
            Ok(()) => {
                self.put += 1;
                Ok(())
            }
            Err(_) => Err(Fault::OutOfMemory),
        }
    }

    /// Takes the first job out.
    pub fn take(&mut self) -> u64
        requires some { (self.old.put == self.old.taken) ≡ false }
        ensures taken { self.new.taken ≡ self.old.taken + 1 }
        ensures put { self.new.put ≡ self.old.put }
    {
        let Some(job) = self.waiting.pop_front() else {
            unreachable!()
        };
        self.taken += 1;
        job
    }
}
