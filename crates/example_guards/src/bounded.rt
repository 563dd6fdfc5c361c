//! A queue with two places.
ghost use Rattle.std.specs.Prelude.{◌≡◌, ◌<◌, ◌≤◌, ◌==◌};
ghost use Rattle.std.specs.VecDeque.{deque_len};

use history::fault::Fault;
use std::alloc::Global;
use std::collections::VecDeque;

const PLACES: usize = 2;

/// Items in the order in which they were put, two at most.
#[derive(Drop)]
pub struct Bounded {
    items: VecDeque<u64>,
    ghost few: { deque_len items ≤ 2 },
}

impl Bounded {
    pub fn new(alloc: Global) -> Bounded
        ensures { deque_len result.items ≡ 0 }
    {
        Bounded {
            items: VecDeque::new(alloc),
        }
    }

    pub fn is_full(&self) -> bool
        ensures { result ≡ (deque_len self.now.items == 2) }
    {
        self.items.len() == PLACES
    }

    pub fn is_empty(&self) -> bool
        ensures { result ≡ (deque_len self.now.items == 0) }
    {
        self.items.len() == 0
    }

    /// Appends an item. Returns `OutOfMemory` if an allocation fails.
    pub fn push(&mut self, item: u64) -> Result<(), Fault>
        requires { deque_len self.old.items < 2 }
    {
        match self.items.push_back(item) {
            Ok(()) => Ok(()),
            Err(_) => Err(Fault::OutOfMemory),
        }
    }

    /// Removes the first item and returns it, if there is one.
    pub fn pop(&mut self) -> Option<u64> {
        self.items.pop_front()
    }
}
