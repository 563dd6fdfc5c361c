//! The core of one object.

mod at_once;
mod by_kind;
mod decide;
mod observing;
mod recording;
mod stepping;
mod trimming;

ghost use Rattle.std.specs.Prelude.{◌≡◌, [], ℕ, IfOk, IfErr};
ghost use Rattle.frame.specs.Below.{opening_base, IsInRange, unmarked, OutOfMemory};
ghost use Rattle.frame.specs.Core.{header_of, marks_of};

use crate::hooks::Hooks;
use crate::seat::Seat;
use acquire_queue::queue::Queue;
pub use at_once::entry_at_once;
use condition_queue::waiters::Waiters;
use history::base::Base;
use history::entries::History;
use history::fault::Fault;
use history::header::Header;
use std::alloc::Global;
use std::marker::Model;

/// An object with its hooks, its queue, the waiters of its conditions, its history, and the holds and mark of
/// each seat.
///
/// Each step of a seat is one change: it records the one entry that the step makes, or nothing. The core
/// keeps what a step needs, so no step searches the history.
#[derive(Drop)]
pub struct Core<H: Hooks + Drop> {
    hooks: H,
    history: History,
    seats: Vec<Seat>,
    queue: Queue,
    waiters: Waiters,
    header: Header,
}

impl<H: Hooks + Drop> Model for Core<H> {
    ghost use Rattle.frame.specs.Core.{CoreView, IsInStep, with_history};
    ghost use Rattle.frame.specs.Seat.{told_in};

    ghost Value = { CoreView };

    ghost view = { λ a. with_history a.header a.history (told_in a.seats.items) };

    ghost invariant = { λ a. IsInStep (H.agrees a.hooks) a.header a.history a.queue a.waiters a.seats.items };
}

impl<H: Hooks + Drop> Core<H> {
    /// Returns a core with an empty history. All memory is reserved here, except the history's.
    pub fn open(
        alloc: Global,
        hooks: H,
        seats: u16,
        conditions: u8,
        cap: u32,
    ) -> Result<Self, Fault>
        requires opened { H.is_opened hooks seats }
        requires range { IsInRange (header_of (H.object_of hooks) seats conditions cap) }
        ensures header { IfOk result (λ core.
            core.header ≡ header_of (H.object_of hooks) seats conditions cap) }
        ensures base { IfOk result (λ core. core.base ≡ opening_base core.header) }
        ensures empty { IfOk result (λ core. core.entries ≡ []) }
        ensures places { IfOk result (λ core. core.places ≡ 0) }
        ensures told { IfOk result (λ core. marks_of core ≡ unmarked) }
        ensures err { IfErr result (λ fault. fault ≡ OutOfMemory) }
    {
        let header = Header {
            object: hooks.object(),
            seats,
            conditions,
            cap,
        };
        let base = Base::open(alloc, &header)?;
        let queue = Queue::open(alloc, seats)?;
        let waiters = Waiters::open(alloc, conditions, seats)?;
        let table = vec![in alloc; Seat::free(); seats as usize]?;
        Ok(Core {
            hooks,
            history: History::open_on(cap, base),
            seats: table,
            queue,
            waiters,
            header,
        })
    }
}
