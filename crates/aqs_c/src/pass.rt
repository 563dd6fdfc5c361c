//! What C holds of a seat.
ghost use Rattle.std.specs.Prelude.{◌≡◌, ◌↔◌, IsTrue, IsSome, Some, None, MatchOption};

use crate::held::Held;
use crate::loose::Loose;
use crate::seat::{Seat, sent};
use std::alloc::Global;
use std::mem;
use std::ptr::null_mut;

/// A seat, or none: all bytes 0. `live` is 1 or 0. It is as wide as a pointer, so that no byte between the
/// fields is copied.
#[repr(C)]
#[derive(Drop)]
pub struct AqsPass {
    pub held: Held,
    live: u64,
    ghost known: { (live ≡ 1) ↔ IsSome held.value },
}

impl AqsPass {
    pub(crate) fn none(alloc: Global) -> AqsPass
        ensures { result.held.value ≡ None }
    {
        let at = null_mut();
        let held = Held::none(at, alloc);
        AqsPass { held, live: 0 }
    }

    pub(crate) fn of(seat: Box<Seat>) -> AqsPass
        ensures { result.held.value ≡ Some seat.value }
    {
        let held = Held::of(Loose::of(sent(seat)));
        AqsPass { held, live: 1 }
    }

    pub(crate) fn is_empty(&self) -> bool
        ensures { IsTrue result ↔ (self.now.held.value ≡ None) }
    {
        self.live != 1
    }

    /// Takes the seat out.
    pub(crate) fn take(&mut self, alloc: Global) -> Option<Box<Seat>>
        ensures left { self.new.held.value ≡ None }
        ensures taken { MatchOption result (self.old.held.value ≡ None)
            (λ seat. self.old.held.value ≡ Some seat.value) }
    {
        let AqsPass { held, live } = mem::replace(self, AqsPass::none(alloc));
        if live == 1 {
            Some(held.into_loose().into_box())
        } else {
            None
        }
    }
}
