//! A box as a pointer for C, or none.
ghost use Rattle.std.specs.Prelude.{◌≡◌, Option, None, Some, IsSome};
ghost use Rattle.std.specs.Coded.{coded_option};
ghost use Rattle.aqs_c.specs.Owned.{held_at, seat_code};
ghost use Rattle.aqs_c.specs.Seated.{Seated};

use crate::loose::Loose;
use crate::seat::Seat;
use std::alloc::Global;
use std::marker::Model;

/// A seat that lies at `at`, or none. C passes it on and never reads it.
#[repr(C)]
#[derive(Drop)]
pub struct Held {
    at: *mut u8,
    alloc: Global,
    pub ghost value: { Option Seated } by { coded_option seat_code },
}

impl Model for Held {
    ghost also_owns = { λ h. held_at h.alloc h.at h.value };
}

impl Held {
    pub(crate) fn none(at: *mut u8, alloc: Global) -> Held
        ensures { result.value ≡ None }
    {
        Held { at, alloc }
    }

    pub(crate) fn of(loose: Loose<Seat, Global>) -> Held
        ensures { result.value ≡ Some loose.value }
    {
        let Loose { at, alloc } = loose;
        Held {
            at: at as *mut u8,
            alloc,
        }
    }

    pub(crate) fn into_loose(self) -> Loose<Seat, Global>
        requires { IsSome self.value }
        ensures { Some result.value ≡ self.value }
    {
        let Held { at, alloc } = self;
        Loose {
            at: at as *mut Seat,
            alloc,
        }
    }
}
