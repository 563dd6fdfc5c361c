//! The place of the value of a lock: in the lock while no thread holds it, with the owner while one does.
ghost use Rattle.std.specs.Prelude.{◌≡◌, if◌then◌else◌};
ghost use Rattle.std.specs.Borrow.{sem};
ghost use Rattle.guarded.specs.Stowed.{IsFull};
ghost use Rattle.guarded.specs.inner.Stowed.{crosses, value_in};
ghost use Rattle.guarded.specs.declared.slot.Slot.TheVariants.{Full};

use crate::keeps::Keeps;
use monitor::{Holds, Load};
use std::marker::PhantomData;
use std::mem;

/// A place for the value: in the lock, or with the owner. `I` says what is true of the value in the lock.
#[derive(Drop)]
pub enum Slot<T, I> {
    /// The value is elsewhere.
    Empty,
    /// The value is here.
    Full(T),
    /// The owner keeps the value in its guard, through a call after which it still holds the lock.
    Lent(PhantomData<I>),
}

impl<T: Drop, I: Keeps<T>> Slot<T, I> {
    ghost use Rattle.guarded.specs.inner.Lending.{LendsSlot};

    pub(crate) fn value(&self) -> &T
        requires { IsFull self.now }
        ensures value { Full result.now ≡ self.now }
    {
        match self {
            Slot::Full(value) => value,
            Slot::Empty => unreachable!(),
            Slot::Lent(_) => unreachable!(),
        }
    }

    pub(crate) fn value_mut(&mut self) -> &mut T
        requires { IsFull self.old }
        ensures* lends { sem 𝓛 (LendsSlot T.row I.row self.entry result) }
        ensures value { Full result.now ≡ self.old }
    {
        match self {
            Slot::Full(value) => value,
            Slot::Empty => unreachable!(),
            Slot::Lent(_) => unreachable!(),
        }
    }

    pub(crate) fn into_value(self) -> Option<T>
        ensures { result ≡ value_in self }
    {
        match self {
            Slot::Full(value) => Some(value),
            Slot::Empty => None,
            Slot::Lent(_) => None,
        }
    }
}

// The value moves with the first hold acquired or the last one released.
#[inline(always)]
fn trade<T, I>(here: &mut Slot<T, I>, there: &mut Slot<T, I>, before: u128, after: u128)
    ensures here { here.new ≡ (if crosses before after then there.old else here.old) }
    ensures there { there.new ≡ (if crosses before after then here.old else there.old) }
{
    let was_free = before == 0;
    let is_free = after == 0;
    if was_free != is_free {
        mem::swap(here, there);
    }
}

impl<T: Drop, I: Keeps<T>> Load for Slot<T, I> {
    ghost use Rattle.std.specs.Prelude.{false};
    ghost use Rattle.history.specs.declared.entry.Mode.TheVariants.{X};
    ghost use Rattle.guarded.specs.Stowed.{alike_so};
    ghost use Rattle.guarded.specs.inner.Stowed.{Carries, Lies, MayLie, value_in};

    ghost rests = { λ s k. Lies I.invariant s k };

    ghost carries = { λ s h. Carries (h X) s };

    ghost fit = { λ s. MayLie I.invariant s };

    ghost is_counted = { false };

    ghost amount = { λ _. 0 };

    ghost alike = { λ s k l same r. (alike_so (value_in s) k l same r.0, r.1) };

    #[inline(always)]
    fn trade(&mut self, there: &mut Self, before: Holds, after: Holds, _free: i64) {
        trade(self, there, before.exclusive, after.exclusive);
    }
}
