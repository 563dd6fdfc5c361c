//! How a pass comes to read a value that a lock guards.
ghost use Rattle.std.specs.Prelude.{◌≡◌, ◌<◌, IfSome, None};
ghost use Rattle.guarded.specs.Below.{Called, S, is_timed, IsLook, Adds, holds, with_yes};
ghost use Rattle.guarded.specs.Asking.{CallReturns, acquires};
ghost use Rattle.guarded.specs.Guarding.{CanLock, yes_unless_missed};
ghost use Rattle.guarded.specs.Reading.{EndsReading, Saw, reads};
ghost use Rattle.guarded.specs.inner.Asking.{asks};
ghost use Rattle.guarded.specs.Stowed.{IsFull};
ghost use Rattle.guarded.specs.declared.slot.Slot.TheVariants.{Full};

use crate::{Keeps, Mutex, Shared, Sharing, Slot, TryLockFault};
use frame::hooks::Hooks;
use history::entry::Mode;
use history::fault::Fault;
use history::step::Step;
use monitor::{How, Pass};
use monitor_fronts::{done, whether};
use permit::Parking;
use read_write::hooks::RwHooks;
use std::sync::Wait;
use std::time::Clock;

/// The parts of the calls of readers.
impl<T: Drop, I: Keeps<T>, H: Hooks + Drop> Mutex<T, I, H> {
    // A call for a read hold, by a pass that doesn't write.
    pub(crate) fn try_read_by<P: Parking, R: Wait + Clock>(
        &self,
        rt: &R,
        parking: &P,
        pass: &mut Pass,
        how: Option<How>,
    ) -> Result<(), TryLockFault>
        requires can { CanLock self.now (P.seats parking.now) pass.old }
        ensures called { Called pass.old pass.new }
        ensures returned { CallReturns self.now.when_full
            (asks (P.did parking.now) S how) pass.old pass.new (yes_unless_missed result) }
        ensures adds { Adds S pass.old (yes_unless_missed result) pass.new }
    {
        let mut slot = Slot::Empty;
        let reply = self.call(rt, parking, pass, &mut slot, Mode::S, how);
        match whether(reply) {
            Ok(true) => Ok(()),
            Ok(false) => Err(TryLockFault::Missed),
            Err(fault) => Err(TryLockFault::Failed(fault)),
        }
    }

    // An acquire without a timeout.
    pub(crate) fn read_by<P: Parking, R: Wait + Clock>(
        &self,
        rt: &R,
        parking: &P,
        pass: &mut Pass,
        how: How,
    ) -> Result<(), Fault>
        requires can { CanLock self.now (P.seats parking.now) pass.old }
        requires untimed { is_timed how → ⊥ }
        ensures called { Called pass.old pass.new }
        ensures returned { CallReturns self.now.when_full (acquires (P.did parking.now) S how)
            pass.old pass.new (with_yes result) }
        ensures adds { Adds S pass.old (with_yes result) pass.new }
    {
        match self.try_read_by(rt, parking, pass, Some(how)) {
            Ok(()) => Ok(()),
            Err(TryLockFault::Failed(fault)) => Err(fault),
            Err(TryLockFault::Missed) => unreachable!(),
        }
    }

    // Releases a read hold of a pass that doesn't write.
    pub(crate) fn end_reading<P: Parking, R: Wait + Clock>(
        &self,
        rt: &R,
        parking: &P,
        pass: &mut Pass,
    ) -> Result<(), Fault>
        requires can { CanLock self.now (P.seats parking.now) pass.old }
        requires has { 0 < reads pass.old }
        ensures ends { EndsReading (P.did parking.now) pass.old result pass.new }
    {
        let step = Step::Give(Mode::S, 1);
        let slot = &mut Slot::Empty;
        done(self.monitor.enter(rt, parking, pass, slot, step))
    }
}

impl<T: Drop, I: Keeps<T>> Mutex<Shared<T>, Sharing<I>, RwHooks> {
    // A share of the value, for a pass that reads and doesn't write.
    pub(crate) fn look<R: Wait>(&self, rt: &R, pass: &mut Pass) -> Shared<T>
        requires is_of { pass.old.lock ≡ self.now.lock }
        requires reads { 0 < reads pass.old }
        requires writes_not { holds pass.old ≡ 0 }
        ensures looked { IsLook pass.old pass.new }
        ensures saw { Saw I.invariant pass.new result }
    {
        let seen = self.monitor.look_with(
            rt,
            pass,
            |slot: &Slot<Shared<T>, Sharing<I>>| -> Option<Shared<T>>
                ensures some { IfSome result (λ shared. slot.now ≡ Full shared) }
                ensures elsewhere { result ≡ None → IsFull slot.now → ⊥ }
            { share_of(rt, slot) },
        );
        match seen {
            Some(shared) => shared,
            None => unreachable!(),
        }
    }
}

// Another share of the value of a slot, if it is there.
fn share_of<T, I, R: Wait>(rt: &R, slot: &Slot<Shared<T>, I>) -> Option<Shared<T>>
    ensures some { IfSome result (λ shared. slot.now ≡ Full shared) }
    ensures elsewhere { result ≡ None → IsFull slot.now → ⊥ }
{
    match slot {
        Slot::Full(value) => Some(value.another(rt)),
        Slot::Empty => None,
        Slot::Lent(_) => None,
    }
}
