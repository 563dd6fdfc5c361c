//! Signals to threads that wait on a condition.
//!
//! A signal leaves the value with the owner, so it is made without the value. If the history is full, a
//! lock that trims folds it and makes the signal anew, as its other calls do.
ghost use Rattle.std.specs.Prelude.{◌≡◌};
ghost use Rattle.guarded.specs.Asking.{signals};
ghost use Rattle.monitor.specs.Calling.{CanCall, Called};
ghost use Rattle.monitor_fronts.specs.Holding.{holds};

use crate::{Keeps, Mutex};
use frame::hooks::Hooks;
use history::entry::Entry;
use history::fault::Fault;
use monitor::Pass;
use monitor_fronts::signal_in_room;
use permit::Parking;
use std::sync::Wait;
use std::time::Clock;

impl<T: Drop, I: Keeps<T>, H: Hooks + Drop> Mutex<T, I, H> {
    // A signal, to one sleeper or to all.
    pub(crate) fn tell<P: Parking, R: Wait + Clock>(
        &self,
        rt: &R,
        parking: &P,
        pass: &mut Pass,
        condition: u8,
        all: bool,
    ) -> Result<Entry, Fault>
        requires can { CanCall self.now.lock (P.seats parking.now) pass.old }
        ensures called { Called pass.old pass.new }
        ensures signalled { signals (P.did parking.now) all condition self.now.when_full pass.old result
            pass.new }
        ensures keeps { holds pass.new ≡ holds pass.old }
    {
        let when_full = self.when_full;
        signal_in_room(&self.monitor, rt, parking, pass, condition, all, when_full)
    }
}
