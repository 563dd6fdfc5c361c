//! An await on a condition.
ghost use Rattle.std.specs.Prelude.{◌≡◌};
ghost use Rattle.monitor.specs.Calling.{CanCall, Called};
ghost use Rattle.monitor.specs.AwaitOn.{IsAwait, first_stage};

use crate::how::How;
use crate::load::Empty;
use crate::machine::Request;
use crate::monitor::Monitor;
use crate::pass::Pass;
use crate::waiting::Stage;
use frame::hooks::Hooks;
use history::entry::Entry;
use history::fault::Fault;
use permit::Parking;
use std::sync::Wait;
use std::time::Clock;

// An await without time expires before it parks.
pub(crate) fn first_stage(how: How) -> Stage
    ensures { result ≡ first_stage how }
{
    match how {
        How::Timed(ms) => {
            if ms == 0 {
                Stage::Expires
            } else {
                Stage::Parks
            }
        }
        How::Plain => Stage::Parks,
        How::Interruptible => Stage::Parks,
    }
}

impl<H: Hooks + Drop> Monitor<H> {
    /// Releases all holds of the seat, waits on a condition until it is signalled, and acquires them again.
    ///
    /// Returns the entry that ended the call, the last one that the pass has seen:
    /// - `Refused`: the seat doesn't own the lock, or holds it to read, or an interrupt was pending.
    /// - `Back` after `Await`, with the end Signalled.
    /// - `Back` after `Await` and `Lapse`: the time was up, or an interrupt came, before any signal. The end
    ///   in both entries says which.
    ///
    /// However its sleep ended, the call waits for the lock, and neither its time nor an interrupt ends that.
    /// A fault is the answer to the first step, and nothing was recorded. After `Await` there is none. An
    /// interrupt that a park returned and that didn't end the sleep is pending again. This is the await of
    /// Java SE 8's Condition, with its uninterruptible and timed kinds.
    pub fn await_on<P: Parking, R: Wait + Clock>(
        &self,
        rt: &R,
        parking: &P,
        pass: &mut Pass,
        condition: u8,
        how: How,
    ) -> Result<Entry, Fault>
        requires can { CanCall self.now (P.seats parking.now) pass.old }
        ensures called { Called pass.old pass.new }
        ensures awaited { IsAwait (P.did parking.now) pass.old condition how result pass.new }
    {
        let request = Request::AwaitOn(condition);
        let load = &mut Empty {};
        self.call(rt, parking, pass, load, request, how)
    }
}
