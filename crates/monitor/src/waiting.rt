//! The one loop in which every call waits.
ghost use Rattle.std.specs.Prelude.{◌≡◌, ◌<◌};
ghost use Rattle.monitor.specs.Calling.{CanCall, Called};
ghost use Rattle.monitor.specs.Load.{Brings, Moves, free_of, holds_of};
ghost use Rattle.monitor.specs.Settled.{IsSettled};
ghost use Rattle.monitor.specs.Waits.{Waits, stage_asleep};
ghost use Rattle.monitor.specs.inner.Waits.{IsReply, MayBegin};

use crate::interrupts::Interrupts;
use crate::load::Load;
use crate::machine::{Next, Waiting};
use crate::monitor::Monitor;
use crate::pass::Pass;
use frame::hooks::Hooks;
use history::entry::Entry;
use history::fault::Fault;
use history::step::Step;
use permit::Parking;
use std::sync::Wait;
use std::time::Clock;

/// What ends a park, besides a permit.
#[derive(Clone, Copy, Debug, PartialEq, Eq)]
pub struct Limits {
    /// A moment of [`Parking::now`], in milliseconds. `None`: no time ends the park.
    pub until: Option<u64>,
    /// Whether an interrupt ends the park.
    pub interruptible: bool,
}

/// How a waiting seat goes on.
#[derive(Clone, Copy)]
pub(crate) enum Stage {
    /// Its time is 0: it expires before it parks.
    Expires,
    /// It parks as its call says.
    Parks,
    /// It has lapsed: it looks before it parks, since the lapse may have named its own seat.
    Looks,
    /// Its time was up, or it was interrupted: its turn alone ends the wait.
    GivenUp,
}

// The stage after a step that recorded nothing.
pub(crate) fn stage_asleep(stage: Stage, step: Step) -> Stage
    ensures { result ≡ stage_asleep stage step }
{
    match (stage, step) {
        (Stage::Parks, Step::Look) => Stage::Parks,
        _ => Stage::GivenUp,
    }
}

impl<H: Hooks + Drop, L: Load> Monitor<H, L> {
    // Waits until the seat's turn comes or its wait is given up.
    pub(crate) fn wait<P: Parking, R: Wait + Clock>(
        &self,
        rt: &R,
        parking: &P,
        pass: &mut Pass,
        load: &mut L,
        waiting: Waiting,
    ) -> Result<Entry, Fault>
        requires can { CanCall self.now (P.seats parking.now) pass.old }
        requires waits { Waits pass.old.seen pass.old.seat }
        requires first { MayBegin waiting.limits waiting.stage }
        requires carries { L.carries load.old (holds_of pass.old) }
        requires brings { Brings L.is_counted (L.amount load.old) 0 }
        ensures called { Called pass.old pass.new }
        ensures waited { IsReply (P.did parking.now) pass.old waiting.stage waiting.limits result pass.new }
        ensures settled { IsSettled result }
        ensures carries { L.carries load.new (holds_of pass.new) }
        ensures moves { Moves L.fit L.is_counted L.amount load.old (free_of pass.old) load.new
            (free_of pass.new) }
    {
        pass.is_true();
        let mut interrupts = Interrupts::none(pass.seat());
        let mut waiting = waiting;
        for _ in rt.forever() {
            let woke = interrupts.next_woke(rt, parking, waiting);
            let turn = self.go_on(rt, pass, load, waiting, woke);
            pass.unpark(parking, turn.named);
            match turn.next {
                Next::Ends { reply, again: _ } => {
                    interrupts.settle(parking, reply);
                    return reply;
                }
                Next::Waits(next) => waiting = next,
            }
        }
        unreachable!()
    }
}
