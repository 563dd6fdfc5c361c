//! Interrupts that a parking returned to a call.
ghost use Rattle.std.specs.Prelude.{◌≡◌, ◌≢◌, ◌<◌, ◌≤◌, false, true, is_some, IfSome, IsSome};
ghost use Rattle.monitor.specs.Acquire.{is_interruptible};
ghost use Rattle.monitor.specs.Interrupts.{ends_interrupted, refuses_interrupted, tells_interrupt};
ghost use Rattle.monitor.specs.Machine.{limits_at, step_of_waiting};
ghost use Rattle.monitor.specs.Settled.{IsSettled};
ghost use Rattle.monitor.specs.Waits.{ComesOf};
ghost use Rattle.permit.specs.Deed.{interrupted, parked, took_interrupt};
ghost use Rattle.permit.specs.declared.parking.Woke.TheVariants.{Deadline, Interrupted};

use crate::how::{How, is_interruptible};
use crate::machine::Waiting;
use crate::pass::Pass;
use crate::waiting::Limits;
use history::entry::{End, Entry, Word};
use history::fault::Fault;
use permit::{Parking, Woke};
use std::sync::Wait;
use std::time::Clock;

/// Whether a parking returned an interrupt to a call, and cleared its flag. Such an interrupt may not be
/// lost: the reply reports it, or it is set again. So only `settle` takes this, and it can't be dropped.
pub(crate) struct Interrupts {
    seat: u16,
    taken: bool,
}

impl Interrupts {
    /// None so far.
    pub(crate) fn none(seat: u16) -> Interrupts
        ensures seat { result.seat ≡ seat }
        ensures fresh { result.taken ≡ false }
    {
        Interrupts { seat, taken: false }
    }

    /// The interrupt that was pending as a call began, if the call heeds interrupts. It is taken.
    pub(crate) fn at_entry<P: Parking>(parking: &P, pass: &Pass, how: How) -> Option<Interrupts>
        requires places { pass.now.lock.header.seats ≤ P.seats parking.now }
        ensures asked { is_interruptible how ≡ true
            → P.did parking.now (took_interrupt pass.now.seat (is_some result)) }
        ensures minded { IsSome result → is_interruptible how ≡ true }
        ensures taken { IfSome result (λ it. (it.seat ≡ pass.now.seat) × (it.taken ≡ true)) }
    {
        pass.is_true();
        if !is_interruptible(how) {
            return None;
        }
        let seat = pass.seat();
        if parking.take_interrupt(seat) {
            Some(Interrupts { seat, taken: true })
        } else {
            None
        }
    }

    /// Parks, unless the next turn is due at once.
    pub(crate) fn next_woke<P: Parking, R: Wait + Clock>(
        &mut self,
        rt: &R,
        parking: &P,
        waiting: Waiting,
    ) -> Woke
        requires place { self.old.seat < P.seats parking.now }
        ensures seat { self.new.seat ≡ self.old.seat }
        ensures comes { ComesOf (P.did parking.now) self.old.seat waiting.limits waiting.stage
            (step_of_waiting waiting result) }
        ensures noted { IsSome (limits_at waiting.stage waiting.limits) → result ≡ Interrupted
            → self.new.taken ≡ true }
        ensures kept { self.old.taken ≡ true → self.new.taken ≡ true }
        ensures otherwise { result ≢ Interrupted → self.new.taken ≡ self.old.taken }
    {
        match waiting.limits() {
            Some(limits) => self.park(rt, parking, limits),
            None => Woke::Permit,
        }
    }

    fn park<P: Parking, R: Wait + Clock>(&mut self, rt: &R, parking: &P, limits: Limits) -> Woke
        requires place { self.old.seat < P.seats parking.now }
        ensures seat { self.new.seat ≡ self.old.seat }
        ensures done { P.did parking.now (parked self.old.seat limits.until limits.interruptible result) }
        ensures deadline { result ≡ Deadline → IsSome limits.until }
        ensures interrupted { result ≡ Interrupted → limits.interruptible ≡ true }
        ensures noted { result ≡ Interrupted → self.new.taken ≡ true }
        ensures kept { self.old.taken ≡ true → self.new.taken ≡ true }
        ensures otherwise { result ≢ Interrupted → self.new.taken ≡ self.old.taken }
    {
        let woke = parking.park(rt, self.seat, limits.until, limits.interruptible);
        match woke {
            Woke::Interrupted => self.taken = true,
            Woke::Permit => {}
            Woke::Deadline => {}
        }
        woke
    }

    /// Ends the call with this reply. An interrupt that the reply doesn't report is set again.
    #[tactic(auto, using(crate::specs::Settled::settled))]
    pub(crate) fn settle<P: Parking>(self, parking: &P, reply: Result<Entry, Fault>)
        requires place { self.seat < P.seats parking.now }
        ensures again { self.taken ≡ true → tells_interrupt reply ≡ false
            → P.did parking.now (interrupted self.seat) }
        ensures settled { IsSettled reply }
    {
        let Interrupts { seat, taken } = self;
        if taken && !tells_interrupt(reply) {
            parking.interrupt(seat);
        }
    }
}

pub(crate) fn tells_interrupt(reply: Result<Entry, Fault>) -> bool
    ensures { result ≡ tells_interrupt reply }
{
    match reply {
        Ok(entry) => refuses_interrupted(entry.word) || ends_interrupted(entry.end),
        Err(_) => false,
    }
}

fn refuses_interrupted(word: Word) -> bool
    ensures { result ≡ refuses_interrupted word }
{
    match word {
        Word::Refused(Fault::Interrupted) => true,
        _ => false,
    }
}

fn ends_interrupted(end: End) -> bool
    ensures { result ≡ ends_interrupted end }
{
    match end {
        End::Interrupt => true,
        _ => false,
    }
}
