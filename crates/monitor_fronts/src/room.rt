//! What a call does if the history is full, and the loop that makes room.
//!
//! A history is full for a call if it has no room for the call's first entry and for all that is owed. No
//! call of a monitor makes room: it returns `HistoryFull`, and nothing was recorded. A caller that goes on
//! trims the history, by a turn of its own, and makes the call anew. Other threads may fill the history in
//! between, so a call may trim more than once.
//!
//! It gives up if a history without entries has no room. That a trim found nothing to fold doesn't show
//! this: another thread may have trimmed since the call was refused. So the loop looks how many entries are
//! folded in all. If they are as many as after its trim before, nothing was recorded in between, and the
//! history that refused the call was empty.
ghost use Rattle.std.specs.Prelude.{◌≡◌, true, false};
ghost use Rattle.history.specs.Phase.{waits};
ghost use Rattle.monitor.specs.Calling.{CanCall, Called};
ghost use Rattle.monitor.specs.Load.{Brings, LetsGo, Moves, free_of, given_by, holds_of, was_refused};
ghost use Rattle.monitor.specs.Machine.{AsksAwait};
ghost use Rattle.monitor.specs.Stepping.{IsEntered};
ghost use Rattle.monitor_fronts.specs.Room.{IsCallIn, IsEnteredIn, signal_step};
ghost use Rattle.monitor_fronts.specs.inner.Room.{IsTrimmedFrom, is_full, is_to_trim};

use frame::hooks::Hooks;
use history::entry::Entry;
use history::fault::Fault;
use history::step::Step;
use monitor::{How, Load, Monitor, Pass, Request};
use permit::Parking;
use std::sync::Wait;
use std::time::Clock;

/// What a call does if it finds the history full.
#[derive(Clone, Copy, Debug, PartialEq, Eq)]
pub enum WhenFull {
    /// It returns `HistoryFull`, and nothing was recorded. Every entry stays in the history.
    Refuse,
    /// It folds all entries into the base, and is made anew. With threads that fill the history meanwhile
    /// it may do so more than once. It returns `HistoryFull` only if a history without entries has no room,
    /// and `TrimFull` if more entries would be folded than the limit allows.
    Trim,
}

/// [`call`](Monitor::call) of the monitor. `when_full` says what it does if the history is full.
#[inline(always)]
pub fn call_in_room<H: Hooks + Drop, L: Load, P: Parking, R: Wait + Clock>(
    monitor: &Monitor<H, L>,
    rt: &R,
    parking: &P,
    pass: &mut Pass,
    load: &mut L,
    request: Request,
    how: How,
    when_full: WhenFull,
) -> Result<Entry, Fault>
    requires can { CanCall monitor.now (P.seats parking.now) pass.old }
    requires carries { L.carries load.old (holds_of pass.old) }
    requires brings { Brings L.is_counted (L.amount load.old) 0 }
    requires fit { AsksAwait request → L.fit load.old }
    ensures called { Called pass.old pass.new }
    ensures made { IsCallIn when_full (P.did parking.now) pass.old request how result pass.new }
    ensures carries { L.carries load.new (holds_of pass.new) }
    ensures moves { Moves L.fit L.is_counted L.amount load.old (free_of pass.old) load.new
        (free_of pass.new) }
    ensures stays { was_refused result ≡ true → load.new ≡ load.old }
{
    pass.is_true();
    let mut folded = None;
    for _ in rt.forever() {
        let reply = monitor.call(rt, parking, pass, load, request, how);
        if !is_to_trim(when_full, reply) {
            return reply;
        }
        match trim_from(monitor, rt, pass, folded) {
            Ok(count) => folded = Some(count),
            Err(fault) => return Err(fault),
        }
    }
    unreachable!()
}

/// [`enter`](Monitor::enter) of the monitor: a step of an idle seat. `when_full` says what it does if the
/// history is full.
#[inline(always)]
pub fn enter_in_room<H: Hooks + Drop, L: Load, P: Parking, R: Wait + Clock>(
    monitor: &Monitor<H, L>,
    rt: &R,
    parking: &P,
    pass: &mut Pass,
    load: &mut L,
    step: Step,
    when_full: WhenFull,
) -> Result<Entry, Fault>
    requires can { CanCall monitor.now (P.seats parking.now) pass.old }
    requires idle { waits step ≡ false }
    requires carries { L.carries load.old (holds_of pass.old) }
    requires brings { Brings L.is_counted (L.amount load.old) (given_by step) }
    requires fit { LetsGo step (holds_of pass.old) → L.fit load.old }
    ensures called { Called pass.old pass.new }
    ensures entered { IsEnteredIn when_full (P.did parking.now) pass.old step result pass.new }
    ensures carries { L.carries load.new (holds_of pass.new) }
    ensures moves { Moves L.fit L.is_counted L.amount load.old (free_of pass.old) load.new
        (free_of pass.new) }
    ensures stays { was_refused result ≡ true → load.new ≡ load.old }
{
    pass.is_true();
    let mut folded = None;
    for _ in rt.forever() {
        let reply = monitor.enter(rt, parking, pass, load, step);
        if !is_to_trim(when_full, reply) {
            return reply;
        }
        match trim_from(monitor, rt, pass, folded) {
            Ok(count) => folded = Some(count),
            Err(fault) => return Err(fault),
        }
    }
    unreachable!()
}

/// A signal of a condition, to one sleeper or to all. It changes nobody's holds, so a load stays where it is.
pub fn signal_in_room<H: Hooks + Drop, L: Load, P: Parking, R: Wait + Clock>(
    monitor: &Monitor<H, L>,
    rt: &R,
    parking: &P,
    pass: &mut Pass,
    condition: u8,
    all: bool,
    when_full: WhenFull,
) -> Result<Entry, Fault>
    requires can { CanCall monitor.now (P.seats parking.now) pass.old }
    ensures called { Called pass.old pass.new }
    ensures signalled { IsEnteredIn when_full (P.did parking.now) pass.old (signal_step all condition) result
        pass.new }
{
    pass.is_true();
    let mut folded = None;
    for _ in rt.forever() {
        let reply = signal(monitor, rt, parking, pass, condition, all);
        if !is_to_trim(when_full, reply) {
            return reply;
        }
        match trim_from(monitor, rt, pass, folded) {
            Ok(count) => folded = Some(count),
            Err(fault) => return Err(fault),
        }
    }
    unreachable!()
}

fn signal<H: Hooks + Drop, L: Load, P: Parking, R: Wait + Clock>(
    monitor: &Monitor<H, L>,
    rt: &R,
    parking: &P,
    pass: &mut Pass,
    condition: u8,
    all: bool,
) -> Result<Entry, Fault>
    requires can { CanCall monitor.now (P.seats parking.now) pass.old }
    ensures called { Called pass.old pass.new }
    ensures signalled { IsEntered (P.did parking.now) pass.old (signal_step all condition) result pass.new }
{
    if all {
        monitor.signal_all(rt, parking, pass, condition)
    } else {
        monitor.signal(rt, parking, pass, condition)
    }
}

// A trim, after which the call is made anew. Returns how many entries are folded then in all. `HistoryFull`
// if they were as many before.
#[cold]
#[inline(never)]
fn trim_from<H: Hooks + Drop, L: Load, R: Wait>(
    monitor: &Monitor<H, L>,
    rt: &R,
    pass: &mut Pass,
    before: Option<u128>,
) -> Result<u128, Fault>
    requires is_of { pass.old.lock ≡ monitor.now }
    ensures called { Called pass.old pass.new }
    ensures trimmed { IsTrimmedFrom before pass.old result pass.new }
{
    match monitor.trim_in_all(rt, pass) {
        Ok(folded) => {
            if before == Some(folded) {
                Err(Fault::HistoryFull)
            } else {
                Ok(folded)
            }
        }
        Err(fault) => Err(fault),
    }
}

// Whether a call that returned this makes room.
fn is_to_trim(when_full: WhenFull, reply: Result<Entry, Fault>) -> bool
    ensures { result ≡ is_to_trim when_full reply }
{
    match when_full {
        WhenFull::Refuse => false,
        WhenFull::Trim => is_full(reply),
    }
}

fn is_full(reply: Result<Entry, Fault>) -> bool
    ensures { result ≡ is_full reply }
{
    match reply {
        Ok(_) => false,
        Err(fault) => match fault {
            Fault::HistoryFull => true,
            _ => false,
        },
    }
}
