//! The base of a history: the state that folded entries leave.

ghost use Rattle.std.specs.Prelude.{◌≡◌, ◌+◌, ◌≤◌, ◌↔◌, [], get_or, length, map, min, All, IfOk, IfErr, IsTrue, vec_capacity};
ghost use Rattle.history.specs.declared.limits.TheConstants.{MOST_FOLDED};
ghost use Rattle.history.specs.declared.fault.Fault.TheVariants.{OutOfMemory};
ghost use Rattle.history.specs.Base.{based, each_below, nothing, opening_base, sleepers_of};
ghost use Rattle.history.specs.inner.BasePlaces.{HasPlaces};
ghost use Rattle.history.specs.Counts.{total};
ghost use Rattle.history.specs.Fold.{MayFold};
ghost use Rattle.history.specs.Header.{IsInRange};
ghost use Rattle.history.specs.NextBase.{next_base};
ghost use Rattle.history.specs.Object.{opening_count};

use crate::arrival::Arrival;
use crate::base_parts::{
    beyond, count_then, follow_sleepers, join_line, leave_line, seat_then, sleepers_on,
};
use crate::entry::{End, Entry};
use crate::fault::Fault;
use crate::header::{Header, Object};
use crate::limits::MOST_FOLDED;
use std::alloc::Global;
use std::marker::Model;

/// How many calls a seat ended, and what it holds.
#[derive(Clone, Copy, Debug, PartialEq, Eq)]
pub struct SeatBase {
    pub calls: u64,
    pub exclusive: u32,
    pub shared: u128,
}

/// A waiter in the queue. For a waiter that comes back from a condition the base keeps the condition, the
/// holds that it gave up, and how its wait there ended. These are 0, 0 and `None` for an acquire.
#[derive(Clone, Copy, Debug, PartialEq, Eq)]
pub struct LinePlace {
    pub who: Arrival,
    pub condition: u8,
    pub holds: u32,
    pub how: End,
}

/// A seat that waits on a condition, and the holds that it gave up.
#[derive(Clone, Copy, Debug, PartialEq, Eq)]
pub struct Sleeper {
    pub seat: u16,
    pub holds: u32,
}

/// The state of an object after entries that were folded: all that the definitions ask of these entries.
///
/// All places are reserved at the opening, so a fold allocates nothing.
#[derive(Debug, Drop)]
pub struct Base {
    pub header: Header,
    /// How many entries were folded.
    pub entries: u128,
    /// The calls and holds of each seat, by its number.
    pub seats: Vec<SeatBase>,
    /// Permits released by seats that did not hold them.
    pub unheld: u128,
    /// The count of a latch.
    pub count: u32,
    /// The waiters in the queue, the first one first.
    pub line: Vec<LinePlace>,
    /// The waiters of each condition, the longest waiting first.
    pub sleepers: Vec<Vec<Sleeper>>,
}

impl Model for Base {
    ghost use Rattle.std.specs.Prelude.{◌≡◌, map, All, vec_capacity};
    ghost use Rattle.history.specs.Base.{Base};

    ghost Value = { Base };

    ghost view = { λ a. record {
      header = a.header;
      entries = a.entries;
      seats = a.seats.items;
      unheld = a.unheld;
      count = a.count;
      line = a.line.items;
      sleepers = map (λ list. list.items) a.sleepers.items;
    } };

    // The queue and each condition's list have a place for each seat. No more memory is kept.
    ghost invariant = { λ a. (vec_capacity a.line ≡ a.header.seats)
        × All (λ list. vec_capacity list ≡ a.header.seats) a.sleepers.items };
}

/// A seat that did nothing yet.
const NOTHING: SeatBase = SeatBase {
    calls: 0,
    exclusive: 0,
    shared: 0,
};

impl Base {
    /// Returns the base of an object as it is opened, with all places reserved. The only fault is
    /// `OutOfMemory`.
    pub fn open(alloc: Global, header: &Header) -> Result<Base, Fault>
        ensures opened { IfOk result (λ base. base ≡ opening_base header.now) }
        ensures may_fold { IsInRange header.now → IfOk result (λ base. MayFold base []) }
        ensures refused { IfErr result (λ fault. fault ≡ OutOfMemory) }
    {
        let seats = vec![in alloc; NOTHING; header.seats as usize]?;
        let line = Vec::with_capacity(alloc, header.seats as usize)?;
        let sleepers = no_sleepers(alloc, header.conditions, header.seats)?;
        Ok(Base {
            header: *header,
            entries: 0,
            seats,
            unheld: 0,
            count: opening_count(header.object),
            line,
            sleepers,
        })
    }

    /// Returns the waiters of a condition, the longest waiting first; none if the object lacks the condition.
    pub fn sleepers_of(&self, condition: u8) -> &[Sleeper]
        ensures { result.now ≡ sleepers_of self.now condition }
    {
        sleepers_on(&self.sleepers, condition)
    }

    /// Returns the number of calls that all seats ended, or `u64::MAX` if there are more.
    pub fn calls(&self) -> u64
        ensures { result ≡ min (based self.now).calls u64.MAX }
    {
        calls_of(&self.seats, self.header.seats)
    }

    /// Returns whether `more` entries more may be folded.
    pub(crate) fn may_fold(&self, more: u64) -> bool
        requires { self.now.entries ≤ MOST_FOLDED }
        ensures { IsTrue result ↔ (self.now.entries + more ≤ MOST_FOLDED) }
    {
        u128::from(more) <= MOST_FOLDED - self.entries
    }

    /// Folds one entry more into the base. It allocates nothing.
    pub(crate) fn add(&mut self, entry: Entry)
        requires { HasPlaces self.old entry }
        ensures { self.new ≡ next_base self.old entry }
    {
        let object = self.header.object;
        let seat = entry.seat as usize;
        let has = self.seats[seat];
        self.entries += 1;
        self.seats[seat] = seat_then(object, entry, has);
        self.unheld += beyond(object, entry, has);
        self.count = count_then(entry.word, self.count);
        leave_line(&mut self.line, entry);
        join_line(&mut self.line, sleepers_on(&self.sleepers, entry.at), entry);
        follow_sleepers(&mut self.sleepers, entry);
    }
}

/// Returns the number of calls that the first `count` seats ended, or `u64::MAX` if there are more.
fn calls_of(seats: &[SeatBase], count: u16) -> u64
    ensures { result ≡ min (total count (λ i. (get_or seats.now i nothing).calls)) u64.MAX }
{
    let mut sum: u64 = 0;
    for seat in 0..count {
        sum = sum.saturating_add(calls_at(seats, seat));
    }
    sum
}

fn calls_at(seats: &[SeatBase], seat: u16) -> u64
    ensures { result ≡ (get_or seats.now seat nothing).calls }
{
    match seats.get(seat as usize) {
        Some(has) => has.calls,
        None => 0,
    }
}

/// Returns the number that a latch counts down from, or 0 for any other object.
pub fn opening_count(object: Object) -> u32
    ensures { result ≡ opening_count object }
{
    match object {
        Object::Latch(count) => count,
        Object::Lock(_) | Object::ReadWrite(_) | Object::Semaphore(_, _) => 0,
    }
}

/// Returns an empty list for each condition, with a place for each seat.
fn no_sleepers(alloc: Global, conditions: u8, seats: u16) -> Result<Vec<Vec<Sleeper>>, Fault>
    ensures empty { IfOk result (λ lists. map (λ list. list.items) lists.items
        ≡ each_below conditions (λ c. [])) }
    ensures places { IfOk result (λ lists. All (λ list. vec_capacity list ≡ seats) lists.items) }
    ensures refused { IfErr result (λ fault. fault ≡ OutOfMemory) }
{
    let mut lists = Vec::with_capacity(alloc, conditions as usize)?;
    for _ in 0..conditions {
        let list = Vec::with_capacity(alloc, seats as usize)?;
        lists.push_reserved(list);
    }
    Ok(lists)
}
