//! The part of a base that has been read, and which line may come next.

ghost use Rattle.std.specs.Prelude.{◌≡◌, ◌⊎◌, ◌↔◌, ◌≤◌, ◌<◌, ◌+◌, IsTrue};
ghost use Rattle.history_text.specs.Below.{Semaphore, Policy, MOST_FOLDED, MOST_READ_WRITE_HOLDS, MOST_SEATS, IsInRange};
ghost use Rattle.history_text.specs.declared.base_line.BaseLine.TheVariants.{Seat, Sleeps, Stands};
ghost use Rattle.history_text.specs.BaseRules.{AllSeated, IsFirst, IsFree, IsSeated};
ghost use Rattle.history_text.specs.BaseRules.{MayFollow, MayHold, with_sums, no_sums};

use crate::base_line::BaseLine;
use crate::waiting_rules::{above_none, below_none, gave_up, stands_well};
use deciding::checks::is_lock;
use history::base::{Base, LinePlace, SeatBase, Sleeper, opening_count};
use history::header::{Header, Object};
use history::limits::{
    MOST_AMOUNT, MOST_BASE_PERMITS, MOST_FOLDED, MOST_HOLDS, MOST_READ_WRITE_HOLDS, MOST_SEATS,
};
use std::marker::Model;

/// The greatest number of seats, as the length of a table.
const SEATS: usize = MOST_SEATS as usize;

/// The sums over the lines of a base that were read, and who waits.
#[derive(Debug, Drop)]
pub struct BaseSoFar {
    entries: u128,
    unheld: u128,
    seats: u16,
    calls: u64,
    exclusive: u32,
    shared: u128,
    waits: [bool; SEATS],
    asleep: bool,
    condition: u8,
}

impl Model for BaseSoFar {
    ghost use Rattle.std.specs.Prelude.{◌≤◌, ◌≡◌, ◌*◌, length};
    ghost use Rattle.history.specs.declared.limits.TheConstants.{MOST_BASE_PERMITS, MOST_FOLDED, MOST_HOLDS};
    ghost use Rattle.history_text.specs.BaseRules.{BaseSums};

    ghost Value = { BaseSums };

    ghost view = { λ a. record {
      entries = a.entries;
      unheld = a.unheld;
      seats = a.seats;
      calls = a.calls;
      exclusive = a.exclusive;
      shared = a.shared;
      waits = a.waits;
      asleep = a.asleep;
      condition = a.condition;
    } };

    ghost invariant = { λ a. (a.entries ≤ MOST_FOLDED) × (a.unheld ≤ MOST_BASE_PERMITS)
        × (a.calls ≤ a.entries) × (a.exclusive ≤ MOST_HOLDS) × (a.shared ≤ 2 * MOST_BASE_PERMITS) };
}

impl BaseSoFar {
    /// Returns the sums before any line.
    pub fn new() -> Self
        ensures { result ≡ no_sums }
    {
        BaseSoFar {
            entries: 0,
            unheld: 0,
            seats: 0,
            calls: 0,
            exclusive: 0,
            shared: 0,
            waits: [false; SEATS],
            asleep: false,
            condition: 0,
        }
    }
}

impl BaseSoFar {
    /// Returns whether the line may follow those that were read, in a base with these seats.
    pub fn allows(&self, base: &Base, line: &BaseLine) -> bool
        requires { IsInRange base.now.header }
        ensures { IsTrue result ↔ MayFollow self.now base.now line.now }
    {
        match line {
            BaseLine::Folded(entries) => self.begins(*entries) && is_lock(base.header.object),
            BaseLine::Released(entries, unheld) => {
                self.begins(*entries)
                    && matches!(base.header.object, Object::Semaphore(_, _))
                    && *unheld <= MOST_BASE_PERMITS
            }
            BaseLine::CountedDown(entries, count) => {
                self.begins(*entries)
                    && matches!(base.header.object, Object::Latch(_))
                    && *count <= opening_count(base.header.object)
            }
            BaseLine::Seat(seat, has) => self.seats_next(&base.header, *seat, has),
            BaseLine::Stands(standing) => self.lets_stand(base, standing),
            BaseLine::Sleeps(condition, sleeper) => self.lets_sleep(base, *condition, sleeper),
        }
    }

    fn begins(&self, entries: u128) -> bool
        ensures { IsTrue result ↔ IsFirst self.now entries }
    {
        self.entries == 0 && 1 <= entries && entries <= MOST_FOLDED
    }

    /// Returns whether this seat is the next one, and may have these calls and holds.
    fn seats_next(&self, header: &Header, seat: u16, has: &SeatBase) -> bool
        requires { IsInRange header.now }
        ensures { IsTrue result ↔ IsSeated header.now self.now seat has.now }
    {
        1 <= self.entries
            && seat == self.seats
            && seat < header.seats
            && u128::from(self.calls) + u128::from(has.calls) <= self.entries
            && self.lets_hold(header, has)
    }

    fn lets_hold(&self, header: &Header, has: &SeatBase) -> bool
        requires { IsInRange header.now }
        ensures { IsTrue result ↔ MayHold header.now.object header.now.seats self.now has.now }
    {
        match header.object {
            Object::Lock(_) => {
                has.exclusive <= MOST_HOLDS
                    && has.shared == 0
                    && (self.exclusive == 0 || has.exclusive == 0)
            }
            Object::ReadWrite(_) => self.lets_read(has),
            Object::Semaphore(_, permits) => self.lets_take(permits, header.seats, has),
            Object::Latch(_) => has.exclusive == 0 && has.shared == 0,
        }
    }

    fn lets_read(&self, has: &SeatBase) -> bool
        ensures { IsTrue result ↔ ((has.now.exclusive ≤ MOST_READ_WRITE_HOLDS)
            × (self.now.shared + has.now.shared ≤ MOST_READ_WRITE_HOLDS)
            × ((has.now.exclusive ≡ 0) ⊎ ((self.now.exclusive ≡ 0) × (self.now.shared ≡ 0)))
            × ((has.now.shared ≡ 0) ⊎ (self.now.exclusive ≡ 0))) }
    {
        has.exclusive <= MOST_READ_WRITE_HOLDS
            && has.shared <= MOST_READ_WRITE_HOLDS as u128
            && self.shared + has.shared <= MOST_READ_WRITE_HOLDS as u128
            && (has.exclusive == 0 || (self.exclusive == 0 && self.shared == 0))
            && (has.shared == 0 || self.exclusive == 0)
    }

    fn lets_take(&self, permits: i32, seats: u16, has: &SeatBase) -> bool
        ensures { (policy : Policy) →
            IsTrue result ↔ MayHold (Semaphore policy permits) seats self.now has.now }
    {
        if has.exclusive != 0 || MOST_BASE_PERMITS < has.shared {
            return false;
        }
        let held = self.shared + has.shared;
        let given = self.unheld + above_none(permits);
        if given < held {
            return false;
        }
        u32::from(self.seats) + 1 != u32::from(seats)
            || given <= MOST_AMOUNT as u128 + held + below_none(permits)
    }

    fn all_seated(&self, header: &Header) -> bool
        ensures { IsTrue result ↔ AllSeated header.now self.now }
    {
        1 <= self.entries && self.seats == header.seats
    }

    fn is_free(&self, seat: u16) -> bool
        requires { seat < MOST_SEATS }
        ensures { IsTrue result ↔ IsFree self.now seat }
    {
        !self.waits[seat as usize]
    }
}

impl BaseSoFar {
    fn lets_stand(&self, base: &Base, standing: &LinePlace) -> bool
        requires { IsInRange base.now.header }
        ensures { IsTrue result ↔ MayFollow self.now base.now (Stands standing.now) }
    {
        let seat = standing.who.seat;
        if !self.all_seated(&base.header) || self.asleep || base.header.seats <= seat {
            return false;
        }
        self.is_free(seat) && stands_well(base, standing)
    }

    fn lets_sleep(&self, base: &Base, condition: u8, sleeper: &Sleeper) -> bool
        requires { IsInRange base.now.header }
        ensures { IsTrue result ↔ MayFollow self.now base.now (Sleeps condition sleeper.now) }
    {
        let seat = sleeper.seat;
        if !self.all_seated(&base.header)
            || condition < self.condition
            || base.header.seats <= seat
        {
            return false;
        }
        self.is_free(seat) && gave_up(base, seat, condition, sleeper.holds)
    }

    /// Returns whether the base is complete: all its seats were read.
    pub fn is_whole(&self, header: &Header) -> bool
        ensures { IsTrue result ↔ AllSeated header.now self.now }
    {
        self.all_seated(header)
    }

    /// Returns how many entries were folded, and how many calls their seats ended.
    pub fn sums(&self) -> (u64, u64)
        ensures sums { (result.0 ≡ self.now.entries) × (result.1 ≡ self.now.calls) }
        ensures few { (self.now.entries ≤ MOST_FOLDED) × (self.now.calls ≤ MOST_FOLDED) }
    {
        (self.entries as u64, self.calls)
    }

    /// Takes a line that may follow.
    pub fn pass(&mut self, base: &Base, line: &BaseLine)
        requires range { IsInRange base.now.header }
        requires follows { MayFollow self.old base.now line.now }
        ensures { self.new ≡ with_sums self.old line.now }
    {
        match line {
            BaseLine::Folded(entries) | BaseLine::CountedDown(entries, _) => self.entries =
                *entries,
            BaseLine::Released(entries, unheld) => {
                self.entries = *entries;
                self.unheld = *unheld;
            }
            BaseLine::Seat(_, has) => self.pass_seat(base, has),
            BaseLine::Stands(standing) => self.waits[standing.who.seat as usize] = true,
            BaseLine::Sleeps(condition, sleeper) => {
                self.waits[sleeper.seat as usize] = true;
                self.asleep = true;
                self.condition = *condition;
            }
        }
    }

    fn pass_seat(&mut self, base: &Base, has: &SeatBase)
        requires range { IsInRange base.now.header }
        requires follows { IsSeated base.now.header self.old self.old.seats has.now }
        ensures { self.new ≡ with_sums self.old (Seat self.old.seats has.now) }
    {
        self.seats += 1;
        self.calls += has.calls;
        self.exclusive += has.exclusive;
        self.shared += has.shared;
    }
}
