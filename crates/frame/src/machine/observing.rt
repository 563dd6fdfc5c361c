//! Observers of a core. None of them allocates.

ghost use Rattle.std.specs.Prelude.{◌≡◌, ◌<◌, ◌≤◌, ◌+◌, ◌^◌, ◌≤ℤ◌, pos, length, is_some, Some};
ghost use Rattle.frame.specs.Below.{count, held, owner, MayFold, max_amount, sleepers, available, balance, IsLegal, AreSeated, line, AreTold, StandInLine, IsInOrder, IsFairOrder, owed};
ghost use Rattle.frame.specs.Core.{start_of, counts_of, marks_of};
ghost use Rattle.frame.specs.Hooks.{level_of};
ghost use Rattle.frame.specs.Seat.{IsSeat};

use super::Core;
use crate::hooks::Hooks;
use crate::seat::Seat;
use deciding::balance::{Balance, balance_of};
use history::entries::History;
use history::entry::Mode;
use history::header::{Header, Object};

impl<H: Hooks + Drop> Core<H> {
    /// What the object was opened with.
    pub fn header(&self) -> &Header
        ensures { result.now ≡ self.now.header }
    {
        &self.header
    }

    /// Returns the entries so far, with their base.
    pub fn history(&self) -> &History
        ensures base { result.now.base ≡ Some self.now.base }
        ensures entries { result.now.entries ≡ self.now.entries }
        ensures cap { result.now.cap ≡ self.now.header.cap }
        ensures owed { result.now.owed ≡ owed (start_of self.now) self.now.entries }
        ensures places { result.now.places ≡ self.now.places }
    {
        &self.history
    }

    /// Returns the history, and drops the rest of the core.
    pub fn into_history(self) -> History
        ensures base { result.base ≡ Some self.base }
        ensures entries { result.entries ≡ self.entries }
        ensures cap { result.cap ≡ self.header.cap }
        ensures owed { result.owed ≡ owed (start_of self) self.entries }
        ensures places { result.places ≡ self.places }
    {
        self.history
    }

    /// Returns the holds of a seat in a mode.
    pub fn holds(&self, seat: u16, mode: Mode) -> u128
        requires { seat < self.now.header.seats }
        ensures { result ≡ held (start_of self.now) self.now.entries seat mode }
    {
        self.seat(seat).holds(mode)
    }

    /// Returns whether some seat has exclusive holds.
    pub fn is_held(&self) -> bool
        ensures { result ≡ is_some (owner (counts_of self.now)) }
    {
        self.seats.iter().any(|seat| seat.exclusive > 0)
    }

    /// States what always holds. The history is legal from its base and may be folded into it. Nobody in the
    /// queue is overtaken. What is owed has room and places, and the history's length fits in 32 bits. The
    /// head of the queue is marked if it could go, no seat outside the queue is marked, and each seat has one
    /// mark.
    pub fn recall_lawful(&self)
        ensures header { self.now.base.header ≡ self.now.header }
        ensures may_fold { MayFold self.now.base self.now.entries }
        ensures legal { IsLegal (start_of self.now) self.now.entries }
        ensures seated { AreSeated (start_of self.now) self.now.entries }
        ensures order { IsInOrder (start_of self.now) self.now.entries }
        ensures fair { IsFairOrder (start_of self.now) self.now.entries }
        ensures room { length self.now.entries + owed (start_of self.now) self.now.entries
            ≤ self.now.header.cap }
        ensures reserved { length self.now.entries + owed (start_of self.now) self.now.entries
            ≤ self.now.places }
        ensures short { length self.now.entries < 2 ^ 32 }
        ensures told { AreTold (start_of self.now) self.now.entries (marks_of self.now) }
        ensures stand { StandInLine (start_of self.now) self.now.entries (marks_of self.now) }
        ensures marks { length self.now.told ≡ self.now.header.seats }
    {
        let _owed = self.history.owed();
    }

    /// Returns whether a seat in the queue was told that it could go: by an entry that names it, or by its
    /// own lapse. Since then it has neither left the queue nor retried in vain.
    pub fn is_told(&self, seat: u16) -> bool
        requires { seat < self.now.header.seats }
        ensures { result ≡ marks_of self.now seat }
    {
        self.seats[seat as usize].told
    }

    /// Returns how many seats are in the queue.
    pub fn queue_length(&self) -> u16
        ensures { result ≡ length (line (start_of self.now) self.now.entries) }
    {
        self.queue.live_len()
    }

    /// Returns how many seats wait on a condition.
    pub fn waiters(&self, condition: u8) -> u16
        ensures { result ≡ length (sleepers (start_of self.now) self.now.entries condition) }
    {
        self.waiters.len(condition)
    }

    /// Returns the free permits of a semaphore, which may be negative; else 0.
    pub fn available(&self) -> i64
        ensures permits { result ≡ available (start_of self.now) self.now.entries }
        ensures most { result ≤ℤ pos max_amount }
    {
        match self.header.object {
            Object::Semaphore(_, _) => self.level(),
            _ => 0,
        }
    }

    /// Returns the count of a latch, which falls from its opening number; else 0.
    pub fn count(&self) -> u32
        ensures { result ≡ count (start_of self.now) self.now.entries }
    {
        match self.header.object {
            Object::Latch(_) => self.level() as u32,
            _ => 0,
        }
    }

    /// Returns what all seats hold together, how many wait, and what is free. It visits each seat and each
    /// condition.
    pub fn balance(&self) -> Balance
        ensures balance { result ≡ balance (start_of self.now) self.now.entries }
        ensures exclusive { result.exclusive < 2 ^ 126 }
        ensures shared { result.shared < 2 ^ 126 }
    {
        let _header = &self.header;
        balance_of(self)
    }

    /// Returns the record of a seat.
    pub(super) fn seat(&self, seat: u16) -> Seat
        requires { seat < self.now.header.seats }
        ensures { IsSeat (start_of self.now) self.now.entries seat result }
    {
        self.seats[seat as usize]
    }

    /// Returns what the hooks count: free permits, the count of a latch, else 0.
    fn level(&self) -> i64
        ensures { result ≡ level_of (counts_of self.now) }
    {
        self.hooks.level()
    }
}
