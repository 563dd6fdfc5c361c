//! Summing up a history whose entries come one after another.

ghost use Rattle.std.specs.Prelude.{◌≡◌, ◌+◌, ◌<◌, ◌≤◌, ◌^◌, ℕ, ◌∷◌, ◌++◌, [], List, None, OnOk, IfOk, IsOkUnless, length, slice_index_or};
ghost use Rattle.history.specs.Base.{based};
ghost use Rattle.history.specs.GoodBase.{IsGood};
ghost use Rattle.history.specs.Header.{IsInRange};
ghost use Rattle.history.specs.Start.{Start};
ghost use Rattle.history.specs.declared.entry.Entry.{Entry};
ghost use Rattle.audit.specs.Ledger.{HasSeat, IsNext, LedgerStand};
ghost use Rattle.summing.specs.Summary.{row, row_if, rows_below, summary};
ghost use Rattle.summing.specs.Summing.{CanSum, HasSummed, IsSumming, summary_of};
ghost use Rattle.summing.specs.Tallies.{no_tally};
ghost use Rattle.summing.specs.Waits.{begun};

use crate::conditions::{no_conditions, note_condition};
use crate::passing::{Passing, no_passings, passed_at, takes_anew};
use crate::peak::{Peak, higher};
use crate::row::Row;
use crate::summary::Summary;
use crate::tally::{ConditionTally, SeatTally, longest_at, more, no_tally, tally_after};
use crate::words::is_grant;
use audit::ledger::Ledger;
use deciding::situation::ObjectState;
use history::base::Base;
use history::entry::{Entry, Mode};
use history::fault::Fault;
use std::alloc::Global;

/// Takes the entries of a legal history one after another, and keeps what is told of them.
///
/// It keeps no entry. Its memory grows with the seats and the conditions.
#[derive(Drop)]
pub struct Summing {
    pub(crate) ledger: Ledger,
    pub(crate) count: u64,
    pub(crate) grants: u64,
    // how many acquires took at once, and not again
    pub(crate) taken: u64,
    pub(crate) peak: Peak,
    pub(crate) seats: Vec<SeatTally>,
    pub(crate) passings: Vec<Passing>,
    pub(crate) conditions: Vec<ConditionTally>,
}

/// Returns the number of the first entry, if the seat waits in the queue for its first acquire.
fn begun_at_start(ledger: &Ledger, seat: u16) -> Option<u64>
    ensures { (s : Start) → LedgerStand s [] ledger.now → result ≡ begun s [] seat }
{
    match ledger.place_of(seat) {
        None => None,
        Some(arrival) => if arrival.back { None } else { Some(0) },
    }
}

/// Returns the tallies of seats that made no entry.
fn seats_at_start(alloc: Global, ledger: &Ledger, count: u16) -> Result<Vec<SeatTally>, Fault>
    ensures long { IfOk result (λ seats. length seats.items ≡ count) }
    ensures none { IfOk result (λ seats. (s : Start) → LedgerStand s [] ledger.now → (i : ℕ) → i < count →
        slice_index_or seats.items i (no_tally None) ≡ no_tally (begun s [] i)) }
    ensures memory { IsOkUnless result Fault.OutOfMemory }
{
    let mut seats = Vec::with_capacity(alloc, count as usize)?;
    for seat in 0..count {
        seats.push_reserved(no_tally(begun_at_start(ledger, seat)));
    }
    Ok(seats)
}

impl Summing {
    /// Returns one that has taken no entry after a base. If an allocation fails, returns `OutOfMemory`.
    pub fn open(alloc: Global, base: &Base) -> Result<Self, Fault>
        requires range { IsInRange base.now.header }
        requires good { IsGood base.now }
        ensures summed { IfOk result (HasSummed (based base.now) []) }
        ensures memory { IsOkUnless result Fault.OutOfMemory }
    {
        let ledger = Ledger::open_on(alloc, base)?;
        let header = *ledger.header();
        let seats = seats_at_start(alloc, &ledger, header.seats)?;
        let passings = no_passings(alloc, header.seats)?;
        let conditions = no_conditions(alloc, header.conditions)?;
        let peak = Peak {
            seats: ledger.queue_length(),
            place: None,
        };
        Ok(Summing {
            ledger,
            count: 0,
            grants: 0,
            taken: 0,
            peak,
            seats,
            passings,
            conditions,
        })
    }

    /// Takes one more entry, which a step of its seat makes. It allocates nothing.
    pub fn follow(&mut self, entry: Entry)
        requires { CanSum self.old entry }
        ensures { (s : Start) (h : List Entry) → HasSummed s h self.old → entry.seat < s.header.seats →
            IsNext s h entry → HasSummed s (entry ∷ h) self.new }
    {
        let seat = entry.seat as usize;
        let taken = self.taken;
        let is_taken = takes_anew(&self.ledger, entry);
        let tally = self.seats[seat];
        let passed = passed_at(self.passings[seat], tally.begun.is_some(), taken);
        self.taken = more(taken, is_taken);
        self.passings[seat] = Passing {
            passed,
            mark: self.taken,
        };
        self.seats[seat] = tally_after(entry, self.count, &tally);
        note_condition(&mut self.conditions, entry);
        self.ledger.note(entry);
        self.peak = higher(self.ledger.queue_length(), self.count, self.peak);
        self.grants = more(self.grants, is_grant(entry.word));
        self.count += 1;
    }

    /// Returns what is told of a seat.
    fn row(&self, seat: u16) -> Row
        requires { IsSumming self.now × (seat < length self.now.seats.items) }
        ensures { (s : Start) (h : List Entry) → HasSummed s h self.now → result ≡ row s h seat }
    {
        let tally = &self.seats[seat as usize];
        let passing = self.passings[seat as usize];
        Row {
            seat,
            calls: tally.calls,
            took: tally.took,
            queued: tally.queued,
            longest: longest_at(tally, self.count),
            passed: passed_at(passing, tally.begun.is_some(), self.taken),
            timeouts: tally.timeouts,
            interrupts: tally.interrupts,
            exclusive: self.ledger.held(seat, Mode::X),
            shared: self.ledger.held(seat, Mode::S),
        }
    }

    /// Appends the row of a seat, if it made an entry.
    fn put_row(&self, rows: &mut Vec<Row>, seat: u16) -> Result<(), Fault>
        requires { IsSumming self.now × (seat < length self.now.seats.items) }
        ensures row { OnOk result ((s : Start) (h : List Entry) → HasSummed s h self.now →
            rows.new.items ≡ rows.old.items ++ row_if s h seat) }
        ensures memory { IsOkUnless result Fault.OutOfMemory }
    {
        if self.seats[seat as usize].entries == 0 {
            return Ok(());
        }
        match rows.push(self.row(seat)) {
            Ok(()) => Ok(()),
            Err(_) => Err(Fault::OutOfMemory),
        }
    }

    /// Returns the rows of the seats that made an entry.
    fn rows(&self, alloc: Global) -> Result<Vec<Row>, Fault>
        requires { IsSumming self.now }
        ensures rows { IfOk result (λ rows. (s : Start) (h : List Entry) → HasSummed s h self.now →
            rows.items ≡ rows_below s h s.header.seats) }
        ensures memory { IsOkUnless result Fault.OutOfMemory }
    {
        let mut rows = Vec::new(alloc);
        for seat in 0..self.seats.len() as u16 {
            self.put_row(&mut rows, seat)?;
        }
        Ok(rows)
    }

    /// Returns the summary of the entries so far. If an allocation fails, returns `OutOfMemory`.
    pub fn finish(self, alloc: Global) -> Result<Summary, Fault>
        requires { IsSumming self }
        ensures summary { IfOk result (λ x. (s : Start) (h : List Entry) → HasSummed s h self →
            summary_of x ≡ summary s h) }
        ensures memory { IsOkUnless result Fault.OutOfMemory }
    {
        let rows = self.rows(alloc)?;
        Ok(Summary {
            entries: self.count,
            grants: self.grants,
            peak: self.peak,
            rows,
            conditions: self.conditions,
        })
    }
}
