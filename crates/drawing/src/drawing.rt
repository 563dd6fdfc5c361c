//! Drawing a history whose entries come one after another.

ghost use Rattle.std.specs.Prelude.{◌≡◌, ℕ, ◌<◌, ◌∷◌, [], List, IfOk, OnOk};
ghost use Rattle.drawing.specs.Below.{IsNext, based, IsGood, IsInRange, Start, Entry};
ghost use Rattle.drawing.specs.Bars.{bars};
ghost use Rattle.drawing.specs.Curve.{curve};
ghost use Rattle.drawing.specs.Drawing.{CanDraw, HasDrawn};
ghost use Rattle.drawing.specs.Marks.{marks};

use crate::amounts::put_point;
use crate::bar::{Bar, Stretch};
use crate::barging::{askers, askers_after, barges};
use crate::mark::{Mark, put_mark};
use crate::stretches::{begin_all, end_all, go_on_drawn};
use audit::ledger::Ledger;
use deciding::situation::ObjectState;
use history::base::Base;
use history::entry::Entry;
use std::alloc::{AllocError, Global};

/// What is drawn of a history.
#[derive(Drop)]
pub struct Drawn {
    /// The bars, in the order of their last entries, then of seats and kinds.
    pub bars: Vec<Bar>,
    pub marks: Vec<Mark>,
    /// A semaphore's free permits, or a latch's count, after each entry; nothing for a lock.
    pub curve: Vec<i128>,
}

/// Takes the entries of a legal history one after another, and keeps what is drawn from entry `from` on.
#[derive(Drop)]
pub struct Drawing {
    pub(crate) from: u64,
    pub(crate) count: u64,
    pub(crate) ledger: Ledger,
    // how many seats wait in the queue for a first acquire
    pub(crate) askers: u64,
    // those of each seat, by kinds
    pub(crate) stretches: Vec<Vec<Stretch>>,
    pub(crate) bars: Vec<Bar>,
    pub(crate) marks: Vec<Mark>,
    pub(crate) curve: Vec<i128>,
}

impl Drawing {
    /// Returns a drawing of an object that begins on a base, from the entry of a number on.
    pub fn open(alloc: Global, base: &Base, from: u64) -> Result<Self, AllocError>
        requires range { IsInRange base.now.header }
        requires good { IsGood base.now }
        ensures { IfOk result (HasDrawn (based base.now) from []) }
    {
        let Ok(ledger) = Ledger::open_on(alloc, base) else {
            return Err(AllocError);
        };
        let askers = askers(&ledger);
        let stretches = begin_all(alloc, *ledger.header(), from)?;
        Ok(Drawing {
            from,
            count: 0,
            ledger,
            askers,
            stretches,
            bars: Vec::new(alloc),
            marks: Vec::new(alloc),
            curve: Vec::new(alloc),
        })
    }

    /// Takes one more entry, which a step of its seat makes. After an error nothing more can be drawn.
    pub fn follow(&mut self, entry: Entry) -> Result<(), AllocError>
        requires { CanDraw self.old entry }
        ensures { OnOk result ((s : Start) (from : ℕ) (h : List Entry) → HasDrawn s from h self.old →
            entry.seat < s.header.seats → IsNext s h entry → HasDrawn s from (entry ∷ h) self.new) }
    {
        let is_barging = barges(&self.ledger, self.askers, entry);
        self.askers = askers_after(&self.ledger, self.askers, entry);
        self.ledger.note(entry);
        let number = self.count;
        self.count += 1;
        if number < self.from {
            return Ok(());
        }
        go_on_drawn(
            &mut self.stretches,
            &mut self.bars,
            &self.ledger,
            entry,
            number,
            self.from,
        )?;
        put_mark(&mut self.marks, number, is_barging, entry)?;
        put_point(&self.ledger, &mut self.curve)
    }

    /// Returns what is drawn of the entries so far.
    pub fn finish(self) -> Result<Drawn, AllocError>
        ensures bars { IfOk result (λ drawn. (s : Start) (from : ℕ) (h : List Entry) →
            HasDrawn s from h self → drawn.bars.items ≡ bars s from h) }
        ensures marks { IfOk result (λ drawn. (s : Start) (from : ℕ) (h : List Entry) →
            HasDrawn s from h self → drawn.marks.items ≡ marks s from h) }
        ensures curve { IfOk result (λ drawn. (s : Start) (from : ℕ) (h : List Entry) →
            HasDrawn s from h self → drawn.curve.items ≡ curve s from h) }
    {
        let mut bars = self.bars;
        end_all(&self.stretches, &mut bars, self.count)?;
        Ok(Drawn {
            bars,
            marks: self.marks,
            curve: self.curve,
        })
    }
}
