//! A base that is read line by line.

ghost use Rattle.std.specs.Prelude.{◌≡◌, ◌+◌, ◌<◌, ◌≤◌, ◌∷◌, ◌++◌, [], ℕ, set, get_or, length};
ghost use Rattle.std.specs.Prelude.{map, All, IfOk, IfErr, IsErrOf, None, Ok, vec_capacity};
ghost use Rattle.history_text.specs.Below.{SeatBase, Sleeper, LinePlace, OutOfMemory, sleepers_of, IsInRange, HasNoBreak, CutShort};
ghost use Rattle.history_text.specs.declared.base_line.BaseLine.TheVariants.{Seat, Sleeps, Stands};
ghost use Rattle.history_text.specs.declared.base_under_way.TheConstants.{MOST_LINES};
ghost use Rattle.history_text.specs.BaseLines.{base_lines};
ghost use Rattle.history_text.specs.BaseRules.{with_line};
ghost use Rattle.history_text.specs.BaseText.{calls_sum};
ghost use Rattle.history_text.specs.NextLine.{HasShortLine, IsBaseLineNext, IsBaseLineTaken};
ghost use Rattle.history_text.specs.ToldBases.{GoodBeginsSo, GoodHas, IsToldBase};

use crate::base_line::BaseLine;
use crate::base_reading::base_line_of;
use crate::base_so_far::BaseSoFar;
use crate::place::Place;
use history::base::{Base, Sleeper};
use history::fault::Fault;
use history::header::Header;
use history::limits::MOST_SEATS;
use history::text::first_line;
use std::alloc::Global;
use std::marker::Model;
use streams::fault::TextFault;
use streams::limits::LINE_BYTES;

/// The most lines of a base: the first one, one for each seat, and one for each waiter.
pub const MOST_LINES: u64 = 1 + 2 * MOST_SEATS as u64;

/// A base of an object, as far as its lines were read. There is a good base whose lines begin with these.
#[derive(Drop)]
pub struct BaseUnderWay {
    base: Base,
    so_far: BaseSoFar,
    lines: u64,
}

impl Model for BaseUnderWay {
    ghost use Rattle.history_text.specs.BaseUnderWay.{IsUnderWay, lines_read};
    ghost use Rattle.history_text.specs.NextLine.{LinesRead};

    ghost Value = { LinesRead };

    ghost view = { λ a. record { header = a.base.header; lines = lines_read a.so_far a.base } };

    ghost invariant = { λ a. IsUnderWay a.so_far a.base a.lines };
}

impl BaseUnderWay {
    /// Returns a base of which no line was read. It reserves all memory that the base will need. The only
    /// fault is `OutOfMemory`.
    pub fn open(alloc: Global, header: &Header) -> Result<Self, Fault>
        requires { IsInRange header.now }
        ensures opened { IfOk result (λ base. base ≡ record { header = header.now; lines = [] }) }
        ensures refused { IfErr result (λ fault. fault ≡ OutOfMemory) }
    {
        let base = Base::open(alloc, header)?;
        Ok(BaseUnderWay {
            base,
            so_far: BaseSoFar::new(),
            lines: 0,
        })
    }

    /// States how many lines a base has at most.
    fn recall_few(&self)
        ensures { length self.now.lines ≤ MOST_LINES }
    {
        let _lines = &self.lines;
    }

    /// Returns the next line of the base, and how many bytes follow it. Returns None if the base is complete,
    /// and the line isn't one of a base.
    fn next(&self, rest: &[u8]) -> Result<Option<(BaseLine, usize)>, TextFault>
        ensures line { IsBaseLineNext self.now rest.now result }
        ensures cut { IsErrOf result CutShort → HasNoBreak rest.now }
        ensures short { IfOk result (λ _. HasShortLine rest.now) }
    {
        let BaseUnderWay {
            base,
            so_far,
            lines,
        } = self;
        let Some((line, after)) = first_line(rest) else {
            return Err(TextFault::CutShort);
        };
        if line.len() >= LINE_BYTES {
            return Err(TextFault::BadLine(*lines + 2));
        }
        match base_line_of(line) {
            Some(told) => {
                if so_far.allows(base, &told) {
                    Ok(Some((told, after.len())))
                } else {
                    Err(TextFault::BadLine(*lines + 2))
                }
            }
            None => {
                if so_far.is_whole(&base.header) {
                    Ok(None)
                } else {
                    Err(TextFault::BadLine(*lines + 2))
                }
            }
        }
    }

    /// Takes a line with which a good base can go on. It allocates nothing.
    fn take(&mut self, line: &BaseLine)
        requires { GoodBeginsSo self.old.header (self.old.lines ++ line.now ∷ []) }
        ensures taken { self.new
            ≡ record { header = self.old.header; lines = self.old.lines ++ line.now ∷ [] } }
        ensures few { length self.new.lines ≤ MOST_LINES }
    {
        self.so_far.pass(&self.base, line);
        take_line(&mut self.base, line);
        self.lines += 1;
    }

    /// Takes the next line, if a good base can go on with it, and returns how many bytes follow it. Returns
    /// None if the base is complete, and the line isn't one of a base.
    pub fn take_next(&mut self, rest: &[u8]) -> Result<Option<usize>, TextFault>
        ensures line { IsBaseLineTaken self.old rest.now result self.new }
        ensures header { self.new.header ≡ self.old.header }
        ensures few { length self.new.lines ≤ MOST_LINES }
        ensures cut { IsErrOf result CutShort → HasNoBreak rest.now }
        ensures short { IfOk result (λ _. HasShortLine rest.now) }
    {
        self.recall_few();
        match self.next(rest) {
            Ok(Some((line, left))) => {
                self.take(&line);
                Ok(Some(left))
            }
            Ok(None) => Ok(None),
            Err(fault) => Err(fault),
        }
    }

    /// Returns the base after all its lines were read, and the position after them.
    pub fn finish(self) -> (Base, Place)
        requires { GoodHas self.header self.lines }
        ensures base { IsToldBase self.header result.0 × (base_lines result.0 ≡ self.lines) }
        ensures place { result.1 ≡ record {
          lines = length self.lines;
          folded = result.0.entries;
          count = 0;
          calls = calls_sum result.0.seats;
        } }
    {
        let (folded, calls) = self.so_far.sums();
        let place = Place {
            lines: self.lines,
            folded,
            count: 0,
            calls,
        };
        (self.base, place)
    }
}

/// Adds a line that may follow to a base that is being read. It allocates nothing.
fn take_line(base: &mut Base, line: &BaseLine)
    requires seats { (i : ℕ) (has : SeatBase) → line.now ≡ Seat i has → i < length base.old.seats }
    requires line { (p : LinePlace) → line.now ≡ Stands p → length base.old.line < base.old.header.seats }
    requires sleepers { (c : ℕ) (x : Sleeper) → line.now ≡ Sleeps c x → (c < length base.old.sleepers)
        × (length (sleepers_of base.old c) < base.old.header.seats) }
    ensures { base.new ≡ with_line base.old line.now }
{
    match line {
        BaseLine::Folded(entries) => base.entries = *entries,
        BaseLine::Released(entries, unheld) => {
            base.entries = *entries;
            base.unheld = *unheld;
        }
        BaseLine::CountedDown(entries, count) => {
            base.entries = *entries;
            base.count = *count;
        }
        BaseLine::Seat(seat, has) => base.seats[*seat as usize] = *has,
        BaseLine::Stands(standing) => base.line.push_reserved(*standing),
        BaseLine::Sleeps(condition, sleeper) => put_asleep(
            &mut base.sleepers,
            *condition,
            *sleeper,
        ),
    }
}

/// Adds a waiter to a condition, after the others.
fn put_asleep(sleepers: &mut Vec<Vec<Sleeper>>, condition: u8, sleeper: Sleeper)
    requires condition { condition < length sleepers.old.items }
    requires places { (n : ℕ)
        × (length (get_or (map (λ list. list.items) sleepers.old.items) condition []) < n)
        × All (λ list. vec_capacity list ≡ n) sleepers.old.items }
    ensures lists { map (λ list. list.items) sleepers.new.items
        ≡ set (map (λ list. list.items) sleepers.old.items) condition
        (get_or (map (λ list. list.items) sleepers.old.items) condition [] ++ sleeper ∷ []) }
    ensures places { (n : ℕ) → All (λ list. vec_capacity list ≡ n) sleepers.old.items →
        All (λ list. vec_capacity list ≡ n) sleepers.new.items }
{
    sleepers[condition as usize].push_reserved(sleeper);
}
