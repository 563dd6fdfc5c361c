//! The most frequent entries: an acquire that succeeds or is queued, the release of a lock, and a grant.
//!
//! Nearly all entries are of these kinds. Whether a step makes one of them is asked of the ledger directly, with
//! no step decided and no entry made. All other entries take the general way, [`admits`](Ledger::admits).

ghost use Rattle.std.specs.Prelude.{◌≡◌, List, IsTrue, None, Ok, Some};
ghost use Rattle.audit.specs.Below.{refused_as, counts, first_mode, Idle, phase, Start, acquired, entry_for, gave, plain, Entry, Look};
ghost use Rattle.history.specs.declared.entry.Word.TheVariants as word;
ghost use Rattle.audit.specs.Ledger.{HasSeat, IsNext, LedgerStand};

use crate::ledger::Ledger;
use deciding::checks::{is_lock, refused_as};
use deciding::situation::ObjectState;
use history::entry::{End, Entry, Mode, Word};
use history::step::Step;

/// Returns whether an entry concerns no condition and ends no wait.
#[inline(always)]
fn is_plain(entry: Entry) -> bool
    ensures { IsTrue result → entry ≡ plain entry.seat entry.word entry.mode entry.n }
{
    entry.at == 0 && matches!(entry.end, End::None)
}

#[inline(always)]
fn is_same_mode(one: Mode, other: Mode) -> bool
    ensures { IsTrue result → one ≡ other }
{
    match one {
        Mode::X => matches!(other, Mode::X),
        Mode::S => matches!(other, Mode::S),
    }
}

impl Ledger {
    /// Returns whether a step of the entry's seat makes the entry, as far as it is plain. It may return false
    /// for an entry that a step makes.
    #[inline(always)]
    pub(crate) fn admits_at_once(&self, entry: Entry) -> bool
        requires { HasSeat self.now entry.seat }
        ensures { (s : Start) (h : List Entry) → LedgerStand s h self.now → IsTrue result → IsNext s h entry }
    {
        if !is_plain(entry) {
            return false;
        }
        let Entry { seat, mode, n, .. } = entry;
        match entry.word {
            Word::Got => self.begins(seat, Step::Acquire(mode, n)) && self.takes(seat, mode, n),
            Word::Queued => self.begins(seat, Step::Acquire(mode, n)) && self.queues(seat, mode, n),
            Word::Gave => self.begins(seat, Step::Give(mode, n)) && self.gives(seat, mode, n),
            Word::Granted => self.grants(seat, mode, n),
            _ => false,
        }
    }

    /// Returns whether the seat is idle, and the object has such a step.
    #[inline(always)]
    fn begins(&self, seat: u16, step: Step) -> bool
        ensures { (s : Start) (h : List Entry) → LedgerStand s h self.now → IsTrue result →
            (phase s h seat ≡ Idle) × (refused_as s.header step ≡ None) }
    {
        self.place_of(seat).is_none()
            && !self.sleeps(seat)
            && refused_as(&self.header, step).is_none()
    }

    /// Returns whether an acquire of an idle seat succeeds.
    #[inline(always)]
    fn takes(&self, seat: u16, mode: Mode, n: u32) -> bool
        requires { HasSeat self.now seat }
        ensures { (s : Start) (h : List Entry) → LedgerStand s h self.now → IsTrue result →
            acquired (counts s h) (first_mode s h) seat mode n ≡ word.Got }
    {
        !self.holds_back(seat, mode) && !self.at_limit(seat, mode) && self.could(seat, mode, n)
    }

    /// Returns whether an acquire of an idle seat is queued.
    #[inline(always)]
    fn queues(&self, seat: u16, mode: Mode, n: u32) -> bool
        requires { HasSeat self.now seat }
        ensures { (s : Start) (h : List Entry) → LedgerStand s h self.now → IsTrue result →
            acquired (counts s h) (first_mode s h) seat mode n ≡ word.Queued }
    {
        if self.holds_back(seat, mode) {
            return true;
        }
        !self.at_limit(seat, mode) && !self.could(seat, mode, n)
    }

    /// Returns whether the release of an idle seat gives back a hold of a lock.
    #[inline(always)]
    fn gives(&self, seat: u16, mode: Mode, n: u32) -> bool
        requires { HasSeat self.now seat }
        ensures { (s : Start) (h : List Entry) → LedgerStand s h self.now → IsTrue result →
            gave s.header.object (counts s h) seat mode n ≡ word.Gave }
    {
        is_lock(self.header.object) && self.held(seat, mode) > 0
    }

    /// Returns whether the seat is the head of the queue, and its acquire, which asks for this, may go on.
    #[inline(always)]
    fn grants(&self, seat: u16, mode: Mode, n: u32) -> bool
        requires { HasSeat self.now seat }
        ensures { (s : Start) (h : List Entry) → LedgerStand s h self.now → IsTrue result →
            entry_for s h seat Look ≡ Ok (Some (plain seat word.Granted mode n)) }
    {
        match self.first() {
            Some(first) => first.seat == seat
                && !first.back
                && is_same_mode(first.mode, mode)
                && first.n == n
                && self.could(seat, mode, n),
            None => false,
        }
    }
}
