//! Which entries may come next.

ghost use Rattle.std.specs.Prelude.{◌≡◌, ◌↔◌, List, IsTrue, Ok, Some};
ghost use Rattle.audit.specs.Below.{Start, entry_for, Entry};
ghost use Rattle.audit.specs.Ledger.{HasSeat, IsNext, LedgerStand};

use crate::candidates::possible_steps;
use crate::ledger::Ledger;
use deciding::decide::entry_for;
use history::entry::Entry;
use history::step::Step;

/// Returns whether two entries are the same.
fn is_same(one: Entry, other: Entry) -> bool
    ensures { IsTrue result ↔ (one ≡ other) }
{
    one == other
}

impl Ledger {
    /// Returns whether this step of the entry's seat makes the entry.
    fn makes(&self, step: Step, entry: Entry) -> bool
        requires { HasSeat self.now entry.seat }
        ensures { (s : Start) (h : List Entry) → LedgerStand s h self.now →
            IsTrue result ↔ (entry_for s h entry.seat step ≡ Ok (Some entry)) }
    {
        match entry_for(self, entry.seat, step) {
            Ok(Some(made)) => is_same(made, entry),
            Ok(None) => false,
            Err(_fault) => false,
        }
    }

    /// Returns whether any step of the entry's seat makes the entry. It changes nothing.
    pub fn admits(&self, entry: Entry) -> bool
        requires { HasSeat self.now entry.seat }
        ensures { (s : Start) (h : List Entry) → LedgerStand s h self.now → IsTrue result ↔ IsNext s h entry }
    {
        let steps = possible_steps(entry);
        if self.makes(steps.first, entry) {
            return true;
        }
        if self.makes(steps.second, entry) {
            return true;
        }
        self.makes(steps.third, entry)
    }
}
