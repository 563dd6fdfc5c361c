//! A number, and a book of all that was added to it.
ghost use Rattle.std.specs.Prelude.{◌≡◌, ◌+◌, ◌<◌, ◌≤◌};
ghost use Rattle.example_first.specs.Sums.{capped};

use locks::Keeps;
use std::sync::ledger::{Book, Ledger, Share};

/// A number, and a book of all that was added to it. The book takes no memory: it is there for proofs.
#[derive(Drop)]
pub struct Number<L: Ledger> {
    pub value: u64,
    pub book: Book<L>,
}

/// The number is what was added to it.
pub struct IsSum;

impl<L: Ledger> Keeps<Number<L>> for IsSum {
    ghost use Rattle.std.specs.Prelude.{◌≡◌};
    ghost use Rattle.example_first.specs.Sums.{capped};

    ghost invariant = { λ number. number.value ≡ capped number.book.total };
}

/// Adds, or stops at the largest number.
fn added(a: u64, b: u64) -> u64
    ensures { result ≡ capped (a + b) }
{
    if b > u64::MAX - a { u64::MAX } else { a + b }
}

impl<L: Ledger> Number<L> {
    /// Adds to the number, and notes it in the share of the thread that adds.
    pub fn add(&mut self, mine: &mut Share<L>, more: u64)
        requires { 0 < mine.old.parts }
        ensures value { self.new.value ≡ capped (self.old.value + more) }
        ensures total { self.new.book.total ≡ self.old.book.total + more }
        ensures amount { mine.new.amount ≡ mine.old.amount + more }
        ensures parts { mine.new.parts ≡ mine.old.parts }
        ensures keeps { self.old.value ≡ capped self.old.book.total
            → self.new.value ≡ capped self.new.book.total }
    {
        self.book.add(mine, more);
        self.value = added(self.value, more);
    }

    /// Returns the number. It is at least what this share has. The whole share says what it must be.
    pub fn read(&mut self, mine: &mut Share<L>) -> u64
        requires is_sum { self.old.value ≡ capped self.old.book.total }
        ensures least { capped mine.old.amount ≤ result }
        ensures whole { mine.old.parts ≡ L.parts → result ≡ capped mine.old.amount }
        ensures value { self.new.value ≡ self.old.value }
        ensures total { self.new.book.total ≡ self.old.book.total }
        ensures amount { mine.new.amount ≡ mine.old.amount }
        ensures parts { mine.new.parts ≡ mine.old.parts }
    {
        self.book.audit(mine);
        self.value
    }
}
