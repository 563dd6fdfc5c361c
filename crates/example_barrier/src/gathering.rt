//! What the lock of a barrier guards.
ghost use Rattle.std.specs.Prelude.{◌≡◌, ◌+◌, ◌<◌, ◌==◌, true, false};
ghost use Rattle.example_barrier.specs.Gathered.{lacks_one};

use std::marker::Model;

/// The number of the gathering, and how many threads have arrived, of how many. The last thread to arrive ends the
/// gathering, so never all have arrived.
#[derive(Drop)]
pub struct Gathering {
    number: u64,
    arrived: u16,
    parties: u16,
}

impl Model for Gathering {
    ghost use Rattle.std.specs.Prelude.{◌<◌};
    ghost use Rattle.example_barrier.specs.Gathered.{Gathered};

    ghost Value = { Gathered };

    ghost view = { λ g. record { number = g.number; arrived = g.arrived; parties = g.parties } };

    ghost invariant = { λ g. g.arrived < g.parties };
}

impl Gathering {
    pub fn new(parties: u16) -> Gathering
        requires { 0 < parties }
        ensures { result ≡ record { number = 0; arrived = 0; parties = parties } }
    {
        Gathering {
            number: 0,
            arrived: 0,
            parties,
        }
    }

    pub fn number(&self) -> u64
        ensures { result ≡ self.now.number }
    {
        self.number
    }

    /// Whether the next thread to arrive is the last.
    pub fn lacks_one(&self) -> bool
        ensures { result ≡ lacks_one self.now }
    {
        self.arrived + 1 == self.parties
    }

    /// A thread arrives, and is not the last. Returns the number of the gathering.
    pub fn arrive(&mut self) -> u64
        requires { lacks_one self.old ≡ false }
        ensures arrived { self.new.arrived ≡ self.old.arrived + 1 }
        ensures parties { self.new.parties ≡ self.old.parties }
        ensures same { self.new.number ≡ self.old.number }
        ensures number { result ≡ self.old.number }
    {
        self.arrived += 1;
        self.number
    }

    /// The last thread arrives. Returns the number of the gathering that it ends, and of the next.
    pub fn end(&mut self) -> (u64, u64)
        requires { lacks_one self.old ≡ true }
        ensures nobody { self.new.arrived ≡ 0 }
        ensures parties { self.new.parties ≡ self.old.parties }
        ensures numbers { (result.0 ≡ self.old.number) × (result.1 ≡ self.new.number) }
        ensures another { (result.0 == result.1) ≡ false }
    {
        let number = self.number;
        let next = if number == u64::MAX { 0 } else { number + 1 };
        self.arrived = 0;
        self.number = next;
        (number, next)
    }

    /// A thread that arrived at this gathering gives up. Returns false, and changes nothing, if the gathering has ended.
    pub fn leave(&mut self, number: u64) -> bool
        ensures going { result ≡ (self.old.number == number) }
        ensures same { self.new.number ≡ self.old.number }
        ensures parties { self.new.parties ≡ self.old.parties }
    {
        let is_going = self.number == number;
        if is_going {
            self.arrived = self.arrived.saturating_sub(1);
        }
        is_going
    }
}
