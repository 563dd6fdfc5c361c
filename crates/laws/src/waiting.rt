//! Laws of waiting: a seat waits in one place.

ghost use Rattle.std.specs.Prelude.{◌≡◌, ◌+◌, ◌≤◌, List, length, true};
ghost use Rattle.laws.specs.Below.{Entry, Header, AreSeated, IsLegal, line, opening, IsOneWait, asleep};
ghost use Rattle.laws.specs.OutOfTurn.{fair_lock, queued_twice};

/// A seat waits at most once, in the queue or on a condition.
pub fn a_seat_waits_once()
    ensures { (k : Header) (h : List Entry) → IsLegal (opening k) h → IsOneWait (opening k) h }
{}

/// At most as many seats wait as there are. So a queue with a place for each seat is never full.
pub fn no_more_wait_than_seats()
    ensures { (k : Header) (h : List Entry) → IsLegal (opening k) h → AreSeated (opening k) h →
        length (line (opening k) h) + length (asleep k.conditions (opening k) h) ≤ k.seats }
{}

/// A history in which a waiter in the queue joins it again isn't legal.
pub fn a_second_place_in_line_is_not_legal()
    ensures twice { IsOneWait (opening fair_lock) queued_twice → ⊥ }
    ensures illegal { IsLegal (opening fair_lock) queued_twice → ⊥ }
{}
