//! What the definitions say of every explanation.

ghost use Rattle.std.specs.Prelude.{◌≡◌, ◌↔◌, IsTrue, List, Ok, Some, true};
ghost use Rattle.std.specs.List.{Contains, list_any};
ghost use Rattle.explaining.specs.Below.{named, Start, entry_for, Entry, Step};
ghost use Rattle.explaining.specs.Naming.{naming_of, seat_named};
ghost use Rattle.explaining.specs.Ways.{same_entry, ways_of};

/// An entry may come next, as a legal one, if and only if some way of its seat makes it. So an illegal entry's
/// ways are all that its seat could have recorded with that amount.
pub fn an_entry_is_legal_if_a_way_makes_it()
    ensures same { (one other : Entry) → IsTrue (same_entry one other) ↔ (one ≡ other) }
    ensures legal { (s : Start) (h : List Entry) (e : Entry) →
        (IsTrue (list_any (λ w. w.is_it) (ways_of s h e))
        ↔ ((step : Step) × (entry_for s h e.seat step ≡ Ok (Some e)))) }
{}

/// The naming of an entry tells the seat that the entry names.
pub fn a_naming_tells_who_is_named()
    ensures { (s : Start) (h : List Entry) (e : Entry) → seat_named (naming_of s h e) ≡ named s h e }
{}
