//! Laws of waking: a waiter that can go is told, and nobody is woken for nothing.

ghost use Rattle.std.specs.Prelude.{◌≡◌, ◌≢◌, ℕ, Bool, List, [], ◌∷◌, ◌++◌, Some, Ok};
ghost use Rattle.laws.specs.Below.{Entry, Header, Step, Recorded, answer, results, Base, based, folded, named, ready, CanFold, Start, opening, AreRight, AreTold, StandInLine, marks, marks_after, remarked, unmarked};
ghost use Rattle.laws.specs.OutOfTurn.{fair_lock, given_to_a_waiter};
ghost use Rattle.laws.specs.Woken.{IsWoken};

/// No wake is lost: if the head of the queue could go, some entry has named it since it could, or was its
/// own.
pub fn no_wake_is_lost()
    ensures { (k : Header) (h : List Entry) (i : ℕ) → ready (opening k) h ≡ Some i → IsWoken (opening k) h i }
{}

/// Nobody is woken for nothing: the waiter that an entry names is the head of the queue after the entry and
/// could go. It couldn't go before the entry, and didn't make it.
pub fn nobody_is_woken_for_nothing()
    ensures ready { (k : Header) (h : List Entry) (e : Entry) (i : ℕ) →
        named (opening k) h e ≡ Some i → ready (opening k) (e ∷ h) ≡ Some i }
    ensures before { (k : Header) (h : List Entry) (e : Entry) (i : ℕ) →
        named (opening k) h e ≡ Some i → ready (opening k) h ≢ Some i }
    ensures other { (k : Header) (h : List Entry) (e : Entry) (i : ℕ) →
        named (opening k) h e ≡ Some i → i ≢ e.seat }
{}

/// A waiter that could go was told: if the head of the queue could go, it is marked. A mark is set by an
/// entry that names the seat, or by the seat's lapse. It is cleared when the seat's step returns Sleep, or
/// when the seat leaves the queue.
pub fn whoever_could_go_was_told()
    ensures opening { (k : Header) → AreTold (opening k) [] unmarked }
    ensures step { (s : Start) (h : List Entry) (i : ℕ) (step : Step) (m : ℕ → Bool) → AreTold s h m →
        AreTold s (answer s h i step).1 (marks_after s h i (answer s h i step).0 m) }
    ensures steps { (s : Start) (h : List Entry) (m : ℕ → Bool) (steps : List (ℕ × Step)) → AreTold s h m →
        AreTold s (results s h steps).1 (marks s h m steps) }
    ensures fold { (b : Base) (g h : List Entry) (m : ℕ → Bool) → CanFold b (h ++ g) →
        AreTold (based b) (h ++ g) m → AreTold (based (folded b g)) h m }
{}

/// Only waiters in the queue are marked.
pub fn only_who_waits_is_marked()
    ensures opening { (k : Header) → StandInLine (opening k) [] unmarked }
    ensures step { (s : Start) (h : List Entry) (i : ℕ) (step : Step) (m : ℕ → Bool) → StandInLine s h m →
        StandInLine s (answer s h i step).1 (marks_after s h i (answer s h i step).0 m) }
    ensures steps { (s : Start) (h : List Entry) (m : ℕ → Bool) (steps : List (ℕ × Step)) →
        StandInLine s h m → StandInLine s (results s h steps).1 (marks s h m steps) }
{}

/// An entry sets the mark of the seat that it names. Its own seat's mark is set by Lapse, and cleared when
/// the seat leaves the queue. No other mark changes.
pub fn an_entry_changes_two_marks()
    ensures { (s : Start) (h : List Entry) (i : ℕ) (m : ℕ → Bool) (e : Entry) → StandInLine s h m →
        marks_after s h i (Ok (Recorded e (named s h e))) m ≡ remarked e (named s h e) m }
{}

/// Marks that are right after entries on a base are right after the fold of these entries.
pub fn marks_stand_behind_a_base()
    ensures { (b : Base) (h : List Entry) (m : ℕ → Bool) → CanFold b h → AreRight (based b) h m →
        AreRight (based (folded b h)) [] m }
{}

/// If all marks are cleared, a waiter that could go is forgotten.
pub fn cleared_marks_forget_a_waiter()
    ensures { AreTold (opening fair_lock) given_to_a_waiter unmarked → ⊥ }
{}
