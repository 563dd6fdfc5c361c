//! Laws of results: any steps, in any order, leave a legal history.

ghost use Rattle.std.specs.Prelude.{List, [], ℕ};
ghost use Rattle.laws.specs.Below.{Entry, Header, Step, results, IsLegal, Start, opening};
ghost use Rattle.laws.specs.OutOfTurn.{fair_lock, gave_first};

/// A list of steps of any seats leaves a legal history, if the object is as opened or has a legal history,
/// from whatever start.
pub fn results_are_legal()
    ensures opened { (k : Header) (steps : List (ℕ × Step)) →
        IsLegal (opening k) (results (opening k) [] steps).1 }
    ensures kept { (s : Start) (h : List Entry) (steps : List (ℕ × Step)) → IsLegal s h →
        IsLegal s (results s h steps).1 }
{}

/// A history that begins with a release isn't legal.
pub fn a_give_of_nothing_is_not_legal()
    ensures { IsLegal (opening fair_lock) gave_first → ⊥ }
{}
