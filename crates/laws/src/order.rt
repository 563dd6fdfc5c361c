//! Laws of order: the wait queue is served first come, first served.

ghost use Rattle.std.specs.Prelude.{List};
ghost use Rattle.laws.specs.Below.{Entry, Header, IsLegal, IsFairOrder, IsInOrder, opening};
ghost use Rattle.laws.specs.OutOfTurn.{fair_lock, got_past_the_line, granted_out_of_turn};
ghost use Rattle.laws.specs.OutOfTurn.{strict_lock, tried_past_the_line};

/// Nobody in the queue is overtaken. When a waiter is granted, or comes back from a condition, the waits of
/// all who joined before it have ended.
pub fn nobody_in_line_is_passed()
    ensures { (k : Header) (h : List Entry) → IsLegal (opening k) h → IsInOrder (opening k) h }
{}

/// In a fair or strict object a new acquire, timed or untimed, that isn't reentrant succeeds only while
/// nobody waits: the waits of all who ever joined have ended. In a strict object the same holds for an
/// untimed try, which barges in a fair one.
pub fn fair_mode_lets_nobody_pass()
    ensures { (k : Header) (h : List Entry) → IsLegal (opening k) h → IsFairOrder (opening k) h }
{}

/// A history in which the second waiter is granted before the first isn't legal.
pub fn a_grant_out_of_turn_is_not_legal()
    ensures passed { IsInOrder (opening fair_lock) granted_out_of_turn → ⊥ }
    ensures illegal { IsLegal (opening fair_lock) granted_out_of_turn → ⊥ }
{}

/// A history of a fair lock in which a new call overtakes a waiter isn't legal.
pub fn a_fair_take_past_the_line_is_not_legal()
    ensures passed { IsFairOrder (opening fair_lock) got_past_the_line → ⊥ }
    ensures illegal { IsLegal (opening fair_lock) got_past_the_line → ⊥ }
{}

/// A history of a strict lock in which a try overtakes a waiter isn't legal.
pub fn a_strict_try_past_the_line_is_not_legal()
    ensures passed { IsFairOrder (opening strict_lock) tried_past_the_line → ⊥ }
    ensures illegal { IsLegal (opening strict_lock) tried_past_the_line → ⊥ }
{}
