//! Laws of a semaphore's permits.

ghost use Rattle.std.specs.Prelude.{◌≡◌, ◌*◌, ◌≤◌, ◌≤ℤ◌, List, ℕ, true, pos, length, FitsSigned};
ghost use Rattle.std.specs.Int.{w32};
ghost use Rattle.laws.specs.Below.{Entry, Mode, S, Header, MOST_AMOUNT, IsConserved, free, held, IsInRange, AreSeated, IsLegal, is_semaphore, opening};
ghost use Rattle.laws.specs.Breaks.{drained_too_many, permit_slept_away, released_too_many, semaphore};

/// The permits held and free are those with which the semaphore was opened and those that were released by
/// seats which didn't hold them.
pub fn permits_are_conserved()
    ensures { (k : Header) (h : List Entry) → is_semaphore k.object ≡ true →
        IsLegal (opening k) h → AreSeated (opening k) h → IsConserved (opening k) h }
{}

/// The free permits are at most `MOST_AMOUNT`, and at least the least number of 32 bits.
pub fn free_permits_stay_in_range()
    ensures at_most { (k : Header) (h : List Entry) →
        IsInRange k → is_semaphore k.object ≡ true → IsLegal (opening k) h →
        free (opening k) h ≤ℤ pos MOST_AMOUNT }
    ensures fits { (k : Header) (h : List Entry) →
        IsInRange k → is_semaphore k.object ≡ true → IsLegal (opening k) h →
        FitsSigned w32 (free (opening k) h) }
{}

/// A seat holds at most `MOST_AMOUNT` permits for each entry.
pub fn permits_held_stay_in_range()
    ensures { (k : Header) (h : List Entry) →
        IsInRange k → is_semaphore k.object ≡ true → IsLegal (opening k) h →
        (seat : ℕ) (mode : Mode) → held (opening k) h seat mode ≤ MOST_AMOUNT * length h }
{}

/// A permit that is given up for a wait on a condition would be lost. That isn't legal.
pub fn a_permit_is_not_slept_away()
    ensures lost { IsConserved (opening semaphore) permit_slept_away → ⊥ }
    ensures illegal { IsLegal (opening semaphore) permit_slept_away → ⊥ }
{}

/// A release past the greatest number of permits isn't legal.
pub fn no_release_goes_past_the_range()
    ensures past { free (opening semaphore) released_too_many ≤ℤ pos MOST_AMOUNT → ⊥ }
    ensures illegal { IsLegal (opening semaphore) released_too_many → ⊥ }
{}

/// A drain of more permits than the limit isn't legal.
pub fn no_drain_goes_past_the_range()
    ensures past { held (opening semaphore) drained_too_many 0 S ≤ MOST_AMOUNT * length drained_too_many → ⊥ }
    ensures illegal { IsLegal (opening semaphore) drained_too_many → ⊥ }
{}
