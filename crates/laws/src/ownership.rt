//! Laws of the owners and readers of a lock or read-write lock.

ghost use Rattle.std.specs.Prelude.{◌≡◌, List, ℕ, true};
ghost use Rattle.laws.specs.Below.{Entry, Header, AreSeated, IsLegal, is_lock, IsOwned, IsSaved, is_away, phase, opening};
ghost use Rattle.laws.specs.Breaks.{lock, read_write, reader_beside_owner, stranger_sleeps, two_owners};

/// At most one seat has exclusive holds, no other seat reads at the same time, and holds stay within their
/// limits.
pub fn there_is_one_owner()
    ensures { (k : Header) (h : List Entry) → is_lock k.object ≡ true →
        IsLegal (opening k) h → AreSeated (opening k) h → IsOwned (opening k) h }
{}

/// A seat within an await holds nothing, and its saved holds are within the limit.
pub fn who_is_away_saved_its_holds()
    ensures { (k : Header) (h : List Entry) → IsLegal (opening k) h →
        (seat : ℕ) → is_away (phase (opening k) h seat) ≡ true → IsSaved (opening k) h seat }
{}

/// A second owner at the same time isn't legal.
pub fn a_second_owner_is_not_legal()
    ensures two { IsOwned (opening lock) two_owners → ⊥ }
    ensures illegal { IsLegal (opening lock) two_owners → ⊥ }
{}

/// A reader while another seat writes isn't legal.
pub fn a_reader_beside_an_owner_is_not_legal()
    ensures two { IsOwned (opening read_write) reader_beside_owner → ⊥ }
    ensures illegal { IsLegal (opening read_write) reader_beside_owner → ⊥ }
{}

/// A seat that waits on a condition without having owned the lock has saved nothing. That isn't legal.
pub fn a_stranger_that_sleeps_is_not_legal()
    ensures away { is_away (phase (opening lock) stranger_sleeps 0) ≡ true }
    ensures nothing { IsSaved (opening lock) stranger_sleeps 0 → ⊥ }
    ensures illegal { IsLegal (opening lock) stranger_sleeps → ⊥ }
{}
