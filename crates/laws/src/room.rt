//! Laws of room: what must be released finds room, whatever else was recorded.

ghost use Rattle.std.specs.Prelude.{◌≡◌, ◌≢◌, ◌+◌, List, [], ◌∷◌, ℕ, true, false};
ghost use Rattle.laws.specs.Below.{Entry, Header, Step, answer, results, AreSeated, IsLegal, Fits, has_room, owed, releases, reserves, was_owed, Start, opening};
ghost use Rattle.laws.specs.Breaks.{full, leaves_unseen, lock};

/// What is owed changes at each entry by what the entry reserves and releases, and by nothing else.
pub fn each_entry_changes_what_is_owed()
    ensures { (k : Header) (e : Entry) (h : List Entry) →
        IsLegal (opening k) (e ∷ h) → AreSeated (opening k) (e ∷ h) →
        owed (opening k) (e ∷ h) + releases k.object e ≡ owed (opening k) h + reserves k.object e }
{}

/// These entries always have room, if there was room for what was owed: the release of a hold of a lock, the
/// entry by which a waiter succeeds or leaves, a lapse, a signal that moves a waiter, and the end of an
/// await.
pub fn room_is_never_lacking()
    ensures { (k : Header) (e : Entry) (h : List Entry) →
        IsLegal (opening k) (e ∷ h) → AreSeated (opening k) (e ∷ h) → Fits (opening k) h →
        was_owed k.object e ≡ true → has_room (opening k) h e ≡ true }
{}

/// An answer leaves room for what is owed, if there was room before.
pub fn answers_keep_room()
    ensures { (s : Start) (h : List Entry) (seat : ℕ) (step : Step) →
        Fits s h → Fits s (answer s h seat step).1 }
{}

/// After any steps since the opening, the entries and what is owed fit in the cap.
pub fn owed_fits()
    ensures { (k : Header) (steps : List (ℕ × Step)) → Fits (opening k) (results (opening k) [] steps).1 }
{}

/// If a seat left the queue without having been in it, it would release what was never reserved, and in a
/// full history its entry has no room. That isn't legal.
pub fn who_never_waited_may_lack_room()
    ensures fits { Fits (opening lock) full }
    ensures owed { was_owed lock.object leaves_unseen ≡ true }
    ensures lacks { has_room (opening lock) full leaves_unseen ≡ false }
    ensures uneven { owed (opening lock) (leaves_unseen ∷ full) + releases lock.object leaves_unseen
        ≢ owed (opening lock) full + reserves lock.object leaves_unseen }
    ensures illegal { IsLegal (opening lock) (leaves_unseen ∷ full) → ⊥ }
{}
