//! Laws of bases: a base stands for the entries that were folded into it.

ghost use Rattle.std.specs.Prelude.{◌≡◌, ◌≢◌, ◌↔◌, ◌+◌, ◌<◌, ◌≤◌, ℕ, List, [], ◌∷◌, ◌++◌, length, true};
ghost use Rattle.std.specs.List.{AllByRecursion};
ghost use Rattle.laws.specs.Below.{MOST_FOLDED, Entry, X, Header, Point, Step, Base, based, folded, opening_base, IsConserved, count, free, held, unheld, IsGood, IsModest, IsInRange, AreSeated, IsLegal, calls, line, named, next_base, is_lock, is_semaphore, IsFairOrder, IsInOrder, IsOwned, IsSaved, is_away, Idle, phase, Agrees, CanFold, ComesBefore, FollowsBy, owed, last_sleep, sleepers, opening, entry_for, IsOneWait};
ghost use Rattle.laws.specs.Forgetful.{counted_out, forgets_a_permit, forgets_a_read, forgets_a_sleeper, forgets_the_count, gave_a_read, granted_first, moved, opened_for_one, opened_latch, opened_lock, opened_read_write, opened_semaphore, passes, read_held, released_unheld, reverses_its_line, slept, taken_by_nobody, took_a_permit, two_in_line};
ghost use Rattle.laws.specs.OutOfTurn.{gave_first, taken};

/// The base of an object as it is opened stands for no entries.
pub fn an_opening_is_a_base()
    ensures start { (k : Header) → based (opening_base k) ≡ opening k }
    ensures good { (k : Header) → IsInRange k → IsGood (opening_base k) }
{}

/// After the fold of `g`, the definitions say of `h` what they say of `g` followed by `h`. This includes the
/// free permits of a semaphore, and the last sleep of a seat within an await.
pub fn a_base_stands_for_its_entries()
    ensures held { (b : Base) (g h : List Entry) → CanFold b (h ++ g) →
        held (based (folded b g)) h ≡ held (based b) (h ++ g) }
    ensures unheld { (b : Base) (g h : List Entry) → CanFold b (h ++ g) →
        unheld (based (folded b g)) h ≡ unheld (based b) (h ++ g) }
    ensures free { (b : Base) (g h : List Entry) → CanFold b (h ++ g) → is_semaphore b.header.object ≡ true →
        free (based (folded b g)) h ≡ free (based b) (h ++ g) }
    ensures count { (b : Base) (g h : List Entry) → CanFold b (h ++ g) →
        count (based (folded b g)) h ≡ count (based b) (h ++ g) }
    ensures line { (b : Base) (g h : List Entry) → CanFold b (h ++ g) →
        line (based (folded b g)) h ≡ line (based b) (h ++ g) }
    ensures sleepers { (b : Base) (g h : List Entry) → CanFold b (h ++ g) →
        sleepers (based (folded b g)) h ≡ sleepers (based b) (h ++ g) }
    ensures last_sleep { (b : Base) (g h : List Entry) (i : ℕ) → CanFold b (h ++ g) →
        is_away (phase (based b) (h ++ g) i) ≡ true →
        last_sleep (based (folded b g)) h i ≡ last_sleep (based b) (h ++ g) i }
    ensures phase { (b : Base) (g h : List Entry) (i : ℕ) → CanFold b (h ++ g) →
        phase (based (folded b g)) h i ≡ phase (based b) (h ++ g) i }
    ensures calls { (b : Base) (g h : List Entry) → CanFold b (h ++ g) →
        calls (based (folded b g)) h ≡ calls (based b) (h ++ g) }
    ensures owed { (b : Base) (g h : List Entry) → CanFold b (h ++ g) →
        owed (based (folded b g)) h ≡ owed (based b) (h ++ g) }
{}

/// After a fold a step makes the same entry, and the entry names the same seat.
pub fn a_step_goes_on_from_a_base()
    ensures entry { (b : Base) (g h : List Entry) (i : ℕ) (step : Step) → CanFold b (h ++ g) →
        entry_for (based (folded b g)) h i step ≡ entry_for (based b) (h ++ g) i step }
    ensures named { (b : Base) (g h : List Entry) (e : Entry) → CanFold b (e ∷ h ++ g) →
        named (based (folded b g)) h e ≡ named (based b) (h ++ g) e }
{}

/// Entries are legal on a good base if and only if the first of them are, and the others are legal from the
/// fold of these.
pub fn legality_goes_on_from_a_base()
    ensures { (b : Base) (g h : List Entry) → IsGood b → AreSeated (based b) g →
        IsLegal (based b) (h ++ g) ↔ (IsLegal (based b) g × IsLegal (based (folded b g)) h) }
{}

/// Folding nothing changes nothing, and folding in parts is the same as folding at once.
pub fn a_base_can_be_folded()
    ensures nothing { (b : Base) → IsGood b → folded b [] ≡ b }
    ensures parts { (b : Base) (g h : List Entry) → CanFold b (h ++ g) →
        folded (folded b g) h ≡ folded b (h ++ g) }
{}

/// A fold of entries is one `next_base` after another.
pub fn a_fold_goes_on_entry_by_entry()
    ensures one { (b : Base) (e : Entry) → CanFold b (e ∷ []) → folded b (e ∷ []) ≡ next_base b e }
    ensures more { (b : Base) (g : List Entry) (e : Entry) → IsInRange b.header → IsModest b →
        b.entries + length g ≤ MOST_FOLDED → CanFold b (e ∷ g) →
        folded b (e ∷ g) ≡ next_base (folded b g) e }
{}

/// The fold of legal entries on a good base is a good base, unless more are folded than the limit allows. The
/// permits must be at most what the folded entries can have moved, as they are after an opening.
pub fn the_fold_of_legal_entries_is_good()
    ensures good { (b : Base) (g : List Entry) → IsInRange b.header → CanFold b g →
        b.entries + length g ≤ MOST_FOLDED → IsModest b → IsGood (folded b g) }
    ensures modest { (b : Base) (g : List Entry) → IsInRange b.header → CanFold b g →
        b.entries + length g ≤ MOST_FOLDED → IsModest b → IsModest (folded b g) }
    ensures opening { (k : Header) → IsModest (opening_base k) }
{}

/// What is seen of a history grows, or is folded with more entries. This is an order: later points take back
/// nothing that was seen.
pub fn what_is_seen_stands_in_order()
    ensures same { (p : Point) → ComesBefore p p }
    ensures further { (p q r : Point) → ComesBefore p q → ComesBefore q r → ComesBefore p r }
{}

/// A point that follows another comes after it. Appending a seat's entries extends that seat's list and
/// leaves all others. A new object's lists are empty.
pub fn what_follows_comes_after()
    ensures before { (p q : Point) (added : List Entry) → CanFold p.base p.entries → FollowsBy p q added →
        ComesBefore p q }
    ensures own { (p q : Point) (i : ℕ) (added all : List Entry) → CanFold p.base p.entries →
        FollowsBy p q added → AllByRecursion (λ e. e.seat ≡ i) added → Agrees p i all →
        Agrees q i (added ++ all) }
    ensures other { (p q : Point) (i j : ℕ) (added all : List Entry) → CanFold p.base p.entries →
        FollowsBy p q added → AllByRecursion (λ e. e.seat ≡ i) added → i ≢ j → Agrees p j all →
        Agrees q j all }
    ensures opening { (k : Header) (p : Point) (i : ℕ) → p.base ≡ opening_base k → p.entries ≡ [] →
        Agrees p i [] }
{}

/// On a good base nobody in the queue is overtaken. The base's own waiters came before all others.
pub fn nobody_is_passed_on_a_base()
    ensures line { (b : Base) (h : List Entry) → IsGood b → IsLegal (based b) h → IsInOrder (based b) h }
    ensures fair { (b : Base) (h : List Entry) → IsLegal (based b) h → IsFairOrder (based b) h }
{}

/// On a good base permits are conserved, a lock has one owner, a seat within an await has saved its holds,
/// and each seat waits once.
pub fn what_holds_of_a_history_holds_on_a_base()
    ensures permits { (b : Base) (h : List Entry) → is_semaphore b.header.object ≡ true → CanFold b h →
        IsConserved (based b) h }
    ensures owner { (b : Base) (h : List Entry) → is_lock b.header.object ≡ true → CanFold b h →
        IsOwned (based b) h }
    ensures saved { (b : Base) (h : List Entry) (i : ℕ) → IsGood b → IsLegal (based b) h →
        is_away (phase (based b) h i) ≡ true → IsSaved (based b) h i }
    ensures once { (b : Base) (h : List Entry) → IsGood b → IsLegal (based b) h → IsOneWait (based b) h }
{}

/// A seat that has an exclusive hold is idle: it waits neither in the queue nor on a condition. So it may
/// call, and its release isn't refused.
pub fn whoever_owns_is_idle()
    ensures { (b : Base) (h : List Entry) → CanFold b h →
        (seat : ℕ) → 0 < held (based b) h seat X → phase (based b) h seat ≡ Idle }
{}

/// A base that lacks a hold isn't the fold: the release of that hold is no longer legal.
pub fn a_base_that_forgets_a_hold_is_no_fold()
    ensures legal { IsLegal (based (folded opened_lock taken)) gave_first }
    ensures illegal { IsLegal (based opened_lock) gave_first → ⊥ }
{}

/// A base that lacks a condition's waiter isn't the fold: a signal that moved the waiter no longer does.
pub fn a_base_that_forgets_a_sleeper_is_no_fold()
    ensures legal { IsLegal (based (folded opened_lock slept)) moved }
    ensures illegal { IsLegal (based forgets_a_sleeper) moved → ⊥ }
{}

/// A base that lacks a read hold isn't the fold: the release of that hold is no longer legal.
pub fn a_base_that_forgets_a_read_is_no_fold()
    ensures legal { IsLegal (based (folded opened_read_write read_held)) gave_a_read }
    ensures illegal { IsLegal (based forgets_a_read) gave_a_read → ⊥ }
{}

/// A base that lacks a permit released unheld isn't the fold: that permit is no longer free.
pub fn a_base_that_forgets_a_permit_is_no_fold()
    ensures legal { IsLegal (based (folded opened_semaphore released_unheld)) took_a_permit }
    ensures illegal { IsLegal (based forgets_a_permit) took_a_permit → ⊥ }
{}

/// A base that lacks the countdowns of a latch isn't the fold: the latch is closed again.
pub fn a_base_that_forgets_the_count_is_no_fold()
    ensures legal { IsLegal (based (folded opened_latch counted_out)) passes }
    ensures illegal { IsLegal (based forgets_the_count) passes → ⊥ }
{}

/// A base with its queue reversed isn't the fold: its head is no longer granted.
pub fn a_base_that_reverses_its_line_is_no_fold()
    ensures legal { IsLegal (based (folded opened_lock two_in_line)) granted_first }
    ensures illegal { IsLegal (based reverses_its_line) granted_first → ⊥ }
{}

/// Why the seat of each entry must be one of the object's: an entry of another seat can be legal, but the
/// fold loses it.
pub fn an_entry_of_no_seat_is_lost()
    ensures legal { IsLegal (based opened_for_one) taken_by_nobody }
    ensures call { calls (based opened_for_one) taken_by_nobody ≡ 1 }
    ensures lost { calls (based (folded opened_for_one taken_by_nobody)) [] ≡ 0 }
{}
