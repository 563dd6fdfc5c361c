//! What lies under the lock beside the object, and changes hands as its holds and permits do.

/// What one seat holds in each mode.
#[derive(Clone, Copy, Debug, PartialEq, Eq)]
pub struct Holds {
    pub exclusive: u128,
    pub shared: u128,
}

/// What lies under the lock beside the object. One part lies there, and whoever holds may carry another.
///
/// A step of a seat changes what that seat holds, and how many permits are free. In the same turn of the lock
/// the load may change hands: `trade` moves it, and its contract says that each part is then where it
/// belongs.
///
/// A counted load is one for a semaphore. It has an item for each permit, which moves as the permit does.
/// A pass that holds no permits may release some. So the pass's own entries say how many items it
/// carries: whoever releases permits brings as many items, and whoever acquires permits has as many more
/// items.
///
/// A step that lets the last exclusive hold go puts under the lock what its seat carries. So that part must
/// be fit to lie there. By other steps it stays as fit as it was. If the holds of the seat and the free
/// permits stay, both parts stay, as after a refusal.
pub trait Load: Drop {
    ghost use Rattle.std.specs.Prelude.{◌≡◌, Bool, ℕ};
    ghost use Rattle.history.specs.declared.entry.Mode.{Mode};
    ghost use Rattle.history.specs.Counts.{Counts};
    ghost use Rattle.frame.specs.Hooks.{AreAlike};
    ghost use Rattle.monitor.specs.Load.{AreOf, Brings, IsFree, IsTurn, LetsGo, Moves, given_by};

    // What is true of the part under the lock while that is free, by the counts of the object.
    ghost rests: { Self → Counts → Type 0 };

    // What is true of the part that a seat with these holds carries.
    ghost carries: { Self → (Mode → ℕ) → Type 0 };

    // What is true of the part that a seat carries if it is fit to lie under the lock.
    ghost fit: { Self → Type 0 };

    // Whether it has an item for each permit of a semaphore.
    ghost is_counted: { Bool };

    // How many items it has, if it is counted.
    ghost amount: { Self → ℕ };

    /// Moves what changes hands as a seat that held `before` comes to hold `after`. Then `free` permits are
    /// free.
    fn trade(&mut self, there: &mut Self, before: Holds, after: Holds, free: i64)
        ensures moves { (i : ℕ) (k l : Counts) → (turn : IsTurn i k l) → AreOf before (k.held i)
            → AreOf after (l.held i) → IsFree free l → rests self.old k → carries there.old (k.held i)
            → Brings is_counted (amount there.old) (given_by turn.step)
            → (LetsGo turn.step (k.held i) → fit there.old)
            → rests self.new l × carries there.new (l.held i)
            × Moves fit is_counted amount there.old k.free there.new l.free }
        ensures stays { (k : Counts) → rests self.old k → IsFree free k → before ≡ after
            → (self.new ≡ self.old) × (there.new ≡ there.old) };

    // Counts that are alike say the same of it.
    ghost alike: { (x : Self) (k l : Counts) → AreAlike k l → rests x k → rests x l };
}

/// No load. An object under a plain monitor guards nothing.
#[derive(Drop)]
pub struct Empty {}

impl Load for Empty {
    ghost use Rattle.std.specs.Prelude.{false};

    ghost rests = { λ _ _. Unit {0} };

    ghost carries = { λ _ _. Unit {0} };

    ghost fit = { λ _. Unit {0} };

    ghost is_counted = { false };

    ghost amount = { λ _. 0 };

    ghost alike = { λ _ _ _ _ _. tt };

    #[inline(always)]
    fn trade(&mut self, _there: &mut Self, _before: Holds, _after: Holds, _free: i64) {}
}
