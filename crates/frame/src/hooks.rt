//! The trait of an object: the holds, permits and counts that it keeps, and what it answers about them.
//!
//! The hooks of an object keep only what decides who can acquire: a lock its owner, a semaphore its free
//! permits. A relation ties their state to the counts of a history. So the core, which keeps the history, can
//! ask the hooks instead.

ghost use Rattle.std.specs.Prelude.{◌≡◌, ◌≢◌, ℕ, ◌<◌, ◌≤◌, ◌↔◌, IsTrue, IfOk, OnOk, OnErr, Ok, false};
ghost use Rattle.frame.specs.Below.{took, given, let_go, restored, drained, could, limit, held_back, Counts, is_strict, Mode, X, S, Object};
ghost use Rattle.frame.specs.Hooks.{line_mode, opening_counts, gives, take_answer, give_answer, let_go_answer, drain_answer, level_of, AreAlike, IsRestorable, NobodyElse, NobodyElseIn, NobodyNew, NobodyElseNew};

use history::entry::Mode;
use history::fault::Fault;
use history::header::Object;

/// Whether somebody is in the queue, and which mode its head asks for.
#[derive(Clone, Copy, Debug, PartialEq, Eq)]
pub enum Line {
    Empty,
    FirstX,
    FirstS,
}

impl Line {
    /// Returns the mode that the head of the queue asks for.
    #[inline(always)]
    pub fn first(self) -> Option<Mode>
        ensures { result ≡ line_mode self }
    {
        match self {
            Line::Empty => None,
            Line::FirstX => Some(Mode::X),
            Line::FirstS => Some(Mode::S),
        }
    }
}

/// Whether another seat could still take a shared hold after an acquire.
#[derive(Clone, Copy, Debug, PartialEq, Eq)]
pub enum Taken {
    /// No other seat could.
    Last,
    /// Another seat might.
    More,
}

/// Whether a release may let another seat acquire that couldn't before.
#[derive(Clone, Copy, Debug, PartialEq, Eq)]
pub enum Gave {
    /// It lets no other seat acquire.
    Kept,
    /// It may let another seat acquire.
    Open,
}

/// The hooks of an object, as `tryAcquire`, `tryRelease` and their shared twins are those of
/// AbstractQueuedSynchronizer.
pub trait Hooks {
    /// Whether the hooks agree with these counts.
    ghost agrees: { Self → Counts → Type 0 };

    /// The object, with its opening numbers.
    ghost object_of: { Self → Object };

    /// The hooks are as at the opening, for this number of seats.
    ghost is_opened: { Self → ℕ → Type 0 };

    /// Returns whether a seat could acquire now.
    fn could(&self, who: u16, mode: Mode, n: u32) -> bool
        ensures { (k : Counts) → agrees self.now k → result ≡ could k who mode n };

    /// Returns whether the seat has the greatest number of holds.
    fn at_limit(&self, who: u16, mode: Mode) -> bool
        ensures { (k : Counts) → agrees self.now k → result ≡ limit k who mode };

    /// Returns whether the queue holds a new call back.
    fn holds_back(&self, who: u16, mode: Mode, line: Line) -> bool
        ensures { (k : Counts) → agrees self.now k → result ≡ held_back k (line_mode line) who mode };

    /// Returns whether a new call that only tries is held back too.
    fn strict(&self) -> bool
        ensures { result ≡ is_strict (object_of self.now) };

    /// Acquires. The caller has checked `could`.
    fn take(&mut self, who: u16, mode: Mode, n: u32) -> Taken
        requires { (k : Counts) × agrees self.old k × (who < k.seats) × IsTrue (could k who mode n) }
        ensures taken { (k : Counts) → agrees self.old k → who < k.seats
            → agrees self.new (took k who mode n) }
        ensures answer { (k : Counts) → agrees self.old k → who < k.seats
            → result ≡ take_answer (took k who mode n) who mode }
        ensures object { object_of self.new ≡ object_of self.old }
        // After an acquire of X no other seat could acquire anything.
        ensures alone { mode ≡ X → (k : Counts) → agrees self.old k → who < k.seats
            → NobodyElse (took k who mode n) who }
        // An acquire lets no seat acquire that couldn't before.
        ensures nobody { (k : Counts) → agrees self.old k → who < k.seats → NobodyNew k (took k who mode n) }
        // After an acquire of S no other seat could acquire X.
        ensures shared { mode ≡ S → (k : Counts) → agrees self.old k → who < k.seats
            → NobodyElseIn X (took k who mode n) who }
        // After `Last` no other seat could acquire S.
        ensures last { result ≡ Taken.Last → (k : Counts) → agrees self.old k → who < k.seats
            → NobodyElseIn S (took k who mode n) who };

    /// Releases a hold or permits, or counts down. On an error nothing has changed.
    fn give(&mut self, who: u16, mode: Mode, n: u32) -> Result<Gave, Fault>
        ensures word { (k : Counts) → agrees self.old k → gives k who mode n result }
        ensures ok { OnOk result ((k : Counts) → agrees self.old k → agrees self.new (given k who mode n)) }
        ensures answer { IfOk result (λ gave.
            (k : Counts) → agrees self.old k → gave ≡ give_answer k who mode n) }
        ensures object { object_of self.new ≡ object_of self.old }
        ensures err { OnErr result (self.new ≡ self.old) }
        // After `Kept` no other seat could acquire that couldn't before.
        ensures kept { result ≡ Ok Gave.Kept → (k : Counts) → agrees self.old k
            → NobodyElseNew k (given k who mode n) who };

    /// Releases all exclusive holds of the owner, and returns their number. On an error nothing has changed.
    fn let_go_all(&mut self, who: u16) -> Result<u32, Fault>
        ensures answer { (k : Counts) → agrees self.old k → result ≡ let_go_answer k who }
        ensures ok { OnOk result ((k : Counts) → agrees self.old k → agrees self.new (let_go k who)) }
        ensures object { object_of self.new ≡ object_of self.old }
        ensures err { OnErr result (self.new ≡ self.old) };

    /// Gives a seat the exclusive holds again that it had released to wait.
    fn restore(&mut self, who: u16, holds: u32)
        requires { (k : Counts) × agrees self.old k × IsRestorable k who holds }
        ensures restored { (k : Counts) → agrees self.old k → IsRestorable k who holds
            → agrees self.new (restored k who holds) }
        ensures object { object_of self.new ≡ object_of self.old }
        ensures alone { (k : Counts) → agrees self.old k → IsRestorable k who holds
            → NobodyElse (restored k who holds) who };

    /// Takes all free permits of a semaphore, and returns their number. For other objects it returns 0 and
    /// changes nothing.
    fn drain(&mut self) -> u32
        ensures answer { (k : Counts) → agrees self.old k → result ≡ drain_answer k }
        ensures drained { (k : Counts) (who : ℕ) → agrees self.old k
            → agrees self.new (drained k who result) }
        ensures object { object_of self.new ≡ object_of self.old };

    /// Returns whether the hooks are as at the opening, for this number of seats.
    fn as_opened(&self, seats: u16) -> bool
        ensures { IsTrue result ↔ is_opened self.now seats };

    /// Returns the object, with its opening numbers.
    fn object(&self) -> Object
        ensures { result ≡ object_of self.now };

    /// Returns the free permits of a semaphore or the count of a latch, else 0.
    fn level(&self) -> i64
        ensures { (k : Counts) → agrees self.now k → result ≡ level_of k };

    /// Hooks as at the opening agree with the counts of an object as opened.
    ghost opens: { (s : Self) (seats : ℕ) → is_opened s seats
        → agrees s (opening_counts (object_of s) seats) };

    /// The counts that the hooks agree with are those of their object.
    ghost same_object: { (s : Self) (k : Counts) → agrees s k → k.object ≡ object_of s };

    /// Hooks that agree with counts agree with all counts that are alike in what the object has.
    ghost alike: { (s : Self) (k l : Counts) → AreAlike k l → agrees s k → agrees s l };

    /// All hooks agree with some counts.
    ghost stands: { (s : Self) → (k : Counts) × agrees s k };
}
