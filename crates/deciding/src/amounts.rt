//! The free permits of a semaphore, and how often a latch was counted down.

ghost use Rattle.std.specs.Prelude.{◌≡◌, ◌≤◌, ◌<◌, ◌+◌, ◌∷◌, [], ◌^◌, List, length, nat_abs, ℕ, FitsSigned, pos, ◌+ℤ◌, ◌-ℤ◌};
ghost use Rattle.std.specs.Int.{w128};
ghost use Rattle.deciding.specs.Below.{based, seat_of, counted_after, free_after, total, IsGood, IsInRange, created, Start, opening, Entry, Header};
ghost use Rattle.deciding.specs.Amounts.{AreAmounts};

use history::base::{Base, opening_count};
use history::entry::{Entry, Word};
use history::header::Object;

/// The free permits and the countdowns that a history determines.
#[derive(Drop)]
pub struct Amounts {
    pub free: i128,
    pub counted: u64,
}

impl Amounts {
    /// Returns the opening numbers.
    pub fn open(object: Object) -> Self
        ensures { (k : Header) → k.object ≡ object → AreAmounts (opening k) [] result }
    {
        Amounts {
            free: created(object),
            counted: 0,
        }
    }

    /// Returns the numbers of a base. `held` is how many permits all its seats hold.
    pub fn open_on(base: &Base, held: u128) -> Self
        requires range { IsInRange base.now.header }
        requires good { IsGood base.now }
        requires held { held ≡ total base.now.header.seats (λ i. (seat_of base.now i).shared) }
        ensures { AreAmounts (based base.now) [] result }
    {
        let object = base.header.object;
        Amounts {
            free: left_free(created(object), base.unheld, held),
            counted: u64::from(opening_count(object) - base.count),
        }
    }

    /// Updates the numbers for one more entry.
    #[inline(always)]
    pub fn note(&mut self, entry: Entry)
        requires { (s : Start) × (h : List Entry) × AreAmounts s h self.old × (length h + 1 < 2 ^ 32) }
        ensures { (s : Start) (h : List Entry) → AreAmounts s h self.old →
            AreAmounts s (entry ∷ h) self.new }
    {
        self.free = free_after(entry.word, entry.n, self.free);
        self.counted += counted_by(entry.word);
    }
}

/// Returns the permits with which a semaphore was opened.
fn created(object: Object) -> i128
    ensures { result ≡ created object }
{
    match object {
        Object::Semaphore(_, permits) => i128::from(permits),
        Object::Lock(_) | Object::ReadWrite(_) | Object::Latch(_) => 0,
    }
}

/// Returns the free permits: those created and those released unheld, less those held.
fn left_free(created: i128, unheld: u128, held: u128) -> i128
    requires created { nat_abs created ≤ 2147483648 }
    requires unheld { unheld ≤ 10000000000000000000000000 }
    requires held { held ≤ 2560000000000000000000000000 }
    ensures { result ≡ (created +ℤ pos unheld) -ℤ pos held }
{
    created + unheld as i128 - held as i128
}

/// Returns the free permits after an entry.
fn free_after(word: Word, n: u32, had: i128) -> i128
    requires { nat_abs had ≤ 36893488147419103232 }
    ensures is { result ≡ free_after word n had }
    ensures fits { FitsSigned w128 result }
{
    match word {
        Word::Got | Word::TryGot | Word::Granted | Word::Drained => had - i128::from(n),
        Word::Gave => had + i128::from(n),
        _ => had,
    }
}

/// Returns how often an entry counts a latch down.
fn counted_by(word: Word) -> u64
    ensures is { (n : ℕ) → n + result ≡ counted_after word n }
    ensures bound { result ≤ 1 }
{
    match word {
        Word::Counted => 1,
        _ => 0,
    }
}
