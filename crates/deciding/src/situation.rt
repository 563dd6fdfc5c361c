//! The questions that a decision asks about the state of an object.

ghost use Rattle.std.specs.Prelude.{◌≡◌, List, length, true};
ghost use Rattle.deciding.specs.Below.{could, held_back, limit, count, counts, free, held, first_mode, first_of, line, place_of, is_semaphore, is_strict, is_away, phase, last_sleep, sleepers, sleeps_below, Start, Entry};
ghost use Rattle.deciding.specs.ObjectState.{HasHistory, HasSeat, IsHistory};
ghost use Rattle.deciding.specs.Sleep.{sleep_of};

use crate::sleep::LastSleep;
use history::arrival::Arrival;
use history::entry::Mode;
use history::header::Header;

/// The questions that a decision asks about the state of an object.
///
/// A state represents a history. Its answers are what the definitions compute from that history.
pub trait ObjectState {
    /// The state is the one after this history.
    ghost stands: { Start → List Entry → Self → Type 0 };

    fn header(&self) -> &Header
        ensures { (s : Start) (h : List Entry) → stands s h self.now → result.now ≡ s.header };

    /// Returns whether the queue holds back tries too.
    fn is_strict(&self) -> bool
        ensures { (s : Start) (h : List Entry) → stands s h self.now → result ≡ is_strict s.header.object };

    /// Returns whether the queue holds a new call back.
    fn holds_back(&self, seat: u16, mode: Mode) -> bool
        requires { HasSeat stands self.now seat }
        ensures { (s : Start) (h : List Entry) → stands s h self.now
            → result ≡ held_back (counts s h) (first_mode s h) seat mode };

    /// Returns whether the seat has the greatest number of holds.
    fn at_limit(&self, seat: u16, mode: Mode) -> bool
        requires { HasSeat stands self.now seat }
        ensures { (s : Start) (h : List Entry) → stands s h self.now
            → result ≡ limit (counts s h) seat mode };

    /// Returns whether the seat could acquire now.
    fn could(&self, seat: u16, mode: Mode, n: u32) -> bool
        requires { HasSeat stands self.now seat }
        ensures { (s : Start) (h : List Entry) → stands s h self.now
            → result ≡ could (counts s h) seat mode n };

    /// Returns the holds of the seat in a mode.
    fn held(&self, seat: u16, mode: Mode) -> u128
        requires { HasSeat stands self.now seat }
        ensures { (s : Start) (h : List Entry) → stands s h self.now → result ≡ held s h seat mode };

    /// Returns the free permits of a semaphore, which may be negative.
    fn free(&self) -> i64
        requires { (s : Start) × (h : List Entry) × stands s h self.now
            × (is_semaphore s.header.object ≡ true) }
        ensures { (s : Start) (h : List Entry) → stands s h self.now → result ≡ free s h };

    /// Returns the count of a latch, which falls from its opening number; else 0.
    fn latch_count(&self) -> u32
        ensures { (s : Start) (h : List Entry) → stands s h self.now → result ≡ count s h };

    /// Returns how many seats are in the queue.
    fn queue_length(&self) -> u16
        ensures { (s : Start) (h : List Entry) → stands s h self.now → result ≡ length (line s h) };

    /// Returns the head of the queue, which has waited longest.
    fn first(&self) -> Option<Arrival>
        ensures { (s : Start) (h : List Entry) → stands s h self.now → result ≡ first_of (line s h) };

    /// Returns what the seat asks for in the queue, if it is there.
    fn place_of(&self, seat: u16) -> Option<Arrival>
        ensures { (s : Start) (h : List Entry) → stands s h self.now → result ≡ place_of seat (line s h) };

    /// Returns whether the seat waits on a condition.
    fn sleeps(&self, seat: u16) -> bool
        ensures { (s : Start) (h : List Entry) → stands s h self.now
            → result ≡ sleeps_below s.header.conditions s h seat };

    /// Returns how many seats wait on a condition.
    fn waiters(&self, condition: u8) -> u16
        ensures { (s : Start) (h : List Entry) → stands s h self.now
            → result ≡ length (sleepers s h condition) };

    /// Returns what the seat gave up when it last began to wait on a condition, if it is still within that
    /// await.
    fn last_sleep(&self, seat: u16) -> LastSleep
        requires { HasSeat stands self.now seat }
        ensures { (s : Start) (h : List Entry) → stands s h self.now → is_away (phase s h seat) ≡ true
            → sleep_of result ≡ last_sleep s h seat };

    /// A state represents only legal histories from a good base.
    ghost is_history: { (s : Start) (h : List Entry) (state : Self) → stands s h state → IsHistory s h };
}
