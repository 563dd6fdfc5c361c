//! The one entry that a step of a seat makes now.

ghost use Rattle.std.specs.Prelude.{◌≡◌, ◌<◌, ◌≤ℤ◌, List, Some, None, true, false, pos, nat_lt, IfSome};
ghost use Rattle.deciding.specs.Below.{is_seat, counts, free, held, owner, max_amount, first_mode, line, place_of, ready, is_lock, is_semaphore, phase, waits, Start, acquired, at_least_none, awaits, entry_for, gave, idle_entry, line_entry, signals, tried, tried_fairly, Entry, X};
ghost use Rattle.deciding.specs.Checks.{refused_as};
ghost use Rattle.deciding.specs.inner.Checks.{in_phase};
ghost use Rattle.deciding.specs.ObjectState.{HasHistory, HasSeat};

use crate::checks::{refused_as, waits};
use crate::entries::{back, plain, queued_entry, sleeping_entry};
use crate::situation::ObjectState;
use history::arrival::Arrival;
use history::entry::{End, Entry, Mode, Word};
use history::fault::Fault;
use history::header::Object;
use history::limits::MOST_PERMITS;
use history::step::Step;

/// Returns the seat of the head of the queue, if it could acquire what it asks for.
pub fn ready<T: ObjectState>(state: &T) -> Option<u16>
    requires { HasHistory T.stands state.now }
    ensures ready { (s : Start) (h : List Entry) → T.stands s h state.now → result ≡ ready s h }
    ensures below { (s : Start) (h : List Entry) → T.stands s h state.now
        → IfSome result (λ seat. seat < s.header.seats) }
{
    match state.first() {
        None => None,
        Some(first) => {
            if state.could(first.seat, first.mode, first.n) {
                Some(first.seat)
            } else {
                None
            }
        }
    }
}

/// Returns whether the seat is the head of the queue and could acquire what it asks for, so that a retry
/// succeeds.
fn is_ready<T: ObjectState>(state: &T, seat: u16) -> bool
    requires { HasSeat T.stands state.now seat }
    ensures { (s : Start) (h : List Entry) → T.stands s h state.now → result ≡ is_seat (ready s h) seat }
{
    match state.first() {
        None => false,
        Some(first) => first.seat == seat && state.could(seat, first.mode, first.n),
    }
}

#[inline(always)]
fn acquired<T: ObjectState>(state: &T, seat: u16, mode: Mode, n: u32) -> Word
    requires { HasSeat T.stands state.now seat }
    ensures { (s : Start) (h : List Entry) → T.stands s h state.now
        → result ≡ acquired (counts s h) (first_mode s h) seat mode n }
{
    if state.holds_back(seat, mode) {
        Word::Queued
    } else if state.at_limit(seat, mode) {
        Word::Refused(Fault::TooManyHolds)
    } else if state.could(seat, mode, n) {
        Word::Got
    } else {
        Word::Queued
    }
}

fn tried<T: ObjectState>(state: &T, seat: u16, mode: Mode, n: u32) -> Word
    requires { HasSeat T.stands state.now seat }
    ensures { (s : Start) (h : List Entry) → T.stands s h state.now
        → result ≡ tried (counts s h) (first_mode s h) seat mode n }
{
    if state.is_strict() && state.holds_back(seat, mode) {
        Word::Missed
    } else if state.at_limit(seat, mode) {
        Word::Refused(Fault::TooManyHolds)
    } else if state.could(seat, mode, n) {
        Word::TryGot
    } else {
        Word::Missed
    }
}

fn tried_fairly<T: ObjectState>(state: &T, seat: u16, mode: Mode, n: u32) -> Word
    requires { HasSeat T.stands state.now seat }
    ensures { (s : Start) (h : List Entry) → T.stands s h state.now
        → result ≡ tried_fairly (counts s h) (first_mode s h) seat mode n }
{
    if state.holds_back(seat, mode) {
        Word::Missed
    } else if state.at_limit(seat, mode) {
        Word::Refused(Fault::TooManyHolds)
    } else if state.could(seat, mode, n) {
        Word::Got
    } else {
        Word::Missed
    }
}

/// Returns the free permits of a semaphore.
fn free_permits<T: ObjectState>(state: &T) -> i64
    requires { (s : Start) × (h : List Entry) × T.stands s h state.now
        × (is_semaphore s.header.object ≡ true) }
    ensures free { (s : Start) (h : List Entry) → T.stands s h state.now → result ≡ free s h }
    ensures most { result ≤ℤ pos max_amount }
{
    state.free()
}

/// Returns what a release makes. A hold must be the seat's own. Permits must not pass the greatest number.
#[inline(always)]
fn gave<T: ObjectState>(state: &T, seat: u16, mode: Mode, n: u32) -> Word
    requires { HasSeat T.stands state.now seat }
    ensures { (s : Start) (h : List Entry) → T.stands s h state.now
        → result ≡ gave s.header.object (counts s h) seat mode n }
{
    match state.header().object {
        Object::Lock(_) | Object::ReadWrite(_) => {
            if state.held(seat, mode) > 0 {
                Word::Gave
            } else {
                Word::Refused(Fault::NotOwner)
            }
        }
        Object::Semaphore(_, _) => {
            if free_permits(state) + i64::from(n) > MOST_PERMITS {
                Word::Refused(Fault::TooManyPermits)
            } else {
                Word::Gave
            }
        }
        Object::Latch(_) => Word::Counted,
    }
}

/// Returns all exclusive holds of a seat of a lock. A seat that has any is the owner.
fn exclusive_holds<T: ObjectState>(state: &T, seat: u16) -> u32
    requires seat { HasSeat T.stands state.now seat }
    requires lock { (s : Start) (h : List Entry) → T.stands s h state.now
        → is_lock s.header.object ≡ true }
    ensures held { (s : Start) (h : List Entry) → T.stands s h state.now → result ≡ held s h seat X }
    ensures owns { (s : Start) (h : List Entry) → T.stands s h state.now
        → is_seat (owner (counts s h)) seat ≡ nat_lt 0 result }
{
    let _header = state.header();
    state.held(seat, Mode::X) as u32
}

/// Returns the entry of an await. Only the owner may await, and only without read holds. It gives up all its
/// exclusive holds.
fn awaits<T: ObjectState>(state: &T, seat: u16, condition: u8) -> Entry
    requires seat { HasSeat T.stands state.now seat }
    requires lock { (s : Start) (h : List Entry) → T.stands s h state.now
        → is_lock s.header.object ≡ true }
    ensures { (s : Start) (h : List Entry) → T.stands s h state.now
        → result ≡ awaits (counts s h) seat condition }
{
    let holds = exclusive_holds(state, seat);
    if holds == 0 {
        plain(seat, Word::Refused(Fault::NotOwner), Mode::X, 1)
    } else if state.held(seat, Mode::S) > 0 {
        plain(seat, Word::Refused(Fault::HoldsRead), Mode::X, 1)
    } else {
        Entry {
            seat,
            word: Word::Await,
            mode: Mode::X,
            n: holds,
            at: condition,
            end: End::None,
        }
    }
}

/// Returns the entry of a signal. Only the owner may signal. The entry has the number of waiters that it
/// moves.
fn signals<T: ObjectState>(state: &T, seat: u16, word: Word, moved: u16, condition: u8) -> Entry
    requires seat { HasSeat T.stands state.now seat }
    requires lock { (s : Start) (h : List Entry) → T.stands s h state.now
        → is_lock s.header.object ≡ true }
    ensures { (s : Start) (h : List Entry) → T.stands s h state.now
        → result ≡ signals (counts s h) word moved seat condition }
{
    if exclusive_holds(state, seat) == 0 {
        return plain(seat, Word::Refused(Fault::NotOwner), Mode::X, 1);
    }
    Entry {
        seat,
        word,
        mode: Mode::X,
        n: u32::from(moved),
        at: condition,
        end: End::None,
    }
}

/// Returns the entry that a step of an idle seat makes.
#[inline(always)]
fn idle_entry<T: ObjectState>(state: &T, seat: u16, step: Step) -> Entry
    requires seat { HasSeat T.stands state.now seat }
    requires admitted { (s : Start) (h : List Entry) → T.stands s h state.now
        → refused_as s.header step ≡ None }
    requires idle { waits step ≡ false }
    ensures { (s : Start) (h : List Entry) → T.stands s h state.now → result ≡ idle_entry s h seat step }
{
    match step {
        Step::Acquire(mode, n) => plain(seat, acquired(state, seat, mode, n), mode, n),
        Step::Try(mode, n) => plain(seat, tried(state, seat, mode, n), mode, n),
        Step::TryFair(mode, n) => plain(seat, tried_fairly(state, seat, mode, n), mode, n),
        Step::EntryInterrupt(mode, n) => plain(seat, Word::Refused(Fault::Interrupted), mode, n),
        Step::Give(mode, n) => plain(seat, gave(state, seat, mode, n), mode, n),
        Step::Await(condition) => awaits(state, seat, condition),
        Step::Signal(condition) => {
            let moved = state.waiters(condition).min(1);
            signals(state, seat, Word::Signal, moved, condition)
        }
        Step::SignalAll(condition) => {
            signals(
                state,
                seat,
                Word::SignalAll,
                state.waiters(condition),
                condition,
            )
        }
        Step::Drain => {
            let permits = free_permits(state).max(0);
            plain(seat, Word::Drained, Mode::S, permits as u32)
        }
        Step::Look | Step::Expire | Step::Interrupt => unreachable!(),
    }
}

/// Returns the entry that a step of a waiter in the queue makes, or `None` for sleep.
fn line_entry<T: ObjectState>(state: &T, seat: u16, arrival: Arrival, step: Step) -> Option<Entry>
    requires seat { HasSeat T.stands state.now seat }
    requires stands { (s : Start) (h : List Entry) → T.stands s h state.now
        → place_of seat (line s h) ≡ Some arrival }
    ensures { (s : Start) (h : List Entry) → T.stands s h state.now
        → result ≡ line_entry s h (is_seat (ready s h) seat) seat arrival step }
{
    let goes = is_ready(state, seat);
    if !arrival.back {
        queued_entry(goes, seat, arrival, step)
    } else if goes {
        Some(back(seat, state.last_sleep(seat)))
    } else {
        None
    }
}

/// Returns the entry of a step that the object has, by the phase of its seat: in the queue, asleep or idle.
#[inline(always)]
fn entry_in_phase<T: ObjectState>(state: &T, seat: u16, step: Step) -> Result<Option<Entry>, Fault>
    requires seat { HasSeat T.stands state.now seat }
    requires admitted { (s : Start) (h : List Entry) → T.stands s h state.now
        → refused_as s.header step ≡ None }
    ensures { (s : Start) (h : List Entry) → T.stands s h state.now
        → result ≡ in_phase s h seat step (phase s h seat) }
{
    match state.place_of(seat) {
        Some(arrival) => {
            if waits(step) {
                Ok(line_entry(state, seat, arrival, step))
            } else {
                Err(Fault::OutOfPhase)
            }
        }
        None => {
            let sleeps = state.sleeps(seat);
            if sleeps != waits(step) {
                Err(Fault::OutOfPhase)
            } else if sleeps {
                Ok(sleeping_entry(seat, state.last_sleep(seat), step))
            } else {
                Ok(Some(idle_entry(state, seat, step)))
            }
        }
    }
}

/// Returns the one entry that a step of the seat makes next. `None` is sleep, and a fault is one that isn't
/// recorded.
#[inline(always)]
pub fn entry_for<T: ObjectState>(state: &T, seat: u16, step: Step) -> Result<Option<Entry>, Fault>
    requires { HasSeat T.stands state.now seat }
    ensures { (s : Start) (h : List Entry) → T.stands s h state.now → result ≡ entry_for s h seat step }
{
    match refused_as(state.header(), step) {
        Some(fault) => Err(fault),
        None => entry_in_phase(state, seat, step),
    }
}
