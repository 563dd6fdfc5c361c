//! Why a step makes what it makes.

ghost use Rattle.std.specs.Prelude.{◌≡◌, List};
ghost use Rattle.explaining.specs.Below.{counts, first_mode, first_of, line, place_of, Start, Entry, HasSeat};
ghost use Rattle.explaining.specs.Why.{blocks, failed_why, made_why, took_why, waits_why, why_of};

use deciding::checks::is_lock;
use deciding::situation::ObjectState;
use history::entry::{Entry, Mode, Word};
use history::step::Step;

/// The case that decides what a step makes.
#[derive(Clone, Copy, Debug, PartialEq, Eq)]
pub enum Why {
    /// The queue holds the call back. This seat is its head.
    HeldBack(u16),
    /// Nothing holds the call back, and its seat could not acquire.
    CouldNot,
    /// The seat has holds already, and could acquire.
    Again,
    /// The seat could acquire.
    Could,
    /// The seat is the head of the queue, and could acquire what it waits for.
    First,
    /// Another seat, this one, is the head of the queue.
    Behind(u16),
    /// The seat is the head of the queue, and could not acquire what it waits for.
    Cannot,
    /// The seat waits on a condition.
    Asleep,
    /// The entry's word tells it.
    Plain,
}

/// Returns why a call acquired.
fn took_why<T: ObjectState>(state: &T, seat: u16, mode: Mode) -> Why
    requires { HasSeat T.stands state.now seat }
    ensures { (s : Start) (h : List Entry) → T.stands s h state.now
        → result ≡ took_why (counts s h) seat mode }
{
    let has = state.held(seat, Mode::X) > 0 || state.held(seat, mode) > 0;
    if is_lock(state.header().object) && has {
        Why::Again
    } else {
        Why::Could
    }
}

/// Returns whether the queue holds back a step that asks for this mode.
fn blocks<T: ObjectState>(state: &T, seat: u16, mode: Mode, step: Step) -> bool
    requires { HasSeat T.stands state.now seat }
    ensures { (s : Start) (h : List Entry) → T.stands s h state.now
        → result ≡ blocks (counts s h) (first_mode s h) seat mode step }
{
    match step {
        Step::Try(_, _) => state.is_strict() && state.holds_back(seat, mode),
        _ => state.holds_back(seat, mode),
    }
}

/// Returns why a call did not acquire.
fn failed_why<T: ObjectState>(state: &T, seat: u16, mode: Mode, step: Step) -> Why
    requires { HasSeat T.stands state.now seat }
    ensures { (s : Start) (h : List Entry) → T.stands s h state.now
        → result ≡ failed_why (blocks (counts s h) (first_mode s h) seat mode step) (first_of (line s h)) seat }
{
    if blocks(state, seat, mode, step) {
        match state.first() {
            Some(first) => Why::HeldBack(first.seat),
            None => Why::HeldBack(seat),
        }
    } else {
        Why::CouldNot
    }
}

/// Returns why a waiter waits on.
fn waits_why<T: ObjectState>(state: &T, seat: u16) -> Why
    ensures { (s : Start) (h : List Entry) → T.stands s h state.now
        → result ≡ waits_why (place_of seat (line s h)) (first_of (line s h)) seat }
{
    match state.place_of(seat) {
        None => Why::Asleep,
        Some(_) => match state.first() {
            None => Why::Asleep,
            Some(first) => if first.seat == seat {
                Why::Cannot
            } else {
                Why::Behind(first.seat)
            },
        },
    }
}

/// Returns why a step makes this entry.
fn made_why<T: ObjectState>(state: &T, seat: u16, step: Step, entry: Entry) -> Why
    requires { HasSeat T.stands state.now seat }
    ensures { (s : Start) (h : List Entry) → T.stands s h state.now
        → result ≡ made_why s h seat step entry entry.word }
{
    match entry.word {
        Word::Got | Word::TryGot => took_why(state, seat, entry.mode),
        Word::Queued | Word::Missed => failed_why(state, seat, entry.mode, step),
        Word::Granted | Word::Back => Why::First,
        Word::Left
        | Word::Gave
        | Word::Refused(_)
        | Word::Await
        | Word::Lapse
        | Word::Signal
        | Word::SignalAll
        | Word::Counted
        | Word::Drained => Why::Plain,
    }
}

/// Returns why a step makes this entry, or none.
pub(crate) fn why_of<T: ObjectState>(state: &T, seat: u16, step: Step, made: Option<Entry>) -> Why
    requires { HasSeat T.stands state.now seat }
    ensures { (s : Start) (h : List Entry) → T.stands s h state.now
        → result ≡ why_of s h seat step made }
{
    match made {
        Some(entry) => made_why(state, seat, step, entry),
        None => waits_why(state, seat),
    }
}
