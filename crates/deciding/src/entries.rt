//! The entries that steps make.

ghost use Rattle.std.specs.Prelude.{◌≡◌, ℕ, List};
ghost use Rattle.deciding.specs.Below.{Entry, named_by, last_sleep, Start, plain, ended, queued_entry, sleeping_entry, back};
ghost use Rattle.deciding.specs.Sleep.{sleep_of};

use crate::sleep::LastSleep;
use history::arrival::Arrival;
use history::entry::{End, Entry, Mode, Word};
use history::step::Step;

/// Returns an entry that concerns no condition and ends no wait.
pub fn plain(seat: u16, word: Word, mode: Mode, n: u32) -> Entry
    ensures { result ≡ plain seat word mode n }
{
    Entry {
        seat,
        word,
        mode,
        n,
        at: 0,
        end: End::None,
    }
}

/// Returns the entry by which an acquire leaves the queue.
pub fn ended(seat: u16, word: Word, arrival: Arrival, end: End) -> Entry
    ensures { result ≡ ended seat word arrival end }
{
    Entry {
        seat,
        word,
        mode: arrival.mode,
        n: arrival.n,
        at: 0,
        end,
    }
}

/// Returns what a step of an acquire in the queue makes, by whether it may go. `None` is sleep.
pub fn queued_entry(goes: bool, seat: u16, arrival: Arrival, step: Step) -> Option<Entry>
    ensures { result ≡ queued_entry goes seat arrival step }
{
    match step {
        Step::Look => {
            if goes {
                Some(ended(seat, Word::Granted, arrival, End::None))
            } else {
                None
            }
        }
        Step::Expire => {
            if goes {
                Some(ended(seat, Word::Granted, arrival, End::None))
            } else {
                Some(ended(seat, Word::Left, arrival, End::Timeout))
            }
        }
        Step::Interrupt => Some(ended(seat, Word::Left, arrival, End::Interrupt)),
        _ => None,
    }
}

/// Returns the entry that ends an await: all holds that were given up are held again.
pub fn back(seat: u16, sleep: LastSleep) -> Entry
    ensures { (s : Start) (h : List Entry) → sleep_of sleep ≡ last_sleep s h seat → result ≡ back s h seat }
{
    Entry {
        seat,
        word: Word::Back,
        mode: Mode::X,
        n: sleep.holds,
        at: sleep.condition,
        end: sleep.how,
    }
}

/// Returns what a step of a seat on a condition makes. `None` is sleep.
pub fn sleeping_entry(seat: u16, sleep: LastSleep, step: Step) -> Option<Entry>
    ensures { (s : Start) (h : List Entry) → sleep_of sleep ≡ last_sleep s h seat
        → result ≡ sleeping_entry s h seat step }
{
    let end = match step {
        Step::Expire => End::Timeout,
        Step::Interrupt => End::Interrupt,
        _ => return None,
    };
    Some(Entry {
        seat,
        word: Word::Lapse,
        mode: Mode::X,
        n: 0,
        at: sleep.condition,
        end,
    })
}

/// Returns the waiter that an entry of `seat` names, from who was ready before it and who is ready after it.
pub fn named(before: Option<u16>, after: Option<u16>, seat: u16) -> Option<u16>
    ensures { result ≡ named_by before after seat }
{
    let Some(first) = after else {
        return None;
    };
    let was_ready = match before {
        None => false,
        Some(was) => was == first,
    };
    if first == seat || was_ready {
        None
    } else {
        Some(first)
    }
}
