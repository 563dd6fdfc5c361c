//! What one entry changes in each part of a base.

ghost use Rattle.std.specs.Prelude.{◌≡◌, ℕ, ◌+◌, ◌<◌, ◌≤◌, ◌^◌, [], ◌∷◌, ◌++◌, length, map, drop, filter, get_or, set, All, if◌then◌else◌, vec_len, vec_capacity};
ghost use Rattle.history.specs.declared.entry.Word.TheVariants.{Await, Lapse, Queued};
ghost use Rattle.history.specs.Base.{holds_of, or_awake, sleep_on};
ghost use Rattle.history.specs.Counts.{beyond};
ghost use Rattle.history.specs.Entry.{ends_arrival};
ghost use Rattle.history.specs.NextBase.{count_then, joins_from, seat_then, signalled_on, sleepers_then, stays_there};
ghost use Rattle.history.specs.Object.{is_semaphore};

use crate::arrival::{Arrival, coming_back};
use crate::base::{LinePlace, SeatBase, Sleeper};
use crate::entries::ends_call;
use crate::entry::{End, Entry, Mode, Word};
use crate::header::Object;
use crate::holds::holds_after;

/// Returns the calls and holds of the entry's seat after the entry.
pub(crate) fn seat_then(object: Object, entry: Entry, has: SeatBase) -> SeatBase
    requires calls { has.calls + 1 < 2 ^ 64 }
    requires exclusive { (seat_then object entry has).exclusive < 2 ^ 32 }
    requires shared { (seat_then object entry has).shared < 2 ^ 128 }
    ensures { result ≡ seat_then object entry has }
{
    let calls = has.calls + u64::from(ends_call(entry.word));
    let mut then = SeatBase { calls, ..has };
    match entry.mode {
        Mode::X => then.exclusive = holds_after(object, entry, u128::from(has.exclusive)) as u32,
        Mode::S => then.shared = holds_after(object, entry, has.shared),
    }
    then
}

/// Returns how much a seat holds in a mode.
pub fn holds_of(has: SeatBase, mode: Mode) -> u128
    ensures { result ≡ holds_of has mode }
{
    match mode {
        Mode::X => u128::from(has.exclusive),
        Mode::S => has.shared,
    }
}

/// Returns how many permits the entry releases beyond those that its seat held.
pub(crate) fn beyond(object: Object, entry: Entry, has: SeatBase) -> u128
    ensures { result
        ≡ (if is_semaphore object then beyond entry.word entry.n (holds_of has entry.mode) else 0) }
{
    match (object, entry.word) {
        (Object::Semaphore(_, _permits), Word::Gave) => {
            u128::from(entry.n).saturating_sub(holds_of(has, entry.mode))
        }
        _ => 0,
    }
}

/// Returns the count of a latch after an entry with this word.
pub(crate) fn count_then(word: Word, count: u32) -> u32
    ensures { result ≡ count_then word count }
{
    match word {
        Word::Counted => count.saturating_sub(1),
        _ => count,
    }
}

/// Returns whether an entry with this word takes its seat out of the queue.
fn ends_arrival(word: Word) -> bool
    ensures { result ≡ ends_arrival word }
{
    matches!(word, Word::Granted | Word::Left | Word::Back)
}

/// Takes the entry's seat out of the queue, if the entry ends its wait there.
pub(crate) fn leave_line(line: &mut Vec<LinePlace>, entry: Entry)
    ensures items { line.new.items ≡ filter (stays_there entry) line.old.items }
    ensures capacity { vec_capacity line.new ≡ vec_capacity line.old }
{
    let leaves = ends_arrival(entry.word);
    line.retain(|standing| !(leaves && entry.seat == standing.who.seat));
}

/// Appends the waiters that the entry adds to the queue. `asleep` are the waiters of its condition.
pub(crate) fn join_line(line: &mut Vec<LinePlace>, asleep: &[Sleeper], entry: Entry)
    requires { length (line.old.items ++ joins_from entry.word entry asleep.now) ≤ vec_capacity line.old }
    ensures items { line.new.items ≡ line.old.items ++ joins_from entry.word entry asleep.now }
    ensures capacity { vec_capacity line.new ≡ vec_capacity line.old }
{
    match entry.word {
        Word::Queued => line.push_reserved(queued(entry)),
        Word::Lapse => line.push_reserved(lapsed(entry, asleep)),
        Word::Signal => {
            let woken = asleep.len().min(entry.n as usize);
            stand_signalled(line, entry.at, &asleep[..woken]);
        }
        Word::SignalAll => stand_signalled(line, entry.at, asleep),
        _ => {}
    }
}

/// Returns the waiter that a `Queued` entry adds.
fn queued(entry: Entry) -> LinePlace
    ensures { result ∷ [] ≡ joins_from Queued entry [] }
{
    LinePlace {
        who: Arrival {
            seat: entry.seat,
            mode: entry.mode,
            n: entry.n,
            back: false,
        },
        condition: 0,
        holds: 0,
        how: End::None,
    }
}

/// Returns the waiter that a `Lapse` entry adds: its wait on the condition ended by a timeout or an
/// interrupt.
fn lapsed(entry: Entry, asleep: &[Sleeper]) -> LinePlace
    ensures { result ∷ [] ≡ joins_from Lapse entry asleep.now }
{
    LinePlace {
        who: coming_back(entry.seat),
        condition: entry.at,
        holds: gave_up(asleep, entry.seat),
        how: entry.end,
    }
}

/// Returns the holds that a seat gave up to wait on the condition.
fn gave_up(asleep: &[Sleeper], seat: u16) -> u32
    ensures { (c : ℕ) → result ≡ (or_awake (sleep_on c seat asleep.now)).holds }
{
    for sleeper in asleep {
        if sleeper.seat == seat {
            return sleeper.holds;
        }
    }
    0
}

/// Appends these waiters of a condition to the queue, in their order.
fn stand_signalled(line: &mut Vec<LinePlace>, condition: u8, woken: &[Sleeper])
    requires { vec_len line.old + length woken.now ≤ vec_capacity line.old }
    ensures items { line.new.items ≡ line.old.items ++ map (signalled_on condition) woken.now }
    ensures capacity { vec_capacity line.new ≡ vec_capacity line.old }
{
    for sleeper in woken {
        line.push_reserved(LinePlace {
            who: coming_back(sleeper.seat),
            condition,
            holds: sleeper.holds,
            how: End::Signalled,
        });
    }
}

/// Returns the waiters of a condition; none if the object lacks the condition.
pub(crate) fn sleepers_on(sleepers: &[Vec<Sleeper>], condition: u8) -> &[Sleeper]
    ensures { result.now ≡ get_or (map (λ list. list.items) sleepers.now) condition [] }
{
    match sleepers.get(condition as usize) {
        Some(list) => list,
        None => &[],
    }
}

/// Updates the lists of the conditions for one entry.
pub(crate) fn follow_sleepers(sleepers: &mut Vec<Vec<Sleeper>>, entry: Entry)
    // If the entry adds a waiter, each list has more places than the condition has waiters.
    requires { entry.word ≡ Await → (n : ℕ)
        × (length (get_or (map (λ list. list.items) sleepers.old.items) entry.at []) < n)
        × All (λ list. vec_capacity list ≡ n) sleepers.old.items }
    ensures items { map (λ list. list.items) sleepers.new.items
        ≡ set (map (λ list. list.items) sleepers.old.items) entry.at
        (sleepers_then entry.word entry (get_or (map (λ list. list.items) sleepers.old.items) entry.at [])) }
    ensures places { (n : ℕ) → All (λ list. vec_capacity list ≡ n) sleepers.old.items →
        All (λ list. vec_capacity list ≡ n) sleepers.new.items }
{
    let at = entry.at as usize;
    if at < sleepers.len() {
        follow_asleep(&mut sleepers[at], entry);
    }
}

/// Updates the list of the entry's condition.
fn follow_asleep(asleep: &mut Vec<Sleeper>, entry: Entry)
    requires { entry.word ≡ Await → vec_len asleep.old < vec_capacity asleep.old }
    ensures items { asleep.new.items ≡ sleepers_then entry.word entry asleep.old.items }
    ensures capacity { vec_capacity asleep.new ≡ vec_capacity asleep.old }
{
    match entry.word {
        Word::Await => asleep.push_reserved(Sleeper {
            seat: entry.seat,
            holds: entry.n,
        }),
        Word::Lapse => asleep.retain(|sleeper| sleeper.seat != entry.seat),
        Word::Signal => drop_front(asleep, entry.n as usize),
        Word::SignalAll => asleep.clear(),
        _ => {}
    }
}

/// Removes the first `most` waiters of a list, or all if there are fewer.
fn drop_front(asleep: &mut Vec<Sleeper>, most: usize)
    ensures items { asleep.new.items ≡ drop most asleep.old.items }
    ensures capacity { vec_capacity asleep.new ≡ vec_capacity asleep.old }
{
    for _ in 0..most.min(asleep.len()) {
        asleep.remove(0);
    }
}
