//! The base that the fields of a core come to. No entry is looked at.

ghost use Rattle.std.specs.Prelude.{◌≡◌, ◌<◌, ◌≤◌, ◌+◌, ◌^◌, ℕ, true, pos, ◌+ℤ◌, List, length, map, All, slice_index_or, vec_capacity};
ghost use Rattle.frame.specs.Below.{asleep_on, each_below, folded, has, Entry};
ghost use Rattle.frame.specs.Seat.{no_holds};
ghost use Rattle.frame.specs.inner.Snapshot.{IsKept, IsUnheldBy, in_base, seat_in, sleeper_in, with_sleep};

use crate::seat::Seat;
use acquire_queue::queue::Queue;
use condition_queue::waiters::Waiters;
use deciding::balance::Balance;
use history::base::{Base, LinePlace, SeatBase, Sleeper};
use history::header::Object;

/// Folds `count` entries into a base, from the state after them: the totals, the queue, the conditions'
/// waiters and the table of seats. It takes the time of the seats and the conditions, and allocates nothing.
pub(crate) fn write_base(
    base: &mut Base,
    count: u64,
    totals: &Balance,
    queue: &Queue,
    waiters: &Waiters,
    seats: &[Seat],
)
    requires { (h : List Entry)
        × IsKept base.old h count totals.now queue.now waiters.now seats.now }
    ensures { (h : List Entry) → IsKept base.old h count totals.now queue.now waiters.now seats.now
        → base.new ≡ folded base.old h }
{
    let header = base.header;
    base.entries += u128::from(count);
    base.unheld = unheld_after(header.object, base.unheld, totals);
    base.count = totals.count;
    write_seats(&mut base.seats, seats);
    queue.write_line(&mut base.line);
    save_sleeps(&mut base.line, seats);
    write_sleepers(&mut base.sleepers, header.conditions, waiters, seats);
}

/// Returns the permits that were released unheld, by what is held and free.
fn unheld_after(object: Object, unheld: u128, totals: &Balance) -> u128
    requires few { totals.now.shared < 2 ^ 126 }
    requires some { (n : ℕ) × IsUnheldBy object unheld totals.now n }
    ensures { (n : ℕ) → IsUnheldBy object unheld totals.now n → result ≡ n }
{
    match object {
        Object::Semaphore(_, permits) => released(permits, totals.shared, totals.available),
        Object::Lock(_) | Object::ReadWrite(_) | Object::Latch(_) => unheld,
    }
}

/// Returns the permits that were released unheld: those held and free, less those created.
fn released(created: i32, held: u128, free: i64) -> u128
    requires few { held < 2 ^ 126 }
    requires some { (n : ℕ) × (pos held +ℤ free ≡ created +ℤ pos n) }
    ensures { (n : ℕ) → pos held +ℤ free ≡ created +ℤ pos n → result ≡ n }
{
    (held as i128 + i128::from(free) - i128::from(created)) as u128
}

/// Replaces a base's table of seats.
fn write_seats(table: &mut Vec<SeatBase>, seats: &[Seat])
    requires { length seats.now ≤ vec_capacity table.old }
    ensures { table.new.items ≡ map in_base seats.now }
{
    table.clear();
    for seat in seats {
        table.push_reserved(in_base(*seat));
    }
}

/// Returns what a base has of a seat.
fn in_base(seat: Seat) -> SeatBase
    ensures { result ≡ in_base seat }
{
    SeatBase {
        calls: seat.calls,
        exclusive: seat.exclusive,
        shared: seat.shared,
    }
}

/// Gives each waiter in the queue that comes back from a condition its sleep there.
fn save_sleeps(line: &mut Vec<LinePlace>, seats: &[Seat])
    ensures items { line.new.items ≡ map (with_sleep seats.now) line.old.items }
    ensures capacity { vec_capacity line.new ≡ vec_capacity line.old }
{
    for place in 0..line.len() {
        let standing = with_sleep(line[place], seats);
        line[place] = standing;
    }
}

/// Returns a place in the queue with its sleep, if it comes back from one.
fn with_sleep(place: LinePlace, seats: &[Seat]) -> LinePlace
    ensures { result ≡ with_sleep seats.now place }
{
    if !place.who.back {
        return place;
    }
    let sleep = seat_in(seats, place.who.seat).sleep;
    LinePlace {
        who: place.who,
        condition: sleep.condition,
        holds: sleep.holds,
        how: sleep.how,
    }
}

/// Returns the record of a seat in a table.
fn seat_in(seats: &[Seat], seat: u16) -> Seat
    ensures { result ≡ seat_in seats.now seat }
{
    match seats.get(seat as usize) {
        Some(kept) => *kept,
        None => Seat::free(),
    }
}

/// Replaces the lists of the conditions.
fn write_sleepers(lists: &mut Vec<Vec<Sleeper>>, conditions: u8, waiters: &Waiters, seats: &[Seat])
    requires conditions { conditions ≡ waiters.now.conditions }
    requires lists { length lists.old.items ≡ conditions }
    requires places { (n : ℕ) × All (λ list. vec_capacity list ≡ n) lists.old.items
        × ((c i : ℕ) → has i (asleep_on waiters.now c) ≡ true → i < n) }
    ensures items { map (λ list. list.items) lists.new.items
        ≡ each_below conditions (λ c. map (sleeper_in seats.now) (asleep_on waiters.now c)) }
    ensures places { (n : ℕ) → All (λ list. vec_capacity list ≡ n) lists.old.items →
        All (λ list. vec_capacity list ≡ n) lists.new.items }
{
    for condition in 0..conditions {
        write_asleep(&mut lists[condition as usize], condition, waiters, seats);
    }
}

/// Replaces the list of a condition.
fn write_asleep(list: &mut Vec<Sleeper>, condition: u8, waiters: &Waiters, seats: &[Seat])
    requires condition { condition < waiters.now.conditions }
    requires places { (i : ℕ) → has i (asleep_on waiters.now condition) ≡ true → i < vec_capacity list.old }
    ensures items { list.new.items ≡ map (sleeper_in seats.now) (asleep_on waiters.now condition) }
    ensures capacity { vec_capacity list.new ≡ vec_capacity list.old }
{
    list.clear();
    let mut next = waiters.first_on(condition);
    for _ in 0..waiters.len(condition) {
        match next {
            Some(seat) => {
                list.push_reserved(sleeper_in(seats, seat));
                next = waiters.behind(seat);
            }
            None => return,
        }
    }
}

/// Returns a waiter of a condition with the holds that it gave up.
fn sleeper_in(seats: &[Seat], seat: u16) -> Sleeper
    ensures { result ≡ sleeper_in seats.now seat }
{
    Sleeper {
        seat,
        holds: seat_in(seats, seat).sleep.holds,
    }
}
