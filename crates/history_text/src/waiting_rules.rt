//! Who may wait on a base.

ghost use Rattle.std.specs.Prelude.{◌≡◌, ◌↔◌, true, false, IsTrue, neg_ℤ};
ghost use Rattle.history_text.specs.Below.{Mode, holds_of, seat_of, is_bad_number, lacks_mode, Asks, GaveUp, Returns, StandsWell, most_exclusive, at_least_none};

use deciding::checks::{is_lock, refused_as};
use history::base::{Base, LinePlace, SeatBase};
use history::entry::{End, Mode};
use history::header::{Header, Object};
use history::limits::{MOST_HOLDS, MOST_READ_WRITE_HOLDS};
use history::step::Step;

/// Returns the number, or 0 if it is negative.
pub(crate) fn above_none(permits: i32) -> u128
    ensures { result ≡ at_least_none permits }
{
    if permits < 0 { 0 } else { permits as u128 }
}

/// Returns how far the number is below 0, or 0 if it isn't.
pub(crate) fn below_none(permits: i32) -> u128
    ensures { result ≡ at_least_none (neg_ℤ permits) }
{
    if permits < 0 {
        (-i64::from(permits)) as u128
    } else {
        0
    }
}

/// Returns the calls and holds of a seat.
fn seat_of(base: &Base, seat: u16) -> SeatBase
    ensures { result ≡ seat_of base.now seat }
{
    match base.seats.get(seat as usize) {
        Some(has) => *has,
        None => SeatBase {
            calls: 0,
            exclusive: 0,
            shared: 0,
        },
    }
}

fn most_exclusive(object: Object) -> u32
    ensures { result ≡ most_exclusive object }
{
    match object {
        Object::Lock(_) => MOST_HOLDS,
        Object::ReadWrite(_) => MOST_READ_WRITE_HOLDS,
        Object::Semaphore(_, _) | Object::Latch(_) => 0,
    }
}

/// Returns whether the seat may have given up this number of holds to wait on the condition.
pub(crate) fn gave_up(base: &Base, seat: u16, condition: u8, holds: u32) -> bool
    ensures { IsTrue result ↔ GaveUp base.now seat condition holds }
{
    let object = base.header.object;
    let has = seat_of(base, seat);
    is_lock(object)
        && seat < base.header.seats
        && condition < base.header.conditions
        && 1 <= holds
        && holds <= most_exclusive(object)
        && holds_nothing(has)
}

fn holds_nothing(has: SeatBase) -> bool
    ensures { IsTrue result ↔ ((m : Mode) → holds_of has m ≡ 0) }
{
    has.exclusive == 0 && has.shared == 0
}

/// Returns whether the object has the mode and the amount of an acquire.
fn has_such(header: &Header, mode: Mode, n: u32) -> bool
    ensures { IsTrue result ↔ ((lacks_mode header.now.object mode ≡ false)
        × (is_bad_number header.now.object n ≡ false)) }
{
    refused_as(header, Step::Acquire(mode, n)).is_none()
}

/// Returns whether an acquire in the queue asks for what the object has, and comes back from no sleep.
fn asks(base: &Base, standing: &LinePlace) -> bool
    ensures { IsTrue result ↔ Asks base.now standing.now }
{
    let who = standing.who;
    who.seat < base.header.seats
        && has_such(&base.header, who.mode, who.n)
        && seat_of(base, who.seat).exclusive == 0
        && standing.condition == 0
        && standing.holds == 0
        && is_none(standing.how)
}

fn is_none(how: End) -> bool
    ensures { IsTrue result ↔ (how ≡ End.None) }
{
    matches!(how, End::None)
}

/// Returns whether a waiter that comes back from a condition gave up its holds, and its wait there has an
/// end.
fn returns(base: &Base, standing: &LinePlace) -> bool
    requires { standing.now.who.back ≡ true }
    ensures { IsTrue result ↔ Returns base.now standing.now }
{
    let who = standing.who;
    matches!(who.mode, Mode::X)
        && who.n == 1
        && gave_up(base, who.seat, standing.condition, standing.holds)
        && !is_none(standing.how)
}

/// Returns whether this waiter may be in the queue.
pub(crate) fn stands_well(base: &Base, standing: &LinePlace) -> bool
    ensures { IsTrue result ↔ StandsWell base.now standing.now }
{
    if standing.who.back {
        returns(base, standing)
    } else {
        asks(base, standing)
    }
}
