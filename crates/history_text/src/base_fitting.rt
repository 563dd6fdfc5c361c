//! Which bases are good, and which are those of an opening.

ghost use Rattle.std.specs.Prelude.{◌≡◌, ◌≤◌, ◌↔◌, [], ◌∷◌, All, IsTrue, length, map};
ghost use Rattle.history_text.specs.Below.{nothing, opening_base, IsGood, IsInRange};
ghost use Rattle.history_text.specs.inner.BaseFollowing.{
  AllFollow,
  HasShape,
  HaveFollowed,
  IsCountedFor,
  IsUnused,
};
ghost use Rattle.history_text.specs.BaseLines.{base_lines, seat_lines, sleeper_lines};
ghost use Rattle.history_text.specs.BaseRules.{no_sums};
ghost use Rattle.history_text.specs.declared.base_line.BaseLine.TheVariants.{Stands, Sleeps};

use crate::base_line::BaseLine;
use crate::base_so_far::BaseSoFar;
use crate::base_writing::first_line;
use history::base::{Base, LinePlace, Sleeper, opening_count};
use history::header::Object;

/// Returns whether the base is that of its object as it is opened.
pub(crate) fn is_opening(base: &Base) -> bool
    ensures { IsTrue result ↔ (base.now ≡ opening_base base.now.header) }
{
    is_unused(base)
}

fn is_unused(base: &Base) -> bool
    ensures { IsTrue result ↔ IsUnused base.now }
{
    base.entries == 0
        && base.unheld == 0
        && base.count == opening_count(base.header.object)
        && base.line.is_empty()
        && no_seat_has(base)
        && nobody_sleeps(base)
}

fn no_seat_has(base: &Base) -> bool
    ensures { IsTrue result ↔ ((length base.now.seats ≡ base.now.header.seats)
        × All (λ has. has ≡ nothing) base.now.seats) }
{
    base.seats.len() == base.header.seats as usize
        && base.seats.iter().all(|has| has.calls == 0 && has.exclusive == 0 && has.shared == 0)
}

fn nobody_sleeps(base: &Base) -> bool
    ensures { IsTrue result ↔ ((length base.now.sleepers ≡ base.now.header.conditions)
        × All (λ list. list ≡ []) base.now.sleepers) }
{
    base.sleepers.len() == base.header.conditions as usize && all_empty(&base.sleepers)
}

fn all_empty(lists: &[Vec<Sleeper>]) -> bool
    ensures { IsTrue result ↔ All (λ list. list.items ≡ []) lists.now }
{
    lists.iter().all(|list| list.is_empty())
}

/// Returns whether the base is a good one with folded entries.
pub(crate) fn is_good(base: &Base) -> bool
    requires { IsInRange base.now.header }
    ensures { IsTrue result ↔ ((1 ≤ base.now.entries) × IsGood base.now) }
{
    has_shape(base) && follows(base)
}

fn has_shape(base: &Base) -> bool
    ensures { IsTrue result ↔ HasShape base.now }
{
    base.seats.len() == base.header.seats as usize
        && base.sleepers.len() == base.header.conditions as usize
        && is_counted_for(base)
}

fn is_counted_for(base: &Base) -> bool
    ensures { IsTrue result ↔ IsCountedFor base.now.header.object base.now }
{
    match base.header.object {
        Object::Lock(_) | Object::ReadWrite(_) => base.unheld == 0 && base.count == 0,
        Object::Semaphore(_, _) => base.count == 0,
        Object::Latch(_) => base.unheld == 0,
    }
}

/// Returns whether each line of the base may follow those before it.
fn follows(base: &Base) -> bool
    requires range { IsInRange base.now.header }
    requires shape { HasShape base.now }
    ensures { IsTrue result ↔ AllFollow base.now no_sums (base_lines base.now) }
{
    let mut so_far = BaseSoFar::new();
    if !follow(&mut so_far, base, &first_line(base)) {
        return false;
    }
    if !follow_seats(&mut so_far, base) {
        return false;
    }
    if !follow_standings(&mut so_far, base, &base.line) {
        return false;
    }
    follow_sleepers(&mut so_far, base)
}

/// Takes a line, if it may follow.
fn follow(so_far: &mut BaseSoFar, base: &Base, line: &BaseLine) -> bool
    requires { IsInRange base.now.header }
    ensures { HaveFollowed result base.now so_far.old so_far.new (line.now ∷ []) }
{
    if !so_far.allows(base, line) {
        return false;
    }
    so_far.pass(base, line);
    true
}

fn follow_seats(so_far: &mut BaseSoFar, base: &Base) -> bool
    requires range { IsInRange base.now.header }
    requires shape { HasShape base.now }
    ensures { HaveFollowed result base.now so_far.old so_far.new (seat_lines 0 base.now.seats) }
{
    for seat in 0..base.header.seats {
        if !follow(
            so_far,
            base,
            &BaseLine::Seat(seat, base.seats[seat as usize]),
        ) {
            return false;
        }
    }
    true
}

fn follow_standings(so_far: &mut BaseSoFar, base: &Base, line: &[LinePlace]) -> bool
    requires { IsInRange base.now.header }
    ensures { HaveFollowed result base.now so_far.old so_far.new (map Stands line.now) }
{
    for standing in line {
        if !follow(so_far, base, &BaseLine::Stands(*standing)) {
            return false;
        }
    }
    true
}

fn follow_sleepers(so_far: &mut BaseSoFar, base: &Base) -> bool
    requires range { IsInRange base.now.header }
    requires shape { HasShape base.now }
    ensures { HaveFollowed result base.now so_far.old so_far.new (sleeper_lines 0 base.now.sleepers) }
{
    for condition in 0..base.header.conditions {
        if !follow_asleep(so_far, base, condition, base.sleepers_of(condition)) {
            return false;
        }
    }
    true
}

fn follow_asleep(so_far: &mut BaseSoFar, base: &Base, condition: u8, list: &[Sleeper]) -> bool
    requires { IsInRange base.now.header }
    ensures { HaveFollowed result base.now so_far.old so_far.new (map (Sleeps condition) list.now) }
{
    for sleeper in list {
        if !follow(so_far, base, &BaseLine::Sleeps(condition, *sleeper)) {
            return false;
        }
    }
    true
}
