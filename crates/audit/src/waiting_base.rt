//! Taking over the waiters of a base.

ghost use Rattle.std.specs.Prelude.{◌≡◌, ◌<◌, ◌≤◌, ◌==◌, ℕ, List, [], length, map, true, false, None, slice_index_or, if◌then◌else◌};
ghost use Rattle.std.specs.List.{AllByRecursion};
ghost use Rattle.audit.specs.Below.{Line, asleep_on, sleeper_of, sleep_of, sleep_below, sleep_in_line, sleep_on, sleepers_of, has, seats_of, times};
ghost use Rattle.audit.specs.Waiting.{never_slept};
ghost use Rattle.audit.specs.inner.Waiting.{AreAwake, AreSleepers, or_kept};
ghost use Rattle.history.specs.inner.BaseSleepers.{sleeping_seats};

use acquire_queue::queue::Queue;
use condition_queue::waiters::Waiters;
use deciding::sleep::LastSleep;
use history::base::{Base, LinePlace, Sleeper};
use history::entry::End;

/// Puts these waiters into an empty queue, in their order.
pub(crate) fn stand_in(line: &mut Queue, standing: &[LinePlace])
    requires empty { line.old.arrivals ≡ [] }
    requires joined { line.old.joined ≡ 0 }
    requires seats { AllByRecursion (λ p. p.who.seat < line.old.seats) standing.now }
    requires once { (i : ℕ) → times i (seats_of (map (λ p. p.who) standing.now)) ≤ 1 }
    requires few { length standing.now ≤ 65536 }
    ensures line { line.new.arrivals ≡ map (λ p. p.who) standing.now }
    ensures joined { line.new.joined ≡ length standing.now }
    ensures seats { line.new.seats ≡ line.old.seats }
{
    for place in 0..standing.len() {
        line.join(standing[place].who);
    }
}

/// Adds the waiters of all conditions, which have none yet.
pub(crate) fn lay_down(asleep: &mut Waiters, base: &Base)
    requires empty { (c : ℕ) → asleep_on asleep.old c ≡ [] }
    requires awake { (i : ℕ) → sleeper_of asleep.old i ≡ None }
    requires conditions { asleep.old.conditions ≡ base.now.header.conditions }
    requires sleepers { AreSleepers asleep.old.seats base.now }
    ensures lists { (c : ℕ) → c < base.now.header.conditions →
        asleep_on asleep.new c ≡ sleeping_seats base.now c }
    ensures above { (c : ℕ) → base.now.header.conditions ≤ c → asleep_on asleep.new c ≡ [] }
    ensures conditions { asleep.new.conditions ≡ asleep.old.conditions }
    ensures seats { asleep.new.seats ≡ asleep.old.seats }
{
    for condition in 0..base.header.conditions {
        lay_on(asleep, condition, base.sleepers_of(condition));
    }
}

/// Adds these waiters to a condition that has none yet, in their order.
fn lay_on(asleep: &mut Waiters, condition: u8, sleepers: &[Sleeper])
    requires condition { condition < asleep.old.conditions }
    requires empty { asleep_on asleep.old condition ≡ [] }
    requires seats { AllByRecursion (λ x. x.seat < asleep.old.seats) sleepers.now }
    requires once { (i : ℕ) → times i (map (λ x. x.seat) sleepers.now) ≤ 1 }
    requires awake { AreAwake (map (λ x. x.seat) sleepers.now) asleep.old }
    ensures lists { (c : ℕ) → asleep_on asleep.new c
        ≡ (if condition == c then map (λ x. x.seat) sleepers.now else asleep_on asleep.old c) }
    ensures others { (i : ℕ) → has i (map (λ x. x.seat) sleepers.now) ≡ false →
        sleeper_of asleep.new i ≡ sleeper_of asleep.old i }
    ensures conditions { asleep.new.conditions ≡ asleep.old.conditions }
    ensures seats { asleep.new.seats ≡ asleep.old.seats }
{
    for sleeper in sleepers {
        asleep.join(condition, sleeper.seat, sleeper.holds);
    }
}

/// Keeps the sleeps of the waiters of a base's conditions, as a signal will end them.
pub(crate) fn save_sleepers(last_sleep: &mut Vec<LastSleep>, base: &Base)
    requires { (c : ℕ) → AllByRecursion (λ x. x.seat < length last_sleep.old.items) (sleepers_of base.now c) }
    ensures seats { length last_sleep.new.items ≡ length last_sleep.old.items }
    ensures slept { (i : ℕ) → sleep_of (slice_index_or last_sleep.new.items i never_slept)
        ≡ or_kept (sleep_below base.now.header.conditions base.now i)
        (sleep_of (slice_index_or last_sleep.old.items i never_slept)) }
{
    for condition in 0..base.header.conditions {
        save_on(last_sleep, condition, base.sleepers_of(condition));
    }
}

/// Keeps the sleeps of the waiters of a condition.
fn save_on(last_sleep: &mut Vec<LastSleep>, condition: u8, sleepers: &[Sleeper])
    requires { AllByRecursion (λ x. x.seat < length last_sleep.old.items) sleepers.now }
    ensures seats { length last_sleep.new.items ≡ length last_sleep.old.items }
    ensures slept { (i : ℕ) → sleep_of (slice_index_or last_sleep.new.items i never_slept)
        ≡ or_kept (sleep_on condition i sleepers.now)
        (sleep_of (slice_index_or last_sleep.old.items i never_slept)) }
{
    // If a seat is there twice its first sleep counts, so it is written last.
    for place in (0..sleepers.len()).rev() {
        let sleeper = sleepers[place];
        last_sleep[sleeper.seat as usize] = LastSleep {
            condition,
            holds: sleeper.holds,
            how: End::Signalled,
        };
    }
}

/// Keeps the sleeps of the waiters in the queue that come back from a condition.
pub(crate) fn save_returning(last_sleep: &mut Vec<LastSleep>, line: &[LinePlace])
    requires { AllByRecursion (λ p. p.who.seat < length last_sleep.old.items) line.now }
    ensures seats { length last_sleep.new.items ≡ length last_sleep.old.items }
    ensures slept { (i : ℕ) → sleep_of (slice_index_or last_sleep.new.items i never_slept)
        ≡ or_kept (sleep_in_line i line.now)
        (sleep_of (slice_index_or last_sleep.old.items i never_slept)) }
{
    // If a seat is there twice its first sleep counts, so it is written last.
    for place in (0..line.len()).rev() {
        let standing = line[place];
        if standing.who.back {
            last_sleep[standing.who.seat as usize] = LastSleep {
                condition: standing.condition,
                holds: standing.holds,
                how: standing.how,
            };
        }
    }
}
