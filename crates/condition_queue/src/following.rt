//! How an entry changes the wait queue and the conditions' lists.

ghost use Rattle.std.specs.Prelude.{◌≡◌, ◌≤◌, ◌+◌, ◌==◌, if◌then◌else◌, length, ℕ};
ghost use Rattle.history.specs.Sleepers.{sleepers_after};
ghost use Rattle.condition_queue.specs.Sleepers.{asleep_on, sleeper_of};
ghost use Rattle.condition_queue.specs.Following.{IsMovable, line_behind, sleeper_behind};

use crate::waiters::Waiters;
use acquire_queue::queue::Queue;
use deciding::arrivals::queued;
use history::arrival::coming_back;
use history::entry::{Entry, Word};

/// Updates the wait queue and the conditions' lists for one entry. It allocates nothing.
#[inline(always)]
pub fn move_waiters(queue: &mut Queue, waiters: &mut Waiters, entry: Entry)
    requires movable { IsMovable entry queue.old waiters.old }
    ensures line { queue.new.arrivals
        ≡ line_behind entry.word entry queue.old.arrivals (asleep_on waiters.old entry.at) }
    ensures sleepers { (c : ℕ) → asleep_on waiters.new c
        ≡ (if entry.at == c then sleepers_after entry.word entry.seat entry.n (asleep_on waiters.old c)
        else asleep_on waiters.old c) }
    ensures saved { (i : ℕ) → sleeper_of waiters.new i
        ≡ sleeper_behind entry.word entry (asleep_on waiters.old entry.at) i (sleeper_of waiters.old i) }
    ensures joined { queue.new.joined ≤ queue.old.joined + 1 + length (asleep_on waiters.old entry.at) }
    ensures places { queue.new.seats ≡ queue.old.seats }
    ensures beds { waiters.new.seats ≡ waiters.old.seats }
    ensures conditions { waiters.new.conditions ≡ waiters.old.conditions }
{
    let _sleeper = waiters.sleeper_of(entry.seat);
    match entry.word {
        Word::Queued => queue.join(queued(entry)),
        Word::Granted | Word::Left | Word::Back => {
            let _stood = queue.leave(entry.seat);
        }
        Word::Await => waiters.join(entry.at, entry.seat, entry.n),
        Word::Lapse => {
            let _slept = waiters.leave(entry.seat);
            queue.join(coming_back(entry.seat));
        }
        Word::Signal => {
            let _moved = waiters.move_first(entry.at, queue);
        }
        Word::SignalAll => {
            let _moved = waiters.move_all(entry.at, queue);
        }
        _ => {}
    }
}
