//! The room that is owed after an entry.

ghost use Rattle.std.specs.Prelude.{◌≡◌, ◌+◌, ◌-◌, ◌<◌, ◌≤◌, ◌^◌};
ghost use Rattle.history.specs.Room.{reserves, releases};

use crate::checks::is_lock;
use history::entry::{Entry, Word};
use history::header::Object;

/// Returns how many entries are owed after `entry`: `owed` plus what the entry reserves, minus what it
/// releases.
#[inline(always)]
pub fn owed_behind(object: Object, entry: Entry, owed: u64) -> u64
    requires few { owed + 2 < 2 ^ 64 }
    requires owed { releases object entry ≤ owed + reserves object entry }
    ensures { result ≡ owed + reserves object entry - releases object entry }
{
    match entry.word {
        Word::Got | Word::TryGot => owed + u64::from(is_lock(object)),
        Word::Queued => owed + 1 + u64::from(is_lock(object)),
        Word::Await => owed + 2,
        Word::Granted | Word::Lapse | Word::Back => owed - 1,
        Word::Left => owed - 1 - u64::from(is_lock(object)),
        Word::Gave => owed - u64::from(is_lock(object)),
        Word::Signal | Word::SignalAll => owed - u64::from(entry.n),
        _ => owed,
    }
}
