//! A value to lock: a header, and entries, the oldest first. Its point is the opening base of that header,
//! with these entries.
ghost use Rattle.std.specs.Prelude.{◌≡◌, ℕ, [], reverse, IfOk};
ghost use Rattle.history.specs.Base.{opening_base};
ghost use Rattle.word_lock.specs.Point.{Agrees, Follows};

use history::entry::{End, Entry, Mode, Word};
use history::header::{Header, Object, Policy};
use std::alloc::{AllocError, Global};
use word_lock::Chronicle;

pub const HEADER: Header = Header {
    object: Object::Lock(Policy::Fair),
    seats: 4,
    conditions: 0,
    cap: 4000,
};

pub fn got(seat: u16) -> Entry
    ensures { result.seat ≡ seat }
{
    Entry {
        seat,
        word: Word::Got,
        mode: Mode::X,
        n: 1,
        at: 0,
        end: End::None,
    }
}

#[derive(Drop)]
pub struct Notes {
    pub header: Header,
    pub list: Vec<Entry>,
}

impl Chronicle for Notes {
    ghost use Rattle.std.specs.Prelude.{reverse};
    ghost use Rattle.history.specs.Base.{opening_base};

    ghost point = { λ n. record { base = opening_base n.header; entries = reverse n.list.items } };

    ghost fact = { λ _. Unit {0} };

    ghost sound = { λ _. Unit {0} };

    ghost is_sound = { λ _ _. tt };
}

impl Notes {
    /// Returns notes with room for `entries` entries.
    pub fn with_room(alloc: Global, entries: usize) -> Result<Notes, AllocError>
        ensures { IfOk result (λ notes. (seat : ℕ) → Agrees
            (record { base = opening_base notes.header; entries = reverse notes.list.items }) seat []) }
    {
        Ok(Notes {
            header: HEADER,
            list: Vec::with_capacity(alloc, entries)?,
        })
    }

    pub fn add(&mut self, entry: Entry) -> Result<(), AllocError>
        ensures { Follows entry.seat
            (record { base = opening_base self.old.header; entries = reverse self.old.list.items })
            (record { base = opening_base self.new.header; entries = reverse self.new.list.items }) }
    {
        self.list.push(entry)?;
        Ok(())
    }

    /// Returns how many entries the seat has.
    pub fn count_of(&self, seat: u16) -> usize {
        self.list.iter().filter(|entry| entry.seat == seat).count()
    }
}
