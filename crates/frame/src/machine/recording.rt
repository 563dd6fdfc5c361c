//! Recording the entry of a step.

ghost use Rattle.std.specs.Prelude.{◌≡◌, ◌<◌, if◌then◌else◌, None, Some, Ok, IfOk, IfSome, IfNone};
ghost use Rattle.frame.specs.Below.{Recorded, entry_for};
ghost use Rattle.frame.specs.Core.{start_of, IsAdded, IsNext, IsStepped};
ghost use Rattle.frame.specs.inner.Core.{IsEntered, ready_of};
ghost use Rattle.frame.specs.inner.Effects.{asks_before};

use super::Core;
use crate::effects::{change, whom_named};
use crate::hooks::Hooks;
use crate::seat::{tell, update};
use condition_queue::following::move_waiters;
use deciding::room::owed_behind;
use history::entry::{Entry, Word};
use history::fault::Fault;
use history::step::{Answer, Step};

impl<H: Hooks + Drop> Core<H> {
    /// Adds an entry if it has room, updates the rest of the core, and marks the waiter that it names.
    /// `before` is the waiter that was ready before it.
    #[inline(always)]
    fn write(&mut self, entry: Entry, before: Option<u16>) -> Result<Option<u16>, Fault>
        requires next { IsNext self.old entry }
        requires before { before ≡ (if asks_before entry.word then ready_of self.old else None) }
        ensures added { IsAdded self.old entry result self.new }
        ensures names { IfOk result (λ name. IfSome name (λ seat. seat < self.old.header.seats)) }
    {
        let object = self.object();
        let was_owed = self.history.owed();
        let owed = owed_behind(object, entry, was_owed);
        let needed = (owed + 1).saturating_sub(was_owed);
        self.history.make_room(needed)?;
        let may_name = change(&mut self.hooks, entry);
        move_waiters(&mut self.queue, &mut self.waiters, entry);
        update(&mut self.seats, object, entry);
        self.history.add(entry, owed);
        let name = whom_named(may_name, before, &self.hooks, &self.queue, entry.seat);
        tell(&mut self.seats, name);
        Ok(name)
    }

    /// Returns the waiter that is ready before an entry with this word, if that matters. Before a grant it is
    /// the seat that is granted, and the other words name nobody.
    #[inline(always)]
    fn ready_before(&self, word: Word) -> Option<u16>
        ensures { result ≡ (if asks_before word then ready_of self.now else None) }
    {
        match word {
            Word::Left | Word::Gave | Word::Counted | Word::Await => self.ready(),
            _ => None,
        }
    }

    /// Records the entry of a step, and returns the answer with the waiter that it names.
    #[inline(always)]
    pub(super) fn record(&mut self, entry: Entry) -> Result<Answer, Fault>
        requires { IsNext self.old entry }
        ensures { IsEntered self.old entry result self.new }
    {
        let before = self.ready_before(entry.word);
        let name = self.write(entry, before)?;
        Ok(Answer::Recorded(entry, name))
    }

    /// Answers a step by the entry that it makes. `None` changes nothing: the history had no room or no
    /// memory for it.
    #[inline(always)]
    pub(super) fn answer(&mut self, seat: u16, step: Step, entry: Entry) -> Option<Answer>
        requires seat { seat < self.old.header.seats }
        requires made { entry_for (start_of self.old) self.old.entries seat step ≡ Ok (Some entry) }
        ensures done { IfSome result (λ answer. IsStepped self.old seat step (Ok answer) self.new) }
        ensures none { IfNone result (self.new ≡ self.old) }
    {
        match self.record_at_once(seat, step, entry) {
            Some(name) => Some(Answer::Recorded(entry, name)),
            None => None,
        }
    }

    /// Records the entry that a step makes, and returns the waiter that it names. `None` changes nothing: the
    /// history had no room or no memory for it.
    #[inline(always)]
    pub(super) fn record_at_once(
        &mut self,
        _seat: u16,
        _step: Step,
        entry: Entry,
    ) -> Option<Option<u16>>
        requires seat { _seat < self.old.header.seats }
        requires made { entry_for (start_of self.old) self.old.entries _seat _step ≡ Ok (Some entry) }
        ensures done { IfSome result (λ name.
            IsStepped self.old _seat _step (Ok (Recorded entry name)) self.new) }
        ensures none { IfNone result (self.new ≡ self.old) }
    {
        let before = self.ready_before(entry.word);
        match self.write(entry, before) {
            Ok(name) => Some(name),
            Err(_fault) => None,
        }
    }
}
