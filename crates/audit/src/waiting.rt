//! Who is in the queue, who waits on which condition, and what each waiter of a condition gave up.

ghost use Rattle.std.specs.Prelude.{◌≡◌, ◌<◌, ◌∷◌, [], List, IfOk, IsOkUnless, length};
ghost use Rattle.audit.specs.Below.{based, IsGood, IsInRange, Start, opening, Entry, IsMovable, IsHistory};
ghost use Rattle.audit.specs.Waiting.{WaitingStand};
ghost use Rattle.audit.specs.inner.Waiting.{NobodyWaits, saved_by};

use crate::waiting_base::{lay_down, save_returning, save_sleepers, stand_in};
use acquire_queue::queue::Queue;
use condition_queue::following::move_waiters;
use condition_queue::waiters::Waiters;
use deciding::sleep::LastSleep;
use history::base::Base;
use history::entry::{End, Entry, Word};
use history::fault::Fault;
use history::header::Header;
use std::alloc::Global;

/// The queue, the waiters of each condition, and the last sleep of each seat.
#[derive(Drop)]
pub(crate) struct Waiting {
    pub(crate) line: Queue,
    pub(crate) asleep: Waiters,
    pub(crate) last_sleep: Vec<LastSleep>,
}

impl Waiting {
    /// Returns tables in which nobody waits.
    pub(crate) fn open(alloc: Global, header: Header) -> Result<Self, Fault>
        ensures nobody { IfOk result (NobodyWaits header) }
        ensures stand { IfOk result (WaitingStand (opening header) []) }
        ensures memory { IsOkUnless result Fault.OutOfMemory }
    {
        let Header {
            seats,
            conditions,
            ..
        } = header;
        let awake = LastSleep {
            condition: 0,
            holds: 0,
            how: End::None,
        };
        let line = Queue::open(alloc, seats)?;
        let asleep = Waiters::open(alloc, conditions, seats)?;
        let last_sleep = vec![in alloc; awake; seats as usize]?;
        Ok(Waiting {
            line,
            asleep,
            last_sleep,
        })
    }

    /// Returns tables with the waiters of a base.
    pub(crate) fn open_on(alloc: Global, base: &Base) -> Result<Self, Fault>
        requires range { IsInRange base.now.header }
        requires good { IsGood base.now }
        ensures stand { IfOk result (WaitingStand (based base.now) []) }
        ensures memory { IsOkUnless result Fault.OutOfMemory }
    {
        let Waiting {
            mut line,
            mut asleep,
            mut last_sleep,
        } = Waiting::open(alloc, base.header)?;
        stand_in(&mut line, &base.line);
        lay_down(&mut asleep, base);
        save_sleepers(&mut last_sleep, base);
        save_returning(&mut last_sleep, &base.line);
        Ok(Waiting {
            line,
            asleep,
            last_sleep,
        })
    }

    /// Updates the tables for one more entry of one of the seats. It allocates nothing.
    #[inline(always)]
    pub(crate) fn note(&mut self, entry: Entry)
        requires seat { entry.seat < length self.old.last_sleep.items }
        requires movable { IsMovable entry self.old.line self.old.asleep }
        ensures { (s : Start) (h : List Entry) → WaitingStand s h self.old → IsHistory s h →
            WaitingStand s (entry ∷ h) self.new }
    {
        move_waiters(&mut self.line, &mut self.asleep, entry);
        save(&mut self.last_sleep, entry);
    }
}

/// Keeps what a seat gives up at an await, and how its wait on the condition ends, until it comes back.
fn save(last_sleep: &mut Vec<LastSleep>, entry: Entry)
    requires { entry.seat < length last_sleep.old.items }
    ensures { last_sleep.new.items ≡ saved_by entry.word entry last_sleep.old.items }
{
    let seat = entry.seat as usize;
    match entry.word {
        Word::Await => {
            last_sleep[seat] = LastSleep {
                condition: entry.at,
                holds: entry.n,
                how: End::Signalled,
            };
        }
        Word::Lapse => {
            let slept = last_sleep[seat];
            last_sleep[seat] = LastSleep {
                condition: slept.condition,
                holds: slept.holds,
                how: entry.end,
            };
        }
        _ => {}
    }
}
