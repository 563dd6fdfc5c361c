//! Where the threads of a run park.
ghost use Rattle.std.specs.Prelude.{◌≡◌};

use crate::notes::Notes;
use crate::reply::Reply;
use permit::{Parking, ThreadParking, Woke};
use std::marker::Model;
use std::sync::{Arc, Wait};
use std::time::Clock;
use word_lock::Token;

/// A parking, and the notes that the threads make, if somebody looks at them. Contracts see how many seats
/// there are.
#[derive(Drop)]
pub(crate) struct Post {
    pub(crate) parking: ThreadParking,
    pub(crate) notes: Option<Arc<Notes>>,
}

impl Model for Post {
    ghost use Rattle.std.specs.Prelude.{ℕ};

    ghost Value = { ℕ };

    ghost view = { λ p. p.parking };
}

impl Post {
    /// Notes the reply to a thread's call of the object at this place.
    pub(crate) fn note_reply(&self, thread: u16, object: usize, reply: Reply) {
        if let Some(notes) = &self.notes {
            if let Reply::Entered(Ok(entry)) = reply {
                notes.note_entry(thread, object, entry);
            }
        }
    }

    /// Notes that the call of this number has ended.
    pub(crate) fn note_end(&self, thread: u16, call: u64) {
        if let Some(notes) = &self.notes {
            notes.note_end(thread, call);
        }
    }

    fn note_park(&self, thread: u16, is_parked: bool) {
        if let Some(notes) = &self.notes {
            notes.note_park(thread, is_parked);
        }
    }
}

impl Parking for Post {
    ghost use Rattle.permit.specs.Deed.{IsDone};

    ghost seats = { λ p. p };

    ghost did = { λ place deed. IsDone place deed };

    fn now<R: Clock>(&self, rt: &R) -> u64 {
        self.parking.now(rt)
    }

    fn park<R: Wait + Clock>(
        &self,
        rt: &R,
        seat: u16,
        until: Option<u64>,
        interruptible: bool,
    ) -> Woke {
        self.note_park(seat, true);
        let woke = self.parking.park(rt, seat, until, interruptible);
        self.note_park(seat, false);
        woke
    }

    fn unpark(&self, seat: u16, by: &Token) {
        self.parking.unpark(seat, by);
    }

    fn interrupt(&self, seat: u16) {
        self.parking.interrupt(seat);
    }

    fn take_interrupt(&self, seat: u16) -> bool {
        self.parking.take_interrupt(seat)
    }
}
