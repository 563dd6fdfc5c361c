//! Notes that the threads of a run make of how they stand, for whoever looks at the run while it goes on.
//!
//! A monitor shows its object to passes alone, and each thread keeps its passes while it waits. So what a
//! thread holds is noted from the entries that end its calls. Each thread writes a row of its own, and never
//! waits. No contract says what a row has.
ghost use Rattle.std.specs.Prelude.{◌≡◌, ◌≤◌, IfOk, length, vec_len};

use crate::standing::{Held, Standing};
use crate::start::tell;
use history::entry::{Entry, Mode, Word};
use history::header::{Header, Object};
use history::holds::holds_after;
use indexmap::IndexMap;
use script::Script;
use std::alloc::{AllocError, Global};
use std::marker::Model;
use std::sync::Wait;
use std::sync::atomic::{AtomicU64, Ordering};
use std::time::{Clock, Duration, Instant};

/// What a thread holds of an object.
#[derive(Drop)]
struct Holds {
    object: Object,
    exclusive: AtomicU64,
    shared: AtomicU64,
}

impl Holds {
    fn of(object: Object) -> Holds {
        Holds {
            object,
            exclusive: AtomicU64::new(0),
            shared: AtomicU64::new(0),
        }
    }

    fn of_mode(&self, mode: Mode) -> &AtomicU64 {
        match mode {
            Mode::X => &self.exclusive,
            Mode::S => &self.shared,
        }
    }

    /// Notes the entry that ended a call of the thread. The entry of an await comes after one that released all.
    fn note(&self, entry: Entry) {
        let holds = self.of_mode(entry.mode);
        let had = match entry.word {
            Word::Back => 0,
            _ => holds.load(Ordering::SeqCst),
        };
        let has = holds_after(self.object, entry, u128::from(had));
        let has = has.min(u128::from(u64::MAX)) as u64;
        holds.store(has, Ordering::SeqCst);
    }

    /// Returns what is held of the object at this place, if it is anything.
    fn held(&self, object: usize) -> Option<Held> {
        let exclusive = self.exclusive.load(Ordering::SeqCst);
        let shared = self.shared.load(Ordering::SeqCst);
        if exclusive == 0 && shared == 0 {
            return None;
        }
        Some(Held {
            object,
            exclusive,
            shared,
        })
    }
}

/// The notes of a thread.
#[derive(Drop)]
struct Row {
    /// Twice the number of its calls that have ended, and 1 more while it is parked.
    word: AtomicU64,
    holds: Vec<Holds>,
}

impl Row {
    fn of(alloc: Global, objects: &IndexMap<String, Header>) -> Result<Row, AllocError> {
        let mut holds = Vec::with_capacity(alloc, objects.len())?;
        for (_, header) in objects.iter() {
            holds.push(Holds::of(header.object))?;
        }
        Ok(Row {
            word: AtomicU64::new(0),
            holds,
        })
    }

    /// Returns how the thread stands. If it goes on meanwhile, it doesn't wait.
    fn standing(&self, alloc: Global) -> Result<Standing, AllocError> {
        let word = self.word.load(Ordering::SeqCst);
        let mut held = Vec::new(alloc);
        for (object, holds) in self.holds.iter().enumerate() {
            if let Some(some) = holds.held(object) {
                held.push(some)?;
            }
        }
        let has_stayed = self.word.load(Ordering::SeqCst) == word;
        Ok(Standing {
            ended: word / 2,
            waits: word % 2 == 1 && has_stayed,
            held,
        })
    }
}

/// The run goes on.
const GOING: u64 = 0;

/// The run has ended.
const OVER: u64 = 1;

/// A row for each thread, and whether the run has ended. Contracts see how many rows there are.
#[derive(Drop)]
pub(crate) struct Notes {
    rows: Vec<Row>,
    over: AtomicU64,
}

impl Model for Notes {
    ghost use Rattle.std.specs.Prelude.{ℕ, vec_len};

    ghost Value = { ℕ };

    ghost view = { λ n. vec_len n.rows };
}

impl Notes {
    /// Returns a row for each thread of a script, of which there is one at least.
    pub(crate) fn of(alloc: Global, script: &Script) -> Result<Notes, AllocError>
        ensures rows { IfOk result (λ notes. notes ≡ length script.now.workers) }
        ensures some { 1 ≤ length script.now.workers }
    {
        let count = script.workers().len();
        let mut rows = Vec::with_capacity(alloc, count)?;
        for _ in 0..count {
            rows.push(Row::of(alloc, script.objects())?)?;
        }
        Ok(Notes {
            rows,
            over: AtomicU64::new(GOING),
        })
    }

    /// Notes that a thread is about to park, or that its park has ended.
    pub(crate) fn note_park(&self, thread: u16, is_parked: bool) {
        if let Some(row) = self.rows.get(usize::from(thread)) {
            let ended = row.word.load(Ordering::SeqCst) / 2;
            let parked = if is_parked { 1 } else { 0 };
            row.word
                .store(ended.saturating_mul(2) | parked, Ordering::SeqCst);
        }
    }

    /// Notes that a call of a thread has ended. Its calls are numbered from 0, over all rounds.
    pub(crate) fn note_end(&self, thread: u16, call: u64) {
        if let Some(row) = self.rows.get(usize::from(thread)) {
            let ended = call.saturating_add(1);
            row.word.store(ended.saturating_mul(2), Ordering::SeqCst);
        }
    }

    /// Notes the entry that ended a thread's call of the object at this place.
    pub(crate) fn note_entry(&self, thread: u16, object: usize, entry: Entry) {
        if let Some(row) = self.rows.get(usize::from(thread)) {
            if let Some(holds) = row.holds.get(object) {
                holds.note(entry);
            }
        }
    }

    /// Tells whoever waits that the run has ended.
    pub(crate) fn tell_end(&self) {
        tell(&self.over, OVER);
    }

    /// Waits for the end of the run at most this many milliseconds, and returns whether it came. If the clock
    /// can't be read, the time has passed.
    pub(crate) fn ends_within<R: Wait + Clock>(&self, rt: &R, milliseconds: u32) -> bool {
        let limit = Duration::from_millis(u64::from(milliseconds));
        let start = Instant::now(rt).ok();
        for _ in rt.forever() {
            if self.over.load(Ordering::SeqCst) == OVER {
                return true;
            }
            let left = time_left(rt, start, limit);
            if left.is_zero() {
                return false;
            }
            self.over.park_timeout(rt, GOING as u32, left);
        }
        unreachable!()
    }

    /// Returns how each thread stands, one after another.
    pub(crate) fn standings(&self, alloc: Global) -> Result<Vec<Standing>, AllocError>
        ensures { IfOk result (λ all. vec_len all ≡ self.now) }
    {
        let mut all = Vec::with_capacity(alloc, self.rows.len())?;
        for row in &self.rows {
            all.push(row.standing(alloc)?)?;
        }
        Ok(all)
    }
}

/// Returns what is left of a time that began at a moment.
fn time_left<R: Clock>(rt: &R, start: Option<Instant>, limit: Duration) -> Duration {
    match start {
        Some(start) => match start.elapsed(rt) {
            Ok(passed) => limit.saturating_sub(passed),
            Err(_) => Duration::ZERO,
        },
        None => Duration::ZERO,
    }
}

#[cfg(test)]
mod tests;
