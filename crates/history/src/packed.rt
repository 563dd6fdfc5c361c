//! An entry in eight bytes.

ghost use Rattle.std.specs.Prelude.{◌≡◌, ◌<◌, get_or, slice_get};
ghost use Rattle.history.specs.declared.entry.End.TheVariants.{None};
ghost use Rattle.history.specs.declared.entry.Word.TheVariants.{Got};
ghost use Rattle.history.specs.Prelude.{X};
ghost use Rattle.history.specs.inner.Packed.{ends, modes, words};

use crate::entry::{End, Entry, Mode, Word};
use crate::fault::Fault;
use std::marker::Model;
use std::mem::size_of;

const _: () = prove!(size_of::<Packed>() <= 8);

/// An entry in eight bytes: its word, mode and end are one number.
#[derive(Debug, Drop)]
pub(crate) struct Packed {
    n: u32,
    seat: u16,
    kind: u8,
    at: u8,
}

impl Model for Packed {
    ghost use Rattle.std.specs.Prelude.{◌<◌};
    ghost use Rattle.history.specs.declared.entry.Entry.{Entry};
    ghost use Rattle.history.specs.inner.Packed.{unpacked};

    ghost Value = { Entry };

    ghost view = { λ p. unpacked p.n p.seat p.kind p.at };

    ghost invariant = { λ p. p.kind < 208 };
}

const WORDS: [Word; 26] = [
    Word::Got,
    Word::TryGot,
    Word::Queued,
    Word::Granted,
    Word::Missed,
    Word::Left,
    Word::Gave,
    Word::Await,
    Word::Lapse,
    Word::Signal,
    Word::SignalAll,
    Word::Back,
    Word::Counted,
    Word::Drained,
    Word::Refused(Fault::NotOwner),
    Word::Refused(Fault::TooManyHolds),
    Word::Refused(Fault::TooManyPermits),
    Word::Refused(Fault::Interrupted),
    Word::Refused(Fault::HoldsRead),
    Word::Refused(Fault::OutOfPhase),
    Word::Refused(Fault::NoSuchCondition),
    Word::Refused(Fault::BadAmount),
    Word::Refused(Fault::WrongMode),
    Word::Refused(Fault::HistoryFull),
    Word::Refused(Fault::OutOfMemory),
    Word::Refused(Fault::TrimFull),
];

const MODES: [Mode; 2] = [Mode::X, Mode::S];

const ENDS: [End; 4] = [End::None, End::Timeout, End::Interrupt, End::Signalled];

/// Returns the number of a word.
#[tactic(auto, using(crate::proofs::Packing::refused_again))]
#[inline(always)]
fn word_code(word: Word) -> u8
    ensures value { get_or words result Got ≡ word }
    ensures small { result < 26 }
{
    match word {
        Word::Got => 0,
        Word::TryGot => 1,
        Word::Queued => 2,
        Word::Granted => 3,
        Word::Missed => 4,
        Word::Left => 5,
        Word::Gave => 6,
        Word::Await => 7,
        Word::Lapse => 8,
        Word::Signal => 9,
        Word::SignalAll => 10,
        Word::Back => 11,
        Word::Counted => 12,
        Word::Drained => 13,
        Word::Refused(fault) => 13 + fault.number(),
    }
}

impl Packed {
    /// Returns the entry in eight bytes.
    #[inline(always)]
    pub(crate) fn of(entry: Entry) -> Packed
        ensures { result ≡ entry }
    {
        Packed {
            n: entry.n,
            seat: entry.seat,
            kind: word_code(entry.word) * 8 + entry.mode as u8 * 4 + entry.end as u8,
            at: entry.at,
        }
    }

    /// Returns the entry.
    #[inline(never)]
    pub(crate) fn entry(&self) -> Entry
        ensures { result ≡ self.now }
    {
        Entry {
            n: self.n,
            seat: self.seat,
            word: WORDS[self.kind as usize / 8],
            mode: MODES[self.kind as usize / 4 % 2],
            at: self.at,
            end: ENDS[self.kind as usize % 4],
        }
    }
}

/// Returns the entry at a place of a page.
pub(crate) fn packed_at(entries: &[Packed], place: usize) -> Option<Entry>
    ensures { result ≡ slice_get entries.now place }
{
    match entries.get(place) {
        Some(packed) => Some(packed.entry()),
        None => None,
    }
}
