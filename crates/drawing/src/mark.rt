//! Marks of entries that end a wait or pass one, and of entries that change no holds, or not those of their seat
//! alone.

ghost use Rattle.std.specs.Prelude.{◌≡◌, ◌++◌, OnOk};
ghost use Rattle.drawing.specs.Marks.{given_up, mark_of, sign_at, sign_of};

use history::entry::{End, Entry, Word};
use std::alloc::AllocError;

/// What a mark shows of an entry.
#[derive(Clone, Copy, Debug, PartialEq, Eq)]
pub enum Sign {
    Missed,
    Refused,
    /// A signal, of one waiter or of all.
    Signal,
    Drained,
    Counted,
    /// A wait in the queue ended with what was waited for.
    Granted,
    /// A wait in the queue or on a condition ended by a timeout.
    TimedOut,
    /// A wait in the queue or on a condition ended by an interrupt.
    Interrupted,
    /// An acquire took at once while another seat waited in the queue for a first acquire.
    Barged,
}

/// An entry's mark: the number of the entry, its seat, and what is shown.
#[derive(Clone, Copy, Debug, PartialEq, Eq)]
pub struct Mark {
    pub number: u64,
    pub seat: u16,
    pub sign: Sign,
}

/// Adds the mark of the entry of a number, if it has one.
pub(crate) fn put_mark(
    marks: &mut Vec<Mark>,
    number: u64,
    barges: bool,
    entry: Entry,
) -> Result<(), AllocError>
    ensures { OnOk result (marks.new.items
        ≡ marks.old.items ++ mark_of number entry.seat (sign_at barges entry.word entry.end)) }
{
    match sign_at(barges, entry.word, entry.end) {
        None => {}
        Some(sign) => {
            marks.push(Mark {
                number,
                seat: entry.seat,
                sign,
            })?;
        }
    }
    Ok(())
}

/// Returns what a mark shows of an entry: that it barges, or what its word and end say.
fn sign_at(barges: bool, word: Word, end: End) -> Option<Sign>
    ensures { result ≡ sign_at barges word end }
{
    if barges {
        Some(Sign::Barged)
    } else {
        sign_of(word, end)
    }
}

/// Returns what a mark shows of a wait that was given up, by how it ended.
fn given_up(end: End) -> Option<Sign>
    ensures { result ≡ given_up end }
{
    match end {
        End::Timeout => Some(Sign::TimedOut),
        End::Interrupt => Some(Sign::Interrupted),
        End::None | End::Signalled => None,
    }
}

/// Returns what a mark shows of an entry's word and end.
fn sign_of(word: Word, end: End) -> Option<Sign>
    ensures { result ≡ sign_of word end }
{
    match word {
        Word::Missed => Some(Sign::Missed),
        Word::Refused(_) => Some(Sign::Refused),
        Word::Signal | Word::SignalAll => Some(Sign::Signal),
        Word::Drained => Some(Sign::Drained),
        Word::Counted => Some(Sign::Counted),
        Word::Granted | Word::Back => Some(Sign::Granted),
        Word::Left | Word::Lapse => given_up(end),
        _ => None,
    }
}
