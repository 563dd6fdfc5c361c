//! A line of a base.

ghost use Rattle.std.specs.Prelude.{◌≡◌, ◌++◌, OnErr, OnOk, codes, decimal, length, take};
ghost use Rattle.history.specs.EntryWords.{IsWritten};
ghost use Rattle.history_text.specs.BaseLineLimits.{IsBaseLine};
ghost use Rattle.history_text.specs.BaseLines.{base_line, waiting_entry};
ghost use Rattle.history_text.specs.declared.base_line.BaseLine.TheVariants.{Seat, Sleeps, Stands};

use history::base::{LinePlace, SeatBase, Sleeper};
use history::entry::{End, Entry, Mode, Word};
use history::limits::MOST_SEATS;
use history::number::{put_number, put_wide};
use std::alloc::AllocError;

/// The greatest number of a seat. Seats are numbered from 0.
pub(crate) const LAST_SEAT: u16 = MOST_SEATS - 1;

/// One line of a base.
#[derive(Clone, Copy, Debug, PartialEq, Eq)]
pub enum BaseLine {
    /// The number of folded entries of a lock or a read-write lock.
    Folded(u128),
    /// The number of folded entries of a semaphore, and the permits released by seats that did not hold them.
    Released(u128, u128),
    /// The number of folded entries of a latch, and its count.
    CountedDown(u128, u32),
    /// A seat, with its calls and holds.
    Seat(u16, SeatBase),
    /// A waiter in the queue.
    Stands(LinePlace),
    /// A waiter of a condition.
    Sleeps(u8, Sleeper),
}

/// Returns the entry whose words spell what a waiter waits for.
pub(crate) fn waiting_entry(standing: &LinePlace) -> Entry
    ensures { result ≡ waiting_entry standing.now }
{
    let LinePlace {
        who,
        condition,
        holds,
        how,
    } = *standing;
    if who.back {
        return Entry {
            seat: who.seat,
            word: Word::Back,
            mode: Mode::X,
            n: holds,
            at: condition,
            end: how,
        };
    }
    Entry {
        seat: who.seat,
        word: Word::Queued,
        mode: who.mode,
        n: who.n,
        at: 0,
        end: End::None,
    }
}

/// Appends the words of a line. On an error the bytes are as before.
pub fn put_base_line(out: &mut Vec<u8>, line: &BaseLine) -> Result<(), AllocError>
    requires { IsBaseLine line.now }
    ensures ok { OnOk result (out.new.items ≡ out.old.items ++ base_line line.now) }
    ensures err { OnErr result (out.new.items ≡ out.old.items) }
{
    let before = out.len();
    match put_words(out, line) {
        Ok(()) => Ok(()),
        Err(AllocError) => {
            out.truncate(before);
            Err(AllocError)
        }
    }
}

/// Appends the words of a line. On an error only the first bytes may have been appended.
fn put_words(out: &mut Vec<u8>, line: &BaseLine) -> Result<(), AllocError>
    requires { IsBaseLine line.now }
    ensures ok { OnOk result (out.new.items ≡ out.old.items ++ base_line line.now) }
    ensures err { OnErr result (take (length out.old.items) out.new.items ≡ out.old.items) }
{
    match line {
        BaseLine::Folded(entries) => {
            out.extend_from_slice(b"base ")?;
            put_wide(out, *entries)
        }
        BaseLine::Released(entries, unheld) => {
            out.extend_from_slice(b"base ")?;
            put_wide(out, *entries)?;
            out.extend_from_slice(b" unheld ")?;
            put_wide(out, *unheld)
        }
        BaseLine::CountedDown(entries, count) => {
            out.extend_from_slice(b"base ")?;
            put_wide(out, *entries)?;
            out.extend_from_slice(b" count ")?;
            put_number(out, u64::from(*count))
        }
        BaseLine::Seat(seat, has) => put_seat(out, *seat, has),
        BaseLine::Stands(standing) => put_standing(out, standing),
        BaseLine::Sleeps(condition, sleeper) => put_sleeper(out, *condition, sleeper),
    }
}

fn put_seat(out: &mut Vec<u8>, seat: u16, has: &SeatBase) -> Result<(), AllocError>
    ensures ok { OnOk result (out.new.items ≡ out.old.items ++ base_line (Seat seat has.now)) }
    ensures err { OnErr result (take (length out.old.items) out.new.items ≡ out.old.items) }
{
    put_calls(out, seat, has.calls)?;
    out.extend_from_slice(b" x ")?;
    put_number(out, u64::from(has.exclusive))?;
    out.extend_from_slice(b" s ")?;
    put_wide(out, has.shared)
}

/// Appends a seat and the number of calls that it ended.
fn put_calls(out: &mut Vec<u8>, seat: u16, calls: u64) -> Result<(), AllocError>
    ensures ok { OnOk result (out.new.items
        ≡ out.old.items ++ codes "seat " ++ decimal seat ++ codes " calls " ++ decimal calls) }
    ensures err { OnErr result (take (length out.old.items) out.new.items ≡ out.old.items) }
{
    out.extend_from_slice(b"seat ")?;
    put_number(out, u64::from(seat))?;
    out.extend_from_slice(b" calls ")?;
    put_number(out, calls)
}

fn put_standing(out: &mut Vec<u8>, standing: &LinePlace) -> Result<(), AllocError>
    requires { IsWritten (waiting_entry standing.now) }
    ensures ok { OnOk result (out.new.items ≡ out.old.items ++ base_line (Stands standing.now)) }
    ensures err { OnErr result (take (length out.old.items) out.new.items ≡ out.old.items) }
{
    let entry = waiting_entry(standing);
    out.extend_from_slice(b"line ")?;
    put_number(out, u64::from(standing.who.seat))?;
    out.push(b' ')?;
    entry.write_words(out).map_err(|_| AllocError)
}

fn put_sleeper(out: &mut Vec<u8>, condition: u8, sleeper: &Sleeper) -> Result<(), AllocError>
    ensures ok { OnOk result (out.new.items ≡ out.old.items ++ base_line (Sleeps condition sleeper.now)) }
    ensures err { OnErr result (take (length out.old.items) out.new.items ≡ out.old.items) }
{
    out.extend_from_slice(b"sleeper ")?;
    put_number(out, u64::from(condition))?;
    out.push(b' ')?;
    put_number(out, u64::from(sleeper.seat))?;
    out.push(b' ')?;
    put_number(out, u64::from(sleeper.holds))
}
