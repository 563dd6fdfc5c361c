//! Writing a line of an entry, and the end line.

ghost use Rattle.std.specs.Prelude.{◌≡◌, ◌+◌, ◌≤◌, ◌++◌, OnOk, OnErr, length, take, drop};
ghost use Rattle.history.specs.EntryWords.{IsSpelt};
ghost use Rattle.history_text.specs.EntryLines.{entry_line, counts_line};

use history::entry::Entry;
use history::number::{Numbering, put_number, spell};
use history::pieces::put_byte;
use std::alloc::AllocError;

/// The most bytes of an entry's line.
const MOST_BYTES: usize = 108;

/// Appends an entry's number, its seat and its words.
pub fn put_entry(
    out: &mut Vec<u8>,
    numbering: &mut Numbering,
    number: u64,
    entry: &Entry,
) -> Result<(), AllocError>
    requires { IsSpelt entry.now }
    ensures ok { OnOk result (out.new.items ≡ out.old.items ++ entry_line number entry.now) }
    ensures err { OnErr result (out.new.items ≡ out.old.items) }
{
    let at = out.len();
    out.extend_from_slice(&[0; MOST_BYTES])?;
    let end = spell_entry(out.as_mut_slice(), at, numbering, number, entry);
    out.truncate(end);
    Ok(())
}

/// Writes an entry's number, its seat and its words from position `at` on, and returns the position after
/// them.
#[inline(always)]
pub fn spell_entry(
    line: &mut [u8],
    at: usize,
    numbering: &mut Numbering,
    number: u64,
    entry: &Entry,
) -> usize
    requires spelt { IsSpelt entry.now }
    requires room { at + 108 ≤ length line.old }
    ensures end { result ≤ at + 108 }
    ensures line { take result line.new ≡ take at line.old ++ entry_line number entry.now }
    ensures rest { drop (at + 108) line.new ≡ drop (at + 108) line.old }
{
    let space_at = numbering.spell(line, at, number);
    let seat_at = put_byte(line, space_at, b' ');
    let gap_at = spell(line, seat_at, u64::from(entry.seat));
    let words_at = put_byte(line, gap_at, b' ');
    entry.spell_words(line, words_at)
}

/// Appends the end line, with the number of entries and of those that end a call. On an error only its first
/// bytes may have been appended.
pub fn put_counts(out: &mut Vec<u8>, entries: u64, calls: u64) -> Result<(), AllocError>
    ensures ok { OnOk result (out.new.items ≡ out.old.items ++ counts_line entries calls) }
    ensures err { OnErr result (take (length out.old.items) out.new.items ≡ out.old.items) }
{
    out.extend_from_slice(b"end ")?;
    put_number(out, entries)?;
    out.push(b' ')?;
    put_number(out, calls)
}
