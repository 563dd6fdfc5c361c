//! Reading a line of an entry.

ghost use Rattle.std.specs.Prelude.{◌≡◌, ◌≢◌, ◌∷◌, ◌++◌, ◌≤◌, decimal, IfSome, IfNone};
ghost use Rattle.history_text.specs.Below.{Entry, entry_words, IsInRange, with_rest};
ghost use Rattle.history_text.specs.EntryLines.{HasLine, entry_line};
ghost use Rattle.history_text.specs.EntryReading.{line_at};

use history::entry::Entry;
use history::header::Header;
use history::words::Words;

/// Reads the number, which must be this one, the seat, which must be one of the object's, and the entry.
#[tactic(auto, unfolding(crate::specs::EntryReading::line_at))]
fn numbered_entry(words: &mut Words<'_>, number: u64, header: &Header) -> Option<Entry>
    requires { IsInRange header.now }
    ensures is { with_rest result words.new ≡ line_at number header.now.seats words.old }
    ensures found { IfSome result (λ e. HasLine header.now e
        × (words.old ≡ (decimal number ∷ decimal e.seat ∷ entry_words e) ++ words.new)) }
{
    words.number(number, number)?;
    let seat = words.number(0, u64::from(header.seats - 1))?;
    words.entry(seat as u16)
}

/// Returns the entry that a line spells, with this number and under this header.
pub fn entry_of(line: &[u8], number: u64, header: &Header) -> Option<Entry>
    requires { IsInRange header.now }
    ensures found { IfSome result (λ e. HasLine header.now e × (line.now ≡ entry_line number e)) }
    ensures none { IfNone result ((e : Entry) → HasLine header.now e → line.now ≢ entry_line number e) }
{
    let mut words = Words::of(line);
    let entry = numbered_entry(&mut words, number, header)?;
    match words.next() {
        None => Some(entry),
        Some(_) => None,
    }
}
