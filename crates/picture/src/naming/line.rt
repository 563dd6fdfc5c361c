//! A line of a text of names.

ghost use Rattle.std.specs.Prelude.{◌≡◌, codes};
ghost use Rattle.history.specs.Text.{words_of};
ghost use Rattle.history.specs.declared.limits.TheConstants.{LAST_CONDITION};
ghost use Rattle.picture.specs.declared.naming.limits.TheConstants.{LAST_SEAT};
ghost use Rattle.picture.specs.Lines.{are_name_bytes, condition_at, is_name, is_name_byte, name_at, naming_of, seat_at};
ghost use Rattle.picture.specs.inner.{borrowed, pointed};

use crate::naming::limits::{LAST_SEAT, MOST_NAME_BYTES};
use crate::naming::whom::Whom;
use history::limits::LAST_CONDITION;
use history::words::Words;

/// Returns whether a byte is printable ASCII, and no space.
fn is_name_byte(byte: u8) -> bool
    ensures { result ≡ is_name_byte byte }
{
    32 < byte && byte < 127
}

fn are_name_bytes(bytes: &[u8]) -> bool
    ensures { result ≡ are_name_bytes bytes.now }
{
    match bytes {
        [] => true,
        [byte, more @ ..] => is_name_byte(*byte) && are_name_bytes(more),
    }
}

fn is_name(word: &[u8]) -> bool
    ensures { result ≡ is_name word.now }
{
    1 <= word.len() && word.len() <= MOST_NAME_BYTES && are_name_bytes(word)
}

/// Reads a name that is the last word of its line.
fn name_at<'a>(words: &mut Words<'a>) -> Option<&'a [u8]>
    ensures { borrowed result ≡ name_at words.old }
{
    let word = words.next()?;
    match words.next() {
        Some(_) => None,
        None => { if is_name(word) { Some(word) } else { None } }
    }
}

/// Reads the number of a seat, and its name.
#[tactic(auto, unfolding(crate::specs::Lines::seat_at))]
fn seat_at<'a>(words: &mut Words<'a>) -> Option<(Whom, &'a [u8])>
    ensures { pointed result ≡ seat_at words.old }
{
    let seat = words.number(0, LAST_SEAT as u64)?;
    let name = name_at(words)?;
    Some((Whom::Seat(seat as u16), name))
}

/// Reads the number of a condition, and its name.
#[tactic(auto, unfolding(crate::specs::Lines::condition_at))]
fn condition_at<'a>(words: &mut Words<'a>) -> Option<(Whom, &'a [u8])>
    ensures { pointed result ≡ condition_at words.old }
{
    let condition = words.named(b"condition", 0, LAST_CONDITION as u64)?;
    let name = name_at(words)?;
    Some((Whom::Condition(condition as u8), name))
}

/// Returns the name that a line gives, and to whom, or None for a line of another form.
pub(crate) fn naming_of(line: &[u8]) -> Option<(Whom, &[u8])>
    ensures { pointed result ≡ naming_of line.now }
{
    match seat_at(&mut Words::of(line)) {
        Some(naming) => Some(naming),
        None => condition_at(&mut Words::of(line)),
    }
}
