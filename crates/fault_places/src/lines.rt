//! Lines of a text by their numbers, and words of a line.

ghost use Rattle.std.specs.Prelude.{◌≤◌, IfSome, length};
ghost use Rattle.fault_places.specs.Reports.{IsLineOf};

use history::text::first_line;
use history::words::Words;
use streams::fault::TextFault;

/// Returns how many bytes come before the line of a number, from 1. All do if there is no such line.
pub(crate) fn begin_of(text: &[u8], number: u64) -> usize
    ensures { result ≤ length text.now }
{
    let mut rest = text;
    for _ in 1..number {
        let Some((_, after)) = first_line(rest) else {
            return text.len();
        };
        rest = after;
    }
    text.len() - rest.len()
}

/// Returns the line of a number, and whether it has a break. Behind the last one there is an empty one.
pub(crate) fn line_at(text: &[u8], number: u64) -> (&[u8], bool)
    ensures { length result.0.now ≤ length text.entry.now }
{
    let rest = &text[begin_of(text, number)..];
    match first_line(rest) {
        Some((line, _)) => (line, true),
        None => (rest, false),
    }
}

/// Returns whether the line of this number follows the end line.
pub(crate) fn follows_end(text: &[u8], number: u64) -> bool {
    number >= 3 && line_at(text, number - 1).0.starts_with(b"end ")
}

/// Returns the number of the line that has this fault.
#[tactic(auto, using(crate::proofs::Counted::lines_counted))]
pub(crate) fn number_of(text: &[u8], fault: TextFault) -> u64
    ensures { IsLineOf text.now fault result }
{
    match fault {
        TextFault::BadHeader => 1,
        TextFault::BadLine(number) => number,
        TextFault::CutShort => text.iter().filter(|byte| **byte == b'\n').count() as u64 + 1,
    }
}

/// Returns how many bytes the first words of a line have, or None if it has fewer words.
pub(crate) fn end_of(line: &[u8], words: usize) -> Option<usize>
    ensures { IfSome result (λ end. end ≤ length line.now) }
{
    let mut rest = Words::of(line);
    let mut end: usize = 0;
    for place in 0..words {
        let spaces = usize::from(place > 0);
        end = end
            .saturating_add(spaces)
            .saturating_add(rest.next()?.len());
    }
    Some(end.min(line.len()))
}
