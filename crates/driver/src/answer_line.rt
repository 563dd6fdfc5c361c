//! The line of an answer, to a step or a trim.

ghost use Rattle.std.specs.Prelude.{◌≡◌, ◌+◌, ◌++◌, ◌≤◌, IfSome, codes, decimal, length, take};
ghost use Rattle.history.specs.Text.{ended};
ghost use Rattle.driver.specs.declared.limits.TheConstants.{LONGEST_LINE};
ghost use Rattle.driver.specs.ReplayText.{HasLine, answer_line, trim_line};

use history::fault::Fault;
use history::number::{Numbering, spell};
use history::pieces::{put_byte, put_bytes};
use history::step::Answer;
use history_text::entry_line::spell_entry;

/// Writes the line of an answer from position `at` on, over bytes that are there. Returns the position after
/// it.
#[inline(always)]
pub fn spell_answer(
    line: &mut [u8],
    at: usize,
    numbering: &mut Numbering,
    number: u64,
    seat: u16,
    answer: &Result<Answer, Fault>,
) -> usize
    requires spelt { HasLine answer.now }
    requires room { at + LONGEST_LINE ≤ length line.old }
    ensures end { result ≤ at + LONGEST_LINE }
    ensures line { take result line.new ≡ take at line.old ++ ended (answer_line number seat answer.now) }
{
    match answer {
        Ok(Answer::Recorded(entry, named)) => {
            let wakes_at = spell_entry(line, at, numbering, number, entry);
            let break_at = put_waking(line, wakes_at, *named);
            put_byte(line, break_at, b'\n')
        }
        Ok(Answer::Sleep) => {
            let seat_at = put_bytes(line, at, b"- ");
            let sleep_at = spell(line, seat_at, u64::from(seat));
            put_bytes(line, sleep_at, b" sleep\n")
        }
        Err(fault) => {
            let seat_at = put_bytes(line, at, b"- ");
            let space_at = spell(line, seat_at, u64::from(seat));
            let name_at = put_byte(line, space_at, b' ');
            let break_at = put_bytes(line, name_at, fault.name().as_bytes());
            put_byte(line, break_at, b'\n')
        }
    }
}

/// Writes which waiter an entry names, from position `at` on, or nothing if it names none. Returns the
/// position after it.
#[inline(always)]
fn put_waking(line: &mut [u8], at: usize, named: Option<u16>) -> usize
    requires { at + 27 ≤ length line.old }
    ensures end { result ≤ at + 27 }
    ensures nobody { named ≡ None → take result line.new ≡ take at line.old }
    ensures named { IfSome named (λ seat.
        take result line.new ≡ take at line.old ++ codes " wakes " ++ decimal seat) }
{
    match named {
        None => at,
        Some(named) => {
            let named_at = put_bytes(line, at, b" wakes ");
            spell(line, named_at, u64::from(named))
        }
    }
}

/// Writes the line of a trim from position `at` on, over bytes that are there. Returns the position after it.
pub fn spell_trim(line: &mut [u8], at: usize, answer: &Result<u64, Fault>) -> usize
    requires { at + LONGEST_LINE ≤ length line.old }
    ensures end { result ≤ at + LONGEST_LINE }
    ensures line { take result line.new ≡ take at line.old ++ ended (trim_line answer.now) }
{
    let break_at = match answer {
        Ok(count) => {
            let count_at = put_bytes(line, at, b"- trim ");
            spell(line, count_at, *count)
        }
        Err(fault) => {
            let name_at = put_bytes(line, at, b"- ");
            put_bytes(line, name_at, fault.name().as_bytes())
        }
    };
    put_byte(line, break_at, b'\n')
}
