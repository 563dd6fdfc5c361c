//! Pieces of lines that are spelled once, each with room to be moved at once.

ghost use Rattle.std.specs.Prelude.{◌≡◌, ◌+◌, ◌++◌, ◌<◌, ◌≤◌, [], ◌∷◌, if◌then◌else◌, IfOk, decimal, get_or, length, take};
ghost use Rattle.driver.specs.declared.limits.TheConstants.{LONGEST_LINE};
ghost use Rattle.driver.specs.inner.Codes.{AreParts, code_line, number_part, part, written};

use crate::code::{Code, SLEEP, WHOLE, WORDS};
use crate::limits::LONGEST_LINE;
use history::number::{Numbering, spell};
use history::pieces::{put_byte, put_bytes};
use std::alloc::{AllocError, Global};
use std::marker::Model;

/// A piece of a line, with room to be moved at once.
#[derive(Debug, Drop)]
struct Piece {
    bytes: [u8; 32],
    len: usize,
}

impl Model for Piece {
    ghost use Rattle.std.specs.Prelude.{◌≤◌, List, ℕ, take};

    ghost Value = { List ℕ };

    ghost view = { λ p. take p.len p.bytes };

    ghost invariant = { λ p. p.len ≤ 32 };
}

impl Piece {
    /// Returns a piece with these bytes.
    fn of(text: &[u8]) -> Piece
        requires { length text.now ≤ 32 }
        ensures { result ≡ text.now }
    {
        let mut bytes = [0; 32];
        let len = put_bytes(&mut bytes, 0, text);
        Piece { bytes, len }
    }

    /// Returns a piece with a number between these bytes and a byte.
    fn around(before: &[u8], number: u64, after: u8) -> Piece
        requires { length before.now ≤ 8 }
        ensures { result ≡ before.now ++ decimal number ++ after ∷ [] }
    {
        let mut bytes = [0; 32];
        let number_at = put_bytes(&mut bytes, 0, before);
        let after_at = spell(&mut bytes, number_at, number);
        let len = put_byte(&mut bytes, after_at, after);
        Piece { bytes, len }
    }

    /// Writes the piece from position `at` on, and returns the position after it.
    #[tactic(auto, using(history::proofs::PieceFronts::rest_behind))]
    #[inline(always)]
    fn put(&self, line: &mut [u8], at: usize) -> usize
        requires { at + 32 ≤ length line.old }
        ensures end { result ≤ at + 32 }
        ensures bytes { take result line.new ≡ take at line.old ++ self.now }
    {
        // A copy of its own: it can't alias the line, so it is moved at once, not byte by byte.
        let bytes = self.bytes;
        put_bytes(line, at, &bytes);
        at + self.len
    }
}

/// The first piece of the end of a line. Before it are those of seats.
const ENDS: usize = 256;
/// The end of a line that names nobody.
const NOBODY: usize = 511;
/// The first piece with the words of a kind.
const KINDS: usize = 512;
/// How many pieces there are.
const PIECES: usize = 535;

/// Returns the words of a kind.
fn words_piece(kind: usize) -> Piece
    requires { kind < 23 }
    ensures { result ≡ get_or written kind [] }
{
    Piece::of(WORDS[kind])
}

/// Returns the piece of a number.
fn piece_at(number: usize) -> Piece
    requires { number < PIECES }
    ensures { result ≡ part number }
{
    if number < ENDS {
        Piece::around(b" ", number as u64, b' ')
    } else if number < NOBODY {
        Piece::around(b" wakes ", (number - ENDS) as u64, b'\n')
    } else if number == NOBODY {
        Piece::of(b"\n")
    } else {
        words_piece(number - KINDS)
    }
}

/// Writes a number, or in its place a dash, from position `at` on. Returns the position after it. The number
/// is always written, behind the dash if it isn't shown: a branch would often go another way than the last time.
#[inline(always)]
fn put_number(
    numbering: &mut Numbering,
    line: &mut [u8],
    at: usize,
    number: u64,
    is_shown: bool,
) -> usize
    requires { at + 23 ≤ length line.old }
    ensures end { result ≤ at + 22 }
    ensures bytes { take result line.new ≡ take at line.old ++ number_part number is_shown }
{
    let dash_end = put_byte(line, at, b'-');
    let end = numbering.spell(line, at + usize::from(!is_shown), number);
    if is_shown { end } else { dash_end }
}

/// The pieces of lines.
#[derive(Drop)]
pub(crate) struct Pieces {
    rows: Vec<Piece>,
}

impl Model for Pieces {
    ghost use Rattle.std.specs.Prelude.{List, ℕ};
    ghost use Rattle.driver.specs.inner.Codes.{AreParts};

    ghost Value = { List (List ℕ) };

    ghost view = { λ p. p.rows.items };

    ghost invariant = { λ p. AreParts 535 p.rows.items };
}

impl Pieces {
    pub(crate) fn open(alloc: Global) -> Result<Self, AllocError>
        ensures { IfOk result (λ pieces. AreParts 535 pieces) }
    {
        let mut rows = Vec::with_capacity(alloc, PIECES)?;
        for number in 0..PIECES {
            rows.push(piece_at(number))?;
        }
        Ok(Pieces { rows })
    }

    /// Writes a piece from position `at` on, and returns the position after it.
    #[inline(always)]
    fn put(&self, line: &mut [u8], at: usize, number: usize) -> usize
        requires number { number < PIECES }
        requires room { at + 32 ≤ length line.old }
        ensures end { result ≤ at + 32 }
        ensures bytes { take result line.new ≡ take at line.old ++ part number }
    {
        self.rows[number].put(line, at)
    }

    /// Writes the line of a code from position `at` on, without a branch. Returns the position after it.
    #[inline(always)]
    pub(crate) fn put_code(
        &self,
        line: &mut [u8],
        at: usize,
        numbering: &mut Numbering,
        number: u64,
        code: Code,
    ) -> usize
        requires code { code.kind < WHOLE }
        requires room { at + LONGEST_LINE ≤ length line.old }
        ensures end { result ≤ at + LONGEST_LINE }
        ensures line { take result line.new ≡ take at line.old ++ code_line number code }
    {
        let seat_at = put_number(numbering, line, at, number, code.kind < SLEEP);
        let words_at = self.put(line, seat_at, usize::from(code.seat));
        let end_at = self.put(line, words_at, KINDS + usize::from(code.kind));
        self.put(line, end_at, ENDS + usize::from(code.named))
    }
}
