//! Gathering lines for a sink.

ghost use Rattle.std.specs.Prelude.{◌≡◌, ◌+◌, ◌++◌, ◌<◌, ◌≤◌, ◌↔◌, [], false, length, IsErr, IsTrue, IfOk, OnErr, OnOk};
ghost use Rattle.std.specs.Io.KnownBytes.{Appends};
ghost use Rattle.driver.specs.Below.{ended, counts_line, PIECE, AppendsFront};
ghost use Rattle.driver.specs.declared.limits.TheConstants.{LONGEST_LINE};
ghost use Rattle.driver.specs.LineWriter.{Gathers};
ghost use Rattle.driver.specs.ReplayText.{HasLine, answer_line};
ghost use Rattle.driver.specs.inner.Codes.{kept_in, line_by};

use crate::answer_line::spell_answer;
use crate::code::{Code, WHOLE};
use crate::limits::LONGEST_LINE;
use crate::piece::Pieces;
use history::fault::Fault;
use history::number::{Numbering, spell};
use history::pieces::{put_byte, put_bytes};
use history::step::Answer;
use std::alloc::{AllocError, Global};
use std::marker::Model;
use streams::limits::PIECE;
use streams::sink::Sink;
use streams::source::DeviceFailed;
use streams::writing::write_all;

/// Lines that are gathered in bytes reserved before, and written piece by piece. No line allocates. Nothing
/// is written while there is room for another line.
#[derive(Drop)]
pub struct LineWriter {
    bytes: Vec<u8>,
    at: usize,
    numbering: Numbering,
}

impl Model for LineWriter {
    ghost use Rattle.std.specs.Prelude.{◌≤◌, ◌-◌, length, take};
    ghost use Rattle.driver.specs.declared.limits.TheConstants.{LONGEST_LINE};
    ghost use Rattle.driver.specs.LineWriter.{Gathered};

    ghost Value = { Gathered };

    ghost view = { λ w. record { bytes = take w.at w.bytes.items; room = length w.bytes.items - w.at } };

    ghost invariant = { λ w. (w.at ≤ length w.bytes.items) × (LONGEST_LINE ≤ length w.bytes.items) };
}

impl LineWriter {
    /// Returns a writer that begins with this line, with room for a piece after it. It needs no more memory.
    pub fn open(alloc: Global, first: &[u8]) -> Result<Self, AllocError>
        ensures first { IfOk result (λ lines. lines.bytes ≡ first.now) }
        ensures room { IfOk result (λ lines. lines.room ≡ PIECE) }
    {
        let mut bytes = Vec::from_slice(alloc, first)?;
        bytes.resize(first.len() + PIECE, 0)?;
        Ok(LineWriter {
            bytes,
            at: first.len(),
            numbering: Numbering::new(),
        })
    }

    /// Writes the gathered bytes. On an error they stay gathered.
    #[inline(never)]
    pub fn flush<W: Sink>(&mut self, writer: &mut W) -> Result<(), DeviceFailed>
        requires { W.failed writer.old ≡ false }
        ensures ok { OnOk result (Appends (W.held writer.old) (W.held writer.new) self.old.bytes) }
        ensures none { OnOk result (self.new.bytes ≡ []) }
        ensures room { OnOk result (self.new.room ≡ length self.old.bytes + self.old.room) }
        ensures enough { OnOk result (LONGEST_LINE ≤ self.new.room) }
        ensures err { OnErr result (AppendsFront (W.held writer.old) (W.held writer.new) self.old.bytes) }
        ensures kept { OnErr result (self.new ≡ self.old) }
        ensures failing { IsTrue (W.failed writer.new) ↔ IsErr result }
    {
        write_all(writer, &self.bytes[..self.at])?;
        self.at = 0;
        Ok(())
    }

    /// Makes room for a line. On an error all bytes stay gathered.
    #[inline(always)]
    fn make_room<W: Sink>(&mut self, writer: &mut W) -> Result<(), DeviceFailed>
        requires { W.failed writer.old ≡ false }
        ensures room { OnOk result (LONGEST_LINE ≤ self.new.room) }
        ensures ready { LONGEST_LINE ≤ self.old.room → (self.new ≡ self.old) × (writer.new ≡ writer.old) }
        ensures adds { Gathers (W.held writer.old) self.old.bytes result
            (W.held writer.new) self.new.bytes [] }
        ensures places { length self.new.bytes + self.new.room ≡ length self.old.bytes + self.old.room }
        ensures kept { OnErr result (self.new ≡ self.old) }
        ensures failing { IsTrue (W.failed writer.new) ↔ IsErr result }
    {
        if LONGEST_LINE <= self.bytes.len() - self.at {
            return Ok(());
        }
        self.flush(writer)
    }

    /// Adds the line of the answer to a seat's step. The number of reserved bytes stays. On an error all
    /// bytes stay gathered, and nothing is added.
    #[inline(always)]
    pub fn put_answer<W: Sink>(
        &mut self,
        writer: &mut W,
        number: u64,
        seat: u16,
        answer: &Result<Answer, Fault>,
    ) -> Result<(), DeviceFailed>
        requires writer { W.failed writer.old ≡ false }
        requires spelt { HasLine answer.now }
        ensures adds { Gathers (W.held writer.old) self.old.bytes result (W.held writer.new) self.new.bytes
            (ended (answer_line number seat answer.now)) }
        ensures gathers { LONGEST_LINE ≤ self.old.room → writer.new ≡ writer.old }
        ensures places { length self.new.bytes + self.new.room ≡ length self.old.bytes + self.old.room }
        ensures kept { OnErr result (self.new ≡ self.old) }
        ensures failing { IsTrue (W.failed writer.new) ↔ IsErr result }
    {
        self.make_room(writer)?;
        self.spell_answer(number, seat, answer);
        Ok(())
    }

    /// Adds the line of a code. One that is kept whole is the first that `text` has. On an error nothing is
    /// added.
    #[tactic(auto, using(crate::proofs::Gathering::gathered_added, crate::proofs::Gathering::no_room))]
    #[inline(always)]
    pub(crate) fn put_code<W: Sink>(
        &mut self,
        writer: &mut W,
        pieces: &Pieces,
        number: u64,
        code: Code,
        text: &[u8],
    ) -> Result<(), DeviceFailed>
        requires writer { W.failed writer.old ≡ false }
        requires kept { kept_in code ≤ length text.now }
        ensures adds { Gathers (W.held writer.old) self.old.bytes result (W.held writer.new) self.new.bytes
            (line_by number code text.now) }
        ensures failing { IsTrue (W.failed writer.new) ↔ IsErr result }
    {
        self.make_room(writer)?;
        self.spell_code(pieces, number, code, text);
        Ok(())
    }

    /// Adds the end line, with the number of entries and of those that end a call.
    pub fn put_counts<W: Sink>(
        &mut self,
        writer: &mut W,
        entries: u64,
        calls: u64,
    ) -> Result<(), DeviceFailed>
        requires { W.failed writer.old ≡ false }
        ensures adds { Gathers (W.held writer.old) self.old.bytes result (W.held writer.new) self.new.bytes
            (ended (counts_line entries calls)) }
        ensures gathers { LONGEST_LINE ≤ self.old.room → writer.new ≡ writer.old }
        ensures places { length self.new.bytes + self.new.room ≡ length self.old.bytes + self.old.room }
        ensures kept { OnErr result (self.new ≡ self.old) }
        ensures failing { IsTrue (W.failed writer.new) ↔ IsErr result }
    {
        self.make_room(writer)?;
        self.spell_counts(entries, calls);
        Ok(())
    }

    /// Adds the line of an answer. There is room for it.
    #[inline(always)]
    fn spell_answer(&mut self, number: u64, seat: u16, answer: &Result<Answer, Fault>)
        requires spelt { HasLine answer.now }
        requires room { LONGEST_LINE ≤ self.old.room }
        ensures bytes { self.new.bytes ≡ self.old.bytes ++ ended (answer_line number seat answer.now) }
        ensures places { length self.new.bytes + self.new.room ≡ length self.old.bytes + self.old.room }
    {
        let line = self.bytes.as_mut_slice();
        self.at = spell_answer(line, self.at, &mut self.numbering, number, seat, answer);
    }

    /// Adds the line of a code. There is room for it.
    #[inline(always)]
    fn spell_code(&mut self, pieces: &Pieces, number: u64, code: Code, text: &[u8])
        requires kept { kept_in code ≤ length text.now }
        requires room { LONGEST_LINE ≤ self.old.room }
        ensures { self.new.bytes ≡ self.old.bytes ++ line_by number code text.now }
    {
        let line = self.bytes.as_mut_slice();
        self.at = if code.kind < WHOLE {
            pieces.put_code(line, self.at, &mut self.numbering, number, code)
        } else {
            put_bytes(line, self.at, &text[..code.seat as usize])
        };
    }

    /// Adds the end line. There is room for it.
    fn spell_counts(&mut self, entries: u64, calls: u64)
        requires { LONGEST_LINE ≤ self.old.room }
        ensures bytes { self.new.bytes ≡ self.old.bytes ++ ended (counts_line entries calls) }
        ensures places { length self.new.bytes + self.new.room ≡ length self.old.bytes + self.old.room }
    {
        let line = self.bytes.as_mut_slice();
        let entries_at = put_bytes(line, self.at, b"end ");
        let space_at = spell(line, entries_at, entries);
        let calls_at = put_byte(line, space_at, b' ');
        let break_at = spell(line, calls_at, calls);
        self.at = put_byte(line, break_at, b'\n');
    }
}
