//! The lines of the answers to steps and trims, most of them in three bytes.

ghost use Rattle.std.specs.Prelude.{◌≡◌, ◌↔◌, ◌<◌, ◌≤◌, [], false, if◌then◌else◌, IsErr, IsTrue, OnOk, length};
ghost use Rattle.driver.specs.ReplayText.{HasLine, told_more};
ghost use Rattle.driver.specs.LineWriter.{Gathers};
ghost use Rattle.driver.specs.inner.Codes.{code_line, entries_in, kept_by, lines_by};
ghost use Rattle.driver.specs.inner.Logged.{IsAnswerTold, IsTrimTold};

use crate::answer_line::{spell_answer, spell_trim};
use crate::code::{Code, WHOLE, WHOLE_ENTRY};
use crate::limits::LONGEST_LINE;
use crate::line_writer::LineWriter;
use crate::piece::Pieces;
use history::fault::Fault;
use history::number::Numbering;
use history::step::Answer;
use std::alloc::{AllocError, Global};
use std::marker::Model;
use streams::sink::Sink;
use streams::source::DeviceFailed;

/// Lines. Most are kept in three bytes, and the text of the others whole.
#[derive(Drop)]
pub struct Tape {
    codes: Vec<Code>,
    text: Vec<u8>,
    /// How many entries the lines tell.
    count: u64,
}

impl Model for Tape {
    ghost use Rattle.std.specs.Prelude.{◌≡◌, length};
    ghost use Rattle.driver.specs.ReplayText.{Told};
    ghost use Rattle.driver.specs.inner.Codes.{entries_by, kept_by, lines_by};

    ghost Value = { Told };

    ghost view = { λ t. record { lines = lines_by 0 t.codes.items t.text.items; count = t.count } };

    ghost invariant = { λ t. (kept_by t.codes.items ≡ length t.text.items)
        × (t.count ≡ entries_by t.codes.items) };
}

impl Tape {
    /// Returns an empty tape.
    pub(crate) fn new(alloc: Global) -> Self
        ensures { result ≡ record { lines = []; count = 0 } }
    {
        Tape {
            codes: Vec::new(alloc),
            text: Vec::new(alloc),
            count: 0,
        }
    }

    /// Adds a line that has a code.
    #[tactic(auto, using(crate::proofs::Taping::plain_more, crate::proofs::Taping::kept_more, crate::proofs::Taping::entries_more, crate::proofs::Taping::few_entries))]
    #[inline(always)]
    pub(crate) fn push(&mut self, code: Code) -> Result<(), AllocError>
        requires { code.kind < WHOLE }
        ensures ok { OnOk result (self.new
            ≡ told_more self.old (code_line self.old.count code) (entries_in code)) }
    {
        self.codes.push(code)?;
        self.count += code.entries();
        Ok(())
    }

    /// Adds a line that is kept whole. It may tell an entry.
    #[tactic(auto, using(crate::proofs::Taping::whole_more, crate::proofs::Taping::kept_more, crate::proofs::Taping::entries_more, crate::proofs::Taping::few_entries))]
    fn push_line(&mut self, line: &[u8], is_entry: bool) -> Result<(), AllocError>
        requires { length line.now ≤ LONGEST_LINE }
        ensures ok { OnOk result (self.new ≡ told_more self.old line.now (if is_entry then 1 else 0)) }
    {
        let code = Code {
            seat: line.len() as u8,
            kind: if is_entry { WHOLE_ENTRY } else { WHOLE },
            named: 0,
        };
        self.codes.reserve(1)?;
        self.text.extend_from_slice(line)?;
        self.codes.push_reserved(code);
        self.count += code.entries();
        Ok(())
    }

    /// Adds the line of the answer to a seat's step, whole.
    #[cold]
    #[inline(never)]
    pub(crate) fn push_answer(
        &mut self,
        seat: u16,
        answer: Result<Answer, Fault>,
    ) -> Result<(), AllocError>
        requires { HasLine answer }
        ensures ok { OnOk result (IsAnswerTold self.old seat answer self.new) }
    {
        let mut line = [0; LONGEST_LINE];
        let mut numbering = Numbering::new();
        let end = spell_answer(&mut line, 0, &mut numbering, self.count, seat, &answer);
        self.push_line(&line[..end], matches!(answer, Ok(Answer::Recorded(_, _))))
    }

    /// Adds the line of the answer to a trim.
    pub(crate) fn push_trim(&mut self, answer: &Result<u64, Fault>) -> Result<(), AllocError>
        ensures ok { OnOk result (IsTrimTold self.old answer.now self.new) }
    {
        let mut line = [0; LONGEST_LINE];
        let end = spell_trim(&mut line, 0, answer);
        self.push_line(&line[..end], false)
    }

    /// Writes all lines.
    pub(crate) fn put_lines<W: Sink>(
        &self,
        lines: &mut LineWriter,
        writer: &mut W,
        pieces: &Pieces,
    ) -> Result<(), DeviceFailed>
        requires { W.failed writer.old ≡ false }
        ensures adds { Gathers (W.held writer.old) lines.old.bytes result (W.held writer.new) lines.new.bytes
            self.now.lines }
        ensures failing { IsTrue (W.failed writer.new) ↔ IsErr result }
    {
        put_codes(lines, writer, pieces, &self.codes, &self.text)
    }
}

/// Adds the lines of codes, with the text of those that are kept whole.
fn put_codes<W: Sink>(
    lines: &mut LineWriter,
    writer: &mut W,
    pieces: &Pieces,
    codes: &[Code],
    text: &[u8],
) -> Result<(), DeviceFailed>
    requires writer { W.failed writer.old ≡ false }
    requires kept { kept_by codes.now ≡ length text.now }
    ensures adds { Gathers (W.held writer.old) lines.old.bytes result (W.held writer.new) lines.new.bytes
        (lines_by 0 codes.now text.now) }
    ensures failing { IsTrue (W.failed writer.new) ↔ IsErr result }
{
    let mut number = 0;
    let mut kept = 0;
    for code in codes {
        let added = code.entries();
        let bytes = code.kept();
        lines.put_code(writer, pieces, number, *code, &text[kept..])?;
        number += added;
        kept += bytes;
    }
    Ok(())
}
