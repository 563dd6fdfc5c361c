//! The answers to the steps and trims of a text, kept in short form until they are written.

ghost use Rattle.std.specs.Prelude.{◌≡◌, ◌↔◌, ◌+◌, ◌++◌, ◌<◌, ◌≤◌, ◌^◌, [], false, All, IfOk, IfErr, IsErr, IsErrOf, IsTrue, OnErr, OnOk, length, reverse};
ghost use Rattle.std.specs.Io.KnownBytes.{Appends};
ghost use Rattle.driver.specs.Below.{based, IsSpelt, IsInRange, calls, MOST_FOLDED, ended, Memory, entry_lines, AppendsFront};
ghost use Rattle.driver.specs.Answers.{Writes, answers_text, first_line, form_lines, lines_text, text_behind};
ghost use Rattle.driver.specs.LineWriter.{Gathers};
ghost use Rattle.driver.specs.ReplayText.{name_of};

use crate::form::Form;
use crate::line_writer::LineWriter;
use crate::piece::Pieces;
use crate::tape::Tape;
use history::entries::History;
use history::step::Answer;
use history_text::history_text::write_text;
use std::alloc::Global;
use std::marker::Model;
use steps::header::{Format, StepsHeader};
use streams::sink::Sink;
use streams::source::DeviceFailed;
use streams::stream_fault::StreamFault;
use streams::writing::write_all;

/// The answers of an object to all steps and trims of a text, in short form. Beside them is the history.
#[derive(Drop)]
pub struct Answers {
    pub(crate) header: StepsHeader,
    pub(crate) history: History,
    pub(crate) tape: Tape,
}

impl Model for Answers {
    ghost use Rattle.std.specs.Prelude.{All, reverse};
    ghost use Rattle.history.specs.Base.{based};
    ghost use Rattle.history.specs.Entries.{IsBasedWell, base_on};
    ghost use Rattle.history.specs.EntryWords.{IsSpelt};
    ghost use Rattle.history.specs.Header.{IsInRange};
    ghost use Rattle.driver.specs.Answers.{AllAnswers};

    ghost Value = { AllAnswers };

    ghost view = { λ a. record {
      header = a.header;
      base = base_on a.header.header a.history;
      entries = a.history.entries;
      lines = a.tape.lines;
    } };

    ghost invariant = { λ a. IsInRange a.header.header
        × IsBasedWell a.header.header a.history.base
        × All IsSpelt (reverse a.history.entries) };
}

impl Answers {
    /// Writes the answers. All memory is reserved before the first piece is written.
    pub fn write<W: Sink>(
        &self,
        alloc: Global,
        writer: &mut W,
        form: Form,
    ) -> Result<(), StreamFault>
        requires { W.failed writer.old ≡ false }
        ensures writes { Writes (W.held writer.old) result (W.held writer.new) (answers_text form self.now) }
        ensures failing { IsErrOf result StreamFault.WriteFailed ↔ IsTrue (W.failed writer.new) }
    {
        match form {
            Form::Replay => self.write_lines(alloc, writer, Form::Replay),
            Form::History if self.folded() == 0 => {
                self.write_lines(alloc, writer, Form::History)
            }
            Form::History => self.write_left(alloc, writer),
        }
    }

    /// Writes the lines of all answers, or of all entries, piece by piece.
    fn write_lines<W: Sink>(
        &self,
        alloc: Global,
        writer: &mut W,
        form: Form,
    ) -> Result<(), StreamFault>
        requires { W.failed writer.old ≡ false }
        ensures writes { Writes (W.held writer.old) result (W.held writer.new) (lines_text form self.now) }
        ensures failing { IsErrOf result StreamFault.WriteFailed ↔ IsTrue (W.failed writer.new) }
    {
        let first = first_line(alloc, form, &self.header)?;
        let pieces = Pieces::open(alloc)?;
        let mut lines = LineWriter::open(alloc, &first)?;
        match self.put_all(&mut lines, writer, &pieces, form) {
            Ok(()) => Ok(()),
            Err(_) => Err(StreamFault::WriteFailed),
        }
    }

    /// Writes the history that trims left, on its base.
    fn write_left<W: Sink>(&self, alloc: Global, writer: &mut W) -> Result<(), StreamFault>
        requires writer { W.failed writer.old ≡ false }
        requires folded { 1 ≤ self.now.base.entries }
        ensures writes { Writes (W.held writer.old) result (W.held writer.new)
            (answers_text Form.History self.now) }
        ensures failing { IsErrOf result StreamFault.WriteFailed ↔ IsTrue (W.failed writer.new) }
    {
        let Ok(text) = write_text(alloc, &self.header.header, &self.history) else {
            return Err(StreamFault::Memory);
        };
        match write_all(writer, &text) {
            Ok(()) => Ok(()),
            Err(_) => Err(StreamFault::WriteFailed),
        }
    }

    /// Returns how many entries were folded.
    #[tactic(auto, using(crate::proofs::EntryLines::same_header))]
    fn folded(&self) -> u64
        ensures value { result ≡ self.now.base.entries }
        ensures few { result < 2 ^ 63 }
        ensures header { self.now.base.header ≡ self.now.header.header }
    {
        match self.history.base() {
            Some(base) => base.entries as u64,
            None => 0,
        }
    }

    /// Returns how many entries there are, with those that were folded.
    fn count(&self) -> u64
        ensures { result ≡ self.now.base.entries + length self.now.entries }
    {
        self.folded() + self.history.len()
    }

    /// Returns how many of all entries end a call.
    fn calls(&self) -> u64
        ensures { result ≡ calls (based self.now.base) self.now.entries }
    {
        let _few = self.history.len();
        self.history.calls()
    }

    /// Adds the lines of a form.
    fn put_lines<W: Sink>(
        &self,
        lines: &mut LineWriter,
        writer: &mut W,
        pieces: &Pieces,
        form: Form,
    ) -> Result<(), DeviceFailed>
        requires { W.failed writer.old ≡ false }
        ensures adds { Gathers (W.held writer.old) lines.old.bytes result (W.held writer.new) lines.new.bytes
            (form_lines form self.now) }
        ensures failing { IsTrue (W.failed writer.new) ↔ IsErr result }
    {
        match form {
            Form::Replay => self.tape.put_lines(lines, writer, pieces),
            Form::History => put_entries(lines, writer, &self.history, 0),
        }
    }

    /// Writes the gathered bytes, and all that follows the first line. It allocates nothing.
    fn put_all<W: Sink>(
        &self,
        lines: &mut LineWriter,
        writer: &mut W,
        pieces: &Pieces,
        form: Form,
    ) -> Result<(), DeviceFailed>
        requires { W.failed writer.old ≡ false }
        ensures ok { OnOk result (Appends (W.held writer.old) (W.held writer.new)
            (lines.old.bytes ++ text_behind form self.now)) }
        ensures err { OnErr result (AppendsFront (W.held writer.old) (W.held writer.new)
            (lines.old.bytes ++ text_behind form self.now)) }
        ensures none { OnOk result (lines.new.bytes ≡ []) }
        ensures failing { IsTrue (W.failed writer.new) ↔ IsErr result }
    {
        self.put_lines(lines, writer, pieces, form)?;
        lines.put_counts(writer, self.count(), self.calls())?;
        lines.flush(writer)
    }
}

/// Returns the beginning of a replay text's first line.
fn name_of(format: Format) -> &'static [u8]
    ensures { result.now ≡ name_of format }
{
    match format {
        Format::One => b"aqs-replay 1 ",
        Format::Two => b"aqs-replay 2 ",
    }
}

/// Returns the first line of what is written.
pub fn first_line(alloc: Global, form: Form, header: &StepsHeader) -> Result<Vec<u8>, StreamFault>
    requires { IsInRange header.now.header }
    ensures ok { IfOk result (λ out. out.items ≡ ended (first_line form header.now)) }
    ensures err { IfErr result (λ fault. fault ≡ Memory) }
{
    let mut out = Vec::new(alloc);
    match form {
        Form::Replay => out.extend_from_slice(name_of(header.format))?,
        Form::History => out.extend_from_slice(b"aqs-history 1 ")?,
    }
    if header.header.write_part(&mut out).is_err() {
        return Err(StreamFault::Memory);
    }
    out.push(b'\n')?;
    Ok(out)
}

/// Adds the lines of all entries, numbered from `first` on.
pub fn put_entries<W: Sink>(
    lines: &mut LineWriter,
    writer: &mut W,
    history: &History,
    first: u64,
) -> Result<(), DeviceFailed>
    requires writer { W.failed writer.old ≡ false }
    requires spelt { All IsSpelt (reverse history.now.entries) }
    requires few { first ≤ MOST_FOLDED }
    ensures adds { Gathers (W.held writer.old) lines.old.bytes result (W.held writer.new) lines.new.bytes
        (entry_lines first (reverse history.now.entries)) }
    ensures failing { IsTrue (W.failed writer.new) ↔ IsErr result }
{
    for place in 0..history.len() {
        let Some(entry) = history.get(place) else {
            unreachable!()
        };
        let answer = Ok(Answer::Recorded(entry, None));
        lines.put_answer(writer, first + place, entry.seat, &answer)?;
    }
    Ok(())
}
