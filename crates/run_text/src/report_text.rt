//! The text of all objects of a run.

ghost use Rattle.std.specs.Prelude.{◌≡◌, ◌≤◌, ◌↔◌, [], false, All, IfErr, IfOk, IsErr, IsTrue, OnErr, OnOk, length};
ghost use Rattle.std.specs.List.{concat};
ghost use Rattle.std.specs.Io.KnownBytes.{Appends};
ghost use Rattle.run_text.specs.RunText.{last_lines, parts_text, report_text};
ghost use Rattle.run_text.specs.inner.{IsJudged};
ghost use Rattle.run_text.specs.Below.{AppendsFront, Memory, IsReport, IsSound};

use crate::answer_lines::put_answers;
use crate::part::PartText;
use driver::audit_text::put_line;
use driver::line_writer::LineWriter;
use script::Script;
use std::alloc::Global;
use std::marker::Model;
use streams::sink::Sink;
use streams::source::DeviceFailed;
use streams::stream_fault::StreamFault;
use streams::writing::write_all;
use workers::{ObjectReport, Report, Unrecorded};

/// The text of a run. All its memory is reserved.
#[derive(Drop)]
pub struct RunText {
    lines: LineWriter,
    parts: Vec<PartText>,
    last: Vec<u8>,
}

impl Model for RunText {
    ghost use Rattle.std.specs.Prelude.{◌≡◌, ◌++◌, ℕ, List, []};
    ghost use Rattle.std.specs.List.{concat};

    ghost Value = { List ℕ };

    ghost view = { λ t. concat t.parts.items ++ t.last.items };

    ghost invariant = { λ t. t.lines.bytes ≡ [] };
}

/// Returns the texts of the objects of a script.
fn parts_of(
    alloc: Global,
    script: &Script,
    objects: Vec<ObjectReport>,
) -> Result<Vec<PartText>, StreamFault>
    requires judged { All IsJudged objects.items }
    requires named { length objects.items ≤ length script.now.objects }
    ensures text { IfOk result (λ parts. concat parts.items ≡ parts_text script.now.objects objects.items) }
    ensures err { IfErr result (λ fault. fault ≡ Memory) }
{
    let mut names = script.objects().iter();
    let mut parts = Vec::new(alloc);
    for object in objects {
        let Some((name, _)) = names.next() else {
            unreachable!()
        };
        parts.push(PartText::of(alloc, name.as_bytes(), object)?)?;
    }
    Ok(parts)
}

/// Returns the line of how many answers no history records, and if they are listed a line for each.
fn last_of(
    alloc: Global,
    script: &Script,
    unrecorded: u64,
    listed: Option<Vec<Unrecorded>>,
) -> Result<Vec<u8>, StreamFault>
    ensures lines { IfOk result (λ last. last.items ≡ last_lines script.now.objects unrecorded listed) }
    ensures err { IfErr result (λ fault. fault ≡ Memory) }
{
    let mut last = Vec::new(alloc);
    put_line(&mut last, b"unrecorded ", unrecorded)?;
    match listed {
        None => Ok(last),
        Some(answers) => {
            put_answers(&mut last, script.objects(), &answers)?;
            Ok(last)
        }
    }
}

impl RunText {
    /// Returns the text of a run of the script, from its report, with a line for each answer that it lists.
    ///
    /// # Errors
    ///
    /// [`StreamFault::Memory`] if an allocation fails.
    pub fn of(alloc: Global, script: &Script, report: Report) -> Result<RunText, StreamFault>
        requires report { IsReport script.now report }
        requires sound { All IsSound report.objects.items }
        ensures text { IfOk result (λ text. text ≡ report_text script.now.objects report) }
        ensures err { IfErr result (λ fault. fault ≡ Memory) }
    {
        let Report {
            objects,
            unrecorded,
            listed,
        } = report;
        let lines = LineWriter::open(alloc, b"")?;
        let parts = parts_of(alloc, script, objects)?;
        let last = last_of(alloc, script, unrecorded, listed)?;
        Ok(RunText { lines, parts, last })
    }

    /// Writes the text, piece by piece. On an error only its first bytes may have been written.
    pub fn write<W: Sink>(self, writer: &mut W) -> Result<(), DeviceFailed>
        requires { W.failed writer.old ≡ false }
        ensures ok { OnOk result (Appends (W.held writer.old) (W.held writer.new) self) }
        ensures err { OnErr result (AppendsFront (W.held writer.old) (W.held writer.new) self) }
        ensures failing { IsTrue (W.failed writer.new) ↔ IsErr result }
    {
        let RunText {
            mut lines,
            parts,
            last,
        } = self;
        for part in &parts {
            part.write(&mut lines, writer)?;
        }
        write_all(writer, &last)
    }
}
