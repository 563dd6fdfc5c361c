//! The history text of one object of a run.

ghost use Rattle.std.specs.Prelude.{◌≡◌, ◌≤◌, ◌++◌, ◌↔◌, [], false, All, IfErr, IfOk, IsErr, IsErrOf, IsTrue, OnErr, OnOk, reverse};
ghost use Rattle.std.specs.Io.KnownBytes.{Appends};
ghost use Rattle.run_text.specs.Below.{IsSpelt, MOST_FOLDED, entry_lines, AppendsFront, Memory, WriteFailed, IsSound};
ghost use Rattle.run_text.specs.RunText.{WritesHistory, base_of};
ghost use Rattle.run_text.specs.inner.{end_text, history_head};

use crate::entry_lines::write_entries;
use crate::part::Head;
use driver::line_writer::LineWriter;
use history::entries::History;
use history_text::entry_line::put_counts;
use history_text::history_text::put_head;
use std::alloc::Global;
use streams::sink::Sink;
use streams::source::DeviceFailed;
use streams::stream_fault::StreamFault;
use streams::writing::write_all;
use workers::ObjectReport;

/// Returns the first line of a history text and the lines of the base.
fn history_head_of(alloc: Global, part: &ObjectReport) -> Result<Head, StreamFault>
    requires { IsSound part.now }
    ensures lines { IfOk result (λ head. head.lines.items ≡ history_head (base_of part.now)) }
    ensures entries { IfOk result (λ head. head.entries ≡ (base_of part.now).entries) }
    ensures few { IfOk result (λ head. head.entries ≤ MOST_FOLDED) }
    ensures err { IfErr result (λ fault. fault ≡ Memory) }
{
    let mut lines = Vec::new(alloc);
    let (entries, _) = put_head(&mut lines, &part.header, part.history.base())?;
    Ok(Head { lines, entries })
}

/// Returns the end line of a history text.
fn end_of(alloc: Global, folded: u64, part: &ObjectReport) -> Result<Vec<u8>, StreamFault>
    requires sound { IsSound part.now }
    requires folded { folded ≡ (base_of part.now).entries }
    requires few { folded ≤ MOST_FOLDED }
    ensures ok { IfOk result (λ end. end.items ≡ end_text part.now) }
    ensures err { IfErr result (λ fault. fault ≡ Memory) }
{
    let entries = folded + part.history.len();
    let calls = part.history.calls();
    let mut end = Vec::new(alloc);
    put_counts(&mut end, entries, calls)?;
    end.push(b'\n')?;
    Ok(end)
}

/// Writes the lines of all entries, numbered from `first` on, between two others.
fn write_between<W: Sink>(
    lines: &mut LineWriter,
    writer: &mut W,
    head: &[u8],
    history: &History,
    first: u64,
    end: &[u8],
) -> Result<(), DeviceFailed>
    requires writer { W.failed writer.old ≡ false }
    requires none { lines.old.bytes ≡ [] }
    requires spelt { All IsSpelt (reverse history.now.entries) }
    requires few { first ≤ MOST_FOLDED }
    ensures ok { OnOk result (Appends (W.held writer.old) (W.held writer.new)
        (head.now ++ entry_lines first (reverse history.now.entries) ++ end.now)) }
    ensures err { OnErr result (AppendsFront (W.held writer.old) (W.held writer.new)
        (head.now ++ entry_lines first (reverse history.now.entries) ++ end.now)) }
    ensures failing { IsTrue (W.failed writer.new) ↔ IsErr result }
{
    write_all(writer, head)?;
    write_entries(lines, writer, history, first)?;
    write_all(writer, end)
}

/// Writes the history text of an object. All memory is reserved before anything is written.
///
/// # Errors
///
/// - [`StreamFault::Memory`] if an allocation fails. Nothing was written.
/// - [`StreamFault::WriteFailed`] if the writer failed. Only the first bytes may have been written.
pub fn write_history<W: Sink>(
    alloc: Global,
    part: &ObjectReport,
    writer: &mut W,
) -> Result<(), StreamFault>
    requires writer { W.failed writer.old ≡ false }
    requires sound { IsSound part.now }
    ensures writes { WritesHistory part.now (W.held writer.old) (W.held writer.new) result }
    ensures failing { IsErrOf result WriteFailed ↔ IsTrue (W.failed writer.new) }
{
    let head = history_head_of(alloc, part)?;
    let end = end_of(alloc, head.entries, part)?;
    let mut lines = LineWriter::open(alloc, b"")?;
    match write_between(
        &mut lines,
        writer,
        &head.lines,
        &part.history,
        head.entries,
        &end,
    ) {
        Ok(()) => Ok(()),
        Err(_) => Err(StreamFault::WriteFailed),
    }
}
