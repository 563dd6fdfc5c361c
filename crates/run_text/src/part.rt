//! The text of one object of a run.

ghost use Rattle.std.specs.Prelude.{◌≡◌, ◌↔◌, [], false, IfErr, IfOk, IsErr, IsTrue, OnErr, OnOk};
ghost use Rattle.std.specs.Io.KnownBytes.{Appends};
ghost use Rattle.run_text.specs.Below.{IsBasedWell, base_on, IsInRange, AppendsFront, Memory};
ghost use Rattle.run_text.specs.RunText.{base_of, part_text};
ghost use Rattle.run_text.specs.inner.{IsJudged, foot_text, head_text};

use crate::entry_lines::write_entries;
use driver::audit_text::{audit_text, put_line};
use driver::line_writer::LineWriter;
use history::entries::History;
use history::header::Header;
use history_text::entry_line::put_counts;
use history_text::history_text::put_head;
use std::alloc::Global;
use std::marker::Model;
use streams::sink::Sink;
use streams::source::DeviceFailed;
use streams::stream_fault::StreamFault;
use streams::writing::write_all;
use workers::ObjectReport;

/// The text of one object of a run. All its memory is reserved.
#[derive(Drop)]
pub(crate) struct PartText {
    /// The lines before those of the entries.
    head: Vec<u8>,
    history: History,
    /// The number of the first entry.
    first: u64,
    /// The lines after those of the entries.
    foot: Vec<u8>,
}

impl Model for PartText {
    ghost use Rattle.std.specs.Prelude.{◌++◌, ◌≤◌, ℕ, List, All, reverse};
    ghost use Rattle.history.specs.EntryWords.{IsSpelt};
    ghost use Rattle.history.specs.declared.limits.TheConstants.{MOST_FOLDED};
    ghost use Rattle.history_text.specs.Pieces.{entry_lines};

    ghost Value = { List ℕ };

    ghost view = { λ p.
        p.head.items ++ entry_lines p.first (reverse p.history.entries) ++ p.foot.items };

    ghost invariant = { λ p. All IsSpelt (reverse p.history.entries) × (p.first ≤ MOST_FOLDED) };
}

/// The lines before the entries, and what they count.
#[derive(Drop)]
pub(crate) struct Head {
    pub lines: Vec<u8>,
    /// How many entries were folded.
    pub entries: u64,
}

/// Returns the line of a name, the first line of a history text and the lines of the base.
fn head_of(
    alloc: Global,
    name: &[u8],
    header: &Header,
    history: &History,
) -> Result<Head, StreamFault>
    requires range { IsInRange header.now }
    requires based { IsBasedWell header.now history.now.base }
    ensures lines { IfOk result (λ head. head.lines.items
        ≡ head_text name.now (base_on header.now history.now)) }
    ensures entries { IfOk result (λ head. head.entries ≡ (base_on header.now history.now).entries) }
    ensures err { IfErr result (λ fault. fault ≡ Memory) }
{
    let mut lines = Vec::from_slice(alloc, b"object ")?;
    lines.extend_from_slice(name)?;
    lines.push(b'\n')?;
    let (entries, _) = put_head(&mut lines, header, history.base())?;
    Ok(Head { lines, entries })
}

/// Returns the end line of a history text, the audit's lines on the history, and the line of the merged
/// share.
fn foot_of(alloc: Global, head: &Head, part: &ObjectReport) -> Result<Vec<u8>, StreamFault>
    requires judged { IsJudged part.now }
    requires folded { head.now.entries ≡ (base_of part.now).entries }
    ensures ok { IfOk result (λ foot. foot.items ≡ foot_text part.now) }
    ensures err { IfErr result (λ fault. fault ≡ Memory) }
{
    let object = part.header.object;
    let entries = head.entries + part.history.len();
    let calls = part.history.calls();
    let mut foot = Vec::new(alloc);
    put_counts(&mut foot, entries, calls)?;
    foot.push(b'\n')?;
    let audit = audit_text(alloc, object, head.entries, entries, calls, &part.judgement)?;
    foot.extend_from_slice(&audit)?;
    put_line(&mut foot, b"shares ", part.share)?;
    Ok(foot)
}

impl PartText {
    /// Returns the text of an object with this name.
    pub(crate) fn of(
        alloc: Global,
        name: &[u8],
        part: ObjectReport,
    ) -> Result<PartText, StreamFault>
        requires { IsJudged part }
        ensures text { IfOk result (λ text. text ≡ part_text name.now part) }
        ensures err { IfErr result (λ fault. fault ≡ Memory) }
    {
        let head = head_of(alloc, name, &part.header, &part.history)?;
        let foot = foot_of(alloc, &head, &part)?;
        Ok(PartText {
            head: head.lines,
            history: part.history,
            first: head.entries,
            foot,
        })
    }

    /// Writes the text, with a line writer that has gathered nothing.
    pub(crate) fn write<W: Sink>(
        &self,
        lines: &mut LineWriter,
        writer: &mut W,
    ) -> Result<(), DeviceFailed>
        requires writer { W.failed writer.old ≡ false }
        requires none { lines.old.bytes ≡ [] }
        ensures ok { OnOk result (Appends (W.held writer.old) (W.held writer.new) self.now) }
        ensures none { OnOk result (lines.new.bytes ≡ []) }
        ensures err { OnErr result (AppendsFront (W.held writer.old) (W.held writer.new) self.now) }
        ensures failing { IsTrue (W.failed writer.new) ↔ IsErr result }
    {
        write_all(writer, &self.head)?;
        write_entries(lines, writer, &self.history, self.first)?;
        write_all(writer, &self.foot)
    }
}
