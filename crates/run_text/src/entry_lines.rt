//! The lines of entries after a base.

ghost use Rattle.std.specs.Prelude.{◌≡◌, ◌≤◌, ◌↔◌, [], false, All, IsErr, IsTrue, OnErr, OnOk, reverse};
ghost use Rattle.std.specs.Io.KnownBytes.{Appends};
ghost use Rattle.run_text.specs.Below.{IsSpelt, MOST_FOLDED, entry_lines, AppendsFront};

use driver::answers::put_entries;
use driver::line_writer::LineWriter;
use history::entries::History;
use streams::sink::Sink;
use streams::source::DeviceFailed;

/// Writes the lines of all entries, numbered from `first` on. It allocates nothing.
pub(crate) fn write_entries<W: Sink>(
    lines: &mut LineWriter,
    writer: &mut W,
    history: &History,
    first: u64,
) -> Result<(), DeviceFailed>
    requires writer { W.failed writer.old ≡ false }
    requires none { lines.old.bytes ≡ [] }
    requires spelt { All IsSpelt (reverse history.now.entries) }
    requires few { first ≤ MOST_FOLDED }
    ensures ok { OnOk result (Appends (W.held writer.old) (W.held writer.new)
        (entry_lines first (reverse history.now.entries))) }
    ensures none { OnOk result (lines.new.bytes ≡ []) }
    ensures err { OnErr result (AppendsFront (W.held writer.old) (W.held writer.new)
        (entry_lines first (reverse history.now.entries))) }
    ensures failing { IsTrue (W.failed writer.new) ↔ IsErr result }
{
    put_entries(lines, writer, history, first)?;
    lines.flush(writer)
}
