//! From a history text to an audit text.

ghost use Rattle.std.specs.Prelude.{◌≡◌, false};
ghost use Rattle.driver.specs.Telling.{TellsHistory};
ghost use Rattle.driver.specs.declared.notation.Notation.TheVariants.{Lines};
ghost use Rattle.driver.specs.declared.telling.Telling.TheVariants.{Audit};

use crate::notation::Notation;
use crate::tell_stream::tell_stream;
use crate::telling::Telling;
use audit::verdict::Verdict;
use picture::naming::Names;
use std::alloc::Global;
use streams::sink::Sink;
use streams::source::Source;
use streams::stream_fault::StreamFault;

/// Reads a history text, judges the history from its base on, and writes the audit text. Returns the verdict
/// as well. The verdict's number counts entries from the base on; the number in the text counts the folded
/// ones too. No entry is kept.
pub fn audit_stream<R: Source, W: Sink>(
    alloc: Global,
    reader: &mut R,
    writer: &mut W,
) -> Result<Verdict, StreamFault>
    requires reader { R.failed reader.old ≡ false }
    requires writer { W.failed writer.old ≡ false }
    ensures { TellsHistory (Audit Lines) (R.left reader.old) (W.held writer.old) result (R.left reader.new)
        (W.held writer.new) (R.failed reader.new) (W.failed writer.new) }
{
    let names = Names::none(alloc);
    tell_stream(
        alloc,
        &names,
        reader,
        writer,
        Telling::Audit(Notation::Lines),
    )
}
