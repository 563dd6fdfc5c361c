//! From a history text to what is told of the history.

ghost use Rattle.std.specs.Prelude.{◌≡◌, ◌↔◌, List, IsTrue, IfErr, IfOk, IsErrOf, OnOk, false};
ghost use Rattle.std.specs.Io.KnownBytes.{IsAtEnd};
ghost use Rattle.driver.specs.Below.{verdict_of, Entry, history_form};
ghost use Rattle.driver.specs.Telling.{Tells, TellsHistory};
ghost use Rattle.driver.specs.TextReader.{IsFaultOf};
ghost use Rattle.driver.specs.inner.Judged.{IsJudged, IsJudgedFor};
ghost use Rattle.driver.specs.inner.Telling.{IsToldFor};

use crate::audited::audited_text;
use crate::drawn::drawn_text;
use crate::explained::explained;
use crate::judged::{Judged, judged_of};
use crate::paged::paged_text;
use crate::summed::summed_text;
use crate::telling::Telling;
use audit::verdict::Verdict;
use picture::naming::Names;
use std::alloc::{AllocError, Global};
use streams::reading_on::told_at_the_end;
use streams::sink::Sink;
use streams::source::Source;
use streams::stream_fault::StreamFault;
use streams::writing::write_all;

/// A verdict, and the text that is written for it.
#[derive(Drop)]
pub(crate) struct Told {
    pub(crate) verdict: Verdict,
    pub(crate) text: Vec<u8>,
}

/// Reads a history text, judges the history from its base on, and writes what is to be told of it. Returns the
/// verdict as well, whose number counts entries from the base on. A history that isn't legal is drawn, shown and
/// summed up to its first illegal entry. A picture and a page show the names that were given to seats and
/// conditions.
///
/// Each entry is judged as its line is read. Entries are kept only up to the last that is told of. As in
/// [`replay_stream`](crate::replay_stream::replay_stream) all is read, and all memory reserved, before anything
/// is written. Nothing is written if the text has a fault, if reading fails or if an allocation fails. On success,
/// and after a fault of the text, the source is read to its end. After a failed allocation nothing more is read.
pub fn tell_stream<R: Source, W: Sink>(
    alloc: Global,
    names: &Names,
    reader: &mut R,
    writer: &mut W,
    telling: Telling,
) -> Result<Verdict, StreamFault>
    requires reader { R.failed reader.old ≡ false }
    requires writer { W.failed writer.old ≡ false }
    ensures { TellsHistory telling (R.left reader.old) (W.held writer.old) result (R.left reader.new)
        (W.held writer.new) (R.failed reader.new) (W.failed writer.new) }
{
    match told_of(alloc, names, reader, telling) {
        Ok(told) => match write_all(writer, &told.text) {
            Ok(()) => Ok(told.verdict),
            Err(_) => Err(StreamFault::WriteFailed),
        },
        Err(fault) => Err(told_at_the_end(reader, fault)),
    }
}

/// Returns the verdict on the history text that a source has, and what is told of it.
fn told_of<R: Source>(
    alloc: Global,
    names: &Names,
    reader: &mut R,
    telling: Telling,
) -> Result<Told, StreamFault>
    requires { R.failed reader.old ≡ false }
    ensures ok { IfOk result (IsToldFor telling (R.left reader.old)) }
    ensures err { IfErr result (IsFaultOf history_form (R.left reader.old) (R.left reader.new)) }
    ensures ended { OnOk result (IsAtEnd (R.left reader.new)) }
    ensures failing { IsErrOf result StreamFault.ReadFailed ↔ IsTrue (R.failed reader.new) }
{
    let judged = judged_of(alloc, reader, telling)?;
    let verdict = judged.judgement.verdict();
    let text = text_of(alloc, names, telling, judged)?;
    Ok(Told { verdict, text })
}

/// Returns what is told of a history that was judged.
fn text_of(
    alloc: Global,
    names: &Names,
    telling: Telling,
    judged: Judged,
) -> Result<Vec<u8>, AllocError>
    requires { IsJudgedFor telling judged }
    ensures { IfOk result (λ text. (h : List Entry) → IsJudged telling h judged →
        Tells telling judged.base h (verdict_of judged.judgement) text.items) }
{
    match telling {
        Telling::Audit(notation) => audited_text(alloc, notation, &judged),
        Telling::Draw(choice) => drawn_text(alloc, names, choice, judged),
        Telling::Page(choice) => paged_text(alloc, names, choice, judged),
        Telling::Explain(at, notation) => explained(alloc, at, notation, judged),
        Telling::Summary(notation) => summed_text(alloc, notation, judged),
    }
}
