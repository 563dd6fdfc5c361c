//! Explaining a text: a history, or where a text is wrong.

ghost use Rattle.std.specs.Prelude.{◌≡◌, ◌↔◌, false, IfOk, IsErrOf, IsTrue};
ghost use Rattle.streams.specs.declared.stream_fault.StreamFault.TheVariants.{ReadFailed, WriteFailed};
ghost use Rattle.tasks.specs.Explain.{ExplainsText, IsUnreadTold, Says, TellsUnread, unread_text};
ghost use Rattle.tasks.specs.declared.fault.Fault.TheVariants.{Stream};

use crate::fault::Fault;
use crate::perform::perform;
use crate::task::Task;
use crate::text_source::TextSource;
use driver::notation::Notation;
use explaining::json::{WrongText, right_json, unread_json, wrong_json};
use fault_places::report::{Kind, Report, report_of};
use fault_places::wrong::{Part, Wrong};
use std::alloc::{AllocError, Global};
use streams::rest::read_all;
use streams::sink::Sink;
use streams::source::Source;
use streams::stream_fault::StreamFault;
use streams::writing::write_all;

/// Writes what is said of a text, and returns the status.
pub fn write_told<W: Sink>(writer: &mut W, told: &[u8], status: u8) -> Result<u8, Fault>
    requires { W.failed writer.old ≡ false }
    ensures says { Says status told.now (W.held writer.old) (W.held writer.new) result }
    ensures write { IsErrOf result (Stream WriteFailed) ↔ IsTrue (W.failed writer.new) }
{
    match write_all(writer, told) {
        Ok(()) => Ok(status),
        Err(_) => Err(Fault::Stream(StreamFault::WriteFailed)),
    }
}

/// Returns what is said of a right text that is no history text.
fn right(alloc: Global, kind: Kind, notation: Notation) -> Result<Vec<u8>, AllocError> {
    match notation {
        Notation::Lines => {
            let mut told = Vec::new(alloc);
            told.extend_from_slice(kind.right())?;
            Ok(told)
        }
        Notation::Json => right_json(alloc, kind.name()),
    }
}

/// Returns what is said of a text that is wrong.
fn wrong_told(alloc: Global, wrong: &Wrong, notation: Notation) -> Result<Vec<u8>, AllocError> {
    match notation {
        Notation::Lines => Ok(wrong.lines(alloc)?.into_bytes()),
        Notation::Json => object_of_wrong(alloc, wrong),
    }
}

/// Returns the object of a text that is wrong.
fn object_of_wrong(alloc: Global, wrong: &Wrong) -> Result<Vec<u8>, AllocError> {
    let (line, part) = match wrong.part {
        Part::Line(line) => (Some(line), None),
        Part::Script(_, _) => (None, Some(wrong.part.name(alloc)?)),
    };
    let told = WrongText {
        line,
        column: wrong.said.column,
        part: part.as_ref().map(|it| it.as_str()),
        found: wrong.said.found.as_ref().map(|it| it.as_str()),
        expected: &[wrong.said.expected],
        example: wrong.said.example.as_ref().map(|it| it.as_str()),
    };
    wrong_json(alloc, &told)
}

/// Reads a text to its end. Of a right history it explains an entry, as the task does. Of a right steps text
/// or script it says so. Of any other text it says where it is wrong. Returns the exit status, which is 1 for
/// a wrong text. As JSON it writes one object.
pub fn explain<R: Source, W: Sink>(
    alloc: Global,
    reader: &mut R,
    writer: &mut W,
    at: Option<u64>,
    notation: Notation,
) -> Result<u8, Fault>
    requires reader { R.failed reader.old ≡ false }
    requires writer { W.failed writer.old ≡ false }
    ensures explains { ExplainsText at notation (R.left reader.old) (W.held writer.old) (W.held writer.new)
        result }
    ensures read { IsErrOf result (Stream ReadFailed) ↔ IsTrue (R.failed reader.new) }
    ensures write { IsErrOf result (Stream WriteFailed) ↔ IsTrue (W.failed writer.new) }
{
    let text = read_all(alloc, reader)?;
    match report_of(alloc, &text)? {
        Report::Right(kind) => write_told(writer, &right(alloc, kind, notation)?, 0),
        Report::Wrong(wrong) => write_told(writer, &wrong_told(alloc, &wrong, notation)?, 1),
        Report::History => {
            let mut source = TextSource::new(&text);
            perform(alloc, &mut source, writer, Task::Explain(at, notation))
        }
    }
}

/// Returns what is said of a file that can't be read.
fn unread_text(alloc: Global, name: &str, reason: &str) -> Result<Vec<u8>, AllocError>
    ensures { IfOk result (λ told. told.items ≡ unread_text name.now reason.now) }
{
    let mut told = Vec::new(alloc);
    told.extend_from_slice(b"cannot read ")?;
    told.extend_from_slice(name.as_bytes())?;
    told.extend_from_slice(b": ")?;
    told.extend_from_slice(reason.as_bytes())?;
    told.push(b'\n')?;
    Ok(told)
}

/// Returns what is said of a file that can't be read, in a notation.
fn unread_told(
    alloc: Global,
    name: &str,
    reason: &str,
    notation: Notation,
) -> Result<Vec<u8>, AllocError>
    ensures { IfOk result (λ told. IsUnreadTold notation name.now reason.now told.items) }
{
    match notation {
        Notation::Lines => unread_text(alloc, name, reason),
        Notation::Json => unread_json(alloc, name, reason),
    }
}

/// Writes that a file can't be read, and the system's reason. Returns the exit status, which is 1.
pub fn tell_unread<W: Sink>(
    alloc: Global,
    writer: &mut W,
    name: &str,
    reason: &str,
    notation: Notation,
) -> Result<u8, Fault>
    requires { W.failed writer.old ≡ false }
    ensures says { TellsUnread notation name.now reason.now (W.held writer.old) (W.held writer.new) result }
    ensures write { IsErrOf result (Stream WriteFailed) ↔ IsTrue (W.failed writer.new) }
{
    let told = unread_told(alloc, name, reason, notation)?;
    write_told(writer, &told, 1)
}
