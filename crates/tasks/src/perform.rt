//! Performing a task, from a source to a sink.

ghost use Rattle.std.specs.Prelude.{◌≡◌, ◌↔◌, false, IsErrOf, IsTrue};
ghost use Rattle.streams.specs.declared.stream_fault.StreamFault.TheVariants.{ReadFailed, WriteFailed};
ghost use Rattle.driver.specs.Telling.{WritesTold};
ghost use Rattle.tasks.specs.Perform.{IsHistoryRead, IsReadOutFor, Judges, Performs, PerformsWith, status_for};
ghost use Rattle.tasks.specs.declared.fault.Fault.TheVariants.{Stream};

use crate::fault::Fault;
use crate::task::Task;
use audit::verdict::Verdict;
use driver::replay_stream::replay_stream;
use driver::tell_stream::tell_stream;
use driver::telling::Telling;
use picture::naming::Names;
use std::alloc::Global;
use streams::sink::Sink;
use streams::source::Source;

/// Returns the exit status for a verdict.
pub(crate) fn status_for(verdict: Verdict) -> u8
    ensures { result ≡ status_for verdict }
{
    match verdict {
        Verdict::Legal => 0,
        Verdict::NotLegal(_) => 1,
    }
}

/// Performs a task: reads the source, writes to the sink, and returns the exit status. That is 0, or 1 for a
/// history that isn't legal.
///
/// It reads, writes and fails as the stream of the task does.
pub fn perform<R: Source, W: Sink>(
    alloc: Global,
    reader: &mut R,
    writer: &mut W,
    task: Task,
) -> Result<u8, Fault>
    requires reader { R.failed reader.old ≡ false }
    requires writer { W.failed writer.old ≡ false }
    ensures performs { Performs task (R.left reader.old) (W.held writer.old) (W.held writer.new) result }
    ensures end { IsReadOutFor task (R.left reader.old) result (R.left reader.new) }
    ensures read { IsErrOf result (Stream ReadFailed) ↔ IsTrue (R.failed reader.new) }
    ensures write { IsErrOf result (Stream WriteFailed) ↔ IsTrue (W.failed writer.new) }
{
    perform_with(alloc, &Names::none(alloc), reader, writer, task)
}

/// As [`perform`]. A picture or a page shows the names that were given to seats and conditions.
pub fn perform_with<R: Source, W: Sink>(
    alloc: Global,
    names: &Names,
    reader: &mut R,
    writer: &mut W,
    task: Task,
) -> Result<u8, Fault>
    requires reader { R.failed reader.old ≡ false }
    requires writer { W.failed writer.old ≡ false }
    ensures performs { PerformsWith names.now task (R.left reader.old) (W.held writer.old) (W.held writer.new)
        result }
    ensures end { IsReadOutFor task (R.left reader.old) result (R.left reader.new) }
    ensures read { IsErrOf result (Stream ReadFailed) ↔ IsTrue (R.failed reader.new) }
    ensures write { IsErrOf result (Stream WriteFailed) ↔ IsTrue (W.failed writer.new) }
{
    match task {
        Task::Replay(form) => {
            replay_stream(alloc, reader, writer, form)?;
            Ok(0)
        }
        Task::Audit(notation) => told(alloc, names, reader, writer, Telling::Audit(notation)),
        Task::Draw(choice) => told(alloc, names, reader, writer, Telling::Draw(choice)),
        Task::Page(choice) => told(alloc, names, reader, writer, Telling::Page(choice)),
        Task::Explain(at, notation) => {
            told(alloc, names, reader, writer, Telling::Explain(at, notation))
        }
        Task::Summary(notation) => told(alloc, names, reader, writer, Telling::Summary(notation)),
    }
}

/// Writes what is to be told of a history, and returns the exit status.
fn told<R: Source, W: Sink>(
    alloc: Global,
    names: &Names,
    reader: &mut R,
    writer: &mut W,
    telling: Telling,
) -> Result<u8, Fault>
    requires reader { R.failed reader.old ≡ false }
    requires writer { W.failed writer.old ≡ false }
    ensures performs { Judges (WritesTold telling (R.left reader.old) (W.held writer.old) (W.held writer.new))
        result }
    ensures end { IsHistoryRead (R.left reader.old) result (R.left reader.new) }
    ensures read { IsErrOf result (Stream ReadFailed) ↔ IsTrue (R.failed reader.new) }
    ensures write { IsErrOf result (Stream WriteFailed) ↔ IsTrue (W.failed writer.new) }
{
    Ok(status_for(tell_stream(alloc, names, reader, writer, telling)?))
}
