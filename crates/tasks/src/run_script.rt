//! Running a script, from its text to the run text.

ghost use Rattle.std.specs.Prelude.{◌≡◌, ◌≤◌, ◌⊎◌, ◌↔◌, false, true, All, IfErr, IfOk, IfSome, IsErrOf, IsTrue, OnOk};
ghost use Rattle.std.specs.Io.KnownBytes.{IsAtEnd};
ghost use Rattle.run_text.specs.inner.{IsLegalPart};
ghost use Rattle.script.specs.Reading.{Reads};
ghost use Rattle.streams.specs.declared.stream_fault.StreamFault.TheVariants.{ReadFailed, WriteFailed};
ghost use Rattle.tasks.specs.RunScript.{IsFaultOfScript, IsReadOut, Runs};
ghost use Rattle.tasks.specs.declared.fault.Fault.TheVariants.{Stream};

use crate::fault::Fault;
use run_text::RunText;
use script::{Script, read_script};
use std::alloc::Global;
use std::sync::Wait;
use std::thread::Threads;
use std::time::Clock;
use streams::rest::read_all;
use streams::sink::Sink;
use streams::source::Source;
use streams::stream_fault::StreamFault;
use workers::{Keep, ObjectReport, OpenGate, run_threads};

/// Returns the script that a source has. It is read to its end.
pub fn script_of<R: Source>(alloc: Global, reader: &mut R) -> Result<Script, Fault>
    requires { R.failed reader.old ≡ false }
    ensures ok { IfOk result (λ script. IfSome (R.left reader.old) (λ text. Reads text (Ok script))) }
    ensures err { IfErr result (IsFaultOfScript (R.left reader.old)) }
    ensures end { IsReadOut result (R.left reader.new) }
    ensures failing { IsErrOf result (Stream ReadFailed) ↔ IsTrue (R.failed reader.new) }
{
    let text = read_all(alloc, reader)?;
    Ok(read_script(alloc, &text)?)
}

/// Returns the exit status: 0, or 1 if some history isn't legal.
fn status_of(parts: &[ObjectReport]) -> u8
    ensures legal { (result ≡ 0) ↔ All IsLegalPart parts.now }
    ensures others { result ≤ 1 }
{
    if parts.iter().all(|part| part.is_legal()) {
        0
    } else {
        1
    }
}

/// Reads a script, runs its threads, and writes the run text. Returns the exit status, which is 0, since each
/// history is legal.
///
/// The script is read to its end before a thread is started. Nothing is written before all threads have ended
/// and all memory is reserved. If the threads wait for each other, this may never return.
///
/// # Errors
///
/// The fault of the source, of the script, of the run or of the sink. Only a failed sink may have been given
/// something: the first bytes of the run text.
pub fn run_script<T: AllocGlobal + Threads + Wait + Clock + Sync, R: Source, W: Sink>(
    rt: &T,
    reader: &mut R,
    writer: &mut W,
) -> Result<u8, Fault>
    requires reader { R.failed reader.old ≡ false }
    requires writer { W.failed writer.old ≡ false }
    ensures runs { Runs (R.left reader.old) (W.held writer.old) (W.held writer.new) result }
    ensures end { IsReadOut result (R.left reader.new) }
    ensures read { IsErrOf result (Stream ReadFailed) ↔ IsTrue (R.failed reader.new) }
    ensures write { IsErrOf result (Stream WriteFailed) ↔ IsTrue (W.failed writer.new) }
{
    let alloc = rt.alloc();
    let script = script_of(alloc, reader)?;
    let report = run_threads(rt, alloc, &script, &OpenGate, Keep::Count)?;
    let status = status_of(&report.objects);
    let text = RunText::of(alloc, &script, report)?;
    match text.write(writer) {
        Ok(()) => Ok(status),
        Err(_) => Err(Fault::Stream(StreamFault::WriteFailed)),
    }
}
