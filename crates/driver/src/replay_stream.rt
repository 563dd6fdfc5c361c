//! From a steps text to a replay text or a history text.

ghost use Rattle.std.specs.Prelude.{◌≡◌, ◌↔◌, false, IsTrue, IfErr, IfOk, IsErrOf, OnOk};
ghost use Rattle.std.specs.Io.KnownBytes.{IsAtEnd};
ghost use Rattle.driver.specs.ReplayStream.{AreAnswersBehind, Replays};
ghost use Rattle.driver.specs.inner.ReplayStream.{AreAnswersTo};
ghost use Rattle.driver.specs.Below.{IsReadNoFurther, Memory, steps_form};
ghost use Rattle.driver.specs.StepReader.{progress};
ghost use Rattle.driver.specs.TextReader.{IsFaultOf, IsFaultOn};

use crate::answers::Answers;
use crate::form::Form;
use crate::replay::replay;
use crate::step_reader::StepReader;
use counting::latch::LatchHooks;
use counting::semaphore::SemaphoreHooks;
use frame::hooks::Hooks;
use frame::machine::Core;
use history::header::Object;
use read_write::hooks::RwHooks;
use reentrant::lock::LockHooks;
use std::alloc::Global;
use streams::reading_on::told_at_the_end;
use streams::sink::Sink;
use streams::source::Source;
use streams::stream_fault::StreamFault;

/// Reads a steps text, performs its steps and trims on a new object of its header, and writes the answers.
///
/// Each line is performed as it is read. Nothing is written before all are performed and all memory is
/// reserved. So nothing is written if the text has a fault, if reading fails or if an allocation fails, also
/// one for a step. On success, and after a fault of the text, the source is read to its end. After a failed
/// allocation nothing more is read.
pub fn replay_stream<R: Source, W: Sink>(
    alloc: Global,
    reader: &mut R,
    writer: &mut W,
    form: Form,
) -> Result<(), StreamFault>
    requires reader { R.failed reader.old ≡ false }
    requires writer { W.failed writer.old ≡ false }
    ensures { Replays form (R.left reader.old) (W.held writer.old) result (R.left reader.new)
        (W.held writer.new) (R.failed reader.new) (W.failed writer.new) }
{
    match answers_to(alloc, reader) {
        Ok(answers) => answers.write(alloc, writer, form),
        Err(fault) => Err(told_at_the_end(reader, fault)),
    }
}

/// Returns the answers to the text that a source has.
fn answers_to<R: Source>(alloc: Global, reader: &mut R) -> Result<Answers, StreamFault>
    requires { R.failed reader.old ≡ false }
    ensures ok { IfOk result (AreAnswersTo (R.left reader.old)) }
    ensures err { IfErr result (IsFaultOf steps_form (R.left reader.old) (R.left reader.new)) }
    ensures memory { OnOk result (IsReadNoFurther steps_form (R.left reader.old) (R.left reader.new)) }
    ensures ended { OnOk result (IsAtEnd (R.left reader.new)) }
    ensures failing { IsErrOf result StreamFault.ReadFailed ↔ IsTrue (R.failed reader.new) }
{
    let mut steps = StepReader::open(alloc, reader)?;
    answers_after_header(alloc, &mut steps, reader)
}

/// Returns the answers of a new core with these hooks.
fn answered<H: Hooks + Drop, R: Source>(
    alloc: Global,
    hooks: H,
    steps: &mut StepReader,
    reader: &mut R,
) -> Result<Answers, StreamFault>
    requires reader { R.failed reader.old ≡ false }
    requires hooks { H.is_opened hooks steps.old.header.header.seats }
    requires object { H.object_of hooks ≡ steps.old.header.header.object }
    ensures ok { IfOk result (AreAnswersBehind (progress steps.old (R.left reader.old))) }
    ensures err { IfErr result (IsFaultOn steps_form (progress steps.old (R.left reader.old))
        (R.left reader.new)) }
    ensures memory { OnOk result (IsFaultOn steps_form (progress steps.old (R.left reader.old))
        (R.left reader.new) Memory) }
    ensures ended { OnOk result (IsAtEnd (R.left reader.new)) }
    ensures failing { IsErrOf result StreamFault.ReadFailed ↔ IsTrue (R.failed reader.new) }
{
    let text = steps.header();
    let header = text.header;
    let Ok(mut core) = Core::open(alloc, hooks, header.seats, header.conditions, header.cap) else {
        return Err(StreamFault::Memory);
    };
    let tape = replay(alloc, &mut core, steps, reader)?;
    Ok(Answers {
        header: text,
        history: core.into_history(),
        tape,
    })
}

/// Returns the answers of a new object with the text's header.
fn answers_after_header<R: Source>(
    alloc: Global,
    steps: &mut StepReader,
    reader: &mut R,
) -> Result<Answers, StreamFault>
    requires reader { R.failed reader.old ≡ false }
    ensures ok { IfOk result (AreAnswersBehind (progress steps.old (R.left reader.old))) }
    ensures err { IfErr result (IsFaultOn steps_form (progress steps.old (R.left reader.old))
        (R.left reader.new)) }
    ensures memory { OnOk result (IsFaultOn steps_form (progress steps.old (R.left reader.old))
        (R.left reader.new) Memory) }
    ensures ended { OnOk result (IsAtEnd (R.left reader.new)) }
    ensures failing { IsErrOf result StreamFault.ReadFailed ↔ IsTrue (R.failed reader.new) }
{
    let header = steps.header().header;
    match header.object {
        Object::Lock(policy) => answered(alloc, LockHooks::open(policy), steps, reader),
        Object::ReadWrite(policy) => match RwHooks::open(alloc, policy, header.seats) {
            Ok(hooks) => answered(alloc, hooks, steps, reader),
            Err(_) => Err(StreamFault::Memory),
        },
        Object::Semaphore(policy, permits) => {
            answered(alloc, SemaphoreHooks::open(policy, permits), steps, reader)
        }
        Object::Latch(count) => answered(alloc, LatchHooks::open(count), steps, reader),
    }
}
