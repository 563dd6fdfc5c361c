//! Callers of `driver`, over sources and sinks in memory.

ghost use Rattle.std.specs.Prelude.{◌≡◌, [], Some, IfOk};
ghost use Rattle.std.specs.Io.KnownBytes.{Appends};
ghost use Rattle.audit.specs.declared.verdict.Verdict.TheVariants.{Legal};
ghost use Rattle.driver.specs.Telling.{Audited};
ghost use Rattle.driver.specs.ReplayStream.{Replayed};

use audit::verdict::Verdict;
use driver::audit_stream::audit_stream;
use driver::form::Form;
use driver::replay_stream::replay_stream;
use std::alloc::Global;
use streams::memory_sink::MemorySink;
use streams::memory_source::MemorySource;
use streams::stream_fault::StreamFault;

/// The most bytes of a read or a write.
const PIECE: usize = 4096;

/// Replays a steps text. Returns a sink that holds the history text, which may have at most `most` bytes.
pub fn history_of(alloc: Global, steps: Vec<u8>, most: usize) -> Result<MemorySink, StreamFault>
    ensures { IfOk result (λ sink. Replayed Form.History steps.items (Appends (Some []) (Some sink.held))) }
{
    let mut source = MemorySource::new(steps, PIECE, None);
    let mut sink = MemorySink::with_places(alloc, most, PIECE, None)?;
    replay_stream(alloc, &mut source, &mut sink, Form::History)?;
    Ok(sink)
}

/// Returns the verdict on a history text.
pub fn verdict_on(alloc: Global, history: Vec<u8>) -> Result<Verdict, StreamFault>
    ensures { IfOk result (λ verdict. Audited history.items verdict (λ _. Unit {0})) }
{
    let mut source = MemorySource::new(history, PIECE, None);
    let mut sink = MemorySink::with_places(alloc, 256, PIECE, None)?;
    audit_stream(alloc, &mut source, &mut sink)
}
