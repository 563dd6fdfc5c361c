//! One call for each stream, over any source and sink, with its result as a plain value.

ghost use Rattle.std.specs.Prelude.{◌≡◌, false};

use audit::verdict::Verdict;
use driver::audit_stream::audit_stream;
use driver::choice::Choice;
use driver::form::Form;
use driver::replay_stream::replay_stream;
use driver::tell_stream::tell_stream;
use driver::telling::Telling;
use picture::naming::Names;
use std::alloc::Global;
use std::io;
use streams::device::Device;
use streams::memory_sink::MemorySink;
use streams::memory_source::MemorySource;
use streams::sink::Sink;
use streams::source::Source;
use streams::stream_fault::StreamFault;

/// A stream that a text goes through.
#[derive(Clone, Copy)]
pub enum Stream {
    Replay,
    History,
    Audit,
    Draw,
}

/// Whether the call succeeded as it must; for an audit or a drawing whether the history is legal.
pub type Came = Result<bool, StreamFault>;

const ALL: Choice = Choice {
    from: None,
    to: None,
};

fn answered(answer: Result<(), StreamFault>) -> Came {
    match answer {
        Ok(()) => Ok(true),
        Err(fault) => Err(fault),
    }
}

fn judged(verdict: Result<Verdict, StreamFault>) -> Came {
    match verdict {
        Ok(Verdict::Legal) => Ok(true),
        Ok(Verdict::NotLegal(_)) => Ok(false),
        Err(fault) => Err(fault),
    }
}

fn between<R: Source, W: Sink>(
    alloc: Global,
    stream: Stream,
    reader: &mut R,
    writer: &mut W,
) -> Came
    requires reader { R.failed reader.old ≡ false }
    requires writer { W.failed writer.old ≡ false }
{
    match stream {
        Stream::Replay => answered(replay_stream(alloc, reader, writer, Form::Replay)),
        Stream::History => answered(replay_stream(alloc, reader, writer, Form::History)),
        Stream::Audit => judged(audit_stream(alloc, reader, writer)),
        Stream::Draw => {
            let names = Names::none(alloc);
            judged(tell_stream(alloc, &names, reader, writer, Telling::Draw(ALL)))
        }
    }
}

/// Appends what a stream writes for a text.
pub fn through(alloc: Global, stream: Stream, text: &[u8], out: &mut Vec<u8>) -> Came {
    between(alloc, stream, &mut Device::new(text), &mut Device::new(out))
}

/// The same, to a writer of std.
pub fn through_to<W: io::Write + Drop>(alloc: Global, stream: Stream, text: &[u8], out: W) -> Came {
    between(alloc, stream, &mut Device::new(text), &mut Device::new(out))
}

/// How a text is read, and where the output goes.
#[derive(Clone, Copy)]
pub struct Ways {
    /// The most bytes of a read and of a write.
    pub piece: usize,
    /// The read that fails.
    pub read: Option<u64>,
    /// The write that fails.
    pub write: Option<u64>,
    /// The places of the sink.
    pub places: usize,
}

/// Returns whether each device has failed if and only if the fault says so.
fn fail_as_told(came: Came, read_failed: bool, write_failed: bool) -> bool {
    read_failed == (came == Err(StreamFault::ReadFailed))
        && write_failed == (came == Err(StreamFault::WriteFailed))
}

/// The same, with a copy of what the sink took. It returns `Ok(false)` if a device failed and the fault
/// doesn't say so.
fn to_sink(
    alloc: Global,
    stream: Stream,
    source: &mut MemorySource,
    ways: Ways,
    out: &mut Vec<u8>,
) -> Came
    requires { source.old.failed ≡ false }
{
    match MemorySink::with_places(alloc, ways.places, ways.piece.max(1), ways.write) {
        Ok(mut sink) => {
            let came = between(alloc, stream, source, &mut sink);
            let is_kept = out.extend_from_slice(sink.bytes()).is_ok();
            if is_kept && fail_as_told(came, source.has_failed(), sink.has_failed()) {
                came
            } else {
                Ok(false)
            }
        }
        Err(_) => Err(StreamFault::Memory),
    }
}

/// Returns the result of a stream over devices in memory. What it writes is in `out`.
pub fn streamed(alloc: Global, stream: Stream, text: &[u8], ways: Ways, out: &mut Vec<u8>) -> Came {
    out.clear();
    match Vec::from_slice(alloc, text) {
        Ok(bytes) => {
            let mut source = MemorySource::new(bytes, ways.piece.max(1), ways.read);
            to_sink(alloc, stream, &mut source, ways, out)
        }
        Err(_) => Err(StreamFault::Memory),
    }
}
