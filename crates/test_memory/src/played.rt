//! What is played with memory and without it: texts that go through streams, and openings. A call is one
//! value of [`Play`]. Its result is a plain value, with bytes to compare.

ghost use Rattle.std.specs.Prelude.{◌≡◌};
ghost use Rattle.history.specs.Header.{IsInRange};

use crate::any_core::AnyCore;
use crate::streamed::{Came, Stream, through};
use crate::texts::{HISTORY, SCRIPT, STEPS};
use acquire_queue::queue::Queue;
use condition_queue::waiters::Waiters;
use frame::acts::Act;
use history::base::Base;
use history::entries::History;
use history::fault::Fault;
use history::header::{Header, Object, Policy};
use history::step::Step;
use history_text::fitting::fits;
use history_text::{read_text, write_text};
use monitor_fronts::{open_latch, open_lock, open_read_write_lock, open_semaphore};
use node_arena::node_list::NodeList;
use permit::{ScriptedParking, ThreadParking};
use read_write::hooks::RwHooks;
use script::{ScriptFault, read_script};
use std::alloc::Global;
use std::time::Clock;
use steps::read_steps;
use streams::device::Device;
use streams::fault::ReadFault;
use streams::rest::read_all;
use streams::stream_fault::StreamFault;

/// One call to play.
#[derive(Clone, Copy)]
pub enum Play<'a> {
    /// A text through a stream.
    Through(Stream, &'a [u8]),
    /// A history text is read, and written again.
    Again(&'a [u8]),
    /// A steps text is read as a list.
    Steps(&'a [u8]),
    /// Bytes are read whole.
    Bytes(&'a [u8]),
    Script(&'a [u8]),
    /// A core performs many steps in one run.
    Run,
    /// The same as a list of acts.
    RunActs,
    Core(Header),
    Base(Header),
    /// The hooks of a read-write lock of 256 seats.
    Readers,
    /// A queue of 256 seats.
    Line,
    /// The waiters of 256 seats on three conditions.
    Sleepers,
    Nodes,
    /// The monitors of the four front types, with four seats.
    Lock,
    ReadWriteLock,
    Semaphore,
    Latch,
    /// A parking for four threads.
    Threads,
    /// A scripted parking that records four calls.
    Scripted,
}

fn opened<T: Drop>(made: Result<T, Fault>) -> Came {
    match made {
        Ok(_) => Ok(true),
        Err(Fault::OutOfMemory) => Err(StreamFault::Memory),
        Err(_) => Ok(false),
    }
}

/// Returns whether a read has this number of items.
fn read_as(items: Result<usize, ReadFault>, wanted: usize) -> Came {
    match items {
        Ok(found) => Ok(found == wanted),
        Err(ReadFault::OutOfMemory) => Err(StreamFault::Memory),
        Err(ReadFault::Text(fault)) => Err(StreamFault::Text(fault)),
    }
}

fn written(alloc: Global, header: &Header, history: &History, out: &mut Vec<u8>) -> Came
    requires { IsInRange header.now }
{
    if !fits(header, history) {
        return Ok(false);
    }
    match write_text(alloc, header, history) {
        Ok(text) => Ok(out.extend_from_slice(&text).is_ok()),
        Err(_) => Err(StreamFault::Memory),
    }
}

fn written_again(alloc: Global, text: &[u8], out: &mut Vec<u8>) -> Came {
    match read_text(alloc, text) {
        Ok((header, history)) => written(alloc, &header, &history, out),
        Err(fault) => read_as(Err(fault), 0),
    }
}

/// Reads a text as a list. It must have as many acts as the text has lines between the first and the last.
fn listed(alloc: Global, text: &[u8]) -> Came {
    let lines = text.iter().filter(|byte| **byte == b'\n').count();
    match read_steps(alloc, text) {
        Ok(read) => read_as(Ok(read.acts.len().saturating_add(2)), lines),
        Err(fault) => read_as(Err(fault), 0),
    }
}

fn all_read(alloc: Global, text: &[u8]) -> Came {
    match read_all(alloc, &mut Device::new(text)) {
        Ok(bytes) => Ok(bytes.as_slice() == text),
        Err(fault) => Err(fault),
    }
}

fn scripted(alloc: Global, text: &[u8], out: &mut Vec<u8>) -> Came {
    match read_script(alloc, text) {
        Ok(script) => Ok(out.push((script.workers().len() % 256) as u8).is_ok()),
        Err(ScriptFault::OutOfMemory) => Err(StreamFault::Memory),
        Err(_) => Ok(false),
    }
}

/// How many steps are made in one run.
const MANY: usize = 500;

const THREE_SEATS: Header = Header {
    object: Object::Lock(Policy::Fair),
    seats: 3,
    conditions: 2,
    cap: 64,
};

/// Performs many looks of a core in one run. Each fails with a fault, and none allocates.
fn look(alloc: Global, core: &mut AnyCore, by_acts: bool) -> Came {
    if by_acts {
        match core.run_acts(alloc, &[Act::Do(0, Step::Look); MANY]) {
            Ok(outcomes) => Ok(outcomes.len() == MANY),
            Err(fault) => opened::<()>(Err(fault)),
        }
    } else {
        match core.run(alloc, &[(0, Step::Look); MANY]) {
            Ok(answers) => Ok(answers.len() == MANY),
            Err(fault) => opened::<()>(Err(fault)),
        }
    }
}

fn opened_and_run(alloc: Global, by_acts: bool) -> Came {
    match AnyCore::open(alloc, &THREE_SEATS) {
        Ok(mut core) => look(alloc, &mut core, by_acts),
        Err(fault) => opened::<()>(Err(fault)),
    }
}

/// Plays a text.
fn read(alloc: Global, what: Play, out: &mut Vec<u8>) -> Came {
    match what {
        Play::Through(stream, text) => through(alloc, stream, text, out),
        Play::Again(text) => written_again(alloc, text, out),
        Play::Steps(text) => listed(alloc, text),
        Play::Bytes(text) => all_read(alloc, text),
        Play::Script(text) => scripted(alloc, text, out),
        _ => Ok(false),
    }
}

fn front(alloc: Global, what: Play) -> Came {
    match what {
        Play::Lock => opened(open_lock(alloc, Policy::Fair, 4, 1, 16)),
        Play::ReadWriteLock => opened(open_read_write_lock(alloc, Policy::NonFair, 4, 1, 16)),
        Play::Semaphore => opened(open_semaphore(alloc, Policy::NonFair, 3, 4, 16)),
        Play::Latch => opened(open_latch(alloc, 2, 4, 16)),
        _ => Ok(false),
    }
}

/// Plays a call once. What is written is appended.
pub fn perform(rt: &(impl AllocGlobal + Clock), what: Play, out: &mut Vec<u8>) -> Came {
    let alloc = rt.alloc();
    match what {
        Play::Run => opened_and_run(alloc, false),
        Play::RunActs => opened_and_run(alloc, true),
        Play::Core(header) => opened(AnyCore::open(alloc, &header)),
        Play::Base(header) => opened(Base::open(alloc, &header)),
        Play::Readers => opened(RwHooks::open(alloc, Policy::Fair, 256)),
        Play::Line => opened(Queue::open(alloc, 256)),
        Play::Sleepers => opened(Waiters::open(alloc, 3, 256)),
        Play::Nodes => opened(NodeList::with_places(alloc, 128)),
        Play::Threads => opened(ThreadParking::open(rt, alloc, 4)),
        Play::Scripted => opened(ScriptedParking::open(alloc, Vec::new(alloc), 4)),
        Play::Lock | Play::ReadWriteLock | Play::Semaphore | Play::Latch => front(alloc, what),
        _ => read(alloc, what, out),
    }
}

/// The size of a frame that is larger than those from which the calls are played later.
const FRAME: usize = 32_768;

/// Plays the calls that need most stack while there is memory, from a frame of its own. So the stack is then
/// deeper than any later call makes it, when there may be no memory for it.
#[inline(never)]
pub fn deepen(rt: &(impl AllocGlobal + Clock), out: &mut Vec<u8>) {
    let mut frame = [0; FRAME];
    frame[out.capacity() % FRAME] = 1;
    for what in [
        Play::Script(SCRIPT),
        Play::Again(HISTORY),
        Play::Through(Stream::Draw, HISTORY),
        Play::Through(Stream::Replay, STEPS),
        Play::ReadWriteLock,
        Play::RunActs,
    ] {
        let _came = perform(rt, what, out);
        out.clear();
    }
    let _is_used = out.extend_from_slice(&frame);
    out.clear();
}
