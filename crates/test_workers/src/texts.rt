//! Runs from a script's text to the run text, whose source fails or that lack memory, and run texts that are
//! written.

use crate::runs::count_of;
use run_text::RunText;
use script::read_script;
use std::process::Abort;
use std::sync::Wait;
use std::thread::Threads;
use std::time::Clock;
use streams::device::Device;
use streams::memory_source::MemorySource;
use streams::stream_fault::StreamFault;
use tasks::fault::Fault;
use tasks::run_script::run_script;
use test_support::memory::Memory;
use test_support::watch::Watch;
use workers::{Keep, OpenGate, RunFault, run_threads};

/// The calls of one thread at an object of each kind. Two of their results aren't recorded. Each object
/// except the last is trimmed.
const SCRIPT: &str = "{\"objects\":[[\"a\",\"lock fair seats 1 conditions 1 cap 16\"],\
    [\"b\",\"semaphore nonfair seats 1 permits 2 cap 16\"],[\"c\",\"latch seats 1 count 3 cap 16\"],\
    [\"d\",\"rw nonfair seats 1 conditions 0 cap 16\"]],\"threads\":[{\"repeat\":1,\
    \"calls\":[\"a acquire x 1\",\"a acquire x 1\",\"a trim\",\"a give x 1\",\"b acquire s 1\",\
    \"b give s 5\",\"b trim\",\"b drain\",\"a give x 2\",\"c give s 1\",\"c trim\",\"c trim\",\"d trim\",\
    \"d drain\",\"d acquire s 1\"]}]}";

/// The run text of that script.
const WRITTEN: &str = "object a\naqs-history 2 lock fair seats 1 conditions 1 cap 16\n\
    base 2\nseat 0 calls 2 x 2 s 0\n2 0 gave x 1\nend 3 3\n\
    legal\nbase 2\nentries 3\ncalls 3\nholds x 1 s 0 line 0 sleepers 0\nshares 3\n\
    object b\naqs-history 2 semaphore nonfair seats 1 permits 2 cap 16\n\
    base 2 unheld 4\nseat 0 calls 2 x 0 s 0\n2 0 drained s 6\nend 3 3\n\
    legal\nbase 2\nentries 3\ncalls 3\nheld 6 free 0 created 2 unheld 4 line 0\nshares 3\n\
    object c\naqs-history 2 latch seats 1 count 3 cap 16\n\
    base 1 count 2\nseat 0 calls 1 x 0 s 0\nend 1 1\n\
    legal\nbase 1\nentries 1\ncalls 1\ncount 2 line 0\nshares 1\n\
    object d\naqs-history 1 rw nonfair seats 1 conditions 0 cap 16\n0 0 got s 1\nend 1 1\n\
    legal\nentries 1\ncalls 1\nholds x 0 s 1 line 0 sleepers 0\nshares 1\nunrecorded 2\n";

/// The lines of the answers that no history records.
const LISTED: &str = "thread 0 call 8 BadAmount a give x 2\nthread 0 call 13 WrongMode d drain\n";

/// More bytes than are ever written.
const PLACES: usize = 4096;

/// Returns how many pieces are freed in a turn: each number below 32, and each from 240 on. Between the two a
/// run lacks memory only for its lines, whose buffer takes 256. The pieces are adjacent, so more of them make
/// a larger request possible.
fn pieces_in(turn: usize) -> usize {
    if turn < 32 {
        turn
    } else {
        turn.saturating_add(208)
    }
}

/// Runs the script over bytes that need no memory of their own. Returns how it ended; what it wrote stays.
fn run_within<R: Threads + Wait + Clock + AllocGlobal + Sync>(
    rt: &R,
    written: &mut Vec<u8>,
) -> Result<u8, Fault> {
    written.clear();
    let mut source = Device::new(SCRIPT.as_bytes());
    run_script(rt, &mut source, &mut Device::new(&mut *written))
}

/// Returns whether a run succeeded. If not, it lacked memory, and wrote nothing. Its thread lacks memory for
/// each entry, as the module `memory` explains.
fn is_run<R: Abort>(rt: &R, ended: Result<u8, Fault>, written: &[u8]) -> bool {
    match ended {
        Ok(status) => {
            assert!(rt; status == 0 && written.ends_with(b"unrecorded 10\n"));
            assert_eq!(rt; count_of(written, "entries 0\ncalls 0\n"), 4);
            true
        }
        Err(fault) => {
            let is_want = fault.status() == 5 || fault == Fault::Run(RunFault::NotStarted(0));
            assert!(rt; is_want && written.is_empty());
            false
        }
    }
}

/// The same with this number of free pieces, each of 256 bytes.
fn is_run_in<R: Abort + Threads + Wait + Clock + AllocGlobal + Sync>(
    rt: &R,
    written: &mut Vec<u8>,
    pieces: usize,
) -> bool {
    let mut memory = Memory::take_all(rt.alloc(), 256).expect(rt, "memory");
    memory.give_pieces(pieces);
    let ended = run_within(rt, written);
    is_run(rt, ended, written)
}

/// Each run has more pieces than the one before. With all memory again it is complete.
#[test]
fn a_whole_run_lacks_memory(rt: HostRuntime) {
    let mut written = Vec::with_capacity(rt.alloc(), PLACES).expect(&rt, "memory");
    assert!(rt; run_within(&rt, &mut written) == Ok(0));
    for turn in 0..1000 {
        let pieces = pieces_in(turn);
        if is_run_in(&rt, &mut written, pieces) {
            assert!(rt; 256 <= pieces && run_within(&rt, &mut written) == Ok(0));
            assert!(rt; written.as_slice() == WRITTEN.as_bytes());
            return;
        }
    }
    panic!(rt; "never run")
}

/// Returns how a run ends if the read of this number fails. Each read but the last takes one byte.
fn end_if_a_read_fails<R: Abort + Threads + Wait + Clock + AllocGlobal + Sync>(
    rt: &R,
    read: usize,
) -> Result<u8, Fault> {
    let bytes = Vec::from_slice(rt.alloc(), SCRIPT.as_bytes()).expect(rt, "memory");
    let mut source = MemorySource::new(bytes, 1, Some(read as u64));
    let mut written = Vec::new(rt.alloc());
    run_script(rt, &mut source, &mut Device::new(&mut written))
}

#[test]
fn the_end_of_a_script_is_asked_for_once(rt: HostRuntime) {
    let end = SCRIPT.len();
    let failed = Err(Fault::Stream(StreamFault::ReadFailed));
    assert!(rt; end_if_a_read_fails(&rt, end) == failed);
    assert!(rt; end_if_a_read_fails(&rt, end.saturating_add(1)) == Ok(0));
}

/// More pieces of memory than a copy of the run text takes.
const FREE: usize = 64;

/// Returns the run text of the script, which is still to be written.
fn run_text<R: Abort + Threads + Wait + Clock + AllocGlobal + Sync>(rt: &R) -> RunText {
    let script = read_script(rt.alloc(), SCRIPT.as_bytes()).expect(rt, "a script");
    let report = run_threads(rt, rt.alloc(), &script, &OpenGate, Keep::Each).expect(rt, "a run");
    RunText::of(rt.alloc(), &script, report).expect(rt, "memory")
}

#[test]
fn a_run_text_is_written_in_no_memory_though_there_is_some(rt: HostRuntime) {
    let text = run_text(&rt);
    let mut watch = Watch::open(rt.alloc(), FREE).expect(&rt, "memory");
    let end = text.write(&mut Device::new(&mut watch));
    assert!(rt; end.is_ok() && watch.written() == WRITTEN.len() + LISTED.len());
    assert_eq!(rt; watch.missed(), 0);
}
