//! Runs that lack memory.
//!
//! A test takes all memory first, a part of it as pieces, and frees these one by one. So the allocations of a
//! run really fail. Since a turn frees one piece, a run that leaked memory when it failed would never be
//! complete.
//!
//! The system keeps the thread of a run that has ended, with its stack, and uses it for the next. It has no
//! heap for that thread while the test has all memory, so the calls of such a thread lack memory to the end.

use crate::gates::Tally;
use crate::runs::{list_of, script_of};
use script::{Script, read_script};
use std::process::Abort;
use std::sync::Wait;
use std::thread::Threads;
use std::time::Clock;
use test_support::memory::Memory;
use workers::RunFault::{Memory as NoMemory, NotStarted};
use workers::{Gate, Keep, OpenGate, RunFault, run_threads};

/// The stack of a thread fits in a piece of this size.
const WIDE: usize = 1 << 24;

/// The least size of a piece that a request of a run takes.
const FINE: usize = 16;

/// More pieces than a run needs.
const MOST: u32 = 4096;

/// The halves of a thread's text, before and after the number of the thread that it interrupts.
const THREAD: (&str, &str) = (
    "{\"repeat\":1,\"calls\":[\"a acquire x 1\",\"interrupt ",
    "\",\"a give x 1\"]}",
);

/// Returns how a run ends: how many calls its history has and how many results weren't recorded, or why there
/// is no history.
fn ended<G: Gate + Sync, R: Threads + Wait + Clock + AllocGlobal + Sync>(
    rt: &R,
    script: &Script,
    gate: &G,
) -> Result<(u64, u64), RunFault> {
    let report = run_threads(rt, rt.alloc(), script, gate, Keep::Count)?;
    match report.objects.first() {
        Some(part) => Ok((part.share, report.unrecorded)),
        None => Ok((0, 0)),
    }
}

/// Returns the script of `threads` threads at one lock.
fn script_for<R: Abort + AllocGlobal>(rt: &R, threads: u32) -> Script {
    let lock = format!(in rt.alloc();
        "[\"a\",\"lock fair seats {threads} conditions 0 cap 1000\"]"
    );
    let list = list_of(rt, THREAD, threads, 256);
    let text = script_of(rt, &lock.expect(rt, "memory"), &list);
    read_script(rt.alloc(), text.as_bytes()).expect(rt, "a script")
}

/// Returns whether all threads of a script were started and have called. If the system refused a thread,
/// nobody has called. `last` is the greatest number of a worker whose thread was refused.
fn are_started<R: Abort + Threads + Wait + Clock + AllocGlobal + Sync>(
    rt: &R,
    script: &Script,
    last: &mut u16,
) -> bool {
    let seen = Tally::new([u64::MAX; 4]);
    match ended(rt, script, &seen) {
        Ok(counts) => {
            assert!(rt; counts == (32, 0) && seen.gone() == 48);
            true
        }
        Err(fault) => {
            match fault {
                NotStarted(worker) => {
                    assert_eq!(rt; seen.gone(), 0);
                    *last = worker.max(*last);
                }
                _ => assert!(rt; fault == NoMemory, "{fault}"),
            }
            false
        }
    }
}

/// Each piece that is freed has room for the stack of one thread or two.
#[test]
fn nobody_makes_a_call_unless_all_threads_were_started(rt: HostRuntime) {
    // The stack grows to its full depth first: if there were no memory for it, the system would end the
    // program. One thread is enough for that, and the system keeps no more stacks than its own.
    assert!(rt; ended(&rt, &script_for(&rt, 1), &OpenGate) == Ok((2, 0)));
    let script = script_for(&rt, 16);
    let mut memory = Memory::take_all(rt.alloc(), WIDE).expect(&rt, "memory");
    let mut last: u16 = 0;
    for _ in 0..MOST {
        if are_started(&rt, &script, &mut last) {
            assert!(rt; 1 <= last, "{last}");
            return;
        }
        assert!(rt; memory.give_piece());
    }
    panic!(rt; "never run")
}

/// Returns how often a run of one thread fails. After that its calls lack memory.
fn refusals_of<R: Abort + Threads + Wait + Clock + AllocGlobal + Sync>(
    rt: &R,
    script: &Script,
) -> u32 {
    let mut memory = Memory::take_all(rt.alloc(), FINE).expect(rt, "memory");
    for refused in 0..MOST {
        match ended(rt, script, &OpenGate) {
            Ok(counts) => {
                assert!(rt; counts == (0, 2));
                return refused;
            }
            Err(fault) => assert!(rt; fault == NoMemory || fault == NotStarted(0), "{fault}"),
        }
        assert!(rt; memory.give_piece());
    }
    panic!(rt; "never run")
}

/// Each allocation of the first thread fails in turn. With memory again the same run has all calls.
#[test]
fn each_request_of_a_run_is_refused(rt: HostRuntime) {
    let script = script_for(&rt, 1);
    assert!(rt; ended(&rt, &script, &OpenGate) == Ok((2, 0)));
    let refused = refusals_of(&rt, &script);
    assert!(rt; 20 <= refused, "refused {refused} times");
    assert!(rt; ended(&rt, &script, &OpenGate) == Ok((2, 0)));
}
