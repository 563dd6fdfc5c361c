//! What gates see, and which calls they refuse.

use crate::gates::{Crossing, Refusing, Tally};
use crate::runs::run;
use std::process::Abort;
use workers::RunFault::GateShut;

/// Each of two threads takes a permit and gives it back.
const TWO: &str = r#"{"objects":[["a","semaphore nonfair seats 2 permits 2 cap 64"]],
 "threads":[{"repeat":1,"calls":["a acquire s 1","a give s 1"]},
 {"repeat":1,"calls":["a acquire s 1","a give s 1"]}]}"#;

/// The run in which thread 1 makes its calls while thread 0 waits at the gate.
const CROSSED: &str = "object a\naqs-history 1 semaphore nonfair seats 2 permits 2 cap 64\n\
    0 1 got s 1\n1 1 gave s 1\n2 0 got s 1\n3 0 gave s 1\nend 4 4\n\
    legal\nentries 4\ncalls 4\nheld 0 free 2 created 2 unheld 0 line 0\nshares 4\nunrecorded 0\n";

#[test]
fn two_workers_run_at_the_same_time(rt: HostRuntime) {
    let mut written = Vec::new(rt.alloc());
    let fault = run(&rt, TWO, &Crossing::new(), &mut written);
    assert!(rt; fault.is_none(), "{fault:?}");
    assert!(rt; written.as_slice() == CROSSED.as_bytes());
}

/// Four threads of twelve calls each, none of which waits.
const FOUR: &str = r#"{"objects":[["a","semaphore nonfair seats 4 permits 9 cap 1000"]],
 "threads":[{"repeat":4,"calls":["a try s 1","interrupt 0","a give s 1"]},
 {"repeat":4,"calls":["a try s 1","interrupt 0","a give s 1"]},
 {"repeat":4,"calls":["a try s 1","interrupt 0","a give s 1"]},
 {"repeat":4,"calls":["a try s 1","interrupt 0","a give s 1"]}]}"#;

#[test]
fn a_gate_sees_the_calls_of_all_rounds_and_the_lowest_worker_that_it_stops_is_told(
    rt: HostRuntime,
) {
    let mut written = Vec::new(rt.alloc());
    let tally = Tally::new([12; 4]);
    assert!(rt; run(&rt, FOUR, &tally, &mut written).is_none());
    let part = "calls 32\nheld 0 free 9 created 9 unheld 0 line 0\nshares 32\nunrecorded 0\n";
    assert!(rt; written.ends_with(part.as_bytes()));
    assert!(rt; tally.has_counted([12; 4], [12; 4]));
    assert_eq!(rt; tally.gone(), 48);
    let tally = Tally::new([12, 5, 3, 12]);
    assert!(rt; run(&rt, FOUR, &tally, &mut written) == Some(GateShut(1)));
    assert!(rt; tally.has_counted([12, 6, 4, 12], [12, 5, 3, 12]));
    assert_eq!(rt; tally.gone(), 32);
}

/// Thread 1 waits for a permit. Each call of thread 0 gives one, and so does that of thread 2.
const THREE: &str = r#"{"objects":[["a","semaphore nonfair seats 3 permits 0 cap 64"]],
 "threads":[{"repeat":2,"calls":["a give s 1","a give s 1"]},
 {"repeat":1,"calls":["a acquire s 1"]},
 {"repeat":1,"calls":["a give s 1"]}]}"#;

/// The run leaves no history, since a gate was shut. But another worker would see the call, or one after it.
#[test]
fn a_call_that_a_gate_refuses_is_not_made(rt: HostRuntime) {
    let mut written = Vec::new(rt.alloc());
    let gate = Refusing::new();
    assert!(rt; run(&rt, THREE, &gate, &mut written) == Some(GateShut(0)));
    assert!(rt; !gate.has_ended_early());
}
