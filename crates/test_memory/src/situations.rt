//! Known situations in each way to take a list: a core takes it step by step, in one run and as acts, and a
//! monitor by its passes. `examples/` has the answers, which the program returns step by step.

use crate::any_core::{AnyCore, Outcome};
use crate::any_monitor::AnyMonitor;
use frame::acts::{Act, Done};
use history::fault::Fault;
use history::header::Header;
use history::step::{Answer, Step};
use std::alloc::Global;
use std::process::Abort;
use std::sync::Wait;
use steps::read_steps;
use test_support::examples::situations;

/// Returns the steps of a list, or `OutOfPhase` if it has a trim.
fn steps_of(alloc: Global, acts: &[Act]) -> Result<Vec<(u16, Step)>, Fault> {
    let mut steps = Vec::new(alloc);
    for act in acts {
        let Act::Do(seat, step) = act else {
            return Err(Fault::OutOfPhase);
        };
        if steps.push((*seat, *step)).is_err() {
            return Err(Fault::OutOfMemory);
        }
    }
    Ok(steps)
}

/// Returns whether the answers of a run are the results of acts.
fn are_same(answers: &[Result<Answer, Fault>], wanted: &[Outcome]) -> bool {
    let are_same = answers.iter().zip(wanted).all(|(answer, outcome)| match outcome {
        Ok(Done::Answered(wanted)) => *answer == Ok(*wanted),
        Ok(Done::Trimmed(_)) => false,
        Err(fault) => *answer == Err(*fault),
    });
    are_same && answers.len() == wanted.len()
}

/// Returns whether steps have these results in one run of a core.
fn runs(alloc: Global, core: &mut AnyCore, steps: &[(u16, Step)], wanted: &[Outcome]) -> bool {
    match core.run(alloc, steps) {
        Ok(answers) => are_same(&answers, wanted),
        Err(_) => false,
    }
}

/// Returns whether acts have these results in one run of a core, and its observers return `told` then.
fn acts_so(alloc: Global, core: &mut AnyCore, acts: &[Act], wanted: &[Outcome], told: u64) -> bool {
    match core.run_acts(alloc, acts) {
        Ok(outcomes) => outcomes.as_slice() == wanted && core.told() == told,
        Err(_) => false,
    }
}

/// Returns whether a list has these results in one run of acts.
fn is_acted(alloc: Global, header: &Header, acts: &[Act], wanted: &[Outcome], told: u64) -> bool {
    match AnyCore::open(alloc, header) {
        Ok(mut core) => acts_so(alloc, &mut core, acts, wanted, told),
        Err(_) => false,
    }
}

/// Returns whether a list without trims has these results in one run of steps.
fn is_run(alloc: Global, header: &Header, steps: &[(u16, Step)], wanted: &[Outcome]) -> bool {
    match AnyCore::open(alloc, header) {
        Ok(mut core) => runs(alloc, &mut core, steps, wanted),
        Err(_) => false,
    }
}

/// Returns whether a list has a trim, or has these results in one run of steps.
fn is_stepped(alloc: Global, header: &Header, acts: &[Act], wanted: &[Outcome]) -> bool {
    match steps_of(alloc, acts) {
        Ok(steps) => is_run(alloc, header, &steps, wanted),
        Err(fault) => fault == Fault::OutOfPhase,
    }
}

/// Returns whether a core and a monitor have told this seat that it could go, and no other.
fn is_told<R: Wait>(rt: &R, core: &AnyCore, monitor: &mut AnyMonitor, told: Option<u8>) -> bool {
    for seat in 0..core.header().seats {
        let is_it = told == Some(b'0'.saturating_add((seat % 10) as u8));
        if core.is_told(seat) != is_it || monitor.is_told(rt, seat) != is_it {
            return false;
        }
    }
    true
}

/// Takes a list step by step, by a core and by a monitor, and appends the results. `told` has a digit or `-`
/// for each act: the seat that is marked as told after it.
fn act_all<R: Abort + Wait>(
    rt: &R,
    core: &mut AnyCore,
    monitor: &mut AnyMonitor,
    acts: &[Act],
    told: Option<&[u8]>,
    outcomes: &mut Vec<Outcome>,
) {
    for (place, act) in acts.iter().enumerate() {
        let outcome = core.act(*act);
        assert!(rt; monitor.act(rt, *act) == outcome, "{act:?}");
        let is_marked = match told {
            Some(told) => is_told(rt, core, monitor, told.get(place).copied()),
            None => true,
        };
        assert!(rt; is_marked, "{act:?}");
        outcomes.push(outcome).expect(rt, "memory");
    }
}

/// After a list: how many entries there are, and what a core's observers return.
#[derive(Clone, Copy)]
struct After {
    entries: u64,
    told: u64,
}

/// Takes a list by a new core and a new monitor, and appends the results.
fn act_anew<R: Abort + AllocGlobal + Wait>(
    rt: &R,
    header: &Header,
    acts: &[Act],
    told: Option<&[u8]>,
    outcomes: &mut Vec<Outcome>,
) -> After {
    let mut core = AnyCore::open(rt.alloc(), header).expect(rt, "memory");
    let mut monitor = AnyMonitor::open(rt.alloc(), header).expect(rt, "memory");
    act_all(rt, &mut core, &mut monitor, acts, told, outcomes);
    let (entries, calls) = (core.entries(), core.calls());
    let is_same = monitor.close(rt) == Some((entries, calls, calls));
    assert!(rt; is_same);
    let told = core.told();
    After { entries, told }
}

/// Takes a list in each way.
fn try_acts<R: Abort + AllocGlobal + Wait>(
    rt: &R,
    header: &Header,
    acts: &[Act],
    told: Option<&[u8]>,
) -> After {
    let mut outcomes = Vec::new(rt.alloc());
    let after = act_anew(rt, header, acts, told, &mut outcomes);
    let is_acted = is_acted(rt.alloc(), header, acts, &outcomes, after.told);
    let is_stepped = is_stepped(rt.alloc(), header, acts, &outcomes);
    assert!(rt; is_acted && is_stepped);
    after
}

/// Takes the list of a text in each way.
fn try_text<R: Abort + AllocGlobal + Wait>(rt: &R, text: &str, told: Option<&[u8]>) -> After {
    let read = read_steps(rt.alloc(), text.as_bytes()).expect(rt, text);
    try_acts(rt, &read.header.header, &read.acts, told)
}

/// Trims, after which one seat sleeps, and by which a history of 16 entries has room for more.
const TRIMMED: [&str; 2] = [
    "aqs-steps 2 lock fair seats 2 conditions 1 cap 16\n0 acquire x 1\n0 acquire x 1\n0 await 0\n\
        1 acquire x 1\ntrim\n1 signal 0\n1 give x 1\n0 look\nend 8\n",
    "aqs-steps 2 lock nonfair seats 1 conditions 0 cap 16\n0 acquire x 1\n0 give x 1\n0 acquire x 1\n\
        0 give x 1\n0 acquire x 1\n0 give x 1\n0 acquire x 1\n0 give x 1\n0 acquire x 1\n0 give x 1\n\
        0 acquire x 1\n0 give x 1\n0 acquire x 1\n0 give x 1\n0 acquire x 1\n0 give x 1\n\
        0 acquire x 1\ntrim\n0 acquire x 1\ntrim\nend 20\n",
];

#[test]
fn each_known_situation_is_answered_in_each_way(rt: HostRuntime) {
    for text in situations() {
        try_text(&rt, text, None);
    }
    for text in &TRIMMED {
        try_text(&rt, text, None);
    }
}

/// The situations by their places, and who is marked as told after each step: who was passed, who lapsed, and
/// readers after a writer that leaves.
const TOLD: [(usize, &[u8]); 4] = [
    (2, b"--11-1-"),
    (8, b"--0--"),
    (10, b"----23-"),
    (11, b"----23-"),
];

#[test]
fn who_is_named_or_lapses_is_told_until_it_looks(rt: HostRuntime) {
    for (place, told) in &TOLD {
        let text = situations().get(*place).copied().unwrap_or_default();
        let after = try_text(&rt, text, Some(told));
        assert!(rt; 0 < after.entries);
    }
}
