//! Waits that a predicate ends: how often and until when they park, and what they answer.
ghost use Rattle.guarded.specs.Guarding.{CanLock};

use crate::noted::NotedParking;
use guarded::Mutex;
use history::fault::Fault;
use monitor::Pass;
use permit::{Call, Parking, Woke};
use std::process::Abort;
use std::sync::Wait;
use std::time::Clock;

/// How long all waits together may last.
#[derive(Clone, Copy)]
enum Time {
    Endless,
    /// This number of milliseconds.
    For(u32),
    /// Until this moment.
    Until(u64),
}

/// A wait of a thread that has a lock with the value 7, and what comes of it.
struct Tale {
    name: &'static str,
    /// It waits while the value is below this number,
    below: u64,
    /// and for this time at most.
    time: Time,
    /// How its parks end. Meanwhile the clock goes on by this number of milliseconds each time it is read.
    answers: &'static [Woke],
    tick: u64,
    answer: Result<bool, Fault>,
    /// Until when each park waits.
    parks: &'static [Option<u64>],
}

const VALUE: u64 = 7;

const TALES: [Tale; 10] = [
    Tale {
        name: "no wait if the predicate is false",
        below: VALUE,
        time: Time::Endless,
        answers: &[],
        tick: 0,
        answer: Ok(true),
        parks: &[],
    },
    Tale {
        name: "no wait with time if the predicate is false",
        below: VALUE,
        time: Time::For(5),
        answers: &[],
        tick: 1,
        answer: Ok(true),
        parks: &[],
    },
    Tale {
        name: "an interrupt ends it, behind a permit that comes early",
        below: VALUE + 1,
        time: Time::Endless,
        answers: &[Woke::Permit, Woke::Interrupted],
        tick: 0,
        answer: Err(Fault::Interrupted),
        parks: &[None, None],
    },
    Tale {
        name: "an interrupt ends one with time",
        below: VALUE + 1,
        time: Time::For(5),
        answers: &[Woke::Interrupted],
        tick: 0,
        answer: Err(Fault::Interrupted),
        parks: &[Some(5)],
    },
    Tale {
        name: "each wait has the time that is left",
        below: VALUE + 1,
        time: Time::For(5),
        answers: &[Woke::Deadline, Woke::Deadline],
        tick: 1,
        answer: Ok(false),
        parks: &[Some(6), Some(6)],
    },
    Tale {
        name: "an interrupt ends a later wait",
        below: VALUE + 1,
        time: Time::For(5),
        answers: &[Woke::Deadline, Woke::Interrupted],
        tick: 1,
        answer: Err(Fault::Interrupted),
        parks: &[Some(6), Some(6)],
    },
    Tale {
        name: "no wait without time",
        below: VALUE + 1,
        time: Time::For(0),
        answers: &[],
        tick: 0,
        answer: Ok(false),
        parks: &[],
    },
    Tale {
        name: "each wait has the time that is left until a moment",
        below: VALUE + 1,
        time: Time::Until(5),
        answers: &[Woke::Deadline, Woke::Deadline, Woke::Deadline],
        tick: 1,
        answer: Ok(false),
        parks: &[Some(6), Some(6), Some(6)],
    },
    Tale {
        name: "no wait until a moment that has come",
        below: VALUE + 1,
        time: Time::Until(0),
        answers: &[],
        tick: 1,
        answer: Ok(false),
        parks: &[],
    },
    Tale {
        name: "an interrupt ends one until a moment",
        below: VALUE + 1,
        time: Time::Until(5),
        answers: &[Woke::Interrupted],
        tick: 0,
        answer: Err(Fault::Interrupted),
        parks: &[Some(5)],
    },
];

/// Waits as a tale says.
fn wait<R: Wait + Clock>(
    rt: &R,
    parking: &NotedParking,
    lock: &Mutex<u64>,
    pass: &mut Pass,
    tale: &Tale,
) -> Result<bool, Fault>
    requires { CanLock lock.now 256 pass.old }
{
    let below = tale.below;
    let mut guard = Mutex::lock(pass, lock, rt, parking)?;
    match tale.time {
        Time::For(ms) => guard.wait_while_for(0, ms, |value: &u64| *value < below),
        Time::Until(moment) => guard.wait_while_until(0, moment, |value: &u64| *value < below),
        Time::Endless => match guard.wait_while(0, |value: &u64| *value < below) {
            Ok(()) => Ok(true),
            Err(fault) => Err(fault),
        },
    }
}

fn play<R: Abort + AllocGlobal + Wait + Clock>(rt: &R, tale: &Tale) {
    let opened = NotedParking::open_ticking(rt.alloc(), tale.answers, tale.tick);
    let parking = opened.expect(rt, "memory");
    parking.end_all();
    let (lock, mut passes) = Mutex::new(rt.alloc(), VALUE, 1).expect(rt, "memory");
    let mut pass = passes.pop().expect(rt, "a pass");
    let answer = wait(rt, &parking, &lock, &mut pass, tale);
    let calls = parking.calls(rt.alloc()).expect(rt, "memory");
    assert!(rt;
        answer == tale.answer && calls.len() == tale.parks.len(),
        "{}: {answer:?}, {calls:?}",
        tale.name
    );
    for (call, until) in calls.iter().zip(tale.parks) {
        let park = Call::Park {
            seat: 0,
            until: *until,
            interruptible: true,
        };
        assert!(rt; *call == park, "{}: {call:?}", tale.name);
    }
    assert!(rt;
        !parking.take_interrupt(0),
        "{}: an interrupt is left",
        tale.name
    );
}

#[test]
fn waits_that_a_predicate_ends_take_no_longer_than_they_may(rt: HostRuntime) {
    for tale in &TALES {
        play(&rt, tale);
    }
}
