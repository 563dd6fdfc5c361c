//! A thread for each seat makes thousands of pseudo-random steps of its own at one object. Each thread ends even if
//! no other does anything. After a storm nobody waits or holds a lock.
ghost use Rattle.std.specs.Prelude.{◌≡◌, ◌≤◌, All};
ghost use Rattle.history.specs.Header.{IsInRange};
ghost use Rattle.monitor.specs.Stepping.{IsSame};

use crate::asks::Front;
use crate::chance::Chance;
use crate::plays::{at_object, close_and_audit};
use crate::storms::{LOOKS, rest, start_together, step_by_turn};
use history::entry::{Mode, Word};
use history::fault::Fault;
use history::header::{Header, Object, Policy};
use history::step::{Answer, Step};
use monitor::{Closed, Monitor, Pass};
use monitor_fronts::{open_latch, open_lock, open_read_write_lock, open_semaphore};
use std::process::Abort;
use std::sync::Wait;
use std::sync::atomic::AtomicU32;
use std::thread;
use std::thread::Threads;
use std::time::Clock;

#[derive(Clone, Copy)]
struct Storm {
    header: Header,
    /// How many steps each thread makes.
    rounds: u32,
    /// Releases that each thread repeats at its end until they fail. So no thread waits for its holds.
    gives: &'static [Step],
    /// At least this number of calls end.
    least: u64,
}

/// How often a release is made at the end. No seat has more holds than that.
const MOST_HOLDS: u32 = 10_000;

/// Makes a step. Only the first seat sleeps while the monitor is busy, so that `step_now` must wake it.
fn step_once<H: Front, R: Abort + Wait + Clock>(
    rt: &R,
    monitor: &Monitor<H>,
    pass: &mut Pass,
    step: Step,
) -> Result<Answer, Fault>
    requires { pass.old.lock ≡ monitor.now }
    ensures { IsSame pass.old pass.new }
{
    if pass.seat() == 0 {
        monitor.step(rt, pass, step)
    } else {
        step_by_turn(rt, monitor, pass, step)
    }
}

/// Returns whether a seat waits after an answer. A fault leaves that as it was.
fn waits_behind(answer: Result<Answer, Fault>, waited: bool) -> bool {
    match answer {
        Ok(Answer::Recorded(entry, _)) => {
            matches!(&entry.word, Word::Queued | Word::Await | Word::Lapse)
        }
        Ok(Answer::Sleep) => true,
        Err(_) => waited,
    }
}

/// Gives up what the seat waits for. A seat within an await waits for the lock.
fn give_up<H: Front, R: Abort + Wait + Clock>(
    rt: &R,
    monitor: &Monitor<H>,
    pass: &mut Pass,
    waited: bool,
)
    requires { pass.old.lock ≡ monitor.now }
    ensures { IsSame pass.old pass.new }
{
    let mut waits = waits_behind(step_once(rt, monitor, pass, Step::Expire), waited);
    for _ in 0..LOOKS {
        if !waits {
            break;
        }
        rest(rt);
        waits = waits_behind(step_once(rt, monitor, pass, Step::Look), waits);
    }
}

/// Makes pseudo-random steps, and then gives up what the seat waits for.
fn step_all<H: Front, R: Abort + Wait + Clock>(
    rt: &R,
    monitor: &Monitor<H>,
    pass: &mut Pass,
    storm: &Storm,
)
    requires { pass.old.lock ≡ monitor.now }
    ensures { IsSame pass.old pass.new }
{
    let mut chance = Chance::of_seat(pass.seat());
    let mut waits = false;
    for _ in 0..storm.rounds {
        let step = chance.step(storm.header.object, waits);
        waits = waits_behind(step_once(rt, monitor, pass, step), waits);
        chance.pause(rt);
    }
    give_up(rt, monitor, pass, waits);
}

/// Releases until that fails.
fn give_back<H: Front, R: Abort + Wait + Clock>(
    rt: &R,
    monitor: &Monitor<H>,
    pass: &mut Pass,
    give: Step,
)
    requires { pass.old.lock ≡ monitor.now }
    ensures { IsSame pass.old pass.new }
{
    for _ in 0..MOST_HOLDS {
        match step_once(rt, monitor, pass, give) {
            Ok(Answer::Recorded(entry, _)) if entry.word == Word::Gave => {}
            _ => break,
        }
    }
}

/// The work of a thread after all threads have started, or took too long to.
fn work<H: Front, R: Abort + Wait + Clock>(
    rt: &R,
    monitor: &Monitor<H>,
    pass: Pass,
    storm: &Storm,
    started: &AtomicU32,
) -> Pass
    requires { pass.lock ≡ monitor.now }
    ensures { IsSame pass result }
{
    let mut own = pass;
    start_together(rt, started, storm.header.seats);
    step_all(rt, monitor, &mut own, storm);
    for give in storm.gives {
        give_back(rt, monitor, &mut own, *give);
    }
    own
}

/// Returns whether nobody waits or holds a lock. A semaphore's permits may be held.
fn is_idle(object: &Object, closed: &Closed) -> bool {
    let balance = closed.balance;
    let reads = match object {
        Object::Semaphore(_, _) => 0,
        Object::Lock(_) | Object::ReadWrite(_) | Object::Latch(_) => balance.shared,
    };
    balance.exclusive == 0 && reads == 0 && balance.line == 0 && balance.sleepers == 0
}

/// Runs a storm.
fn rage<H: Front + Send, R: Abort + AllocGlobal + Threads + Wait + Clock + Sync>(
    rt: &R,
    storm: &Storm,
    opened: (Monitor<H>, Vec<Pass>),
)
    requires passes { All (λ p. p.lock ≡ opened.0) opened.1.items }
    requires header { opened.0.header ≡ storm.now.header }
    requires range { IsInRange storm.now.header }
{
    let (monitor, passes) = opened;
    let started = AtomicU32::new(0);
    let worked = thread::map_vec(
        rt,
        passes,
        &|pass: Pass| -> Pass
            requires { pass.lock ≡ monitor }
            ensures { result.lock ≡ monitor }
        { work(rt, &monitor, pass, storm, &started) },
    );
    let passes = worked.expect(rt, "memory");
    let closed = close_and_audit(rt, monitor, &storm.header, passes, "");
    assert!(rt; storm.least <= closed.share, "{} calls", closed.share);
    assert!(rt;
        is_idle(&storm.header.object, &closed),
        "somebody waits or holds"
    );
}

const FOUR: Header = Header {
    object: Object::Lock(Policy::Fair),
    seats: 4,
    conditions: 1,
    cap: 100_000,
};

const GIVE: Step = Step::Give(Mode::X, 1);

/// At least one of sixteen steps ends a call.
const LOCK: Storm = Storm {
    header: FOUR,
    rounds: 2500,
    gives: &[GIVE],
    least: 625,
};

const READ_WRITE: Storm = Storm {
    header: Header {
        object: Object::ReadWrite(Policy::NonFair),
        ..FOUR
    },
    gives: &[GIVE, Step::Give(Mode::S, 1)],
    ..LOCK
};

const SEMAPHORE: Storm = Storm {
    header: Header {
        object: Object::Semaphore(Policy::NonFair, 3),
        conditions: 0,
        ..FOUR
    },
    gives: &[],
    ..LOCK
};

/// The greatest number of seats.
const CROWD: Storm = Storm {
    header: Header {
        object: Object::Lock(Policy::NonFair),
        seats: 256,
        ..FOUR
    },
    rounds: 40,
    least: 640,
    ..LOCK
};

#[test]
fn threads_step_each_object_10_000_times(rt: HostRuntime) {
    for storm in &[LOCK, READ_WRITE, SEMAPHORE, CROWD] {
        at_object!(&rt, storm, rage);
    }
}
