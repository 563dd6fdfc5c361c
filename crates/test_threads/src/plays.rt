//! Tales: what the seats of an object do, the results, and how the monitor parks and unparks the seats.
ghost use Rattle.std.specs.Prelude.{◌≡◌, ◌≤◌, All};
ghost use Rattle.history.specs.Header.{IsInRange};

use crate::asks::{Ask, DONE, Front, NO, Reply, perform};
use crate::noted::NotedParking;
use audit::verdict::{Verdict, check};
use history::entries::History;
use history::header::{Header, Object, Policy};
use history_text::fitting::fits;
use history_text::write_text;
use monitor::{Closed, Monitor, Pass};
use monitor_fronts::{open_latch, open_lock, open_read_write_lock, open_semaphore};
use permit::{Call, Parking, Woke};
use std::alloc::Global;
use std::process::Abort;
use std::sync::Wait;
use std::thread::{Threads, join};
use std::time::Clock;

/// Returns whether the text of a history ends with these lines.
fn ends_with(alloc: Global, header: &Header, history: &History, lines: &str) -> bool
    requires { IsInRange header.now }
{
    if !fits(header, history) {
        return false;
    }
    match write_text(alloc, header, history) {
        Ok(text) => text.ends_with(lines.as_bytes()),
        Err(_) => false,
    }
}

/// Closes a monitor that was opened with this header. Its history is legal, its text ends with these lines,
/// and each of its calls was counted by a pass.
pub fn close_and_audit<H: Front, R: Abort + AllocGlobal + Wait>(
    rt: &R,
    monitor: Monitor<H>,
    header: &Header,
    passes: Vec<Pass>,
    lines: &str,
) -> Closed
    requires is_of { All (λ p. p.lock ≡ monitor) passes.items }
    requires header { monitor.header ≡ header.now }
    requires range { IsInRange header.now }
{
    let Ok(closed) = monitor.close(rt, passes) else {
        panic!(rt; "a pass is missing")
    };
    assert!(rt;
        ends_with(rt.alloc(), header, &closed.history, lines),
        "{lines}"
    );
    let verdict = check(rt.alloc(), header, &closed.history).expect(rt, "memory");
    assert!(rt; verdict == Verdict::Legal);
    assert_eq!(rt; closed.share, closed.history.calls());
    closed
}

/// A seat, its call, and the call's result.
pub type Row = (u16, Ask, Reply);

/// What is done at an object, and the results.
#[derive(Clone, Copy)]
pub struct Tale {
    pub name: &'static str,
    pub header: Header,
    /// How the parks end, in order. All others end by a permit.
    pub answers: &'static [Woke],
    /// What one thread does.
    pub rows: &'static [Row],
    /// What the last seat then does in a thread of its own. If there are no rows, there is only one thread.
    pub waiter: &'static [Row],
    /// What the other seats do after it has parked.
    pub others: &'static [Row],
    /// What is done after a close that fails because a pass is missing. If there are no rows, it doesn't
    /// fail.
    pub behind: &'static [Row],
    /// How many calls have ended.
    pub calls: u64,
    /// The last lines of the history's text.
    pub lines: &'static str,
    /// The parks, unparks and interrupts.
    pub parked: &'static [Call],
}

/// A fair lock of two seats.
pub const TWO: Header = Header {
    object: Object::Lock(Policy::Fair),
    seats: 2,
    conditions: 1,
    cap: 64,
};

/// A tale in which nothing is done.
pub const LOCK: Tale = Tale {
    name: "",
    header: TWO,
    answers: &[],
    rows: &[],
    waiter: &[],
    others: &[],
    behind: &[],
    calls: 0,
    lines: "",
    parked: &[],
};

/// Returns the last pass of a list, and removes it.
fn take_last<H: Front, R: Abort>(rt: &R, monitor: &Monitor<H>, passes: &mut Vec<Pass>) -> Pass
    requires { All (λ p. p.lock ≡ monitor.now) passes.old.items }
    ensures own { result.lock ≡ monitor.now }
    ensures others { All (λ p. p.lock ≡ monitor.now) passes.new.items }
{
    passes.pop().expect(rt, "a pass")
}

/// Appends a pass to the others.
fn put_last<H: Front, R: Abort>(rt: &R, monitor: &Monitor<H>, passes: &mut Vec<Pass>, pass: Pass)
    requires own { pass.lock ≡ monitor.now }
    requires others { All (λ p. p.lock ≡ monitor.now) passes.old.items }
    ensures { All (λ p. p.lock ≡ monitor.now) passes.new.items }
{
    passes.push(pass).expect(rt, "memory");
}

/// The last two passes of a list meet, and change places.
fn meet_last<H: Front, R: Abort>(rt: &R, monitor: &Monitor<H>, passes: &mut Vec<Pass>) -> Reply
    requires { All (λ p. p.lock ≡ monitor.now) passes.old.items }
    ensures { All (λ p. p.lock ≡ monitor.now) passes.new.items }
{
    let one = take_last(rt, monitor, passes);
    let two = take_last(rt, monitor, passes);
    let (one, two) = monitor.meet(one, two);
    put_last(rt, monitor, passes, one);
    put_last(rt, monitor, passes, two);
    DONE
}

fn act<H: Front, R: Abort + Wait + Clock>(
    rt: &R,
    monitor: &Monitor<H>,
    parking: &NotedParking,
    passes: &mut Vec<Pass>,
    place: usize,
    ask: Ask,
) -> Reply
    requires own { All (λ p. p.lock ≡ monitor.now) passes.old.items }
    requires places { monitor.now.header.seats ≤ 256 }
    ensures { All (λ p. p.lock ≡ monitor.now) passes.new.items }
{
    match ask {
        Ask::Meet => meet_last(rt, monitor, passes),
        Ask::DropPass => Ok(u32::from(passes.pop().is_some())),
        Ask::NextPark => Ok(u32::from(parking.next_park(rt))),
        Ask::InterruptSecond => {
            parking.interrupt(1);
            DONE
        }
        Ask::InterruptLate => {
            parking.interrupt_late();
            DONE
        }
        _ => match passes.get_mut(place) {
            Some(pass) => perform(rt, monitor, parking, pass, ask),
            None => NO,
        },
    }
}

/// Makes the calls of rows in one thread, each with the pass at the place of its seat, or with the only one.
fn act_all<H: Front, R: Abort + Wait + Clock>(
    rt: &R,
    monitor: &Monitor<H>,
    parking: &NotedParking,
    passes: &mut Vec<Pass>,
    rows: &[Row],
    name: &str,
)
    requires own { All (λ p. p.lock ≡ monitor.now) passes.old.items }
    requires places { monitor.now.header.seats ≤ 256 }
    ensures { All (λ p. p.lock ≡ monitor.now) passes.new.items }
{
    let is_alone = passes.len() == 1;
    let mut number = 0u32;
    for (seat, ask, told) in rows {
        let place = if is_alone { 0 } else { usize::from(*seat) };
        let reply = act(rt, monitor, parking, passes, place, *ask);
        assert!(rt;
            reply == *told,
            "{name}, row {number} of seat {seat}: {reply:?}"
        );
        number = number.saturating_add(1);
    }
}

/// Makes the calls of the last seat in one thread, and those of the others in another.
fn act_in_threads<H: Front + Send, R: Abort + Threads + Wait + Clock + Sync>(
    rt: &R,
    monitor: &Monitor<H>,
    parking: &NotedParking,
    waiters: Vec<Pass>,
    others: Vec<Pass>,
    tale: &Tale,
) -> (Vec<Pass>, Vec<Pass>)
    requires waiters { All (λ p. p.lock ≡ monitor.now) waiters.items }
    requires others { All (λ p. p.lock ≡ monitor.now) others.items }
    requires places { monitor.now.header.seats ≤ 256 }
    ensures waiters { All (λ p. p.lock ≡ monitor.now) result.0.items }
    ensures others { All (λ p. p.lock ≡ monitor.now) result.1.items }
{
    join(
        rt,
        move || -> Vec<Pass>
            requires { All (λ p. p.lock ≡ monitor.now) waiters.items × (monitor.now.header.seats ≤ 256) }
            ensures { All (λ p. p.lock ≡ monitor.entry.now) result.items }
        {
            let mut own = waiters;
            act_all(rt, monitor, parking, &mut own, tale.waiter, tale.name);
            own
        },
        move || -> Vec<Pass>
            requires { All (λ p. p.lock ≡ monitor.now) others.items × (monitor.now.header.seats ≤ 256) }
            ensures { All (λ p. p.lock ≡ monitor.entry.now) result.items }
        {
            let mut own = others;
            assert!(rt;
                parking.wait_for_parks(rt, 1),
                "{}: nobody parks",
                tale.name
            );
            act_all(rt, monitor, parking, &mut own, tale.others, tale.name);
            parking.end_all();
            own
        },
    )
}

/// Makes the calls of the last seat in a thread of its own.
fn act_apart<H: Front + Send, R: Abort + AllocGlobal + Threads + Wait + Clock + Sync>(
    rt: &R,
    monitor: &Monitor<H>,
    parking: &NotedParking,
    passes: Vec<Pass>,
    tale: &Tale,
) -> Vec<Pass>
    requires own { All (λ p. p.lock ≡ monitor.now) passes.items }
    requires places { monitor.now.header.seats ≤ 256 }
    ensures { All (λ p. p.lock ≡ monitor.now) result.items }
{
    let mut passes = passes;
    let last = take_last(rt, monitor, &mut passes);
    let waiters = vec![in rt.alloc(); last].expect(rt, "memory");
    let (mut waiters, mut passes) = act_in_threads(rt, monitor, parking, waiters, passes, tale);
    let last = take_last(rt, monitor, &mut waiters);
    put_last(rt, monitor, &mut passes, last);
    passes
}

/// Closes the monitor of a tale. If a pass is missing the close fails, and then the others go on.
fn end<H: Front, R: Abort + AllocGlobal + Wait + Clock>(
    rt: &R,
    monitor: Monitor<H>,
    parking: &NotedParking,
    passes: Vec<Pass>,
    tale: &Tale,
)
    requires is_of { All (λ p. p.lock ≡ monitor) passes.items }
    requires header { monitor.header ≡ tale.now.header }
    requires range { IsInRange tale.now.header }
{
    if tale.behind.is_empty() {
        let closed = close_and_audit(rt, monitor, &tale.header, passes, tale.lines);
        assert_eq!(rt; closed.share, tale.calls, "{}", tale.name);
        return;
    }
    match monitor.close(rt, passes) {
        Ok(_) => panic!(rt; "{}: closed without a pass", tale.name),
        Err((monitor, passes, _)) => {
            let mut passes = passes;
            act_all(rt, &monitor, parking, &mut passes, tale.behind, tale.name);
        }
    }
}

/// Plays a tale at a monitor that was opened with its header.
fn play<H: Front + Send, R: Abort + AllocGlobal + Threads + Wait + Clock + Sync>(
    rt: &R,
    tale: &Tale,
    opened: (Monitor<H>, Vec<Pass>),
)
    requires is_of { All (λ p. p.lock ≡ opened.0) opened.1.items }
    requires header { opened.0.header ≡ tale.now.header }
    requires range { IsInRange tale.now.header }
{
    let parking = NotedParking::open(rt.alloc(), tale.answers).expect(rt, "memory");
    let (monitor, passes) = opened;
    let mut passes = passes;
    if tale.waiter.is_empty() {
        parking.end_all();
    }
    act_all(rt, &monitor, &parking, &mut passes, tale.rows, tale.name);
    if !tale.waiter.is_empty() {
        passes = act_apart(rt, &monitor, &parking, passes, tale);
    }
    end(rt, monitor, &parking, passes, tale);
    let calls = parking.calls(rt.alloc()).expect(rt, "memory");
    assert!(rt; calls.as_slice() == tale.parked, "{}: {calls:?}", tale.name);
}

/// Opens the object of a tale or a storm, and plays at it.
macro_rules! at_object {
    ($rt:expr, $of:expr, $play:ident) => {{
        let Header {
            object,
            seats,
            conditions,
            cap,
        } = $of.header;
        assert!($rt; $of.header.in_range());
        let alloc = $rt.alloc();
        match object {
            Object::Lock(policy) => {
                let opened = open_lock(alloc, policy, seats, conditions, cap);
                $play($rt, $of, opened.expect($rt, "memory"));
            }
            Object::ReadWrite(policy) => {
                let opened = open_read_write_lock(alloc, policy, seats, conditions, cap);
                $play($rt, $of, opened.expect($rt, "memory"));
            }
            Object::Semaphore(policy, permits) => {
                let opened = open_semaphore(alloc, policy, permits, seats, cap);
                $play($rt, $of, opened.expect($rt, "memory"));
            }
            Object::Latch(count) => {
                let opened = open_latch(alloc, count, seats, cap);
                $play($rt, $of, opened.expect($rt, "memory"));
            }
        }
    }};
}

pub(crate) use at_object;

/// Plays tales one after another.
pub fn play_all<R: Abort + AllocGlobal + Threads + Wait + Clock + Sync>(rt: &R, tales: &[Tale]) {
    for tale in tales {
        at_object!(rt, tale, play);
    }
}
