//! Cores with almost no free memory: no step, trim or observer allocates, except the pages of a history. And
//! cores of all sizes, with memory.

use crate::any_core::{AnyCore, Outcome};
use frame::acts::{Act, Done};
use history::entry::{Mode, Word};
use history::fault::Fault;
use history::header::{Header, Object, Policy};
use history::step::{Answer, Step};
use std::alloc::{AllocError, Global};
use std::process::Abort;
use std::test::Fail;
use test_support::memory::Memory;

/// A copy of any table of a core fits in a piece of this size.
const WIDE: usize = 16_384;

/// A heap keeps each smaller block for requests of its size, even after it is freed. So whatever is cut from
/// such a piece is missed.
const NARROW: usize = 1040;

/// As many pieces as are needed to open a core, and for the one page of its history.
const ENOUGH: usize = 128;

/// How many acts a list has.
const ACTS: u32 = 200;

/// Returns the next pseudo-random number.
fn next(number: u64) -> u64 {
    number
        .wrapping_mul(6_364_136_223_846_793_005)
        .wrapping_add(1_442_695_040_888_963_407)
}

/// Returns a number below `end`, from some of a number's digits.
fn part(number: u64, digits: u64, end: u16) -> u16 {
    (number / digits.max(1) % u64::from(end.max(1))) as u16
}

fn amount(object: Object, number: u64) -> u32 {
    match object {
        Object::Semaphore(_, _) => match part(number, 1 << 30, 24) {
            0 => 2_147_483_647,
            few => u32::from(few % 4),
        },
        _ => 1,
    }
}

fn mode(object: Object, number: u64) -> Mode {
    let exclusive = match object {
        Object::Lock(_) => true,
        Object::ReadWrite(_) => part(number, 1 << 34, 2) == 0,
        Object::Semaphore(_, _) | Object::Latch(_) => false,
    };
    if exclusive { Mode::X } else { Mode::S }
}

/// Returns an act of any kind.
fn act_of(header: &Header, number: u64) -> Act {
    let seat = part(number, 1 << 36, header.seats);
    let condition = u8::from(part(number, 1 << 40, 2) == 1);
    let (mode, n) = (mode(header.object, number), amount(header.object, number));
    let step = match part(number, 1 << 44, 24) {
        0..=5 => Step::Acquire(mode, n),
        6 => Step::Try(mode, n),
        7 => Step::TryFair(mode, n),
        8 => Step::EntryInterrupt(mode, n),
        9..=12 => Step::Give(mode, n),
        13..=16 => Step::Look,
        17 => Step::Expire,
        18 => Step::Interrupt,
        19 => Step::Await(condition),
        20 => Step::Signal(condition),
        21 => Step::SignalAll(condition),
        22 => Step::Drain,
        _ => return Act::Trim,
    };
    Act::Do(seat, step)
}

/// Returns a bit of its own for each word that can be recorded.
fn digit(word: Word) -> u32 {
    match word {
        Word::Got => 1,
        Word::TryGot => 2,
        Word::Queued => 4,
        Word::Granted => 8,
        Word::Missed => 16,
        Word::Left => 32,
        Word::Gave => 64,
        Word::Await => 128,
        Word::Lapse => 256,
        Word::Signal => 512,
        Word::SignalAll => 1024,
        Word::Back => 2048,
        Word::Counted => 4096,
        Word::Drained => 8192,
        Word::Refused(_) => 16_384,
    }
}

const SLEPT: u32 = 32_768;

const TRIMMED: u32 = 65_536;

const NAMED: u32 = 131_072;

/// Returns the bits of an outcome.
fn digits(outcome: &Outcome) -> u32 {
    match outcome {
        Ok(Done::Answered(Answer::Recorded(entry, None))) => digit(entry.word),
        Ok(Done::Answered(Answer::Recorded(entry, Some(_)))) => digit(entry.word) | NAMED,
        Ok(Done::Answered(Answer::Sleep)) => SLEPT,
        Ok(Done::Trimmed(0)) | Err(_) => 0,
        Ok(Done::Trimmed(_)) => TRIMMED,
    }
}

/// Performs acts, and calls the observers after each. No act lacks memory, and as many pieces are free as
/// before. Returns the bits of what occurred.
fn act_on(
    rt: &(impl Abort + AllocGlobal),
    core: &mut AnyCore,
    memory: &mut Memory,
    free: usize,
    seed: u64,
) -> u32 {
    let mut seen = 0;
    let mut number = next(seed);
    for _ in 0..ACTS {
        number = next(number);
        let act = act_of(core.header(), number);
        let outcome = core.act(act);
        let _told = core.told();
        let left = memory.free_pieces();
        assert!(rt;
            outcome != Err(Fault::OutOfMemory) && left == free,
            "{act:?}"
        );
        seen |= digits(&outcome);
    }
    seen
}

/// Makes the page that has room for all entries of a list, and leaves `free` pieces free.
fn leave(core: &mut AnyCore, memory: &mut Memory, free: usize) -> Result<(), AllocError> {
    let mode = mode(core.header().object, 0);
    let _first = core.act(Act::Do(0, Step::Acquire(mode, 1)));
    memory.take_pieces();
    memory.take_rest()?;
    memory.give_pieces(free);
    Ok(())
}

/// Performs a list of acts on a new core. The core's memory is freed after it.
fn play_list(
    rt: &(impl Abort + AllocGlobal),
    memory: &mut Memory,
    header: &Header,
    free: usize,
    seed: u64,
) -> Result<u32, Fault> {
    memory.give_pieces(ENOUGH);
    let mut core = AnyCore::open(rt.alloc(), header)?;
    let left = leave(&mut core, memory, free);
    assert!(rt; left.is_ok());
    Ok(act_on(rt, &mut core, memory, free, seed))
}

fn most_conditions(object: Object) -> u8 {
    match object {
        Object::Lock(_) | Object::ReadWrite(_) => 16,
        Object::Semaphore(_, _) | Object::Latch(_) => 0,
    }
}

/// Returns the header of a list by its number: each number of seats with each cap, and some conditions.
fn header_of(object: Object, number: u64) -> Header {
    let conditions = if number < 12 { 1 } else { 2 };
    let cap = match part(number, 4, 3) {
        0 => 16,
        1 => 56,
        _ => 96,
    };
    Header {
        object,
        seats: part(number, 1, 4).saturating_add(1),
        conditions: most_conditions(object).min(conditions),
        cap,
    }
}

/// Lists of an object keep no memory, and all these bits occur in them.
fn keeps_none(rt: &(impl Abort + AllocGlobal), object: Object, wanted: u32) -> Result<(), Fault> {
    let mut seen = 0;
    for (piece, free) in [(WIDE, 0), (WIDE, 1), (NARROW, 1)] {
        let mut memory = Memory::take_all(rt.alloc(), piece)?;
        for number in 0..24 {
            let header = header_of(object, number);
            seen |= play_list(rt, &mut memory, &header, free, number)?;
        }
    }
    assert!(rt;
        seen & wanted == wanted,
        "{object:?}: {seen} and not {wanted}"
    );
    Ok(())
}

/// The bits that occur at a lock, at a semaphore and at a latch.
const AT_LOCKS: u32 = 4095 | 16_384 | SLEPT | TRIMMED | NAMED;

const AT_SEMAPHORES: u32 = 127 | 8192 | 16_384 | SLEPT | TRIMMED | NAMED;

const AT_LATCHES: u32 = 61 | 4096 | 16_384 | SLEPT | TRIMMED | NAMED;

#[test]
fn steps_and_trims_at_locks_take_no_memory(rt: HostRuntime) -> Result<(), Fail> {
    for policy in [Policy::Fair, Policy::NonFair, Policy::Strict] {
        keeps_none(&rt, Object::Lock(policy), AT_LOCKS)?;
        keeps_none(&rt, Object::ReadWrite(policy), AT_LOCKS)?;
    }
    Ok(())
}

#[test]
fn steps_and_trims_at_permits_and_counts_take_no_memory(rt: HostRuntime) -> Result<(), Fail> {
    for policy in [Policy::Fair, Policy::NonFair, Policy::Strict] {
        keeps_none(&rt, Object::Semaphore(policy, 2), AT_SEMAPHORES)?;
    }
    keeps_none(&rt, Object::Latch(9), AT_LATCHES)?;
    Ok(())
}

/// Returns how many entries the first steps of an object's last seat leave: it acquires, and waits on the
/// last condition.
fn first_entries(rt: &(impl Abort + AllocGlobal), header: &Header) -> Result<u64, Fault> {
    let last = header.seats.saturating_sub(1);
    let mut core = AnyCore::open(rt.alloc(), header)?;
    let _first = core.act(Act::Do(last, Step::Acquire(mode(header.object, 0), 1)));
    let _second = core.act(Act::Do(last, Step::Await(header.conditions.saturating_sub(1))));
    Ok(core.entries())
}

/// An object is opened with each number of conditions.
fn open_each(rt: &(impl Abort + AllocGlobal), object: Object, seats: u16) {
    for conditions in 0..=most_conditions(object) {
        let header = Header {
            object,
            seats,
            conditions,
            cap: 1_000_000,
        };
        let wanted = if conditions == 0 { 1 } else { 2 };
        let is_opened = first_entries(rt, &header) == Ok(wanted);
        assert!(rt; is_opened, "{object:?} {seats} {conditions}");
    }
}

#[test]
fn each_number_of_seats_and_conditions_is_opened(rt: HostRuntime) {
    for seats in 1..=256 {
        open_each(&rt, Object::Lock(Policy::Fair), seats);
        open_each(&rt, Object::ReadWrite(Policy::NonFair), seats);
        open_each(&rt, Object::Semaphore(Policy::Strict, 1), seats);
        open_each(&rt, Object::Latch(0), seats);
    }
}

/// How many pairs of an acquire and a release are made, by one seat after another.
const PAIRS: u32 = 1_600_000;

const LONG: Header = Header {
    object: Object::Lock(Policy::NonFair),
    seats: 77,
    conditions: 13,
    cap: 4_294_967_295,
};

fn put_pairs(acts: &mut Vec<Act>) -> Result<(), AllocError> {
    for pair in 0..PAIRS {
        let seat = (pair % 77) as u16;
        acts.push(Act::Do(seat, Step::Acquire(Mode::X, 1)))?;
        acts.push(Act::Do(seat, Step::Give(Mode::X, 1)))?;
    }
    Ok(())
}

/// Returns how many acts one run of a core answered.
fn answered(alloc: Global, core: &mut AnyCore, acts: &[Act]) -> usize {
    match core.run_acts(alloc, acts) {
        Ok(outcomes) => outcomes.len(),
        Err(_) => 0,
    }
}

/// Performs acts in one run, and then one by one.
fn act_long(rt: &(impl Abort + AllocGlobal), core: &mut AnyCore, acts: &[Act]) {
    let answered = answered(rt.alloc(), core, acts);
    assert!(rt; answered == 3_200_000 && core.entries() == 3_200_000);
    for act in acts {
        let _outcome = core.act(*act);
    }
    assert!(rt; core.entries() == 6_400_000 && core.calls() == 6_400_000);
}

/// More than three million steps in one run, and then as many one by one.
#[test]
fn a_long_run_and_a_long_history_find_memory(rt: HostRuntime) {
    let mut acts = Vec::new(rt.alloc());
    let is_put = put_pairs(&mut acts).is_ok();
    assert!(rt; is_put);
    let mut core = AnyCore::open(rt.alloc(), &LONG).expect(&rt, "memory");
    act_long(&rt, &mut core, &acts);
}
