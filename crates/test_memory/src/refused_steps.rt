//! Steps whose allocations fail.
//!
//! What a core must return is known from a core that doesn't lack memory.

use crate::any_core::{AnyCore, Outcome};
use crate::block::Block;
use frame::acts::{Act, Done};
use history::entry::Mode;
use history::fault::Fault;
use history::header::{Header, Object, Policy};
use history::step::{Answer, Step};
use std::alloc::AllocError;
use std::process::Abort;
use steps::read_steps;
use test_support::examples::situations;
use test_support::memory::Memory;

/// A page of a history takes three such pieces and a part of a fourth.
const PIECE: usize = 4096;

/// The most pieces that a page and the list of pages take.
const PAGE: u32 = 6;

/// The places of three pages.
const MANY_PLACES: u64 = 3072;

/// An act of a core that doesn't lack memory: its result, and what the observers returned after it.
#[derive(Clone, Copy, Drop)]
struct Played {
    act: Act,
    outcome: Outcome,
    told: u64,
    places: u64,
}

fn lacks_memory(outcome: &Outcome) -> bool {
    matches!(outcome, Err(Fault::OutOfMemory))
}

/// Performs the acts repeatedly, until the history has three pages at the latest. Returns whether there was
/// memory for recording the results.
fn note(core: &mut AnyCore, acts: &[Act], rounds: u32, played: &mut Vec<Played>) -> bool {
    for _ in 0..rounds {
        if MANY_PLACES <= core.places() {
            break;
        }
        for act in acts {
            let outcome = core.act(*act);
            let noted = Played {
                act: *act,
                outcome,
                told: core.told(),
                places: core.places(),
            };
            if played.push(noted).is_err() {
                return false;
            }
        }
    }
    true
}

/// Performs an act while memory is freed piece by piece, until there is enough for a page, and no more. Each
/// failure leaves all as before.
fn feed(
    rt: &(impl Abort + AllocGlobal),
    core: &mut AnyCore,
    memory: &mut Block,
    act: Act,
    before: u64,
) -> Outcome {
    for _ in 0..PAGE {
        let outcome = core.act(act);
        if !lacks_memory(&outcome) {
            return outcome;
        }
        let given = memory.give_piece();
        assert!(rt; given && core.told() == before);
    }
    Err(Fault::OutOfMemory)
}

/// Without free memory an act fails if and only if its history needs a page. In the end it returns what it
/// would have returned at once. Returns whether it failed.
fn follow(
    rt: &(impl Abort + AllocGlobal),
    core: &mut AnyCore,
    memory: &mut Block,
    played: &Played,
) -> bool {
    let (before, places) = (core.told(), core.places());
    let mut outcome = core.act(played.act);
    let is_refused = lacks_memory(&outcome);
    if is_refused {
        assert!(rt; core.told() == before && core.places() == places);
        outcome = feed(rt, core, memory, played.act, before);
        let taken = memory.take_rest();
        assert!(rt; taken.is_ok());
    }
    assert!(rt; is_refused == (places < played.places));
    assert!(rt; outcome == played.outcome, "{outcome:?}");
    assert!(rt; core.told() == played.told);
    assert!(rt; core.places() == played.places);
    is_refused
}

/// Returns how many acts fail.
fn follow_all(
    rt: &(impl Abort + AllocGlobal),
    core: &mut AnyCore,
    played: &[Played],
) -> Result<u32, AllocError> {
    let mut memory = Block::take_all(rt.alloc(), PIECE)?;
    let mut refused: u32 = 0;
    for step in played {
        refused = refused.saturating_add(u32::from(follow(rt, core, &mut memory, step)));
    }
    Ok(refused)
}

/// Notes what a new core returns that does not lack memory.
fn note_anew(
    rt: &(impl Abort + AllocGlobal),
    header: &Header,
    acts: &[Act],
    rounds: u32,
    played: &mut Vec<Played>,
) {
    let mut core = AnyCore::open(rt.alloc(), header).expect(rt, "memory");
    let is_noted = note(&mut core, acts, rounds, played);
    assert!(rt; is_noted);
}

/// Returns how many acts of a new core fail.
fn follow_anew(rt: &(impl Abort + AllocGlobal), header: &Header, played: &[Played]) -> u32 {
    let mut core = AnyCore::open(rt.alloc(), header).expect(rt, "memory");
    follow_all(rt, &mut core, played).expect(rt, "memory")
}

/// Performs the acts repeatedly, once with all memory, and once with each growth of the history failing
/// first. Returns how many failed.
fn refuse(rt: &(impl Abort + AllocGlobal), header: &Header, acts: &[Act], rounds: u32) -> u32 {
    let mut played = Vec::new(rt.alloc());
    note_anew(rt, header, acts, rounds, &mut played);
    follow_anew(rt, header, &played)
}

/// The same for a steps text, with a cap of its own or with one that its history doesn't come near.
fn refuse_text(rt: &(impl Abort + AllocGlobal), text: &str, cap: Option<u32>, rounds: u32) -> u32 {
    let read = read_steps(rt.alloc(), text.as_bytes()).expect(rt, text);
    let mut header = read.header.header;
    header.cap = cap.unwrap_or(header.cap);
    refuse(rt, &header, &read.acts, rounds)
}

/// A history within its cap takes one page, and a long one three. If there are no steps it takes none.
#[test]
fn a_refused_step_changes_nothing(rt: HostRuntime) {
    for text in situations() {
        let some = u32::from(!text.ends_with("\nend 0\n"));
        let within = refuse_text(&rt, text, None, 24);
        let beyond = refuse_text(&rt, text, Some(1_000_000), 4096);
        assert!(rt;
            within == some && beyond == 3 * some,
            "{text}: {within} and {beyond}"
        );
    }
}

const TAKE: Step = Step::Acquire(Mode::X, 1);

const ACTS: [Act; 4] = [Act::Do(0, TAKE), Act::Trim, Act::Do(1, TAKE), Act::Trim];

const LOCK: Header = Header {
    object: Object::Lock(Policy::Fair),
    seats: 2,
    conditions: 0,
    cap: 64,
};

fn has_recorded(outcome: &Outcome) -> bool {
    matches!(outcome, Ok(Done::Answered(Answer::Recorded(_, _))))
}

/// Returns whether no step was recorded, and no trim found an entry.
fn are_starved(outcomes: &[Outcome]) -> bool {
    let wanted = [Err(Fault::OutOfMemory), Ok(Done::Trimmed(0))];
    outcomes.len() == ACTS.len() && outcomes.starts_with(&wanted) && outcomes.ends_with(&wanted)
}

/// Returns whether each step was recorded, and folded by the next trim.
fn are_recorded(outcomes: &[Outcome]) -> bool {
    let recorded = outcomes
        .iter()
        .filter(|outcome| has_recorded(outcome))
        .count();
    let folded = Ok(Done::Trimmed(1));
    let are_folded = outcomes.get(1) == Some(&folded) && outcomes.get(3) == Some(&folded);
    outcomes.len() == ACTS.len() && recorded == 2 && are_folded
}

/// Performs acts as memory is freed for the list of their results. Before that nothing is done. Returns
/// whether they were starved.
fn act_starved(rt: &(impl Abort + AllocGlobal), core: &mut AnyCore, memory: &mut Memory) -> bool {
    let before = core.told();
    for refused in 0..9 {
        match core.run_acts(rt.alloc(), &ACTS) {
            Ok(outcomes) => return 1 <= refused && are_starved(&outcomes),
            Err(fault) => {
                let given = memory.give_piece();
                assert!(rt; given && fault == Fault::OutOfMemory && core.told() == before);
            }
        }
    }
    false
}

/// The same, starting with no memory.
fn starve(rt: &(impl Abort + AllocGlobal), core: &mut AnyCore) -> bool {
    let mut memory = Memory::take_all(rt.alloc(), 256).expect(rt, "memory");
    act_starved(rt, core, &mut memory)
}

/// Performs acts with all memory, and returns whether they were recorded.
fn feed_all(rt: &(impl Abort + AllocGlobal), core: &mut AnyCore) -> bool {
    match core.run_acts(rt.alloc(), &ACTS) {
        Ok(outcomes) => are_recorded(&outcomes),
        Err(_) => false,
    }
}

/// With memory only for the results, no step has a place for its entry, and a trim finds none to fold. With
/// more memory each step is recorded, and folded by the next trim.
#[test]
fn acts_go_on_if_memory_was_refused(rt: HostRuntime) {
    let mut core = AnyCore::open(rt.alloc(), &LOCK).expect(&rt, "memory");
    let is_starved = starve(&rt, &mut core);
    let is_recorded = feed_all(&rt, &mut core);
    assert!(rt; is_starved && is_recorded);
}
