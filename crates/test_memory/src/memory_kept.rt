//! No memory is kept: what is repeated leaves as much free memory as there was after the first times.

use crate::played::{Play, deepen, perform};
use crate::streamed::{Stream, through};
use crate::texts::{ON_COUNT, ON_READER, ON_SLEEPER, SCRIPT, STEPS, TRIMMED, WRONG};
use history::header::{Header, Object, Policy};
use std::process::Abort;
use std::test::Fail;
use std::time::Clock;
use test_support::examples::situations;
use test_support::memory::Memory;

/// More bytes than any answer here has.
const AMPLE: usize = 65_536;

/// Whatever is kept fills such a piece when it is kept often enough.
const PIECE: usize = 4096;

/// As many pieces as each play needs.
const ENOUGH: usize = 256;

/// After this number of times a heap keeps no more blocks back.
const FIRST_TIMES: u32 = 16;

/// If the smallest block were kept each time, four pieces or more would be missed.
const MORE_TIMES: u32 = 600;

/// The heap sometimes cuts blocks that it keeps back from other pieces.
const CUT: usize = 3;

/// Returns whether a play has this result each time.
fn comes_so(
    rt: &(impl Abort + AllocGlobal + Clock),
    what: Play,
    legal: bool,
    times: u32,
    out: &mut Vec<u8>,
) -> bool {
    for _ in 0..times {
        out.clear();
        if perform(rt, what, out) != Ok(legal) {
            return false;
        }
    }
    true
}

/// A play keeps no memory.
fn keeps_none(
    rt: &(impl Abort + AllocGlobal + Clock),
    memory: &mut Memory,
    what: Play,
    legal: bool,
    out: &mut Vec<u8>,
    name: &str,
) {
    memory.give_pieces(ENOUGH);
    let first = comes_so(rt, what, legal, FIRST_TIMES, out);
    assert!(rt; first, "{name}");
    let free = memory.free_pieces();
    let more = comes_so(rt, what, legal, MORE_TIMES, out);
    let left = memory.free_pieces();
    assert!(rt;
        more && free <= left.saturating_add(CUT),
        "{name}: {free} and {left}"
    );
    memory.take_pieces();
}

/// Plays a steps text and its history through each stream.
fn situation_keeps_none(
    rt: &(impl Abort + AllocGlobal + Clock),
    memory: &mut Memory,
    text: &str,
    history: &mut Vec<u8>,
    out: &mut Vec<u8>,
) {
    let steps = text.as_bytes();
    history.clear();
    memory.give_pieces(ENOUGH);
    let is_put = through(rt.alloc(), Stream::History, steps, history);
    memory.take_pieces();
    assert!(rt; is_put == Ok(true));
    for what in [
        Play::Through(Stream::Replay, steps),
        Play::Through(Stream::History, steps),
        Play::Through(Stream::Audit, history),
        Play::Through(Stream::Draw, history),
        Play::Again(history),
    ] {
        keeps_none(rt, memory, what, true, out, text);
    }
}

#[test]
fn situations_keep_no_memory(rt: HostRuntime) -> Result<(), Fail> {
    let mut history = Vec::with_capacity(rt.alloc(), AMPLE)?;
    let mut out = Vec::with_capacity(rt.alloc(), AMPLE)?;
    deepen(&rt, &mut out);
    let mut memory = Memory::take_all(rt.alloc(), PIECE)?;
    for text in situations() {
        situation_keeps_none(&rt, &mut memory, text, &mut history, &mut out);
    }
    Ok(())
}

/// Histories, and whether they are legal.
const BASED: [(&[u8], bool); 4] = [
    (ON_SLEEPER, true),
    (ON_READER, false),
    (ON_COUNT, true),
    (WRONG, false),
];

const OPENED: [Play; 13] = [
    Play::Steps(STEPS),
    Play::Script(SCRIPT),
    Play::Run,
    Play::RunActs,
    Play::Core(Header {
        object: Object::ReadWrite(Policy::Strict),
        seats: 4,
        conditions: 2,
        cap: 64,
    }),
    Play::Line,
    Play::Sleepers,
    Play::Lock,
    Play::ReadWriteLock,
    Play::Semaphore,
    Play::Latch,
    Play::Threads,
    Play::Scripted,
];

/// Texts with trims, and histories on a base or not legal.
fn texts_keep_none(
    rt: &(impl Abort + AllocGlobal + Clock),
    memory: &mut Memory,
    out: &mut Vec<u8>,
) {
    for text in TRIMMED {
        for (stream, name) in [(Stream::Replay, "trims"), (Stream::History, "trims, kept")] {
            keeps_none(rt, memory, Play::Through(stream, text), true, out, name);
        }
    }
    for (text, legal) in BASED {
        for (stream, name) in [(Stream::Audit, "an audit"), (Stream::Draw, "a drawing")] {
            keeps_none(rt, memory, Play::Through(stream, text), legal, out, name);
        }
    }
}

fn openings_keep_none(
    rt: &(impl Abort + AllocGlobal + Clock),
    memory: &mut Memory,
    out: &mut Vec<u8>,
) {
    for what in &OPENED {
        keeps_none(rt, memory, *what, true, out, "lists and openings");
    }
}

#[test]
fn trims_and_bases_and_openings_keep_no_memory(rt: HostRuntime) -> Result<(), Fail> {
    let mut out = Vec::with_capacity(rt.alloc(), AMPLE)?;
    deepen(&rt, &mut out);
    let mut memory = Memory::take_all(rt.alloc(), PIECE)?;
    texts_keep_none(&rt, &mut memory, &mut out);
    openings_keep_none(&rt, &mut memory, &mut out);
    Ok(())
}
