//! Allocations that fail.
//!
//! A test takes all memory first, a part of it as one block, and frees that piece by piece from its end. So
//! one allocation after another fails, until all succeed. A call that leaked memory when it failed would
//! never succeed, since one piece is freed at a time.

use crate::block::Block;
use crate::played::{Play, deepen, perform};
use crate::streamed::Stream;
use crate::texts::{
    HISTORY, ON_COUNT, ON_SLEEPER, SCRIPT, STEPS, TRIMMED, WIDE, put_history_of_pairs, put_pairs,
    put_times, put_wide_script,
};
use history::header::{Header, Object, Policy};
use std::alloc::AllocError;
use std::process::Abort;
use std::test::Fail;
use std::time::Clock;
use streams::stream_fault::StreamFault;

/// More bytes than any answer here has.
const AMPLE: usize = 1_000_000;

/// Pieces so small that each of the smallest requests takes one.
const FINE: usize = 16;

/// Less memory than any table of a core of 256 seats takes.
const COARSE: usize = 256;

/// A call, the size of a piece, and how often the call fails at least and at most.
#[derive(Clone, Copy)]
struct Row<'a>(Play<'a>, usize, u32, u32);

/// Returns how often a call fails. Each time nothing is written, and in the end all that is wanted.
fn fed(
    rt: &(impl Abort + AllocGlobal + Clock),
    what: Play,
    memory: &mut Block,
    wanted: &[u8],
    out: &mut Vec<u8>,
) -> u32 {
    for refused in 0..4096 {
        out.clear();
        let came = perform(rt, what, out);
        if came == Ok(true) {
            assert!(rt;
                out.as_slice() == wanted,
                "other bytes with memory that came back"
            );
            return refused;
        }
        assert!(rt; came == Err(StreamFault::Memory) && out.is_empty());
        let was_left = memory.give_piece();
        assert!(rt; was_left);
    }
    u32::MAX
}

/// The same, starting with no memory.
fn refusals(
    rt: &(impl Abort + AllocGlobal + Clock),
    what: Play,
    piece: usize,
    wanted: &[u8],
    out: &mut Vec<u8>,
) -> Result<u32, AllocError> {
    let mut memory = Block::take_all(rt.alloc(), piece)?;
    Ok(fed(rt, what, &mut memory, wanted, out))
}

/// What is wanted, and what is written. Both have all the memory that they will need.
#[derive(Drop)]
struct Answers {
    wanted: Vec<u8>,
    out: Vec<u8>,
}

/// Plays a row with memory first, so that the stack has its full depth. If there were no memory for the
/// stack, the system would end the program.
fn try_row(
    rt: &(impl Abort + AllocGlobal + Clock),
    answers: &mut Answers,
    number: usize,
    row: &Row,
) {
    let Row(what, piece, least, most) = *row;
    answers.wanted.clear();
    let came = perform(rt, what, &mut answers.wanted);
    assert!(rt; came == Ok(true), "row {number}: {came:?}");
    let refused = refusals(rt, what, piece, &answers.wanted, &mut answers.out);
    match refused {
        Ok(refused) => assert!(rt;
            least <= refused && refused <= most,
            "row {number}: refused {refused} times, and not {least} to {most}"
        ),
        Err(_) => assert!(rt; false, "row {number}: no memory to begin with"),
    }
}

fn try_rows(rt: &(impl Abort + AllocGlobal + Clock), rows: &[Row]) -> Result<(), AllocError> {
    let wanted = Vec::with_capacity(rt.alloc(), AMPLE)?;
    let out = Vec::with_capacity(rt.alloc(), AMPLE)?;
    let mut answers = Answers { wanted, out };
    deepen(rt, &mut answers.out);
    for (number, row) in rows.iter().enumerate() {
        try_row(rt, &mut answers, number, row);
    }
    Ok(())
}

fn header_of(object: Object, conditions: u8) -> Header {
    Header {
        object,
        seats: 256,
        conditions,
        cap: 1_000_000,
    }
}

/// A core opens six tables for its seats, two lists of its conditions and two tables for each. A read-write
/// lock has one more table, for its readers. All together hardly take more pieces than they fill.
#[test]
fn cores_and_what_they_stand_on_are_opened_whole_or_not_at_all(
    rt: HostRuntime,
) -> Result<(), Fail> {
    let lock = header_of(Object::Lock(Policy::Fair), 16);
    let read_write = header_of(Object::ReadWrite(Policy::NonFair), 16);
    let semaphore = header_of(Object::Semaphore(Policy::Strict, 3), 0);
    let latch = header_of(Object::Latch(2), 0);
    try_rows(
        &rt,
        &[
            Row(Play::Core(lock), COARSE, 335, 360),
            Row(Play::Core(read_write), COARSE, 350, 376),
            Row(Play::Core(semaphore), COARSE, 208, 230),
            Row(Play::Core(latch), COARSE, 208, 230),
            Row(Play::Base(read_write), COARSE, 175, 192),
            Row(Play::Readers, COARSE, 2, 12),
            Row(Play::Line, COARSE, 97, 110),
            Row(Play::Sleepers, COARSE, 26, 40),
            Row(Play::Nodes, COARSE, 34, 44),
            Row(Play::Run, COARSE, 40, 90),
            Row(Play::RunActs, COARSE, 60, 120),
        ],
    )?;
    Ok(())
}

/// A monitor of four seats allocates its passes, four tables of its seats, and the tokens, the slot and the
/// word of its lock. A condition adds a list and a table of lists, a read-write lock a table of readers. A
/// parking allocates one table, a scripted one two.
#[test]
fn monitors_and_parkings_are_opened_whole_or_not_at_all(rt: HostRuntime) -> Result<(), Fail> {
    try_rows(
        &rt,
        &[
            Row(Play::Lock, FINE, 260, 300),
            Row(Play::ReadWriteLock, FINE, 265, 310),
            Row(Play::Semaphore, FINE, 260, 300),
            Row(Play::Latch, FINE, 260, 300),
            Row(Play::Threads, 64, 8, 18),
            Row(Play::Scripted, 32, 30, 64),
        ],
    )?;
    Ok(())
}

/// Texts through each stream, and how often they fail, with pieces of 64 bytes, at least and at most.
const NARROW: [(Stream, &[u8], u32, u32); 8] = [
    (Stream::Replay, STEPS, 1740, 1830),
    (Stream::History, STEPS, 1740, 1830),
    (Stream::Audit, HISTORY, 830, 3000),
    (Stream::Draw, HISTORY, 830, 3400),
    (Stream::Audit, ON_SLEEPER, 830, 3000),
    (Stream::Draw, ON_SLEEPER, 830, 3400),
    (Stream::Audit, ON_COUNT, 830, 3000),
    (Stream::Draw, ON_COUNT, 830, 3400),
];

/// Nothing is written before there is memory for all: for the window, which takes most, and then for each
/// table, list and text.
#[test]
fn a_stream_that_lacks_memory_writes_nothing(rt: HostRuntime) -> Result<(), Fail> {
    for (stream, text, least, most) in NARROW {
        try_rows(&rt, &[Row(Play::Through(stream, text), 64, least, most)])?;
    }
    Ok(())
}

/// The tables of many seats and conditions take more memory than a text, and none is allocated twice.
#[test]
fn a_replay_of_many_seats_takes_hardly_more_than_its_tables(rt: HostRuntime) -> Result<(), Fail> {
    for (number, text) in WIDE.iter().enumerate() {
        let most: u32 = if number < 2 || number == 4 { 690 } else { 570 };
        for stream in [Stream::Replay, Stream::History] {
            let what = Play::Through(stream, text);
            try_rows(&rt, &[Row(what, COARSE, most.saturating_sub(120), most)])?;
        }
    }
    for text in &TRIMMED {
        for stream in [Stream::Replay, Stream::History] {
            try_rows(&rt, &[Row(Play::Through(stream, text), COARSE, 270, 450)])?;
        }
    }
    Ok(())
}

/// Lists and scripts that are read whole, and histories that are written again.
#[test]
fn what_is_read_is_read_whole_or_not_at_all(rt: HostRuntime) -> Result<(), Fail> {
    try_rows(
        &rt,
        &[
            Row(Play::Again(HISTORY), 64, 105, 140),
            Row(Play::Again(ON_SLEEPER), 64, 125, 165),
            Row(Play::Script(SCRIPT), FINE, 700, 860),
        ],
    )?;
    Ok(())
}

/// A list of steps grows twice, each time by more pieces, and takes no more than it needs. So do the bytes of
/// a source.
#[test]
fn a_list_and_a_source_take_hardly_more_than_they_have(rt: HostRuntime) -> Result<(), Fail> {
    let mut steps = String::new(rt.alloc());
    steps.push_str("aqs-steps 1 latch seats 1 count 1 cap 16\n")?;
    put_times(&mut steps, "0 look\n", 200)?;
    steps.push_str("end 200\n")?;
    try_rows(&rt, &[Row(Play::Steps(steps.as_bytes()), COARSE, 12, 24)])?;
    put_times(&mut steps, "0 look\n", 14_000)?;
    try_rows(&rt, &[Row(Play::Bytes(steps.as_bytes()), COARSE, 440, 530)])?;
    Ok(())
}

/// The lists of calls and of workers are allocated for as many as there are. Lists for ten times as many
/// would take more pages.
#[test]
fn a_script_takes_hardly_more_than_its_text_and_its_calls(rt: HostRuntime) -> Result<(), Fail> {
    let mut script = String::new(rt.alloc());
    put_wide_script(&mut script)?;
    try_rows(&rt, &[Row(Play::Script(script.as_bytes()), 4096, 100, 175)])?;
    Ok(())
}

/// A history whose growth is the greatest request: the last allocations that fail are those of steps. The
/// same history is read as a list, and written again.
#[test]
fn a_growth_of_a_history_is_refused(rt: HostRuntime) -> Result<(), Fail> {
    let mut steps = String::new(rt.alloc());
    put_pairs(&mut steps, 2_000)?;
    for stream in [Stream::Replay, Stream::History] {
        let what = Play::Through(stream, steps.as_bytes());
        try_rows(&rt, &[Row(what, COARSE, 700, 900)])?;
    }
    let mut history = String::new(rt.alloc());
    put_history_of_pairs(&mut history, 600)?;
    let audit = Play::Through(Stream::Audit, history.as_bytes());
    try_rows(
        &rt,
        &[
            Row(Play::Again(history.as_bytes()), COARSE, 190, 240),
            Row(audit, COARSE, 250, 290),
        ],
    )?;
    Ok(())
}
