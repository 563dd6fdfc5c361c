//! Threads that park at a seat, and others that unpark it, interrupt it, or take its interrupt.
ghost use Rattle.std.specs.Prelude.{◌≡◌, ◌<◌};

use crate::locks::open;
use crate::marks::mark;
use permit::{Parking, ThreadParking, Woke};
use std::alloc::{AllocError, Global};
use std::sync::Wait;
use std::thread;
use std::thread::Threads;
use std::time::Clock;
use word_lock::Token;

/// How many threads there are.
const THREADS: usize = 9;

/// The moment until which a thread parks, in milliseconds: a day after the opening.
const FAR: u64 = 86_400_000;

/// What a thread tells after its call: nothing, or that it took no interrupt; 1 if it took one; or why a park ended.
const NOTHING: u8 = 0;

const PERMIT: u8 = 2;

const DEADLINE: u8 = 3;

const INTERRUPTED: u8 = 4;

fn told_of_park(woke: Woke) -> u8 {
    match woke {
        Woke::Permit => PERMIT,
        Woke::Deadline => DEADLINE,
        Woke::Interrupted => INTERRUPTED,
    }
}

/// Makes the call of a thread, and returns what it tells after that.
fn call<R: Wait + Clock>(rt: &R, parking: &ThreadParking, token: &Token, number: usize) -> u8
    requires { 0 < parking.now }
{
    match number {
        0 => told_of_park(parking.park(rt, 0, None, false)),
        1 => told_of_park(parking.park(rt, 0, None, true)),
        2 => told_of_park(parking.park(rt, 0, Some(FAR), true)),
        3 => told_of_park(parking.park(rt, 0, Some(0), false)),
        4 | 5 => {
            parking.unpark(0, token);
            NOTHING
        }
        6 => {
            parking.interrupt(0);
            NOTHING
        }
        _ => u8::from(parking.take_interrupt(0)),
    }
}

/// Makes the calls of a thread, with a token of its own.
fn work<R: Wait + Clock>(
    rt: &R,
    alloc: Global,
    parking: &ThreadParking,
    number: usize,
    rounds: u32,
) -> Result<(), AllocError>
    requires { 0 < parking.now }
{
    let (_lock, mut tokens) = open(alloc, 1)?;
    let Some(token) = tokens.pop() else {
        return Err(AllocError);
    };
    mark(rt, number, NOTHING);
    for _ in 0..rounds {
        let came = call(rt, parking, &token, number);
        mark(rt, number, came);
    }
    Ok(())
}

/// Each thread makes its call `rounds` times.
pub(crate) fn run<R: Threads + Wait + Clock + Sync>(
    rt: &R,
    alloc: Global,
    rounds: u32,
) -> Result<(), AllocError> {
    let Ok(parking) = ThreadParking::open(rt, alloc, 1) else {
        return Err(AllocError);
    };
    let _ended = thread::map_indices(
        rt,
        alloc,
        THREADS,
        &|number: usize| -> Result<(), AllocError>
            requires { 0 < parking }
        { work(rt, alloc, &parking, number, rounds) },
    )?;
    Ok(())
}
