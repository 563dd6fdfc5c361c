//! Threads that take a word lock and put it back.
ghost use Rattle.std.specs.Prelude.{◌≡◌, ◌<◌, true, length, All, IfOk};
ghost use Rattle.word_lock.specs.Ready.{IsReady};
ghost use Rattle.word_lock.specs.Ticket.{first_seat};

use crate::marks::mark;
use std::alloc::{AllocError, Global};
use std::sync::Wait;
use std::thread;
use std::thread::Threads;
use std::time::Clock;
use word_lock::{Chronicle, Token, WordLock};

/// How many threads there are.
const THREADS: u16 = 4;

/// What a thread tells after its call: it has put the lock back, or has taken it.
const PUT_BACK: u8 = 0;

const TAKEN: u8 = 1;

/// A value without entries.
#[derive(Drop)]
pub(crate) struct Blank;

impl Chronicle for Blank {
    ghost use Rattle.word_lock.specs.Point.{blank_point};

    ghost point = { λ _. blank_point };

    ghost fact = { λ _. Unit {0} };

    ghost sound = { λ _. Unit {0} };

    ghost is_sound = { λ _ _. tt };
}

// A thread's number, and its token with the lock.
#[derive(Drop)]
struct Worker<'l> {
    number: usize,
    lock: &'l WordLock<Blank>,
    token: Token,
    ghost own: { token.lock ≡ lock.now },
    ghost free: { token.free ≡ true },
    ghost one: { length token.logs ≡ 1 },
}

/// Opens a lock, and returns it with its tokens.
pub(crate) fn open(alloc: Global, seats: u16) -> Result<(WordLock<Blank>, Vec<Token>), AllocError>
    requires { 0 < seats }
    ensures { IfOk result (λ r. All (λ t. IsReady r.0 (first_seat t.logs) t) r.1.items) }
{
    match WordLock::open(alloc, Blank, seats) {
        Ok((lock, tokens)) => Ok((lock, tokens)),
        Err(_refused) => Err(AllocError),
    }
}

/// Each thread takes the lock and puts it back, `rounds` times.
pub(crate) fn run<R: Threads + Wait + Clock + Sync>(
    rt: &R,
    alloc: Global,
    rounds: u32,
) -> Result<(), AllocError> {
    let (lock, tokens) = open(alloc, THREADS)?;
    work_all(rt, alloc, &lock, tokens, rounds)
}

/// Uses each token in a thread of its own.
fn work_all<R: Threads + Wait + Clock + Sync>(
    rt: &R,
    alloc: Global,
    lock: &WordLock<Blank>,
    tokens: Vec<Token>,
    rounds: u32,
) -> Result<(), AllocError>
    requires ready { All (λ t. IsReady lock.now (first_seat t.logs) t) tokens.items }
{
    let workers = make_workers(alloc, lock, tokens)?;
    thread::map_vec(rt, workers, &|worker| work(rt, worker, rounds))?;
    Ok(())
}

fn make_workers<'l>(
    alloc: Global,
    lock: &'l WordLock<Blank>,
    mut tokens: Vec<Token>,
) -> Result<Vec<Worker<'l>>, AllocError>
    requires { All (λ t. IsReady lock.now (first_seat t.logs) t) tokens.items }
{
    let mut workers = Vec::new(alloc);
    while let Some(token) = tokens.pop() {
        let number = tokens.len();
        workers.push(Worker {
            number,
            lock,
            token,
        })?;
    }
    Ok(workers)
}

fn work<'l, R: Wait + Clock>(rt: &R, worker: Worker<'l>, rounds: u32) -> Worker<'l> {
    let Worker {
        number,
        lock,
        mut token,
    } = worker;
    for _ in 0..rounds {
        mark(rt, number, PUT_BACK);
        let held = lock.lock(rt, &mut token);
        mark(rt, number, TAKEN);
        lock.unlock(&mut token, held);
    }
    Worker {
        number,
        lock,
        token,
    }
}
