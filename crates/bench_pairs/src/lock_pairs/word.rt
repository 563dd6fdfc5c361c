//! Pairs under the word lock.
ghost use Rattle.std.specs.Prelude.{◌≡◌, ◌<◌, true, length, All};
ghost use Rattle.word_lock.specs.Ready.{IsReady};
ghost use Rattle.word_lock.specs.Ticket.{first_seat};

use std::alloc::{AllocError, Global};
use std::sync::Wait;
use std::thread;
use std::thread::Threads;
use word_lock::{Chronicle, Token, WordLock};

/// A number with no history: its list stays empty.
#[derive(Drop)]
struct Count {
    pairs: u64,
}

impl Chronicle for Count {
    ghost use Rattle.word_lock.specs.Point.{blank_point};

    ghost point = { λ _. blank_point };

    ghost fact = { λ _. Unit {0} };

    ghost sound = { λ _. Unit {0} };

    ghost is_sound = { λ _ _. tt };
}

// A token with its lock.
#[derive(Drop)]
struct Worker<'l> {
    lock: &'l WordLock<Count>,
    token: Token,
    ghost own: { token.lock ≡ lock.now },
    ghost free: { token.free ≡ true },
    ghost one: { length token.logs ≡ 1 },
}

/// Each thread adds one to a number, `pairs` times. Returns the number after that.
pub fn count_pairs<R: Threads + Wait + Sync>(
    rt: &R,
    alloc: Global,
    threads: u16,
    pairs: u64,
) -> Result<u64, AllocError>
    requires { threads < 256 }
{
    let Ok((lock, mut tokens)) = WordLock::open(alloc, Count { pairs: 0 }, threads + 1) else {
        return Err(AllocError);
    };
    let Some(last) = tokens.pop() else {
        unreachable!()
    };
    match work_all(rt, alloc, &lock, tokens, pairs) {
        Ok(()) => Ok(lock.close(rt, last).pairs),
        Err(error) => Err(error),
    }
}

/// Uses each token in a thread of its own.
fn work_all<R: Threads + Wait + Sync>(
    rt: &R,
    alloc: Global,
    lock: &WordLock<Count>,
    tokens: Vec<Token>,
    pairs: u64,
) -> Result<(), AllocError>
    requires ready { All (λ t. IsReady lock.now (first_seat t.logs) t) tokens.items }
{
    let workers = make_workers(alloc, lock, tokens)?;
    thread::map_vec(rt, workers, &|worker| work(rt, worker, pairs))?;
    Ok(())
}

fn make_workers<'l>(
    alloc: Global,
    lock: &'l WordLock<Count>,
    mut tokens: Vec<Token>,
) -> Result<Vec<Worker<'l>>, AllocError>
    requires { All (λ t. IsReady lock.now (first_seat t.logs) t) tokens.items }
{
    let mut workers = Vec::new(alloc);
    while let Some(token) = tokens.pop() {
        workers.push(Worker { lock, token })?;
    }
    Ok(workers)
}

fn work<'l, R: Wait>(rt: &R, worker: Worker<'l>, pairs: u64) -> Worker<'l> {
    let Worker { lock, mut token } = worker;
    for _ in 0..pairs {
        let mut held = lock.lock(rt, &mut token);
        held.value.pairs = held.value.pairs.wrapping_add(1);
        lock.unlock(&mut token, held);
    }
    Worker { lock, token }
}
