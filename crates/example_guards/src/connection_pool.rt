//! A pool of connections: a client acquires one, uses it and releases it. A client owns the connection that
//! it acquired, so no other client has it.
//!
//! First one client acquires all connections, and no other client gets one in time. Then all clients share
//! them. Prints how many requests were served and how many were not, how many connections are in the pool at
//! the end, and what the audit finds in the history of its semaphore.

ghost use Rattle.std.specs.Prelude.{◌≡◌, ◌≤◌, All, IfOk, pos};
ghost use Rattle.frame.specs.Core.{header_of};
ghost use Rattle.history.specs.declared.header.Object.TheVariants.{Semaphore};
ghost use Rattle.history.specs.declared.header.Policy.TheVariants.{Fair};
ghost use Rattle.monitor.specs.Stepping.{IsSame};
ghost use Rattle.example_guards.specs.Client.{IsOf};

mod clients;
mod service;

use crate::connection_pool::clients::{Client, Outcome, dismiss, enroll};
use crate::connection_pool::service::{Connection, Service, connect, requests_of};
use audit::verdict::{Verdict, check};
use guarded::{Pool, WhenFull};
use history::fault::Fault;
use history::header::{Header, Object, Policy};
use monitor::Pass;
use permit::ThreadParking;
use std::alloc::Global;
use std::sync::Wait;
use std::thread::Threads;
use std::time::Clock;
use std::{io, thread};

const CONNECTIONS: u32 = 3;

/// One seat for the client that acquires all connections, and one for each of six others.
const HEADER: Header = Header {
    object: Object::Semaphore(Policy::Fair, 3),
    seats: 7,
    conditions: 0,
    cap: 10_000,
};

/// What each client of a round does.
#[derive(Clone, Copy)]
struct Round {
    /// How many requests it makes.
    requests: u64,
    /// How many milliseconds it waits for a connection.
    patience: u32,
}

/// No connection is released during this round, so a short wait is enough.
const WHILE_ALL_ARE_TAKEN: Round = Round {
    requests: 2,
    patience: 5,
};

/// A connection is released long before that time is up.
const WHILE_ALL_ARE_SHARED: Round = Round {
    requests: 40,
    patience: 60_000,
};

/// A round: each client makes its requests in a thread of its own.
fn play_round<R: Threads + Wait + Clock + Sync>(
    rt: &R,
    service: &Service,
    clients: Vec<Client>,
    round: Round,
) -> Result<Vec<Client>, Fault>
    requires { All (IsOf service.now.pool.now.lock) clients.items }
    ensures { IfOk result (λ v. All (IsOf service.now.pool.now.lock) v.items) }
{
    let Round { requests, patience } = round;
    let played = thread::map_vec(
        rt,
        clients,
        &|client: Client| -> Client
            requires { IsOf service.now.pool.now.lock client }
            ensures { IsOf service.entry.now.pool.now.lock result }
        { service.request_all(rt, client, requests, patience) },
    )?;
    Ok(played)
}

/// A round while one pass has all connections.
fn play_while_taken<R: Threads + Wait + Clock + Sync>(
    rt: &R,
    service: &Service,
    owner: &mut Pass,
    clients: Vec<Client>,
) -> Result<Vec<Client>, Fault>
    requires is_of { owner.old.lock ≡ service.now.pool.now.lock }
    requires own { All (IsOf service.now.pool.now.lock) clients.items }
    ensures same { IsSame owner.old owner.new }
    ensures own { IfOk result (λ v. All (IsOf service.now.pool.now.lock) v.items) }
{
    let all = service.take_all(rt, owner)?;
    let played = play_round(rt, service, clients, WHILE_ALL_ARE_TAKEN);
    service.put_all_back(rt, owner, all)?;
    played
}

/// Both rounds: in the first one this owner has all connections. Returns the passes of the clients, and the
/// outcome of all requests.
fn serve_clients<R: Threads + Wait + Clock + Sync>(
    rt: &R,
    alloc: Global,
    service: &Service,
    owner: &mut Pass,
    passes: Vec<Pass>,
) -> Result<(Vec<Pass>, Outcome), Fault>
    requires is_of { owner.old.lock ≡ service.now.pool.now.lock }
    requires own { All (λ p. p.lock ≡ service.now.pool.now.lock) passes.items }
    ensures same { IsSame owner.old owner.new }
    ensures own { IfOk result (λ r. All (λ p. p.lock ≡ service.now.pool.now.lock) r.0.items) }
{
    let clients = enroll(alloc, service.pool, passes)?;
    let clients = play_while_taken(rt, service, owner, clients)?;
    let clients = play_round(rt, service, clients, WHILE_ALL_ARE_SHARED)?;
    Ok(dismiss(alloc, service.pool, clients)?)
}

/// Both rounds, with the passes of a new pool. Returns the passes and the outcome of all requests.
fn play_rounds<R: Threads + Wait + Clock + Sync>(
    rt: &R,
    alloc: Global,
    parking: &ThreadParking,
    pool: &Pool<Connection>,
    passes: Vec<Pass>,
) -> Result<(Vec<Pass>, Outcome), Fault>
    requires places { pool.now.lock.header.seats ≤ parking.now }
    requires own { All (λ p. p.lock ≡ pool.now.lock) passes.items }
    ensures { IfOk result (λ r. All (λ p. p.lock ≡ pool.now.lock) r.0.items) }
{
    let service = Service { parking, pool };
    let mut passes = passes;
    let Some(mut owner) = passes.pop() else {
        return Err(Fault::OutOfPhase);
    };
    let (mut passes, outcome) = serve_clients(rt, alloc, &service, &mut owner, passes)?;
    match passes.push(owner) {
        Ok(()) => Ok((passes, outcome)),
        Err(_) => Err(Fault::OutOfMemory),
    }
}

/// The outcome of all requests, and what the pool was left with.
#[derive(Clone, Copy)]
struct Summary {
    outcome: Outcome,
    /// How many requests the connections counted.
    by_connections: u64,
    /// How many connections are in the pool.
    lie: usize,
    /// How many permits are free, by the history.
    free: i64,
    /// How many calls the passes saw end.
    calls: u64,
    verdict: Verdict,
}

/// Opens the pool, with a pass for each thread.
fn open(alloc: Global) -> Result<(Pool<Connection>, Vec<Pass>), Fault>
    ensures header { IfOk result (λ opened. opened.0.lock.header ≡ HEADER) }
    ensures own { IfOk result (λ opened. All (λ p. p.lock ≡ opened.0.lock) opened.1.items) }
{
    let connections = connect(alloc, CONNECTIONS)?;
    let opened = Pool::open(
        alloc,
        connections,
        Policy::Fair,
        WhenFull::Refuse,
        HEADER.seats,
        HEADER.cap,
    );
    match opened {
        Ok(opened) => Ok(opened),
        Err((_connections, fault)) => Err(fault),
    }
}

/// Closes the pool and audits the history of its semaphore. The pool has a connection for each free permit.
fn close<R: Wait>(
    rt: &R,
    alloc: Global,
    pool: Pool<Connection>,
    passes: Vec<Pass>,
    outcome: Outcome,
) -> Result<Summary, Fault>
    requires own { All (λ p. p.lock ≡ pool.lock) passes.items }
    requires header { pool.lock.header ≡ HEADER }
    ensures { IfOk result (λ summary. pos summary.lie ≡ summary.free) }
{
    match pool.close(rt, passes) {
        Ok((closed, connections)) => {
            let lie = connections.len();
            let by_connections = requests_of(connections);
            let verdict = check(alloc, &HEADER, &closed.history)?;
            Ok(Summary {
                outcome,
                by_connections,
                lie,
                free: closed.balance.available,
                calls: closed.share,
                verdict,
            })
        }
        Err(_) => Err(Fault::OutOfPhase),
    }
}

/// Plays both rounds with a new pool, and closes it.
fn play_with<R: Threads + Wait + Clock + Sync>(
    rt: &R,
    alloc: Global,
    parking: &ThreadParking,
) -> Result<Summary, Fault>
    requires places { 7 ≤ parking.now }
    ensures { IfOk result (λ summary. pos summary.lie ≡ summary.free) }
{
    let (pool, passes) = open(alloc)?;
    let (passes, outcome) = play_rounds(rt, alloc, parking, &pool, passes)?;
    close(rt, alloc, pool, passes, outcome)
}

/// Opens the place where the threads park, and plays.
fn play<R: Threads + Wait + Clock + Sync>(rt: &R, alloc: Global) -> Result<Summary, Fault>
    ensures { IfOk result (λ summary. pos summary.lie ≡ summary.free) }
{
    let parking = ThreadParking::open(rt, alloc, HEADER.seats)?;
    play_with(rt, alloc, &parking)
}

/// Prints the outcome of all requests, and what the pool was left with.
fn print<R: Print>(rt: &R, summary: &Summary) -> io::Result<()> {
    let Summary {
        outcome,
        by_connections,
        lie,
        free: _,
        calls,
        verdict,
    } = *summary;
    println!(rt;
        "served {}, of them by the connections {by_connections}\n\
         not served in time {}\n\
         connections in the pool {lie}, given up {}, faults {}\n\
         calls {calls}",
        outcome.served, outcome.timed_out, outcome.given_up, outcome.failed
    )?;
    match verdict {
        Verdict::Legal => println!(rt; "the history is legal"),
        Verdict::NotLegal(number) => println!(rt; "not legal at {number}"),
    }
}

/// Plays, and prints the outcome.
pub fn run<R: Print + AllocGlobal + Threads + Wait + Clock + Sync>(rt: &R) -> io::Result<()> {
    match play(rt, rt.alloc()) {
        Ok(summary) => print(rt, &summary),
        Err(fault) => println!(rt; "{fault}, and the connections were given up"),
    }
}
