//! Connections in a pool, and how a client uses one.
ghost use Rattle.std.specs.Prelude.{◌≡◌, ◌≤◌, IfErr, IfOk, length};
ghost use Rattle.history.specs.declared.fault.Fault.TheVariants.{OutOfMemory};
ghost use Rattle.monitor.specs.Stepping.{IsSame};
ghost use Rattle.example_guards.specs.Client.{IsOf};

use crate::connection_pool::CONNECTIONS;
use crate::connection_pool::clients::{Client, Outcome};
use guarded::Pool;
use history::fault::Fault;
use monitor::Pass;
use permit::ThreadParking;
use std::alloc::Global;
use std::collections::LinkedList;
use std::sync::Wait;
use std::time::Clock;

/// A connection, which counts the requests that it served.
#[derive(Drop)]
pub struct Connection {
    /// The first connection has number 0.
    pub number: u32,
    pub requests: u64,
}

/// The pool, and the place where its clients park.
#[derive(Drop)]
pub struct Service<'p> {
    pub parking: &'p ThreadParking,
    pub pool: &'p Pool<Connection>,
    ghost places: { pool.now.lock.header.seats ≤ parking.now },
}

/// Opens this number of connections.
pub fn connect(alloc: Global, count: u32) -> Result<LinkedList<Connection>, Fault>
    ensures all { IfOk result (λ connections. length connections ≡ count) }
    ensures err { IfErr result (λ fault. fault ≡ OutOfMemory) }
{
    let mut connections = LinkedList::new(alloc);
    for number in 0..count {
        let requests = 0;
        if connections
            .push_back(Connection { number, requests })
            .is_err()
        {
            return Err(Fault::OutOfMemory);
        }
    }
    Ok(connections)
}

/// Returns how many requests the connections served.
pub fn requests_of(connections: LinkedList<Connection>) -> u64 {
    let mut sum = 0u64;
    for connection in connections {
        sum = sum.saturating_add(connection.requests);
    }
    sum
}

impl Service<'_> {
    /// Acquires all connections.
    pub fn take_all<R: Wait + Clock>(
        &self,
        rt: &R,
        owner: &mut Pass,
    ) -> Result<LinkedList<Connection>, Fault>
        requires { owner.old.lock ≡ self.now.pool.now.lock }
        ensures same { IsSame owner.old owner.new }
        ensures all { IfOk result (λ all. length all ≡ CONNECTIONS) }
    {
        self.pool
            .acquire_uninterruptibly(rt, self.parking, owner, CONNECTIONS)
    }

    /// Releases all connections. If that fails, they are dropped.
    pub fn put_all_back<R: Wait + Clock>(
        &self,
        rt: &R,
        owner: &mut Pass,
        all: LinkedList<Connection>,
    ) -> Result<(), Fault>
        requires is_of { owner.old.lock ≡ self.now.pool.now.lock }
        requires all { length all ≡ CONNECTIONS }
        ensures { IsSame owner.old owner.new }
    {
        match self.pool.release(rt, self.parking, owner, all) {
            Ok(()) => Ok(()),
            Err((_given_up, fault)) => Err(fault),
        }
    }

    /// Makes a request, if a connection is free within this number of milliseconds. A connection whose release
    /// fails is dropped.
    fn request<R: Wait + Clock>(&self, rt: &R, pass: &mut Pass, milliseconds: u32) -> Outcome
        requires { pass.old.lock ≡ self.now.pool.now.lock }
        ensures { IsSame pass.old pass.new }
    {
        let acquired = self
            .pool
            .try_acquire_one_for(rt, self.parking, pass, milliseconds);
        match acquired {
            Ok(Some(connection)) => self.serve(rt, pass, connection),
            Ok(None) => Outcome {
                timed_out: 1,
                ..Outcome::NONE
            },
            Err(_) => Outcome {
                failed: 1,
                ..Outcome::NONE
            },
        }
    }

    /// Serves a request by this connection, and releases it.
    fn serve<R: Wait + Clock>(&self, rt: &R, pass: &mut Pass, connection: Connection) -> Outcome
        requires { pass.old.lock ≡ self.now.pool.now.lock }
        ensures { IsSame pass.old pass.new }
    {
        let Connection { number, requests } = connection;
        let requests = requests.saturating_add(1);
        let served = Connection { number, requests };
        let given_up = match self.pool.release_one(rt, self.parking, pass, served) {
            Ok(()) => 0,
            Err((_given_up, _fault)) => 1,
        };
        Outcome {
            served: 1,
            given_up,
            ..Outcome::NONE
        }
    }

    /// Makes this number of requests, and waits at most `milliseconds` for each connection.
    pub fn request_all<R: Wait + Clock>(
        &self,
        rt: &R,
        client: Client,
        requests: u64,
        milliseconds: u32,
    ) -> Client
        requires { IsOf self.now.pool.now.lock client }
        ensures { IsOf self.now.pool.now.lock result }
    {
        let Client { pass, outcome } = client;
        let mut pass = pass;
        let mut outcome = outcome;
        for _ in 0..requests {
            outcome = outcome.with(self.request(rt, &mut pass, milliseconds));
        }
        Client { pass, outcome }
    }
}
