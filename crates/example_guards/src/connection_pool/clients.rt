//! The clients of a pool, and the outcome of their requests.
ghost use Rattle.std.specs.Prelude.{◌≡◌, All, IfOk};
ghost use Rattle.example_guards.specs.Client.{IsOf};

use crate::connection_pool::service::Connection;
use guarded::Pool;
use monitor::Pass;
use std::alloc::{AllocError, Global};

/// The outcome of requests, as numbers.
#[derive(Clone, Copy)]
pub struct Outcome {
    pub served: u64,
    /// Requests that got no connection in time.
    pub timed_out: u64,
    /// Requests that ended with a fault before they had a connection.
    pub failed: u64,
    /// Connections that were dropped, since their release returned a fault.
    pub given_up: u64,
}

/// A client, and the outcome of its requests so far.
#[derive(Drop)]
pub struct Client {
    pub pass: Pass,
    pub outcome: Outcome,
}

impl Outcome {
    pub const NONE: Outcome = Outcome {
        served: 0,
        timed_out: 0,
        failed: 0,
        given_up: 0,
    };

    /// The sum of both.
    pub fn with(self, other: Outcome) -> Outcome {
        Outcome {
            served: self.served.saturating_add(other.served),
            timed_out: self.timed_out.saturating_add(other.timed_out),
            failed: self.failed.saturating_add(other.failed),
            given_up: self.given_up.saturating_add(other.given_up),
        }
    }
}

/// A client for each pass.
pub fn enroll(
    alloc: Global,
    pool: &Pool<Connection>,
    passes: Vec<Pass>,
) -> Result<Vec<Client>, AllocError>
    requires { All (λ p. p.lock ≡ pool.now.lock) passes.items }
    ensures { IfOk result (λ v. All (IsOf pool.now.lock) v.items) }
{
    let mut clients = Vec::new(alloc);
    for pass in passes {
        let outcome = Outcome::NONE;
        clients.push(Client { pass, outcome })?;
    }
    Ok(clients)
}

/// Returns the passes of all clients, and the outcome of their requests.
pub fn dismiss(
    alloc: Global,
    pool: &Pool<Connection>,
    clients: Vec<Client>,
) -> Result<(Vec<Pass>, Outcome), AllocError>
    requires { All (IsOf pool.now.lock) clients.items }
    ensures { IfOk result (λ r. All (λ p. p.lock ≡ pool.now.lock) r.0.items) }
{
    let mut passes = Vec::new(alloc);
    let mut all = Outcome::NONE;
    for client in clients {
        let Client { pass, outcome } = client;
        all = all.with(outcome);
        passes.push(pass)?;
    }
    Ok((passes, all))
}
