//! The monitor, and how one is opened.
ghost use Rattle.std.specs.Prelude.{◌≡◌, ◌≤◌, [], All, IfOk, IfErr, vec_len, vec_capacity};
ghost use Rattle.word_lock.specs.Ticket.{opening_tickets};
ghost use Rattle.monitor.specs.Lawful.{blank, IsLawful};
ghost use Rattle.history.specs.Header.{IsInRange};
ghost use Rattle.history.specs.declared.fault.Fault.TheVariants.{OutOfMemory};
ghost use Rattle.frame.specs.Core.{header_of};
ghost use Rattle.monitor.specs.Load.{opened_counts};
ghost use Rattle.monitor.specs.Shown.{opening_passes};

use crate::load::{Empty, Load};
use crate::pass::Pass;
use crate::under_lock::UnderLock;
use frame::hooks::Hooks;
use history::fault::Fault;
use std::alloc::Global;
use std::marker::Model;
use word_lock::{Token, WordLock};

/// An object that threads step by passes, and what lies beside it: nothing, or a load that changes hands as
/// the object's holds do.
#[derive(Drop)]
pub struct Monitor<H: Hooks + Drop, L: Load = Empty> {
    pub(crate) lock: WordLock<UnderLock<H, L>>,
    pub(crate) seats: u16,
}

impl<H: Hooks + Drop, L: Load> Model for Monitor<H, L> {
    ghost use Rattle.std.specs.Prelude.{◌≡◌, ◌<◌};
    ghost use Rattle.word_lock.specs.Ticket.{LockId};

    ghost Value = { LockId };

    ghost view = { λ m. m.lock };

    ghost invariant = { λ m. (m.seats ≡ m.lock.header.seats) × (0 < m.seats) };
}

// A pass for each token of an opening, in order.
fn give_passes<H: Hooks + Drop, L: Load>(
    lock: &WordLock<UnderLock<H, L>>,
    tokens: Vec<Token>,
    passes: &mut Vec<Pass>,
    seats: u16,
)
    requires tokens { tokens.items ≡ opening_tickets lock.now (blank lock.now.header) 0 seats }
    requires seats { lock.now.header.seats ≡ seats }
    requires lawful { IsLawful (blank lock.now.header) }
    requires room { (passes.old.items ≡ []) × (vec_len passes.old ≡ 0) × (seats ≤ vec_capacity passes.old) }
    ensures passes { passes.new.items ≡ opening_passes lock.now (blank lock.now.header) 0 seats }
    ensures capacity { vec_capacity passes.new ≡ vec_capacity passes.old }
{
    let mut seat = 0;
    for token in tokens {
        let share = 0;
        passes.push_reserved(Pass { token, seat, share });
        seat += 1;
    }
}

impl<H: Hooks + Drop> Monitor<H> {
    /// Returns a monitor with an empty history, and a pass for each seat, in order.
    pub fn open(
        alloc: Global,
        hooks: H,
        seats: u16,
        conditions: u8,
        cap: u32,
    ) -> Result<(Monitor<H>, Vec<Pass>), Fault>
        requires opened { H.is_opened hooks seats }
        requires range { IsInRange (header_of (H.object_of hooks) seats conditions cap) }
        ensures header { IfOk result (λ r.
            r.0.header ≡ header_of (H.object_of hooks) seats conditions cap) }
        ensures passes { IfOk result (λ r. r.1.items ≡ opening_passes r.0 (blank r.0.header) 0 seats) }
        ensures own { IfOk result (λ r. All (λ p. p.lock ≡ r.0) r.1.items) }
        ensures room { IfOk result (λ r. vec_capacity r.1 ≡ seats) }
        ensures err { IfErr result (λ fault. fault ≡ OutOfMemory) }
    {
        match Monitor::open_with(alloc, hooks, Empty {}, seats, conditions, cap) {
            Ok(opened) => Ok(opened),
            Err((_none, fault)) => Err(fault),
        }
    }
}

impl<H: Hooks + Drop, L: Load> Monitor<H, L> {
    /// The same with a load. Nobody holds anything yet, so all of the load lies under the lock. If memory is
    /// refused, it returns the load.
    pub fn open_with(
        alloc: Global,
        hooks: H,
        load: L,
        seats: u16,
        conditions: u8,
        cap: u32,
    ) -> Result<(Monitor<H, L>, Vec<Pass>), (L, Fault)>
        requires opened { H.is_opened hooks seats }
        requires range { IsInRange (header_of (H.object_of hooks) seats conditions cap) }
        requires rests { L.rests load (opened_counts (header_of (H.object_of hooks) seats conditions cap)) }
        ensures header { IfOk result (λ r.
            r.0.header ≡ header_of (H.object_of hooks) seats conditions cap) }
        ensures passes { IfOk result (λ r. r.1.items ≡ opening_passes r.0 (blank r.0.header) 0 seats) }
        ensures own { IfOk result (λ r. All (λ p. p.lock ≡ r.0) r.1.items) }
        ensures room { IfOk result (λ r. vec_capacity r.1 ≡ seats) }
        ensures back { IfErr result (λ e. (e.0 ≡ load) × (e.1 ≡ OutOfMemory)) }
    {
        let Ok(mut passes) = Vec::with_capacity(alloc, seats as usize) else {
            return Err((load, Fault::OutOfMemory));
        };
        let kept = UnderLock::open(alloc, hooks, load, seats, conditions, cap)?;
        match WordLock::open(alloc, kept, seats) {
            Err((kept, fault)) => {
                let (core, load) = kept.into_parts();
                drop(core);
                Err((load, fault))
            }
            Ok((lock, tokens)) => {
                give_passes(&lock, tokens, &mut passes, seats);
                Ok((Monitor { lock, seats }, passes))
            }
        }
    }
}
