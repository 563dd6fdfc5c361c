//! What is known of an entry, and of the state before it.

ghost use Rattle.std.specs.Prelude.{◌≡◌, ◌<◌, [], IfOk, IsOkUnless};
ghost use Rattle.explaining.specs.Below.{IsNext, balance, based, IsGood, IsInRange, ready};
ghost use Rattle.explaining.specs.Naming.{naming_of};
ghost use Rattle.explaining.specs.Ways.{ways_of};

use crate::naming::{Naming, naming_of};
use crate::way::{Way, ways_of};
use audit::ledger::Ledger;
use deciding::balance::{Balance, balance_of};
use deciding::decide::ready;
use history::base::Base;
use history::entry::Entry;
use history::fault::Fault;
use std::alloc::Global;

/// What a state comes to.
#[derive(Clone, Copy, Debug, PartialEq, Eq)]
pub struct Standing {
    /// The head of the queue, if it could acquire what it waits for. It is marked as told.
    pub told: Option<u16>,
    /// The holds of all seats, free permits and count.
    pub balance: Balance,
}

/// What is known of an entry.
#[derive(Drop)]
pub struct Explanation {
    /// What each step of its seat makes.
    pub ways: Vec<Way>,
    /// Whom it names, if it is legal.
    pub naming: Naming,
}

/// Returns what a state comes to.
pub fn standing_of(alloc: Global, base: &Base) -> Result<Standing, Fault>
    requires range { IsInRange base.now.header }
    requires good { IsGood base.now }
    ensures told { IfOk result (λ x. x.told ≡ ready (based base.now) []) }
    ensures balance { IfOk result (λ x. x.balance ≡ balance (based base.now) []) }
    ensures memory { IsOkUnless result Fault.OutOfMemory }
{
    let ledger = Ledger::open_on(alloc, base)?;
    Ok(Standing {
        told: ready(&ledger),
        balance: balance_of(&ledger),
    })
}

/// Explains an entry of one of the seats, after a state. If an allocation fails, returns `OutOfMemory`.
pub fn explain(alloc: Global, base: &Base, entry: Entry) -> Result<Explanation, Fault>
    requires range { IsInRange base.now.header }
    requires good { IsGood base.now }
    requires seat { entry.seat < base.now.header.seats }
    ensures ways { IfOk result (λ x. x.ways.items ≡ ways_of (based base.now) [] entry) }
    ensures naming { IfOk result (λ x.
        IsNext (based base.now) [] entry → x.naming ≡ naming_of (based base.now) [] entry) }
    ensures memory { IsOkUnless result Fault.OutOfMemory }
{
    let mut ledger = Ledger::open_on(alloc, base)?;
    let before = ready(&ledger);
    let ways = ways_of(alloc, &ledger, entry)?;
    ledger.note(entry);
    let naming = naming_of(&ledger, before, entry.seat);
    Ok(Explanation { ways, naming })
}
