//! Callers of `audit`.

ghost use Rattle.std.specs.Prelude.{◌≡◌, ◌↔◌, IfOk, IfSome, IfNone, IsTrue, IsOkUnless};
ghost use Rattle.history.specs.Entries.{IsBasedWell, start_on};
ghost use Rattle.history.specs.Header.{IsInRange};
ghost use Rattle.history.specs.Legal.{AreSeated, IsLegal};
ghost use Rattle.audit.specs.Totals.{totals_of};

use audit::sums::Totals;
use audit::verdict::{Judgement, judge};
use history::entries::History;
use history::fault::Fault;
use history::header::Header;
use std::alloc::Global;

/// Returns the totals of a history, from its base on if it has one, or None if it isn't legal.
pub fn totals_if_legal(
    alloc: Global,
    header: &Header,
    history: &History,
) -> Result<Option<Totals>, Fault>
    requires range { IsInRange header.now }
    requires based { IsBasedWell header.now history.now.base }
    requires seated { AreSeated (start_on header.now history.now) history.now.entries }
    ensures legal { IfOk result (λ sums. IfSome sums (λ totals.
        IsLegal (start_on header.now history.now) history.now.entries
        × (totals ≡ totals_of (start_on header.now history.now) history.now.entries))) }
    ensures not_legal { IfOk result (λ sums. IfNone sums
        (IsLegal (start_on header.now history.now) history.now.entries → ⊥)) }
    ensures memory { IsOkUnless result Fault.OutOfMemory }
{
    match judge(alloc, header, history) {
        Ok(Judgement::Legal(totals)) => Ok(Some(totals)),
        Ok(Judgement::NotLegal(_)) => Ok(None),
        Err(fault) => Err(fault),
    }
}
