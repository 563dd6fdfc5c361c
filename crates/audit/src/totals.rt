//! The totals of a legal history.

ghost use Rattle.std.specs.Prelude.{◌≡◌, IfOk, IsOkUnless};
ghost use Rattle.audit.specs.Below.{IsBasedWell, start_on, IsInRange, AreSeated, IsLegal};
ghost use Rattle.audit.specs.Totals.{totals_of};

use crate::sums::Totals;
use crate::verdict::{Judgement, judge};
use history::entries::History;
use history::fault::Fault;
use history::header::Header;
use std::alloc::Global;

/// Returns the totals of a history that [`check`](crate::verdict::check) found legal.
///
/// If an allocation fails, returns `OutOfMemory`.
pub fn totals(alloc: Global, header: &Header, history: &History) -> Result<Totals, Fault>
    requires range { IsInRange header.now }
    requires based { IsBasedWell header.now history.now.base }
    requires seated { AreSeated (start_on header.now history.now) history.now.entries }
    requires legal { IsLegal (start_on header.now history.now) history.now.entries }
    ensures are { IfOk result (λ t. t ≡ totals_of (start_on header.now history.now) history.now.entries) }
    ensures memory { IsOkUnless result Fault.OutOfMemory }
{
    match judge(alloc, header, history) {
        Ok(Judgement::Legal(totals)) => Ok(totals),
        Ok(Judgement::NotLegal(_)) => unreachable!(),
        Err(fault) => Err(fault),
    }
}
