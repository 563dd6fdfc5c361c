//! The number whose curve is drawn.

ghost use Rattle.std.specs.Prelude.{◌≡◌, ◌++◌, List, OnOk};
ghost use Rattle.drawing.specs.Below.{LedgerStand, HasHistory, Start, Entry};
ghost use Rattle.drawing.specs.Curve.{amount_of, point};

use audit::ledger::Ledger;
use deciding::situation::ObjectState;
use history::header::Object;
use std::alloc::AllocError;

/// Adds the number whose curve is drawn, if the object has one.
pub(crate) fn put_point(ledger: &Ledger, curve: &mut Vec<i128>) -> Result<(), AllocError>
    requires { HasHistory LedgerStand ledger.now }
    ensures { OnOk result ((s : Start) (h : List Entry) → LedgerStand s h ledger.now →
        curve.new.items ≡ curve.old.items ++ point (amount_of s.header.object s h)) }
{
    match ledger.header().object {
        Object::Lock(_) | Object::ReadWrite(_) => {}
        Object::Semaphore(_, _) => curve.push(i128::from(ledger.free()))?,
        Object::Latch(_) => curve.push(i128::from(ledger.latch_count()))?,
    }
    Ok(())
}
