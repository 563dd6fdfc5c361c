//! The state before an entry: the entries before it, folded.

ghost use Rattle.std.specs.Prelude.{◌≡◌, ◌≤◌, ◌++◌, [], List, IfOk, IfSome, IsOkUnless, OnOk, is_some, length, reverse};
ghost use Rattle.explaining.specs.Below.{MOST_FOLDED, folded, Entry, IsInRange, CanFold};
ghost use Rattle.explaining.specs.State.{few_permits, fits_fold, is_modest_of};

use history::base::{Base, SeatBase};
use history::entries::History;
use history::entry::Entry;
use history::fault::Fault;
use history::header::Object;
use history::limits::{MOST_AMOUNT, MOST_FOLDED};

/// Returns whether each seat holds at most this many permits.
fn few_permits(seats: &[SeatBase], most: u128) -> bool
    ensures { result ≡ few_permits most seats.now }
{
    seats.iter().all(|has| has.shared <= most)
}

/// Returns whether the base's permits are at most what its entries can have moved.
fn is_modest(base: &Base) -> bool
    requires { base.now.entries ≤ MOST_FOLDED }
    ensures { result ≡ is_modest_of base.now.header.object base.now }
{
    let most = u128::from(MOST_AMOUNT) * base.entries;
    match base.header.object {
        Object::Semaphore(_, _) => base.unheld <= most && few_permits(&base.seats, most),
        Object::Lock(_) | Object::ReadWrite(_) | Object::Latch(_) => true,
    }
}

/// Returns whether this many entries can be folded into a base.
fn fits_fold(base: &Base, count: u64) -> bool
    requires { base.now.entries ≤ MOST_FOLDED }
    ensures { result ≡ fits_fold base.now count }
{
    is_modest(base) && base.entries + u128::from(count) <= MOST_FOLDED
}

/// Appends entries to a history that has none yet.
fn fill(history: &mut History, entries: &[Entry]) -> Result<(), Fault>
    requires few { length entries.now ≤ history.old.cap }
    requires empty { history.old.entries ≡ [] }
    requires owed { history.old.owed ≡ 0 }
    ensures base { history.new.base ≡ history.old.base }
    ensures filled { OnOk result (history.new.entries ≡ reverse entries.now) }
    ensures memory { IsOkUnless result Fault.OutOfMemory }
{
    match history.make_room(entries.len() as u64) {
        Ok(()) => {}
        Err(_) => return Err(Fault::OutOfMemory),
    }
    for entry in entries {
        history.add(*entry, 0);
    }
    Ok(())
}

/// Returns the state after these entries, the oldest first, on a base: the fold of all of them. Returns `None` if
/// they can't be folded: the base's permits are more than its entries can have moved, or more than `MOST_FOLDED`
/// entries would be folded.
pub fn state_before(base: Base, entries: &[Entry]) -> Result<Option<Base>, Fault>
    requires range { IsInRange base.header }
    requires can { CanFold base (reverse entries.now) }
    requires few { length entries.now ≤ base.header.cap }
    ensures state { IfOk result (λ state. IfSome state (λ after. after ≡ folded base (reverse entries.now))) }

    // What can follow them can follow the state.
    ensures goes_on { IfOk result (λ state. IfSome state (λ after. (h : List Entry) →
        CanFold base (h ++ reverse entries.now) → CanFold after h)) }
    ensures some { IfOk result (λ state. is_some state ≡ fits_fold base (length entries.now)) }
    ensures memory { IsOkUnless result Fault.OutOfMemory }
{
    if !fits_fold(&base, entries.len() as u64) {
        return Ok(None);
    }
    let mut history = History::open_on(base.header.cap, base);
    fill(&mut history, entries)?;
    match history.fold() {
        Ok(_) => Ok(Some(history.take_base())),
        Err(_) => unreachable!(),
    }
}
