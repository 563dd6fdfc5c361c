//! Which acquires pass a waiter.

ghost use Rattle.std.specs.Prelude.{◌≡◌, ◌<◌, ◌^◌, ◌∷◌, List, is_some};
ghost use Rattle.drawing.specs.Below.{LedgerStand, Start, Entry, begun};
ghost use Rattle.drawing.specs.Barging.{askers, barges};
ghost use Rattle.drawing.specs.inner.Barging.{IsCounted, others};

use audit::ledger::Ledger;
use deciding::situation::ObjectState;
use history::entry::Entry;
use summing::passing::takes_anew;
use summing::words::is_queued;

/// Returns whether a seat waits in the queue for a first acquire. One that comes back from a condition
/// doesn't.
fn asks(ledger: &Ledger, seat: u16) -> bool
    ensures { (s : Start) (h : List Entry) → LedgerStand s h ledger.now → result ≡ is_some (begun s h seat) }
{
    match ledger.place_of(seat) {
        Some(arrival) => !arrival.back,
        None => false,
    }
}

/// Returns how many seats wait so.
pub(crate) fn askers(ledger: &Ledger) -> u64
    ensures { (s : Start) (h : List Entry) → LedgerStand s h ledger.now → result ≡ askers s h s.header.seats }
{
    let mut count = 0;
    for seat in 0..ledger.header().seats {
        count += u64::from(asks(ledger, seat));
    }
    count
}

/// Returns how many wait so beside one seat, if `count` do in all.
fn askers_beside(ledger: &Ledger, count: u64, seat: u16) -> u64
    requires { IsCounted ledger.now count seat }
    ensures is { (s : Start) (h : List Entry) → LedgerStand s h ledger.now →
        count ≡ askers s h s.header.seats → seat < s.header.seats → result ≡ others s h seat s.header.seats }
    ensures few { result < 2 ^ 63 }
{
    count - u64::from(asks(ledger, seat))
}

/// Returns how many wait so after an entry, if `count` do before it. The ledger is the one before it.
pub(crate) fn askers_after(ledger: &Ledger, count: u64, entry: Entry) -> u64
    requires { IsCounted ledger.now count entry.seat }
    ensures { (s : Start) (h : List Entry) → LedgerStand s h ledger.now → count ≡ askers s h s.header.seats →
        entry.seat < s.header.seats → result ≡ askers s (entry ∷ h) s.header.seats }
{
    askers_beside(ledger, count, entry.seat) + u64::from(is_queued(entry.word))
}

/// Returns whether an entry acquires at once while another seat waits so. The ledger is the one before it. A
/// lock that is acquired again passes nobody.
pub(crate) fn barges(ledger: &Ledger, count: u64, entry: Entry) -> bool
    requires { IsCounted ledger.now count entry.seat }
    ensures { (s : Start) (h : List Entry) → LedgerStand s h ledger.now → count ≡ askers s h s.header.seats →
        entry.seat < s.header.seats → result ≡ barges s entry h }
{
    takes_anew(ledger, entry) && askers_beside(ledger, count, entry.seat) > 0
}
