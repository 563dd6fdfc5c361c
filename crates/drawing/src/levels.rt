//! The level of a seat and a kind.

ghost use Rattle.std.specs.Prelude.{◌≡◌, List};
ghost use Rattle.drawing.specs.Below.{LedgerStand, HasSeat, has, sleepers, Start, Entry};
ghost use Rattle.drawing.specs.Levels.{level};

use crate::kind::Kind;
use audit::ledger::Ledger;
use deciding::situation::ObjectState;
use history::entry::Mode;

/// Returns the level of a seat and a kind: how many holds the seat has, or 1 if it waits and 0 if not.
pub(crate) fn level(ledger: &Ledger, seat: u16, kind: Kind) -> u128
    requires { HasSeat LedgerStand ledger.now seat }
    ensures { (s : Start) (h : List Entry) → LedgerStand s h ledger.now → result ≡ level s h seat kind }
{
    match kind {
        Kind::Exclusive => ledger.held(seat, Mode::X),
        Kind::Shared => ledger.held(seat, Mode::S),
        Kind::InLine => u128::from(ledger.place_of(seat).is_some()),
        Kind::Asleep(condition) => u128::from(sleeps_on(ledger, seat, condition)),
    }
}

/// Returns whether a seat waits on a condition.
fn sleeps_on(ledger: &Ledger, seat: u16, condition: u8) -> bool
    requires { HasSeat LedgerStand ledger.now seat }
    ensures { (s : Start) (h : List Entry) → LedgerStand s h ledger.now →
        result ≡ has seat (sleepers s h condition) }
{
    ledger.sleeps(seat) && ledger.last_sleep(seat).condition == condition
}
