//! The stretches of all seats and kinds.

ghost use Rattle.std.specs.Prelude.{◌≡◌, ◌<◌, ℕ, ◌++◌, ◌∷◌, [], List, IfOk, OnOk, false, length, map};
ghost use Rattle.std.specs.List.{All, flat_map};
ghost use Rattle.drawing.specs.Below.{LedgerStand, HasSeat, Start, Entry, is_signal};
ghost use Rattle.drawing.specs.Bars.{bar_at};
ghost use Rattle.drawing.specs.Levels.{level, track, tracks, tracks_of_seat};
ghost use Rattle.drawing.specs.declared.kind.Kind.{Kind};
ghost use Rattle.drawing.specs.Stretches.{AreStretches, fresh};
ghost use Rattle.drawing.specs.inner.Stretches.{CanGoOn, GoesOn, bar_of, ending, going_on};

use crate::bar::{Bar, Stretch, put_bar};
use crate::kind::Kind;
use crate::levels::level;
use audit::ledger::Ledger;
use deciding::situation::ObjectState;
use history::entry::Entry;
use history::header::Header;
use std::alloc::{AllocError, Global};
use summing::words::is_signal;

/// Returns the stretches of a seat as they begin, by kinds.
fn begin_seat(
    alloc: Global,
    seat: u16,
    conditions: u8,
    from: u64,
) -> Result<Vec<Stretch>, AllocError>
    ensures { IfOk result (λ stretches. stretches.items ≡ map (fresh from) (tracks_of_seat conditions seat)) }
{
    let mut stretches = Vec::new(alloc);
    begin(&mut stretches, seat, Kind::Exclusive, from)?;
    begin(&mut stretches, seat, Kind::Shared, from)?;
    begin(&mut stretches, seat, Kind::InLine, from)?;
    for condition in 0..conditions {
        begin(&mut stretches, seat, Kind::Asleep(condition), from)?;
    }
    Ok(stretches)
}

/// Adds a new stretch.
fn begin(stretches: &mut Vec<Stretch>, seat: u16, kind: Kind, from: u64) -> Result<(), AllocError>
    ensures { OnOk result (stretches.new.items ≡ stretches.old.items ++ fresh from (track seat kind) ∷ []) }
{
    stretches.push(Stretch {
        seat,
        kind,
        first: from,
        holds: 0,
    })?;
    Ok(())
}

/// Continues a stretch after the entry of a number, and adds its bar if the entry ends it.
fn go_on(
    stretch: &mut Stretch,
    bars: &mut Vec<Bar>,
    ledger: &Ledger,
    number: u64,
) -> Result<(), AllocError>
    requires { HasSeat LedgerStand ledger.now stretch.old.seat }
    ensures stretch { OnOk result ((s : Start) (h : List Entry) → LedgerStand s h ledger.now →
        stretch.new ≡ going_on s h number stretch.old) }
    ensures bars { OnOk result ((s : Start) (h : List Entry) → LedgerStand s h ledger.now →
        bars.new.items ≡ bars.old.items ++ ending s h number stretch.old) }
{
    let level = level(ledger, stretch.seat, stretch.kind);
    if level != stretch.holds {
        put_bar(bars, *stretch, number)?;
        stretch.first = number;
        stretch.holds = level;
    }
    Ok(())
}

/// Continues the stretches of a seat after the entry of a number, and adds the bars of those that it ends.
fn go_on_seat(
    stretches: &mut Vec<Stretch>,
    bars: &mut Vec<Bar>,
    ledger: &Ledger,
    number: u64,
) -> Result<(), AllocError>
    requires { All (λ x. HasSeat LedgerStand ledger.now x.seat) stretches.old.items }
    ensures stretches { OnOk result ((s : Start) (h : List Entry) → LedgerStand s h ledger.now →
        stretches.new.items ≡ map (going_on s h number) stretches.old.items) }
    ensures bars { OnOk result ((s : Start) (h : List Entry) → LedgerStand s h ledger.now →
        bars.new.items ≡ bars.old.items ++ flat_map (ending s h number) stretches.old.items) }
{
    for place in 0..stretches.len() {
        go_on(&mut stretches[place], bars, ledger, number)?;
    }
    Ok(())
}

/// Returns the stretches of all seats as they begin.
pub(crate) fn begin_all(
    alloc: Global,
    header: Header,
    from: u64,
) -> Result<Vec<Vec<Stretch>>, AllocError>
    ensures { IfOk result (λ stretches. (s : Start) → s.header ≡ header →
        AreStretches s from [] (map (λ list. list.items) stretches.items)) }
{
    let mut stretches = Vec::new(alloc);
    for seat in 0..header.seats {
        stretches.push(begin_seat(alloc, seat, header.conditions, from)?)?;
    }
    Ok(stretches)
}

/// Continues all stretches after the entry of a number, and adds the bars of those that it ends. The ledger
/// is the one after the entry.
pub(crate) fn go_on_drawn(
    stretches: &mut Vec<Vec<Stretch>>,
    bars: &mut Vec<Bar>,
    ledger: &Ledger,
    entry: Entry,
    number: u64,
    from: u64,
) -> Result<(), AllocError>
    requires { CanGoOn from entry number ledger.now (map (λ list. list.items) stretches.old.items) }
    ensures { OnOk result ((s : Start) (h : List Entry) → LedgerStand s (entry ∷ h) ledger.now →
        number ≡ length h → AreStretches s from h (map (λ list. list.items) stretches.old.items) →
        GoesOn s from entry h (map (λ list. list.items) stretches.new.items) bars.old.items bars.new.items) }
{
    if changes_others(entry, number, from) {
        go_on_all(stretches, bars, ledger, entry, number, from)
    } else {
        go_on_seat(&mut stretches[entry.seat as usize], bars, ledger, number)
    }
}

/// Returns whether an entry can change the stretches of other seats than its own: a signal moves waiters, and
/// at the first entry that is drawn all stretches begin.
fn changes_others(entry: Entry, number: u64, from: u64) -> bool
    ensures drawn { result ≡ false → from < number }
    ensures word { result ≡ false → is_signal entry.word ≡ false }
{
    number <= from || is_signal(entry.word)
}

/// Continues the stretches of all seats that an entry can change, in their order.
fn go_on_all(
    stretches: &mut Vec<Vec<Stretch>>,
    bars: &mut Vec<Bar>,
    ledger: &Ledger,
    entry: Entry,
    number: u64,
    from: u64,
) -> Result<(), AllocError>
    requires { CanGoOn from entry number ledger.now (map (λ list. list.items) stretches.old.items) }
    ensures { OnOk result ((s : Start) (h : List Entry) → LedgerStand s (entry ∷ h) ledger.now →
        number ≡ length h → AreStretches s from h (map (λ list. list.items) stretches.old.items) →
        GoesOn s from entry h (map (λ list. list.items) stretches.new.items) bars.old.items bars.new.items) }
{
    for seat in 0..ledger.header().seats {
        if number <= from || can_change(ledger, entry, seat) {
            go_on_seat(&mut stretches[seat as usize], bars, ledger, number)?;
        }
    }
    Ok(())
}

/// Returns whether an entry can have changed what a seat holds or where it waits: its own seat, or one that a
/// signal moved to the queue. The ledger is the one after the entry.
fn can_change(ledger: &Ledger, entry: Entry, seat: u16) -> bool
    ensures { (s : Start) (h : List Entry) → LedgerStand s (entry ∷ h) ledger.now → result ≡ false →
        (kind : Kind) → level s (entry ∷ h) seat kind ≡ level s h seat kind }
{
    entry.seat == seat || (is_signal(entry.word) && ledger.place_of(seat).is_some())
}

/// Adds the bars of all stretches. They end before the entry of a number.
pub(crate) fn end_all(
    stretches: &[Vec<Stretch>],
    bars: &mut Vec<Bar>,
    number: u64,
) -> Result<(), AllocError>
    ensures { OnOk result ((s : Start) (from : ℕ) (h : List Entry) → number ≡ length h →
        AreStretches s from h (map (λ list. list.items) stretches.now) →
        bars.new.items ≡ bars.old.items ++ flat_map (bar_at s from h) (tracks s.header)) }
{
    for of_seat in stretches {
        end_seat(of_seat, bars, number)?;
    }
    Ok(())
}

/// Adds the bars of a seat's stretches.
fn end_seat(stretches: &[Stretch], bars: &mut Vec<Bar>, number: u64) -> Result<(), AllocError>
    ensures { OnOk result (bars.new.items ≡ bars.old.items ++ flat_map (bar_of number) stretches.now) }
{
    for stretch in stretches {
        put_bar(bars, *stretch, number)?;
    }
    Ok(())
}
