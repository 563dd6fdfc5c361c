//! Writing the lines of a base.

ghost use Rattle.std.specs.Prelude.{◌≡◌, ◌∷◌, ◌++◌, ◌<◌, ◌≤◌, ◌^◌, [], OnErr, OnOk, length, map, take};
ghost use Rattle.std.specs.List.{AllByRecursion};
ghost use Rattle.history.specs.declared.limits.TheConstants.{MOST_CONDITIONS};
ghost use Rattle.history_text.specs.BaseLineLimits.{IsBaseLine};
ghost use Rattle.history_text.specs.BaseLines.{base_lines, first_line, seat_lines, sleeper_lines};
ghost use Rattle.history_text.specs.BaseText.{calls_sum};
ghost use Rattle.history_text.specs.Pieces.{lines_text};
ghost use Rattle.history_text.specs.declared.base_line.BaseLine.TheVariants.{Stands, Sleeps};

use crate::base_line::{BaseLine, put_base_line};
use history::base::{Base, LinePlace, SeatBase, Sleeper};
use history::header::Object;
use std::alloc::AllocError;

/// Appends the lines of a base. On an error only the first bytes may have been appended.
pub(crate) fn put_base(out: &mut Vec<u8>, base: &Base) -> Result<(), AllocError>
    requires conditions { length base.now.sleepers ≤ MOST_CONDITIONS }
    requires each { AllByRecursion IsBaseLine (base_lines base.now) }
    ensures ok { OnOk result (out.new.items ≡ out.old.items ++ lines_text (base_lines base.now)) }
    ensures err { OnErr result (take (length out.old.items) out.new.items ≡ out.old.items) }
{
    put_line(out, &first_line(base))?;
    put_seats(out, &base.seats)?;
    put_standings(out, &base.line)?;
    put_sleepers(out, &base.sleepers)
}

/// Returns the first line: how many entries were folded, and what else the object counts.
pub(crate) fn first_line(base: &Base) -> BaseLine
    ensures { result ≡ first_line base.now.header.object base.now }
{
    match base.header.object {
        Object::Lock(_) | Object::ReadWrite(_) => BaseLine::Folded(base.entries),
        Object::Semaphore(_, _) => BaseLine::Released(base.entries, base.unheld),
        Object::Latch(_) => BaseLine::CountedDown(base.entries, base.count),
    }
}

/// Appends a line and its break.
fn put_line(out: &mut Vec<u8>, line: &BaseLine) -> Result<(), AllocError>
    requires { IsBaseLine line.now }
    ensures ok { OnOk result (out.new.items ≡ out.old.items ++ lines_text (line.now ∷ [])) }
    ensures err { OnErr result (take (length out.old.items) out.new.items ≡ out.old.items) }
{
    put_base_line(out, line)?;
    out.push(b'\n')?;
    Ok(())
}

fn put_seats(out: &mut Vec<u8>, seats: &[SeatBase]) -> Result<(), AllocError>
    requires { AllByRecursion IsBaseLine (seat_lines 0 seats.now) }
    ensures ok { OnOk result (out.new.items ≡ out.old.items ++ lines_text (seat_lines 0 seats.now)) }
    ensures err { OnErr result (take (length out.old.items) out.new.items ≡ out.old.items) }
{
    for (seat, has) in seats.iter().enumerate() {
        put_line(out, &BaseLine::Seat(seat as u16, *has))?;
    }
    Ok(())
}

fn put_standings(out: &mut Vec<u8>, line: &[LinePlace]) -> Result<(), AllocError>
    requires { AllByRecursion IsBaseLine (map Stands line.now) }
    ensures ok { OnOk result (out.new.items ≡ out.old.items ++ lines_text (map Stands line.now)) }
    ensures err { OnErr result (take (length out.old.items) out.new.items ≡ out.old.items) }
{
    for standing in line {
        put_line(out, &BaseLine::Stands(*standing))?;
    }
    Ok(())
}

fn put_sleepers(out: &mut Vec<u8>, lists: &[Vec<Sleeper>]) -> Result<(), AllocError>
    requires few { length lists.now ≤ MOST_CONDITIONS }
    requires each { AllByRecursion IsBaseLine (sleeper_lines 0 (map (λ list. list.items) lists.now)) }
    ensures ok { OnOk result (out.new.items
        ≡ out.old.items ++ lines_text (sleeper_lines 0 (map (λ list. list.items) lists.now))) }
    ensures err { OnErr result (take (length out.old.items) out.new.items ≡ out.old.items) }
{
    for (condition, list) in lists.iter().enumerate() {
        put_asleep(out, condition as u8, list)?;
    }
    Ok(())
}

fn put_asleep(out: &mut Vec<u8>, condition: u8, list: &[Sleeper]) -> Result<(), AllocError>
    requires { AllByRecursion IsBaseLine (map (Sleeps condition) list.now) }
    ensures ok { OnOk result (out.new.items ≡ out.old.items ++ lines_text (map (Sleeps condition) list.now)) }
    ensures err { OnErr result (take (length out.old.items) out.new.items ≡ out.old.items) }
{
    for sleeper in list {
        put_line(out, &BaseLine::Sleeps(condition, *sleeper))?;
    }
    Ok(())
}

/// Returns the number of calls that all seats ended.
pub(crate) fn calls_of(seats: &[SeatBase]) -> u64
    requires { calls_sum seats.now < 2 ^ 64 }
    ensures { result ≡ calls_sum seats.now }
{
    let mut calls = 0;
    for has in seats {
        calls += has.calls;
    }
    calls
}
