//! Running a lock on, and printing its history in parts.

ghost use Rattle.std.specs.Prelude.{◌≡◌, [], ◌+◌, ◌<◌, ◌≤◌, length, All, OnOk};
ghost use Rattle.std.specs.Io.KnownBytes.{Appends};
ghost use Rattle.example_guards.specs.Parts.{Plays, Prints, made};
ghost use Rattle.frame.specs.Core.{header_of, trimmed};
ghost use Rattle.history.specs.declared.header.Object.TheVariants.{Lock};
ghost use Rattle.history.specs.declared.header.Policy.TheVariants.{Fair};
ghost use Rattle.history.specs.Base.{opening_base};
ghost use Rattle.history.specs.Point.{CanFold};
ghost use Rattle.history_text.specs.Pieces.{history_text};

use crate::history_in_parts::failure::Failure;
use frame::machine::Core;
use frame::{Answer, Step};
use history::entry::Mode;
use history::header::Policy;
use history_text::fitting::fits;
use history_text::history_text::write_text;
use reentrant::lock::LockHooks;
use std::alloc::Global;
use std::io::Write;

/// The places that a part has besides its entries: more than a hold and a queued acquire owe.
const MORE: u64 = 8;

const SEATS: u16 = 2;

const ROUND: [(u16, Step); 5] = [
    (0, Step::Acquire(Mode::X, 1)),
    (1, Step::Acquire(Mode::X, 1)),
    (0, Step::Give(Mode::X, 1)),
    (1, Step::Look),
    (1, Step::Give(Mode::X, 1)),
];

/// Plays `rounds` rounds, and prints them in parts of `entries` entries.
pub fn play<W: Write>(alloc: Global, rounds: u64, entries: u64, out: &mut W) -> Result<(), Failure>
    requires some { 8 ≤ entries }
    requires few { entries ≤ 4000000000 }
    ensures { OnOk result
        (Plays (header_of (Lock Fair) 2 0 (entries + 8)) rounds
        (W.contents out.old) (W.contents out.new)) }
{
    let cap = (entries + MORE) as u32;
    let mut core = Core::open(alloc, LockHooks::open(Policy::Fair), SEATS, 0, cap)?;
    play_rounds(alloc, &mut core, rounds, entries, out)
}

/// Plays `rounds` rounds on a new core, and prints them in parts of `entries` entries.
fn play_rounds<W: Write>(
    alloc: Global,
    core: &mut Core<LockHooks>,
    rounds: u64,
    entries: u64,
    out: &mut W,
) -> Result<(), Failure>
    requires header { core.old.header ≡ header_of (Lock Fair) 2 0 (entries + 8) }
    requires base { core.old.base ≡ opening_base core.old.header }
    requires empty { core.old.entries ≡ [] }
    ensures { OnOk result
        (Plays (header_of (Lock Fair) 2 0 (entries + 8)) rounds
        (W.contents out.old) (W.contents out.new)) }
{
    for _ in 0..rounds {
        play_round(alloc, core, entries, out, &ROUND)?;
    }
    print_part(alloc, core, out)?;
    Ok(())
}

/// Makes the steps of a round, each of which makes an entry.
fn play_round<W: Write>(
    alloc: Global,
    core: &mut Core<LockHooks>,
    entries: u64,
    out: &mut W,
    round: &[(u16, Step)],
) -> Result<(), Failure>
    requires seats { All (λ step. step.0 < core.old.header.seats) round.now }
    ensures header { core.new.header ≡ core.old.header }
    ensures made { OnOk result (made core.new ≡ made core.old + length round.now) }
    ensures printed { OnOk result
        (Prints core.old.base (W.contents out.old) core.new.base (W.contents out.new)) }
{
    for (seat, step) in round {
        play_step(alloc, core, entries, out, *seat, *step)?;
    }
    Ok(())
}

/// Makes a step, which makes an entry. If the part then has `entries` entries, it ends.
fn play_step<W: Write>(
    alloc: Global,
    core: &mut Core<LockHooks>,
    entries: u64,
    out: &mut W,
    seat: u16,
    step: Step,
) -> Result<(), Failure>
    requires seats { seat < core.old.header.seats }
    ensures header { core.new.header ≡ core.old.header }
    ensures made { OnOk result (made core.new ≡ made core.old + 1) }
    ensures few { 0 < entries → OnOk result (length core.new.entries < entries) }
    ensures printed { OnOk result
        (Prints core.old.base (W.contents out.old) core.new.base (W.contents out.new)) }
{
    match core.step(seat, step)? {
        Answer::Sleep => return Err(Failure::NoTurn),
        Answer::Recorded(_, _) => {}
    }
    if core.history().len() < entries {
        return Ok(());
    }
    print_part(alloc, core, out)?;
    Ok(())
}

/// Prints the history, and folds it.
fn print_part<W: Write>(
    alloc: Global,
    core: &mut Core<LockHooks>,
    out: &mut W,
) -> Result<(), Failure>
    ensures header { core.new.header ≡ core.old.header }
    ensures legal { CanFold core.old.base core.old.entries }
    ensures folded { OnOk result (core.new ≡ trimmed core.old) }
    ensures printed { OnOk result (Appends (W.contents out.old) (W.contents out.new)
        (history_text core.old.base core.old.entries)) }
{
    core.recall_lawful();
    let header = *core.header();
    if !fits(&header, core.history()) {
        return Err(Failure::NoText);
    }
    let text = write_text(alloc, &header, core.history())?;
    out.write_all(&text)?;
    core.trim()?;
    Ok(())
}
