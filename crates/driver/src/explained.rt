//! What explains an entry of a history.

ghost use Rattle.std.specs.Prelude.{◌≡◌, ◌<◌, [], IfSome, take};
ghost use Rattle.std.specs.List.{slice_get};
ghost use Rattle.history.specs.GoodBase.{IsGood};
ghost use Rattle.history.specs.Header.{IsInRange};
ghost use Rattle.driver.specs.inner.Judged.{CanExplain, IsSound};
ghost use Rattle.driver.specs.inner.Telling.{kept_for, place_before};

use crate::drawn::legal_front;
use crate::judged::Judged;
use crate::notation::Notation;
use explaining::document::{explained_text, unfolded_text};
use explaining::explanation::{explain, standing_of};
use explaining::found::{Found, Told};
use explaining::json::{explained_json, unfolded_json};
use explaining::naming::Naming;
use explaining::state::state_before;
use history::base::Base;
use history::entry::Entry;
use std::alloc::{AllocError, Global};

/// Returns how many entries are kept to explain the entry of a number, if `folded` entries were folded.
pub(crate) fn kept_for(at: Option<u64>, folded: u64) -> u64
    ensures { result ≡ kept_for at folded }
{
    match at {
        Some(number) => number.saturating_sub(folded).saturating_add(1),
        None => u64::MAX,
    }
}

/// Returns how many entries precede the one that is explained.
fn place_before(at: Option<u64>, folded: u64, front: u64) -> u64
    ensures { result ≡ place_before at folded front }
{
    match at {
        Some(number) => number.saturating_sub(folded).min(front),
        None => front,
    }
}

/// Returns the first entries, or all if there are no more.
pub(crate) fn front(entries: &[Entry], count: u64) -> &[Entry]
    ensures { result.now ≡ take count entries.now }
{
    if (entries.len() as u64) < count {
        entries
    } else {
        &entries[..count as usize]
    }
}

/// Returns the entry after this many others, if there is one.
pub(crate) fn entry_at(entries: &[Entry], place: u64) -> Option<Entry>
    ensures { result ≡ slice_get entries.now place }
{
    entries.get(place as usize).copied()
}

/// Returns what explains the entry of the number `at`, or of the first illegal entry before it.
pub(crate) fn explained(
    alloc: Global,
    at: Option<u64>,
    notation: Notation,
    judged: Judged,
) -> Result<Vec<u8>, AllocError>
    requires { IsSound judged }
{
    let wrong = judged.wrong();
    let folded = judged.folded();
    let verdict = judged.judgement.verdict();
    let Judged { base, entries, .. } = judged;
    let legal = legal_front(&entries, verdict);
    let place = place_before(at, folded, legal.len() as u64);
    let next = entry_at(&entries, place);
    explained_at(alloc, notation, base, front(legal, place), next, wrong)
}

/// Returns what explains the entry after these on a base, or the state there if there is none.
pub(crate) fn explained_at(
    alloc: Global,
    notation: Notation,
    base: Base,
    before: &[Entry],
    next: Option<Entry>,
    wrong: Option<u64>,
) -> Result<Vec<u8>, AllocError>
    requires { CanExplain base before.now next }
{
    match state_before(base, before) {
        Err(_) => Err(AllocError),
        Ok(None) => unfolded(alloc, notation, wrong),
        Ok(Some(state)) => explained_on(alloc, notation, &state, next, wrong),
    }
}

/// Returns what is told if the entries before can't be folded.
fn unfolded(alloc: Global, notation: Notation, wrong: Option<u64>) -> Result<Vec<u8>, AllocError> {
    match notation {
        Notation::Lines => unfolded_text(alloc, wrong),
        Notation::Json => unfolded_json(alloc, wrong),
    }
}

/// Returns what explains an entry after a state, or the state if there is no entry.
fn explained_on(
    alloc: Global,
    notation: Notation,
    state: &Base,
    next: Option<Entry>,
    wrong: Option<u64>,
) -> Result<Vec<u8>, AllocError>
    requires { CanExplain state.now [] next }
{
    let number = state.entries as u64;
    let found = found_after(alloc, state, next, wrong != Some(number))?;
    let Ok(standing) = standing_of(alloc, state) else {
        return Err(AllocError);
    };
    let told = Told {
        wrong,
        number,
        standing,
        found,
    };
    match notation {
        Notation::Lines => explained_text(alloc, state, &told),
        Notation::Json => explained_json(alloc, state, &told),
    }
}

/// Returns what is told of an entry after a state.
fn found_after(
    alloc: Global,
    state: &Base,
    next: Option<Entry>,
    is_legal: bool,
) -> Result<Option<Found>, AllocError>
    requires range { IsInRange state.now.header }
    requires good { IsGood state.now }
    requires seat { IfSome next (λ e. e.seat < state.now.header.seats) }
{
    let Some(entry) = next else {
        return Ok(None);
    };
    let Ok(explanation) = explain(alloc, state, entry) else {
        return Err(AllocError);
    };
    let naming = if is_legal {
        explanation.naming
    } else {
        Naming::NobodyWaits
    };
    Ok(Some(Found {
        entry,
        is_legal,
        ways: explanation.ways,
        naming,
    }))
}
