//! The lines that explain an entry.

use crate::found::Told;
use crate::shown::{Names, Place, Shown, State, shown_of};
use history::base::Base;
use std::alloc::{AllocError, Global};
use std::fmt::Display;

/// Why nothing is explained of a history.
pub(crate) const UNFOLDED: &str = "The base has more permits than its entries can have moved, or \
    more entries than can be folded (What folded entries leave).";

/// Appends the verdict on the history.
fn put_verdict(out: &mut String, wrong: Option<u64>) -> Result<(), AllocError> {
    match wrong {
        None => write!(out, "legal\n"),
        Some(number) => write!(out, "not legal at {number}\n"),
    }
}

/// Appends the entry, or that there is none.
fn put_place(out: &mut String, place: &Place) -> Result<(), AllocError> {
    let number = place.number;
    match (place.seat, &place.entry) {
        (Some(seat), Some(entry)) => write!(out, "entry {number} {seat} {entry}\n"),
        _ => write!(out, "no entry {number}\n"),
    }
}

/// Appends a name and a number, if there is one.
fn put_amount<T: Display + Copy>(
    out: &mut String,
    name: &str,
    number: Option<T>,
) -> Result<(), AllocError> {
    match number {
        None => Ok(()),
        Some(number) => write!(out, "{name} {number}\n"),
    }
}

/// Appends the lines of a state.
fn put_state(out: &mut String, state: &State) -> Result<(), AllocError> {
    for holds in &state.holds {
        write!(out, "holds {} x {} s {}\n", holds.seat, holds.x, holds.s)?;
    }
    put_amount(out, "readers", state.readers)?;
    put_amount(out, "free", state.free)?;
    put_amount(out, "count", state.count)?;
    for waiter in &state.line {
        write!(out, "line {} {}\n", waiter.seat, waiter.entry)?;
    }
    for asleep in &state.sleepers {
        write!(
            out,
            "sleeper {} {} {}\n",
            asleep.condition, asleep.seat, asleep.holds
        )?;
    }
    put_amount(out, "told", state.told)
}

/// Appends the rule, and the fact of the state that decides. It ends the line.
fn put_rule(out: &mut String, rule: &String, since: &Option<String>) -> Result<(), AllocError> {
    match since {
        None => write!(out, "{rule}\n"),
        Some(fact) => write!(out, "{rule} {fact}\n"),
    }
}

/// Appends the lines of the steps that make the entry, or that could have been made.
fn put_ways(out: &mut String, shown: &Shown) -> Result<(), AllocError> {
    for by in &shown.by {
        write!(out, "by {}. ", by.step)?;
        put_rule(out, &by.rule, &by.since)?;
    }
    for could in &shown.could {
        match &could.entry {
            None => write!(out, "could {}: sleep. ", could.step)?,
            Some(entry) => write!(out, "could {}: {entry}. ", could.step)?,
        }
        put_rule(out, &could.rule, &could.since)?;
    }
    Ok(())
}

/// Appends whom the entry names, and why.
fn put_names(out: &mut String, names: &Names) -> Result<(), AllocError> {
    match names.seat {
        None => write!(out, "names nobody. {}\n", names.rule),
        Some(seat) => write!(out, "names {seat}. {}\n", names.rule),
    }
}

/// Returns the text about one place in a history. The base is the state there.
pub fn explained_text(alloc: Global, base: &Base, told: &Told) -> Result<Vec<u8>, AllocError> {
    let shown = shown_of(alloc, base, told)?;
    let mut out = String::new(alloc);
    put_verdict(&mut out, told.wrong)?;
    put_place(&mut out, &shown.explained)?;
    put_state(&mut out, &shown.state)?;
    put_ways(&mut out, &shown)?;
    if let Some(names) = &shown.names {
        put_names(&mut out, names)?;
    }
    Ok(out.into_bytes())
}

/// Returns the text about a history whose entries can't be folded.
pub fn unfolded_text(alloc: Global, wrong: Option<u64>) -> Result<Vec<u8>, AllocError> {
    let mut out = String::new(alloc);
    put_verdict(&mut out, wrong)?;
    write!(out, "not explained. {UNFOLDED}\n")?;
    Ok(out.into_bytes())
}
