//! The fact of a state that decides against a step: who owns, who reads, what is free.

use crate::explanation::Standing;
use crate::way::Way;
use crate::why::Why;
use history::base::{Base, SeatBase};
use history::entry::{Entry, Mode, Word};
use history::fault::Fault;
use history::header::Object;
use std::alloc::{AllocError, Global};

/// Returns a number of things, by the word for one.
fn counted(alloc: Global, number: u128, one: &str) -> Result<String, AllocError> {
    if number == 1 {
        format!(in alloc; "1 {one}")
    } else {
        format!(in alloc; "{number} {one}s")
    }
}

/// Returns who owns.
fn owner_fact(alloc: Global, seats: &[SeatBase]) -> Result<String, AllocError> {
    for seat in 0..seats.len() {
        let holds = seats[seat].exclusive;
        if holds > 0 {
            let holds = counted(alloc, u128::from(holds), "hold")?;
            return format!(in alloc; "Seat {seat} owns it, with {holds}.");
        }
    }
    format!(in alloc; "Nobody owns it.")
}

/// Returns who reads. `holds` are the read holds of all seats.
fn readers_fact(alloc: Global, seats: &[SeatBase], holds: u128) -> Result<String, AllocError> {
    let holds = counted(alloc, holds, "hold")?;
    let mut first = None;
    let mut others: u128 = 0;
    for seat in 0..seats.len() {
        if seats[seat].shared > 0 {
            match first {
                None => first = Some(seat),
                Some(_) => others = others.saturating_add(1),
            }
        }
    }
    let Some(seat) = first else {
        return format!(in alloc; "Nobody reads.");
    };
    if others == 0 {
        return format!(in alloc; "Seat {seat} reads, with {holds}.");
    }
    let others = counted(alloc, others, "other seat")?;
    format!(in alloc; "Seat {seat} and {others} read, with {holds}.")
}

/// Returns how many permits are free, and how many a call was about, which it asked for or was to release.
fn free_fact(alloc: Global, free: i64, n: u32, about: &str) -> Result<String, AllocError> {
    let permits = if free == 1 {
        "permit is"
    } else {
        "permits are"
    };
    let were = if n == 1 { "was" } else { "were" };
    format!(in alloc; "{free} {permits} free, and {n} {were} {about}.")
}

/// Returns where in a condition's list a seat waits.
fn sleeper_fact(alloc: Global, base: &Base, seat: u16) -> Result<Option<String>, AllocError> {
    for condition in 0..base.header.conditions {
        let sleepers = base.sleepers_of(condition);
        let all = sleepers.len();
        for before in 0..all {
            if sleepers[before].seat == seat {
                let place = before + 1;
                let fact = format!(in alloc;
                    "It is sleeper {place} of {all} on condition {condition}."
                )?;
                return Ok(Some(fact));
            }
        }
    }
    Ok(None)
}

/// Returns what keeps a seat that nothing holds back from acquiring this amount.
fn amount_fact(
    alloc: Global,
    base: &Base,
    standing: &Standing,
    n: u32,
) -> Result<String, AllocError> {
    let balance = standing.balance;
    match base.header.object {
        Object::Lock(_) => owner_fact(alloc, &base.seats),
        Object::ReadWrite(_) => if balance.exclusive > 0 {
            owner_fact(alloc, &base.seats)
        } else {
            readers_fact(alloc, &base.seats, balance.shared)
        },
        Object::Semaphore(_, _) => free_fact(alloc, balance.available, n, "asked for"),
        Object::Latch(_) => {
            let count = balance.count;
            format!(in alloc; "The count is {count}.")
        }
    }
}

/// Returns what a refusal of a call in this mode is due to, if that is a fact of the state.
fn refusal_fact(
    alloc: Global,
    base: &Base,
    standing: &Standing,
    fault: Fault,
    refused: Entry,
) -> Result<Option<String>, AllocError> {
    let balance = standing.balance;
    match fault {
        Fault::NotOwner | Fault::TooManyHolds => match refused.mode {
            Mode::X => Ok(Some(owner_fact(alloc, &base.seats)?)),
            Mode::S => Ok(Some(readers_fact(alloc, &base.seats, balance.shared)?)),
        },
        Fault::HoldsRead => Ok(Some(readers_fact(alloc, &base.seats, balance.shared)?)),
        Fault::TooManyPermits => {
            let free = balance.available;
            Ok(Some(free_fact(alloc, free, refused.n, "to be released")?))
        }
        _ => Ok(None),
    }
}

/// Returns how much the head of the queue waits for.
fn head_amount(base: &Base) -> u32 {
    match base.line.first() {
        Some(place) => place.who.n,
        None => 0,
    }
}

/// Returns the fact of a state that keeps a seat's step from what it asks for, unless the rule names it.
pub(crate) fn fact_of(
    alloc: Global,
    base: &Base,
    standing: &Standing,
    seat: u16,
    way: &Way,
) -> Result<Option<String>, AllocError> {
    match (way.why, way.made) {
        (Why::CouldNot, Some(entry)) => Ok(Some(amount_fact(alloc, base, standing, entry.n)?)),
        (Why::Cannot, _) => Ok(Some(amount_fact(alloc, base, standing, head_amount(base))?)),
        (Why::Asleep, _) => sleeper_fact(alloc, base, seat),
        (Why::Plain, Some(entry)) => match entry.word {
            Word::Refused(fault) => refusal_fact(alloc, base, standing, fault, entry),
            _ => Ok(None),
        },
        _ => Ok(None),
    }
}
