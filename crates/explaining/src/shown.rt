//! What is shown of a place in a history. Its text and its JSON object are written of this.

use crate::explanation::Standing;
use crate::fact::fact_of;
use crate::found::{Found, Told};
use crate::naming::Naming;
use crate::sentence::rule_of;
use crate::way::Way;
use crate::words::{entry_words, step_words};
use history::arrival::Arrival;
use history::base::{Base, LinePlace};
use history::entry::{End, Entry, Word};
use history::header::Object;
use serde::Serialize;
use std::alloc::{AllocError, Global};

/// What a seat holds.
#[derive(Drop, Serialize)]
pub(crate) struct Holds {
    pub(crate) seat: usize,
    pub(crate) x: u32,
    pub(crate) s: u128,
}

/// A waiter in the queue, and the words for what it waits for.
#[derive(Drop, Serialize)]
pub(crate) struct Waiter {
    pub(crate) seat: u16,
    pub(crate) entry: String,
}

/// A waiter of a condition, and the holds that it gave up.
#[derive(Drop, Serialize)]
pub(crate) struct Asleep {
    pub(crate) condition: u8,
    pub(crate) seat: u16,
    pub(crate) holds: u32,
}

/// A state.
#[derive(Drop, Serialize)]
pub(crate) struct State {
    pub(crate) holds: Vec<Holds>,
    #[serde(skip_serializing_if = "Option::is_none")]
    pub(crate) readers: Option<u128>,
    #[serde(skip_serializing_if = "Option::is_none")]
    pub(crate) free: Option<i64>,
    #[serde(skip_serializing_if = "Option::is_none")]
    pub(crate) count: Option<u32>,
    pub(crate) line: Vec<Waiter>,
    pub(crate) sleepers: Vec<Asleep>,
    /// Who was told that it can go.
    pub(crate) told: Option<u16>,
}

/// The entry at the place, or the number of the next one after the last.
#[derive(Drop, Serialize)]
pub(crate) struct Place {
    pub(crate) number: u64,
    pub(crate) seat: Option<u16>,
    pub(crate) entry: Option<String>,
}

/// A step that makes the entry, with the rule, and the fact of the state that decides against it.
#[derive(Drop, Serialize)]
pub(crate) struct By {
    pub(crate) step: String,
    pub(crate) rule: String,
    #[serde(skip_serializing_if = "Option::is_none")]
    pub(crate) since: Option<String>,
}

/// A step that the seat could have made, as [`By`], with the entry that it makes, or none for sleep.
#[derive(Drop, Serialize)]
pub(crate) struct Could {
    pub(crate) step: String,
    pub(crate) entry: Option<String>,
    pub(crate) rule: String,
    #[serde(skip_serializing_if = "Option::is_none")]
    pub(crate) since: Option<String>,
}

/// Whom the entry names, and why.
#[derive(Drop, Serialize)]
pub(crate) struct Names {
    pub(crate) seat: Option<u16>,
    pub(crate) rule: String,
}

/// A place in a history.
#[derive(Drop, Serialize)]
pub(crate) struct Shown {
    pub(crate) verdict: &'static str,
    /// The number of the first illegal entry, if there is one.
    #[serde(skip_serializing_if = "Option::is_none")]
    pub(crate) entry: Option<u64>,
    pub(crate) explained: Place,
    pub(crate) state: State,
    pub(crate) by: Vec<By>,
    pub(crate) could: Vec<Could>,
    pub(crate) names: Option<Names>,
}

/// Returns the word for a verdict on a history.
pub(crate) fn verdict_word(wrong: Option<u64>) -> &'static str {
    match wrong {
        None => "legal",
        Some(_) => "not legal",
    }
}

/// Returns the seats that hold something.
fn holds_of(alloc: Global, base: &Base) -> Result<Vec<Holds>, AllocError> {
    let mut holds = Vec::new(alloc);
    for seat in 0..base.seats.len() {
        let has = base.seats[seat];
        if has.exclusive > 0 || has.shared > 0 {
            holds.push(Holds {
                seat,
                x: has.exclusive,
                s: has.shared,
            })?;
        }
    }
    Ok(holds)
}

/// Returns the words of a waiter in the queue, as a base's line has them.
fn waiter_words(alloc: Global, place: &LinePlace) -> Result<String, AllocError> {
    let Arrival {
        seat,
        mode,
        n,
        back,
    } = place.who;
    let entry = if back {
        Entry {
            seat,
            word: Word::Back,
            mode,
            n: place.holds,
            at: place.condition,
            end: place.how,
        }
    } else {
        Entry {
            seat,
            word: Word::Queued,
            mode,
            n,
            at: 0,
            end: End::None,
        }
    };
    entry_words(alloc, entry)
}

/// Returns the waiters in the queue, in its order.
fn line_of(alloc: Global, line: &[LinePlace]) -> Result<Vec<Waiter>, AllocError> {
    let mut waiters = Vec::new(alloc);
    for place in line {
        let entry = waiter_words(alloc, place)?;
        waiters.push(Waiter {
            seat: place.who.seat,
            entry,
        })?;
    }
    Ok(waiters)
}

/// Returns the waiters of all conditions, each condition's in their order.
fn sleepers_of(alloc: Global, base: &Base) -> Result<Vec<Asleep>, AllocError> {
    let mut asleep = Vec::new(alloc);
    for condition in 0..base.header.conditions {
        for sleeper in base.sleepers_of(condition) {
            asleep.push(Asleep {
                condition,
                seat: sleeper.seat,
                holds: sleeper.holds,
            })?;
        }
    }
    Ok(asleep)
}

/// Returns a state, with the readers, the free permits or the count by the object's kind.
fn state_of(alloc: Global, base: &Base, standing: &Standing) -> Result<State, AllocError> {
    let balance = standing.balance;
    let (readers, free, count) = match base.header.object {
        Object::Lock(_) => (None, None, None),
        Object::ReadWrite(_) => (Some(balance.shared), None, None),
        Object::Semaphore(_, _) => (None, Some(balance.available), None),
        Object::Latch(_) => (None, None, Some(balance.count)),
    };
    Ok(State {
        holds: holds_of(alloc, base)?,
        readers,
        free,
        count,
        line: line_of(alloc, &base.line)?,
        sleepers: sleepers_of(alloc, base)?,
        told: standing.told,
    })
}

/// Returns what is shown of a step that a seat could have made.
fn could_of(
    alloc: Global,
    base: &Base,
    standing: &Standing,
    seat: u16,
    way: &Way,
) -> Result<Could, AllocError> {
    let mut entry = None;
    if let Some(made) = way.made {
        entry = Some(entry_words(alloc, made)?);
    }
    Ok(Could {
        step: step_words(alloc, way.step)?,
        entry,
        rule: rule_of(alloc, base.header.object, seat, way)?,
        since: fact_of(alloc, base, standing, seat, way)?,
    })
}

/// Returns the steps that an entry's seat could have made.
fn others(
    alloc: Global,
    base: &Base,
    standing: &Standing,
    found: &Found,
) -> Result<Vec<Could>, AllocError> {
    let mut others = Vec::new(alloc);
    for way in &found.ways {
        others.push(could_of(alloc, base, standing, found.entry.seat, way)?)?;
    }
    Ok(others)
}

/// Returns the steps that make an entry.
fn makers(
    alloc: Global,
    base: &Base,
    standing: &Standing,
    found: &Found,
) -> Result<Vec<By>, AllocError> {
    let mut makers = Vec::new(alloc);
    for way in &found.ways {
        if way.is_it {
            let Could {
                step,
                entry: _,
                rule,
                since,
            } = could_of(alloc, base, standing, found.entry.seat, way)?;
            makers.push(By { step, rule, since })?;
        }
    }
    Ok(makers)
}

/// Returns whom an entry names, and why.
fn names_of(alloc: Global, naming: Naming) -> Result<Names, AllocError> {
    let (seat, rule) = match naming {
        Naming::NobodyWaits => (None, format!(in alloc; "Nobody is in the queue")?),
        Naming::CannotGo(first) => (None, not_named(alloc, first, "could not go")?),
        Naming::Own(first) => (None, not_named(alloc, first, "made the entry itself")?),
        Naming::CouldBefore(first) => (None, not_named(alloc, first, "could go before too")?),
        Naming::Named(first) => {
            let rule = format!(in alloc;
                "It is first in the queue, could not go before, and can now"
            )?;
            (Some(first), rule)
        }
    };
    let rule = format!(in alloc; "{rule} (Whom an entry names).")?;
    Ok(Names { seat, rule })
}

/// Returns why the head of the queue is not named.
fn not_named(alloc: Global, first: u16, told: &str) -> Result<String, AllocError> {
    format!(in alloc; "Seat {first} is first in the queue, and {told}")
}

/// Returns the place, with its entry.
fn place_of(alloc: Global, told: &Told) -> Result<Place, AllocError> {
    let number = told.number;
    match &told.found {
        None => Ok(Place {
            number,
            seat: None,
            entry: None,
        }),
        Some(found) => {
            let words = entry_words(alloc, found.entry)?;
            Ok(Place {
                number,
                seat: Some(found.entry.seat),
                entry: Some(words),
            })
        }
    }
}

/// Returns what is shown of a place in a history. The base is the state there.
pub(crate) fn shown_of(alloc: Global, base: &Base, told: &Told) -> Result<Shown, AllocError> {
    let standing = &told.standing;
    let mut by = Vec::new(alloc);
    let mut could = Vec::new(alloc);
    let mut names = None;
    if let Some(found) = &told.found {
        if found.is_legal {
            by = makers(alloc, base, standing, found)?;
            names = Some(names_of(alloc, found.naming)?);
        } else {
            could = others(alloc, base, standing, found)?;
        }
    }
    Ok(Shown {
        verdict: verdict_word(told.wrong),
        entry: told.wrong,
        explained: place_of(alloc, told)?,
        state: state_of(alloc, base, standing)?,
        by,
        could,
        names,
    })
}
