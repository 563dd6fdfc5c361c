//! What each step of a seat makes.

ghost use Rattle.std.specs.Prelude.{◌≡◌, ◌++◌, List, IfOk, OnOk};
ghost use Rattle.explaining.specs.Below.{Start, Entry, HasSeat};
ghost use Rattle.explaining.specs.Ways.{is_it, same_entry, way_of, ways_of};

use crate::steps::steps_of;
use crate::why::{Why, why_of};
use deciding::decide::entry_for;
use deciding::situation::ObjectState;
use history::entry::Entry;
use history::step::Step;
use std::alloc::{AllocError, Global};

/// A step that a seat could take, with the entry that it makes, or `None` for sleep.
#[derive(Clone, Copy, Debug, PartialEq, Eq)]
pub struct Way {
    pub step: Step,
    pub made: Option<Entry>,
    pub why: Why,
    /// Whether it makes the entry that is explained.
    pub is_it: bool,
}

/// Returns whether two entries are the same.
fn is_same(one: Entry, other: Entry) -> bool
    ensures { result ≡ same_entry one other }
{
    one == other
}

/// Returns whether the entry was made.
fn is_it(made: Option<Entry>, entry: Entry) -> bool
    ensures { result ≡ is_it made entry }
{
    match made {
        Some(made) => is_same(made, entry),
        None => false,
    }
}

/// Appends what a step of the entry's seat makes, unless it makes a fault that isn't recorded.
fn put_way<T: ObjectState>(
    ways: &mut Vec<Way>,
    state: &T,
    entry: Entry,
    step: Step,
) -> Result<(), AllocError>
    requires { HasSeat T.stands state.now entry.seat }
    ensures { OnOk result ((s : Start) (h : List Entry) → T.stands s h state.now
        → ways.new.items ≡ ways.old.items ++ way_of s h entry step) }
{
    match entry_for(state, entry.seat, step) {
        Ok(made) => {
            let why = why_of(state, entry.seat, step, made);
            ways.push(Way {
                step,
                made,
                why,
                is_it: is_it(made, entry),
            })?;
            Ok(())
        }
        Err(_) => Ok(()),
    }
}

/// Returns what each step of the entry's seat makes.
pub(crate) fn ways_of<T: ObjectState>(
    alloc: Global,
    state: &T,
    entry: Entry,
) -> Result<Vec<Way>, AllocError>
    requires { HasSeat T.stands state.now entry.seat }
    ensures { IfOk result (λ ways. (s : Start) (h : List Entry) → T.stands s h state.now
        → ways.items ≡ ways_of s h entry) }
{
    let steps = steps_of(alloc, *state.header(), entry.n)?;
    let mut ways = Vec::new(alloc);
    for step in &steps {
        put_way(&mut ways, state, entry, *step)?;
    }
    Ok(ways)
}
