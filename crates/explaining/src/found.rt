//! What is told of an entry.

use crate::explanation::Standing;
use crate::naming::Naming;
use crate::way::Way;
use history::entry::Entry;

/// An entry, and what is known of it.
#[derive(Drop)]
pub struct Found {
    pub entry: Entry,
    pub is_legal: bool,
    /// What each step of its seat makes.
    pub ways: Vec<Way>,
    /// Whom it names; told only if it is legal.
    pub naming: Naming,
}

/// What is told of one place in a history.
#[derive(Drop)]
pub struct Told {
    /// The number of the history's first illegal entry, if there is one.
    pub wrong: Option<u64>,
    /// The number of the entry, or of the next one after the last.
    pub number: u64,
    pub standing: Standing,
    /// The entry, unless the history ends before it.
    pub found: Option<Found>,
}
