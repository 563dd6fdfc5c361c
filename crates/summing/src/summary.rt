//! The summary of a history.

use crate::peak::Peak;
use crate::row::Row;
use crate::tally::ConditionTally;

/// The summary of a history.
#[derive(Drop)]
pub struct Summary {
    /// How many entries there are.
    pub entries: u64,
    /// How many acquires that waited were granted.
    pub grants: u64,
    pub peak: Peak,
    /// A row for each seat that made an entry, in the order of seats.
    pub rows: Vec<Row>,
    /// What is counted for each condition.
    pub conditions: Vec<ConditionTally>,
}
