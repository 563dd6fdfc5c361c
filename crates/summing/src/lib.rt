//! Sums a history up: a row for each seat that made an entry, and a line for each condition.
//!
//! [`Summing`](summing::Summing) takes the entries of a legal history one after another, and keeps none of
//! them.
//!
//! Each number counts entries of the list, or measures a wait in entries. The queue and the holds are those of
//! a [`Ledger`](audit::ledger::Ledger).
//!
//! [`summary_text`](document::summary_text) tells a summary in lines of a fixed form, and
//! [`summary_json`](json::summary_json) as one JSON object. These have no definition: what makes them fails for
//! want of memory alone, and tests hold their words.
#![tactic(auto)]

mod conditions;
pub mod document;
pub mod json;
pub mod passing;
pub mod peak;
pub mod row;
mod shown;
pub mod summary;
pub mod summing;
pub mod tally;
pub mod words;
