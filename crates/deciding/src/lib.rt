//! Decides which entry a step makes, and how an entry changes permits, reserved room and queue.
//!
//! [`entry_for`](decide::entry_for) decides for any state that implements the trait
//! [`ObjectState`](situation::ObjectState), and [`balance_of`](balance::balance_of) adds up such a state. The
//! core and the audit each have such a state. The other functions depend on their arguments alone.
#![tactic(auto)]

pub mod amounts;
pub mod arrivals;
pub mod balance;
pub mod checks;
pub mod claim;
pub mod decide;
pub mod entries;
pub mod room;
pub mod situation;
pub mod sleep;
pub mod tables;
