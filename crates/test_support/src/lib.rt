//! What tests of several crates use: texts of known situations, failing allocations, and a writer that
//! measures the free memory.
#![tactic(auto)]

pub mod examples;
pub mod memory;
pub mod watch;
