//! The hooks of a reentrant read-write lock.
#![tactic(auto)]

pub mod hooks;
