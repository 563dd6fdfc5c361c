//! The hooks of a reentrant lock.
#![tactic(auto)]

pub mod lock;
