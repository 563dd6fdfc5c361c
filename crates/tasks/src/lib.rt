//! The tasks of the program `aqs`, over any source and sink, and how the program ends: the fault that it
//! prints, and its exit status.
#![tactic(auto)]

pub mod ending;
pub mod explain;
pub mod fault;
pub mod names;
pub mod perform;
pub mod ran;
pub mod run_script;
pub mod task;
mod text_source;
pub mod timed;
