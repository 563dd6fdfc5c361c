//! Scripts of threads: the objects, and the calls that each thread makes of them.
//!
//! A script is a JSON text. [`read_script`] returns the script, or the first fault of the text.
#![tactic(auto)]

mod action;
mod action_text;
mod building;
mod call;
mod call_text;
mod fault;
mod json;
pub mod limits;
mod name;
mod objects;
mod reading;
mod script;
mod worker;
mod workers;

pub use crate::action::Action;
pub use crate::call::Call;
pub use crate::fault::ScriptFault;
pub use crate::reading::read_script;
pub use crate::script::Script;
pub use crate::worker::Worker;
