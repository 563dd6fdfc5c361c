//! The hooks of any of the four objects, as one type.
//!
//! A monitor is generic over the hooks of its object. To keep objects of several kinds in one list, open each
//! with [`AnyHooks`].
#![tactic(auto)]

mod any_hooks;

pub use any_hooks::AnyHooks;
